//! Calls that wait for one that they made, and go on once it has returned.

ghost use Rattle.std.specs.Prelude.{◌≡◌, ℕ, IfOk, drop, length, map};
ghost use Rattle.semantics.specs.CallStep.{put};
ghost use Rattle.semantics.specs.Heap.{Heap};
ghost use Rattle.semantics.specs.Return.{fitted, given_back, nothing_of};
ghost use Rattle.semantics.specs.Views.{name_of};
ghost use Rattle.replay_arguments.specs.Shares.{shared_view};
ghost use Rattle.replay_steps.specs.Activations.{IsAtStatement};
ghost use Rattle.replay_steps.specs.Callers.{IsCalling, MakesCaller, Resumes};
ghost use Rattle.replay_tasks.specs.Outcomes.{LeavesVariables, purpose_view, result_view};
ghost use Rattle.replay_terms.specs.Views.{given_view};

use crate::activation::{Activation, begin};
use jni::ResultKind;
use replay_arguments::actual::{actuals, passed_values};
use replay_arguments::{Locals, Shared};
use replay_calls::carry_out::put_local;
use replay_tasks::{CallResult, Purpose, Task, end_task, put_given};
use replay_terms::{Given, Statics};
use semantics::{ObjectId, ObjectValue, Value};
use std::alloc::{AllocError, Global};

/// A call of a method that another call has made and that is to be entered.
#[derive(Drop)]
pub struct Entering<'a> {
    /// The line of the statement that calls the method.
    pub line: usize,
    /// The name of the function.
    pub function: &'a [u8],
    pub arguments: Vec<ObjectValue>,
}

/// The call of the method whose function has this name, which a call in progress makes in this line by its task. Its arguments are
/// looked up. None where the task is no call.
pub fn entering_of<'a>(
    alloc: Global,
    shared: &Shared<'a>,
    activation: &Activation<'a>,
    line: usize,
    function: &'a [u8],
) -> Result<Option<Entering<'a>>, AllocError>
    requires { IsAtStatement activation.now.work }
    ensures { IfOk result (λ entering. MakesCaller (shared_view shared.now) activation.now line function.entry.now entering) }
{
    let Some(task) = &activation.work.task else {
        return Ok(None);
    };
    let Task::Invoke(i) = task else {
        return Ok(None);
    };
    let variables = &activation.locals.variables;
    let actuals = actuals(alloc, shared, variables, i.function, &i.operands)?;
    let arguments = passed_values(alloc, &actuals)?;
    Ok(Some(Entering {
        line,
        function,
        arguments,
    }))
}

/// What a caller that wants a result of this kind is given with an exception pending: 0, NULL or nothing.
fn nothing_of<'a>(kind: ResultKind) -> Given<'a>
    ensures { given_view result ≡ nothing_of kind }
{
    match kind {
        ResultKind::NewLocal => Given::Null,
        ResultKind::GivesInt => Given::Number(0),
        ResultKind::NewGlobal | ResultKind::NewWeak | ResultKind::GivesFlag => Given::Nothing,
        ResultKind::GivesField | ResultKind::GivesMethod => Given::Nothing,
        ResultKind::GivesNothing | ResultKind::GivesBuffer(_) => Given::Nothing,
    }
}

/// What a caller that wants a result of this kind is given where none is pending. In accepted programs it fits.
fn fitted<'a>(kind: ResultKind, returned: CallResult) -> Given<'a>
    ensures { given_view result ≡ fitted kind (result_view returned) }
{
    match kind {
        ResultKind::NewLocal => match returned {
            CallResult::Reference(reference) => Given::Reference(reference),
            CallResult::Nothing | CallResult::Number(_) => Given::Null,
        },
        ResultKind::GivesInt => match returned {
            CallResult::Number(Value::Int(z)) => Given::Number(z),
            CallResult::Number(Value::Word(_) | Value::Flag(_) | Value::Truth(_)) => {
                Given::Number(0)
            }
            CallResult::Nothing | CallResult::Reference(_) => Given::Number(0),
        },
        ResultKind::NewGlobal | ResultKind::NewWeak | ResultKind::GivesFlag => Given::Nothing,
        ResultKind::GivesField | ResultKind::GivesMethod => Given::Nothing,
        ResultKind::GivesNothing | ResultKind::GivesBuffer(_) => Given::Nothing,
    }
}

/// What a caller that wants a result of this kind is given.
fn given_back<'a>(pending: Option<ObjectId>, kind: ResultKind, returned: CallResult) -> Given<'a>
    ensures { given_view result ≡ given_back (name_of pending) kind (result_view returned) }
{
    match pending {
        Some(_) => nothing_of(kind),
        None => fitted(kind, returned),
    }
}

/// Puts what a call gave where it belongs; nowhere where the call is the test of an `if`.
fn put_result<'a>(
    statics: &mut Statics<'a>,
    locals: &mut Locals<'a>,
    purpose: Purpose<'a>,
    given: Given<'a>,
) -> Result<(), AllocError>
    ensures variables { IfOk result (λ _. (line : ℕ) (heap : Heap)
        → LeavesVariables (length locals.old.frames) statics.old heap locals.old.variables
        (put (purpose_view line purpose.entry) (given_view given.entry)) statics.new heap locals.new.variables) }
    ensures frames { locals.new.frames ≡ locals.old.frames }
{
    let frames = locals.frames.len();
    match purpose {
        Purpose::Put(target) => put_given(statics, frames, &mut locals.variables, target, given),
        Purpose::Test(_, _) => Ok(()),
    }
}

/// Gives a call what the one returned that it made, with this exception pending or none, and begins what comes next.
pub fn resume<'a>(
    alloc: Global,
    shared: &mut Shared<'a>,
    pending: Option<ObjectId>,
    caller: &mut Activation<'a>,
    returned: CallResult,
) -> Result<(), AllocError>
    requires { IsCalling caller.old.work }
    ensures step { IfOk result (λ _. Resumes (shared_view shared.old) (name_of pending) (result_view returned)
        caller.old (shared_view shared.new) caller.new) }
    ensures range { IfOk result (λ _. IsAtStatement caller.new.work) }
{
    let Some(Task::Invoke(i)) = &caller.work.task else {
        unreachable!()
    };
    let purpose = i.purpose;
    let kind = i.function.prototype().result;
    let given = given_back(pending, kind, returned);
    put_local(&mut caller.locals.frames, kind, given)?;
    put_result(&mut shared.statics, &mut caller.locals, purpose, given)?;
    end_task(&mut caller.work.task);
    begin(alloc, &mut caller.work)
}
