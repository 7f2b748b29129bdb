//! Threads: calls in progress and to come.

ghost use Rattle.std.specs.Prelude.{◌≡◌, ◌++◌, ◌∷◌, [], IfOk, IsSome, Some, None, false, filter_map, map, zip};
ghost use Rattle.syntax.specs.Limits.{IsTree};
ghost use Rattle.syntax.specs.Views.{function_tree, parameter_tree, unit_tree};
ghost use Rattle.type_rules.specs.TypeRules.{IsWellTyped};
ghost use Rattle.world_values.specs.Views.{object_value_view};
ghost use Rattle.semantics.specs.Activation.{parameter_variables, class_of_function, named_object, entry_frame};
ghost use Rattle.semantics.specs.Return.{ending_after};
ghost use Rattle.semantics.specs.Thread.{Shared as SharedOfThreads};
ghost use Rattle.semantics.specs.Variable.{LocalRef};
ghost use Rattle.semantics.specs.Views.{name_of};
ghost use Rattle.class_rules.specs.ClassIds.{number_of};
ghost use Rattle.class_rules.specs.Grown.{IsGrown};
ghost use Rattle.semantics.specs.World.{Invocation};
ghost use Rattle.replay_threads.specs.Threads.{argument_content, AreCalling, AttemptsCalling, AttemptsNumber, AttemptsStep, BeginsNext, IsBegun, EndsStep, HasCalled, HasLeft, HasPushed, HasResumed, HasReturned, TakesTurn, ThreadInRange, ThreadWaits, WorkInRange, event_of, last_first};
ghost use Rattle.replay_steps.specs.Callers.{IsCalling};
ghost use Rattle.replay_tasks.specs.Outcomes.{result_view};
ghost use Rattle.replay_tasks.specs.Tasks.{StatementsInRange};
ghost use Rattle.syntax.specs.declared.stmt.Block.{out-Block};
ghost use Rattle.replay_arguments.specs.Shares.{shared_view};
ghost use Rattle.replay_terms.specs.Views.{assign_all, content_view, variables_view};

use base::limits::MOST_ACTIVATIONS;
use class_queries::native_class;
use class_rules::ClassId;
use classes::table::ClassTable;
use functions::Functions;
use jni::JniFunction;
use replay_arguments::{Locals, Shared, Turn};
use replay_objects::{Frames, Names, Store};
use replay_steps::{
    Activation, Attempt, Entering, advance, attempt_call, attempt_field, attempt_step, entering_of,
    resume, waits, work_of,
};
use replay_tasks::{CallResult, Outcome, Task};
use replay_terms::{Content, Variables};
use semantics::{CALL_LEVEL, Ending, Event, ObjectId, Trap, Value};
use std::alloc::{AllocError, Global};
use syntax::{Function, Parameter};
use world_values::{Call, ObjectValue, World};

/// A thread: the calls to come, the one in progress, those from which it was made, the pending exception, and how it has
/// ended.
pub struct Thread<'a> {
    /// One that another has made, which is to be entered before those that the world has.
    pub entering: Option<Entering<'a>>,
    pub calls: &'a [Call],
    pub activation: Option<Activation<'a>>,
    /// Each made the one after it, and the last one made the call in progress.
    pub callers: Vec<Activation<'a>>,
    pub pending: Option<ObjectId>,
    pub ending: Ending,
}

impl Drop for Thread<'_> {
    fn drop(self) {
        let Thread {
            entering,
            calls: _,
            activation,
            callers,
            pending: _,
            ending: _,
        } = self;
        drop(entering);
        drop(activation);
        drop(callers);
    }
}

/// What a parameter holds at first.
fn content_of<'a>(argument: ObjectValue) -> Content<'a>
    ensures { content_view result ≡ argument_content (object_value_view argument) }
{
    match argument {
        ObjectValue::Number(z) => Content::Number(Value::Int(z)),
        ObjectValue::Reference(reference) => Content::Reference {
            level: CALL_LEVEL,
            object: reference,
        },
    }
}

/// Adds the variables of parameters, each with its argument.
fn add_parameters<'a>(
    variables: &mut Variables<'a>,
    parameters: &'a [Parameter],
    arguments: &[ObjectValue],
) -> Result<(), AllocError>
    ensures { IfOk result (λ _. variables_view variables.new
        ≡ assign_all (parameter_variables (zip (map parameter_tree parameters.entry.now)
        (map object_value_view arguments.entry.now))) (variables_view variables.old)) }
{
    match parameters {
        [] => Ok(()),
        [parameter, parameters @ ..] => match arguments {
            [] => Ok(()),
            [argument, arguments @ ..] => {
                variables.set(&parameter.name, content_of(*argument))?;
                add_parameters(variables, parameters, arguments)
            }
        },
    }
}

/// The class among these whose native method a function is.
fn class_among(
    alloc: Global,
    classes: &ClassTable,
    function: &Function,
) -> Result<Option<ClassId>, AllocError>
    ensures { IfOk result (λ class. number_of class ≡ class_of_function classes.now (function_tree function.now)) }
{
    let class = native_class(alloc, classes, function.name.as_bytes())?;
    Ok(class)
}

/// The class whose native method a function is.
pub fn class_of(
    alloc: Global,
    world: &World,
    function: &Function,
) -> Result<Option<ClassId>, AllocError>
    ensures { IfOk result (λ class. number_of class ≡ class_of_function world.now.classes (function_tree function.now)) }
{
    class_among(alloc, world.classes(), function)
}

/// The variables with which a call begins: the class, and the parameters. In an accepted unit no two have one name.
fn entry_variables<'a>(
    alloc: Global,
    function: &'a Function,
    class: ClassId,
    arguments: &[ObjectValue],
) -> Result<Variables<'a>, AllocError>
    ensures { IfOk result (λ variables. variables_view variables
        ≡ assign_all ((function.entry.now.class_name, LocalRef 1 (Some class.number)) ∷ parameter_variables
        (zip (function_tree function.entry.now).parameters (map object_value_view arguments.now))) []) }
{
    let mut variables = Variables::new(alloc);
    variables.set(
        &function.class_name,
        Content::Reference {
            level: CALL_LEVEL,
            object: Some(ObjectId::of_class(class)),
        },
    )?;
    add_parameters(&mut variables, &function.parameters, arguments)?;
    Ok(variables)
}

/// Puts those of the arguments that are objects among local references, the first argument last.
fn add_references(references: &mut Names, arguments: &[ObjectValue]) -> Result<(), AllocError>
    ensures { IfOk result (λ _. references.new
        ≡ filter_map named_object (map object_value_view arguments.entry.now) ++ references.old) }
{
    match arguments {
        [] => Ok(()),
        [argument, arguments @ ..] => {
            add_references(references, arguments)?;
            if let ObjectValue::Reference(Some(object)) = argument {
                references.push(*object)?;
            }
            Ok(())
        }
    }
}

/// The frame with which a call begins: the class and the arguments that are objects, and room for 16 more (JNI
/// Specification, chapter 4, "EnsureLocalCapacity").
fn entry_frames(
    alloc: Global,
    class: ClassId,
    arguments: &[ObjectValue],
) -> Result<Frames, AllocError>
    ensures { IfOk result (λ frames. frames
        ≡ entry_frame (class.number ∷ filter_map named_object (map object_value_view arguments.now)) ∷ []) }
{
    let mut references = Names::new(alloc);
    add_references(&mut references, arguments)?;
    references.push(ObjectId::of_class(class))?;
    let capacity = references.len() + 16;
    Frames::new(alloc, capacity, references)
}

/// Puts a call, or none, in the place of the one in progress.
fn put_activation<'a>(place: &mut Option<Activation<'a>>, activation: Option<Activation<'a>>)
    ensures { place.new ≡ activation.entry }
{
    *place = activation;
}

/// Begins the call of a function of this class, in the place of the call in progress.
#[inline]
fn begin_call<'a>(
    alloc: Global,
    place: &mut Option<Activation<'a>>,
    function: &'a Function,
    class: ClassId,
    arguments: &[ObjectValue],
) -> Result<(), AllocError>
    requires { StatementsInRange (out-Block function.now.body).statements.items }
    ensures { IfOk result (λ _. IsBegun function.entry.now class.number arguments.now place.new) }
{
    let work = work_of(alloc, &function.body)?;
    let variables = entry_variables(alloc, function, class, arguments)?;
    let frames = entry_frames(alloc, class, arguments)?;
    let locals = Locals { variables, frames };
    let activation = Activation { work, locals };
    put_activation(place, Some(activation));
    Ok(())
}

/// Begins the call of the function of this name in the place of the one in progress; false where the function or its class is
/// unknown.
#[inline]
fn begin_next<'a>(
    functions: &Functions<'a>,
    turn: &Turn<'a>,
    name: &[u8],
    arguments: &[ObjectValue],
    place: &mut Option<Activation<'a>>,
) -> Result<bool, AllocError>
    requires tree { IsTree (unit_tree functions.now) }
    requires well_typed { IsWellTyped (unit_tree functions.now) }
    ensures { IfOk result (λ begun. (call : Invocation) → call.function ≡ name.now → call.arguments ≡ map object_value_view arguments.now
        → BeginsNext (unit_tree functions.now) turn.now.classes.now call begun place.old place.new) }
{
    let Some(found) = functions.find(name) else {
        return Ok(false);
    };
    let Some(class) = class_among(turn.alloc, turn.classes, found.function)? else {
        return Ok(false);
    };
    begin_call(turn.alloc, place, found.function, class, arguments)?;
    Ok(true)
}

/// Enters the call that another has made; none where that isn't possible.
fn enter_called<'a>(
    functions: &Functions<'a>,
    turn: Turn<'a>,
    thread: &mut Thread<'a>,
) -> Result<Option<Event>, AllocError>
    requires tree { IsTree (unit_tree functions.now) }
    requires well_typed { IsWellTyped (unit_tree functions.now) }
    requires goes { turn.refused ≡ false }
    requires idle { thread.old.activation ≡ None }
    requires range { ThreadInRange thread.old }
    requires called { IsSome thread.old.entering }
    ensures step { IfOk result (λ took. (shared : SharedOfThreads)
        → TakesTurn (unit_tree functions.now) turn.entry shared thread.old took shared thread.new) }
    ensures range { IfOk result (λ _. ThreadInRange thread.new) }
{
    let Some(call) = &thread.entering else {
        unreachable!()
    };
    let place = &mut thread.activation;
    if !begin_next(functions, &turn, call.function, &call.arguments, place)? {
        return Ok(None);
    }
    thread.entering = None;
    Ok(Some(Event::Quiet))
}

/// Enters the next of the calls that the world has; none where that isn't possible.
fn enter_next<'a>(
    functions: &Functions<'a>,
    turn: Turn<'a>,
    thread: &mut Thread<'a>,
) -> Result<Option<Event>, AllocError>
    requires tree { IsTree (unit_tree functions.now) }
    requires well_typed { IsWellTyped (unit_tree functions.now) }
    requires goes { turn.refused ≡ false }
    requires idle { thread.old.activation ≡ None }
    requires range { ThreadInRange thread.old }
    requires uncalled { thread.old.entering ≡ None }
    ensures step { IfOk result (λ took. (shared : SharedOfThreads)
        → TakesTurn (unit_tree functions.now) turn.entry shared thread.old took shared thread.new) }
    ensures range { IfOk result (λ _. ThreadInRange thread.new) }
{
    let Some((call, rest)) = thread.calls.split_first() else {
        return Ok(None);
    };
    let name = call.function();
    let arguments = call.arguments();
    if !begin_next(functions, &turn, name, arguments, &mut thread.activation)? {
        return Ok(None);
    }
    thread.calls = rest;
    Ok(Some(Event::Quiet))
}

/// Enters the next call; none where that isn't possible.
fn enter<'a>(
    functions: &Functions<'a>,
    turn: Turn<'a>,
    thread: &mut Thread<'a>,
) -> Result<Option<Event>, AllocError>
    requires tree { IsTree (unit_tree functions.now) }
    requires well_typed { IsWellTyped (unit_tree functions.now) }
    requires idle { thread.old.activation ≡ None }
    requires range { ThreadInRange thread.old }
    ensures step { IfOk result (λ took. (shared : SharedOfThreads)
        → TakesTurn (unit_tree functions.now) turn.entry shared thread.old took shared thread.new) }
    ensures range { IfOk result (λ _. ThreadInRange thread.new) }
{
    // An entry makes no object that could be refused.
    if turn.refused {
        return Ok(None);
    }
    match &thread.entering {
        Some(_) => enter_called(functions, turn, thread),
        None => enter_next(functions, turn, thread),
    }
}

/// What others see of what a call in progress did; none where it did nothing that is possible.
fn event_of(outcome: Outcome<'_>) -> Option<Event>
    ensures { result ≡ event_of outcome.entry }
{
    match outcome {
        Outcome::Stays | Outcome::Sets(_, _) | Outcome::SetsNull(_) => Some(Event::Quiet),
        Outcome::Gives(_, _) | Outcome::Lends(_, _) => Some(Event::Quiet),
        Outcome::SetsElement { .. } => Some(Event::Quiet),
        Outcome::Tests { .. } | Outcome::Makes { .. } => Some(Event::Quiet),
        Outcome::Enters(_, _) => Some(Event::Quiet),
        Outcome::Ends | Outcome::Returned(_) | Outcome::Calls { .. } => Some(Event::Quiet),
        Outcome::Printed(z) => Some(Event::PrintedNumber(z)),
        Outcome::Trapped { trap, line } => Some(Event::Trapped { trap, line }),
        Outcome::Impossible => None,
    }
}

/// The ending of a thread after its call, with this exception pending and these calls to come.
fn ending_after(store: &Store, pending: Option<ObjectId>, calls: &[Call]) -> Ending
    ensures { result ≡ ending_after store.now (name_of pending) calls.now }
{
    match pending {
        Some(exception) => Ending::Uncaught(store.class_of(exception)),
        None => match calls {
            [] => Ending::Ended,
            [_, ..] => Ending::Unfinished,
        },
    }
}

/// Ends the call in progress of thread `k`. With an exception pending, or no call to come, the thread has ended, and
/// owns no monitor.
fn leave(shared: &mut Shared<'_>, k: u8, thread: &mut Thread<'_>)
    ensures { HasLeft k (shared_view shared.old) thread.old (shared_view shared.new) thread.new }
{
    let ending = ending_after(&shared.store, thread.pending, thread.calls);
    put_activation(&mut thread.activation, None);
    thread.pending = None;
    thread.ending = ending;
    match ending {
        Ending::Unfinished => {}
        Ending::Ended | Ending::Uncaught(_) => {
            thread.calls = &[];
            shared.monitors.drop_owner(k);
        }
    }
}

/// Lets the call go on that made the one in progress, which returned this.
fn resume_caller<'a>(
    alloc: Global,
    shared: &mut Shared<'a>,
    thread: &mut Thread<'a>,
    caller: Activation<'a>,
    returned: CallResult,
) -> Result<(), AllocError>
    requires { IsCalling caller.work }
    ensures { IfOk result (λ _. HasResumed (shared_view shared.old) thread.old (result_view returned)
        caller.entry (last_first thread.old.callers.items) (shared_view shared.new) thread.new) }
{
    let mut caller = caller;
    resume(alloc, shared, thread.pending, &mut caller, returned)?;
    put_activation(&mut thread.activation, Some(caller));
    Ok(())
}

/// Returns from the call in progress of thread `k`: into the call that made it, or, where there is none, as the end of what
/// the thread called.
fn return_from<'a>(
    alloc: Global,
    shared: &mut Shared<'a>,
    k: u8,
    thread: &mut Thread<'a>,
    returned: CallResult,
) -> Result<(), AllocError>
    requires { AreCalling (last_first thread.old.callers.items) }
    ensures { IfOk result (λ _. HasReturned k (shared_view shared.old) thread.old (result_view returned)
        (shared_view shared.new) thread.new) }
{
    match thread.callers.pop() {
        Some(caller) => resume_caller(alloc, shared, thread, caller, returned),
        None => {
            leave(shared, k, thread);
            Ok(())
        }
    }
}

/// Lets the call in progress wait for this one, which is to be entered.
fn push_caller<'a>(thread: &mut Thread<'a>, call: Entering<'a>) -> Result<(), AllocError>
    requires { IsSome thread.old.activation }
    ensures { IfOk result (λ _. (caller : _) → thread.old.activation ≡ Some caller → HasPushed thread.old caller call.entry thread.new) }
{
    thread.callers.reserve(1)?;
    let Some(caller) = thread.activation.take() else {
        unreachable!()
    };
    thread.callers.push(caller)?;
    thread.entering = Some(call);
    Ok(())
}

/// Lets the call in progress call the method whose function has this name, in this line: it waits for that call, or the run stops,
/// where 64 calls are in progress already.
#[inline(never)]
fn call_method<'a>(
    alloc: Global,
    shared: &Shared<'a>,
    thread: &mut Thread<'a>,
    line: usize,
    function: &'a [u8],
) -> Result<Option<Event>, AllocError>
    requires { WorkInRange thread.old.activation }
    ensures { IfOk result (λ took. HasCalled (shared_view shared.now) thread.old thread.old.activation line function.entry.now took thread.new) }
{
    let Some(activation) = &thread.activation else {
        return Ok(None);
    };
    let Some(call) = entering_of(alloc, shared, activation, line, function)? else {
        return Ok(None);
    };
    if thread.callers.len() + 1 >= MOST_ACTIVATIONS {
        let trap = Trap::CallsTooDeep;
        return Ok(Some(Event::Trapped { trap, line }));
    }
    push_caller(thread, call)?;
    Ok(Some(Event::Quiet))
}

/// Leaves the call in progress of thread `k` if it returned, and lets it wait if it calls a method. Tells what others see of what it did; none where it did
/// nothing that is possible.
#[inline]
fn end_step<'a>(
    alloc: Global,
    shared: &mut Shared<'a>,
    k: u8,
    thread: &mut Thread<'a>,
    outcome: Outcome<'a>,
) -> Result<Option<Event>, AllocError>
    requires callers { AreCalling (last_first thread.old.callers.items) }
    requires work { WorkInRange thread.old.activation }
    ensures { IfOk result (λ took. EndsStep k (shared_view shared.old) thread.old outcome.entry took
        (shared_view shared.new) thread.new) }
{
    match outcome {
        Outcome::Returned(returned) => {
            return_from(alloc, shared, k, thread, returned)?;
            Ok(Some(Event::Quiet))
        }
        Outcome::Calls { line, function } => call_method(alloc, shared, thread, line, function),
        outcome => Ok(event_of(outcome)),
    }
}

/// Whether thread `k`, counted from 1, waits for a monitor that another thread owns.
#[inline]
pub(crate) fn is_waiting<'a>(
    classes: &'a ClassTable,
    k: usize,
    shared: &Shared<'a>,
    thread: &Thread<'a>,
) -> bool
    ensures { ThreadWaits classes.now k (shared_view shared.now) thread.now result }
{
    match &thread.activation {
        None => false,
        Some(activation) => waits(classes, k, shared, thread.pending, activation),
    }
}

/// Lets a thread take its next step, where that is a term's, or changes nothing but variables and tasks, and nothing is refused.
#[inline(always)]
pub(crate) fn try_step<'a>(
    alloc: Global,
    shared: &Shared<'a>,
    thread: &mut Thread<'a>,
) -> Result<Attempt, AllocError>
    requires { ThreadInRange thread.old }
    ensures step { IfOk result (λ took. AttemptsStep (shared_view shared.now) thread.old took thread.new) }
    ensures range { IfOk result (λ _. ThreadInRange thread.new) }
{
    match &mut thread.activation {
        Some(activation) => attempt_step(alloc, shared, activation),
        None => Ok(Attempt::Left),
    }
}

/// Lets a thread take its next step, where that reads or writes a number of an object; false where there is more to do, and then all is as it
/// was.
#[inline(always)]
pub(crate) fn try_field<'a>(
    alloc: Global,
    classes: &ClassTable,
    shared: &mut Shared<'a>,
    thread: &mut Thread<'a>,
) -> Result<bool, AllocError>
    requires range { ThreadInRange thread.old }
    requires grown { IsGrown classes.now }
    ensures step { IfOk result (λ took. AttemptsNumber classes.now (shared_view shared.old) thread.old took (shared_view shared.new) thread.new) }
    ensures range { IfOk result (λ _. ThreadInRange thread.new) }
{
    if thread.pending.is_some() {
        return Ok(false);
    }
    match &mut thread.activation {
        Some(activation) => attempt_field(alloc, classes, shared, activation),
        None => Ok(false),
    }
}

/// What a thread calls in its next step.
#[derive(Clone, Copy)]
pub(crate) enum NextCall {
    /// A function that reads or writes a number of an object.
    Number,
    /// Another function.
    Other,
    /// Nothing.
    Nothing,
}

/// What a thread calls in its next step.
#[inline(always)]
pub(crate) fn next_call(thread: &Thread<'_>) -> NextCall {
    let Some(activation) = &thread.activation else {
        return NextCall::Nothing;
    };
    let Some(Task::Invoke(i)) = &activation.work.task else {
        return NextCall::Nothing;
    };
    match i.function {
        JniFunction::GetField(_) | JniFunction::SetField(_) => NextCall::Number,
        _ => NextCall::Other,
    }
}

/// Lets a thread take its next step, where that is a call that gives something at once; false where there is more to do, and then all is as it
/// was.
#[inline(always)]
pub(crate) fn try_call<'a>(
    turn: &Turn<'a>,
    shared: &mut Shared<'a>,
    thread: &mut Thread<'a>,
) -> Result<bool, AllocError>
    requires range { ThreadInRange thread.old }
    requires grown { IsGrown turn.now.classes.now }
    ensures step { IfOk result (λ took. AttemptsCalling (unit_tree turn.now.unit.now) turn.now.classes.now turn.now.thread
        (shared_view shared.old) thread.old took (shared_view shared.new) thread.new) }
    ensures range { IfOk result (λ _. ThreadInRange thread.new) }
{
    match &mut thread.activation {
        Some(activation) => attempt_call(turn, shared, &mut thread.pending, activation),
        None => Ok(false),
    }
}

/// Lets a thread that has not ended take its next step, or the same with its object refused. Tells what others see of
/// it; none where it isn't possible.
pub(crate) fn take_step<'a>(
    functions: &Functions<'a>,
    turn: Turn<'a>,
    shared: &mut Shared<'a>,
    thread: &mut Thread<'a>,
) -> Result<Option<Event>, AllocError>
    requires tree { IsTree (unit_tree functions.now) }
    requires well_typed { IsWellTyped (unit_tree functions.now) }
    requires unit { turn.unit.now ≡ functions.now }
    requires grown { IsGrown turn.classes.now }
    requires range { ThreadInRange thread.old }
    ensures step { IfOk result (λ took. TakesTurn (unit_tree functions.now) turn.entry
        (shared_view shared.old) thread.old took (shared_view shared.new) thread.new) }
    ensures range { IfOk result (λ _. ThreadInRange thread.new) }
{
    let Some(activation) = &mut thread.activation else {
        return enter(functions, turn, thread);
    };
    let outcome = advance(turn, shared, &mut thread.pending, activation)?;
    end_step(turn.alloc, shared, turn.thread, thread, outcome)
}
