//! Calls of functions of the JNI (JNI Specification, chapter 4).

ghost use Rattle.std.specs.Prelude.{◌≡◌, IfOk, List, if◌then◌else◌, map, true, false};
ghost use Rattle.class_rules.specs.Grown.{IsGrown};
ghost use Rattle.replay_tasks.specs.declared.outcome.Outcome.TheVariants as outcome;
ghost use Rattle.replay_tasks.specs.declared.task.Task.TheVariants as task;
ghost use Rattle.semantics.specs.Arguments.{Actual as ActualOfCall, address_given};
ghost use Rattle.semantics.specs.Thread.{Shared as SharedOfThreads};
ghost use Rattle.replay_arguments.specs.Actuals.{actual_view};
ghost use Rattle.replay_calls.specs.Answers.{answer_view};
ghost use Rattle.replay_steps.specs.Calls.{HasAnswer, MakesCallOf, MakesInvocation, ReducesFirst, ReducesListed, ReducesOne, lent_outcome, wanted_element};
ghost use Rattle.replay_tasks.specs.Outcomes.{outcome_for};
ghost use Rattle.replay_arguments.specs.declared.scene.Locals.{Locals as LocalsInMemory};
ghost use Rattle.replay_steps.specs.Steps.{Does, scene_at, scene_of};
ghost use Rattle.replay_arguments.specs.Shares.{shared_view, sight_in};
ghost use Rattle.replay_tasks.specs.Tasks.{ListedInRange, OperandInRange, OperandsInRange, OutcomeInRange, PurposeInRange};
ghost use Rattle.replay_terms.specs.declared.operand.Operand.TheVariants as operand;
ghost use Rattle.replay_terms.specs.Views.{NumbersInRange, lent_view, variables_view};
ghost use Rattle.semantics.specs.CallEffects.{BufferResult};
ghost use Rattle.semantics.specs.CallStep.{tell_copy};
ghost use Rattle.semantics.specs.Heap.{Heap};

use replay_arguments::actual::{Actual, actuals, address_given};
use replay_arguments::{Locals, Scene, Shared, Turn};
use replay_calls::carry_out::{Done, carry_out, makes_object, put_local, refuse};
use replay_calls::{Answer, Caller, answer_or_trap, tell_copy};
use replay_tasks::{Invocation, Outcome, Purpose, Target, reduced};
use replay_terms::{
    Evaluated, Given, Lent, Operand, Operands, Reduction, Term, Variables, is_zero, number_in,
    reduce,
};
use semantics::{ObjectId, VariableKind};
use std::alloc::AllocError;
use syntax::ElementType;

/// The step of a call: the first of its numbers that isn't worked out takes a step, or else the call is made. With its
/// object refused it is possible only where it makes one.
pub(crate) fn invoke<'a>(
    turn: Turn<'a>,
    shared: &mut Shared<'a>,
    pending: &mut Option<ObjectId>,
    locals: &mut Locals<'a>,
    i: &mut Invocation<'a>,
) -> Result<Outcome<'a>, AllocError>
    requires numbers { OperandsInRange i.old.operands }
    requires branches { PurposeInRange i.old.purpose }
    requires grown { IsGrown turn.classes.now }
    ensures step { IfOk result (λ o. Does turn.entry.refused
        (scene_at turn.entry shared.old locals.old pending.old) (task.Invoke i.old) o
        (scene_at turn.entry shared.new locals.new pending.new) (task.Invoke i.new)) }
    ensures numbers { IfOk result (λ _. OperandsInRange i.new.operands) }
    ensures function { i.new.function ≡ i.old.function }
    ensures purpose { i.new.purpose ≡ i.old.purpose }
    ensures range { IfOk result OutcomeInRange }
{
    let line = i.line;
    if let Some(reduction) = reduce_number(shared, &locals.variables, i) {
        return Ok(unless_refused(turn.refused, reduced(line, reduction)));
    }
    make_call(turn, shared, pending, locals, i)
}

/// The step of a call whose numbers are worked out: its arguments are looked up, and it is made.
#[inline]
fn make_call<'a>(
    turn: Turn<'a>,
    shared: &mut Shared<'a>,
    pending: &mut Option<ObjectId>,
    locals: &mut Locals<'a>,
    i: &Invocation<'a>,
) -> Result<Outcome<'a>, AllocError>
    requires branches { PurposeInRange i.now.purpose }
    requires grown { IsGrown turn.classes.now }
    ensures step { IfOk result (λ o. MakesInvocation turn.entry.refused
        (scene_at turn.entry shared.old locals.old pending.old) i.entry.now o
        (scene_at turn.entry shared.new locals.new pending.new)) }
    ensures range { IfOk result OutcomeInRange }
{
    let actuals = actuals(
        turn.alloc,
        shared,
        &locals.variables,
        i.function,
        &i.operands,
    )?;
    call(turn, shared, pending, locals, i, &actuals)
}

/// Lets the first number of a call that isn't worked out take a step; none where each is.
#[inline(always)]
pub(crate) fn reduce_number(
    shared: &Shared<'_>,
    variables: &Variables<'_>,
    i: &mut Invocation<'_>,
) -> Option<Reduction>
    requires { OperandsInRange i.old.operands }
    ensures step { ReducesFirst (sight_in (shared_view shared.now) variables.now)
        i.old.operands result i.new.operands }
    ensures numbers { OperandsInRange i.new.operands }
    ensures line { i.new.line ≡ i.old.line }
    ensures purpose { i.new.purpose ≡ i.old.purpose }
    ensures function { i.new.function ≡ i.old.function }
    ensures same { i.new.operands ≡ i.old.operands → i.new ≡ i.old }
{
    reduce_operands(shared, variables, &mut i.operands)
}

/// The same of a call's operands.
#[inline(always)]
fn reduce_operands(
    shared: &Shared<'_>,
    variables: &Variables<'_>,
    operands: &mut Operands<'_>,
) -> Option<Reduction>
    requires { OperandsInRange operands.old }
    ensures step { ReducesFirst (sight_in (shared_view shared.now) variables.now) operands.old result operands.new }
    ensures numbers { OperandsInRange operands.new }
{
    match operands {
        Operands::Given(_) => None,
        Operands::Last(_, number) => reduce_term(shared, variables, number),
        Operands::Listed(operands) => reduce_first(shared, variables, operands),
    }
}

/// Lets the first of these numbers that isn't worked out take a step; none where each is.
#[inline(always)]
fn reduce_first(
    shared: &Shared<'_>,
    variables: &Variables<'_>,
    operands: &mut [Operand<'_>],
) -> Option<Reduction>
    requires { ListedInRange operands.old }
    ensures step { ReducesListed (sight_in (shared_view shared.now) variables.now) operands.old result operands.new }
    ensures numbers { ListedInRange operands.new }
{
    for place in 0..operands.len() {
        let reduction = reduce_one(shared, variables, &mut operands[place]);
        if reduction.is_some() {
            return reduction;
        }
    }
    None
}

/// Lets a number that isn't worked out take a step; none where there is nothing to work out.
#[inline(always)]
fn reduce_one(
    shared: &Shared<'_>,
    variables: &Variables<'_>,
    operand: &mut Operand<'_>,
) -> Option<Reduction>
    requires { OperandInRange operand.old }
    ensures step { ReducesOne (sight_in (shared_view shared.now) variables.now) operand.old result operand.new }
    ensures numbers { OperandInRange operand.new }
{
    match operand {
        Operand::Given(_) => None,
        Operand::Number(t) => reduce_term(shared, variables, t),
        Operand::Passed(name) => match number_in(variables, name) {
            Evaluated::Gives(value) => {
                *operand = Operand::Number(Term::Done(value));
                Some(Reduction::Reduced)
            }
            Evaluated::Traps(_) | Evaluated::Stuck => None,
        },
    }
}

/// Lets a number take a step; none where it is worked out.
#[inline(always)]
fn reduce_term(
    shared: &Shared<'_>,
    variables: &Variables<'_>,
    t: &mut Term<'_>,
) -> Option<Reduction>
    requires { NumbersInRange t.old }
    ensures step { ReducesOne (sight_in (shared_view shared.now) variables.now) (operand.Number t.old) result (operand.Number t.new) }
    ensures numbers { NumbersInRange t.new }
{
    match t {
        Term::Done(_) => None,
        t => Some(reduce(&shared.store, &shared.statics, variables, t)),
    }
}

/// What a call does with what it gave, in a statement of this line.
fn outcome_for<'a>(line: usize, purpose: Purpose<'a>, given: Given<'a>) -> Outcome<'a>
    requires { PurposeInRange purpose }
    ensures step { result ≡ outcome_for line purpose.entry given.entry }
    ensures range { OutcomeInRange result }
{
    match purpose {
        Purpose::Put(target) => Outcome::Gives(target, given),
        Purpose::Test(block, otherwise) => {
            Outcome::Tests {
                line,
                zero: is_zero(given),
                block,
                otherwise,
            }
        }
    }
}

/// What a step did that makes no object: with an object refused it isn't possible.
#[inline]
pub(crate) fn unless_refused<'a>(refused: bool, took: Outcome<'a>) -> Outcome<'a>
    requires { OutcomeInRange took }
    ensures step { result ≡ (if refused then outcome.Impossible else took.entry) }
    ensures range { OutcomeInRange result }
{
    if refused {
        return Outcome::Impossible;
    }
    took
}

/// The call's own step: what is checked, and what is done.
fn call<'a>(
    turn: Turn<'a>,
    shared: &mut Shared<'a>,
    pending: &mut Option<ObjectId>,
    locals: &mut Locals<'a>,
    i: &Invocation<'a>,
    actuals: &[Actual<'a>],
) -> Result<Outcome<'a>, AllocError>
    requires branches { PurposeInRange i.now.purpose }
    requires grown { IsGrown turn.classes.now }
    ensures step { IfOk result (λ o. MakesCallOf turn.entry.refused
        (scene_at turn.entry shared.old locals.old pending.old) i.entry.now (map actual_view actuals.entry.now) o
        (scene_at turn.entry shared.new locals.new pending.new)) }
    ensures range { IfOk result OutcomeInRange }
{
    let caller = Caller {
        unit: turn.unit,
        thread: turn.thread,
        element: wanted_element(&locals.variables, i.purpose),
    };
    let scene = Scene {
        classes: turn.classes,
        shared,
        locals,
        pending: *pending,
    };
    let asked = i.function.prototype();
    let answer = answer_or_trap(scene, caller, i.function, asked, actuals);
    if turn.refused {
        return Ok(refuse_object(turn, pending, i, answer));
    }
    let done = carry_out(turn, shared, pending, locals, i.function, actuals, answer)?;
    match done {
        Done::Gives(given) => {
            put_local(&mut locals.frames, asked.result, given)?;
            Ok(outcome_for(i.line, i.purpose, given))
        }
        Done::Lends(buffer) => lend(locals, i, actuals, buffer),
        Done::Calls(function) => Ok(Outcome::Calls {
            line: i.line,
            function,
        }),
        Done::Halts(trap) => Ok(Outcome::Trapped { trap, line: i.line }),
    }
}

/// The element type of the buffer that a call is to fill; `jint` where there is none.
pub(crate) fn wanted_element(variables: &Variables<'_>, purpose: Purpose<'_>) -> ElementType
    ensures { result ≡ wanted_element variables.now purpose.entry }
{
    match purpose {
        Purpose::Put(Target::Declared(VariableKind::Buffer(kind), _)) => kind,
        Purpose::Put(Target::Assigned(name)) => variables.element_type(name.as_bytes()),
        _ => ElementType::Int,
    }
}

/// What a call does whose object is refused: it fails if its answer makes one, and else isn't possible.
#[inline]
fn refuse_object<'a>(
    turn: Turn<'a>,
    pending: &mut Option<ObjectId>,
    i: &Invocation<'a>,
    answer: Answer<'_>,
) -> Outcome<'a>
    requires { PurposeInRange i.now.purpose }
    ensures step { (s : SharedOfThreads) (locals : LocalsInMemory) (args : List ActualOfCall)
        → HasAnswer (scene_of turn.entry s locals pending.old) i.now args (answer_view turn.entry.classes.now answer.entry)
        → MakesCallOf true (scene_of turn.entry s locals pending.old) i.now args result
        (scene_of turn.entry s locals pending.new) }
    ensures range { OutcomeInRange result }
{
    if !makes_object(answer) {
        return Outcome::Impossible;
    }
    let given = refuse(turn.classes, pending, i.function.prototype().result);
    outcome_for(i.line, i.purpose, given)
}

/// What a call does that gives a buffer.
fn lend<'a>(
    locals: &mut Locals<'a>,
    i: &Invocation<'a>,
    actuals: &[Actual<'a>],
    buffer: Lent,
) -> Result<Outcome<'a>, AllocError>
    requires { PurposeInRange i.now.purpose }
    ensures variables { IfOk result (λ _. (heap : Heap) → variables_view locals.new.variables
        ≡ tell_copy (address_given (map actual_view actuals.entry.now) 1) (BufferResult (lent_view heap buffer))
        (variables_view locals.old.variables)) }
    ensures frames { locals.new.frames ≡ locals.old.frames }
    ensures outcome { IfOk result (λ o. o ≡ lent_outcome i.now.line i.now.purpose buffer) }
    ensures range { IfOk result OutcomeInRange }
{
    tell_copy(&mut locals.variables, address_given(actuals, 1), buffer)?;
    Ok(lent_outcome(i.line, i.purpose, buffer))
}

/// What a call does with the buffer that it gives, in a statement of this line.
fn lent_outcome<'a>(line: usize, purpose: Purpose<'a>, buffer: Lent) -> Outcome<'a>
    requires { PurposeInRange purpose }
    ensures step { result ≡ lent_outcome line purpose.entry buffer }
    ensures range { OutcomeInRange result }
{
    match purpose {
        Purpose::Put(target) => Outcome::Lends(target, buffer),
        Purpose::Test(block, otherwise) => Outcome::Tests {
            line,
            zero: false,
            block,
            otherwise,
        },
    }
}
