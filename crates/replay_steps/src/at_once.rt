//! Calls that take their step at once, as most do: without a list of their arguments, and without an outcome that is handed on.

ghost use Rattle.std.specs.Prelude.{◌≡◌, IfOk, false, length, map, true};
ghost use Rattle.class_rules.specs.Grown.{IsGrown};
ghost use Rattle.jni.specs.JniFunction.{calls_method};
ghost use Rattle.jni.specs.Table.{facts, facts_of};
ghost use Rattle.jni.specs.declared.access.Access.{Access};
ghost use Rattle.jni.specs.declared.function.JniFunction.TheVariants.{GetBuffer};
ghost use Rattle.replay_arguments.specs.Actuals.{actual_view};
ghost use Rattle.replay_arguments.specs.Shares.{shared_view};
ghost use Rattle.replay_steps.specs.Activations.{IsAtStatement};
ghost use Rattle.replay_steps.specs.AtOnce.{AttemptsInvocation, MakesAtOnce, TriesInvocation};
ghost use Rattle.replay_terms.specs.Views.{operands_view};

use crate::activation::{Activation, begin_next};
use jni::{JniFunction, Prototype};
use replay_arguments::actual::{Actual, ready_actual};
use replay_arguments::{Locals, Scene, Shared, Turn};
use replay_calls::carry_out::{give, gives, put_local};
use replay_calls::{Caller, answer_or_trap};
use replay_tasks::{Invocation, Purpose, Task, put_given};
use semantics::ObjectId;
use std::alloc::AllocError;
use syntax::ElementType;

/// Makes a call with these arguments, if it gives something at once that goes into a variable or a static, or nowhere; false where it doesn't, and
/// then all is as it was.
#[inline(never)]
fn make_at_once<'a>(
    turn: &Turn<'a>,
    shared: &mut Shared<'a>,
    pending: &mut Option<ObjectId>,
    locals: &mut Locals<'a>,
    i: &Invocation<'a>,
    asked: &Prototype,
    actuals: &[Actual<'a>],
) -> Result<bool, AllocError>
    requires grown { IsGrown turn.now.classes.now }
    requires asked { facts asked.now ≡ facts_of i.now.function }
    requires bufferless { (a : Access) → i.now.function ≡ GetBuffer a → ⊥ }
    ensures { IfOk result (λ took. MakesAtOnce turn.now i.entry.now (map actual_view actuals.entry.now) took
        (shared_view shared.old) locals.old pending.old (shared_view shared.new) locals.new pending.new) }
{
    if !matches!(i.purpose, Purpose::Put(_)) {
        return Ok(false);
    }
    let caller = Caller {
        unit: turn.unit,
        thread: turn.thread,
        element: ElementType::Int,
    };
    let scene = Scene {
        classes: turn.classes,
        shared,
        locals,
        pending: *pending,
    };
    let answer = answer_or_trap(scene, caller, i.function, asked, actuals);
    if !gives(answer) {
        return Ok(false);
    }
    let given = give(*turn, shared, pending, locals, i.function, actuals, answer)?;
    put_local(&mut locals.frames, asked.result, given)?;
    let Purpose::Put(target) = i.purpose else {
        unreachable!()
    };
    let frames = locals.frames.len();
    put_given(
        &mut shared.statics,
        frames,
        &mut locals.variables,
        target,
        given,
    )?;
    Ok(true)
}

/// The same of a call with one argument, which is to be looked up.
#[inline(never)]
fn try_one<'a>(
    turn: &Turn<'a>,
    shared: &mut Shared<'a>,
    pending: &mut Option<ObjectId>,
    locals: &mut Locals<'a>,
    i: &Invocation<'a>,
) -> Result<bool, AllocError>
    requires grown { IsGrown turn.now.classes.now }
    requires plain { calls_method i.now.function ≡ false }
    requires bufferless { (a : Access) → i.now.function ≡ GetBuffer a → ⊥ }
    requires count { length (operands_view i.now.operands) ≡ 1 }
    ensures { IfOk result (λ took. TriesInvocation turn.now i.entry.now took
        (shared_view shared.old) locals.old pending.old (shared_view shared.new) locals.new pending.new) }
{
    let asked = i.function.prototype();
    let parameters = asked.parameters;
    if parameters.len() != 1 {
        return Ok(false);
    }
    let Some(first) = ready_actual(shared, &locals.variables, parameters, &i.operands, 0) else {
        return Ok(false);
    };
    make_at_once(turn, shared, pending, locals, i, asked, &[first])
}

/// The same of one with two.
#[inline(never)]
fn try_two<'a>(
    turn: &Turn<'a>,
    shared: &mut Shared<'a>,
    pending: &mut Option<ObjectId>,
    locals: &mut Locals<'a>,
    i: &Invocation<'a>,
) -> Result<bool, AllocError>
    requires grown { IsGrown turn.now.classes.now }
    requires plain { calls_method i.now.function ≡ false }
    requires bufferless { (a : Access) → i.now.function ≡ GetBuffer a → ⊥ }
    requires count { length (operands_view i.now.operands) ≡ 2 }
    ensures { IfOk result (λ took. TriesInvocation turn.now i.entry.now took
        (shared_view shared.old) locals.old pending.old (shared_view shared.new) locals.new pending.new) }
{
    let asked = i.function.prototype();
    let parameters = asked.parameters;
    if parameters.len() != 2 {
        return Ok(false);
    }
    let Some(first) = ready_actual(shared, &locals.variables, parameters, &i.operands, 0) else {
        return Ok(false);
    };
    let Some(second) = ready_actual(shared, &locals.variables, parameters, &i.operands, 1) else {
        return Ok(false);
    };
    make_at_once(turn, shared, pending, locals, i, asked, &[first, second])
}

/// The same of one with three.
#[inline(never)]
fn try_three<'a>(
    turn: &Turn<'a>,
    shared: &mut Shared<'a>,
    pending: &mut Option<ObjectId>,
    locals: &mut Locals<'a>,
    i: &Invocation<'a>,
) -> Result<bool, AllocError>
    requires grown { IsGrown turn.now.classes.now }
    requires plain { calls_method i.now.function ≡ false }
    requires bufferless { (a : Access) → i.now.function ≡ GetBuffer a → ⊥ }
    requires count { length (operands_view i.now.operands) ≡ 3 }
    ensures { IfOk result (λ took. TriesInvocation turn.now i.entry.now took
        (shared_view shared.old) locals.old pending.old (shared_view shared.new) locals.new pending.new) }
{
    let asked = i.function.prototype();
    let parameters = asked.parameters;
    if parameters.len() != 3 {
        return Ok(false);
    }
    let Some(first) = ready_actual(shared, &locals.variables, parameters, &i.operands, 0) else {
        return Ok(false);
    };
    let Some(second) = ready_actual(shared, &locals.variables, parameters, &i.operands, 1) else {
        return Ok(false);
    };
    let Some(third) = ready_actual(shared, &locals.variables, parameters, &i.operands, 2) else {
        return Ok(false);
    };
    make_at_once(
        turn,
        shared,
        pending,
        locals,
        i,
        asked,
        &[first, second, third],
    )
}

/// The same of one with four.
#[inline(never)]
fn try_four<'a>(
    turn: &Turn<'a>,
    shared: &mut Shared<'a>,
    pending: &mut Option<ObjectId>,
    locals: &mut Locals<'a>,
    i: &Invocation<'a>,
) -> Result<bool, AllocError>
    requires grown { IsGrown turn.now.classes.now }
    requires plain { calls_method i.now.function ≡ false }
    requires bufferless { (a : Access) → i.now.function ≡ GetBuffer a → ⊥ }
    requires count { length (operands_view i.now.operands) ≡ 4 }
    ensures { IfOk result (λ took. TriesInvocation turn.now i.entry.now took
        (shared_view shared.old) locals.old pending.old (shared_view shared.new) locals.new pending.new) }
{
    let asked = i.function.prototype();
    let parameters = asked.parameters;
    if parameters.len() != 4 {
        return Ok(false);
    }
    let Some(first) = ready_actual(shared, &locals.variables, parameters, &i.operands, 0) else {
        return Ok(false);
    };
    let Some(second) = ready_actual(shared, &locals.variables, parameters, &i.operands, 1) else {
        return Ok(false);
    };
    let Some(third) = ready_actual(shared, &locals.variables, parameters, &i.operands, 2) else {
        return Ok(false);
    };
    let Some(fourth) = ready_actual(shared, &locals.variables, parameters, &i.operands, 3) else {
        return Ok(false);
    };
    make_at_once(
        turn,
        shared,
        pending,
        locals,
        i,
        asked,
        &[first, second, third, fourth],
    )
}

/// Whether a function neither gives a buffer nor calls a method: only such give something at once.
#[inline(always)]
fn may_give(function: JniFunction) -> bool
    ensures plain { (result ≡ true) → calls_method function ≡ false }
    ensures bufferless { (result ≡ true) → (a : Access) → function ≡ GetBuffer a → ⊥ }
{
    !function.calls_method() && !matches!(function, JniFunction::GetBuffer(_))
}

/// Makes a call with few arguments, which are to be looked up, if it gives something at once; false where it doesn't, or a number of it isn't
/// worked out yet, and then all is as it was.
#[inline(always)]
fn try_invocation<'a>(
    turn: &Turn<'a>,
    shared: &mut Shared<'a>,
    pending: &mut Option<ObjectId>,
    locals: &mut Locals<'a>,
    i: &Invocation<'a>,
) -> Result<bool, AllocError>
    requires { IsGrown turn.now.classes.now }
    ensures { IfOk result (λ took. TriesInvocation turn.now i.entry.now took
        (shared_view shared.old) locals.old pending.old (shared_view shared.new) locals.new pending.new) }
{
    if !may_give(i.function) {
        return Ok(false);
    }
    match i.operands.count() {
        0 => make_at_once(
            turn,
            shared,
            pending,
            locals,
            i,
            i.function.prototype(),
            &[],
        ),
        1 => try_one(turn, shared, pending, locals, i),
        2 => try_two(turn, shared, pending, locals, i),
        3 => try_three(turn, shared, pending, locals, i),
        4 => try_four(turn, shared, pending, locals, i),
        _ => Ok(false),
    }
}

/// Lets a call in progress take its next step, where that is a call that gives something at once, and begins what comes next; false where there
/// is more to do, and then all is as it was.
#[inline(never)]
pub fn attempt_call<'a>(
    turn: &Turn<'a>,
    shared: &mut Shared<'a>,
    pending: &mut Option<ObjectId>,
    activation: &mut Activation<'a>,
) -> Result<bool, AllocError>
    requires range { IsAtStatement activation.old.work }
    requires grown { IsGrown turn.now.classes.now }
    ensures step { IfOk result (λ took. AttemptsInvocation turn.now (shared_view shared.old) activation.old pending.old took
        (shared_view shared.new) activation.new pending.new) }
    ensures range { IfOk result (λ _. IsAtStatement activation.new.work) }
{
    let Some(Task::Invoke(i)) = &activation.work.task else {
        return Ok(false);
    };
    if !try_invocation(turn, shared, pending, &mut activation.locals, i)? {
        return Ok(false);
    }
    begin_next(turn.alloc, &mut activation.work)?;
    Ok(true)
}
