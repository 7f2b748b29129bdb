//! Activations: calls in progress.

ghost use Rattle.std.specs.Prelude.{◌≡◌, IfOk, IfSome, IsSome, Some, None, [], false};
ghost use Rattle.class_rules.specs.Grown.{IsGrown};
ghost use Rattle.semantics.specs.Task.{tasks_of};
ghost use Rattle.replay_steps.specs.Activations.{tasks_after, tasks_left, IsAtStatement, IsInRange, IsSettled, AreSet, IsApplied, HasBegun, HasTurned, Leaves, StepsTask, Advances, AdvancesAt};
ghost use Rattle.semantics.specs.Thread.{Shared as SharedOfThreads};
ghost use Rattle.replay_steps.specs.Attempts.{AdvancesAnywhere, AttemptsCall};
ghost use Rattle.replay_arguments.specs.Shares.{shared_view};
ghost use Rattle.replay_steps.specs.Steps.{Scene, scene_at};
ghost use Rattle.syntax.specs.Views.{expr_tree, block_tree};
ghost use Rattle.replay_tasks.specs.declared.outcome.Outcome.TheVariants as outcome;
ghost use Rattle.replay_tasks.specs.Tasks.{branch_task, statements_in, BlockInRange, ExprInRange, StatementInRange, StatementsInRange, OutcomeInRange};
ghost use Rattle.replay_terms.specs.declared.term.Term.TheVariants as term;
ghost use Rattle.semantics.specs.declared.value.Value.TheVariants as value;

use crate::attempt::{Attempt, attempt_task};
use crate::step::step;
use replay_arguments::{Locals, Shared, Turn};
use replay_objects::Store;
use replay_tasks::{
    Choice, End, Outcome, Statements, Task, end_task, loop_task, set_variables, task_of,
};
use replay_terms::{Statics, Term};
use semantics::{ObjectId, Value};
use std::alloc::{AllocError, Global};
use std::mem;
use syntax::{Block, Expr, Name, Stmt};

/// What is still to do around a block: what comes at the block's end, and the statements after it.
#[derive(Drop)]
pub struct Outer<'a> {
    pub end: End<'a>,
    pub rest: Statements<'a>,
}

/// What is still to do of a call in progress: the task that is begun, the statements after it in its block, and what is
/// to do around the block, the outermost first. A step begins what comes next, so where no task is begun the block is
/// done.
pub struct Work<'a> {
    pub task: Option<Task<'a>>,
    pub rest: Statements<'a>,
    pub outer: Vec<Outer<'a>>,
}

impl Drop for Work<'_> {
    fn drop(self) {
        let Work { task, rest, outer } = self;
        drop(task);
        drop(rest);
        drop(outer);
    }
}

/// A call in progress.
pub struct Activation<'a> {
    pub work: Work<'a>,
    pub locals: Locals<'a>,
}

// Written out, as above.
impl Drop for Activation<'_> {
    fn drop(self) {
        let Activation { work, locals } = self;
        drop(work);
        drop(locals);
    }
}

/// Begins a statement in the place of the task that is begun.
#[inline]
fn begin_statement<'a>(
    alloc: Global,
    place: &mut Option<Task<'a>>,
    statement: &'a Stmt,
) -> Result<(), AllocError>
    requires { StatementInRange statement.now }
    ensures { IfOk result (λ _. HasBegun statement.entry.now place.new) }
{
    task_of(alloc, place, statement)?;
    Ok(())
}

/// Begins the block's next statement in the place of the task that is begun, which is over.
#[inline(never)]
pub(crate) fn begin_next<'a>(alloc: Global, work: &mut Work<'a>) -> Result<(), AllocError>
    requires { IsInRange work.old }
    ensures tasks { IfOk result (λ _. tasks_left work.new ≡ tasks_after work.old.rest work.old.outer.items) }
    ensures range { IfOk result (λ _. IsAtStatement work.new) }
{
    let Some(first) = work.rest.first() else {
        end_task(&mut work.task);
        return Ok(());
    };
    begin_statement(alloc, &mut work.task, first)?;
    work.rest.skip_first();
    Ok(())
}

/// Begins the block's next statement, where none is begun.
#[inline(always)]
pub(crate) fn begin<'a>(alloc: Global, work: &mut Work<'a>) -> Result<(), AllocError>
    requires { IsInRange work.old }
    ensures tasks { IfOk result (λ _. tasks_left work.new ≡ tasks_left work.old) }
    ensures range { IfOk result (λ _. IsInRange work.new) }
    ensures next { IfOk result (λ _. work.new.task ≡ None → work.new.rest ≡ []) }
{
    if work.task.is_some() {
        return Ok(());
    }
    begin_next(alloc, work)
}

/// What is to do of a call of a function with this body, whose first statement is begun.
pub fn work_of<'a>(alloc: Global, body: &'a Block) -> Result<Work<'a>, AllocError>
    requires { StatementsInRange (statements_in (Some body)) }
    ensures tasks { IfOk result (λ w. tasks_left w ≡ tasks_of (block_tree body.entry.now)) }
    ensures range { IfOk result IsAtStatement }
{
    let mut work = Work {
        task: None,
        rest: Statements::of(Some(body)),
        outer: Vec::new(alloc),
    };
    begin(alloc, &mut work)?;
    Ok(work)
}

/// Begins a loop's next turn in the place of the task that is begun: its test comes first.
#[inline]
fn begin_turn<'a>(
    alloc: Global,
    place: &mut Option<Task<'a>>,
    line: usize,
    test: &'a Expr,
    body: &'a Block,
) -> Result<(), AllocError>
    requires test { ExprInRange (expr_tree test.now) }
    requires body { BlockInRange (block_tree body.now) }
    ensures { IfOk result (λ _. HasTurned line test.entry.now body.entry.now place.new) }
{
    loop_task(alloc, place, line, test, body)?;
    Ok(())
}

/// Begins the branch that a call's answer decides in the place of the task that is begun.
#[inline]
fn begin_branch<'a>(
    place: &mut Option<Task<'a>>,
    line: usize,
    zero: bool,
    block: &'a Block,
    otherwise: Option<&'a Block>,
)
    ensures { place.new ≡ Some (branch_task line (term.Done (value.Truth zero)) block.entry otherwise.entry) }
{
    let test = Term::Done(Value::Truth(zero));
    let choice = Choice {
        line,
        test,
        block,
        otherwise,
    };
    *place = Some(Task::Branch(choice));
}

/// Goes on after a block whose statements are all done: after an `if`, or with its loop's test. False where no block is around it.
fn leave<'a>(alloc: Global, work: &mut Work<'a>) -> Result<bool, AllocError>
    requires range { IsInRange work.old }
    requires task { work.old.task ≡ None }
    requires rest { work.old.rest ≡ [] }
    ensures step { IfOk result (λ possible. (scene : Scene) → Leaves scene work.old possible work.new) }
    ensures range { IfOk result (λ _. IsInRange work.new) }
{
    let Some(outer) = work.outer.pop() else {
        return Ok(false);
    };
    let Outer { end, rest } = outer;
    work.rest = rest;
    match end {
        End::If => Ok(true),
        End::Turn { line, test, body } => {
            begin_turn(alloc, &mut work.task, line, test, body)?;
            Ok(true)
        }
    }
}

/// The same at a turn, or with the turn's object refused.
fn leave_block<'a>(turn: Turn<'a>, work: &mut Work<'a>) -> Result<Outcome<'a>, AllocError>
    requires range { IsInRange work.old }
    requires task { work.old.task ≡ None }
    requires rest { work.old.rest ≡ [] }
    ensures step { IfOk result (λ o. (scene : Scene) → Advances turn.entry.refused scene work.old o scene work.new) }
    ensures range { IfOk result (λ _. IsInRange work.new) }
{
    if turn.refused {
        return Ok(Outcome::Impossible);
    }
    if leave(turn.alloc, work)? {
        return Ok(Outcome::Stays);
    }
    Ok(Outcome::Impossible)
}

/// Begins a block, with what comes at its end.
#[inline]
fn enter_block<'a>(
    work: &mut Work<'a>,
    block: Option<&'a Block>,
    end: End<'a>,
) -> Result<(), AllocError>
    ensures { IfOk result (λ _. AreSet work.old (outcome.Enters block.entry end.entry) work.new) }
{
    let rest = mem::replace(&mut work.rest, Statements::of(block));
    work.outer.push(Outer { end, rest })?;
    end_task(&mut work.task);
    Ok(())
}

/// Does what a step did to the tasks.
fn set_tasks<'a>(work: &mut Work<'a>, outcome: Outcome<'a>) -> Result<(), AllocError>
    ensures { IfOk result (λ _. AreSet work.old outcome.entry work.new) }
{
    match outcome {
        Outcome::Stays | Outcome::Returned(_) | Outcome::Calls { .. } => {}
        Outcome::Trapped { .. } | Outcome::Impossible => {}
        Outcome::Enters(block, end) => enter_block(work, block, end)?,
        Outcome::Printed(_) | Outcome::Sets(_, _) | Outcome::SetsNull(_) => {
            end_task(&mut work.task);
        }
        Outcome::Gives(_, _) | Outcome::Lends(_, _) | Outcome::SetsElement { .. } => {
            end_task(&mut work.task);
        }
        Outcome::Tests {
            line,
            zero,
            block,
            otherwise,
        } => {
            begin_branch(&mut work.task, line, zero, block, otherwise);
        }
        Outcome::Makes { .. } | Outcome::Ends => end_task(&mut work.task),
    }
    Ok(())
}

/// Does what a step did to the objects, the variables, the statics and the tasks; false where it isn't possible.
#[inline]
fn apply<'a>(
    alloc: Global,
    store: &mut Store,
    statics: &mut Statics<'a>,
    activation: &mut Activation<'a>,
    outcome: Outcome<'a>,
) -> Result<bool, AllocError>
    ensures { IfOk result (λ possible.
        IsApplied statics.old store.old activation.old outcome.entry possible statics.new store.new activation.new) }
{
    let locals = &mut activation.locals;
    let frames = locals.frames.len();
    let variables = &mut locals.variables;
    if !set_variables(alloc, store, statics, frames, variables, outcome)? {
        return Ok(false);
    }
    set_tasks(&mut activation.work, outcome)?;
    Ok(true)
}

/// Lets the task that is begun take its next step.
#[inline(always)]
fn step_task<'a>(
    turn: Turn<'a>,
    shared: &mut Shared<'a>,
    pending: &mut Option<ObjectId>,
    activation: &mut Activation<'a>,
) -> Result<Outcome<'a>, AllocError>
    requires range { IsInRange activation.old.work }
    requires begun { IsSome activation.old.work.task }
    requires grown { IsGrown turn.classes.now }
    ensures step { IfOk result (λ o. StepsTask turn.entry.refused
        (scene_at turn.entry shared.old activation.old.locals pending.old) activation.old.work o
        (scene_at turn.entry shared.new activation.new.locals pending.new) activation.new.work) }
    ensures range { IfOk result OutcomeInRange }
{
    let Some(task) = &mut activation.work.task else {
        unreachable!()
    };
    step(turn, shared, pending, &mut activation.locals, task)
}

/// Lets a call whose task is begun take its next step, or the same with its object refused.
#[inline(always)]
fn go_on<'a>(
    turn: Turn<'a>,
    shared: &mut Shared<'a>,
    pending: &mut Option<ObjectId>,
    activation: &mut Activation<'a>,
) -> Result<Outcome<'a>, AllocError>
    requires range { IsInRange activation.old.work }
    requires begun { IsSome activation.old.work.task }
    requires grown { IsGrown turn.classes.now }
    ensures step { IfOk result (λ o. AdvancesAt turn.entry
        shared.old activation.old pending.old o shared.new activation.new pending.new) }
    ensures range { IfOk result (λ _. IsInRange activation.new.work) }
{
    let outcome = step_task(turn, shared, pending, activation)?;
    let Shared { store, statics, .. } = shared;
    if !apply(turn.alloc, store, statics, activation, outcome)? {
        return Ok(Outcome::Impossible);
    }
    Ok(outcome)
}

/// Lets a call take its next step with its task, or with the end of the block.
#[inline(always)]
fn take_step<'a>(
    turn: Turn<'a>,
    shared: &mut Shared<'a>,
    pending: &mut Option<ObjectId>,
    activation: &mut Activation<'a>,
) -> Result<Outcome<'a>, AllocError>
    requires range { IsAtStatement activation.old.work }
    requires grown { IsGrown turn.classes.now }
    ensures step { IfOk result (λ o. AdvancesAt turn.entry
        shared.old activation.old pending.old o shared.new activation.new pending.new) }
    ensures range { IfOk result (λ _. IsInRange activation.new.work) }
{
    if activation.work.task.is_none() {
        return leave_block(turn, &mut activation.work);
    }
    go_on(turn, shared, pending, activation)
}

/// Lets a call take its next step, or the same with its object refused, and begins what comes next.
pub fn advance<'a>(
    turn: Turn<'a>,
    shared: &mut Shared<'a>,
    pending: &mut Option<ObjectId>,
    activation: &mut Activation<'a>,
) -> Result<Outcome<'a>, AllocError>
    requires range { IsAtStatement activation.old.work }
    requires grown { IsGrown turn.classes.now }
    ensures step { IfOk result (λ o. AdvancesAt turn.entry
        shared.old activation.old pending.old o shared.new activation.new pending.new) }
    ensures range { IfOk result (λ _. IsAtStatement activation.new.work) }
{
    let outcome = take_step(turn, shared, pending, activation)?;
    begin(turn.alloc, &mut activation.work)?;
    Ok(outcome)
}

/// Sets a variable to the value of the task that is begun, and begins what comes next.
#[inline]
fn finish_set<'a>(
    alloc: Global,
    activation: &mut Activation<'a>,
    name: &'a Name,
    value: Value,
) -> Result<(), AllocError>
    requires range { IsAtStatement activation.old.work }
    requires settled { IsSettled activation.old.work (outcome.Sets name value) }
    ensures step { IfOk result (λ _. (s : SharedOfThreads) → AdvancesAnywhere s activation.old outcome.Stays activation.new) }
    ensures range { IfOk result (λ _. IsAtStatement activation.new.work) }
{
    activation.locals.variables.set_number(name, value)?;
    begin_next(alloc, &mut activation.work)
}

/// Begins the block that the test of the task that is begun has chosen, and its first statement.
#[inline]
fn finish_test<'a>(
    alloc: Global,
    work: &mut Work<'a>,
    block: Option<&'a Block>,
    end: End<'a>,
) -> Result<(), AllocError>
    requires range { IsAtStatement work.old }
    requires settled { IsSettled work.old (outcome.Enters block end) }
    requires entered { OutcomeInRange (outcome.Enters block end) }
    ensures step { IfOk result (λ _. (scene : Scene) → Advances false scene work.old outcome.Stays scene work.new) }
    ensures range { IfOk result (λ _. IsAtStatement work.new) }
{
    enter_block(work, block, end)?;
    begin(alloc, work)
}

/// Ends the task that is begun, a loop, and begins what comes next.
#[inline]
fn finish_loop<'a>(alloc: Global, work: &mut Work<'a>) -> Result<(), AllocError>
    requires range { IsAtStatement work.old }
    requires settled { IsSettled work.old outcome.Ends }
    ensures step { IfOk result (λ _. (scene : Scene) → Advances false scene work.old outcome.Stays scene work.new) }
    ensures range { IfOk result (λ _. IsAtStatement work.new) }
{
    begin_next(alloc, work)
}

/// Goes on after a block whose statements are all done, and begins what comes next.
#[inline]
fn finish_block<'a>(alloc: Global, work: &mut Work<'a>) -> Result<bool, AllocError>
    requires range { IsAtStatement work.old }
    requires task { work.old.task ≡ None }
    ensures step { IfOk result (λ possible. (scene : Scene) → Leaves scene work.old possible work.new) }
    ensures range { IfOk result (λ _. IsAtStatement work.new) }
{
    let possible = leave(alloc, work)?;
    begin(alloc, work)?;
    Ok(possible)
}

/// The truth that a term is, if it has its value and that is one.
#[inline]
fn truth_of(t: &Term<'_>) -> Option<bool>
    ensures { IfSome result (λ b. t.now ≡ term.Done (value.Truth b)) }
{
    match t {
        Term::Done(value) => match value {
            Value::Truth(b) => Some(*b),
            Value::Word(_) | Value::Int(_) | Value::Flag(_) => None,
        },
        _ => None,
    }
}

/// Lets the task that is begun, or the end of the block, take its step, where the step is neither a term's nor a call's and changes nothing but
/// the variables and the tasks.
#[inline]
fn finish<'a>(alloc: Global, activation: &mut Activation<'a>) -> Result<Attempt, AllocError>
    requires { IsAtStatement activation.old.work }
    ensures step { IfOk result (λ took. (s : SharedOfThreads) → AttemptsCall s activation.old took activation.new) }
    ensures range { IfOk result (λ _. IsAtStatement activation.new.work) }
{
    let Some(task) = &activation.work.task else {
        if finish_block(alloc, &mut activation.work)? {
            return Ok(Attempt::Reduced);
        }
        return Ok(Attempt::Stuck);
    };
    match task {
        Task::Set(a) => match a.term {
            Term::Done(value) => {
                let name = a.name;
                finish_set(alloc, activation, name, value)?;
            }
            _ => return Ok(Attempt::Left),
        },
        Task::Loop(i) => {
            let Some(goes) = truth_of(&i.term) else {
                return Ok(Attempt::Left);
            };
            if goes {
                let line = i.line;
                let test = i.test;
                let body = i.body;
                let end = End::Turn { line, test, body };
                finish_test(alloc, &mut activation.work, Some(body), end)?;
            } else {
                finish_loop(alloc, &mut activation.work)?;
            }
        }
        Task::Branch(choice) => {
            let Some(taken) = truth_of(&choice.test) else {
                return Ok(Attempt::Left);
            };
            if taken {
                let block = choice.block;
                finish_test(alloc, &mut activation.work, Some(block), End::If)?;
            } else {
                let block = choice.otherwise;
                finish_test(alloc, &mut activation.work, block, End::If)?;
            }
        }
        _ => return Ok(Attempt::Left),
    }
    Ok(Attempt::Reduced)
}

/// Lets the term of the task that is begun take a step.
#[inline]
fn attempt_begun<'a>(shared: &Shared<'a>, activation: &mut Activation<'a>) -> Attempt
    requires { IsAtStatement activation.old.work }
    ensures step { AttemptsCall (shared_view shared.now) activation.old result activation.new }
    ensures range { IsAtStatement activation.new.work }
{
    match &mut activation.work.task {
        Some(task) => attempt_task(shared, &activation.locals.variables, task),
        None => Attempt::Left,
    }
}

/// Lets a call take its next step, where that is a term's, or changes nothing but the variables and the tasks, and nothing is refused: most
/// steps are such, and none of them needs to know whose turn it is, or has an outcome to hand on.
#[inline]
pub fn attempt_step<'a>(
    alloc: Global,
    shared: &Shared<'a>,
    activation: &mut Activation<'a>,
) -> Result<Attempt, AllocError>
    requires { IsAtStatement activation.old.work }
    ensures step { IfOk result (λ took. AttemptsCall (shared_view shared.now) activation.old took activation.new) }
    ensures range { IfOk result (λ _. IsAtStatement activation.new.work) }
{
    match attempt_begun(shared, activation) {
        Attempt::Left => finish(alloc, activation),
        took => Ok(took),
    }
}
