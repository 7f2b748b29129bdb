//! Steps of terms, which are most steps of tasks.

ghost use Rattle.std.specs.Prelude.{◌≡◌};
ghost use Rattle.replay_arguments.specs.Shares.{shared_view, sight_in};
ghost use Rattle.replay_steps.specs.Attempts.{AttemptsTask, AttemptsTerm, attempt_for};
ghost use Rattle.replay_tasks.specs.declared.task.Task.TheVariants as task;
ghost use Rattle.replay_tasks.specs.Tasks.{OperandsInRange, TaskInRange};
ghost use Rattle.replay_terms.specs.Views.{NumbersInRange};

use crate::invoke::reduce_number;
use replay_arguments::Shared;
use replay_tasks::{Invocation, Task};
use replay_terms::{Operands, Reduction, Term, Variables, reduce};

/// What became of a term that was to take a step.
#[derive(Clone, Copy)]
pub enum Attempt {
    /// It took it.
    Reduced,
    /// Nothing fits, as in no accepted program.
    Stuck,
    /// It has its value already, or traps, and is as it was.
    Left,
}

/// Lets a term take a step.
#[inline]
fn attempt_term(shared: &Shared<'_>, variables: &Variables<'_>, term: &mut Term<'_>) -> Attempt
    requires { NumbersInRange term.old }
    ensures step { AttemptsTerm (sight_in (shared_view shared.now) variables.now) term.old result term.new }
    ensures numbers { NumbersInRange term.new }
{
    match term {
        Term::Done(_) => Attempt::Left,
        t => match reduce(&shared.store, &shared.statics, variables, t) {
            Reduction::Reduced => Attempt::Reduced,
            Reduction::Trapped(_) => Attempt::Left,
            Reduction::Stuck => Attempt::Stuck,
        },
    }
}

/// What became of the first number of a call that isn't worked out, if there is one.
fn attempt_for(took: Option<Reduction>) -> Attempt
    ensures { result ≡ attempt_for took }
{
    match took {
        Some(Reduction::Reduced) => Attempt::Reduced,
        Some(Reduction::Stuck) => Attempt::Stuck,
        Some(Reduction::Trapped(_)) | None => Attempt::Left,
    }
}

/// Lets the first number of a call that isn't worked out take a step.
#[inline(always)]
fn attempt_number<'a>(
    shared: &Shared<'a>,
    variables: &Variables<'a>,
    i: &mut Invocation<'a>,
) -> Attempt
    requires { OperandsInRange i.old.operands }
    ensures step { AttemptsTask (sight_in (shared_view shared.now) variables.now)
        (task.Invoke i.old) result (task.Invoke i.new) }
    ensures numbers { OperandsInRange i.new.operands }
    ensures purpose { i.new.purpose ≡ i.old.purpose }
{
    match &mut i.operands {
        Operands::Given(_) => Attempt::Left,
        Operands::Last(_, number) => attempt_term(shared, variables, number),
        Operands::Listed(_) => attempt_listed(shared, variables, i),
    }
}

/// The same of any call.
#[inline(never)]
fn attempt_listed<'a>(
    shared: &Shared<'a>,
    variables: &Variables<'a>,
    i: &mut Invocation<'a>,
) -> Attempt
    requires { OperandsInRange i.old.operands }
    ensures step { AttemptsTask (sight_in (shared_view shared.now) variables.now)
        (task.Invoke i.old) result (task.Invoke i.new) }
    ensures numbers { OperandsInRange i.new.operands }
    ensures purpose { i.new.purpose ≡ i.old.purpose }
{
    attempt_for(reduce_number(shared, variables, i))
}

/// Lets the term of a task that sets a variable, branches or loops take a step, or the first number of a call.
#[inline]
pub(crate) fn attempt_task<'a>(
    shared: &Shared<'a>,
    variables: &Variables<'a>,
    task: &mut Task<'a>,
) -> Attempt
    requires { TaskInRange task.old }
    ensures step { AttemptsTask (sight_in (shared_view shared.now) variables.now) task.old result task.new }
    ensures range { TaskInRange task.new }
{
    match task {
        Task::Set(a) => attempt_term(shared, variables, &mut a.term),
        Task::Branch(choice) => attempt_term(shared, variables, &mut choice.test),
        Task::Loop(i) => attempt_term(shared, variables, &mut i.term),
        Task::Invoke(i) => attempt_number(shared, variables, i),
        _ => Attempt::Left,
    }
}
