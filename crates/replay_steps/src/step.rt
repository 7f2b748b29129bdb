//! The step of a task.

ghost use Rattle.std.specs.Prelude.{IfOk};
ghost use Rattle.class_rules.specs.Grown.{IsGrown};
ghost use Rattle.replay_steps.specs.Steps.{Does, scene_at};
ghost use Rattle.replay_tasks.specs.Tasks.{TaskInRange, OutcomeInRange};

use crate::invoke::{invoke, unless_refused};
use replay_arguments::{Locals, Shared, Turn};
use replay_tasks::{Outcome, Task, plain_step};
use semantics::ObjectId;
use std::alloc::AllocError;

/// Lets a task take its next step. With its object refused only a call is possible.
pub(crate) fn step<'a>(
    turn: Turn<'a>,
    shared: &mut Shared<'a>,
    pending: &mut Option<ObjectId>,
    locals: &mut Locals<'a>,
    task: &mut Task<'a>,
) -> Result<Outcome<'a>, AllocError>
    requires range { TaskInRange task.old }
    requires grown { IsGrown turn.classes.now }
    ensures step { IfOk result (λ o. Does turn.entry.refused
        (scene_at turn.entry shared.old locals.old pending.old) task.old o
        (scene_at turn.entry shared.new locals.new pending.new) task.new) }
    ensures task { IfOk result (λ _. TaskInRange task.new) }
    ensures range { IfOk result OutcomeInRange }
{
    if let Task::Invoke(i) = task {
        return invoke(turn, shared, pending, locals, i);
    }
    let outcome = plain_step(&shared.store, &shared.statics, &locals.variables, task);
    Ok(unless_refused(turn.refused, outcome))
}
