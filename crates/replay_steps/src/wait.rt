//! Threads that wait for a monitor.

ghost use Rattle.std.specs.Prelude.{◌≡◌, map};
ghost use Rattle.std.specs.Option.{option_map};
ghost use Rattle.syntax.specs.Tree.{SourceUnit};
ghost use Rattle.semantics.specs.CallStep.{is_owned_by_other};
ghost use Rattle.semantics.specs.Effect.{is_given, is_ready};
ghost use Rattle.semantics.specs.Thread.{BuffersInUse};
ghost use Rattle.semantics.specs.Views.{name_of};
ghost use Rattle.replay_arguments.specs.Actuals.{actual_view};
ghost use Rattle.replay_arguments.specs.Shares.{shared_view};
ghost use Rattle.replay_objects.specs.Monitors.{monitor_view};
ghost use Rattle.replay_steps.specs.Steps.{scene_with};
ghost use Rattle.semantics.specs.Sight.{scalar};
ghost use Rattle.base.specs.Bytes.{lookup};
ghost use Rattle.replay_steps.specs.Waits.{WaitsIn, call_waits, is_kept_out, task_waits, waits_to_enter};
ghost use Rattle.replay_terms.specs.Views.{operand_view, operands_view, variables_view};

use crate::activation::Activation;
use classes::table::ClassTable;
use jni::{JniFunction, ParameterKind};
use replay_arguments::actual::{Actual, look_up, object_given};
use replay_arguments::check::check;
use replay_arguments::{Scene, Shared};
use replay_objects::Monitor;
use replay_tasks::Task;
use replay_terms::{Evaluated, Operand, Operands, Term, Variables, number_in};
use semantics::ObjectId;
use syntax::ElementType;

/// Whether there is nothing to work out of an argument.
fn is_given(variables: &Variables<'_>, operand: &Operand<'_>) -> bool
    ensures { result ≡ is_given (λ x. scalar (lookup x (variables_view variables.now))) (operand_view operand.now) }
{
    match operand {
        Operand::Given(_) => true,
        Operand::Passed(name) => !matches!(number_in(variables, name), Evaluated::Gives(_)),
        Operand::Number(t) => matches!(t, Term::Done(_)),
    }
}

/// Whether each number of a list is worked out.
fn are_given(variables: &Variables<'_>, operands: &[Operand<'_>]) -> bool
    ensures { result ≡ is_ready (λ x. scalar (lookup x (variables_view variables.now))) (map operand_view operands.entry.now) }
{
    match operands {
        [] => true,
        [operand, operands @ ..] => is_given(variables, operand) && are_given(variables, operands),
    }
}

/// Whether each number of a call is worked out.
fn is_ready(variables: &Variables<'_>, operands: &Operands<'_>) -> bool
    ensures { result ≡ is_ready (λ x. scalar (lookup x (variables_view variables.now))) (operands_view operands.entry.now) }
{
    match operands {
        Operands::Given(_) => true,
        Operands::Last(_, number) => matches!(number, Term::Done(_)),
        Operands::Listed(operands) => are_given(variables, operands),
    }
}

/// Whether another thread than this one owns the object of this monitor.
fn is_owned_by_other(thread: usize, monitor: Option<Monitor>) -> bool
    ensures { result ≡ is_owned_by_other thread (option_map monitor_view monitor) }
{
    match monitor {
        Some(monitor) => usize::from(monitor.owner) != thread,
        None => false,
    }
}

/// Whether a call of `MonitorEnter` with these arguments passes all checks, and another thread owns its object.
fn is_kept_out(scene: Scene<'_, '_>, thread: usize, actuals: &[Actual<'_>]) -> bool
    ensures { result ≡ is_kept_out scene.entry.classes.now thread (shared_view scene.entry.shared.now)
        scene.entry.locals.now.variables scene.entry.locals.now.frames (name_of scene.entry.pending) (map actual_view actuals.now) }
{
    let function = JniFunction::MonitorEnter;
    let asked = function.prototype();
    match check(scene, ElementType::Int, function, asked, actuals) {
        Some(_) => false,
        None => {
            let monitor = scene.shared.monitors.of(object_given(actuals, 0));
            is_owned_by_other(thread, monitor)
        }
    }
}

/// Whether a call of `MonitorEnter` waits, its numbers being worked out. It takes one argument, which is looked up.
fn waits_to_enter<'a>(scene: Scene<'_, 'a>, thread: usize, operands: &Operands<'a>) -> bool
    ensures { result ≡ waits_to_enter scene.entry.classes.now thread (shared_view scene.entry.shared.now)
        scene.entry.locals.now.variables scene.entry.locals.now.frames (name_of scene.entry.pending)
        (operands_view operands.entry.now) }
{
    if !is_ready(&scene.locals.variables, operands) {
        return false;
    }
    match operands.get(0) {
        None => is_kept_out(scene, thread, &[]),
        Some(operand) => {
            let variables = &scene.locals.variables;
            let object = look_up(scene.shared, variables, ParameterKind::NonNull, operand);
            is_kept_out(scene, thread, &[object])
        }
    }
}

/// Whether a call of this function waits.
fn call_waits<'a>(
    scene: Scene<'_, 'a>,
    thread: usize,
    function: JniFunction,
    operands: &Operands<'a>,
) -> bool
    ensures { result ≡ call_waits scene.entry.classes.now thread (shared_view scene.entry.shared.now)
        scene.entry.locals.now.variables scene.entry.locals.now.frames (name_of scene.entry.pending)
        function (operands_view operands.now) }
{
    match function {
        JniFunction::MonitorEnter => waits_to_enter(scene, thread, operands),
        _ => false,
    }
}

/// Whether the task that is begun is a call that waits.
#[inline]
fn task_waits<'a>(scene: Scene<'_, 'a>, thread: usize, task: &Option<Task<'a>>) -> bool
    ensures { result ≡ task_waits scene.entry.classes.now thread (shared_view scene.entry.shared.now)
        scene.entry.locals.now.variables scene.entry.locals.now.frames (name_of scene.entry.pending) task.now }
{
    match task {
        Some(Task::Invoke(i)) => call_waits(scene, thread, i.function, &i.operands),
        _ => false,
    }
}

/// Whether the thread of this number, counted from 1, waits for a monitor: its next step is a call of `MonitorEnter`
/// that all checks let through, on an object that another thread owns.
pub fn waits<'a>(
    classes: &'a ClassTable,
    thread: usize,
    shared: &Shared<'a>,
    pending: Option<ObjectId>,
    activation: &Activation<'a>,
) -> bool
    ensures { (unit : SourceUnit) (in_use : BuffersInUse) → WaitsIn
        (scene_with unit classes.now in_use thread (shared_view shared.now)
        activation.now.locals.variables activation.now.locals.frames (name_of pending))
        activation.now.work result }
{
    let scene = Scene {
        classes,
        shared,
        locals: &activation.locals,
        pending,
    };
    task_waits(scene, thread, &activation.work.task)
}
