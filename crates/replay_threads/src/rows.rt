//! What threads refer to, for a report.

ghost use Rattle.std.specs.Prelude.{◌≡◌, ◌++◌, IfOk, filter_map, flat_map, map};
ghost use Rattle.semantics.specs.Heap.{reference_in};
ghost use Rattle.replay_threads.specs.Rows.{activation_names, call_names, entering_names, pending_names, root_names, thread_names};
ghost use Rattle.replay_threads.specs.States.{call_views, viewed_in};
ghost use Rattle.replay_threads.specs.Threads.{last_first};
ghost use Rattle.replay_arguments.specs.Shares.{shared_view};
ghost use Rattle.semantics.specs.Views.{name_of, names_of, object_value_view};

use crate::thread::Thread;
use replay_arguments::Shared;
use replay_steps::{Activation, Entering};
use semantics::{ObjectId, ObjectValue};
use std::alloc::{AllocError, Global};

/// The names of the objects that global references and threads refer to, that threads own, and that views show, in the
/// order of the definitions.
pub fn root_names(
    alloc: Global,
    shared: &Shared<'_>,
    threads: &[Thread<'_>],
) -> Result<Vec<ObjectId>, AllocError>
    ensures { IfOk result (λ names. names_of names.items ≡ root_names (shared_view shared.now) threads.now) }
{
    let mut names = Vec::new(alloc);
    shared.globals.add_to(&mut names)?;
    add_threads(&mut names, threads)?;
    shared.monitors.add_to(&mut names)?;
    add_views(&mut names, threads)?;
    Ok(names)
}

/// Adds the names of the objects that the views of threads show.
fn add_views(names: &mut Vec<ObjectId>, threads: &[Thread<'_>]) -> Result<(), AllocError>
    ensures { IfOk result (λ _. names_of names.new.items ≡ names_of names.old.items ++ flat_map viewed_in threads.now) }
{
    for thread in threads {
        push_views(names, thread)?;
    }
    Ok(())
}

/// Adds the names of the objects that the views of a thread show.
fn push_views(names: &mut Vec<ObjectId>, thread: &Thread<'_>) -> Result<(), AllocError>
    ensures { IfOk result (λ _. names_of names.new.items ≡ names_of names.old.items ++ viewed_in thread.now) }
{
    add_call_views(names, &thread.callers)?;
    match &thread.activation {
        None => Ok(()),
        Some(activation) => activation.locals.variables.add_viewed(names),
    }
}

/// Adds the names of the objects that the views of these calls show, those of the last one first.
fn add_call_views(names: &mut Vec<ObjectId>, callers: &[Activation<'_>]) -> Result<(), AllocError>
    ensures { IfOk result (λ _. names_of names.new.items
        ≡ names_of names.old.items ++ flat_map call_views (last_first callers.now)) }
{
    for done in 0..callers.len() {
        callers[callers.len() - 1 - done]
            .locals
            .variables
            .add_viewed(names)?;
    }
    Ok(())
}

/// Adds the names of the objects in the frames of threads, among the arguments of calls that others have made and that are to be
/// entered, and of their pending exceptions.
fn add_threads(names: &mut Vec<ObjectId>, threads: &[Thread<'_>]) -> Result<(), AllocError>
    ensures { IfOk result (λ _. names_of names.new.items ≡ names_of names.old.items ++ flat_map thread_names threads.now) }
{
    for thread in threads {
        push_thread(names, thread)?;
    }
    Ok(())
}

/// Adds the names of a thread.
fn push_thread(names: &mut Vec<ObjectId>, thread: &Thread<'_>) -> Result<(), AllocError>
    ensures { IfOk result (λ _. names_of names.new.items ≡ names_of names.old.items ++ thread_names thread.now) }
{
    add_calls(names, &thread.callers)?;
    push_entering(names, &thread.entering)?;
    push_call(names, &thread.activation)?;
    push_pending(names, thread.pending)
}

/// Adds the names in the frames of these calls, those of the last one first.
fn add_calls(names: &mut Vec<ObjectId>, callers: &[Activation<'_>]) -> Result<(), AllocError>
    ensures { IfOk result (λ _. names_of names.new.items
        ≡ names_of names.old.items ++ flat_map call_names (last_first callers.now)) }
{
    for done in 0..callers.len() {
        callers[callers.len() - 1 - done]
            .locals
            .frames
            .add_to(names)?;
    }
    Ok(())
}

/// Adds the names among the arguments of a call that is to be entered, if there is one.
fn push_entering(
    names: &mut Vec<ObjectId>,
    entering: &Option<Entering<'_>>,
) -> Result<(), AllocError>
    ensures { IfOk result (λ _. names_of names.new.items ≡ names_of names.old.items ++ entering_names entering.now) }
{
    match entering {
        None => Ok(()),
        Some(call) => add_arguments(names, &call.arguments),
    }
}

/// Adds the names of those of these values that are objects.
fn add_arguments(names: &mut Vec<ObjectId>, arguments: &[ObjectValue]) -> Result<(), AllocError>
    ensures { IfOk result (λ _. names_of names.new.items
        ≡ names_of names.old.items ++ filter_map reference_in (map object_value_view arguments.entry.now)) }
{
    match arguments {
        [] => Ok(()),
        [argument, arguments @ ..] => {
            push_argument(names, *argument)?;
            add_arguments(names, arguments)
        }
    }
}

/// Adds the name of a value that is an object.
fn push_argument(names: &mut Vec<ObjectId>, argument: ObjectValue) -> Result<(), AllocError>
    ensures { IfOk result (λ _. names_of names.new.items
        ≡ names_of names.old.items ++ pending_names (reference_in (object_value_view argument))) }
{
    match argument {
        ObjectValue::Number(_) => Ok(()),
        ObjectValue::Reference(name) => push_pending(names, name),
    }
}

/// Adds the names of the call in progress, if there is one.
fn push_call(
    names: &mut Vec<ObjectId>,
    activation: &Option<Activation<'_>>,
) -> Result<(), AllocError>
    ensures { IfOk result (λ _. names_of names.new.items ≡ names_of names.old.items ++ activation_names activation.now) }
{
    match activation {
        None => Ok(()),
        Some(activation) => activation.locals.frames.add_to(names),
    }
}

/// Adds the name of a pending exception.
fn push_pending(names: &mut Vec<ObjectId>, pending: Option<ObjectId>) -> Result<(), AllocError>
    ensures { IfOk result (λ _. names_of names.new.items ≡ names_of names.old.items ++ pending_names (name_of pending)) }
{
    match pending {
        None => Ok(()),
        Some(name) => {
            names.push(name)?;
            Ok(())
        }
    }
}
