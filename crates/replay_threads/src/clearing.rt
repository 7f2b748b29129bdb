//! Clearings of weak references.

ghost use Rattle.std.specs.Prelude.{◌≡◌, ◌++◌, IfOk, filter, not};
ghost use Rattle.std.specs.List.{list_all, list_any};
ghost use Rattle.reachability.specs.Marks.{is_marked};
ghost use Rattle.semantics.specs.Reachable.{is_in};
ghost use Rattle.semantics.specs.Views.{names_of};
ghost use Rattle.replay_threads.specs.States.{MayClear};

use crate::rows::root_names;
use crate::state::State;
use replay_objects::made_before;
use replay_terms::is_among;
use report_objects::reached_marks;
use semantics::{ObjectId, are_rising};
use std::alloc::{AllocError, Global};

/// Whether weak references to these objects may be cleared: there are some, they rise, each is held weakly, and none is reached from
/// the roots together with the objects of the other weak references.
///
/// Its time is proportional to the number of objects and the values of those that are reached.
pub(crate) fn may_clear(
    alloc: Global,
    state: &State<'_>,
    names: &[ObjectId],
) -> Result<bool, AllocError>
    ensures { IfOk result (MayClear state.now (names_of names.now)) }
{
    if !are_rising(names) {
        return Ok(false);
    }
    let held = state.shared.statics.weakly_held(alloc)?;
    if !all_among(&held, names) {
        return Ok(false);
    }
    let mut from = root_names(alloc, &state.shared, &state.threads)?;
    add_beside(&mut from, &held, names)?;
    let loaded = made_before(state.world) + state.world.objects().len();
    let reached = reached_marks(alloc, &state.shared.store, loaded, &from)?;
    Ok(!some_marked(&reached, names))
}

/// Whether each name is among those that are held.
fn all_among(held: &[ObjectId], names: &[ObjectId]) -> bool
    ensures { result ≡ list_all (is_in (names_of held.now)) (names_of names.now) }
{
    for name in names {
        if !is_among(held, *name) {
            return false;
        }
    }
    true
}

/// Adds those that are held and are none of these names.
fn add_beside(
    from: &mut Vec<ObjectId>,
    held: &[ObjectId],
    names: &[ObjectId],
) -> Result<(), AllocError>
    ensures { IfOk result (λ _. names_of from.new.items
        ≡ names_of from.old.items ++ filter (λ n. not (is_in (names_of names.now) n)) (names_of held.now)) }
{
    for name in held {
        if !is_among(names, *name) {
            from.push(*name)?;
        }
    }
    Ok(())
}

/// Whether one of these objects is marked.
fn some_marked(marks: &[bool], names: &[ObjectId]) -> bool
    ensures { result ≡ list_any (is_marked marks.now) (names_of names.now) }
{
    for name in names {
        if let Some(true) = marks.get(name.number) {
            return true;
        }
    }
    false
}
