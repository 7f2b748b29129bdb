//! Replays of journals.

ghost use Rattle.std.specs.Prelude.{◌≡◌, [], IfOk, IfErr, OnOk};
ghost use Rattle.syntax.specs.Limits.{IsTree};
ghost use Rattle.syntax.specs.Views.{unit_tree};
ghost use Rattle.type_rules.specs.TypeRules.{IsWellTyped};
ghost use Rattle.sinks.specs.Sink.{CanFail};
ghost use Rattle.semantics.specs.World.{World};
ghost use Rattle.replay_threads.specs.States.{AreInRange};
ghost use Rattle.replay.specs.Replays.{Answers, Replayed, LeadsTo, IsRefusedFrom, ShowsRows, WritesRun, WritesState, IsStoppedBy, IsReplayable, IsFromOutside, EndsBy};

use crate::fault::ReplayError;
use crate::load::start;
use crate::trap_at::{TrapAt, shown_stop};
use functions::Functions;
use region_rules::Checked;
use replay_objects::{Store, made_before};
use replay_threads::{State, root_names, standings_of, take_entry};
use report::{Listed, write_run};
use report_objects::{ReachedRows, reached_rows};
use semantics::Entry;
use sinks::Sink;
use std::alloc::{AllocError, Global};
use world_values::World;

/// Takes the entries of a journal.
#[inline]
fn follow<'a>(
    alloc: Global,
    functions: &Functions<'a>,
    state: &mut State<'a>,
    journal: &[Entry],
) -> Result<(), ReplayError>
    requires tree { IsTree (unit_tree functions.now) }
    requires well_typed { IsWellTyped (unit_tree functions.now) }
    requires range { AreInRange state.old.threads.items }
    ensures end { OnOk result (LeadsTo (unit_tree functions.now) state.old journal.now state.new) }
    ensures refused { IfErr result (IsRefusedFrom (unit_tree functions.now) state.old journal.now) }
{
    for (done, entry) in journal.iter().enumerate() {
        if !take_entry(alloc, functions, state, entry)? {
            return Err(ReplayError::Impossible(done + 1));
        }
    }
    Ok(())
}

/// The rows of what the threads of a state refer to. These are its objects.
fn rows_of<'r>(alloc: Global, state: &'r State<'_>) -> Result<ReachedRows<'r, Store>, AllocError>
    ensures { IfOk result (ShowsRows state.now) }
{
    let names = root_names(alloc, &state.shared, &state.threads)?;
    let loaded = made_before(state.world) + state.world.objects().len();
    reached_rows(
        alloc,
        state.world.classes(),
        &state.shared.store,
        loaded,
        &names,
    )
}

/// Writes the report of the state that a journal led to, with these rows, and the journal.
fn write_rows<W: Sink>(
    alloc: Global,
    state: &State<'_>,
    rows: &ReachedRows<'_, Store>,
    journal: &[Entry],
    out: &mut W,
) -> Result<(), ReplayError>
    requires sink { CanFail (W.written out.old) }
    requires rows { ShowsRows state.now rows.now }
    ensures { WritesState state.now journal.now (W.written out.old) (W.written out.new) result }
{
    let standings = standings_of(alloc, state)?;
    match write_run(out, &state.printed, &standings, rows, &Listed(journal)) {
        Ok(()) => Ok(()),
        Err(_) => Err(ReplayError::Writer),
    }
}

/// Writes the report of the state that a journal led to, and the journal.
fn write_report<W: Sink>(
    alloc: Global,
    state: &State<'_>,
    journal: &[Entry],
    out: &mut W,
) -> Result<(), ReplayError>
    requires { CanFail (W.written out.old) }
    ensures { WritesState state.now journal.now (W.written out.old) (W.written out.new) result }
{
    let rows = rows_of(alloc, state)?;
    write_rows(alloc, state, &rows, journal, out)
}

/// Replays a journal from the state before the first entry, and writes its report.
fn replay_from<'a, W: Sink>(
    alloc: Global,
    functions: &Functions<'a>,
    state: &mut State<'a>,
    journal: &[Entry],
    out: &mut W,
) -> Result<Option<TrapAt>, ReplayError>
    requires sink { CanFail (W.written out.old) }
    requires tree { IsTree (unit_tree functions.now) }
    requires well_typed { IsWellTyped (unit_tree functions.now) }
    requires range { AreInRange state.old.threads.items }
    ensures { (w : World) → Replayed (unit_tree functions.now) w [] state.old
        → Answers (unit_tree functions.now) w journal.now (W.written out.old) (W.written out.new) result }
{
    follow(alloc, functions, state, journal)?;
    write_report(alloc, state, journal, out)?;
    Ok(shown_stop(state.stop))
}

/// Replays a journal of the unit that these functions are of, and writes its report.
fn replay_with<W: Sink>(
    alloc: Global,
    functions: &Functions<'_>,
    world: &World,
    journal: &[Entry],
    out: &mut W,
) -> Result<Option<TrapAt>, ReplayError>
    requires sink { CanFail (W.written out.old) }
    requires tree { IsTree (unit_tree functions.now) }
    requires well_typed { IsWellTyped (unit_tree functions.now) }
    ensures { Answers (unit_tree functions.now) world.now journal.now (W.written out.old) (W.written out.new) result }
{
    let mut state = start(alloc, functions, world)?;
    replay_from(alloc, functions, &mut state, journal, out)
}

/// Writes the report of a run that did what these entries say, and their journal, without code, addresses or a collector. Answers the
/// trap that stopped the run, if one did.
///
/// Its time is proportional to the journal's length, for programs and worlds of one size, but that of a clearing to the number of
/// objects and the values of those that are reached. What was written reaches
/// the sink's writer before it answers `Ok`. Where an entry isn't possible or a call doesn't fit, and where memory is
/// refused, nothing is written.
pub fn replay<W: Sink>(
    alloc: Global,
    checked: &Checked,
    world: &World,
    journal: &[Entry],
    out: &mut W,
) -> Result<Option<TrapAt>, ReplayError>
    requires { CanFail (W.written out.old) }
    ensures ok { OnOk result (WritesRun (unit_tree checked.now) world.now journal.now (W.written out.old)
        (W.written out.new)) }
    ensures trap { IfOk result (EndsBy (unit_tree checked.now) world.now journal.now) }
    ensures none_waits { OnOk result ((W.written out.new).waiting ≡ 0) }
    ensures err { IfErr result (IsStoppedBy (unit_tree checked.now) world.now journal.now (W.written out.old)
        (W.written out.new)) }
    // Faults 82 and 91 are answered only where they must be.
    ensures only { IsReplayable (unit_tree checked.now) world.now journal.now → IfErr result IsFromOutside }
{
    let functions = Functions::of(alloc, checked.items())?;
    replay_with(alloc, &functions, world, journal, out)
}
