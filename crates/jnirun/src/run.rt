//! A run, from its texts to its report.

ghost use Rattle.std.specs.Prelude.{◌≡◌, ◌≤◌, ℕ, List, [], length, Ok};
ghost use Rattle.base.specs.Limits.{most_entries};
ghost use Rattle.syntax.specs.Views.{unit_tree};
ghost use Rattle.sinks.specs.Sink.{CanFail};
ghost use Rattle.program_check.specs.Programs.{IsProgram};
ghost use Rattle.jnirun.specs.Texts.{Meaning, AreRefused};
ghost use Rattle.jnirun.specs.Running.{IsPassed, IsLoaded};
ghost use Rattle.jnirun.specs.Runs.{RunsTexts, EndsRun, IsRunOrFails};
ghost use Rattle.world_schedules.specs.ReadingSchedules.{schedule_of};
ghost use Rattle.world_schedules.specs.ScheduleText.{IsScheduleText};
ghost use Rattle.world.specs.ReadingWorlds.{world_of_text};

use crate::errors::{of_load, of_lower, of_reading, of_report};
use lower::{Program, lower};
use machine::{Machine, RunFault};
use places::Text;
use program_check::{RunError, read_program};
use region_rules::Checked;
use replay::{TrapAt, shown_stop};
use sinks::Sink;
use std::alloc::Global;
use world::read_world;
use world_schedules::{Schedule, read_schedule};
use world_values::World;

/// The number of threads of a world, which are at most 8.
pub(crate) fn thread_count(world: &World) -> u8
    ensures { result ≡ length world.now.threads }
{
    world.threads().len() as u8
}

/// Runs a machine that has taken no step, and writes the report.
fn run_loaded<W: Sink>(
    alloc: Global,
    machine: &mut Machine<'_>,
    schedule: &Schedule,
    out: &mut W,
) -> Result<Option<TrapAt>, RunError>
    requires can_fail { CanFail (W.written out.old) }
    requires unstarted { machine.old.journal ≡ [] }
    requires few { length schedule.now ≤ most_entries }
    ensures run { (program world order : List ℕ) → IsLoaded program world order machine.old schedule.now
        → RunsTexts (W.written out.old) (W.written out.new) result (EndsRun program world order)
        (AreRefused program world order) }
    ensures accepted { IsRunOrFails result }
{
    match machine.run(schedule) {
        Ok(()) => {}
        Err(RunFault::Memory) => return Err(RunError::Memory),
        // A schedule has no more words than a journal may have steps.
        Err(RunFault::Full) => unreachable!(),
    }
    let trap = shown_stop(machine.stop());
    match machine.report(alloc, out) {
        Ok(()) => Ok(trap),
        Err(fault) => Err(of_report(fault)),
    }
}

/// Runs a program in a world by a schedule.
fn run_by<W: Sink>(
    alloc: Global,
    lowered: Program<'_>,
    world: World,
    schedule: &Schedule,
    out: &mut W,
) -> Result<Option<TrapAt>, RunError>
    requires can_fail { CanFail (W.written out.old) }
    requires few { length schedule.now ≤ most_entries }
    ensures run { (program text order : List ℕ) → IsPassed program text (unit_tree lowered.entry.unit) world
        → schedule_of order (length world.threads) ≡ Ok schedule.now
        → IsScheduleText (length world.threads) order schedule.now
        → RunsTexts (W.written out.old) (W.written out.new) result (EndsRun program text order)
        (AreRefused program text order) }
    ensures accepted { (program text order : List ℕ) → world_of_text text ≡ Ok world → (m : Meaning program text order)
        → unit_tree lowered.entry.unit ≡ m.unit → IsRunOrFails result }
{
    match Machine::load(alloc, lowered, world) {
        Ok(mut machine) => run_loaded(alloc, &mut machine, schedule, out),
        Err(fault) => Err(of_load(fault)),
    }
}

/// Runs a program in a world by the schedule of a text.
fn run_world<W: Sink>(
    alloc: Global,
    lowered: Program<'_>,
    world: World,
    schedule_text: &[u8],
    out: &mut W,
) -> Result<Option<TrapAt>, RunError>
    requires { CanFail (W.written out.old) }
    ensures run { (program text : List ℕ) → IsPassed program text (unit_tree lowered.entry.unit) world
        → RunsTexts (W.written out.old) (W.written out.new) result (EndsRun program text schedule_text.now)
        (AreRefused program text schedule_text.now) }
    ensures accepted { (program text : List ℕ) → world_of_text text ≡ Ok world
        → (m : Meaning program text schedule_text.now) → unit_tree lowered.entry.unit ≡ m.unit
        → IsRunOrFails result }
{
    let threads = thread_count(&world);
    match read_schedule(alloc, schedule_text, threads) {
        Ok(schedule) => run_by(alloc, lowered, world, &schedule, out),
        Err(error) => Err(of_reading(Text::Schedule, error)),
    }
}

/// Runs an accepted program in the world by the schedule.
fn run_checked<W: Sink>(
    alloc: Global,
    checked: &Checked,
    world_text: &[u8],
    schedule_text: &[u8],
    out: &mut W,
) -> Result<Option<TrapAt>, RunError>
    requires { CanFail (W.written out.old) }
    ensures run { (program : List ℕ) → IsProgram program (unit_tree checked.now)
        → RunsTexts (W.written out.old) (W.written out.new) result (EndsRun program world_text.now schedule_text.now)
        (AreRefused program world_text.now schedule_text.now) }
    ensures accepted { (program : List ℕ) (m : Meaning program world_text.now schedule_text.now)
        → unit_tree checked.now ≡ m.unit → IsRunOrFails result }
{
    match lower(alloc, checked) {
        Ok(lowered) => match read_world(alloc, world_text) {
            Ok(world) => run_world(alloc, lowered, world, schedule_text, out),
            Err(error) => Err(of_reading(Text::World, error)),
        },
        Err(error) => Err(of_lower(checked, error)),
    }
}

/// Runs the program in the world by the schedule, and writes the report of the run and its journal. Answers the trap that
/// stopped the run, if one did.
///
/// On `Ok` what was written is the report of the source run that the journal names, and that journal, which has the
/// schedule's steps in order, with clearings of weak references to unreachable objects between them; none of it waits
/// in the sink. A fault is one that the texts earn, and nothing is written then. The texts are read in their order: the
/// program is scanned, parsed, checked for types and regions and lowered, then the world and the schedule are read, then
/// they are loaded.
pub fn run_text<W: Sink>(
    alloc: Global,
    program_text: &[u8],
    world_text: &[u8],
    schedule_text: &[u8],
    out: &mut W,
) -> Result<Option<TrapAt>, RunError>
    requires { CanFail (W.written out.old) }
    ensures run { RunsTexts (W.written out.old) (W.written out.new) result
        (EndsRun program_text.now world_text.now schedule_text.now)
        (AreRefused program_text.now world_text.now schedule_text.now) }
    // Texts that mean a run are refused for memory, for length or by the writer alone.
    ensures accepted { Meaning program_text.now world_text.now schedule_text.now → IsRunOrFails result }
{
    match read_program(alloc, program_text) {
        Ok(checked) => run_checked(alloc, &checked, world_text, schedule_text, out),
        Err(error) => Err(error),
    }
}
