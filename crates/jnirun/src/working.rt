//! A run by workers, from its texts to its report.

ghost use Rattle.std.specs.Prelude.{◌≡◌, ℕ, List, Ok};
ghost use Rattle.syntax.specs.Views.{unit_tree};
ghost use Rattle.sinks.specs.Sink.{CanFail};
ghost use Rattle.shared.specs.Work.{VerdictHolds};
ghost use Rattle.program_check.specs.Programs.{IsProgram};
ghost use Rattle.jnirun.specs.Running.{IsPassed, IsUnderWay, HasRoom};
ghost use Rattle.jnirun.specs.Runs.{RunsTexts};
ghost use Rattle.jnirun.specs.Works.{WorkMeaning, EndsWork, AreRefusedWork, IsWorkOrFails};
ghost use Rattle.world.specs.ReadingWorlds.{world_of_text};

use crate::errors::{of_load, of_lower, of_reading, of_report, of_run};
use lower::Program;
use lower_parallel::{Watch, lower_parallel};
use machine::{Machine, RunFault};
use places::Text;
use program_check::{RunError, read_program};
use region_rules::Checked;
use replay::{TrapAt, shown_stop};
use shared::{Gate, Verdict, run_workers};
use sinks::Sink;
use std::alloc::Global;
use std::sync::Wait;
use std::thread::Threads;
use world::read_world;
use world_values::World;

/// How many workers lower a program.
const LOWERING: usize = 4;

/// Lets every worker go on.
struct Open;

impl Watch for Open {
    fn begin(&self, _function: usize) {}
}

impl Gate for Open {
    fn pass(&self, _seat: usize) -> bool {
        true
    }
}

/// Writes the report of a machine that workers ran.
fn report_work<W: Sink>(
    alloc: Global,
    machine: &Machine<'_>,
    out: &mut W,
) -> Result<Option<TrapAt>, RunError>
    requires can_fail { CanFail (W.written out.old) }
    requires has_room { HasRoom machine.now }
    ensures run { (program world : List ℕ) → IsUnderWay program world machine.now.unit machine.now.world
        → RunsTexts (W.written out.old) (W.written out.new) result (EndsWork program world)
        (AreRefusedWork program world) }
    ensures accepted { IsWorkOrFails result }
{
    let trap = shown_stop(machine.stop());
    match machine.report(alloc, out) {
        Ok(()) => Ok(trap),
        Err(fault) => Err(of_report(fault)),
    }
}

/// Tells what workers did with a machine, by their verdict.
fn tell_work<W: Sink>(
    alloc: Global,
    machine: &Machine<'_>,
    verdict: Verdict,
    out: &mut W,
) -> Result<Option<TrapAt>, RunError>
    requires can_fail { CanFail (W.written out.old) }
    requires verdict { VerdictHolds machine.now verdict }
    ensures run { (program world : List ℕ) → IsUnderWay program world machine.now.unit machine.now.world
        → RunsTexts (W.written out.old) (W.written out.new) result (EndsWork program world)
        (AreRefusedWork program world) }
    ensures accepted { IsWorkOrFails result }
{
    match verdict {
        Verdict::NoMemory => Err(RunError::Memory),
        Verdict::Done => report_work(alloc, machine, out),
        Verdict::Stalled => report_work(alloc, machine, out),
        Verdict::Full => {
            let _ = machine.journal();
            Err(of_run(RunFault::Full))
        }
    }
}

/// Lets workers run a machine that has taken no step.
fn work_loaded<W: Sink, R: Threads + Wait + Sync>(
    rt: &R,
    alloc: Global,
    machine: Machine<'_>,
    out: &mut W,
) -> Result<Option<TrapAt>, RunError>
    requires can_fail { CanFail (W.written out.old) }
    ensures run { (program world : List ℕ) → IsUnderWay program world machine.entry.unit machine.entry.world
        → RunsTexts (W.written out.old) (W.written out.new) result (EndsWork program world)
        (AreRefusedWork program world) }
    ensures accepted { IsWorkOrFails result }
{
    match run_workers(rt, alloc, machine, &Open) {
        Ok((machine, verdict)) => tell_work(alloc, &machine, verdict, out),
        Err(_) => Err(RunError::Memory),
    }
}

/// Lets workers run a program in a world.
fn work_in<W: Sink, R: Threads + Wait + Sync>(
    rt: &R,
    alloc: Global,
    lowered: Program<'_>,
    world: World,
    out: &mut W,
) -> Result<Option<TrapAt>, RunError>
    requires can_fail { CanFail (W.written out.old) }
    ensures run { (program text : List ℕ) → IsPassed program text (unit_tree lowered.entry.unit) world
        → RunsTexts (W.written out.old) (W.written out.new) result (EndsWork program text)
        (AreRefusedWork program text) }
    ensures accepted { (program text : List ℕ) → world_of_text text ≡ Ok world → (m : WorkMeaning program text)
        → unit_tree lowered.entry.unit ≡ m.unit → IsWorkOrFails result }
{
    match Machine::load(alloc, lowered, world) {
        Ok(machine) => work_loaded(rt, alloc, machine, out),
        Err(fault) => Err(of_load(fault)),
    }
}

/// Lets workers run an accepted program in the world.
fn work_checked<W: Sink, R: Threads + Wait + Sync>(
    rt: &R,
    alloc: Global,
    checked: &Checked,
    world_text: &[u8],
    out: &mut W,
) -> Result<Option<TrapAt>, RunError>
    requires { CanFail (W.written out.old) }
    ensures run { (program : List ℕ) → IsProgram program (unit_tree checked.now)
        → RunsTexts (W.written out.old) (W.written out.new) result (EndsWork program world_text.now)
        (AreRefusedWork program world_text.now) }
    ensures accepted { (program : List ℕ) (m : WorkMeaning program world_text.now) → unit_tree checked.now ≡ m.unit
        → IsWorkOrFails result }
{
    match lower_parallel(rt, alloc, checked, LOWERING, &Open) {
        Ok(lowered) => match read_world(alloc, world_text) {
            Ok(world) => work_in(rt, alloc, lowered, world, out),
            Err(error) => Err(of_reading(Text::World, error)),
        },
        Err(error) => Err(of_lower(checked, error)),
    }
}

/// Runs the program in the world by workers, a thread of the system for each thread, and writes the report of the run
/// and its journal. Answers the trap that stopped the run, if one did.
///
/// On `Ok` what was written is the report of the source run that the journal names, and that journal; none of it waits
/// in the sink. In which order the threads step isn't known before, and the journal tells it, with clearings of weak
/// references to unreachable objects between the steps. A fault is one that the texts earn, 92 where the journal has no
/// room for another step, and nothing is written then. Memory is also refused where a worker of a thread couldn't be
/// started. The texts are read as in `run_text`, and four workers lower the program.
pub fn work_text<W: Sink, R: Threads + Wait + Sync>(
    rt: &R,
    alloc: Global,
    program_text: &[u8],
    world_text: &[u8],
    out: &mut W,
) -> Result<Option<TrapAt>, RunError>
    requires { CanFail (W.written out.old) }
    ensures run { RunsTexts (W.written out.old) (W.written out.new) result
        (EndsWork program_text.now world_text.now) (AreRefusedWork program_text.now world_text.now) }
    // Texts that go with each other are refused for memory, for length, where the journal is full, or by the writer alone.
    ensures accepted { WorkMeaning program_text.now world_text.now → IsWorkOrFails result }
{
    match read_program(alloc, program_text) {
        Ok(checked) => work_checked(rt, alloc, &checked, world_text, out),
        Err(error) => Err(error),
    }
}
