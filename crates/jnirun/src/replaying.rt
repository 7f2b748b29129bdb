//! A replay, from its texts to its report.

ghost use Rattle.std.specs.Prelude.{◌≡◌, ℕ, List, Ok};
ghost use Rattle.syntax.specs.Views.{unit_tree};
ghost use Rattle.sinks.specs.Sink.{CanFail};
ghost use Rattle.program_check.specs.Programs.{IsProgram};
ghost use Rattle.jnirun.specs.Runs.{RunsTexts};
ghost use Rattle.jnirun.specs.ReplayLaws.{RunsAreReplayed, WorksAreReplayed};
ghost use Rattle.jnirun.specs.Replays.{EndsReplay, AreRefusedReplays, IsPossible, IsReplayOrFails};
ghost use Rattle.world_values.specs.WorldRules.{IsWorldText};
ghost use Rattle.world.specs.ReadingWorlds.{world_of_text};

use crate::errors::{of_reading, of_replay};
use crate::run::thread_count;
use parse::one_unit;
use places::Text;
use program_check::{RunError, read_program};
use region_rules::Checked;
use replay::{TrapAt, replay};
use sinks::Sink;
use std::alloc::Global;
use world::read_world;
use world_schedules::read_journal;
use world_values::World;

/// Replays the journal of an accepted program in the world of a text.
fn replay_checked<W: Sink>(
    alloc: Global,
    checked: &Checked,
    world_text: &[u8],
    journal_text: &[u8],
    out: &mut W,
) -> Result<Option<TrapAt>, RunError>
    requires { CanFail (W.written out.old) }
    ensures replay { (program : List ℕ) → IsProgram program (unit_tree checked.now)
        → RunsTexts (W.written out.old) (W.written out.new) result (EndsReplay program world_text.now journal_text.now)
        (AreRefusedReplays program world_text.now journal_text.now) }
    ensures accepted { (program : List ℕ) (p : IsPossible program world_text.now journal_text.now)
        → unit_tree checked.now ≡ p.meaning.unit → IsReplayOrFails result }
{
    match read_world(alloc, world_text) {
        Ok(world) => replay_world(alloc, checked, &world, journal_text, out),
        Err(error) => Err(of_reading(Text::World, error)),
    }
}

/// Replays the journal of an accepted program in a world.
fn replay_world<W: Sink>(
    alloc: Global,
    checked: &Checked,
    world: &World,
    journal_text: &[u8],
    out: &mut W,
) -> Result<Option<TrapAt>, RunError>
    requires { CanFail (W.written out.old) }
    ensures replay { (program text : List ℕ) → IsProgram program (unit_tree checked.now)
        → world_of_text text ≡ Ok world.now → IsWorldText text world.now
        → RunsTexts (W.written out.old) (W.written out.new) result (EndsReplay program text journal_text.now)
        (AreRefusedReplays program text journal_text.now) }
    ensures accepted { (program text : List ℕ) → world_of_text text ≡ Ok world.now
        → (p : IsPossible program text journal_text.now) → unit_tree checked.now ≡ p.meaning.unit
        → IsReplayOrFails result }
{
    let threads = thread_count(world);
    match read_journal(alloc, journal_text, threads) {
        Ok(journal) => match replay(alloc, checked, world, &journal, out) {
            Ok(trap) => Ok(trap),
            Err(error) => Err(of_replay(&journal, error)),
        },
        Err(error) => Err(of_reading(Text::Journal, error)),
    }
}

/// Replays the journal of the program in the world, and writes the report of its run and the journal. Answers the trap
/// that stopped the run, if one did.
///
/// On `Ok` what was written is what a run with this journal writes, and none of it waits in the sink. A fault is one
/// that the texts earn, and nothing is written then: 91 has the number of the first entry that isn't possible, counted
/// from 1. The texts are read in their order: the program is scanned, parsed, and checked for types and regions, then
/// the world and the journal are read, then they are loaded and the entries taken. No code is made, so no function is
/// too long.
pub fn replay_text<W: Sink>(
    alloc: Global,
    program_text: &[u8],
    world_text: &[u8],
    journal_text: &[u8],
    out: &mut W,
) -> Result<Option<TrapAt>, RunError>
    requires { CanFail (W.written out.old) }
    ensures replay { RunsTexts (W.written out.old) (W.written out.new) result
        (EndsReplay program_text.now world_text.now journal_text.now)
        (AreRefusedReplays program_text.now world_text.now journal_text.now) }
    // Texts whose journal is possible are refused for memory or by the writer alone.
    ensures accepted { IsPossible program_text.now world_text.now journal_text.now → IsReplayOrFails result }
{
    match read_program(alloc, program_text) {
        Ok(checked) => replay_checked(alloc, &checked, world_text, journal_text, out),
        Err(error) => Err(error),
    }
}

/// The journal that a run wrote, by a schedule or by workers, can be replayed, and its replay writes what the run wrote: a law,
/// which computes nothing.
pub fn runs_are_replayed()
    ensures runs { RunsAreReplayed }
    ensures works { WorksAreReplayed }
{
    one_unit();
}
