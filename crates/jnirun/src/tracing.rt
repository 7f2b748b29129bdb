//! Runs and replays whose entries are told.

ghost use Rattle.std.specs.Prelude.{◌≡◌, ◌≤◌, ◌<◌, ◌^◌, ◌+◌, false};
ghost use Rattle.sinks.specs.Sink.{CanFail};
ghost use Rattle.cli_commands.specs.Commands.{runs_workers};
ghost use Rattle.replay_trace.specs.Traces.{GoesOn};
ghost use Rattle.jnirun.specs.Traces.{ServesTraced};

use crate::errors::of_reading;
use crate::serving::{read_or_tell, run_texts, tell_outcome};
use crate::working::work_text;
use cli_commands::{Command, DONE, Files, Texts, Trace};
use places::Text;
use program_check::{RunError, read_program};
use region_rules::Checked;
use replay_trace::{Keeping, Told, Traced, tell_lack, tell_nothing, trace_line};
use sinks::Sink;
use std::alloc::Global;
use std::sync::Wait;
use std::thread::Threads;
use world::read_world;
use world_values::World;

/// Which entries are told.
fn told_by(which: Trace) -> Told {
    match which {
        Trace::Steps => Told::Entries,
        Trace::Calls => Told::Calls,
    }
}

/// What a trace is told of, beside a journal: a program and a world.
type Read = (Checked, World);

/// Reads the program and the world of a run again.
fn read_again(alloc: Global, texts: &Texts) -> Result<Read, RunError> {
    let checked = read_program(alloc, &texts.program)?;
    match read_world(alloc, &texts.world) {
        Ok(world) => Ok((checked, world)),
        Err(error) => Err(of_reading(Text::World, error)),
    }
}

/// Tells the entries of a run that is done, of which this is the line of the journal.
fn tell_run<E: Sink>(
    alloc: Global,
    texts: &Texts,
    which: Trace,
    status: u8,
    line: Option<&[u8]>,
    err: &mut E,
)
    requires { CanFail (E.written err.old) }
    ensures { GoesOn (E.written err.old) (E.written err.new) }
{
    if status != DONE {
        return tell_nothing(err);
    }
    match read_again(alloc, texts) {
        Ok((checked, world)) => {
            let told = told_by(which);
            let traced = Traced {
                checked: &checked,
                world: &world,
                told,
            };
            trace_line(alloc, traced, line, err);
        }
        Err(RunError::Memory) => tell_lack(err),
        Err(_) => tell_nothing(err),
    }
}

/// Does what a command without workers asks for, as `serve_sequential` does, and then tells the entries of its journal on standard
/// error, a line for each, where it ran or replayed to its end. The status is as without that, also where standard error fails, and
/// where memory is refused for the lines, of which the last is then `memory`.
pub fn trace_sequential<F: Files, O: Sink, E: Sink>(
    alloc: Global,
    command: Command<'_>,
    which: Trace,
    files: &mut F,
    out: &mut Keeping<O>,
    err: &mut E,
) -> u8
    requires out { CanFail (O.written out.old.sink) }
    requires err { (E.written err.old).failures < 2 ^ 63 }
    requires sequential { runs_workers command ≡ false }
    ensures { ServesTraced (F.gives files.old) (F.lacks files.old) command.entry (O.written out.old.sink) (O.written out.new.sink)
        (E.written err.old) (E.written err.new) result }
{
    match read_or_tell(alloc, command, files, err) {
        Ok(texts) => {
            let outcome = run_texts(alloc, command, &texts, out);
            let status = tell_outcome(command, &texts, outcome, out, err);
            tell_run(alloc, &texts, which, status, out.last_line(), err);
            status
        }
        Err(status) => status,
    }
}

/// The same of any command, as `serve` does.
pub fn trace_all<F: Files, O: Sink, E: Sink, R: Threads + Wait + Sync>(
    rt: &R,
    alloc: Global,
    command: Command<'_>,
    which: Trace,
    files: &mut F,
    out: &mut Keeping<O>,
    err: &mut E,
) -> u8
    requires out { CanFail (O.written out.old.sink) }
    requires err { (E.written err.old).failures < 2 ^ 63 }
    ensures { ServesTraced (F.gives files.old) (F.lacks files.old) command.entry (O.written out.old.sink) (O.written out.new.sink)
        (E.written err.old) (E.written err.new) result }
{
    let Command::Work { .. } = command else {
        return trace_sequential(alloc, command, which, files, out, err);
    };
    match read_or_tell(alloc, command, files, err) {
        Ok(texts) => {
            let outcome = work_text(rt, alloc, &texts.program, &texts.world, out);
            let status = tell_outcome(command, &texts, outcome, out, err);
            tell_run(alloc, &texts, which, status, out.last_line(), err);
            status
        }
        Err(status) => status,
    }
}
