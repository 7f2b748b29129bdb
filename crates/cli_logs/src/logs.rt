//! Logs of the faults of several programs.

ghost use Rattle.std.specs.Prelude.{◌≡◌, ℕ, List, [], IfOk, map};
ghost use Rattle.sinks.specs.Sink.{CanFail};
ghost use Rattle.cli_logs.specs.Logs.{MayPass, PassAll};

use cli_commands::{DONE, FAILED, FileFault, Files, REFUSED, fail};
use cli_sarif::Log;
use places::Place;
use program_check::{ToldFault, all_faults};
use sinks::{Sink, SinkFailed, put_pieces};
use std::alloc::{AllocError, Global};

/// The line of a place, or 0.
fn line_of(place: Place) -> usize {
    match place {
        Place::Line(_, line) => line,
        Place::Entry(_) => 0,
    }
}

/// Puts the faults of a program into a log, and answers its status.
fn put_faults(
    alloc: Global,
    log: &mut Log,
    name: &str,
    faults: &[ToldFault],
) -> Result<u8, AllocError>
    ensures { IfOk result (λ status. status ≡ 0 → faults.now ≡ []) }
{
    for fault in faults {
        log.put_fault(
            alloc,
            name,
            fault.number,
            line_of(fault.place),
            fault.detail.as_bytes(),
        )?;
    }
    match faults {
        [] => Ok(DONE),
        [_, ..] => Ok(REFUSED),
    }
}

/// Puts a file that can't be read into a log, and answers its status.
fn put_unread(alloc: Global, log: &mut Log, name: &str) -> Result<u8, AllocError>
    ensures { IfOk result (λ status. status ≡ 3) }
{
    log.put_unread(alloc, name)?;
    Ok(FAILED)
}

/// Checks a program, puts its faults into a log, and answers its status.
fn put_program<F: Files>(
    alloc: Global,
    log: &mut Log,
    name: &str,
    files: &mut F,
) -> Result<u8, AllocError>
    ensures passes { IfOk result (λ status. status ≡ 0 → MayPass (F.gives files.old) name.now) }
    ensures kept { (other bytes : List ℕ) → F.gives files.new other bytes → F.gives files.old other bytes }
{
    let program = match files.read(alloc, name) {
        Ok(program) => program,
        Err(FileFault::Memory) => return Err(AllocError),
        Err(FileFault::File) => return put_unread(alloc, log, name),
    };
    let faults = all_faults(alloc, &program)?;
    put_faults(alloc, log, name, &faults)
}

/// The text of the log of programs, and the greatest of their statuses.
fn log_of<F: Files>(
    alloc: Global,
    names: &[&str],
    files: &mut F,
) -> Result<(String, u8), AllocError>
    ensures { IfOk result (λ log. PassAll (F.gives files.old) (map (λ name. name.now) names.now) log.1) }
{
    let mut log = Log::new(alloc);
    let mut status = DONE;
    for name in names {
        let one = put_program(alloc, &mut log, name, files)?;
        status = status.max(one);
    }
    let text = log.into_text(alloc)?;
    Ok((text, status))
}

/// Writes a line, and sends on all that waits.
fn say_line<O: Sink>(out: &mut O, line: &[u8]) -> Result<(), SinkFailed>
    requires { CanFail (O.written out.old) }
{
    put_pieces(out, &[line, b"\n"])?;
    out.flush()
}

/// Checks programs one after the other, writes one log of all faults of each, and answers the greatest of their
/// statuses: 0 where all pass, 1 where one is refused, 3 where a file can't be read.
///
/// Nothing is written before all are checked. Where memory is refused nothing is written on standard output, and the status
/// is 3; it is 3 too where standard output fails.
pub fn write_log<F: Files, O: Sink, E: Sink>(
    alloc: Global,
    names: &[&str],
    files: &mut F,
    out: &mut O,
    err: &mut E,
) -> u8
    requires out { CanFail (O.written out.old) }
    requires err { CanFail (E.written err.old) }
    ensures { PassAll (F.gives files.old) (map (λ name. name.now) names.now) result }
{
    match log_of(alloc, names, files) {
        Ok((text, status)) => match say_line(out, text.as_bytes()) {
            Ok(()) => status,
            Err(_) => fail(err, b"writer\n"),
        },
        Err(_) => fail(err, b"memory\n"),
    }
}
