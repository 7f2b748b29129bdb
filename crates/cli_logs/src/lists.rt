//! Checks of programs that tell all faults, one program after the other.

ghost use Rattle.std.specs.Prelude.{◌≡◌, ◌+◌, ◌<◌, ◌≤◌, ◌^◌, List, ℕ, OnOk, length, map, max, nat_lt};
ghost use Rattle.sinks.specs.Sink.{CanFail, Writes};
ghost use Rattle.cli_commands.specs.Saying.{fault_line};
ghost use Rattle.program_check.specs.AllFaults.{entry_of};
ghost use Rattle.cli_logs.specs.Lists.{line_in, fault_lines, SaysFaults, ListsOrEnds, ListsAll};

use cli_commands::{
    DONE, FileFault, Files, Lines, REFUSED, Reason, Source, fail, fail_of, say, say_fault,
    say_fault_of, say_of, tell_from,
};
use places::Place;
use program_check::{ToldFault, all_faults};
use sinks::{Sink, SinkFailed};
use std::alloc::Global;

/// What a fault is, in a few words.
fn words_of(number: u32) -> &'static [u8] {
    match cli_explanations::fault(number) {
        Some(explanation) => explanation.title,
        None => b"the text is refused",
    }
}

/// Writes a line of the answer on a program, and sends on all that waits.
fn say_in<O: Sink>(out: &mut O, several: bool, name: &[u8], line: &[u8]) -> Result<(), SinkFailed>
    requires { CanFail (O.written out.old) }
    ensures text { Writes (O.written out.old) (O.written out.new) result (line_in several name.now line.now) }
    ensures none_waits { OnOk result ((O.written out.new).waiting ≡ 0) }
{
    if several {
        return say_of(out, name, line);
    }
    say(out, line)
}

/// Writes the line of a fault of a program, and sends on all that waits.
fn say_fault_in<O: Sink>(
    out: &mut O,
    several: bool,
    name: &[u8],
    number: u32,
    place: Place,
) -> Result<(), SinkFailed>
    requires { CanFail (O.written out.old) }
    ensures { Writes (O.written out.old) (O.written out.new) result (line_in several name.now (fault_line number place)) }
{
    if several {
        return say_fault_of(out, name, number, place);
    }
    say_fault(out, number, place)
}

/// Writes a line for each fault of a program.
fn say_faults<O: Sink>(
    out: &mut O,
    several: bool,
    name: &[u8],
    faults: &[ToldFault],
) -> Result<(), SinkFailed>
    requires { CanFail (O.written out.old) }
    ensures text { Writes (O.written out.old) (O.written out.new) result (fault_lines several name.now (map entry_of faults.now)) }
    ensures none_waits { OnOk result ((O.written out.new).waiting ≡ 0) }
{
    for fault in faults {
        say_fault_in(out, several, name, fault.number, fault.place)?;
    }
    out.flush()
}

/// Tells where and why a program is refused, fault by fault. The text is read once, where the lines of the faults don't fall.
fn tell_each<E: Sink>(
    err: &mut E,
    name: &[u8],
    program: &[u8],
    faults: &[ToldFault],
) -> Result<(), SinkFailed>
    requires { CanFail (E.written err.old) }
    ensures { (E.written err.new).failures ≤ (E.written err.old).failures + 1 }
{
    let mut lines = Lines::of(program);
    for fault in faults {
        let source = Source {
            name,
            text: program,
        };
        let reason = Reason {
            kind: b"error",
            number: fault.number,
            words: words_of(fault.number),
            detail: fault.detail.as_bytes(),
        };
        let rest = lines.at(fault.place);
        tell_from(err, source, rest, fault.place, reason)?;
    }
    Ok(())
}

/// Says how it went with a program, and answers its status, or that of all where no more of them are checked.
fn say_outcome<O: Sink, E: Sink>(
    several: bool,
    name: &str,
    program: &[u8],
    faults: &[ToldFault],
    out: &mut O,
    err: &mut E,
) -> Result<u8, u8>
    requires out { CanFail (O.written out.old) }
    requires err { CanFail (E.written err.old) }
    ensures says { SaysFaults several name.now (map entry_of faults.now) (O.written out.old) (O.written out.new) result }
    ensures err { (E.written err.new).failures ≤ (E.written err.old).failures + 1 }
{
    match faults {
        [] => match say_in(out, several, name.as_bytes(), b"ok\n") {
            Ok(()) => Ok(DONE),
            Err(_) => Err(fail(err, b"writer\n")),
        },
        [_, ..] => match say_faults(out, several, name.as_bytes(), faults) {
            Ok(()) => {
                let _ = tell_each(err, name.as_bytes(), program, faults);
                Ok(REFUSED)
            }
            Err(_) => Err(fail(err, b"writer\n")),
        },
    }
}

/// Tells that a file can't be read, and answers its status.
fn tell_unread<E: Sink>(several: bool, name: &str, err: &mut E) -> u8
    requires { CanFail (E.written err.old) }
    ensures status { result ≡ 3 }
    ensures err { (E.written err.new).failures ≤ (E.written err.old).failures + 1 }
{
    if several {
        return fail_of(err, name.as_bytes(), b"file\n");
    }
    fail(err, b"file\n")
}

/// Checks a program, and answers its status, or that of all where no more of them are checked.
fn list_one<F: Files, O: Sink, E: Sink>(
    alloc: Global,
    several: bool,
    name: &str,
    files: &mut F,
    out: &mut O,
    err: &mut E,
) -> Result<u8, u8>
    requires out { CanFail (O.written out.old) }
    requires err { CanFail (E.written err.old) }
    ensures lists { ListsOrEnds (F.gives files.old) (F.lacks files.old) several name.now (O.written out.old) (O.written out.new) result }
    ensures err { (E.written err.new).failures ≤ (E.written err.old).failures + 1 }
    ensures kept { (other bytes : List ℕ) → F.gives files.new other bytes → F.gives files.old other bytes }
    ensures still { (other : List ℕ) → F.lacks files.new other → F.lacks files.old other }
{
    let program = match files.read(alloc, name) {
        Ok(program) => program,
        Err(FileFault::Memory) => return Err(fail(err, b"memory\n")),
        Err(FileFault::File) => return Ok(tell_unread(several, name, err)),
    };
    match all_faults(alloc, &program) {
        Ok(faults) => say_outcome(several, name, &program, &faults, out, err),
        Err(_) => Err(fail(err, b"memory\n")),
    }
}

/// The greater of two statuses.
fn worse(status: u8, other: u8) -> u8
    ensures { result ≡ max status other }
{
    status.max(other)
}

/// Checks programs one after the other, and answers the greatest of their statuses, or that of all where no more of them are
/// checked.
fn list_each<F: Files, O: Sink, E: Sink>(
    alloc: Global,
    several: bool,
    names: &[&str],
    files: &mut F,
    out: &mut O,
    err: &mut E,
) -> u8
    requires out { CanFail (O.written out.old) }
    requires err { (E.written err.old).failures + length names.now < 2 ^ 64 }
    ensures { ListsAll (F.gives files.old) (F.lacks files.old) several (map (λ name. name.now) names.now)
        (O.written out.old) (O.written out.new) result }
{
    let mut status = DONE;
    for name in names {
        match list_one(alloc, several, name, files, out, err) {
            Ok(one) => status = worse(status, one),
            Err(failed) => return failed,
        }
    }
    status
}

/// Checks programs one after the other, tells all faults of each, and answers the greatest of their statuses: 0 where all
/// pass, 1 where one is refused, 3 where a file can't be read. Of several programs each line on standard output begins with
/// the name of its file.
///
/// Where memory is refused or standard output fails, no more of them are checked, and the status is 3.
pub fn list_all<F: Files, O: Sink, E: Sink>(
    alloc: Global,
    names: &[&str],
    files: &mut F,
    out: &mut O,
    err: &mut E,
) -> u8
    requires out { CanFail (O.written out.old) }
    requires err { (E.written err.old).failures + length names.now < 2 ^ 64 }
    ensures { ListsAll (F.gives files.old) (F.lacks files.old) (nat_lt 1 (length names.now)) (map (λ name. name.now) names.now)
        (O.written out.old) (O.written out.new) result }
{
    list_each(alloc, names.len() > 1, names, files, out, err)
}
