//! Checks of several programs, one after the other.

ghost use Rattle.std.specs.Prelude.{◌≡◌, ◌+◌, ◌<◌, ◌^◌, List, ℕ, length, map, max};
ghost use Rattle.sinks.specs.Sink.{CanFail};
ghost use Rattle.program_check.specs.Checks.{ChecksText, FailsCheck, PassesCheck};
ghost use Rattle.jnirun.specs.ServeEach.{SaysOrFails, ChecksOrEnds, ServesEach};

use crate::serving::words_of;
use cli_commands::{
    DONE, FileFault, Files, REFUSED, Reason, Source, fail, fail_of, say_fault_of, say_of, tell,
};
use program_check::{FaultPlace, RunError, check_text};
use sinks::Sink;
use std::alloc::Global;

/// Writes the line of a fault of a program, and tells where and why it is refused.
fn refuse_one<O: Sink, E: Sink>(
    name: &str,
    program: &[u8],
    number: u32,
    place: FaultPlace,
    out: &mut O,
    err: &mut E,
) -> Result<u8, u8>
    requires out { CanFail (O.written out.old) }
    requires err { CanFail (E.written err.old) }
    ensures { FailsCheck program.now number place
        → SaysOrFails name.now program.now (O.written out.old) (O.written out.new) (E.written err.old) (E.written err.new) result }
{
    let at = place.place();
    match say_fault_of(out, name.as_bytes(), number, at) {
        Ok(()) => {
            let source = Source {
                name: name.as_bytes(),
                text: program,
            };
            let detail = place.into_detail();
            let reason = Reason {
                kind: b"error",
                number,
                words: words_of(number),
                detail: detail.as_bytes(),
            };
            let _ = tell(err, source, at, reason);
            Ok(REFUSED)
        }
        Err(_) => Err(fail(err, b"writer\n")),
    }
}

/// Says that a program passes.
fn pass_one<O: Sink, E: Sink>(name: &str, out: &mut O, err: &mut E) -> Result<u8, u8>
    requires out { CanFail (O.written out.old) }
    requires err { CanFail (E.written err.old) }
    ensures { (program : List ℕ) → PassesCheck program
        → SaysOrFails name.now program (O.written out.old) (O.written out.new) (E.written err.old) (E.written err.new) result }
{
    match say_of(out, name.as_bytes(), b"ok\n") {
        Ok(()) => Ok(DONE),
        Err(_) => Err(fail(err, b"writer\n")),
    }
}

/// Says how it went with a program, and answers its status, or that of all where no more of them are checked.
fn say_outcome<O: Sink, E: Sink>(
    name: &str,
    program: &[u8],
    outcome: Result<(), RunError>,
    out: &mut O,
    err: &mut E,
) -> Result<u8, u8>
    requires out { CanFail (O.written out.old) }
    requires err { CanFail (E.written err.old) }
    ensures { ChecksText program.now outcome
        → SaysOrFails name.now program.now (O.written out.old) (O.written out.new) (E.written err.old) (E.written err.new) result }
{
    match outcome {
        Ok(()) => pass_one(name, out, err),
        Err(RunError::Fault(number, place)) => {
            refuse_one(name, program, number, place, out, err)
        }
        Err(RunError::Memory) => Err(fail(err, b"memory\n")),
        Err(RunError::Writer) => Err(fail(err, b"writer\n")),
    }
}

/// Checks one of several programs, and answers its status, or that of all where no more of them are checked.
fn check_one<F: Files, O: Sink, E: Sink>(
    alloc: Global,
    name: &str,
    files: &mut F,
    out: &mut O,
    err: &mut E,
) -> Result<u8, u8>
    requires out { CanFail (O.written out.old) }
    requires err { CanFail (E.written err.old) }
    ensures checks { ChecksOrEnds (F.gives files.old) (F.lacks files.old) name.now (O.written out.old) (O.written out.new)
        (E.written err.old) (E.written err.new) result }
    ensures kept { (other bytes : List ℕ) → F.gives files.new other bytes → F.gives files.old other bytes }
    ensures still { (other : List ℕ) → F.lacks files.new other → F.lacks files.old other }
{
    match files.read(alloc, name) {
        Ok(program) => {
            let outcome = check_text(alloc, &program);
            say_outcome(name, &program, outcome, out, err)
        }
        Err(FileFault::Memory) => Err(fail(err, b"memory\n")),
        Err(FileFault::File) => Ok(fail_of(err, name.as_bytes(), b"file\n")),
    }
}

/// The greater of two statuses.
fn worse(status: u8, other: u8) -> u8
    ensures { result ≡ max status other }
{
    status.max(other)
}

/// Checks programs one after the other, and answers the greatest of their statuses: 0 where all pass, 1 where one is
/// refused, 3 where a file can't be read. Each line on standard output begins with the name of a program's file.
///
/// Where memory is refused or standard output fails, no more of them are checked, and the status is 3.
pub fn check_each<F: Files, O: Sink, E: Sink>(
    alloc: Global,
    names: &[&str],
    files: &mut F,
    out: &mut O,
    err: &mut E,
) -> u8
    requires out { CanFail (O.written out.old) }
    requires err { (E.written err.old).failures + length names.now < 2 ^ 64 }
    ensures { ServesEach (F.gives files.old) (F.lacks files.old) (map (λ name. name.now) names.now)
        (O.written out.old) (O.written out.new) (E.written err.old) (E.written err.new) result }
{
    let mut status = DONE;
    for name in names {
        match check_one(alloc, name, files, out, err) {
            Ok(one) => status = worse(status, one),
            Err(failed) => return failed,
        }
    }
    status
}
