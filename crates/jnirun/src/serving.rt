//! The commands over any files and sinks.

ghost use Rattle.std.specs.Prelude.{◌≡◌, ℕ, false, None, Err, IfErr, IfOk, OnOk};
ghost use Rattle.sinks.specs.Sink.{CanFail, Written};
ghost use Rattle.cli_commands.specs.Commands.{runs_workers};
ghost use Rattle.cli_commands.specs.Files.{AreTexts};
ghost use Rattle.places.specs.declared.place.Place.{Place};
ghost use Rattle.program_check.specs.Checks.{PassesCheck, FailsCheck};
ghost use Rattle.jnirun.specs.Runs.{RunsTexts};
ghost use Rattle.jnirun.specs.Serve.{TextsWrite, TextsEarn, passed, fault_words, trap_words, TellsTrap, ServesTexts, Serves};

use crate::replaying::replay_text;
use crate::run::run_text;
use crate::working::work_text;
use cli_commands::{
    Command, DONE, FileFault, Files, REFUSED, Reason, Source, Texts, fail, read_texts, say,
    say_fault, tell,
};
use places::{Place, Text};
use program_check::{FaultPlace, RunError, check_text};
use replay::TrapAt;
use sinks::Sink;
use std::alloc::Global;
use std::sync::Wait;
use std::thread::Threads;

/// Checks a program, and says `ok` where it passes.
fn check_and_say<W: Sink>(
    alloc: Global,
    program: &[u8],
    out: &mut W,
) -> Result<Option<TrapAt>, RunError>
    requires { CanFail (W.written out.old) }
    ensures { RunsTexts (W.written out.old) (W.written out.new) result
        (λ trap text. PassesCheck program.now × (trap ≡ None) × (text ≡ passed)) (FailsCheck program.now) }
{
    match check_text(alloc, program) {
        Ok(()) => {}
        Err(error) => return Err(error),
    }
    match say(out, b"ok\n") {
        Ok(()) => Ok(None),
        Err(_) => Err(RunError::Writer),
    }
}

/// Checks, runs by a schedule or replays. Answers the trap that stopped the run, if one did.
pub(crate) fn run_texts<W: Sink>(
    alloc: Global,
    command: Command<'_>,
    texts: &Texts,
    out: &mut W,
) -> Result<Option<TrapAt>, RunError>
    requires can_fail { CanFail (W.written out.old) }
    requires sequential { runs_workers command ≡ false }
    ensures { RunsTexts (W.written out.old) (W.written out.new) result
        (TextsWrite command.entry texts.now.program.items texts.now.world.items texts.now.order.items)
        (TextsEarn command.entry texts.now.program.items texts.now.world.items texts.now.order.items) }
{
    match command {
        Command::Check { .. } => check_and_say(alloc, &texts.program, out),
        Command::Run { .. } => run_text(alloc, &texts.program, &texts.world, &texts.order, out),
        Command::Work { .. } => unreachable!(),
        Command::Replay { .. } => {
            replay_text(alloc, &texts.program, &texts.world, &texts.order, out)
        }
    }
}

/// What a trap is, in a few words.
fn words_of_trap(number: u8) -> &'static [u8]
    ensures { result.now ≡ trap_words number }
{
    match cli_explanations::trap(u32::from(number)) {
        Some(explanation) => explanation.title,
        None => b"the program stops",
    }
}

/// Tells where and why a trap stopped the run, and nothing where none did.
fn tell_trap<E: Sink>(command: Command<'_>, program: &[u8], trap: Option<TrapAt>, err: &mut E)
    requires { CanFail (E.written err.old) }
    ensures { TellsTrap command.entry program.now (E.written err.old) (E.written err.new) trap }
{
    let Some(trap) = trap else {
        return;
    };
    let source = Source {
        name: command.name_of(Text::Program).as_bytes(),
        text: program,
    };
    let reason = Reason {
        kind: b"trap",
        number: u32::from(trap.number),
        words: words_of_trap(trap.number),
        detail: b"",
    };
    let _ = tell(err, source, Place::Line(Text::Program, trap.line), reason);
}

/// What a fault is, in a few words.
pub(crate) fn words_of(number: u32) -> &'static [u8]
    ensures { result.now ≡ fault_words number }
{
    match cli_explanations::fault(number) {
        Some(explanation) => explanation.title,
        None => b"the text is refused",
    }
}

/// Writes the line of a fault, and tells where and why a text is refused.
fn refuse<O: Sink, E: Sink>(
    command: Command<'_>,
    texts: &Texts,
    number: u32,
    place: FaultPlace,
    out: &mut O,
    err: &mut E,
) -> u8
    requires out { CanFail (O.written out.old) }
    requires err { CanFail (E.written err.old) }
    ensures { TextsEarn command.entry texts.now.program.items texts.now.world.items texts.now.order.items number place
        → ServesTexts command.entry texts.now.program.items texts.now.world.items texts.now.order.items
        (O.written out.old) (O.written out.new) (E.written err.old) (E.written err.new) result }
{
    let at = place.place();
    match say_fault(out, number, at) {
        Ok(()) => {
            let text = at.text();
            let source = Source {
                name: command.name_of(text).as_bytes(),
                text: texts.of(text),
            };
            let detail = place.into_detail();
            let reason = Reason {
                kind: b"error",
                number,
                words: words_of(number),
                detail: detail.as_bytes(),
            };
            let _ = tell(err, source, at, reason);
            REFUSED
        }
        Err(_) => fail(err, b"writer\n"),
    }
}

/// Says how it went with the texts of a command, and answers the status.
pub(crate) fn tell_outcome<O: Sink, E: Sink>(
    command: Command<'_>,
    texts: &Texts,
    outcome: Result<Option<TrapAt>, RunError>,
    out: &mut O,
    err: &mut E,
) -> u8
    requires out { (number : ℕ) (place : Place) → outcome ≡ Err (RunError.Fault number place) → CanFail (O.written out.old) }
    requires err { CanFail (E.written err.old) }
    ensures { (before : Written) → RunsTexts before (O.written out.old) outcome
        (TextsWrite command.entry texts.now.program.items texts.now.world.items texts.now.order.items)
        (TextsEarn command.entry texts.now.program.items texts.now.world.items texts.now.order.items)
        → ServesTexts command.entry texts.now.program.items texts.now.world.items texts.now.order.items
        before (O.written out.new) (E.written err.old) (E.written err.new) result }
{
    match outcome {
        Ok(trap) => {
            tell_trap(command, &texts.program, trap, err);
            DONE
        }
        Err(RunError::Fault(number, place)) => { refuse(command, texts, number, place, out, err) }
        Err(RunError::Memory) => fail(err, b"memory\n"),
        Err(RunError::Writer) => fail(err, b"writer\n"),
    }
}

/// Reads the files of a command. Where that fails it says so on `err`, and the error is the status.
pub(crate) fn read_or_tell<F: Files, E: Sink>(
    alloc: Global,
    command: Command<'_>,
    files: &mut F,
    err: &mut E,
) -> Result<Texts, u8>
    requires { CanFail (E.written err.old) }
    ensures given { IfOk result (λ texts. AreTexts (F.gives files.old) command.entry texts.program.items texts.world.items texts.order.items) }
    ensures silent { OnOk result (E.written err.new ≡ E.written err.old) }
    ensures told { IfErr result (λ status. (out : Written)
        → Serves (F.gives files.old) (F.lacks files.old) command.entry out out (E.written err.old) (E.written err.new) status) }
{
    match read_texts(alloc, files, command) {
        Ok(texts) => Ok(texts),
        Err(FileFault::Memory) => Err(fail(err, b"memory\n")),
        Err(FileFault::File) => Err(fail(err, b"file\n")),
    }
}

/// Does what a command without workers asks for, and answers the program's status: 0 done, 1 a text is refused, 3 memory,
/// a file or a writer failed.
///
/// Standard output gets what the command writes, or the line of a fault; standard error gets where and why a text is
/// refused, with the line of that text, where a trap stopped the run, in the same way, or one word for what failed.
/// That standard error fails changes no status.
///
/// It can't wait for a thread or a lock, so it returns, if the methods of its files and its sinks do.
pub fn serve_sequential<F: Files, O: Sink, E: Sink>(
    alloc: Global,
    command: Command<'_>,
    files: &mut F,
    out: &mut O,
    err: &mut E,
) -> u8
    requires out { CanFail (O.written out.old) }
    requires err { CanFail (E.written err.old) }
    requires sequential { runs_workers command ≡ false }
    ensures { Serves (F.gives files.old) (F.lacks files.old) command.entry (O.written out.old) (O.written out.new)
        (E.written err.old) (E.written err.new) result }
{
    match read_or_tell(alloc, command, files, err) {
        Ok(texts) => {
            let outcome = run_texts(alloc, command, &texts, out);
            tell_outcome(command, &texts, outcome, out, err)
        }
        Err(status) => status,
    }
}

/// Does what any command asks for, as `serve_sequential` does, to which it leaves all but a run by workers. That waits for
/// them, so it isn't proved to return.
pub fn serve<F: Files, O: Sink, E: Sink, R: Threads + Wait + Sync>(
    rt: &R,
    alloc: Global,
    command: Command<'_>,
    files: &mut F,
    out: &mut O,
    err: &mut E,
) -> u8
    requires out { CanFail (O.written out.old) }
    requires err { CanFail (E.written err.old) }
    ensures { Serves (F.gives files.old) (F.lacks files.old) command.entry (O.written out.old) (O.written out.new)
        (E.written err.old) (E.written err.new) result }
{
    let Command::Work { .. } = command else {
        return serve_sequential(alloc, command, files, out, err);
    };
    match read_or_tell(alloc, command, files, err) {
        Ok(texts) => {
            let outcome = work_text(rt, alloc, &texts.program, &texts.world, out);
            tell_outcome(command, &texts, outcome, out, err)
        }
        Err(status) => status,
    }
}
