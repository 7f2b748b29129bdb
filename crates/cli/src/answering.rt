//! The program over any files and sinks, once the words are read.

ghost use Rattle.std.specs.Prelude.{◌≡◌, ◌≢◌, ◌<◌, ◌^◌, false, codes, IfSome, IfNone};
ghost use Rattle.sinks.specs.Sink.{CanFail};
ghost use Rattle.cli_commands.specs.Saying.{Tells};
ghost use Rattle.cli.specs.Answers.{IsTextOf, Shows, Declines, IsAskedFor, asks_for_trace, asks_for_workers, Answers};

use cli_explanations::Explanation;
use cli_logs::{list_all, write_log};
use cli_words::Request;
use jnirun::{COMMAND_LINE, Command, DONE, Files, Trace, check_each, fail, say, serve_sequential};
use sinks::Sink;
use std::alloc::Global;
use std::io::ErrorKind;

const NO_EXPLANATION: &[u8] =
    b"error: there is no fault or trap of this number: explain N, or explain trap N\n";

const NO_ORDER: &[u8] =
    b"error: run needs one of --schedule FILE and --workers\n\nUsage: jnirun run <PROG> <WORLD> --schedule <FILE>\n       jnirun run <PROG> <WORLD> --workers\n";

const NOT_UTF_8: &[u8] = b"error: a word of the command line isn't UTF-8\n";

/// Says a text for the reader on `out`.
fn show<O: Sink, E: Sink>(text: &[u8], out: &mut O, err: &mut E) -> u8
    requires out { CanFail (O.written out.old) }
    requires err { CanFail (E.written err.old) }
    ensures { Shows (λ t. t ≡ text.now) (O.written out.old) (O.written out.new) (E.written err.old) (E.written err.new) result }
{
    match say(out, text) {
        Ok(()) => DONE,
        Err(_) => fail(err, b"writer\n"),
    }
}

/// Says on `err` why nothing is done.
fn decline<E: Sink>(text: &[u8], err: &mut E) -> u8
    requires { CanFail (E.written err.old) }
    ensures { Declines text.now (E.written err.old) (E.written err.new) result }
{
    let _ = say(err, text);
    COMMAND_LINE
}

/// Says on `err` why there are no words, by the kind of the error: memory was refused, or a word isn't UTF-8.
pub fn lacks_words<E: Sink>(kind: ErrorKind, err: &mut E) -> u8
    requires { CanFail (E.written err.old) }
    ensures memory { kind ≡ ErrorKind.OutOfMemory → (result ≡ 3) × Tells (E.written err.old) (E.written err.new) (codes "memory\n") }
    ensures not_text { kind ≢ ErrorKind.OutOfMemory
        → Declines (codes "error: a word of the command line isn't UTF-8\n") (E.written err.old)
        (E.written err.new) result }
{
    match kind {
        ErrorKind::OutOfMemory => fail(err, b"memory\n"),
        _ => decline(NOT_UTF_8, err),
    }
}

/// Says what a fault or a trap means, or that there is none of this number.
fn explain<O: Sink, E: Sink>(explanation: Option<Explanation>, out: &mut O, err: &mut E) -> u8
    requires out { CanFail (O.written out.old) }
    requires err { CanFail (E.written err.old) }
    ensures { Shows (IsTextOf explanation) (O.written out.old) (O.written out.new) (E.written err.old) (E.written err.new) result }
{
    match explanation {
        Some(explanation) => show(explanation.text, out, err),
        None => decline(NO_EXPLANATION, err),
    }
}

/// The command of a run by workers, where one is asked for.
pub fn run_by_workers<'a>(request: &Request<'a>) -> Option<Command<'a>>
    ensures some { IfSome result (IsAskedFor request.now) }
    ensures none { IfNone result (asks_for_workers request.now ≡ false) }
{
    match request {
        Request::Serve(command) | Request::Trace(command, _) => {
            if command.runs_workers() {
                Some(*command)
            } else {
                None
            }
        }
        Request::CheckEach(_)
        | Request::CheckAll(_)
        | Request::WriteLog(_)
        | Request::Explain(_)
        | Request::Show(_)
        | Request::Misuse(_)
        | Request::LacksOrder
        | Request::LacksMemory => None,
    }
}

/// The run or the replay whose entries are to be told, and which of them, where that is asked for.
pub fn traced<'a>(request: &Request<'a>) -> Option<(Command<'a>, Trace)>
    ensures some { IfSome result (λ asked. request.now ≡ Request.Trace asked.0 asked.1) }
    ensures none { IfNone result (asks_for_trace request.now ≡ false) }
{
    match request {
        Request::Trace(command, which) => Some((*command, *which)),
        Request::Serve(_)
        | Request::CheckEach(_)
        | Request::CheckAll(_)
        | Request::WriteLog(_)
        | Request::Explain(_)
        | Request::Show(_)
        | Request::Misuse(_)
        | Request::LacksOrder
        | Request::LacksMemory => None,
    }
}

/// Does what was asked for, unless that is a run by workers or one that is traced, and answers the program's status: 0 done, 1 a text is refused,
/// 2 the words are no command line, 3 memory, a file or a writer failed. It can't wait for a thread or a lock, so it
/// returns, as the methods of its files and its sinks do.
pub fn answer<F: Files, O: Sink, E: Sink>(
    alloc: Global,
    request: &Request<'_>,
    files: &mut F,
    out: &mut O,
    err: &mut E,
) -> u8
    requires out { CanFail (O.written out.old) }
    // Of several programs each may have something said on standard error.
    requires err { (E.written err.old).failures < 2 ^ 63 }
    requires sequential { asks_for_workers request.now ≡ false }
    requires untraced { asks_for_trace request.now ≡ false }
    ensures { Answers (F.gives files.old) (F.lacks files.old) request.now (O.written out.old) (O.written out.new)
        (E.written err.old) (E.written err.new) result }
{
    match request {
        Request::Serve(command) => serve_sequential(alloc, *command, files, out, err),
        Request::Trace(_, _) => unreachable!(),
        Request::CheckEach(programs) => check_each(alloc, programs, files, out, err),
        Request::CheckAll(programs) => list_all(alloc, programs, files, out, err),
        Request::WriteLog(programs) => write_log(alloc, programs, files, out, err),
        Request::Explain(explanation) => explain(*explanation, out, err),
        Request::Show(text) => show(text.as_bytes(), out, err),
        Request::Misuse(text) => decline(text.as_bytes(), err),
        Request::LacksOrder => decline(NO_ORDER, err),
        Request::LacksMemory => fail(err, b"memory\n"),
    }
}
