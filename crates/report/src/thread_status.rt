//! What a run printed, and the status of each thread.

ghost use Rattle.std.specs.Prelude.{◌++◌, codes, decimal, map};
ghost use Rattle.std.specs.List.{flat_map, enumerate_from};
ghost use Rattle.sinks.specs.Sink.{CanFail, Writes};
ghost use Rattle.report.specs.ReportText.{thread_line};
ghost use Rattle.report.specs.ThreadStatus.{standing_view};

use crate::text::Text;
use itoa::Buffer;
use semantics::Printed;
use sinks::{Sink, SinkFailed, put_pieces};

/// The status of a thread when the run is over.
#[derive(Clone, Copy)]
pub enum ThreadStatus<'a> {
    /// Its step was a trap, of this number, in a statement of this line.
    Trapped { trap: u8, line: usize },
    /// It has taken all its steps.
    Ended,
    /// Its call returned with an exception pending, of the class of this name.
    Uncaught(&'a [u8]),
    /// It waits for a monitor.
    Blocked,
    /// It has steps left.
    Running,
}

impl<'a> Default for ThreadStatus<'a> {
    fn default() -> ThreadStatus<'a> {
        ThreadStatus::Running
    }
}

impl Text for Printed {
    ghost use Rattle.report.specs.ReportText.{printed_line};

    ghost text = { printed_line };

    fn put<S: Sink>(&self, sink: &mut S) -> Result<(), SinkFailed> {
        let mut thread = Buffer::new();
        let mut number = Buffer::new();
        let thread = thread.format(self.thread);
        let number = number.format(self.number);
        put_pieces(
            sink,
            &[b"T", thread.as_bytes(), b" ", number.as_bytes(), b"\n"],
        )
    }
}

/// Puts the line of a thread of this number and these words.
fn put_words<S: Sink>(sink: &mut S, thread: &str, words: &[u8]) -> Result<(), SinkFailed>
    requires { CanFail (S.written sink.old) }
    ensures { Writes (S.written sink.old) (S.written sink.new) result (codes "T" ++ thread.now ++ words.now ++ codes "\n") }
{
    put_pieces(sink, &[b"T", thread.as_bytes(), words, b"\n"])
}

/// Puts the line of a thread whose step was a trap.
fn put_trap<S: Sink>(sink: &mut S, thread: &str, trap: u8, line: usize) -> Result<(), SinkFailed>
    requires { CanFail (S.written sink.old) }
    ensures { Writes (S.written sink.old) (S.written sink.new) result
        (codes "T" ++ thread.now ++ codes " trap " ++ decimal trap ++ codes " line " ++ decimal line ++ codes "\n") }
{
    let mut number = Buffer::new();
    let mut place = Buffer::new();
    let number = number.format(trap);
    let place = place.format(line);
    put_pieces(
        sink,
        &[
            b"T",
            thread.as_bytes(),
            b" trap ",
            number.as_bytes(),
            b" line ",
            place.as_bytes(),
            b"\n",
        ],
    )
}

/// Puts the line of a thread whose call returned with an exception pending, of the class of this name.
fn put_uncaught<S: Sink>(sink: &mut S, thread: &str, class: &[u8]) -> Result<(), SinkFailed>
    requires { CanFail (S.written sink.old) }
    ensures { Writes (S.written sink.old) (S.written sink.new) result (codes "T" ++ thread.now ++ codes " uncaught " ++ class.now ++ codes "\n") }
{
    put_pieces(
        sink,
        &[b"T", thread.as_bytes(), b" uncaught ", class, b"\n"],
    )
}

/// Puts the line of a thread.
fn put_standing<S: Sink>(
    sink: &mut S,
    thread: usize,
    standing: ThreadStatus<'_>,
) -> Result<(), SinkFailed>
    requires { CanFail (S.written sink.old) }
    ensures { Writes (S.written sink.old) (S.written sink.new) result (thread_line (thread, standing_view standing.entry)) }
{
    let mut name = Buffer::new();
    let name = name.format(thread);
    match standing {
        ThreadStatus::Ended => put_words(sink, name, b" ended"),
        ThreadStatus::Uncaught(class) => put_uncaught(sink, name, class),
        ThreadStatus::Blocked => put_words(sink, name, b" blocked"),
        ThreadStatus::Running => put_words(sink, name, b" running"),
        ThreadStatus::Trapped { trap, line } => put_trap(sink, name, trap, line),
    }
}

/// Puts the lines of the threads, the first of which is T1.
pub(crate) fn put_standings<S: Sink>(
    sink: &mut S,
    standings: &[ThreadStatus<'_>],
) -> Result<(), SinkFailed>
    requires { CanFail (S.written sink.old) }
    ensures { Writes (S.written sink.old) (S.written sink.new) result
        (flat_map thread_line (enumerate_from 1 (map standing_view standings.now))) }
{
    let mut thread = 0;
    for standing in standings {
        thread += 1;
        put_standing(sink, thread, *standing)?;
    }
    Ok(())
}
