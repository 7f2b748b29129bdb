//! Texts that are sent on at once.

ghost use Rattle.std.specs.Prelude.{◌≡◌, ◌++◌, OnOk, codes, decimal};
ghost use Rattle.sinks.specs.Sink.{CanFail, Writes};
ghost use Rattle.cli_commands.specs.Saying.{Tells, fault_line, line_of};

use crate::status::FAILED;
use itoa::Buffer;
use places::Place;
use sinks::{Sink, SinkFailed, put_all, put_pieces};

/// Writes a text, and sends on all that waits.
pub fn say<S: Sink>(sink: &mut S, text: &[u8]) -> Result<(), SinkFailed>
    requires { CanFail (S.written sink.old) }
    ensures text { Writes (S.written sink.old) (S.written sink.new) result text.now }
    ensures none_waits { OnOk result ((S.written sink.new).waiting ≡ 0) }
{
    put_all(sink, text)?;
    sink.flush()
}

/// Writes a line of a file, which begins with the file's name, and sends on all that waits.
pub fn say_of<S: Sink>(sink: &mut S, name: &[u8], line: &[u8]) -> Result<(), SinkFailed>
    requires { CanFail (S.written sink.old) }
    ensures text { Writes (S.written sink.old) (S.written sink.new) result (line_of name.now line.now) }
    ensures none_waits { OnOk result ((S.written sink.new).waiting ≡ 0) }
{
    put_pieces(sink, &[name, b": ", line])?;
    sink.flush()
}

/// Puts the number of a fault, the kind of its place, and the place's own number.
fn put_fault<W: Sink>(out: &mut W, number: u32, kind: &[u8], place: usize) -> Result<(), SinkFailed>
    requires { CanFail (W.written out.old) }
    ensures { Writes (W.written out.old) (W.written out.new) result
        (codes "fault " ++ decimal number ++ kind.now ++ decimal place ++ codes "\n") }
{
    let mut number_text = Buffer::new();
    let mut place_text = Buffer::new();
    let number = number_text.format(number);
    let place = place_text.format(place);
    put_pieces(
        out,
        &[b"fault ", number.as_bytes(), kind, place.as_bytes(), b"\n"],
    )
}

/// Writes the line of a fault.
pub fn say_fault<W: Sink>(out: &mut W, number: u32, place: Place) -> Result<(), SinkFailed>
    requires { CanFail (W.written out.old) }
    ensures text { Writes (W.written out.old) (W.written out.new) result (fault_line number place) }
    ensures none_waits { OnOk result ((W.written out.new).waiting ≡ 0) }
{
    match place {
        Place::Line(_text, line) => {
            put_fault(out, number, b" line ", line)?;
            out.flush()
        }
        Place::Entry(entry) => {
            put_fault(out, number, b" entry ", entry)?;
            out.flush()
        }
    }
}

/// Writes the line of a fault of a file, which begins with the file's name.
pub fn say_fault_of<W: Sink>(
    out: &mut W,
    name: &[u8],
    number: u32,
    place: Place,
) -> Result<(), SinkFailed>
    requires { CanFail (W.written out.old) }
    ensures text { Writes (W.written out.old) (W.written out.new) result (line_of name.now (fault_line number place)) }
    ensures none_waits { OnOk result ((W.written out.new).waiting ≡ 0) }
{
    put_pieces(out, &[name, b": "])?;
    say_fault(out, number, place)
}

/// Says a line that tells what failed, and answers the status.
pub fn fail<E: Sink>(err: &mut E, line: &[u8]) -> u8
    requires { CanFail (E.written err.old) }
    ensures status { result ≡ 3 }
    ensures tells { Tells (E.written err.old) (E.written err.new) line.now }
{
    let _ = say(err, line);
    FAILED
}

/// Says a line that tells what failed at a file, which begins with the file's name, and answers the status.
pub fn fail_of<E: Sink>(err: &mut E, name: &[u8], line: &[u8]) -> u8
    requires { CanFail (E.written err.old) }
    ensures status { result ≡ 3 }
    ensures tells { Tells (E.written err.old) (E.written err.new) (line_of name.now line.now) }
{
    let _ = say_of(err, name, line);
    FAILED
}
