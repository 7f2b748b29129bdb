//! Where and why a text is refused, for standard error.

ghost use Rattle.std.specs.Prelude.{◌≡◌, ◌-◌, ◌==◌, OnOk};
ghost use Rattle.sinks.specs.Sink.{CanFail, Writes};
ghost use Rattle.cli_commands.specs.Telling.{from_line, text_from, shown_byte, shown_line, most_shown, excerpt, place_text, detail_text, reason_text, told};

use crate::lines::Lines;
use arrayvec::ArrayVec;
use itoa::Buffer;
use places::Place;
use sinks::{Sink, SinkFailed, put_all, put_pieces};

/// The most bytes of a line that are shown.
const MOST_SHOWN: usize = 160;

/// The text from a line on, where lines are counted from 0.
pub(crate) fn from_line(text: &[u8], line: usize) -> &[u8]
    ensures { result.now ≡ from_line line text.now }
{
    let mut rest = text;
    let mut left = line;
    while left > 0 {
        let Some((byte, after)) = rest.split_first() else {
            return rest;
        };
        if *byte == b'\n' {
            left -= 1;
        }
        rest = after;
    }
    rest
}

/// A byte as it is shown: a tab as a space, and any other byte that isn't printable ASCII as a question mark.
fn shown_byte(byte: u8) -> u8
    ensures { result ≡ shown_byte byte }
{
    match byte {
        b' '..=b'~' => byte,
        b'\t' => b' ',
        _ => b'?',
    }
}

/// The beginning of the text's first line, as it is shown.
fn shown_line(text: &[u8]) -> ArrayVec<u8, MOST_SHOWN>
    ensures { result.items ≡ shown_line most_shown text.now }
{
    let mut shown = ArrayVec::new();
    let mut rest = text;
    while shown.len() < MOST_SHOWN {
        let Some((byte, after)) = rest.split_first() else {
            return shown;
        };
        if *byte == b'\n' {
            return shown;
        }
        shown.push(shown_byte(*byte));
        rest = after;
    }
    shown
}

/// Puts the line of a place, on a line of its own, where the text is `rest` from that line on.
#[tactic(auto, unfolding(crate::specs::Telling::excerpt))]
fn put_excerpt<E: Sink>(
    err: &mut E,
    text: &[u8],
    rest: &[u8],
    place: Place,
) -> Result<(), SinkFailed>
    requires can_fail { CanFail (E.written err.old) }
    requires rest { rest.now ≡ text_from text.now place }
    ensures { Writes (E.written err.old) (E.written err.new) result (excerpt text.now place) }
{
    match place {
        Place::Line(_text, line) => {
            if line == 0 {
                return Ok(());
            }
            let shown = shown_line(rest);
            put_pieces(err, &[b"    ", shown.as_slice(), b"\n"])
        }
        Place::Entry(_entry) => Ok(()),
    }
}

/// Puts the number of a place.
#[tactic(auto, unfolding(crate::specs::Telling::place_text))]
fn put_place<E: Sink>(err: &mut E, place: Place) -> Result<(), SinkFailed>
    requires { CanFail (E.written err.old) }
    ensures { Writes (E.written err.old) (E.written err.new) result (place_text place) }
{
    let mut digits = Buffer::new();
    match place {
        Place::Line(_text, line) => {
            if line == 0 {
                return Ok(());
            }
            put_pieces(err, &[b":", digits.format(line).as_bytes()])
        }
        Place::Entry(entry) => put_pieces(err, &[b": entry ", digits.format(entry).as_bytes()]),
    }
}

/// Puts what is wrong.
#[tactic(auto, unfolding(crate::specs::Telling::reason_text))]
fn put_reason<E: Sink>(
    err: &mut E,
    kind: &[u8],
    number: u32,
    words: &[u8],
) -> Result<(), SinkFailed>
    requires { CanFail (E.written err.old) }
    ensures { Writes (E.written err.old) (E.written err.new) result
        (reason_text kind.now number words.now) }
{
    let mut digits = Buffer::new();
    let number = digits.format(number);
    put_pieces(err, &[b": ", kind, b" ", number.as_bytes(), b": ", words])
}

/// Puts what was found, if that is told, and the end of the line.
#[tactic(auto, unfolding(crate::specs::Telling::detail_text))]
fn put_detail<E: Sink>(err: &mut E, detail: &[u8]) -> Result<(), SinkFailed>
    requires { CanFail (E.written err.old) }
    ensures { Writes (E.written err.old) (E.written err.new) result (detail_text detail.now) }
{
    match detail {
        [] => put_all(err, b"\n"),
        [_, ..] => put_pieces(err, &[b": ", detail, b"\n"]),
    }
}

/// A file that a command names, and its text.
#[derive(Clone, Copy)]
pub struct Source<'a> {
    pub name: &'a [u8],
    pub text: &'a [u8],
}

/// Why a text is refused, or why its run stopped.
#[derive(Clone, Copy)]
pub struct Reason<'a> {
    /// `error` or `trap`.
    pub kind: &'a [u8],
    pub number: u32,
    /// What this number means, in a few words.
    pub words: &'a [u8],
    /// What was found there; empty where that isn't told.
    pub detail: &'a [u8],
}

/// Tells a fault or a trap as `tell` does, where the text is `rest` from the line of the place on.
pub fn tell_from<E: Sink>(
    err: &mut E,
    source: Source<'_>,
    rest: &[u8],
    place: Place,
    reason: Reason<'_>,
) -> Result<(), SinkFailed>
    requires can_fail { CanFail (E.written err.old) }
    requires rest { rest.now ≡ text_from source.text.now place }
    ensures text { Writes (E.written err.old) (E.written err.new) result
        (told reason.entry.kind.now source.entry.name.now source.entry.text.now reason.entry.number place reason.entry.words.now reason.entry.detail.now) }
    ensures none_waits { OnOk result ((E.written err.new).waiting ≡ 0) }
{
    put_all(err, source.name)?;
    put_place(err, place)?;
    put_reason(err, reason.kind, reason.number, reason.words)?;
    put_detail(err, reason.detail)?;
    put_excerpt(err, source.text, rest, place)?;
    err.flush()
}

/// Tells a fault or a trap: the name of the file, the place, the kind and the number, the words, and what was found there, if
/// that is told; and below them the line of the text.
pub fn tell<E: Sink>(
    err: &mut E,
    source: Source<'_>,
    place: Place,
    reason: Reason<'_>,
) -> Result<(), SinkFailed>
    requires { CanFail (E.written err.old) }
    ensures text { Writes (E.written err.old) (E.written err.new) result
        (told reason.entry.kind.now source.entry.name.now source.entry.text.now reason.entry.number place reason.entry.words.now reason.entry.detail.now) }
    ensures none_waits { OnOk result ((E.written err.new).waiting ≡ 0) }
{
    let rest = Lines::of(source.text).at(place);
    tell_from(err, source, rest, place, reason)
}
