//! Reports and journals as text.

ghost use Rattle.std.specs.Prelude.{◌≡◌, ◌+◌, ◌≤◌, ◌<◌, ◌++◌, OnOk, codes, decimal};
ghost use Rattle.arrayvec.specs.ArrayVec.{array_vec_len};
ghost use Rattle.sinks.specs.Sink.{CanFail, Writes};
ghost use Rattle.report.specs.ReportText.{report_text};
ghost use Rattle.report.specs.Shown.{report_with};
ghost use Rattle.report.specs.RunText.{further_text, Gathers};
ghost use Rattle.semantics.specs.JournalText.{entry_text, journal_line};
ghost use Rattle.semantics.specs.Journal.{Step, Clearing};
ghost use Rattle.semantics.specs.JournalText.{spelled_entries};
ghost use Rattle.semantics.specs.Views.{names_of};

use crate::entries::{Entries, ShownEntry};
use crate::rows::Rows;
use crate::text::put_each;
use crate::thread_status::{ThreadStatus, put_standings};
use arrayvec::ArrayVec;
use itoa::Buffer;
use semantics::{ObjectId, Printed};
use sinks::{Sink, SinkFailed, put_all, put_pieces};

/// Appends a number in decimal.
#[tactic(auto, using(std::proofs::lemmas::Fmt::decimal_digit))]
fn push_number(text: &mut ArrayVec<u8, 8192>, number: u8)
    requires { array_vec_len text.old + 3 ≤ 8192 }
    ensures items { text.new.items ≡ text.old.items ++ decimal number }
    ensures short { array_vec_len text.new ≤ array_vec_len text.old + 3 }
{
    if number < 10 {
        text.push(b'0' + number);
        return;
    }
    let mut digits = Buffer::new();
    let digits = digits.format(number);
    match text.try_extend_from_slice(digits.as_bytes()) {
        Ok(()) => {}
        Err(_) => unreachable!(),
    }
}

/// Appends a number of one digit after a space: both bytes at once, since each step of a run is written so.
#[tactic(auto, using(std::proofs::lemmas::Fmt::decimal_digit))]
#[inline(always)]
fn push_digit(text: &mut ArrayVec<u8, 8192>, number: u8)
    requires room { array_vec_len text.old + 5 ≤ 8192 }
    requires digit { number < 10 }
    ensures items { text.new.items ≡ text.old.items ++ (codes " " ++ decimal number) }
    ensures short { array_vec_len text.new ≡ array_vec_len text.old + 2 }
{
    match text.try_extend_from_slice(&[b' ', b'0' + number]) {
        Ok(()) => {}
        Err(_) => unreachable!(),
    }
}

/// Appends the word of a step whose allocation was refused, or of a thread whose number has more digits, after a space. It
/// stands apart, since few steps are such.
#[inline(never)]
fn push_rare_step(text: &mut ArrayVec<u8, 8192>, thread: u8, refused: bool)
    requires { array_vec_len text.old + 5 ≤ 8192 }
    ensures { text.new.items ≡ text.old.items ++ (codes " " ++ entry_text (Step thread refused)) }
{
    text.push(b' ');
    push_number(text, thread);
    if refused {
        text.push(b'!');
    }
}

/// Appends the word of a step, after a space.
#[inline(always)]
fn push_step(text: &mut ArrayVec<u8, 8192>, thread: u8, refused: bool)
    requires { array_vec_len text.old + 5 ≤ 8192 }
    ensures { text.new.items ≡ text.old.items ++ (codes " " ++ entry_text (Step thread refused)) }
{
    if refused || thread > 9 {
        push_rare_step(text, thread, refused);
        return;
    }
    push_digit(text, thread);
}

/// Puts the number of a name after these bytes.
fn put_name<S: Sink>(sink: &mut S, before: &[u8], name: ObjectId) -> Result<(), SinkFailed>
    requires { CanFail (S.written sink.old) }
    ensures { Writes (S.written sink.old) (S.written sink.new) result (before.now ++ decimal name.number) }
{
    let mut digits = Buffer::new();
    let digits = digits.format(name.number);
    put_pieces(sink, &[before, digits.as_bytes()])
}

/// Puts the numbers of these names, each after a comma.
fn put_further<S: Sink>(sink: &mut S, names: &[ObjectId]) -> Result<(), SinkFailed>
    requires { CanFail (S.written sink.old) }
    ensures { Writes (S.written sink.old) (S.written sink.new) result (further_text names.now) }
{
    for name in names {
        put_name(sink, b",", *name)?;
    }
    Ok(())
}

/// Puts the word of a clearing of weak references to these objects, after a space.
fn put_clearing<S: Sink>(sink: &mut S, names: &[ObjectId]) -> Result<(), SinkFailed>
    requires { CanFail (S.written sink.old) }
    ensures { Writes (S.written sink.old) (S.written sink.new) result (codes " " ++ entry_text (Clearing (names_of names.now))) }
{
    match names.split_first() {
        Some((first, further)) => {
            put_name(sink, b" ~", *first)?;
            put_further(sink, further)
        }
        None => put_all(sink, b" ~"),
    }
}

/// Puts what was gathered, and then the word of a clearing of weak references to these objects, after a space.
/// It stands apart, so that a step's word takes no more instructions than without clearings.
#[inline(never)]
fn put_after<S: Sink>(
    sink: &mut S,
    text: &mut ArrayVec<u8, 8192>,
    objects: &[ObjectId],
) -> Result<(), SinkFailed>
    requires { CanFail (S.written sink.old) }
    ensures { Gathers (S.written sink.old) (S.written sink.new) result text.old.items text.new.items
        (codes " " ++ entry_text (Clearing (names_of objects.now))) }
{
    put_all(sink, text.as_slice())?;
    text.clear();
    put_clearing(sink, objects)
}

/// Puts the words of the entries, each after a space. Those of steps are gathered, and put 8,192 bytes or a few fewer at a time, which
/// go past a sink's buffer.
fn put_entries<S: Sink, E: Entries>(sink: &mut S, entries: &E) -> Result<(), SinkFailed>
    requires { CanFail (S.written sink.old) }
    ensures { Writes (S.written sink.old) (S.written sink.new) result (spelled_entries (E.entries entries.now)) }
{
    let mut text = ArrayVec::<u8, 8192>::new();
    let mut clearings = 0;
    for place in 0..entries.len() {
        if text.remaining_capacity() < 5 {
            put_all(sink, text.as_slice())?;
            text.clear();
        }
        match entries.entry(place, clearings) {
            ShownEntry::Step { thread, refused } => push_step(&mut text, thread, refused),
            ShownEntry::Clearing(objects) => {
                put_after(sink, &mut text, objects)?;
                clearings += 1;
            }
        }
    }
    put_all(sink, text.as_slice())
}

/// Writes what was printed, the status of each thread, and the rows.
pub fn write_report<S: Sink, R: Rows>(
    sink: &mut S,
    printed: &[Printed],
    standings: &[ThreadStatus<'_>],
    rows: &R,
) -> Result<(), SinkFailed>
    requires { CanFail (S.written sink.old) }
    ensures { Writes (S.written sink.old) (S.written sink.new) result
        (report_text (report_with printed.now standings.now (R.rows rows.now))) }
{
    put_each(sink, printed)?;
    put_standings(sink, standings)?;
    rows.put(sink)
}

/// Writes the line of the journal.
pub fn write_journal<S: Sink, E: Entries>(sink: &mut S, entries: &E) -> Result<(), SinkFailed>
    requires { CanFail (S.written sink.old) }
    ensures { Writes (S.written sink.old) (S.written sink.new) result (journal_line (E.entries entries.now)) }
{
    put_all(sink, b"journal")?;
    put_entries(sink, entries)?;
    put_all(sink, b"\n")
}

/// Writes the report of these numbers, threads and rows, and then the line of the journal, and flushes the sink.
///
/// On `Ok` every byte has gone on to the sink's writer. It allocates nothing.
pub fn write_run<S: Sink, R: Rows, E: Entries>(
    sink: &mut S,
    printed: &[Printed],
    standings: &[ThreadStatus<'_>],
    rows: &R,
    entries: &E,
) -> Result<(), SinkFailed>
    requires { CanFail (S.written sink.old) }
    ensures text { Writes (S.written sink.old) (S.written sink.new) result
        (report_text (report_with printed.now standings.now (R.rows rows.now)) ++ journal_line (E.entries entries.now)) }
    ensures none_waits { OnOk result ((S.written sink.new).waiting ≡ 0) }
{
    write_report(sink, printed, standings, rows)?;
    write_journal(sink, entries)?;
    sink.flush()
}
