//! The rows of a report: the objects that can still be reached.

ghost use Rattle.std.specs.Prelude.{List, ◌++◌, [], codes};
ghost use Rattle.semantics.specs.Report.{ShownRow};
ghost use Rattle.report.specs.ReportText.{shown_text, text_line};
ghost use Rattle.report.specs.Shown.{shown_view, row_head, row_lines};
ghost use Rattle.sinks.specs.Sink.{CanFail, Writes};

use itoa::Buffer;
use sinks::{Sink, SinkFailed, put_all, put_pieces};

/// What has rows to show.
pub trait Rows {
    /// The rows, in order.
    ghost rows: { Self → List ShownRow };

    /// Puts the lines of all rows.
    fn put<S: Sink>(&self, sink: &mut S) -> Result<(), SinkFailed>
        requires { CanFail (S.written sink.old) }
        ensures { Writes (S.written sink.old) (S.written sink.new) result (row_lines (rows self.now)) };
}

/// No rows.
#[derive(Clone, Copy)]
pub struct NoRows;

impl Rows for NoRows {
    ghost use Rattle.std.specs.Prelude.{[]};

    ghost rows = { λ _. [] };

    fn put<S: Sink>(&self, sink: &mut S) -> Result<(), SinkFailed> {
        put_all(sink, b"")
    }
}

/// A value of a row.
#[derive(Clone, Copy)]
pub enum Shown<'a> {
    Number(i32),
    Null,
    /// The class object of the class of this name.
    Class(&'a [u8]),
    /// The object of this number.
    Object(usize),
}

/// Puts what comes before the values of a row: the object's number and its class.
pub fn put_row_head<S: Sink>(sink: &mut S, number: usize, class: &[u8]) -> Result<(), SinkFailed>
    requires { CanFail (S.written sink.old) }
    ensures { Writes (S.written sink.old) (S.written sink.new) result (row_head number class.now) }
{
    let mut name = Buffer::new();
    let name = name.format(number);
    put_pieces(sink, &[b"#", name.as_bytes(), b" ", class])
}

/// Puts a value of a row, after a space.
pub fn put_value<S: Sink>(sink: &mut S, value: Shown) -> Result<(), SinkFailed>
    requires { CanFail (S.written sink.old) }
    ensures { Writes (S.written sink.old) (S.written sink.new) result (codes " " ++ shown_text (shown_view value.entry)) }
{
    let mut text = Buffer::new();
    match value {
        Shown::Number(number) => {
            let text = text.format(number);
            put_pieces(sink, &[b" ", text.as_bytes()])
        }
        Shown::Null => put_all(sink, b" null"),
        Shown::Class(class) => put_pieces(sink, &[b" class:", class]),
        Shown::Object(number) => {
            let text = text.format(number);
            put_pieces(sink, &[b" #", text.as_bytes()])
        }
    }
}

/// Puts the end of a row.
pub fn put_row_end<S: Sink>(sink: &mut S) -> Result<(), SinkFailed>
    requires { CanFail (S.written sink.old) }
    ensures { Writes (S.written sink.old) (S.written sink.new) result (text_line []) }
{
    put_all(sink, b"\n")
}
