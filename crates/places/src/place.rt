//! The texts that are read, and the places of faults in them.

ghost use Rattle.std.specs.Prelude.{◌≡◌};

use std::fmt;

/// A text that is read.
#[derive(Clone, Copy, Debug, PartialEq, Eq)]
pub enum Text {
    Program,
    World,
    Schedule,
    Journal,
}

/// What a fault is found at. Lines and entries are counted from 1.
#[derive(Clone, Copy, Debug, PartialEq, Eq)]
pub enum Place {
    /// The line of this text, or 0 where the fault has no line.
    Line(Text, usize),
    /// The entry of the journal.
    Entry(usize),
}

impl Place {
    ghost use Rattle.places.specs.Places.{text_at};

    /// The text that the place is in.
    pub fn text(self) -> Text
        ensures { result ≡ text_at self }
    {
        match self {
            Place::Line(text, _line) => text,
            Place::Entry(_entry) => Text::Journal,
        }
    }
}

impl fmt::Display for Place {
    fn fmt<W: fmt::Write>(&self, f: &mut fmt::Formatter<W>) -> fmt::Result {
        match self {
            Place::Line(_text, line) => write!(f, "line {line}"),
            Place::Entry(entry) => write!(f, "entry {entry}"),
        }
    }
}
