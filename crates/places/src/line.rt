//! Lines of faults. Contracts see the number alone, so that what is told beside it binds no pass.

ghost use Rattle.std.specs.Prelude.{◌≡◌};

use crate::detail::Detail;
use std::fmt;
use std::marker::Model;

/// The line of a fault, counted from 1, and what was found there, which contracts don't see.
#[derive(Drop)]
pub struct Line {
    number: usize,
    detail: Detail,
}

impl Model for Line {
    ghost use Rattle.std.specs.Prelude.{ℕ};

    ghost Value = { ℕ };

    ghost view = { λ l. l.number };
}

impl Line {
    /// A line of which nothing more is told.
    pub fn new(number: usize) -> Line
        ensures { result ≡ number }
    {
        Line::told(number, Detail::none())
    }

    /// A line with what was found there.
    pub fn told(number: usize, detail: Detail) -> Line
        ensures { result ≡ number }
    {
        Line { number, detail }
    }

    pub fn number(&self) -> usize
        ensures { result ≡ self.now }
    {
        self.number
    }

    /// What was found there.
    pub fn into_detail(self) -> Detail {
        self.detail
    }
}

impl fmt::Debug for Line {
    fn fmt<W: fmt::Write>(&self, f: &mut fmt::Formatter<W>) -> fmt::Result {
        write!(f, "{}", self.number)
    }
}

impl fmt::Display for Line {
    fn fmt<W: fmt::Write>(&self, f: &mut fmt::Formatter<W>) -> fmt::Result {
        write!(f, "{}", self.number)
    }
}

/// The line of a fault, counted from 1, and what contracts don't see: its place in what is read, and what alone could come there.
#[derive(Drop)]
pub struct Spot {
    line: usize,
    place: usize,
    wanted: &'static [u8],
}

impl Model for Spot {
    ghost use Rattle.std.specs.Prelude.{ℕ};

    ghost Value = { ℕ };

    ghost view = { λ s. s.line };
}

impl Spot {
    /// A spot on this line, before which there are so many bytes or tokens.
    pub fn new(line: usize, place: usize) -> Spot
        ensures { result ≡ line }
    {
        Spot::wanting(line, place, b"")
    }

    /// A spot on this line where one thing alone could come, which these words name.
    pub fn wanting(line: usize, place: usize, wanted: &'static [u8]) -> Spot
        ensures { result ≡ line }
    {
        Spot {
            line,
            place,
            wanted,
        }
    }

    pub fn line(&self) -> usize
        ensures { result ≡ self.now }
    {
        self.line
    }

    /// How many bytes or tokens come before it.
    pub fn place(&self) -> usize {
        self.place
    }

    /// What alone could come there, in words, and none where more could.
    pub fn wanted(&self) -> &'static [u8] {
        self.wanted
    }
}

impl fmt::Debug for Spot {
    fn fmt<W: fmt::Write>(&self, f: &mut fmt::Formatter<W>) -> fmt::Result {
        write!(f, "{}", self.line)
    }
}

impl fmt::Display for Spot {
    fn fmt<W: fmt::Write>(&self, f: &mut fmt::Formatter<W>) -> fmt::Result {
        write!(f, "{}", self.line)
    }
}
