//! Why a text is refused.

ghost use Rattle.std.specs.Prelude.{◌≡◌};
ghost use Rattle.world_schedules.specs.declared.fault.ReadError.TheVariants.{Memory, Fault};

use places::{Detail, Line};
use std::alloc::{AllocError, AllocFailed};
use thiserror::Error;

/// A rule that a line breaks.
#[derive(Clone, Copy, Debug)]
pub enum Rule {
    /// A class of this name is there already, or the class declares a field of this name.
    NameTaken = 61,
    /// A superclass isn't there, or has no subclasses.
    Superclass = 62,
    /// No type of a field has this signature.
    Signature = 63,
    /// There are as many classes, or fields of a class, as there may be.
    Classes = 64,
    /// A line or a word has no form that the text may have.
    Form = 81,
    /// A name is not known.
    Name = 82,
    /// A number, or how many there are of something, is out of its range.
    Limit = 83,
    /// The heap is too small for the objects that are made at the start.
    Heap = 84,
}

impl Rule {
    ghost use Rattle.world_schedules.specs.Rule.{rule_number};

    /// The number under which the rule is reported.
    pub fn number(self) -> u32
        ensures { result ≡ rule_number self }
    {
        self as u32
    }
}

/// A text is refused: the first line that breaks a rule, and the rule of the least number there.
#[derive(Debug, Drop, Error)]
#[error("fault {} line {line}", .rule.number())]
pub struct TextFault {
    pub rule: Rule,
    /// The line, with what was found there.
    pub line: Line,
}

/// A text is not read.
#[derive(Debug, Drop, Error)]
pub enum ReadError {
    #[error("out of memory")]
    Memory,
    #[error(transparent)]
    Fault(TextFault),
}

impl ReadError {
    /// This rule is broken on the line of this number, where this was found.
    pub fn told(rule: Rule, number: usize, detail: Detail) -> ReadError
        ensures { result ≡ Fault (record { rule = rule; line = number }) }
    {
        let line = Line::told(number, detail);
        ReadError::Fault(TextFault { rule, line })
    }
}

impl From<AllocError> for ReadError {
    ghost from_gives = { λ _ e. e ≡ Memory };

    fn from(_e: AllocError) -> ReadError {
        ReadError::Memory
    }
}

impl<T: Drop> From<AllocFailed<T>> for ReadError {
    ghost from_gives = { λ _ e. e ≡ Memory };

    fn from(_e: AllocFailed<T>) -> ReadError {
        ReadError::Memory
    }
}
