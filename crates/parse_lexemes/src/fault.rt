//! Why tokens form no program.

ghost use Rattle.std.specs.Prelude.{◌≡◌};
ghost use Rattle.parse_lexemes.specs.declared.fault.ParseError.TheVariants.{Memory};

use places::{Fault, Spot};
use std::alloc::{AllocError, AllocFailed};
use thiserror::Error;

/// A rule on the tokens of a program.
#[derive(Clone, Copy, Debug)]
pub enum ParseRule {
    /// No accepted program has this token here.
    NoForm,
    /// With this token the tree is higher than 32.
    TooHigh,
    /// This token begins the 257th function, the declaration of a function's 257th name (its class and its other parameters
    /// count), or comes before a parameter too many.
    TooMany,
}

impl ParseRule {
    ghost use Rattle.parse_lexemes.specs.Faults.{parse_rule_number};

    /// The number of the fault.
    pub fn number(self) -> u32
        ensures { result ≡ parse_rule_number self }
    {
        match self {
            ParseRule::NoForm => 11,
            ParseRule::TooHigh => 12,
            ParseRule::TooMany => 13,
        }
    }
}

/// The rule that tokens break, and the place of the first token that does. Where the text ends too early its line is that of the
/// last token, and 1 where there is none.
pub type ParseFault = Fault<ParseRule, Spot>;

/// Why `parse` gave no tree.
#[derive(Debug, Drop, Error)]
pub enum ParseError {
    /// Host memory was refused.
    #[error("out of memory")]
    Memory,
    /// The first fault of the tokens.
    #[error("line {}: {:?}", .0.line, .0.rule)]
    Fault(ParseFault),
}

impl From<AllocError> for ParseError {
    ghost from_gives = { λ _ e. e ≡ Memory };

    fn from(_e: AllocError) -> ParseError {
        ParseError::Memory
    }
}

impl<T: Drop> From<AllocFailed<T>> for ParseError {
    ghost from_gives = { λ _ e. e ≡ Memory };

    fn from(_e: AllocFailed<T>) -> ParseError {
        ParseError::Memory
    }
}
