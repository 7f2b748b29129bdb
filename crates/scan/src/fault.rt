//! Why a text has no tokens.

ghost use Rattle.std.specs.Prelude.{◌≡◌};
ghost use Rattle.scan.specs.declared.fault.ScanError.TheVariants.{Memory};

use places::{Fault, Spot};
use std::alloc::AllocFailed;
use thiserror::Error;

/// A rule on the tokens of a text.
#[derive(Clone, Copy, Debug)]
pub enum ScanRule {
    /// A byte with which neither a blank nor a comment nor a token begins.
    BadByte,
    /// A comment that opens with `/*` and has no end (ISO/IEC 9899:1999, 6.4.9).
    OpenComment,
    /// A digit with which no number begins, one out of its range, or one glued to what comes after it (6.4.4.1, 6.4.8).
    BadNumber,
    /// A quote with which no string begins (6.4.5).
    BadText,
}

impl ScanRule {
    ghost use Rattle.scan.specs.Faults.{scan_rule_number};

    /// The number of the fault.
    pub fn number(self) -> u32
        ensures { result ≡ scan_rule_number self }
    {
        match self {
            ScanRule::BadByte => 1,
            ScanRule::OpenComment => 2,
            ScanRule::BadNumber => 3,
            ScanRule::BadText => 4,
        }
    }
}

/// The rule that a text breaks, and the place of the first byte that does.
pub type ScanFault = Fault<ScanRule, Spot>;

/// Why `scan` gave no tokens.
#[derive(Debug, Drop, Error)]
pub enum ScanError {
    /// Host memory was refused.
    #[error("out of memory")]
    Memory,
    /// The first fault of the text.
    #[error("line {}: {:?}", .0.line, .0.rule)]
    Fault(ScanFault),
}

impl<T: Drop> From<AllocFailed<T>> for ScanError {
    ghost from_gives = { λ _ e. e ≡ Memory };

    fn from(_e: AllocFailed<T>) -> ScanError {
        ScanError::Memory
    }
}
