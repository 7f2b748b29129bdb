//! Why a unit is not accepted.

ghost use Rattle.std.specs.Prelude.{◌≡◌};
ghost use Rattle.regions.specs.declared.fault.CheckError.TheVariants.{Memory};

use places::{Fault, Line};
use region_rules::RegionRule;
use std::alloc::{AllocError, AllocFailed};
use thiserror::Error;

/// A rule that is broken, and its line, with what was found there: that of the first token of the statement, or of the
/// closing brace where a block's or the function's end is reached.
pub type RegionFault = Fault<RegionRule, Line>;

/// Why `check` answers no unit.
#[derive(Debug, Drop, Error)]
pub enum CheckError {
    /// Host memory was refused.
    #[error("out of memory")]
    Memory,
    /// The first fault of the unit.
    #[error("line {}: {:?}", .0.line, .0.rule)]
    Fault(RegionFault),
}

impl From<AllocError> for CheckError {
    ghost from_gives = { λ _ e. e ≡ Memory };

    fn from(_e: AllocError) -> CheckError {
        CheckError::Memory
    }
}

impl<T: Drop> From<AllocFailed<T>> for CheckError {
    ghost from_gives = { λ _ e. e ≡ Memory };

    fn from(_e: AllocFailed<T>) -> CheckError {
        CheckError::Memory
    }
}
