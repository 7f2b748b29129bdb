//! Why a program was not lowered.

ghost use Rattle.std.specs.Prelude.{◌≡◌};
ghost use Rattle.lower.specs.declared.fault.LowerError.TheVariants.{Memory};

use std::alloc::{AllocError, AllocFailed};
use thiserror::Error;

/// Why `lower` gave no program.
#[derive(Clone, Copy, Debug, Error)]
pub enum LowerError {
    /// Host memory was refused.
    #[error("out of memory")]
    Memory,
    /// A function has more than 65,535 steps, counted on its tree.
    #[error("a function has more than 65535 steps")]
    TooLong,
}

impl From<AllocError> for LowerError {
    ghost from_gives = { λ _ e. e ≡ Memory };

    fn from(_e: AllocError) -> LowerError {
        LowerError::Memory
    }
}

impl<T: Drop> From<AllocFailed<T>> for LowerError {
    ghost from_gives = { λ _ e. e ≡ Memory };

    fn from(_e: AllocFailed<T>) -> LowerError {
        LowerError::Memory
    }
}
