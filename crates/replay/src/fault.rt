//! Why a journal was not replayed.

ghost use Rattle.std.specs.Prelude.{◌≡◌, ℕ, Some, None};
ghost use Rattle.replay.specs.declared.fault.ReplayError.TheVariants.{DoesNotFit, Impossible, Memory, Writer};

use places::Line;
use std::alloc::{AllocError, AllocFailed};
use thiserror::Error;

/// The number of the fault of a world that doesn't go with the program.
const UNFIT: u32 = 82;

/// The number of the fault of an entry of a journal that isn't possible.
const IMPOSSIBLE: u32 = 91;

/// Why `replay` did not write a run to its end.
#[derive(Debug, Drop, Error)]
pub enum ReplayError {
    /// Fault 82: the function of a call or its class is unknown, or the arguments don't fit, and the line is the call's in
    /// the world; or the unit asks for methods, which the world doesn't allow, and the line is the heap's. What was found there
    /// is beside it.
    #[error("fault {} line {}", UNFIT, .0)]
    DoesNotFit(Line),
    /// Fault 91: an entry isn't possible where the entries before it have led. Entries are counted from 1.
    #[error("fault {} entry {}", IMPOSSIBLE, .0)]
    Impossible(usize),
    /// Host memory was refused.
    #[error("out of memory")]
    Memory,
    /// The writer failed.
    #[error("the writer failed")]
    Writer,
}

impl ReplayError {
    /// The number of the fault. Want of memory and a writer that failed have none.
    pub fn number(&self) -> Option<u32>
        ensures unfit { (line : ℕ) → self.now ≡ DoesNotFit line → result ≡ Some 82 }
        ensures impossible { (entry : ℕ) → self.now ≡ Impossible entry → result ≡ Some 91 }
        ensures memory { self.now ≡ Memory → result ≡ None }
        ensures writer { self.now ≡ Writer → result ≡ None }
    {
        match self {
            ReplayError::DoesNotFit(_) => Some(UNFIT),
            ReplayError::Impossible(_) => Some(IMPOSSIBLE),
            ReplayError::Memory | ReplayError::Writer => None,
        }
    }
}

impl From<AllocError> for ReplayError {
    ghost from_gives = { λ _ e. e ≡ Memory };

    fn from(_e: AllocError) -> ReplayError {
        ReplayError::Memory
    }
}

impl<T: Drop> From<AllocFailed<T>> for ReplayError {
    ghost from_gives = { λ _ e. e ≡ Memory };

    fn from(_e: AllocFailed<T>) -> ReplayError {
        ReplayError::Memory
    }
}
