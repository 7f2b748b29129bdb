//! Why a world was not loaded.

ghost use Rattle.std.specs.Prelude.{◌≡◌, ℕ, Some, None};
ghost use Rattle.machine_threads.specs.declared.fault.LoadFault.TheVariants.{DoesNotFit, Memory};

use places::Line;
use std::alloc::{AllocError, AllocFailed};
use thiserror::Error;
use world_schedules::Rule;

/// Why a world was not loaded.
#[derive(Debug, Drop, Error)]
pub enum LoadFault {
    /// Fault 82: the function of a call or its class is unknown, or the arguments don't fit; or methods are asked for, which
    /// the world doesn't allow. The line is the call's in the world, or that of its heap, with what was found there.
    #[error("fault {} line {}", Rule::Name.number(), .0)]
    DoesNotFit(Line),
    /// Host memory was refused.
    #[error("out of memory")]
    Memory,
}

impl LoadFault {
    /// The number of the fault. Want of memory has none.
    pub fn number(&self) -> Option<u32>
        ensures unfit { (line : ℕ) → self.now ≡ DoesNotFit line → result ≡ Some 82 }
        ensures memory { self.now ≡ Memory → result ≡ None }
    {
        match self {
            LoadFault::DoesNotFit(_) => Some(Rule::Name.number()),
            LoadFault::Memory => None,
        }
    }
}

impl From<AllocError> for LoadFault {
    ghost from_gives = { λ _ e. e ≡ Memory };

    fn from(_e: AllocError) -> LoadFault {
        LoadFault::Memory
    }
}

impl<T: Drop> From<AllocFailed<T>> for LoadFault {
    ghost from_gives = { λ _ e. e ≡ Memory };

    fn from(_e: AllocFailed<T>) -> LoadFault {
        LoadFault::Memory
    }
}
