//! Why a schedule was not run to its end, or a report not written.

ghost use Rattle.std.specs.Prelude.{◌≡◌, Some, None};
ghost use Rattle.machine.specs.declared.fault.ReportFault.TheVariants as reporting;
ghost use Rattle.machine.specs.declared.fault.RunFault.TheVariants as running;

use std::alloc::AllocError;
use thiserror::Error;

/// Why a schedule was not run to its end. The steps taken stay.
#[derive(Clone, Copy, Debug, Error)]
pub enum RunFault {
    /// Fault 92: the journal has 1,000,000 steps.
    #[error("the journal is full")]
    Full,
    /// Host memory was refused.
    #[error("out of memory")]
    Memory,
}

impl RunFault {
    /// The number of the fault. Want of memory has none.
    pub fn number(self) -> Option<u32>
        ensures full { self ≡ running.Full → result ≡ Some 92 }
        ensures memory { self ≡ running.Memory → result ≡ None }
    {
        match self {
            RunFault::Full => Some(92),
            RunFault::Memory => None,
        }
    }
}

impl From<AllocError> for RunFault {
    ghost from_gives = { λ _ e. e ≡ running.Memory };

    fn from(_e: AllocError) -> RunFault {
        RunFault::Memory
    }
}

/// Why a report was not written to its end.
#[derive(Clone, Copy, Debug, Error)]
pub enum ReportFault {
    /// Host memory was refused. Nothing was written.
    #[error("out of memory")]
    Memory,
    /// The sink failed.
    #[error("the sink failed")]
    Sink,
}

impl From<AllocError> for ReportFault {
    ghost from_gives = { λ _ e. e ≡ reporting.Memory };

    fn from(_e: AllocError) -> ReportFault {
        ReportFault::Memory
    }
}
