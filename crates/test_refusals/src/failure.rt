//! Why there is no report.

use std::alloc::AllocError;

/// Why there is no report of a run.
#[derive(Clone, Copy)]
pub(crate) enum Failure {
    /// The words ask for nothing.
    Words,
    /// Memory was refused to a call that isn't asked again, or too often.
    Memory,
    /// A call that was refused memory has changed what it may not change.
    Changed,
    /// The workers ended though they were refused no memory and a thread could step.
    Stalled,
}

impl Failure {
    /// The status of the program. That of memory is what the command line has for it.
    pub(crate) fn status(self) -> u8 {
        match self {
            Failure::Words => 2,
            Failure::Memory => 3,
            Failure::Changed => 4,
            Failure::Stalled => 5,
        }
    }
}

impl From<AllocError> for Failure {
    fn from(_: AllocError) -> Failure {
        Failure::Memory
    }
}
