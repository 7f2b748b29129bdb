//! Why a step was not taken.

ghost use Rattle.std.specs.Prelude.{◌≡◌};
ghost use Rattle.machine_steps.specs.declared.fault.StepFault.TheVariants.{Memory};

use std::alloc::AllocError;

/// Why a step was not taken. Nothing has changed then.
#[derive(Clone, Copy)]
pub enum StepFault {
    /// The heap has fewer cells left after its highest block than the step's objects take.
    NoRoom,
    /// Host memory was refused.
    Memory,
}

impl From<AllocError> for StepFault {
    ghost from_gives = { λ _ e. e ≡ Memory };

    fn from(_e: AllocError) -> StepFault {
        StepFault::Memory
    }
}
