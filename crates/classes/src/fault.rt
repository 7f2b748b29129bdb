//! Why a class or a field is refused.

ghost use Rattle.std.specs.Prelude.{◌≡◌};
ghost use Rattle.classes.specs.declared.fault.ClassError.TheVariants.{Memory, Refused};
ghost use Rattle.classes.specs.declared.fault.FieldError.TheVariants as field;

use class_rules::ClassRule;
use std::alloc::AllocError;
use thiserror::Error;

/// A class or a field is not added.
#[derive(Clone, Copy, Debug, PartialEq, Eq, Error)]
pub enum ClassError {
    #[error("out of memory")]
    Memory,
    #[error("fault {}", .0.number())]
    Refused(ClassRule),
}

impl From<AllocError> for ClassError {
    ghost from_gives = { λ _ e. e ≡ Memory };

    fn from(_e: AllocError) -> ClassError {
        ClassError::Memory
    }
}

impl From<ClassRule> for ClassError {
    ghost from_gives = { λ rule e. e ≡ Refused rule };

    fn from(rule: ClassRule) -> ClassError {
        ClassError::Refused(rule)
    }
}

/// A field is not added.
#[derive(Clone, Copy, Debug, PartialEq, Eq, Error)]
pub enum FieldError {
    #[error("out of memory")]
    Memory,
    #[error("no such class")]
    NoClass,
    #[error("fault {}", .0.number())]
    Refused(ClassRule),
}

impl From<AllocError> for FieldError {
    ghost from_gives = { λ _ e. e ≡ field.Memory };

    fn from(_e: AllocError) -> FieldError {
        FieldError::Memory
    }
}

impl From<ClassRule> for FieldError {
    ghost from_gives = { λ rule e. e ≡ field.Refused rule };

    fn from(rule: ClassRule) -> FieldError {
        FieldError::Refused(rule)
    }
}
