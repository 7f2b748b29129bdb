//! Why a unit is not well-typed.

ghost use Rattle.std.specs.Prelude.{◌≡◌, [], OnOk, take};
ghost use Rattle.types.specs.declared.fault.TypeError.TheVariants.{Memory};
ghost use Rattle.types.specs.Faults.{Faults, Refuses, Finds, Tells, broken_if};

use crate::meant::is_asked;
use places::{Detail, Fault, Line};
use std::alloc::{AllocError, AllocFailed, Global};
use std::marker::Model;
use syntax::Name;
use thiserror::Error;
use type_rules::TypeRule;

/// A rule that is broken, and the line of the first token of the statement or the function, with what was found there.
pub type TypeFault = Fault<TypeRule, Line>;

/// Why `type_unit` answers no unit.
#[derive(Debug, Drop, Error)]
pub enum TypeError {
    /// Host memory was refused.
    #[error("out of memory")]
    Memory,
    /// The first fault of the unit.
    #[error("line {}: {:?}", .0.line, .0.rule)]
    Fault(TypeFault),
}

impl From<AllocError> for TypeError {
    ghost from_gives = { λ _ e. e ≡ Memory };

    fn from(_e: AllocError) -> TypeError {
        TypeError::Memory
    }
}

impl<T: Drop> From<AllocFailed<T>> for TypeError {
    ghost from_gives = { λ _ e. e ≡ Memory };

    fn from(_e: AllocFailed<T>) -> TypeError {
        TypeError::Memory
    }
}

/// The fault of a rule where it is broken.
pub(crate) fn refuse_if(broken: bool, rule: TypeRule, line: usize) -> Result<(), TypeError>
    ensures { Finds result (broken_if broken rule line) }
{
    if broken {
        return Err(TypeError::Fault(Fault {
            rule,
            line: Line::new(line),
        }));
    }
    Ok(())
}

/// The fault of a rule that a name breaks.
pub(crate) fn refuse_name_if(
    broken: bool,
    rule: TypeRule,
    line: usize,
    name: &Name,
) -> Result<(), TypeError>
    ensures { Finds result (broken_if broken rule line) }
{
    if broken {
        return Err(TypeError::Fault(Fault {
            rule,
            line: Line::told(line, Detail::of(name.as_bytes())),
        }));
    }
    Ok(())
}

/// A fault, with what is told of it.
pub(crate) fn told(fault: TypeFault, detail: Detail) -> TypeError
    ensures { (broken : Faults) → Refuses (TypeError.Fault fault) broken → Refuses result broken }
{
    TypeError::Fault(Fault {
        rule: fault.rule,
        line: Line::told(fault.line.number(), detail),
    })
}

/// The faults of a unit that are kept as they are found: all of them, or the first alone.
#[derive(Drop)]
pub(crate) struct KeptFaults {
    /// Whether all of them are.
    all: bool,
    /// Those that are kept so far.
    faults: Vec<TypeFault>,
}

impl Model for KeptFaults {
    ghost use Rattle.types.specs.Faults.{Kept};

    ghost Value = { Kept };

    ghost view = { λ k. record { all = k.all; faults = k.faults.items } };
}

impl KeptFaults {
    /// None is found yet.
    pub(crate) fn new(alloc: Global, all: bool) -> KeptFaults
        ensures { result ≡ record { all = all; faults = [] } }
    {
        KeptFaults {
            all,
            faults: Vec::new(alloc),
        }
    }

    /// Makes room for one more.
    pub(crate) fn reserve(&mut self) -> Result<(), AllocError>
        ensures { OnOk result (self.new ≡ self.old) }
    {
        self.faults.reserve(1)?;
        Ok(())
    }

    /// Whether it is asked of the next one which name may be meant.
    pub(crate) fn asks(&self) -> bool {
        is_asked(self.all, self.faults.len())
    }

    /// The allocator of those that are kept.
    pub(crate) fn allocator(&self) -> Global {
        *self.faults.allocator()
    }

    /// Keeps what was found at a place behind what was found before it: of all places, or of the first one alone.
    #[inline(always)]
    pub(crate) fn keep(&mut self, found: Result<(), TypeError>) -> Result<(), AllocError>
        ensures { (broken : Faults) → Finds found broken → OnOk result (Tells self.old self.new (take 1 broken)) }
    {
        match found {
            Ok(()) => Ok(()),
            Err(TypeError::Memory) => Err(AllocError),
            Err(TypeError::Fault(fault)) => {
                if self.all || self.faults.is_empty() {
                    self.faults.push(fault)?;
                }
                Ok(())
            }
        }
    }

    /// Those that are kept.
    pub(crate) fn into_faults(self) -> Vec<TypeFault>
        ensures { result.items ≡ self.faults }
    {
        self.faults
    }
}
