//! The rules on paths through a function: which uses of buffers, references and frames are accepted.
#![tactic(auto)]

mod checked;
mod fault;
mod joins;
mod rules;
mod telling;
mod walk;

ghost use Rattle.region_rules.specs.FirstFaults.{AcceptedBreaksNothing, AcceptedOrBroken, AcceptedOrFirst, FirstIsBroken, NotBoth, OneFirst, OneFirstOfUnit};

pub use checked::{check, region_faults};
pub use fault::{CheckError, RegionFault};
pub use region_rules::{Checked, RegionRule};

/// A function that is accepted breaks no rule.
pub fn accepted_breaks_nothing()
    ensures { AcceptedBreaksNothing }
{}

/// A function that is not accepted breaks a rule.
pub fn accepted_or_broken()
    ensures { AcceptedOrBroken }
{}

/// A unit is accepted, or a fault is answered.
pub fn accepted_or_first()
    ensures { AcceptedOrFirst }
{}

/// No fault is answered for a unit that is accepted.
pub fn not_both()
    ensures { NotBoth }
{}

/// A statement has one first fault at most.
pub fn one_first()
    ensures { OneFirst }
{}

/// A unit has one first fault at most.
pub fn one_first_of_unit()
    ensures { OneFirstOfUnit }
{}

/// A unit's first fault is of a rule that is broken at its line.
pub fn first_is_broken()
    ensures { FirstIsBroken }
{}
