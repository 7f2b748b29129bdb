//! Laws of faults, for the proofs of callers.

ghost use Rattle.scan.specs.Faults.{OneFirstFault, NoFaultWhereSpelled};

/// The law that a text has at most one first fault, in one line, and none where it spells tokens.
pub fn one_first_fault()
    ensures one { OneFirstFault }
    ensures none { NoFaultWhereSpelled }
{}
