//! What no step of an accepted unit ever does.
#![tactic(auto)]

ghost use Rattle.semantics_safety.specs.StepSafe.{AcceptedIsSafe};

use class_rules::unmangling_inverts_mangling;

/// An accepted unit is safe in each world that goes with it: in each replay, a thread that has a view of an array or a
/// string begins no call but the critical ones and prints nothing; a return finds no copied buffer, no view and one
/// frame; no step uses a dead reference, nor a local reference that isn't its variable's own (deleted by DeleteLocalRef
/// or ended by PopLocalFrame); a release names the array or string that its buffer came from; a new local reference
/// that goes to a variable that is there already comes into the frame at which the variable was declared; no step sets
/// a variable that is a held buffer, so no copy and no view is lost; a call of a method is one of the unit's functions,
/// and its caller can go on once it returns; each step of a call has an effect; and a thread that isn't ended, blocked or
/// stopped can step (JNI Specification, chapters 2 and 4).
pub fn accepted_is_safe()
    ensures { AcceptedIsSafe }
{
    unmangling_inverts_mangling();
}
