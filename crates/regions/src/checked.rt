//! Whether a unit is accepted.

ghost use Rattle.std.specs.Prelude.{◌≡◌, [], IfOk, IfErr, IsOkUnless, Some, map, slice_get};
ghost use Rattle.std.specs.List.{All};
ghost use Rattle.syntax.specs.Views.{unit_tree};
ghost use Rattle.region_rules.specs.Regions.{HasRegions, BreaksRegionRule};
ghost use Rattle.region_rules.specs.FirstFaults.{IsFirstRegionFault};
ghost use Rattle.regions.specs.AllFaults.{AreRegionFaults};
ghost use Rattle.regions.specs.Findings.{RegionFault as Found, fault_of, IfBroken};

use crate::fault::{CheckError, RegionFault};
use crate::walk::{check_items, faults_of_items};
use region_rules::Checked;
use std::alloc::{AllocError, Global};
use type_rules::Typed;

/// The unit, where each path through its functions keeps the rules. Each statement is read once, with the references and
/// buffers in scope, among which a name is found in constant time; what is known of these is copied once for each `if`
/// and each loop.
pub fn check(alloc: Global, typed: Typed) -> Result<Checked, CheckError>
    // A unit that is answered is the one given, and it is accepted.
    ensures same { IfOk result (λ c. c ≡ typed) }
    ensures accepted { IfOk result (λ _. HasRegions (unit_tree typed)) }
    // An accepted unit is answered, unless memory runs out.
    ensures only { HasRegions (unit_tree typed) → IsOkUnless result CheckError.Memory }
    // The fault is the first in text order, and at one place the one of the least number.
    ensures first { IfErr result (λ e. IfBroken e (λ f. IsFirstRegionFault f.rule f.line (unit_tree typed))) }
    // Its rule is broken at its line.
    ensures broken { IfErr result (λ e. IfBroken e (λ f. BreaksRegionRule f.rule f.line (unit_tree typed))) }
{
    check_items(alloc, typed.items())?;
    Ok(Checked::of(typed))
}

/// The faults of a unit in text order: of each function that isn't accepted its first.
pub fn region_faults(alloc: Global, typed: &Typed) -> Result<Vec<RegionFault>, AllocError>
    ensures all { IfOk result (λ faults. AreRegionFaults (unit_tree typed.now) (map fault_of faults.items)) }
    // There are none where the unit is accepted, and only there.
    ensures none { HasRegions (unit_tree typed.now) → IfOk result (λ faults. faults.items ≡ []) }
    ensures accepted { IfOk result (λ faults. faults.items ≡ [] → HasRegions (unit_tree typed.now)) }
    // The first is the one that `check` answers.
    ensures first { IfOk result (λ faults. (f : Found) → slice_get faults.items 0 ≡ Some f
        → IsFirstRegionFault f.rule f.line (unit_tree typed.now)) }
    // The rule of each is broken at its line.
    ensures broken { IfOk result (λ faults. All (λ f. BreaksRegionRule f.rule f.line (unit_tree typed.now)) faults.items) }
{
    faults_of_items(alloc, typed.items())
}
