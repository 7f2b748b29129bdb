//! Whether a unit keeps the rules on names and types.

ghost use Rattle.std.specs.Prelude.{◌≡◌, [], IfOk, IfErr, IsOkUnless, Some, map, slice_get};
ghost use Rattle.std.specs.List.{All};
ghost use Rattle.syntax.specs.Views.{unit_tree};
ghost use Rattle.type_rules.specs.TypeRules.{IsWellTyped, BreaksTypeRule, first_broken};
ghost use Rattle.types.specs.AllFaults.{typing_faults};
ghost use Rattle.types.specs.Faults.{IfBroken, fault_of, kept};

use crate::fault::{TypeError, TypeFault};
use crate::items::UnitCheck;
use std::alloc::{AllocError, Global};
use syntax::Unit;
use type_rules::Typed;

/// The faults of a unit: all of them, or the first alone.
fn check_unit(alloc: Global, unit: &Unit, all: bool) -> Result<Vec<TypeFault>, AllocError>
    ensures { IfOk result (λ faults. kept all (map fault_of faults.items) ≡ kept all (typing_faults (unit_tree unit.now))) }
{
    let mut check = UnitCheck::new(alloc, all);
    check.check_items(unit.items())?;
    Ok(check.into_faults())
}

/// The unit, where it keeps the rules on names and types. A statement's expressions are read once for each rule; a name
/// is found among those that are known, and among those that are taken, in constant time; each item's name is compared
/// with those of the items before it.
#[tactic(auto, using(crate::proofs::UnitLemmas::unit_rules))]
pub fn type_unit(alloc: Global, unit: Unit) -> Result<Typed, TypeError>
    // A unit that is answered is the one given, and it is well-typed.
    ensures same { IfOk result (λ t. t ≡ unit) }
    ensures well_typed { IfOk result (λ _. IsWellTyped (unit_tree unit)) }
    // Such a unit is answered, unless memory runs out.
    ensures only { IsWellTyped (unit_tree unit) → IsOkUnless result TypeError.Memory }
    // The fault is the first in text order, and at one statement the one of the least number.
    ensures first { IfErr result (λ e. IfBroken e (λ f. first_broken (unit_tree unit) ≡ Some (fault_of f))) }
    // Its rule is broken on its line.
    ensures earned { IfErr result (λ e. IfBroken e (λ f. BreaksTypeRule f.rule f.line (unit_tree unit))) }
{
    let mut faults = check_unit(alloc, &unit, false)?;
    if faults.is_empty() {
        return Ok(Typed::of(unit));
    }
    Err(TypeError::Fault(faults.swap_remove(0)))
}

/// The faults of a unit in text order, one of each place at which a rule is broken: of a static, of a function's head, or of a
/// statement, there the one of the least number. The names that a statement declares are known after it, whether or not it
/// keeps the rules.
pub fn type_faults(alloc: Global, unit: &Unit) -> Result<Vec<TypeFault>, AllocError>
    ensures all { IfOk result (λ faults. map fault_of faults.items ≡ typing_faults (unit_tree unit.now)) }
    // There are none where the unit is well-typed, and only there.
    ensures none { IsWellTyped (unit_tree unit.now) → IfOk result (λ faults. faults.items ≡ []) }
    ensures well_typed { IfOk result (λ faults. faults.items ≡ [] → IsWellTyped (unit_tree unit.now)) }
    // The first is the one that `type_unit` answers.
    ensures first { IfOk result (λ faults. slice_get (map fault_of faults.items) 0 ≡ first_broken (unit_tree unit.now)) }
    // The rule of each is broken on its line.
    ensures earned { IfOk result (λ faults. All (λ f. BreaksTypeRule f.rule f.line (unit_tree unit.now)) faults.items) }
{
    check_unit(alloc, unit, true)
}
