//! All faults of a program text.

ghost use Rattle.std.specs.Prelude.{◌≡◌, ℕ, List, [], ◌∷◌, ◌++◌, IfOk, OnOk, Some, map, slice_get};
ghost use Rattle.std.specs.List.{All};
ghost use Rattle.program_check.specs.AllFaults.{AreFaults, BreaksAt, IsAlone, of_type_rule, of_region, entry_of, ToldFault as Told};
ghost use Rattle.program_check.specs.Checks.{PassesCheck, FailsCheck};
ghost use Rattle.code_meaning.specs.Length.{IsTooLong};
ghost use Rattle.parse.specs.Spelling.{SpellsUnit};
ghost use Rattle.region_rules.specs.Regions.{HasRegions};
ghost use Rattle.syntax.specs.Views.{unit_tree};
ghost use Rattle.type_rules.specs.TypeRules.{IsWellTyped};
ghost use Rattle.types.specs.Faults.{fault_of as type_of};
ghost use Rattle.regions.specs.Findings.{fault_of as region_of};

use crate::fault::{RunError, of_parse, of_scan, too_long};
use parse::parse;
use places::{Detail, Place, Text};
use region_rules::Checked;
use regions::{RegionFault, region_faults};
use scan::scan;
use std::alloc::{AllocError, Global};
use step_counts::has_long_function;
use syntax::Unit;
use types::{TypeFault, Typed, type_faults};

/// A fault of a program text: its number, its place, and what was found there, in words that no contract fixes.
#[derive(Drop)]
pub struct ToldFault {
    pub number: u32,
    pub place: Place,
    pub detail: Detail,
}

/// The fault of this error, alone.
fn alone(alloc: Global, error: RunError) -> Result<Vec<ToldFault>, AllocError>
    ensures { IfOk result (λ faults. IsAlone error (map entry_of faults.items)) }
{
    match error {
        RunError::Fault(number, place) => {
            let mut faults = Vec::new(alloc);
            faults.push(ToldFault {
                number,
                place: place.place(),
                detail: place.into_detail(),
            })?;
            Ok(faults)
        }
        RunError::Memory | RunError::Writer => Err(AllocError),
    }
}

/// A fault of a unit's names and types.
fn told_type(fault: TypeFault) -> ToldFault
    ensures { entry_of result ≡ of_type_rule (type_of fault) }
{
    ToldFault {
        number: fault.rule.number(),
        place: Place::Line(Text::Program, fault.line.number()),
        detail: fault.line.into_detail(),
    }
}

/// The faults of a unit's names and types, as those of its text.
fn told_types(alloc: Global, found: Vec<TypeFault>) -> Result<Vec<ToldFault>, AllocError>
    ensures { IfOk result (λ faults. map entry_of faults.items ≡ map of_type_rule (map type_of found.items)) }
{
    let mut faults: Vec<ToldFault> = Vec::new(alloc);
    let mut left = found.into_iter();
    while let Some(fault) = left.next() {
        faults.push(told_type(fault))?;
    }
    Ok(faults)
}

/// A fault of a unit's paths.
fn told_region(fault: RegionFault) -> ToldFault
    ensures { entry_of result ≡ of_region (region_of fault) }
{
    ToldFault {
        number: fault.rule.number(),
        place: Place::Line(Text::Program, fault.line.number()),
        detail: fault.line.into_detail(),
    }
}

/// The faults of a unit's paths, as those of its text.
fn told_regions(alloc: Global, found: Vec<RegionFault>) -> Result<Vec<ToldFault>, AllocError>
    ensures { IfOk result (λ faults. map entry_of faults.items ≡ map of_region (map region_of found.items)) }
{
    let mut faults: Vec<ToldFault> = Vec::new(alloc);
    let mut left = found.into_iter();
    while let Some(fault) = left.next() {
        faults.push(told_region(fault))?;
    }
    Ok(faults)
}

/// The faults of a unit that a text spells.
fn faults_of_unit(alloc: Global, unit: Unit) -> Result<Vec<ToldFault>, AllocError>
    ensures all { (text : List ℕ) → SpellsUnit text (unit_tree unit) → IfOk result (λ faults. AreFaults text (map entry_of faults.items)) }
    ensures none { IsWellTyped (unit_tree unit) → HasRegions (unit_tree unit) → (IsTooLong (unit_tree unit) → ⊥)
        → IfOk result (λ faults. faults.items ≡ []) }
{
    let types = type_faults(alloc, &unit)?;
    if !types.is_empty() {
        return told_types(alloc, types);
    }
    let typed = Typed::of(unit);
    let paths = region_faults(alloc, &typed)?;
    if !paths.is_empty() {
        return told_regions(alloc, paths);
    }
    let checked = Checked::of(typed);
    if has_long_function(&checked) {
        return alone(alloc, too_long(&checked));
    }
    Ok(Vec::new(alloc))
}

/// The faults of a text.
fn gathered(alloc: Global, text: &[u8]) -> Result<Vec<ToldFault>, AllocError>
    ensures all { IfOk result (λ faults. AreFaults text.now (map entry_of faults.items)) }
    ensures none { PassesCheck text.now → IfOk result (λ faults. faults.items ≡ []) }
{
    let tokens = match scan(alloc, text) {
        Ok(tokens) => tokens,
        Err(error) => return alone(alloc, of_scan(text, error)),
    };
    match parse(alloc, text, &tokens) {
        Ok(unit) => faults_of_unit(alloc, unit),
        Err(error) => alone(alloc, of_parse(text, &tokens, error)),
    }
}

/// The faults of a text in text order, and none where it is that of an accepted program.
///
/// Of tokens and of the grammar the first fault is told. Where there is none, of each static, each function's head and each
/// statement that breaks a rule of names and types the one of the least number; where these are kept, of each function the
/// first on buffers, references, frames and returns; and where these are kept too, that a function is too long, once.
pub fn all_faults(alloc: Global, text: &[u8]) -> Result<Vec<ToldFault>, AllocError>
    ensures all { IfOk result (λ faults. AreFaults text.now (map entry_of faults.items)) }
    // There are none where the check passes the text, and only there.
    ensures none { PassesCheck text.now → IfOk result (λ faults. faults.items ≡ []) }
    ensures passes { IfOk result (λ faults. faults.items ≡ [] → PassesCheck text.now) }
    // The first is the one that `check_text` answers.
    ensures first { IfOk result (λ faults. (f : Told) → slice_get faults.items 0 ≡ Some f → FailsCheck text.now f.number f.place) }
    // The rule of each is broken at its place.
    ensures broken { IfOk result (λ faults. All (λ f. BreaksAt text.now f.number f.place) faults.items) }
{
    gathered(alloc, text)
}
