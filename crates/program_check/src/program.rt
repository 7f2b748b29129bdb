//! From a program text to a checked unit.

ghost use Rattle.std.specs.Prelude.{◌≡◌, IfOk, IfErr};
ghost use Rattle.syntax.specs.Tree.{SourceUnit};
ghost use Rattle.syntax.specs.Views.{unit_tree};
ghost use Rattle.program_check.specs.Programs.{IsProgram};
ghost use Rattle.program_check.specs.Passes.{IsRefusal, IsUnitOr};

use crate::fault::{RunError, of_parse, of_regions, of_scan, of_types};
use parse::parse;
use regions::{Checked, check};
use scan::scan;
use std::alloc::Global;
use types::type_unit;

/// The checked unit of a program text: scanned, parsed, and checked for types and regions, in this order.
pub fn read_program(alloc: Global, text: &[u8]) -> Result<Checked, RunError>
    ensures program { IfOk result (λ c. IsProgram text.now (unit_tree c)) }
    // The unit of the text is the one found, unless memory runs out.
    ensures only { (unit : SourceUnit) → IsProgram text.now unit → IsUnitOr result unit }
    ensures fault { IfErr result (IsRefusal text.now) }
{
    let tokens = match scan(alloc, text) {
        Ok(tokens) => tokens,
        Err(error) => return Err(of_scan(text, error)),
    };
    let unit = match parse(alloc, text, &tokens) {
        Ok(unit) => unit,
        Err(error) => return Err(of_parse(text, &tokens, error)),
    };
    let typed = match type_unit(alloc, unit) {
        Ok(typed) => typed,
        Err(error) => return Err(of_types(error)),
    };
    match check(alloc, typed) {
        Ok(checked) => Ok(checked),
        Err(error) => Err(of_regions(error)),
    }
}
