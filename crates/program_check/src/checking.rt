//! A check of a program text.

ghost use Rattle.std.specs.Prelude.{IsOkUnless};
ghost use Rattle.program_check.specs.Checks.{PassesCheck, ChecksText, IsProgramText, IsCheckedOrFails};

use crate::fault::{RunError, too_long};
use crate::program::read_program;
use std::alloc::Global;
use step_counts::has_long_function;

/// Whether a text is that of an accepted program, which runs in each world that it fits.
///
/// The text is scanned, parsed, and checked for types, regions and the length of functions, in this order; a fault is the
/// first that is found, with its line, or 51 at line 0. The time is linear in the text but for the names of a function.
pub fn check_text(alloc: Global, program_text: &[u8]) -> Result<(), RunError>
    ensures check { ChecksText program_text.now result }
    // The text of an accepted program is refused for memory or for length alone, and where no function is too long, for
    // memory alone.
    ensures accepted { IsProgramText program_text.now → IsCheckedOrFails result }
    ensures passes { PassesCheck program_text.now → IsOkUnless result RunError.Memory }
{
    let checked = read_program(alloc, program_text)?;
    if has_long_function(&checked) {
        return Err(too_long(&checked));
    }
    Ok(())
}
