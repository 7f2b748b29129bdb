//! Why a text is refused, or there is no whole report.

ghost use Rattle.std.specs.Prelude.{◌≡◌};
ghost use Rattle.places.specs.declared.place.Place.TheVariants.{Line};
ghost use Rattle.places.specs.declared.place.Text.TheVariants as which;
ghost use Rattle.program_check.specs.Errors.{of_scan, of_parse, of_types, of_regions, too_long};

use crate::fault_place::FaultPlace;
use parse_lexemes::ParseError;
use places::{Detail, Place, Text};
use region_rules::Checked;
use regions::CheckError;
use scan::{ScanError, Token};
use step_counts::long_function;
use thiserror::Error;
use types::TypeError;

/// The number of the fault of a function that is too long.
const TOO_LONG: u32 = 51;

/// Why a text is refused, or there is no whole report.
#[derive(Debug, Drop, Error)]
pub enum RunError {
    /// Host memory was refused.
    #[error("out of memory")]
    Memory,
    /// A text is refused: the number of the fault, and its place, which tells the text, with what was found there.
    #[error("fault {0} {1}")]
    Fault(u32, FaultPlace),
    /// The writer of the report failed.
    #[error("the writer failed")]
    Writer,
}

/// The error of a fault of this number on a line of the program, where this was found.
fn on_line(number: u32, line: usize, detail: Detail) -> RunError
    ensures { result ≡ RunError.Fault number (Line which.Program line) }
{
    let place = Place::Line(Text::Program, line);
    RunError::Fault(number, FaultPlace::told(place, detail))
}

/// The error of a text that has no tokens.
pub(crate) fn of_scan(text: &[u8], error: ScanError) -> RunError
    ensures { result ≡ of_scan error }
{
    let detail = error.detail(text);
    match error {
        ScanError::Memory => RunError::Memory,
        ScanError::Fault(fault) => on_line(fault.rule.number(), fault.line.line(), detail),
    }
}

/// The error of a text whose tokens, which are these, form no program.
pub(crate) fn of_parse(text: &[u8], tokens: &[Token], error: ParseError) -> RunError
    ensures { result ≡ of_parse error }
{
    let detail = error.detail(text, tokens);
    match error {
        ParseError::Memory => RunError::Memory,
        ParseError::Fault(fault) => on_line(fault.rule.number(), fault.line.line(), detail),
    }
}

/// The error of a text whose unit breaks a rule on names and types.
pub(crate) fn of_types(error: TypeError) -> RunError
    ensures { result ≡ of_types error }
{
    match error {
        TypeError::Memory => RunError::Memory,
        TypeError::Fault(fault) => {
            let number = fault.rule.number();
            let line = fault.line.number();
            on_line(number, line, fault.line.into_detail())
        }
    }
}

/// The error of a text whose unit breaks a rule on buffers, references, frames and returns.
pub(crate) fn of_regions(error: CheckError) -> RunError
    ensures { result ≡ of_regions error }
{
    match error {
        CheckError::Memory => RunError::Memory,
        CheckError::Fault(fault) => {
            let number = fault.rule.number();
            let line = fault.line.number();
            on_line(number, line, fault.line.into_detail())
        }
    }
}

/// The function that is too long.
fn detail_of_length(checked: &Checked) -> Detail {
    match long_function(checked) {
        Some(function) => Detail::of(function.name.as_bytes())
            .words(b", at line ")
            .number(function.line),
        None => Detail::none(),
    }
}

/// The error of a program with a function that is too long, which has no line.
pub fn too_long(checked: &Checked) -> RunError
    ensures { result ≡ too_long }
{
    on_line(TOO_LONG, 0, detail_of_length(checked))
}
