//! Parameters of functions.

ghost use Rattle.std.specs.Prelude.{◌≤◌, length, map, IfOk};
ghost use Rattle.syntax.specs.Views.{parameter_tree};
ghost use Rattle.parse_lexemes.specs.Results.{Gives};
ghost use Rattle.parse_lexemes.specs.Lexemes.{views};
ghost use Rattle.parse.specs.Reading.{parameter_at, parameters_at};

use base::limits::MOST_NAMES;
use parse_expressions::owned_name;
use parse_lexemes::{Cursor, Fixed, ParseError, ParseRule};
use scan::Mark;
use std::alloc::Global;
use syntax::Parameter;

/// How many names a function may have after that of its class.
pub(crate) const NAMES: usize = MOST_NAMES - 1;

/// A parameter after its comma.
#[tactic(auto, unfolding(crate::specs::Reading::parameter_at))]
fn parameter(alloc: Global, lexemes: Cursor<'_>) -> Result<(Parameter, Cursor<'_>), ParseError>
    ensures { Gives (λ x. (parameter_tree x.0, views x.1)) result (parameter_at (views lexemes.entry)) }
{
    let Some(kind) = lexemes.parameter_type() else {
        return Err(lexemes.unexpected());
    };
    let (name, rest) = owned_name(alloc, lexemes.skip())?;
    Ok((Parameter { kind, name }, rest))
}

/// The parameters after the class, each with the comma before it.
pub(crate) fn parameters(
    alloc: Global,
    lexemes: Cursor<'_>,
) -> Result<(Vec<Parameter>, Cursor<'_>), ParseError>
    ensures few { IfOk result (λ x. length x.0.items ≤ 255) }
    ensures gives { Gives (λ x. (map parameter_tree x.0.items, views x.1)) result (parameters_at 255 (views lexemes.entry)) }
{
    let mut parameters = Vec::new(alloc);
    let mut rest = lexemes;
    'parameters: while rest.starts_with(Fixed::Mark(Mark::Comma)) {
        if parameters.len() == NAMES {
            return Err(rest.fault(ParseRule::TooMany));
        }
        let (parameter, after) = parameter(alloc, rest.skip())?;
        parameters.push(parameter)?;
        rest = after;
    }
    Ok((parameters, rest))
}
