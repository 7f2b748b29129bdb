//! The names that are known at a place of a function, and those that are taken.

ghost use Rattle.std.specs.Prelude.{◌≡◌, [], ◌∷◌, ◌++◌, OnOk, map, bytes_eq};
ghost use Rattle.std.specs.Option.{option_map};
ghost use Rattle.type_rules.specs.ExprTypes.{type_in, is_unknown};
ghost use Rattle.type_rules.specs.TypeRules.{has_name, parameter_type};
ghost use Rattle.types.specs.Faults.{IsAbove, entry_scope};

use std::alloc::AllocError;
use syntax::{Function, Name, Parameter};
use type_rules::{ExprType, Known, parameter_type};

/// Whether two names are spelled alike.
fn is_same(a: &Name, b: &Name) -> bool
    ensures { result ≡ bytes_eq a.now b.now }
{
    a.is_same(b)
}

/// The type of a known name.
pub(crate) fn type_in(known: &Known<'_, ExprType>, name: &Name) -> Option<ExprType>
    ensures { result ≡ type_in known.now name.now }
{
    known.get(name)
}

/// Whether a name is not known.
pub(crate) fn is_unknown(known: &Known<'_, ExprType>, name: &Name) -> bool
    ensures { result ≡ is_unknown known.now name.now }
{
    type_in(known, name).is_none()
}

/// Whether one of the names is this one.
pub(crate) fn has_name(names: &[Name], name: &Name) -> bool
    ensures { result ≡ has_name names.now name.now }
{
    names.iter().any(|x| is_same(name, x))
}

/// What is known at a function's beginning, after the statics that are known.
pub(crate) fn enter<'a>(known: &mut Known<'a, ExprType>, f: &'a Function) -> Result<(), AllocError>
    ensures scope { OnOk result (known.new ≡ entry_scope known.old f.now) }
    ensures above { OnOk result (IsAbove known.new known.old) }
{
    declare_parameters(known, &f.parameters)?;
    known.declare(&f.class_name, ExprType::Ref)
}

/// Declares parameters, of which the first is known as the latest. It calls itself once for each.
fn declare_parameters<'a>(
    known: &mut Known<'a, ExprType>,
    parameters: &'a [Parameter],
) -> Result<(), AllocError>
    ensures scope { OnOk result (known.new
        ≡ map (λ p. (p.name, parameter_type p.kind)) parameters.now ++ known.old) }
    ensures above { OnOk result (IsAbove known.new known.old) }
{
    match parameters {
        [] => Ok(()),
        [p, parameters @ ..] => {
            declare_parameters(known, parameters)?;
            known.declare(&p.name, parameter_type(p.kind))
        }
    }
}
