//! Arguments and parameters.

ghost use Rattle.std.specs.Prelude.{◌≡◌, map};
ghost use Rattle.syntax.specs.Views.{parameter_tree};
ghost use Rattle.semantics.specs.Load.{fit_parameters, fits_parameter};
ghost use Rattle.world_values.specs.Views.{object_value_view};

use syntax::{Parameter, ParameterType};
use world_values::ObjectValue;

/// Whether there are as many arguments as parameters, each of its kind: a number for `jint`, and NULL or an object for
/// a reference.
pub fn arguments_fit(parameters: &[Parameter], arguments: &[ObjectValue]) -> bool
    ensures { result ≡ fit_parameters (map parameter_tree parameters.now) (map object_value_view arguments.now) }
{
    match parameters {
        [] => arguments.is_empty(),
        [parameter, parameters_left @ ..] => match arguments {
            [] => false,
            [argument, arguments_left @ ..] => {
                fits(parameter.kind, *argument) && arguments_fit(parameters_left, arguments_left)
            }
        },
    }
}

/// Whether an argument is of the kind of a parameter.
fn fits(kind: ParameterType, argument: ObjectValue) -> bool
    ensures { result ≡ fits_parameter kind (object_value_view argument) }
{
    match (kind, argument) {
        (ParameterType::Jint, ObjectValue::Number(_)) => true,
        (ParameterType::Reference(_), ObjectValue::Reference(_)) => true,
        _ => false,
    }
}
