//! Kinds of parameters.

ghost use Rattle.std.specs.Prelude.{◌≡◌};
ghost use Rattle.class_queries.specs.Kinds.{class_misfits};

use class_rules::ClassId;
use classes::built_ins::{CLASS, STRING, number_array};
use classes::class::ClassKind;
use classes::table::ClassTable;
use jni::ParameterKind;

/// Whether an object of this class is of another kind than the parameter.
pub fn class_misfits(classes: &ClassTable, parameter: ParameterKind, class: ClassId) -> bool
    ensures { result ≡ class_misfits classes.now parameter class.number }
{
    match parameter {
        ParameterKind::ClassObject => class != CLASS,
        ParameterKind::NumberArray(element) => class != number_array(element),
        ParameterKind::AnyArray => !classes.is_array(class),
        ParameterKind::ObjectArray => !matches!(classes.kind(class), ClassKind::ArrayOfObjects(_)),
        ParameterKind::StringObject => class != STRING,
        _ => false,
    }
}
