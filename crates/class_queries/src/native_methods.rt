//! Classes of native methods.

ghost use Rattle.std.specs.Prelude.{◌≡◌, IfOk};
ghost use Rattle.std.specs.Option.{option_and_then};
ghost use Rattle.class_rules.specs.ClassIds.{number_of};
ghost use Rattle.class_rules.specs.Class.{class_named};
ghost use Rattle.class_rules.specs.Mangling.{native_class};

use class_rules::ClassId;
use class_rules::mangling::unmangle;
use classes::table::ClassTable;
use std::alloc::{AllocError, Global};

/// The class whose native method has a function of this name.
pub fn native_class(
    alloc: Global,
    classes: &ClassTable,
    name: &[u8],
) -> Result<Option<ClassId>, AllocError>
    ensures { IfOk result (λ class. number_of class ≡ option_and_then (class_named classes.now) (native_class name.now)) }
{
    match unmangle(alloc, name)? {
        Some(native) => Ok(classes.find(&native.class)),
        None => Ok(None),
    }
}
