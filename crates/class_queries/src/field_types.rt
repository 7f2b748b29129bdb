//! What fields and statics can hold.

ghost use Rattle.std.specs.Prelude.{◌≡◌};
ghost use Rattle.classes.specs.Views.{field_type_view};
ghost use Rattle.semantics.specs.Heap.{holds_number, holds_reference};

use classes::class::{ElementType, FieldType};
use jni::is_same_element;

/// Whether a field of this type holds such numbers.
pub fn holds_number(element: ElementType, field_type: FieldType) -> bool
    ensures { result ≡ holds_number element (field_type_view field_type) }
{
    match field_type {
        FieldType::Number(numbers) => is_same_element(element, numbers),
        FieldType::Reference(_) => false,
    }
}

/// Whether a field of this type holds a reference.
pub fn holds_reference(field_type: FieldType) -> bool
    ensures { result ≡ holds_reference (field_type_view field_type) }
{
    matches!(field_type, FieldType::Reference(_))
}
