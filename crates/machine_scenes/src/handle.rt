//! Field IDs and method IDs in slots.

ghost use Rattle.std.specs.Prelude.{◌≡◌};
ghost use Rattle.machine_scenes.specs.FieldIds.{field_held, method_held};

use class_rules::ClassId;
use classes::class::FieldHandle;

/// A method ID: the class that it was got from, the class that declares the method, and the method's function, by its number
/// among the unit's functions and by its item's place in the unit, each counted from 0.
#[derive(Clone, Copy)]
pub struct MethodHandle {
    pub class: ClassId,
    pub declarer: ClassId,
    pub function: usize,
    pub item: usize,
}

/// What the slot of a field ID or a method ID holds.
#[derive(Clone, Copy)]
pub enum Handle {
    Field(FieldHandle),
    Method(MethodHandle),
}

/// The field ID that a slot holds; none for NULL, and for a method ID.
#[inline(always)]
pub fn field_held(held: Option<Handle>) -> Option<FieldHandle>
    ensures { result ≡ field_held held }
{
    match held {
        Some(Handle::Field(field)) => Some(field),
        Some(Handle::Method(_)) | None => None,
    }
}

/// The method ID that a slot holds; none for NULL, and for a field ID.
pub fn method_held(held: Option<Handle>) -> Option<MethodHandle>
    ensures { result ≡ method_held held }
{
    match held {
        Some(Handle::Method(method)) => Some(method),
        Some(Handle::Field(_)) | None => None,
    }
}
