//! Objects by name.

ghost use Rattle.std.specs.Prelude.{◌≡◌, ◌<◌, ◌^◌, Some, length, slice_get};
ghost use Rattle.semantics.specs.Heap.{Heap, class_of, values_of};
ghost use Rattle.semantics.specs.Views.{object_value_view, IsWithin};

use crate::object_id::ObjectId;
use crate::object_value::ObjectValue;
use class_rules::ClassId;

/// Objects that go by their names, their numbers in the order in which they were made, counted from 1.
pub trait Objects {
    /// The heap of the definitions that they stand for.
    ghost heap: { Self → Heap };

    /// The number of objects.
    fn len(&self) -> usize
        ensures len { result ≡ length (heap self.now) }
        ensures few { result < 2 ^ 63 };

    /// The class of an object.
    fn class_of(&self, name: ObjectId) -> ClassId
        requires { IsWithin (length (heap self.now)) name.number }
        ensures { result.number ≡ class_of (heap self.now) name.number };

    /// The number of an object's values.
    fn count(&self, name: ObjectId) -> usize
        requires { IsWithin (length (heap self.now)) name.number }
        ensures { result ≡ length (values_of (heap self.now) name.number) };

    /// A value of an object.
    fn value(&self, name: ObjectId, index: usize) -> ObjectValue
        requires name { IsWithin (length (heap self.now)) name.number }
        requires index { index < length (values_of (heap self.now) name.number) }
        ensures { slice_get (values_of (heap self.now) name.number) index ≡ Some (object_value_view result) };
}
