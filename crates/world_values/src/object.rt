//! The objects of a world.

ghost use Rattle.std.specs.Prelude.{◌≡◌, map};
ghost use Rattle.world_values.specs.Views.{object_value_view};

use class_rules::ClassId;
use semantics::ObjectValue;
use std::marker::Model;

/// An object that a world begins with.
pub struct Object {
    class: ClassId,
    values: Vec<ObjectValue>,
}

impl Drop for Object {
    fn drop(self) {
        let Object { class: _, values } = self;
        drop(values);
    }
}

impl Model for Object {
    ghost use Rattle.std.specs.Prelude.{map};
    ghost use Rattle.semantics.specs.Object.{Object as SourceObject};
    ghost use Rattle.world_values.specs.Views.{object_value_view};

    ghost Value = { SourceObject };

    ghost view = { λ o. record { class = o.class.number; values = map object_value_view o.values.items } };
}

impl Object {
    /// An object of the class of this number.
    pub fn new(class: ClassId, values: Vec<ObjectValue>) -> Object
        ensures { result ≡ record { class = class.number; values = map object_value_view values.items } }
    {
        Object { class, values }
    }

    /// Its class, in the class table.
    pub fn class(&self) -> ClassId
        ensures { result.number ≡ self.now.class }
    {
        self.class
    }

    /// Its fields in the order of its class's layout, the elements of an array, or the units of a string.
    pub fn values(&self) -> &[ObjectValue]
        ensures { map object_value_view result.now ≡ self.now.values }
    {
        &self.values
    }
}
