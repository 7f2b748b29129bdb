//! The objects that all threads share.

ghost use Rattle.std.specs.Prelude.{◌≡◌, ◌<◌, ◌≤◌, ◌^◌, ◌+◌, ◌++◌, ◌∷◌, [], IfOk, IfSome, IsTrue, OnErr, drop, length, map, slice_set, take};
ghost use Rattle.std.specs.Option.{option_map};
ghost use Rattle.semantics.specs.CallEffects.{overwritten};
ghost use Rattle.semantics.specs.Heap.{object_at, class_of, number_in, numbers_of, value_at, values_of, with_numbers, with_value_at};
ghost use Rattle.semantics.specs.Object.{Number};
ghost use Rattle.replay_objects.specs.Stores.{IsMarked, as_number, object_view};
ghost use Rattle.semantics.specs.Views.{object_value_view};

use class_rules::{ClassId, NO_CLASS};
use semantics::{ObjectId, ObjectValue, Objects};
use std::alloc::{AllocError, Global};
use std::marker::Model;

/// An object: its class, and its values.
#[derive(Drop)]
pub(crate) struct Object {
    pub(crate) class: ClassId,
    pub(crate) values: Vec<ObjectValue>,
    /// Whether it is known that no value is a reference.
    pub(crate) has_numbers: bool,
}

/// The objects, seen as the heap of the definitions. Each goes by its name, its number in the order in which they are made,
/// counted from 1.
#[derive(Drop)]
pub struct Store {
    objects: Vec<Object>,
}

impl Model for Store {
    ghost use Rattle.std.specs.Prelude.{map};
    ghost use Rattle.semantics.specs.Heap.{Heap};
    ghost use Rattle.replay_objects.specs.Stores.{object_view, AreMarked, AreShort};

    ghost Value = { Heap };

    ghost view = { λ s. map object_view s.objects.items };

    ghost invariant = { λ s. AreShort s.objects.items × AreMarked s.objects.items };
}

impl Objects for Store {
    ghost heap = { λ s. s };

    fn len(&self) -> usize {
        self.objects.len()
    }

    fn class_of(&self, name: ObjectId) -> ClassId {
        Store::class_of(self, name)
    }

    fn count(&self, name: ObjectId) -> usize {
        self.values_of(name).len()
    }

    fn value(&self, name: ObjectId, index: usize) -> ObjectValue {
        self.values_of(name)[index]
    }
}

impl Store {
    /// The store of no objects.
    pub fn new(alloc: Global) -> Store
        ensures { result ≡ [] }
    {
        Store {
            objects: Vec::new(alloc),
        }
    }

    /// The number of objects.
    pub fn len(&self) -> usize
        ensures len { result ≡ length self.now }
        ensures few { result < 2 ^ 63 }
    {
        self.objects.len()
    }

    /// The object of a name.
    fn object(&self, name: ObjectId) -> Option<&Object>
        ensures view { option_map (λ o. object_view o.now) result ≡ object_at self.now name.number }
        ensures short { IfSome result (λ o. length o.now.values.items < 2 ^ 31) }
    {
        if name.number == 0 {
            return None;
        }
        if self.objects.len() < name.number {
            return None;
        }
        Some(&self.objects[name.number - 1])
    }

    /// The class of an object, and `NO_CLASS` where there is no object of this name.
    pub fn class_of(&self, name: ObjectId) -> ClassId
        ensures { result.number ≡ class_of self.now name.number }
    {
        match self.object(name) {
            Some(object) => object.class,
            None => NO_CLASS,
        }
    }

    /// An object's fields in the order of its class's layout, the elements of an array, or the units of a string; none where
    /// there is no object of this name.
    pub fn values_of(&self, name: ObjectId) -> &[ObjectValue]
        ensures values { map object_value_view result.now ≡ values_of self.now name.number }
        ensures short { length result.now < 2 ^ 31 }
    {
        match self.object(name) {
            Some(object) => &object.values,
            None => &[],
        }
    }

    /// The value at a place of an object, counted from 0; the number 0 where there is none.
    pub fn value_at(&self, name: ObjectId, place: usize) -> ObjectValue
        ensures { object_value_view result ≡ value_at self.now name.number place }
    {
        match self.values_of(name).get(place) {
            Some(value) => *value,
            None => ObjectValue::Number(0),
        }
    }

    /// Puts a value into an object, if there is one of this name and it has the place.
    pub fn set(&mut self, name: ObjectId, place: usize, value: ObjectValue)
        ensures { self.new ≡ with_value_at self.old name.number place (object_value_view value) }
    {
        let count = self.objects.len();
        if name.number == 0 || name.number > count {
            return;
        }
        put_value(&mut self.objects[name.number - 1], place, value);
    }

    /// Overwrites numbers of an object, from a place on, if there is one of this name; a reference in it, as in no accepted
    /// program, becomes 0. The cost goes by the new numbers, and the first time by all of the object's.
    pub fn set_numbers(&mut self, name: ObjectId, start: usize, numbers: &[i32])
        requires { start + length numbers.now ≤ length (values_of self.old name.number) }
        ensures { self.new ≡ with_numbers self.old name.number (overwritten (numbers_of self.old name.number) start numbers.now) }
    {
        let count = self.objects.len();
        if name.number == 0 || name.number > count {
            return;
        }
        overwrite(&mut self.objects[name.number - 1], start, numbers);
    }

    /// Gives an object these numbers as its values. There is no memory for more or fewer than it has, as in no accepted
    /// program.
    pub fn put_numbers(&mut self, name: ObjectId, numbers: &[i32]) -> Result<(), AllocError>
        ensures ok { IfOk result (λ _. self.new ≡ with_numbers self.old name.number numbers.now) }
        ensures err { OnErr result (self.new ≡ self.old) }
    {
        if self.values_of(name).len() != numbers.len() {
            return Err(AllocError);
        }
        self.set_numbers(name, 0, numbers);
        Ok(())
    }

    /// The numbers of an object, with 0 for a reference. The cost goes by them.
    pub fn numbers_of(&self, alloc: Global, name: ObjectId) -> Result<Vec<i32>, AllocError>
        ensures { IfOk result (λ numbers. numbers.items ≡ numbers_of self.now name.number) }
    {
        numbers_in(alloc, self.values_of(name))
    }

    /// Makes the next object.
    pub fn add(&mut self, class: ClassId, values: Vec<ObjectValue>) -> Result<(), AllocError>
        requires { length values.items < 2 ^ 31 }
        ensures ok { IfOk result (λ _. self.new ≡ self.old ++ record { class = class.number; values = map object_value_view values.items } ∷ []) }
        ensures err { OnErr result (self.new ≡ self.old) }
    {
        self.objects.push(Object {
            class,
            values,
            has_numbers: false,
        })?;
        Ok(())
    }

    /// Makes the next two objects, both or neither.
    pub(crate) fn add_both(&mut self, first: Object, second: Object) -> Result<(), AllocError>
        requires first { length first.values.items < 2 ^ 31 }
        requires second { length second.values.items < 2 ^ 31 }
        requires first_mark { IsMarked first }
        requires second_mark { IsMarked second }
        ensures ok { IfOk result (λ _. self.new ≡ self.old ++ object_view first ∷ object_view second ∷ []) }
        ensures err { OnErr result (self.new ≡ self.old) }
    {
        self.objects.reserve(2)?;
        self.objects.push_reserved(first);
        self.objects.push_reserved(second);
        Ok(())
    }
}

/// The numbers of values, with 0 for a reference.
fn numbers_in(alloc: Global, values: &[ObjectValue]) -> Result<Vec<i32>, AllocError>
    ensures { IfOk result (λ numbers. numbers.items ≡ map number_in (map object_value_view values.now)) }
{
    let mut numbers = Vec::new(alloc);
    for value in values {
        numbers.push(number_in(*value))?;
    }
    Ok(numbers)
}

/// The number of a value; 0 for a reference.
fn number_in(value: ObjectValue) -> i32
    ensures { result ≡ number_in (object_value_view value) }
{
    match value {
        ObjectValue::Number(number) => number,
        ObjectValue::Reference(_) => 0,
    }
}

/// Whether a value is a number.
fn is_number(value: ObjectValue) -> bool
    ensures { IsTrue result → as_number (object_value_view value) ≡ object_value_view value }
{
    matches!(value, ObjectValue::Number(_))
}

/// Puts a value into an object, if it has the place.
pub(crate) fn put_value(object: &mut Object, place: usize, value: ObjectValue)
    ensures view { object_view object.new ≡ record {
      class = (object_view object.old).class;
      values = slice_set (object_view object.old).values place (object_value_view value);
    } }
    ensures length { length object.new.values.items ≡ length object.old.values.items }
    ensures mark { IsMarked object.old → IsMarked object.new }
{
    if place < object.values.len() {
        object.values[place] = value;
        object.has_numbers &= is_number(value);
    }
}

/// Overwrites values of an object by numbers, from a place on, and its references by 0.
fn overwrite(object: &mut Object, start: usize, numbers: &[i32])
    requires mark { IsMarked object.old }
    requires room { start + length numbers.now ≤ length object.old.values.items }
    ensures view { object_view object.new ≡ record {
      class = object.old.class.number;
      values = map Number (overwritten (map number_in (object_view object.old).values) start numbers.now);
    } }
    ensures length { length object.new.values.items ≡ length object.old.values.items }
    ensures mark { IsMarked object.new }
{
    keep_numbers(object);
    write_numbers(&mut object.values, start, numbers);
}

/// Overwrites references of an object by 0, unless it is known that there are none.
fn keep_numbers(object: &mut Object)
    requires { IsMarked object.old }
    ensures values { map object_value_view object.new.values.items ≡ map as_number (map object_value_view object.old.values.items) }
    ensures class { object.new.class ≡ object.old.class }
    ensures length { length object.new.values.items ≡ length object.old.values.items }
{
    if object.has_numbers {
        return;
    }
    forget_references(&mut object.values);
    object.has_numbers = true;
}

/// A number, and 0 of a reference.
fn as_number(value: ObjectValue) -> ObjectValue
    ensures { object_value_view result ≡ as_number (object_value_view value) }
{
    match value {
        ObjectValue::Number(_) => value,
        ObjectValue::Reference(_) => ObjectValue::Number(0),
    }
}

/// Overwrites references by 0.
fn forget_references(values: &mut [ObjectValue])
    ensures { map object_value_view values.new ≡ map as_number (map object_value_view values.old) }
{
    for value in values.iter_mut() {
        *value = as_number(*value);
    }
}

/// Overwrites values by numbers, from a place on.
fn write_numbers(values: &mut [ObjectValue], start: usize, numbers: &[i32])
    requires { start + length numbers.now ≤ length values.old }
    ensures { map object_value_view values.new ≡ take start (map object_value_view values.old) ++ map Number numbers.now
        ++ drop (start + length numbers.now) (map object_value_view values.old) }
{
    for (place, number) in numbers.iter().enumerate() {
        values[start + place] = ObjectValue::Number(*number);
    }
}
