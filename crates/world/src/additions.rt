//! What one more line adds to what the lines so far say.

ghost use Rattle.std.specs.Prelude.{◌≡◌, ◌+◌, ◌<◌, ◌≤◌, ◌++◌, ◌∷◌, [], None, true, pos, length, map, codes, unwrap_or, IfOk, OnOk, IsTrue, if◌then◌else◌};
ghost use Rattle.std.specs.List.{list_all};
ghost use Rattle.std.specs.Option.{option_map};
ghost use Rattle.base.specs.Limits.{most_objects};
ghost use Rattle.base.specs.Bytes.{lookup};
ghost use Rattle.base.specs.declared.element.ElementType.TheVariants.{Int as JInt};
ghost use Rattle.class_rules.specs.Additions.{new_class, with_class, with_methods};
ghost use Rattle.class_rules.specs.BuiltIns.{built_ins};
ghost use Rattle.class_rules.specs.Class.{class_named};
ghost use Rattle.class_rules.specs.Mangling.{is_class_name};
ghost use Rattle.classes.specs.FieldViews.{with_declared, declared_field};
ghost use Rattle.semantics.specs.Object.{Number};
ghost use Rattle.semantics.specs.Views.{name_of};
ghost use Rattle.world.specs.Gathered.{object_at, value_at, with_object};
ghost use Rattle.world.specs.GatheredViews.{gathered_of};
ghost use Rattle.world_lines.specs.LineViews.{value_view};
ghost use Rattle.world_values.specs.Views.{object_value_view};
ghost use Rattle.world_values.specs.WorldMeaning.{with_last};
ghost use Rattle.world_values.specs.WorldRules.{value_in_range};

use crate::builder::WorldBuilder;
use class_rules::ClassId;
use semantics::ObjectId;
use std::alloc::{AllocError, Global};
use world_lines::{FieldWords, Value};
use world_values::{Call, Object, ObjectValue, Part};

/// The unit that a byte is.
fn unit(byte: u8) -> ObjectValue
    ensures { object_value_view result ≡ Number (pos byte) }
{
    ObjectValue::Number(i32::from(byte))
}

/// The units of a string.
pub fn units(alloc: Global, text: &[u8]) -> Result<Vec<ObjectValue>, AllocError>
    ensures { IfOk result (λ v. map object_value_view v.items ≡ map (λ b. Number (pos b)) text.now) }
{
    let mut units = Vec::new(alloc);
    for byte in text {
        units.push(unit(*byte))?;
    }
    Ok(units)
}

/// One more call of the last thread.
fn put_in_last(threads: &mut Vec<Vec<Call>>, call: Call) -> Result<(), AllocError>
    ensures { OnOk result (map (λ t. t.items) threads.new.items
        ≡ with_last call (map (λ t. t.items) threads.old.items)) }
{
    let Some(calls) = threads.last_mut() else {
        return Ok(());
    };
    calls.push(call)?;
    Ok(())
}

impl WorldBuilder {
    /// The object of this name.
    fn object_at(&self, name: &[u8]) -> Option<ObjectId>
        ensures { name_of result ≡ object_at self.now.classes self.now.names name.now }
    {
        match self.names.place_of(name) {
            Some(place) => Some(ObjectId {
                number: self.classes.len() + 2 + place,
            }),
            None => None,
        }
    }

    /// The class object of the class of this name.
    fn class_at(&self, name: &[u8]) -> Option<ObjectId>
        ensures { name_of result ≡ class_named self.now.classes name.now }
    {
        self.classes.find(name).map(ObjectId::of_class)
    }

    /// A value in memory.
    fn value_at(&self, value: Value) -> ObjectValue
        requires { IsTrue (value_in_range JInt (value_view value)) }
        ensures { object_value_view result ≡ value_at self.now.classes self.now.names (value_view value.entry) }
    {
        match value {
            Value::Number(number) => ObjectValue::Number(number as i32),
            Value::Null => ObjectValue::Reference(None),
            Value::Object(name) => ObjectValue::Reference(self.object_at(name)),
            Value::Class(name) => ObjectValue::Reference(self.class_at(name)),
        }
    }

    /// Values in memory.
    pub fn values_at(&self, alloc: Global, values: &[Value]) -> Result<Vec<ObjectValue>, AllocError>
        requires { IsTrue (list_all (value_in_range JInt) (map value_view values.now)) }
        ensures { IfOk result (λ v. map object_value_view v.items
            ≡ map (value_at self.now.classes self.now.names) (map value_view values.now)) }
    {
        let mut held = Vec::new(alloc);
        for value in values {
            held.push(self.value_at(*value))?;
        }
        Ok(held)
    }

    /// One more class, below the class of this name. Where a rule is broken or memory runs out, that is an error, so
    /// the rules are asked first.
    fn put_class_below(&mut self, name: &[u8], superclass: &[u8]) -> Result<(), AllocError>
        requires formed { IsTrue (is_class_name name.now) }
        requires room { self.old.used + 6 ≤ self.old.cells }
        ensures { OnOk result (gathered_of self.new ≡ record (gathered_of self.old) {
          classes = with_class self.old.classes (new_class name.now (class_named self.old.classes superclass.now));
          used = self.old.used + 6;
          part = Part.Classes;
        }) }
    {
        if self.classes.add_class(name, superclass).is_err() {
            return Err(AllocError);
        }
        self.used += 6;
        self.part = Part::Classes;
        Ok(())
    }

    /// The classes that a world of methods has, before any line.
    pub fn allow_methods(&mut self) -> Result<(), AllocError>
        requires begun { self.old.classes ≡ built_ins }
        requires room { self.old.used + 6 ≤ self.old.cells }
        requires first { self.old.part ≡ Part.Classes }
        ensures { OnOk result (gathered_of self.new ≡ record (gathered_of self.old) {
          methods = true;
          classes = with_methods built_ins;
          used = self.old.used + 6;
        }) }
    {
        self.put_class_below(
            b"java/lang/NoSuchMethodError",
            b"java/lang/IncompatibleClassChangeError",
        )?;
        self.methods = true;
        Ok(())
    }

    /// One more class, below `java/lang/Object` where no superclass is named.
    pub fn put_class(&mut self, name: &[u8], superclass: Option<&[u8]>) -> Result<(), AllocError>
        requires formed { IsTrue (is_class_name name.now) }
        requires room { self.old.used + 6 ≤ self.old.cells }
        ensures { OnOk result (gathered_of self.new ≡ record (gathered_of self.old) {
          classes = with_class self.old.classes (new_class name.now (class_named self.old.classes
              (unwrap_or (option_map (λ s. s.now) superclass.entry) (codes "java/lang/Object"))));
          used = self.old.used + 6;
          part = Part.Classes;
        }) }
    {
        match superclass {
            Some(superclass) => self.put_class_below(name, superclass),
            None => self.put_class_below(name, b"java/lang/Object"),
        }
    }

    /// One more field, or static. Where a rule is broken or memory runs out, that is an error, so the rules are asked first.
    pub fn put_field(&mut self, field: FieldWords, is_static: bool) -> Result<(), AllocError>
        requires room { self.old.used + (if is_static then 1 else 0) ≤ self.old.cells }
        ensures { OnOk result (gathered_of self.new ≡ record (gathered_of self.old) {
          classes = with_declared self.old.classes (class_named self.old.classes field.entry.class.now)
              (declared_field self.old.classes field.entry.name.now field.entry.signature.now) is_static;
          used = self.old.used + (if is_static then 1 else 0);
          part = Part.Classes;
        }) }
    {
        if self
            .classes
            .add_field(field.class, field.name, field.signature, is_static)
            .is_err()
        {
            return Err(AllocError);
        }
        self.used += usize::from(is_static);
        self.part = Part::Classes;
        Ok(())
    }

    /// One more object, of this class.
    pub fn put_object(
        &mut self,
        alloc: Global,
        name: &[u8],
        class: ClassId,
        values: Vec<ObjectValue>,
    ) -> Result<(), AllocError>
        requires new { lookup name.now self.old.names ≡ None }
        requires few { length self.old.names < most_objects }
        requires room { self.old.used + (3 + length values.items) ≤ self.old.cells }
        ensures { OnOk result (gathered_of self.new
            ≡ with_object (gathered_of self.old) name.now class.number (map object_value_view values.items)) }
    {
        let added = 3 + values.len();
        self.names.push(alloc, name, class)?;
        self.objects.push(Object::new(class, values))?;
        self.used += added;
        self.part = Part::Objects;
        Ok(())
    }

    /// One more object, of this class.
    pub fn put_values(
        &mut self,
        alloc: Global,
        name: &[u8],
        class: ClassId,
        values: &[Value],
    ) -> Result<(), AllocError>
        requires new { lookup name.now self.old.names ≡ None }
        requires few { length self.old.names < most_objects }
        requires room { self.old.used + (3 + length values.now) ≤ self.old.cells }
        requires numbers { IsTrue (list_all (value_in_range JInt) (map value_view values.now)) }
        ensures { OnOk result (gathered_of self.new
            ≡ with_object (gathered_of self.old) name.now class.number (map (value_at self.old.classes self.old.names)
            (map value_view values.now))) }
    {
        let values = self.values_at(alloc, values)?;
        self.put_object(alloc, name, class, values)
    }

    /// The first call of one more thread.
    pub fn put_thread(&mut self, alloc: Global, call: Call) -> Result<(), AllocError>
        ensures { OnOk result (gathered_of self.new ≡ record (gathered_of self.old) {
          threads = (gathered_of self.old).threads ++ (call ∷ []) ∷ [];
          part = Part.Threads;
        }) }
    {
        let mut calls = Vec::new(alloc);
        calls.push(call)?;
        self.threads.push(calls)?;
        self.part = Part::Threads;
        Ok(())
    }

    /// One more call of the last thread.
    pub fn put_call(&mut self, call: Call) -> Result<(), AllocError>
        ensures { OnOk result (gathered_of self.new ≡ record (gathered_of self.old) {
          threads = with_last call (gathered_of self.old).threads;
          part = Part.Threads;
        }) }
    {
        put_in_last(&mut self.threads, call)?;
        self.part = Part::Threads;
        Ok(())
    }
}
