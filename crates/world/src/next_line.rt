//! The next line is taken, where it breaks no rule.

ghost use Rattle.std.specs.Prelude.{◌≡◌, None, map, OnOk, IfOk, IsTrue};
ghost use Rattle.std.specs.List.{list_all};
ghost use Rattle.std.specs.Option.{option_map};
ghost use Rattle.base.specs.declared.element.ElementType.TheVariants.{Int as JInt};
ghost use Rattle.world.specs.Gathered.{least_rule, with_line, call_with};
ghost use Rattle.world.specs.GatheredViews.{gathered_of};
ghost use Rattle.world_lines.specs.LineViews.{value_view, line_view};
ghost use Rattle.world_values.specs.WorldLines.{ClassLine, FieldLine, StaticLine, ObjectLine, ObjectsLine, ArrayLine, StringLine, ThreadLine, CallLine};
ghost use Rattle.world_values.specs.WorldRules.{value_in_range};

use crate::additions::units;
use crate::builder::WorldBuilder;
use class_rules::NO_CLASS;
use classes::built_ins::{STRING, number_array};
use std::alloc::{AllocError, Global};
use world_lines::{ArrayWords, CallWords, FieldWords, Line, ObjectWords, class_number};
use world_values::Call;

impl WorldBuilder {
    fn take_class(&mut self, name: &[u8], superclass: Option<&[u8]>) -> Result<(), AllocError>
        requires { least_rule (gathered_of self.old) (ClassLine name.now (option_map (λ s. s.now) superclass)) ≡ None }
        ensures { OnOk result (gathered_of self.new
            ≡ with_line (gathered_of self.old) 0 (ClassLine name.now (option_map (λ s. s.now) superclass.entry))) }
    {
        self.put_class(name, superclass)
    }

    fn take_field(&mut self, field: FieldWords) -> Result<(), AllocError>
        requires { least_rule (gathered_of self.old) (FieldLine field.class.now field.name.now field.signature.now)
            ≡ None }
        ensures { OnOk result (gathered_of self.new
            ≡ with_line (gathered_of self.old) 0
            (FieldLine field.entry.class.now field.entry.name.now field.entry.signature.now)) }
    {
        self.put_field(field, false)
    }

    fn take_static(&mut self, field: FieldWords) -> Result<(), AllocError>
        requires { least_rule (gathered_of self.old) (StaticLine field.class.now field.name.now field.signature.now)
            ≡ None }
        ensures { OnOk result (gathered_of self.new
            ≡ with_line (gathered_of self.old) 0
            (StaticLine field.entry.class.now field.entry.name.now field.entry.signature.now)) }
    {
        self.put_field(field, true)
    }

    fn take_object(&mut self, alloc: Global, object: &ObjectWords) -> Result<(), AllocError>
        requires { least_rule (gathered_of self.old)
            (ObjectLine object.now.name.now object.now.class.now (map value_view object.now.values.items)) ≡ None }
        ensures { OnOk result (gathered_of self.new
            ≡ with_line (gathered_of self.old) 0 (ObjectLine object.now.name.now object.now.class.now
            (map value_view object.now.values.items))) }
    {
        let class = class_number(&self.classes, object.class);
        self.put_values(alloc, object.name, class, &object.values)
    }

    fn take_objects(&mut self, alloc: Global, object: &ObjectWords) -> Result<(), AllocError>
        requires { least_rule (gathered_of self.old)
            (ObjectsLine object.now.name.now object.now.class.now (map value_view object.now.values.items)) ≡ None }
        ensures { OnOk result (gathered_of self.new
            ≡ with_line (gathered_of self.old) 0 (ObjectsLine object.now.name.now object.now.class.now
            (map value_view object.now.values.items))) }
    {
        let class = self
            .classes
            .find_array_of(object.class)?
            .unwrap_or(NO_CLASS);
        self.put_values(alloc, object.name, class, &object.values)
    }

    fn take_array(&mut self, alloc: Global, array: &ArrayWords) -> Result<(), AllocError>
        requires { least_rule (gathered_of self.old) (ArrayLine array.now.name.now array.now.element
            (map value_view array.now.values.items)) ≡ None }
        ensures { OnOk result (gathered_of self.new
            ≡ with_line (gathered_of self.old) 0 (ArrayLine array.now.name.now array.now.element
            (map value_view array.now.values.items))) }
    {
        let class = number_array(array.element);
        self.put_values(alloc, array.name, class, &array.values)
    }

    fn take_string(&mut self, alloc: Global, name: &[u8], text: &[u8]) -> Result<(), AllocError>
        requires { least_rule (gathered_of self.old) (StringLine name.now text.now) ≡ None }
        ensures { OnOk result (gathered_of self.new
            ≡ with_line (gathered_of self.old) 0 (StringLine name.now text.now)) }
    {
        let units = units(alloc, text)?;
        self.put_object(alloc, name, STRING, units)
    }

    /// The call of a line.
    fn call(&self, alloc: Global, number: usize, call: &CallWords) -> Result<Call, AllocError>
        requires { IsTrue (list_all (value_in_range JInt) (map value_view call.now.arguments.items)) }
        ensures { IfOk result (λ made. made ≡ call_with (gathered_of self.now) number call.now.function.now
            (map value_view call.now.arguments.items)) }
    {
        let arguments = self.values_at(alloc, &call.arguments)?;
        let function = Vec::from_slice(alloc, call.function)?;
        Ok(Call::new(function, number, arguments))
    }

    fn take_thread(
        &mut self,
        alloc: Global,
        number: usize,
        call: &CallWords,
    ) -> Result<(), AllocError>
        requires { least_rule (gathered_of self.old)
            (ThreadLine call.now.function.now (map value_view call.now.arguments.items)) ≡ None }
        ensures { OnOk result (gathered_of self.new
            ≡ with_line (gathered_of self.old) number (ThreadLine call.now.function.now
            (map value_view call.now.arguments.items))) }
    {
        let made = self.call(alloc, number, call)?;
        self.put_thread(alloc, made)
    }

    fn take_call(
        &mut self,
        alloc: Global,
        number: usize,
        call: &CallWords,
    ) -> Result<(), AllocError>
        requires { least_rule (gathered_of self.old)
            (CallLine call.now.function.now (map value_view call.now.arguments.items)) ≡ None }
        ensures { OnOk result (gathered_of self.new
            ≡ with_line (gathered_of self.old) number (CallLine call.now.function.now
            (map value_view call.now.arguments.items))) }
    {
        let made = self.call(alloc, number, call)?;
        self.put_call(made)
    }

    /// Takes the line of this number, which breaks no rule.
    pub fn take(&mut self, alloc: Global, number: usize, line: &Line) -> Result<(), AllocError>
        requires { least_rule (gathered_of self.old) (line_view line.now) ≡ None }
        ensures { OnOk result (gathered_of self.new ≡ with_line (gathered_of self.old) number (line_view line.now)) }
    {
        match line {
            Line::Class(name, superclass) => self.take_class(*name, *superclass),
            Line::Field(field) => self.take_field(*field),
            Line::Static(field) => self.take_static(*field),
            Line::Object(object) => self.take_object(alloc, object),
            Line::Objects(object) => self.take_objects(alloc, object),
            Line::Array(array) => self.take_array(alloc, array),
            Line::String(name, text) => self.take_string(alloc, *name, *text),
            Line::Thread(call) => self.take_thread(alloc, number, call),
            Line::Call(call) => self.take_call(alloc, number, call),
        }
    }
}
