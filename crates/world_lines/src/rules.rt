//! The rules on one line that ask the classes alone.

ghost use Rattle.std.specs.Prelude.{◌≡◌, ◌||◌, ◌==◌, map, length, not, codes, unwrap_or, drop, slice_get};
ghost use Rattle.std.specs.Option.{option_map};
ghost use Rattle.base.specs.Options.{some_passes};
ghost use Rattle.class_rules.specs.Additions.{class_breaks};
ghost use Rattle.class_rules.specs.Class.{class_named, class_kind, is_plain};
ghost use Rattle.classes.specs.Refusals.{first_broken};
ghost use Rattle.classes.specs.Views.{field_type_view};
ghost use Rattle.world_lines.specs.ClassRules.{broken_class_rule, is_formed, is_place_in_range};
ghost use Rattle.world_lines.specs.LineContents.{written_values};
ghost use Rattle.world_lines.specs.LineViews.{value_view, line_view};
ghost use Rattle.world_values.specs.WorldLines.{ObjectLine};
ghost use Rattle.world_values.specs.WorldMeaning.{class_number};
ghost use Rattle.world_values.specs.WorldRules.{is_object_class, is_world_class, is_well_formed, is_class_allowed, layout_types, types_of_line, each_in_range};

use crate::form::{has_formed_values, is_string_formed};
use crate::line::{Line, ObjectWords};
use crate::ranges::{are_in_range, is_value_in_range};
use crate::value::Value;
use crate::words::{is_class_name, is_simple_name};
use class_rules::{ClassId, ClassRule, NO_CLASS};
use classes::LayoutFields;
use classes::built_ins::is_after_built_ins;
use classes::class::{ElementType, FieldType};
use classes::table::ClassTable;

fn class_rule(classes: &ClassTable, name: &[u8], superclass: Option<&[u8]>) -> Option<ClassRule>
    ensures { result ≡ first_broken (λ rule. class_breaks rule classes.now name.now
        (unwrap_or (option_map (λ s. s.now) superclass.entry) (codes "java/lang/Object"))) }
{
    match superclass {
        Some(superclass) => classes.class_rule(name, superclass),
        None => classes.class_rule(name, b"java/lang/Object"),
    }
}

/// The least rule on classes and fields that a line breaks.
pub fn broken_class_rule(classes: &ClassTable, line: &Line) -> Option<ClassRule>
    ensures { result ≡ broken_class_rule classes.now (line_view line.now) }
{
    match line {
        Line::Class(name, superclass) => class_rule(classes, *name, *superclass),
        Line::Field(field) => classes.field_rule(field.class, field.name, field.signature),
        Line::Static(field) => classes.field_rule(field.class, field.name, field.signature),
        _ => None,
    }
}

/// The class of this name, and `NO_CLASS` where there is none.
pub fn class_number(classes: &ClassTable, name: &[u8]) -> ClassId
    ensures { result.number ≡ class_number classes.now name.now }
{
    classes.find(name).unwrap_or(NO_CLASS)
}

/// Whether there is a class of this name of which an object line may make an object.
fn is_object_class(classes: &ClassTable, name: &[u8]) -> bool
    ensures { result ≡ is_object_class classes.now name.now }
{
    match classes.find(name) {
        Some(class) => !classes.has_own_making(class),
        None => false,
    }
}

/// Whether the world, which allows methods or doesn't, defines a class of this name.
fn is_world_class(classes: &ClassTable, methods: bool, name: &[u8]) -> bool
    ensures { result ≡ is_world_class methods classes.now name.now }
{
    match classes.find(name) {
        Some(class) => is_after_built_ins(class, methods) && !classes.is_array(class),
        None => false,
    }
}

/// Whether there is a class of this name that isn't one of arrays.
fn is_element_class(classes: &ClassTable, name: &[u8]) -> bool
    ensures { result ≡ some_passes (λ c. is_plain (class_kind classes.now c)) (class_named classes.now name.now) }
{
    match classes.find(name) {
        Some(class) => !classes.is_array(class),
        None => false,
    }
}

/// Whether an object of a class has as many values as the class has fields, where it is a class of which objects are made.
fn has_values(classes: &ClassTable, class: &[u8], count: usize) -> bool
    ensures { result ≡ (not (is_object_class classes.now class.now) || (count == length (layout_types classes.now (class_number classes.now class.now)))) }
{
    !is_object_class(classes, class) || count == classes.layout_len(class_number(classes, class))
}

fn is_object_formed(classes: &ClassTable, object: &ObjectWords) -> bool
    ensures { result ≡ is_well_formed classes.now (ObjectLine object.now.name.now object.now.class.now (map value_view object.now.values.items)) }
{
    is_simple_name(object.name) && has_values(classes, object.class, object.values.len())
}

fn is_well_formed(classes: &ClassTable, line: &Line) -> bool
    ensures { result ≡ is_well_formed classes.now (line_view line.now) }
{
    match line {
        Line::Class(name, _) => is_class_name(*name),
        Line::Field(field) => is_simple_name(field.name),
        Line::Static(field) => is_simple_name(field.name),
        Line::Object(object) => is_object_formed(classes, object),
        Line::Objects(object) => is_simple_name(object.name),
        Line::Array(array) => is_simple_name(array.name),
        Line::String(name, text) => is_string_formed(*name, *text),
        Line::Thread(_) | Line::Call(_) => true,
    }
}

/// Whether a line has a form: its names are such, and its object has as many values as its class has fields.
pub fn is_formed(classes: &ClassTable, line: &Line) -> bool
    ensures { result ≡ is_formed classes.now (line_view line.now) }
{
    is_well_formed(classes, line) && has_formed_values(line)
}

/// Whether the class that a line speaks of is there, and of the kind that it may speak of, in a world that allows methods or doesn't.
pub fn is_class_allowed(classes: &ClassTable, methods: bool, line: &Line) -> bool
    ensures { result ≡ is_class_allowed methods classes.now (line_view line.now) }
{
    match line {
        Line::Field(field) => is_world_class(classes, methods, field.class),
        Line::Static(field) => is_world_class(classes, methods, field.class),
        Line::Object(object) => is_object_class(classes, object.class),
        Line::Objects(object) => is_element_class(classes, object.class),
        _ => true,
    }
}

/// The type of the next field.
fn next_type(fields: &mut LayoutFields<'_>) -> Option<FieldType>
    ensures first { option_map field_type_view result ≡ slice_get (map (λ f. f.field.type) fields.old) 0 }
    ensures rest { fields.new ≡ drop 1 fields.old }
{
    match fields.next() {
        Some(id) => Some(id.field.field_type),
        None => None,
    }
}

/// Whether a number is in the range of its place's type, or in that of `jint`.
fn is_place_in_range(field_type: Option<FieldType>, value: Value) -> bool
    ensures { result ≡ is_place_in_range (option_map field_type_view field_type) (value_view value.entry) }
{
    match field_type {
        Some(FieldType::Number(element)) => is_value_in_range(element, value),
        Some(FieldType::Reference(_)) => true,
        None => is_value_in_range(ElementType::Int, value),
    }
}

/// Whether the numbers for the fields of a class are in their types' ranges.
fn fields_in_range(classes: &ClassTable, class: ClassId, values: &[Value]) -> bool
    ensures { result ≡ each_in_range (layout_types classes.now class.number) (map value_view values.now) }
{
    let mut fields = LayoutFields::of(classes, class);
    for value in values {
        if !is_place_in_range(next_type(&mut fields), *value) {
            return false;
        }
    }
    true
}

/// Whether each number that a line writes is in the range of its place's type.
pub fn each_in_range(classes: &ClassTable, line: &Line) -> bool
    ensures { result ≡ each_in_range (types_of_line classes.now (line_view line.now)) (written_values (line_view line.now)) }
{
    match line {
        Line::Object(object) => {
            let class = class_number(classes, object.class);
            fields_in_range(classes, class, &object.values)
        }
        Line::Array(array) => are_in_range(array.element, &array.values),
        Line::Thread(call) => are_in_range(ElementType::Int, &call.arguments),
        Line::Call(call) => are_in_range(ElementType::Int, &call.arguments),
        Line::Objects(_) => true,
        Line::Class(..) | Line::Field(_) | Line::Static(_) | Line::String(..) => true,
    }
}
