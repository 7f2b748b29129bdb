//! The rules on one line, after the lines before it. Those that ask the classes alone are in `world_lines`.

ghost use Rattle.std.specs.Prelude.{◌≡◌, ◌&&◌, ◌||◌, ◌==◌, ◌+◌, map, length, nat_le, unwrap_or, is_some, nat_lt};
ghost use Rattle.std.specs.Option.{option_map};
ghost use Rattle.std.specs.List.{list_all};
ghost use Rattle.base.specs.Limits.{most_calls};
ghost use Rattle.base.specs.Bytes.{lookup};
ghost use Rattle.base.specs.Options.{some_passes};
ghost use Rattle.classes.specs.Views.{field_type_view};
ghost use Rattle.world_schedules.specs.LineRules.{OfClass};
ghost use Rattle.world_schedules.specs.Rule.{rule_of};
ghost use Rattle.world.specs.Gathered.{comes_in_order, is_known, refers_to, can_hold, each_can_hold, is_named, has_place, last_calls, least_rule};
ghost use Rattle.world_lines.specs.ClassRules.{broken_class_rule, is_formed};
ghost use Rattle.world_lines.specs.LineContents.{written_values, name_given, is_number, cells_added};
ghost use Rattle.world.specs.GatheredViews.{gathered_of};
ghost use Rattle.world_lines.specs.LineViews.{value_view, line_view};
ghost use Rattle.world_values.specs.WorldMeaning.{class_number};
ghost use Rattle.world_values.specs.WorldRules.{part_of, is_class_allowed, layout_types, types_of_line, each_in_range};

use crate::builder::WorldBuilder;
use crate::names::ObjectNames;
use base::limits::{MOST_CALLS, MOST_OBJECTS, MOST_THREADS};
use class_rules::{ClassId, ClassRule, NO_CLASS};
use classes::LayoutFields;
use classes::built_ins::CLASS;
use classes::class::FieldType;
use classes::table::ClassTable;
use world_lines::{
    Line, Value, broken_class_rule, cells_added, class_number, each_in_range, is_call,
    is_class_allowed, is_formed, is_number, name_given, part_of, values_of,
};
use world_schedules::Rule;
use world_values::Part;

fn is_name_taken(names: &ObjectNames, line: &Line) -> bool
    ensures { result ≡ some_passes (λ x. is_some (lookup x names.now)) (name_given (line_view line.now)) }
{
    match name_given(line) {
        Some(name) => names.class_of(name).is_some(),
        None => false,
    }
}

pub(crate) fn is_known(classes: &ClassTable, names: &ObjectNames, value: Value) -> bool
    ensures { result ≡ is_known classes.now names.now (value_view value.entry) }
{
    match value {
        Value::Object(name) => names.class_of(name).is_some(),
        Value::Class(name) => classes.find(name).is_some(),
        Value::Number(_) | Value::Null => true,
    }
}

fn has_known_values(classes: &ClassTable, names: &ObjectNames, line: &Line) -> bool
    ensures { result ≡ list_all (is_known classes.now names.now) (written_values (line_view line.now)) }
{
    let values = values_of(line);
    for value in values {
        if !is_known(classes, names, *value) {
            return false;
        }
    }
    true
}

/// Whether references to objects of a class can be this value.
fn refers_to(classes: &ClassTable, names: &ObjectNames, class: ClassId, value: Value) -> bool
    ensures { result ≡ refers_to classes.now names.now class.number (value_view value.entry) }
{
    match value {
        Value::Number(_) => false,
        Value::Null => true,
        Value::Object(name) => classes.assignable(names.class_of(name).unwrap_or(NO_CLASS), class),
        Value::Class(_) => classes.assignable(CLASS, class),
    }
}

/// Whether a place of a type can hold a value, its range aside.
fn can_hold(classes: &ClassTable, names: &ObjectNames, field_type: FieldType, value: Value) -> bool
    ensures { result ≡ can_hold classes.now names.now (field_type_view field_type) (value_view value.entry) }
{
    match field_type {
        FieldType::Number(_) => is_number(value),
        FieldType::Reference(class) => refers_to(classes, names, class, value),
    }
}

/// Whether each field of an object of a class can hold its value.
fn fields_can_hold(
    classes: &ClassTable,
    names: &ObjectNames,
    class: ClassId,
    values: &[Value],
) -> bool
    ensures { result ≡ each_can_hold classes.now names.now (layout_types classes.now class.number)
        (map value_view values.now) }
{
    let mut fields = LayoutFields::of(classes, class);
    for value in values {
        match fields.next() {
            None => return true,
            Some(id) => {
                if !can_hold(classes, names, id.field.field_type, *value) {
                    return false;
                }
            }
        }
    }
    true
}

/// Whether places of one type can hold the values.
fn all_can_hold(
    classes: &ClassTable,
    names: &ObjectNames,
    field_type: FieldType,
    values: &[Value],
) -> bool
    ensures { result ≡ list_all (can_hold classes.now names.now (field_type_view field_type))
        (map value_view values.now) }
{
    for value in values {
        if !can_hold(classes, names, field_type, *value) {
            return false;
        }
    }
    true
}

/// Whether each place can hold its value.
fn each_can_hold(classes: &ClassTable, names: &ObjectNames, line: &Line) -> bool
    ensures { result ≡ each_can_hold classes.now names.now (types_of_line classes.now (line_view line.now))
        (written_values (line_view line.now)) }
{
    match line {
        Line::Object(object) => {
            let class = class_number(classes, object.class);
            fields_can_hold(classes, names, class, &object.values)
        }
        Line::Objects(object) => {
            let class = class_number(classes, object.class);
            all_can_hold(classes, names, FieldType::Reference(class), &object.values)
        }
        Line::Array(array) => {
            all_can_hold(
                classes,
                names,
                FieldType::Number(array.element),
                &array.values,
            )
        }
        _ => true,
    }
}

fn is_named(methods: bool, classes: &ClassTable, names: &ObjectNames, line: &Line) -> bool
    ensures { result ≡ is_named methods classes.now names.now (line_view line.now) }
{
    !is_name_taken(names, line)
        && is_class_allowed(classes, methods, line)
        && has_known_values(classes, names, line)
        && each_can_hold(classes, names, line)
}

fn held_rule(rule: ClassRule) -> Rule
    ensures { rule_of result ≡ OfClass rule }
{
    match rule {
        ClassRule::NameTaken => Rule::NameTaken,
        ClassRule::BadSuperclass => Rule::Superclass,
        ClassRule::BadSignature => Rule::Signature,
        ClassRule::TooMany => Rule::Classes,
    }
}

impl WorldBuilder {
    pub(crate) fn comes_in_order(&self, line: &Line) -> bool
        ensures { result ≡ comes_in_order (gathered_of self.now) (line_view line.now) }
    {
        self.part.is_no_later(part_of(line))
            && (!is_call(line) || matches!(self.part, Part::Threads))
    }

    /// Whether the last thread may have one more call.
    fn may_call(&self) -> bool
        ensures { result ≡ nat_lt (length (last_calls (gathered_of self.now).threads)) most_calls }
    {
        match self.threads.last() {
            Some(calls) => calls.len() < MOST_CALLS,
            None => true,
        }
    }

    /// Whether there may be one more object, thread or call.
    pub(crate) fn has_place(&self, line: &Line) -> bool
        ensures { result ≡ has_place (gathered_of self.now) (line_view line.now) }
    {
        match line {
            Line::Class(..) | Line::Field(_) | Line::Static(_) => true,
            Line::Thread(_) => self.threads.len() < MOST_THREADS,
            Line::Call(_) => self.may_call(),
            _ => self.names.len() < MOST_OBJECTS,
        }
    }

    /// Whether what the line adds fits into the cells that are left.
    fn has_room(&self, line: &Line) -> bool
        ensures { result ≡ nat_le (self.now.used + cells_added (line_view line.now)) self.now.cells }
    {
        cells_added(line) <= self.cells as usize - self.used
    }

    /// The least rule that a line breaks.
    pub fn least_rule(&self, line: &Line) -> Option<Rule>
        ensures { option_map rule_of result ≡ least_rule (gathered_of self.now) (line_view line.now) }
    {
        if !self.comes_in_order(line) {
            return Some(Rule::Form);
        }
        if let Some(rule) = broken_class_rule(&self.classes, line) {
            return Some(held_rule(rule));
        }
        if !is_formed(&self.classes, line) {
            return Some(Rule::Form);
        }
        if !is_named(self.methods, &self.classes, &self.names, line) {
            return Some(Rule::Name);
        }
        if !each_in_range(&self.classes, line) || !self.has_place(line) {
            return Some(Rule::Limit);
        }
        if !self.has_room(line) {
            return Some(Rule::Heap);
        }
        None
    }
}
