//! What objects, variables and statics are written as.

use crate::line::Line;
use class_rules::ClassId;
use classes::fields::FieldId;
use classes::table::ClassTable;
use replay_objects::Store;
use replay_steps::Activation;
use replay_terms::{Content, MethodId, StaticReference, Statics, Variables};
use replay_threads::State;
use semantics::{ObjectId, ObjectValue, Value};
use std::alloc::AllocError;
use syntax::Name;

/// Where objects have their classes.
#[derive(Clone, Copy)]
pub(crate) struct Objects<'s> {
    pub classes: &'s ClassTable,
    pub store: &'s Store,
}

impl<'s> Objects<'s> {
    /// Those of a replay.
    pub(crate) fn of(state: &'s State<'_>) -> Objects<'s> {
        Objects {
            classes: state.world.classes(),
            store: &state.shared.store,
        }
    }
}

/// Where the names of a call have what they hold.
#[derive(Clone, Copy)]
pub(crate) struct Scope<'s, 'a> {
    pub objects: Objects<'s>,
    /// What a name holds that no variable has.
    pub statics: &'s Statics<'a>,
    pub variables: &'s Variables<'a>,
}

impl<'s, 'a> Scope<'s, 'a> {
    /// Where the names of this call of a replay have it.
    pub(crate) fn of(state: &'s State<'a>, activation: &'s Activation<'a>) -> Scope<'s, 'a> {
        Scope {
            objects: Objects::of(state),
            statics: &state.shared.statics,
            variables: &activation.locals.variables,
        }
    }
}

/// Adds an object as the report does: a class object by its class, and another by its number and its class.
pub(crate) fn put_object(
    line: &mut Line,
    objects: Objects<'_>,
    name: ObjectId,
) -> Result<(), AllocError> {
    let number = name.number;
    if number <= objects.classes.len() {
        line.text(b"class:")?;
        return line.text(objects.classes.name(ClassId { number }));
    }
    line.text(b"#")?;
    line.number(number)?;
    line.text(b" ")?;
    line.text(objects.classes.name(objects.store.class_of(name)))
}

/// Adds NULL or an object.
pub(crate) fn put_reference(
    line: &mut Line,
    objects: Objects<'_>,
    name: Option<ObjectId>,
) -> Result<(), AllocError> {
    match name {
        Some(name) => put_object(line, objects, name),
        None => line.text(b"null"),
    }
}

/// Adds an argument of a method.
pub(crate) fn put_argument(
    line: &mut Line,
    objects: Objects<'_>,
    value: ObjectValue,
) -> Result<(), AllocError> {
    match value {
        ObjectValue::Number(number) => line.number(number),
        ObjectValue::Reference(name) => put_reference(line, objects, name),
    }
}

/// Adds the value of an expression.
pub(crate) fn put_value(line: &mut Line, value: Value) -> Result<(), AllocError> {
    match value {
        Value::Word(word) => {
            line.number(word)?;
            line.text(b"u")
        }
        Value::Int(number) => line.number(number),
        Value::Flag(true) => line.text(b"JNI_TRUE"),
        Value::Flag(false) => line.text(b"JNI_FALSE"),
        Value::Truth(true) => line.text(b"true"),
        Value::Truth(false) => line.text(b"false"),
    }
}

/// Adds a field by its class and its name.
fn put_field(
    line: &mut Line,
    objects: Objects<'_>,
    field: Option<FieldId<'_>>,
) -> Result<(), AllocError> {
    let Some(field) = field else {
        return line.text(b"null");
    };
    line.text(objects.classes.name(field.class))?;
    line.text(b".")?;
    line.text(field.field.name)
}

/// Adds a method by its function.
fn put_method(line: &mut Line, method: Option<MethodId<'_>>) -> Result<(), AllocError> {
    match method {
        Some(method) => line.text(method.function.name.as_bytes()),
        None => line.text(b"null"),
    }
}

/// Adds what a variable holds; nothing of a local array.
fn put_content(
    line: &mut Line,
    objects: Objects<'_>,
    content: &Content<'_>,
) -> Result<(), AllocError> {
    match content {
        Content::Number(value) => put_value(line, *value),
        Content::Reference { object, .. } => put_reference(line, objects, *object),
        Content::Field(field) => put_field(line, objects, *field),
        Content::Method(method) => put_method(line, *method),
        Content::Buffer(_) => line.text(b"null"),
        Content::Copy { object, .. } => {
            line.text(b"a copy of ")?;
            put_object(line, objects, *object)
        }
        Content::View { object, .. } => {
            line.text(b"a view of ")?;
            put_object(line, objects, *object)
        }
        Content::Array(_, _) => line.text(b"an array"),
    }
}

/// Adds what a static holds.
fn put_static(
    line: &mut Line,
    objects: Objects<'_>,
    held: StaticReference,
) -> Result<(), AllocError> {
    match held {
        StaticReference::Empty => line.text(b"null"),
        StaticReference::Live(name) => put_object(line, objects, name),
        StaticReference::Weakly(name) => {
            line.text(b"weak ")?;
            put_object(line, objects, name)
        }
        StaticReference::Cleared => line.text(b"cleared"),
        StaticReference::Deleted => line.text(b"deleted"),
    }
}

/// Adds what the variable or the static of this name holds.
pub(crate) fn put_held(
    line: &mut Line,
    scope: Scope<'_, '_>,
    name: &Name,
) -> Result<(), AllocError> {
    match scope.variables.content_of(name) {
        Some(content) => put_content(line, scope.objects, content),
        None => match scope.statics.held(name) {
            Some(held) => put_static(line, scope.objects, held),
            None => line.text(b"?"),
        },
    }
}

/// Adds a name and what it holds.
pub(crate) fn put_named(
    line: &mut Line,
    scope: Scope<'_, '_>,
    name: &Name,
) -> Result<(), AllocError> {
    line.text(name.as_bytes())?;
    line.text(b" = ")?;
    put_held(line, scope, name)
}

/// The number at a place of what has this name, if it has elements.
pub(crate) fn element_of(scope: Scope<'_, '_>, name: &Name, place: usize) -> Option<i32> {
    match scope.variables.content_of(name)? {
        Content::Array(_, numbers) | Content::Copy { numbers, .. } => numbers.get(place).copied(),
        Content::View { object, .. } => match scope.objects.store.value_at(*object, place) {
            ObjectValue::Number(number) => Some(number),
            ObjectValue::Reference(_) => None,
        },
        Content::Number(_) | Content::Reference { .. } | Content::Field(_) => None,
        Content::Method(_) | Content::Buffer(_) => None,
    }
}
