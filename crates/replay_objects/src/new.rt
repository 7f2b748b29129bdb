//! Objects that are to be made.

ghost use Rattle.std.specs.Prelude.{◌≡◌, ◌<◌, ◌^◌, ◌+◌, ◌++◌, ◌∷◌, [], IfOk, OnErr, Some, length, map, pos, replicate};
ghost use Rattle.semantics.specs.CallEffects.{with_message};
ghost use Rattle.semantics.specs.Heap.{next_name};
ghost use Rattle.semantics.specs.Object.{Number};
ghost use Rattle.semantics.specs.World.{fresh_object};
ghost use Rattle.replay_objects.specs.New.{array_class, new_view, object_of, thrown};
ghost use Rattle.replay_objects.specs.Stores.{IsMarked, object_view};
ghost use Rattle.world_values.specs.Views.{object_value_view};

use crate::store::{Object, Store, put_value};
use class_queries::{array_class_of, fresh_values};
use class_rules::{ClassId, NO_CLASS};
use classes::built_ins::STRING;
use classes::table::ClassTable;
use semantics::ObjectId;
use std::alloc::{AllocError, Global};
use world_values::ObjectValue;

/// What an object is that is to be made.
#[derive(Clone, Copy)]
pub enum New<'a> {
    /// An object of the class of this number, with zero and null fields.
    Fresh(ClassId),
    /// An array of the class of this number, of equal values.
    Array {
        class: ClassId,
        count: usize,
        value: ObjectValue,
    },
    /// An array of equal references to objects of the class of this number.
    ObjectArray {
        element: ClassId,
        count: usize,
        reference: Option<ObjectId>,
    },
    /// A string, with one unit for each byte.
    Text(&'a [u8]),
}

/// Its class.
fn class_of(classes: &ClassTable, new: New<'_>) -> ClassId
    ensures { result.number ≡ (object_of classes.now (new_view new.entry)).class }
{
    match new {
        New::Fresh(class) | New::Array { class, .. } => class,
        New::ObjectArray { element, .. } => array_of(classes, element),
        New::Text(_) => STRING,
    }
}

/// The class of arrays of objects of a class, and `NO_CLASS` where there is none.
fn array_of(classes: &ClassTable, element: ClassId) -> ClassId
    ensures { result.number ≡ array_class classes.now element.number }
{
    match array_class_of(classes, element) {
        Some(class) => class,
        None => NO_CLASS,
    }
}

/// Its values.
fn values_of(
    alloc: Global,
    classes: &ClassTable,
    new: New<'_>,
) -> Result<Vec<ObjectValue>, AllocError>
    ensures short { IfOk result (λ values. length values.items < 2 ^ 31) }
    ensures values { IfOk result (λ values. map object_value_view values.items ≡ (object_of classes.now (new_view new.entry)).values) }
{
    match new {
        New::Fresh(class) => fresh_values(alloc, classes, class),
        New::Array { count, value, .. } => equal_values(alloc, count, value),
        New::ObjectArray {
            count,
            reference,
            ..
        } => equal_values(alloc, count, ObjectValue::Reference(reference)),
        New::Text(bytes) => units(alloc, bytes),
    }
}

/// An object has fewer values than this, as no heap has so many cells.
const COUNT_LIMIT: usize = 1 << 20;

/// This many times this value.
fn equal_values(
    alloc: Global,
    count: usize,
    value: ObjectValue,
) -> Result<Vec<ObjectValue>, AllocError>
    ensures short { IfOk result (λ values. length values.items < 2 ^ 31) }
    ensures values { IfOk result (λ values. map object_value_view values.items ≡ replicate count (object_value_view value)) }
{
    if count >= COUNT_LIMIT {
        return Err(AllocError);
    }
    let mut values = Vec::new(alloc);
    values.resize(count, value)?;
    Ok(values)
}

/// A number for each byte.
fn units(alloc: Global, bytes: &[u8]) -> Result<Vec<ObjectValue>, AllocError>
    ensures short { IfOk result (λ values. length values.items < 2 ^ 31) }
    ensures values { IfOk result (λ values. map object_value_view values.items ≡ map (λ b. Number (pos b)) bytes.now) }
{
    if bytes.len() >= COUNT_LIMIT {
        return Err(AllocError);
    }
    let mut values = Vec::new(alloc);
    for byte in bytes {
        values.push(ObjectValue::Number(i32::from(*byte)))?;
    }
    Ok(values)
}

/// Makes the next object, and tells its name. One that no heap has room for is refused before memory is asked for.
pub fn make(
    alloc: Global,
    classes: &ClassTable,
    store: &mut Store,
    new: New<'_>,
) -> Result<ObjectId, AllocError>
    ensures store { IfOk result (λ _. store.new ≡ store.old ++ object_of classes.now (new_view new.entry) ∷ []) }
    ensures name { IfOk result (λ name. name.number ≡ next_name store.old) }
    ensures err { OnErr result (store.new ≡ store.old) }
{
    let values = values_of(alloc, classes, new)?;
    store.add(class_of(classes, new), values)?;
    Ok(ObjectId {
        number: store.len(),
    })
}

/// Makes a string and an exception of a class with it as message, both or neither, and tells the exception's name.
pub fn make_thrown(
    alloc: Global,
    classes: &ClassTable,
    store: &mut Store,
    class: ClassId,
    text: &[u8],
) -> Result<ObjectId, AllocError>
    ensures store { IfOk result (λ _. store.new ≡ store.old ++ thrown classes.now store.old class.number text.now) }
    ensures name { IfOk result (λ name. name.number ≡ next_name store.old + 1) }
    ensures err { OnErr result (store.new ≡ store.old) }
{
    let message = Object {
        class: STRING,
        values: units(alloc, text)?,
        has_numbers: false,
    };
    let message_name = ObjectId {
        number: store.len() + 1,
    };
    let exception = exception_with(alloc, classes, class, message_name)?;
    store.add_both(message, exception)?;
    Ok(ObjectId {
        number: store.len(),
    })
}

/// An exception of a class with the message of this name, which is its first field.
fn exception_with(
    alloc: Global,
    classes: &ClassTable,
    class: ClassId,
    message: ObjectId,
) -> Result<Object, AllocError>
    ensures short { IfOk result (λ exception. length exception.values.items < 2 ^ 31) }
    ensures mark { IfOk result IsMarked }
    ensures view { IfOk result (λ exception. object_view exception ≡ with_message (fresh_object classes.now class.number) (Some message.number)) }
{
    let values = fresh_values(alloc, classes, class)?;
    let mut exception = Object {
        class,
        values,
        has_numbers: false,
    };
    put_value(&mut exception, 0, ObjectValue::Reference(Some(message)));
    Ok(exception)
}
