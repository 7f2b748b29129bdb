//! What can be seen in the variables and the statics.

ghost use Rattle.std.specs.Prelude.{◌≡◌, [], IsTrue, false, length, slice_get};
ghost use Rattle.std.specs.Option.{option_map};
ghost use Rattle.base.specs.Bytes.{lookup};
ghost use Rattle.semantics.specs.Heap.{Heap, numbers_of};
ghost use Rattle.semantics.specs.Sight.{scalar, seen, elements_of, held_reference, in_range, variable_is_null, holds_null};
ghost use Rattle.semantics.specs.Term.{IsNull, done, index_of, element_value, reduce};
ghost use Rattle.semantics.specs.declared.value.Value.TheVariants.{Int, Truth};
ghost use Rattle.semantics.specs.Value.{outcome_map, outcome_then};
ghost use Rattle.semantics.specs.Variable.{Statics};
ghost use Rattle.semantics.specs.Views.{IsWithin};
ghost use Rattle.replay_terms.specs.Views.{evaluated_view, indexed_view, content_view, held_view, variables_view, if_there, negated, place_in, shown_numbers};

use crate::statics::{StaticReference, Statics, as_argument, is_empty};
use crate::value::{Evaluated, truth};
use crate::variable::{Content, Variables, held_number};
use semantics::{ObjectId, Objects, Trap, Value};
use syntax::Name;

/// The value of a number variable.
pub fn number_in(variables: &Variables<'_>, name: &Name) -> Evaluated
    ensures { evaluated_view result ≡ scalar (lookup name.now (variables_view variables.now)) }
{
    match variables.content_of(name) {
        None => Evaluated::Stuck,
        Some(content) => match content {
            Content::Number(value) => Evaluated::Gives(*value),
            Content::Reference { .. }
            | Content::Field(_)
            | Content::Method(_)
            | Content::Buffer(_)
            | Content::Copy { .. }
            | Content::View { .. }
            | Content::Array(_, _) => Evaluated::Stuck,
        },
    }
}

/// What a local reference or a static is as an argument.
pub fn held_reference(
    statics: &Statics<'_>,
    variables: &Variables<'_>,
    name: &Name,
) -> StaticReference
    ensures { held_view result ≡ held_reference (lookup name.now (variables_view variables.now)) (lookup name.now statics.now) }
{
    match variables.content_of(name) {
        None => match statics.held(name) {
            Some(held) => as_argument(held),
            None => StaticReference::Empty,
        },
        Some(content) => match content {
            Content::Reference {
                object: Some(object),
                ..
            } => StaticReference::Live(*object),
            Content::Reference { object: None, .. } | Content::Number(_) => StaticReference::Empty,
            Content::Field(_) | Content::Method(_) => StaticReference::Empty,
            Content::Array(_, _) => StaticReference::Empty,
            Content::Buffer(_) | Content::Copy { .. } => StaticReference::Empty,
            Content::View { .. } => StaticReference::Empty,
        },
    }
}

/// Whether a variable holds NULL, as a truth.
fn is_null(content: &Content<'_>) -> Evaluated
    ensures { evaluated_view result ≡ outcome_map Truth (variable_is_null (content_view content.now)) }
{
    match content {
        Content::Reference { object, .. } => truth(object.is_none()),
        Content::Field(field) => truth(field.is_none()),
        Content::Method(method) => truth(method.is_none()),
        Content::Buffer(_) => truth(true),
        Content::Copy { .. } | Content::View { .. } => truth(false),
        Content::Number(_) | Content::Array(_, _) => Evaluated::Stuck,
    }
}

/// The other truth.
fn negated(value: Evaluated) -> Evaluated
    ensures { evaluated_view result ≡ negated (evaluated_view value) }
{
    match value {
        Evaluated::Gives(Value::Truth(b)) => truth(!b),
        Evaluated::Gives(Value::Word(_) | Value::Int(_) | Value::Flag(_)) => value,
        Evaluated::Traps(_) | Evaluated::Stuck => value,
    }
}

/// Whether a variable or a static holds NULL, as a truth.
fn null_of(statics: &Statics<'_>, variables: &Variables<'_>, name: &Name) -> Evaluated
    ensures { evaluated_view result ≡ outcome_map Truth (holds_null (lookup name.now (variables_view variables.now)) (lookup name.now (statics.now))) }
{
    match variables.content_of(name) {
        Some(content) => is_null(content),
        None => match statics.held(name) {
            Some(held) => truth(is_empty(held)),
            None => Evaluated::Stuck,
        },
    }
}

/// Whether a variable or a static holds NULL, or, where that isn't wanted, whether it doesn't.
#[tactic(auto, using(crate::proofs::SightLemmas::null_rules))]
pub(crate) fn null_value(
    statics: &Statics<'_>,
    variables: &Variables<'_>,
    wanted: bool,
    name: &Name,
) -> Evaluated
    ensures { (heap : Heap) → reduce (seen (variables_view variables.now) (statics.now) heap) (IsNull wanted name.now) ≡ done (evaluated_view result) }
{
    let null = null_of(statics, variables, name);
    if wanted { null } else { negated(null) }
}

/// The place of an element.
#[derive(Clone, Copy)]
pub enum Indexed {
    At(usize),
    Traps(Trap),
    /// Nothing fits, as in no accepted program.
    Stuck,
}

/// The index that a value is.
fn index_of(v: Value) -> Indexed
    ensures { indexed_view result ≡ index_of v }
{
    match v {
        Value::Word(n) => Indexed::At(n as usize),
        Value::Int(z) => {
            if z < 0 {
                Indexed::Traps(Trap::OutOfRange)
            } else {
                Indexed::At(z as usize)
            }
        }
        Value::Flag(_) | Value::Truth(_) => Indexed::Stuck,
    }
}

/// What shows elements: numbers, or an object by its name.
#[derive(Clone, Copy)]
enum Shown<'v> {
    Numbers(&'v [i32]),
    Object(ObjectId),
}

/// What the array or the buffer of this name shows.
fn shown_in<'v>(variables: &'v Variables<'_>, name: &Name) -> Option<Shown<'v>>
    ensures { (heap : Heap) → if_there (option_map (shown_numbers heap) result) ≡ elements_of heap (lookup name.now (variables_view variables.now)) }
{
    match variables.content_of(name) {
        None => None,
        Some(content) => match content {
            Content::Array(_, numbers) | Content::Copy { numbers, .. } => {
                Some(Shown::Numbers(numbers.as_slice()))
            }
            Content::View { object, .. } => Some(Shown::Object(*object)),
            Content::Number(_) | Content::Reference { .. } => None,
            Content::Field(_) | Content::Method(_) | Content::Buffer(_) => None,
        },
    }
}

/// Whether there is an object of this name.
fn is_there<O: Objects>(objects: &O, name: ObjectId) -> bool
    ensures there { IsTrue result → IsWithin (length (O.heap objects.now)) name.number }
    ensures none { (result ≡ false) → numbers_of (O.heap objects.now) name.number ≡ [] }
{
    name.number > 0 && name.number <= objects.len()
}

/// How many elements are shown.
fn count<O: Objects>(objects: &O, shown: Shown<'_>) -> usize
    ensures { result ≡ length (shown_numbers (O.heap objects.now) shown.entry) }
{
    match shown {
        Shown::Numbers(numbers) => numbers.len(),
        Shown::Object(name) => {
            if is_there(objects, name) {
                objects.count(name)
            } else {
                0
            }
        }
    }
}

/// An element that is shown, if it is there.
fn number_at<O: Objects>(objects: &O, shown: Shown<'_>, i: usize) -> Option<i32>
    ensures { result ≡ slice_get (shown_numbers (O.heap objects.now) shown.entry) i }
{
    match shown {
        Shown::Numbers(numbers) => numbers.get(i).copied(),
        Shown::Object(name) => {
            if is_there(objects, name) && i < objects.count(name) {
                Some(held_number(objects.value(name, i)))
            } else {
                None
            }
        }
    }
}

/// The place of an element of the array of this name.
#[tactic(auto, using(crate::proofs::SightLemmas::place_rules))]
pub fn place_in<O: Objects>(
    objects: &O,
    variables: &Variables<'_>,
    name: &Name,
    v: Value,
) -> Indexed
    ensures { indexed_view result ≡ place_in (elements_of (O.heap objects.now) (lookup name.now (variables_view variables.now))) (index_of v) }
{
    match index_of(v) {
        Indexed::At(i) => match shown_in(variables, name) {
            None => Indexed::Stuck,
            Some(shown) => {
                if i < count(objects, shown) {
                    Indexed::At(i)
                } else {
                    Indexed::Traps(Trap::OutOfRange)
                }
            }
        },
        Indexed::Traps(trap) => Indexed::Traps(trap),
        Indexed::Stuck => Indexed::Stuck,
    }
}

/// The element at a place of the array of this name.
fn element_at<O: Objects>(
    objects: &O,
    variables: &Variables<'_>,
    name: &Name,
    i: usize,
) -> Evaluated
    ensures { evaluated_view result ≡ outcome_map Int (outcome_then (λ zs. in_range (slice_get zs i))
        (elements_of (O.heap objects.now) (lookup name.now (variables_view variables.now)))) }
{
    match shown_in(variables, name) {
        None => Evaluated::Stuck,
        Some(shown) => match number_at(objects, shown, i) {
            Some(number) => Evaluated::Gives(Value::Int(number)),
            None => Evaluated::Traps(Trap::OutOfRange),
        },
    }
}

/// An element of the array of this name.
pub(crate) fn element_in<O: Objects>(
    objects: &O,
    variables: &Variables<'_>,
    name: &Name,
    v: Value,
) -> Evaluated
    ensures { (statics : Statics) → evaluated_view result
        ≡ element_value (seen (variables_view variables.now) statics (O.heap objects.now)) name.now v }
{
    match index_of(v) {
        Indexed::At(i) => element_at(objects, variables, name, i),
        Indexed::Traps(trap) => Evaluated::Traps(trap),
        Indexed::Stuck => Evaluated::Stuck,
    }
}
