//! What tasks do to variables and statics.

ghost use Rattle.std.specs.Prelude.{◌≡◌, ℕ, IfNone, IfOk, IfSome, pos, replicate};
ghost use Rattle.semantics.specs.CallEffects.{BufferResult};
ghost use Rattle.semantics.specs.CallStep.{blank, filled, put};
ghost use Rattle.semantics.specs.Heap.{Heap};
ghost use Rattle.semantics.specs.Variable.{Buffer, Elements, LocalArray, Statics as StaticsOfUnit, assign};
ghost use Rattle.replay_tasks.specs.declared.outcome.Outcome.TheVariants as outcome;
ghost use Rattle.replay_terms.specs.Views.{given_view, content_view, lent_view, variables_view};
ghost use Rattle.replay_tasks.specs.Outcomes.{loan_view, target_view, variable_step, IsBuffer, LeavesVariables, LeavesIf};

use crate::outcome::{Outcome, Target};
use replay_objects::Store;
use replay_terms::{
    Content, Given, Lent, StaticReference, Statics, Variables, Written, static_result, zeros,
};
use semantics::{Level, ObjectValue, Value, VariableKind};
use std::alloc::{AllocError, Global};
use syntax::{ElementType, Name};

/// A variable as its declaration makes it, where there are this many frames.
fn blank<'a>(kind: VariableKind, frames: usize) -> Content<'a>
    ensures { content_view result ≡ blank kind frames }
{
    match kind {
        VariableKind::Number => Content::Number(Value::Int(0)),
        VariableKind::Reference => Content::Reference {
            level: Level { number: frames },
            object: None,
        },
        VariableKind::Field => Content::Field(None),
        VariableKind::Method => Content::Method(None),
        VariableKind::Buffer(kind) => Content::Buffer(kind),
    }
}

/// What a variable holds after what a call gave, or NULL, was put into it; none where it is as it was. In accepted programs they
/// fit.
fn filled<'a>(content: &Content<'a>, given: Given<'a>) -> Option<Content<'a>>
    ensures some { IfSome result (λ c. content_view c ≡ filled (content_view content.now) (given_view given.entry)) }
    ensures none { IfNone result (filled (content_view content.now) (given_view given.entry) ≡ content_view content.now) }
{
    match content {
        Content::Number(_) => match given {
            Given::Number(z) => Some(Content::Number(Value::Int(z))),
            Given::Flag(b) => Some(Content::Number(Value::Flag(b))),
            _ => None,
        },
        Content::Reference { level, .. } => match given {
            Given::Null => Some(Content::Reference {
                level: *level,
                object: None,
            }),
            Given::Reference(reference) => Some(Content::Reference {
                level: *level,
                object: reference,
            }),
            _ => None,
        },
        Content::Field(_) => match given {
            Given::Null => Some(Content::Field(None)),
            Given::Field(found) => Some(Content::Field(found)),
            _ => None,
        },
        Content::Method(_) => match given {
            Given::Null => Some(Content::Method(None)),
            Given::Method(found) => Some(Content::Method(found)),
            _ => None,
        },
        Content::Copy { element: kind, .. } | Content::View { element: kind, .. } => match given {
            Given::Null => Some(Content::Buffer(*kind)),
            _ => None,
        },
        Content::Buffer(_) | Content::Array(_, _) => None,
    }
}

/// Declares a variable with what is given.
#[inline(always)]
fn declare<'a>(
    frames: usize,
    variables: &mut Variables<'a>,
    kind: VariableKind,
    name: &'a Name,
    given: Given<'a>,
) -> Result<(), AllocError>
    ensures { IfOk result (λ _. variables_view variables.new
        ≡ assign name.entry.now (filled (blank kind frames) (given_view given.entry))
        (variables_view variables.old)) }
{
    match (kind, given) {
        (VariableKind::Number, Given::Number(number)) => {
            variables.set_number(name, Value::Int(number))
        }
        (VariableKind::Number, Given::Flag(flag)) => {
            variables.set_number(name, Value::Flag(flag))
        }
        (VariableKind::Reference, Given::Reference(object)) => {
            variables.set_reference(name, Level { number: frames }, object)
        }
        _ => declare_other(frames, variables, kind, name, given),
    }
}

/// The same of whatever kind.
#[inline(never)]
fn declare_other<'a>(
    frames: usize,
    variables: &mut Variables<'a>,
    kind: VariableKind,
    name: &'a Name,
    given: Given<'a>,
) -> Result<(), AllocError>
    ensures { IfOk result (λ _. variables_view variables.new
        ≡ assign name.entry.now (filled (blank kind frames) (given_view given.entry))
        (variables_view variables.old)) }
{
    let content = blank(kind, frames);
    match filled(&content, given) {
        Some(content) => variables.set(name, content),
        None => variables.set(name, content),
    }
}

/// Puts what a call gave, or NULL, where it belongs.
#[tactic(auto, using(crate::proofs::PutLemmas::put_rules))]
#[inline(always)]
pub fn put_given<'a>(
    statics: &mut Statics<'a>,
    frames: usize,
    variables: &mut Variables<'a>,
    target: Target<'a>,
    given: Given<'a>,
) -> Result<(), AllocError>
    ensures { IfOk result (λ _. (heap : Heap) → LeavesVariables frames statics.old heap variables.old
        (put (target_view target.entry) (given_view given.entry)) statics.new heap variables.new) }
{
    match target {
        Target::Declared(kind, name) => declare(frames, variables, kind, name, given),
        Target::Assigned(name) => match variables.content_of(name) {
            Some(content) => match filled(content, given) {
                Some(content) => variables.set(name, content),
                None => Ok(()),
            },
            None => statics.set(name.as_bytes(), static_result(given)),
        },
        Target::Dropped => Ok(()),
    }
}

/// What a buffer of an element type holds that is lent.
fn lent<'a>(
    alloc: Global,
    store: &Store,
    kind: ElementType,
    lent: Lent,
) -> Result<Content<'a>, AllocError>
    ensures { IfOk result (λ c. content_view c ≡ Elements kind (lent_view store.now lent)) }
{
    match lent {
        Lent::Nothing => Ok(Content::Buffer(kind)),
        Lent::Copy(object) => {
            let numbers = store.numbers_of(alloc, object)?;
            Ok(Content::Copy {
                element: kind,
                object,
                numbers,
            })
        }
        Lent::View(object) => Ok(Content::View {
            element: kind,
            object,
        }),
    }
}

/// The element type of a buffer.
fn buffer_type(content: &Content<'_>) -> Option<ElementType>
    ensures some { IfSome result (λ kind. IsBuffer kind (content_view content.now)) }
    ensures none { IfNone result ((b : Buffer) → filled (content_view content.now) (BufferResult b) ≡ content_view content.now) }
{
    match content {
        Content::Buffer(kind)
        | Content::Copy { element: kind, .. }
        | Content::View { element: kind, .. } => Some(*kind),
        Content::Number(_) | Content::Reference { .. } => None,
        Content::Field(_) | Content::Method(_) | Content::Array(_, _) => None,
    }
}

/// What a variable holds that is declared with a buffer that is lent, where there are this many frames.
fn declared<'a>(
    alloc: Global,
    store: &Store,
    frames: usize,
    kind: VariableKind,
    buffer: Lent,
) -> Result<Content<'a>, AllocError>
    ensures { IfOk result (λ c. content_view c ≡ filled (blank kind frames) (BufferResult (lent_view store.now buffer))) }
{
    match kind {
        VariableKind::Buffer(element) => lent(alloc, store, element, buffer),
        VariableKind::Number | VariableKind::Reference => Ok(blank(kind, frames)),
        VariableKind::Field | VariableKind::Method => Ok(blank(kind, frames)),
    }
}

/// A buffer that is lent, with what it is made from.
#[derive(Clone, Copy)]
pub(crate) struct Loan<'s> {
    /// Where the room of a copy is from.
    alloc: Global,
    /// The objects, of one of which it is a copy or a view.
    store: &'s Store,
    buffer: Lent,
}

/// Puts a buffer that is lent where it belongs.
#[inline(always)]
fn lend<'a>(
    loan: Loan<'_>,
    statics: &mut Statics<'a>,
    frames: usize,
    variables: &mut Variables<'a>,
    target: Target<'a>,
) -> Result<(), AllocError>
    ensures { IfOk result (λ _. LeavesVariables frames statics.old loan.entry.store.now variables.old
        (put (target_view target.entry) (BufferResult (loan_view loan.entry)))
        statics.new loan.entry.store.now variables.new) }
{
    let Loan {
        alloc,
        store,
        buffer,
    } = loan;
    match target {
        Target::Declared(kind, name) => {
            let content = declared(alloc, store, frames, kind, buffer)?;
            variables.set(name, content)
        }
        Target::Assigned(name) => match variables.content_of(name) {
            Some(content) => match buffer_type(content) {
                Some(kind) => {
                    let content = lent(alloc, store, kind, buffer)?;
                    variables.set(name, content)
                }
                None => Ok(()),
            },
            None => statics.set(name.as_bytes(), StaticReference::Empty),
        },
        Target::Dropped => Ok(()),
    }
}

/// Writes an element of the array or the buffer of this name; false where it is none.
fn write<'a>(
    store: &mut Store,
    variables: &mut Variables<'a>,
    name: &'a Name,
    index: usize,
    number: i32,
) -> bool
    ensures { (statics : StaticsOfUnit) (frames : ℕ)
        → LeavesIf frames statics store.old variables.old (variable_step
        (outcome.SetsElement name.entry index number)) result statics store.new variables.new }
{
    match variables.write(name, index, number) {
        Written::Done => true,
        Written::Object { object, number } => {
            store.set(object, index, ObjectValue::Number(number));
            true
        }
        Written::Nothing => false,
    }
}

/// Declares an array of this many zeros.
fn make_array<'a>(
    alloc: Global,
    variables: &mut Variables<'a>,
    kind: ElementType,
    name: &'a Name,
    size: u32,
) -> Result<(), AllocError>
    ensures { IfOk result (λ _. variables_view variables.new
        ≡ assign name.entry.now (LocalArray kind (replicate size (pos 0)))
        (variables_view variables.old)) }
{
    let numbers = zeros(alloc, size)?;
    variables.set(name, Content::Array(kind, numbers))
}

/// Does what an outcome does to the objects, the variables and the statics, where there are this many frames; false
/// where it is not possible.
#[tactic(auto, using(crate::proofs::PutLemmas::variable_rules))]
pub fn set_variables<'a>(
    alloc: Global,
    store: &mut Store,
    statics: &mut Statics<'a>,
    frames: usize,
    variables: &mut Variables<'a>,
    outcome: Outcome<'a>,
) -> Result<bool, AllocError>
    ensures { IfOk result (λ done. LeavesIf frames statics.old store.old variables.old (variable_step outcome.entry) done statics.new store.new variables.new) }
{
    match outcome {
        Outcome::Sets(name, value) => variables.set(name, Content::Number(value))?,
        Outcome::SetsNull(target) => put_given(statics, frames, variables, target, Given::Null)?,
        Outcome::Gives(target, given) => put_given(statics, frames, variables, target, given)?,
        Outcome::Lends(target, buffer) => {
            let loan = Loan {
                alloc,
                store,
                buffer,
            };
            lend(loan, statics, frames, variables, target)?;
        }
        Outcome::Makes {
            element: kind,
            name,
            len: size,
        } => make_array(alloc, variables, kind, name, size)?,
        Outcome::SetsElement {
            name,
            index,
            number,
        } => {
            return Ok(write(store, variables, name, index, number));
        }
        Outcome::Stays | Outcome::Printed(_) | Outcome::Enters(_, _) | Outcome::Ends => {}
        Outcome::Tests { .. } => {}
        Outcome::Returned(_) | Outcome::Calls { .. } => {}
        Outcome::Trapped { .. } | Outcome::Impossible => {}
    }
    Ok(true)
}
