//! What calls of the JNI give.

ghost use Rattle.std.specs.Prelude.{◌≡◌};
ghost use Rattle.semantics.specs.CallStep.{is_zero, static_result};
ghost use Rattle.replay_terms.specs.Views.{given_view, held_view};

use crate::method::MethodId;
use crate::statics::StaticReference;
use classes::fields::FieldId;
use semantics::ObjectId;

/// What a call gives.
#[derive(Clone, Copy)]
pub enum Given<'a> {
    Nothing,
    Null,
    Number(i32),
    Flag(bool),
    /// NULL or an object, by its name.
    Reference(Option<ObjectId>),
    /// NULL or a weak global reference, by the name of its object.
    Weak(Option<ObjectId>),
    Field(Option<FieldId<'a>>),
    Method(Option<MethodId<'a>>),
}

/// The buffer that a call gives.
#[derive(Clone, Copy)]
pub enum Lent {
    /// NULL.
    Nothing,
    /// A copy of the numbers of the object of this name.
    Copy(ObjectId),
    /// A view of the object of this name.
    View(ObjectId),
}

/// Whether what a call gave is 0.
pub fn is_zero(given: Given<'_>) -> bool
    ensures { result ≡ is_zero (given_view given.entry) }
{
    matches!(given, Given::Number(0))
}

/// What a static holds into which this was put.
pub fn static_result(given: Given<'_>) -> StaticReference
    ensures { held_view result ≡ static_result (given_view given.entry) }
{
    match given {
        Given::Reference(Some(name)) => StaticReference::Live(name),
        Given::Weak(Some(name)) => StaticReference::Weakly(name),
        _ => StaticReference::Empty,
    }
}
