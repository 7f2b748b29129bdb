//! The arguments of a call before it is made.

ghost use Rattle.std.specs.Prelude.{◌≡◌, length, map, slice_get};
ghost use Rattle.std.specs.Option.{option_map};
ghost use Rattle.replay_terms.specs.Views.{looked_up, operand_ref_view, operand_view, operands_view};

use crate::term::Term;
use syntax::{Argument, Name};

/// An argument of a call: a number on the way to its value, one that is looked up in the call's own step, or the bare name
/// of either kind that a method is given.
#[derive(Drop)]
pub enum Operand<'a> {
    Number(Term<'a>),
    Passed(&'a Name),
    Given(&'a Argument),
}

/// The arguments of a call before it is made. Most are looked up in the call's own step, and need no list.
#[derive(Drop)]
pub enum Operands<'a> {
    /// Each of these is looked up in the call's own step.
    Given(&'a [Argument]),
    /// Each of these is, and after them comes a number on the way to its value.
    Last(&'a [Argument], Term<'a>),
    /// Each by itself.
    Listed(Vec<Operand<'a>>),
}

/// An argument of a call where it lies.
#[derive(Clone, Copy)]
pub enum OperandRef<'s, 'a> {
    Number(&'s Term<'a>),
    Passed(&'a Name),
    Given(&'a Argument),
}

/// The argument at a place of some that are looked up in the call's own step.
#[inline]
fn given_at<'s, 'a>(arguments: &'a [Argument], place: usize) -> Option<OperandRef<'s, 'a>>
    ensures { option_map operand_ref_view result ≡ slice_get (map looked_up arguments.entry.now) place }
{
    match arguments.get(place) {
        Some(argument) => Some(OperandRef::Given(argument)),
        None => None,
    }
}

/// The argument at a place of a list.
#[inline]
fn listed_at<'s, 'a>(operands: &'s [Operand<'a>], place: usize) -> Option<OperandRef<'s, 'a>>
    ensures { option_map operand_ref_view result ≡ slice_get (map operand_view operands.entry.now) place }
{
    match operands.get(place) {
        Some(Operand::Number(term)) => Some(OperandRef::Number(term)),
        Some(Operand::Passed(name)) => Some(OperandRef::Passed(name)),
        Some(Operand::Given(argument)) => Some(OperandRef::Given(argument)),
        None => None,
    }
}

impl<'a> Operands<'a> {
    /// How many they are.
    pub fn count(&self) -> usize
        ensures { result ≡ length (operands_view self.now) }
    {
        match self {
            Operands::Given(arguments) => arguments.len(),
            Operands::Last(arguments, _) => arguments.len() + 1,
            Operands::Listed(operands) => operands.len(),
        }
    }

    /// The one at a place.
    pub fn get<'s>(&'s self, place: usize) -> Option<OperandRef<'s, 'a>>
        ensures { option_map operand_ref_view result ≡ slice_get (operands_view self.entry.now) place }
    {
        match self {
            Operands::Given(arguments) => given_at(arguments, place),
            Operands::Last(arguments, number) => {
                if place == arguments.len() {
                    return Some(OperandRef::Number(number));
                }
                given_at(arguments, place)
            }
            Operands::Listed(operands) => listed_at(operands, place),
        }
    }
}
