//! Steps of terms.

ghost use Rattle.std.specs.Prelude.{◌≡◌, ◌↔◌, IfNone, IfSome, IsTrue};
ghost use Rattle.semantics.specs.Heap.{Heap};
ghost use Rattle.semantics.specs.Sight.{Sight, seen};
ghost use Rattle.semantics.specs.Variable.{Statics as StaticsOfUnit};
ghost use Rattle.semantics.specs.Term.{Term as TermOfTree, Binary, Done, and_then, or_else, done, reduce};
ghost use Rattle.replay_terms.specs.Views.{evaluated_view, term_view, part_view, variables_view, NumbersInRange, PartInRange, decided, right_side, IsLeaf, HasValue, HasValues, IsSmall, IsUnfinished, IsReplaced, IsPartReplaced, Reduces, ReducesPart};

use crate::sight::{element_in, null_value, number_in};
use crate::statics::Statics;
use crate::term::{Part, Term, put_part_value, put_term, put_value};
use crate::value::{Evaluated, binary_value, constant, literal, prefix_value};
use crate::variable::Variables;
use semantics::{Objects, Trap, Value};
use std::mem;
use syntax::BinaryOp;

/// What a step of a term did.
#[derive(Clone, Copy)]
pub enum Reduction {
    /// The leftmost part that can be reduced was replaced.
    Reduced,
    /// That part has no value, and the term is as it was.
    Trapped(Trap),
    /// Nothing fits, as in no accepted program.
    Stuck,
}

/// The term, out of its place.
fn take<'a>(term: &mut Term<'a>) -> Term<'a>
    ensures { result ≡ term.old }
{
    mem::replace(term, Term::Done(Value::Truth(false)))
}

/// What `&&` is after its left side; none where its right side decides.
fn and_then(left: Value) -> Option<Evaluated>
    ensures { (right : TermOfTree) → decided result right ≡ and_then right left }
{
    match left {
        Value::Truth(true) => None,
        Value::Truth(false) => Some(Evaluated::Gives(Value::Truth(false))),
        Value::Word(_) | Value::Int(_) | Value::Flag(_) => Some(Evaluated::Stuck),
    }
}

/// What `||` is after its left side; none where its right side decides.
fn or_else(left: Value) -> Option<Evaluated>
    ensures { (right : TermOfTree) → decided result right ≡ or_else right left }
{
    match left {
        Value::Truth(true) => Some(Evaluated::Gives(Value::Truth(true))),
        Value::Truth(false) => None,
        Value::Word(_) | Value::Int(_) | Value::Flag(_) => Some(Evaluated::Stuck),
    }
}

/// Puts a value in the place of a term.
#[inline]
fn replace(term: &mut Term<'_>, value: Evaluated) -> Reduction
    ensures { IsReplaced term.old value result term.new }
{
    match value {
        Evaluated::Gives(value) => {
            put_value(term, value);
            Reduction::Reduced
        }
        Evaluated::Traps(trap) => Reduction::Trapped(trap),
        Evaluated::Stuck => Reduction::Stuck,
    }
}

/// The value of a part without parts.
fn leaf_value(statics: &Statics<'_>, variables: &Variables<'_>, term: &Term<'_>) -> Evaluated
    requires { NumbersInRange term.now }
    ensures { IsLeaf term.now → (heap : Heap) → reduce (seen (variables_view variables.now) (statics.now) heap)
        (term_view term.now) ≡ done (evaluated_view result) }
{
    match term {
        Term::Number { value, unsigned } => Evaluated::Gives(literal(*value, *unsigned)),
        Term::Named(c) => constant(*c),
        Term::Read(name) => number_in(variables, name),
        Term::IsNull(wanted, name) => null_value(statics, variables, *wanted, name),
        Term::Done(_) | Term::Element(_, _) | Term::Prefix(_, _) => Evaluated::Stuck,
        Term::And(_, _) | Term::Or(_, _) | Term::Binary(_, _, _) => Evaluated::Stuck,
    }
}

/// The value of a term that has it.
#[inline]
fn value_in_term(term: &Term<'_>) -> Option<Value>
    ensures some { IfSome result (λ v. term_view term.now ≡ Done v) }
    ensures none { IfNone result (IsUnfinished (term_view term.now)) }
{
    match term {
        Term::Done(v) => Some(*v),
        Term::Number { .. } | Term::Named(_) | Term::Read(_) => None,
        Term::Element(_, _) | Term::IsNull(_, _) | Term::Prefix(_, _) => None,
        Term::And(_, _) | Term::Or(_, _) | Term::Binary(_, _, _) => None,
    }
}

/// The value of a part that has it.
#[inline]
fn value_in(part: &Part<'_>) -> Option<Value>
    ensures some { IfSome result (λ v. part_view part.now ≡ Done v) }
    ensures none { IfNone result (IsUnfinished (part_view part.now)) }
{
    match part {
        Part::Done(v) => Some(*v),
        Part::Number { .. } => None,
        Part::Read(_) => None,
        Part::Whole(t) => value_in_term(t),
    }
}

/// Puts the value of a part without parts in its place.
#[inline]
fn replace_part(part: &mut Part<'_>, value: Evaluated) -> Reduction
    ensures { IsPartReplaced part.old value result part.new }
{
    match value {
        Evaluated::Gives(value) => {
            put_part_value(part, value);
            Reduction::Reduced
        }
        Evaluated::Traps(trap) => Reduction::Trapped(trap),
        Evaluated::Stuck => Reduction::Stuck,
    }
}

/// Puts the right side of `&&` or `||` in its place.
fn replace_by_right(term: &mut Term<'_>)
    ensures view { term_view term.new ≡ right_side (term_view term.old) }
    ensures numbers { NumbersInRange term.old → NumbersInRange term.new }
{
    match term {
        Term::And(_, b) => {
            let right = take(b);
            put_term(term, right);
        }
        Term::Or(_, b) => {
            let right = take(b);
            put_term(term, right);
        }
        _ => {}
    }
}

/// The value of an operator between two parts that have theirs; none where one has none.
fn operator_value(op: BinaryOp, left: &Part<'_>, right: &Part<'_>) -> Option<Evaluated>
    ensures { HasValue (part_view left.now) → HasValue (part_view right.now) → (sight : Sight)
        → reduce sight (Binary op (part_view left.now) (part_view right.now))
        ≡ decided result (Binary op (part_view left.now) (part_view right.now)) }
{
    match value_in(left) {
        Some(v) => match value_in(right) {
            Some(w) => Some(binary_value(op, v, w)),
            None => None,
        },
        None => None,
    }
}

/// The value of a term whose parts have theirs; none where its right side decides.
fn value_of<O: Objects>(
    objects: &O,
    statics: &Statics<'_>,
    variables: &Variables<'_>,
    term: &Term<'_>,
) -> Option<Evaluated>
    requires { NumbersInRange term.now }
    ensures { HasValues term.now → reduce (seen (variables_view variables.now) (statics.now) (O.heap objects.now))
        (term_view term.now) ≡ decided result (right_side (term_view term.now)) }
{
    match term {
        Term::Element(name, i) => match value_in(i) {
            Some(v) => Some(element_in(objects, variables, name, v)),
            None => None,
        },
        Term::Prefix(op, a) => match value_in(a) {
            Some(v) => Some(prefix_value(*op, v)),
            None => None,
        },
        Term::And(a, _) => match value_in_term(a) {
            Some(v) => and_then(v),
            None => None,
        },
        Term::Or(a, _) => match value_in_term(a) {
            Some(v) => or_else(v),
            None => None,
        },
        Term::Binary(op, a, b) => operator_value(*op, a, b),
        Term::Done(_) | Term::Number { .. } | Term::Named(_) | Term::Read(_) | Term::IsNull(_, _) =>
            Some(leaf_value(statics, variables, term)),
    }
}

/// Replaces a term whose parts have their values.
#[inline(never)]
fn settle<O: Objects>(
    objects: &O,
    statics: &Statics<'_>,
    variables: &Variables<'_>,
    term: &mut Term<'_>,
) -> Reduction
    requires numbers { NumbersInRange term.old }
    requires values { HasValues term.old }
    ensures step { Reduces (seen (variables_view variables.now) (statics.now) (O.heap objects.now)) term.old result term.new }
    ensures numbers { NumbersInRange term.new }
{
    match value_of(objects, statics, variables, term) {
        Some(value) => replace(term, value),
        None => {
            replace_by_right(term);
            Reduction::Reduced
        }
    }
}

/// Whether a part has its value.
#[inline]
fn is_value(part: &Part<'_>) -> bool
    ensures { IsTrue result ↔ HasValue (part_view part.now) }
{
    value_in(part).is_some()
}

/// Whether the parts that take steps have their values.
#[inline]
fn has_values(term: &Term<'_>) -> bool
    ensures { IsTrue result ↔ HasValues term.now }
{
    match term {
        Term::Element(_, a) | Term::Prefix(_, a) => is_value(a),
        Term::And(a, _) | Term::Or(a, _) => value_in_term(a).is_some(),
        Term::Binary(_, a, b) => is_value(a) && is_value(b),
        _ => true,
    }
}

/// The value of a part without parts.
#[inline]
fn part_value(variables: &Variables<'_>, part: &Part<'_>) -> Evaluated
    requires { PartInRange part.now }
    ensures { IsSmall part.now → (statics : StaticsOfUnit) (heap : Heap)
        → reduce (seen (variables_view variables.now) statics heap) (part_view part.now) ≡ done (evaluated_view result) }
{
    match part {
        Part::Number { value, unsigned } => Evaluated::Gives(literal(*value, *unsigned)),
        Part::Read(name) => number_in(variables, name),
        Part::Done(_) | Part::Whole(_) => Evaluated::Stuck,
    }
}

/// Replaces a part without parts by its value.
#[inline]
fn replace_small(variables: &Variables<'_>, part: &mut Part<'_>) -> Reduction
    requires range { PartInRange part.old }
    requires small { IsSmall part.old }
    ensures step { (statics : StaticsOfUnit) (heap : Heap) → ReducesPart (seen (variables_view variables.now) statics heap) part.old result part.new }
    ensures numbers { PartInRange part.new }
{
    let value = part_value(variables, part);
    replace_part(part, value)
}

/// Reduces a part of a term.
#[inline]
#[cycle(reduce)]
fn reduce_in<O: Objects>(
    objects: &O,
    statics: &Statics<'_>,
    variables: &Variables<'_>,
    part: &mut Part<'_>,
) -> Reduction
    requires { PartInRange part.old }
    ensures step { ReducesPart (seen (variables_view variables.now) (statics.now) (O.heap objects.now)) part.old result part.new }
    ensures numbers { PartInRange part.new }
{
    match part {
        Part::Whole(t) => reduce(objects, statics, variables, t),
        Part::Number { .. } => replace_small(variables, part),
        Part::Read(_) => replace_small(variables, part),
        Part::Done(_) => Reduction::Stuck,
    }
}

/// Reduces the leftmost part of a term that has no value yet.
#[inline]
#[cycle(reduce)]
fn reduce_part<O: Objects>(
    objects: &O,
    statics: &Statics<'_>,
    variables: &Variables<'_>,
    term: &mut Term<'_>,
) -> Reduction
    requires numbers { NumbersInRange term.old }
    requires part { HasValues term.old → ⊥ }
    ensures step { Reduces (seen (variables_view variables.now) (statics.now) (O.heap objects.now)) term.old result term.new }
    ensures numbers { NumbersInRange term.new }
{
    match term {
        Term::Element(_, i) => reduce_in(objects, statics, variables, i),
        Term::Prefix(_, a) => reduce_in(objects, statics, variables, a),
        Term::And(a, _) => reduce(objects, statics, variables, a),
        Term::Or(a, _) => reduce(objects, statics, variables, a),
        Term::Binary(_, a, _) if !is_value(a) => reduce_in(objects, statics, variables, a),
        Term::Binary(_, _, b) => reduce_in(objects, statics, variables, b),
        _ => unreachable!(),
    }
}

/// Replaces the leftmost part that can be reduced by its value, or by the right side of `&&` or `||`.
/// It walks to that part, through at most as many terms as the tree is high.
#[cycle(reduce)]
pub fn reduce<O: Objects>(
    objects: &O,
    statics: &Statics<'_>,
    variables: &Variables<'_>,
    term: &mut Term<'_>,
) -> Reduction
    requires { NumbersInRange term.old }
    ensures step { Reduces (seen (variables_view variables.now) (statics.now) (O.heap objects.now)) term.old result term.new }
    ensures numbers { NumbersInRange term.new }
{
    if has_values(term) {
        settle(objects, statics, variables, term)
    } else {
        reduce_part(objects, statics, variables, term)
    }
}
