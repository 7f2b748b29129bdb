//! Terms: expressions on the way to their values.

ghost use Rattle.std.specs.Prelude.{◌≡◌, IfOk, IfSome, IsTrue, None};
ghost use Rattle.syntax.specs.Limits.{numbers_in_range};
ghost use Rattle.syntax.specs.Parts.{null_tested};
ghost use Rattle.syntax.specs.Shapes.{ref_tree};
ghost use Rattle.syntax.specs.Tree.{Binary};
ghost use Rattle.semantics.specs.Term.{term_of, binary_term};
ghost use Rattle.replay_terms.specs.declared.term.Term.TheVariants as term;
ghost use Rattle.replay_terms.specs.declared.term.Part.TheVariants as part;
ghost use Rattle.replay_terms.specs.Views.{term_view, part_view, NumbersInRange, PartInRange};

use semantics::Value;
use std::alloc::{AllocError, Global};
use std::mem;
use syntax::{BinaryOp, Constant, ExprRef, Name, PrefixOp, Shape};

/// An expression of which some parts have their values; parentheses are dropped.
#[cycle(term)]
#[derive(Drop)]
pub enum Term<'a> {
    Done(Value),
    Number { value: u32, unsigned: bool },
    Named(Constant),
    /// A number variable.
    Read(&'a Name),
    /// An element of an array.
    Element(&'a Name, Part<'a>),
    /// `x == NULL`, or `x != NULL` where it is false.
    IsNull(bool, &'a Name),
    Prefix(PrefixOp, Part<'a>),
    And(Box<Term<'a>>, Box<Term<'a>>),
    Or(Box<Term<'a>>, Box<Term<'a>>),
    Binary(BinaryOp, Part<'a>, Part<'a>),
}

/// A part of a term: the smallest lie in the term, and others in memory of their own.
#[cycle(term)]
#[derive(Drop)]
pub enum Part<'a> {
    Done(Value),
    Number { value: u32, unsigned: bool },
    /// A number variable.
    Read(&'a Name),
    Whole(Box<Term<'a>>),
}

/// Puts a term in the place of another.
pub fn put_term<'a>(place: &mut Term<'a>, term: Term<'a>)
    ensures { place.new ≡ term.entry }
{
    drop(mem::replace(place, term));
}

/// Puts a value in the place of a term. Most terms have no parts, so there is nothing of them to drop.
pub(crate) fn put_value(place: &mut Term<'_>, value: Value)
    ensures { place.new ≡ term.Done value }
{
    match mem::replace(place, Term::Done(value)) {
        Term::Element(_, part) | Term::Prefix(_, part) => drop_part(part),
        Term::Binary(_, left, right) => {
            drop_part(left);
            drop_part(right);
        }
        Term::And(left, right) | Term::Or(left, right) => {
            drop(left);
            drop(right);
        }
        Term::Done(_) | Term::Number { .. } | Term::Named(_) => {}
        Term::Read(_) | Term::IsNull(_, _) => {}
    }
}

/// Drops a part of a term. Most have none of their own.
fn drop_part(part: Part<'_>) {
    match part {
        Part::Whole(term) => drop(term),
        Part::Done(_) | Part::Number { .. } | Part::Read(_) => {}
    }
}

/// Puts a value in the place of a part of a term, which has none of its own.
pub(crate) fn put_part_value(place: &mut Part<'_>, value: Value)
    ensures { place.new ≡ part.Done value }
{
    drop_part(mem::replace(place, Part::Done(value)));
}

/// The term that an expression begins as, on the heap.
#[cycle(term_of)]
fn boxed_term_of(alloc: Global, e: ExprRef<'_>) -> Result<Box<Term<'_>>, AllocError>
    requires { IsTrue (numbers_in_range (ref_tree e)) }
    ensures view { IfOk result (λ t. term_view t.value ≡ term_of (ref_tree e.entry)) }
    ensures numbers { IfOk result (λ t. NumbersInRange t.value) }
{
    let term = term_of(alloc, e)?;
    Ok(Box::new(alloc, term)?)
}

/// The part that a name or a number begins as, which has no parts; none for another expression.
#[inline(always)]
fn small_part_of(e: ExprRef<'_>) -> Option<Part<'_>>
    requires { IsTrue (numbers_in_range (ref_tree e)) }
    ensures view { IfSome result (λ t. part_view t ≡ term_of (ref_tree e.entry)) }
    ensures numbers { IfSome result PartInRange }
{
    match e.shape() {
        Shape::Variable(name) => Some(Part::Read(name)),
        Shape::Number { value, unsigned } => Some(Part::Number { value, unsigned }),
        _ => None,
    }
}

/// The part that an expression begins as. Most are a name or a number, and lie in their term.
#[inline(always)]
#[cycle(term_of)]
fn part_of(alloc: Global, e: ExprRef<'_>) -> Result<Part<'_>, AllocError>
    requires { IsTrue (numbers_in_range (ref_tree e)) }
    ensures view { IfOk result (λ t. part_view t ≡ term_of (ref_tree e.entry)) }
    ensures numbers { IfOk result PartInRange }
{
    match small_part_of(e) {
        Some(part) => Ok(part),
        None => whole_part_of(alloc, e),
    }
}

/// The same of another expression.
#[cycle(term_of)]
fn whole_part_of(alloc: Global, e: ExprRef<'_>) -> Result<Part<'_>, AllocError>
    requires { IsTrue (numbers_in_range (ref_tree e)) }
    ensures view { IfOk result (λ t. part_view t ≡ term_of (ref_tree e.entry)) }
    ensures numbers { IfOk result PartInRange }
{
    match e.shape() {
        Shape::Paren(a) => part_of(alloc, a),
        _ => Ok(Part::Whole(boxed_term_of(alloc, e)?)),
    }
}

/// The term of an operator between two expressions, which don't compare a bare name with NULL.
#[cycle(term_of)]
fn operation_of<'a>(
    alloc: Global,
    op: BinaryOp,
    left: ExprRef<'a>,
    right: ExprRef<'a>,
) -> Result<Term<'a>, AllocError>
    requires left { IsTrue (numbers_in_range (ref_tree left)) }
    requires right { IsTrue (numbers_in_range (ref_tree right)) }
    requires untested { null_tested (Binary op (ref_tree left) (ref_tree right)) ≡ None }
    ensures view { IfOk result (λ t. term_view t ≡ term_of (Binary op (ref_tree left.entry) (ref_tree right.entry))) }
    ensures numbers { IfOk result NumbersInRange }
{
    match op {
        BinaryOp::LogicalAnd => {
            let left = boxed_term_of(alloc, left)?;
            let right = boxed_term_of(alloc, right)?;
            Ok(Term::And(left, right))
        }
        BinaryOp::LogicalOr => {
            let left = boxed_term_of(alloc, left)?;
            let right = boxed_term_of(alloc, right)?;
            Ok(Term::Or(left, right))
        }
        op => {
            let left = part_of(alloc, left)?;
            let right = part_of(alloc, right)?;
            Ok(Term::Binary(op, left, right))
        }
    }
}

/// The term that an expression begins as. Its names are those of the tree.
#[cycle(term_of)]
pub fn term_of(alloc: Global, e: ExprRef<'_>) -> Result<Term<'_>, AllocError>
    requires { IsTrue (numbers_in_range (ref_tree e)) }
    ensures view { IfOk result (λ t. term_view t ≡ term_of (ref_tree e.entry)) }
    ensures numbers { IfOk result NumbersInRange }
{
    match e.shape() {
        Shape::Number { value, unsigned } => Ok(Term::Number { value, unsigned }),
        Shape::Named(c) => Ok(Term::Named(c)),
        Shape::Variable(name) => Ok(Term::Read(name)),
        Shape::Element(name, i) => {
            let index = part_of(alloc, i)?;
            Ok(Term::Element(name, index))
        }
        Shape::Prefix(op, a) => {
            let operand = part_of(alloc, a)?;
            Ok(Term::Prefix(op, operand))
        }
        Shape::Binary(op, left, right) => match e.null_test() {
            Some(test) => Ok(Term::IsNull(test.equal, test.name)),
            None => operation_of(alloc, op, left, right),
        },
        Shape::Paren(a) => term_of(alloc, a),
    }
}
