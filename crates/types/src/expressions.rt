//! Types of expressions.

ghost use Rattle.std.specs.Prelude.{◌≡◌, ◌&&◌, ◌||◌, if◌then◌else◌};
ghost use Rattle.std.specs.Option.{option_map, is_some};
ghost use Rattle.syntax.specs.Parts.{null_tested};
ghost use Rattle.syntax.specs.Shapes.{ref_tree};
ghost use Rattle.type_rules.specs.declared.ty.ExprType.TheVariants.{Jint};
ghost use Rattle.type_rules.specs.ExprTypes.{is_word, is_jint, is_flag, is_truth, is_castable, is_index, has_elements, type_in, type_of, constant_type, prefix_type, binary_type, group, null_test_type, is_null, name_type, is_unknown};
ghost use Rattle.type_rules.specs.TypeRules.{is_formed};
ghost use Rattle.types.specs.ValueTypes.{value_type, of_value, bare_type};
ghost use Rattle.type_rules.specs.Uses.{expr_uses};

use crate::scope::{is_unknown, type_in};
use crate::ty::{has_elements, is_nullable};
use syntax::{BinaryOp, Constant, ExprRef, Name, PrefixOp, Shape};
use type_rules::{ExprType, Known};

/// The type of a value, which each expression has that has a type, but for bare names. It is passed in a register.
#[derive(Clone, Copy)]
enum ValueType {
    Word,
    Jint,
    Flag,
    Truth,
}

impl ValueType {
    /// The same among all types.
    fn among_all(self) -> ExprType
        ensures { result ≡ value_type self }
    {
        match self {
            ValueType::Word => ExprType::Word,
            ValueType::Jint => ExprType::Jint,
            ValueType::Flag => ExprType::Flag,
            ValueType::Truth => ExprType::Truth,
        }
    }
}

fn is_word(ty: Option<ValueType>) -> bool
    ensures { result ≡ is_word (option_map value_type ty) }
{
    matches!(ty, Some(ValueType::Word))
}

fn is_jint(ty: Option<ValueType>) -> bool
    ensures { result ≡ is_jint (option_map value_type ty) }
{
    matches!(ty, Some(ValueType::Jint))
}

fn is_flag(ty: Option<ValueType>) -> bool
    ensures { result ≡ is_flag (option_map value_type ty) }
{
    matches!(ty, Some(ValueType::Flag))
}

fn is_truth(ty: Option<ValueType>) -> bool
    ensures { result ≡ is_truth (option_map value_type ty) }
{
    matches!(ty, Some(ValueType::Truth))
}

/// What a cast takes.
fn is_castable(ty: Option<ValueType>) -> bool
    ensures { result ≡ is_castable (option_map value_type ty) }
{
    matches!(
        ty,
        Some(ValueType::Word | ValueType::Jint | ValueType::Flag)
    )
}

/// What an index may be.
fn is_index(ty: Option<ValueType>) -> bool
    ensures { result ≡ is_index (option_map value_type ty) }
{
    matches!(ty, Some(ValueType::Word | ValueType::Jint))
}

/// The flags; NULL and the modes have no type.
fn constant_type(constant: Constant) -> Option<ValueType>
    ensures { option_map value_type result ≡ constant_type constant }
{
    match constant {
        Constant::True | Constant::False => Some(ValueType::Flag),
        Constant::Commit | Constant::Abort | Constant::Null => None,
    }
}

/// This type, where the operands fit.
fn type_if(fits: bool, ty: ValueType) -> Option<ValueType>
    ensures { result ≡ (if fits then Some ty else None) }
{
    if fits { Some(ty) } else { None }
}

fn prefix_type(op: PrefixOp, ty: Option<ValueType>) -> Option<ValueType>
    ensures { option_map value_type result ≡ prefix_type op (option_map value_type ty) }
{
    match op {
        PrefixOp::LogicalNot => type_if(is_truth(ty), ValueType::Truth),
        PrefixOp::Complement => type_if(is_word(ty), ValueType::Word),
        PrefixOp::ToWord => type_if(is_castable(ty), ValueType::Word),
        PrefixOp::ToInt => type_if(is_castable(ty), ValueType::Jint),
    }
}

/// Whether two numbers may be compared.
fn are_comparable(left: Option<ValueType>, right: Option<ValueType>) -> bool
    ensures { result ≡ (is_word (option_map value_type left) && is_word (option_map value_type right)
        || is_jint (option_map value_type left) && is_jint (option_map value_type right)) }
{
    (is_word(left) && is_word(right)) || (is_jint(left) && is_jint(right))
}

fn binary_type(op: BinaryOp, left: Option<ValueType>, right: Option<ValueType>) -> Option<ValueType>
    ensures { option_map value_type result ≡ binary_type (group op) (option_map value_type left)
        (option_map value_type right) }
{
    match op {
        BinaryOp::LogicalOr | BinaryOp::LogicalAnd => type_if(
            is_truth(left) && is_truth(right),
            ValueType::Truth,
        ),
        BinaryOp::Equal | BinaryOp::NotEqual => type_if(
            are_comparable(left, right) || (is_flag(left) && is_flag(right)),
            ValueType::Truth,
        ),
        BinaryOp::Less | BinaryOp::LessEqual | BinaryOp::Greater | BinaryOp::GreaterEqual => {
            type_if(are_comparable(left, right), ValueType::Truth)
        }
        _ => type_if(is_word(left) && is_word(right), ValueType::Word),
    }
}

/// The type of an element of a name, by that of its index.
fn element_type(
    known: &Known<'_, ExprType>,
    name: &Name,
    index: Option<ValueType>,
) -> Option<ValueType>
    ensures { option_map value_type result ≡ (if has_elements (type_in known.now name.now)
        && is_index (option_map value_type index) then Some Jint else None) }
{
    type_if(
        has_elements(type_in(known, name)) && is_index(index),
        ValueType::Jint,
    )
}

/// The type of a name, where it is that of a value.
#[inline(never)]
fn value_type_in(known: &Known<'_, ExprType>, name: &Name) -> Option<ValueType>
    ensures { option_map value_type result ≡ of_value (type_in known.now name.now) }
{
    match type_in(known, name) {
        Some(ExprType::Word) => Some(ValueType::Word),
        Some(ExprType::Jint) => Some(ValueType::Jint),
        Some(ExprType::Flag) => Some(ValueType::Flag),
        Some(ExprType::Truth) => Some(ValueType::Truth),
        _ => None,
    }
}

/// The constant NULL itself.
pub(crate) fn is_null(e: ExprRef<'_>) -> bool
    ensures { result ≡ is_null (ref_tree e.entry) }
{
    matches!(e.shape(), Shape::Named(Constant::Null))
}

/// The type of a bare name.
pub(crate) fn name_type(known: &Known<'_, ExprType>, e: ExprRef<'_>) -> Option<ExprType>
    ensures { result ≡ name_type known.now (ref_tree e.entry) }
{
    match e.shape() {
        Shape::Variable(x) => type_in(known, x),
        _ => None,
    }
}

/// Whether an expression compares a bare name, which may be NULL, with NULL.
fn is_null_test(known: &Known<'_, ExprType>, e: ExprRef<'_>) -> bool
    ensures { result ≡ is_some (null_test_type known.now (null_tested (ref_tree e.entry))) }
{
    match e.null_test() {
        Some(test) => is_nullable(type_in(known, test.name)),
        None => false,
    }
}

/// The type of an expression, where it is that of a value.
fn value_type_of(known: &Known<'_, ExprType>, e: ExprRef<'_>) -> Option<ValueType>
    ensures { option_map value_type result ≡ of_value (type_of known.now (ref_tree e.entry)) }
{
    match e.shape() {
        Shape::Number { unsigned, .. } => Some(if unsigned {
            ValueType::Word
        } else {
            ValueType::Jint
        }),
        Shape::Named(c) => constant_type(c),
        Shape::Variable(x) => value_type_in(known, x),
        Shape::Element(x, i) => element_type(known, x, value_type_of(known, i)),
        Shape::Prefix(op, a) => prefix_type(op, value_type_of(known, a)),
        Shape::Binary(op, left, right) => {
            if is_null_test(known, e) {
                return Some(ValueType::Truth);
            }
            binary_type(op, value_type_of(known, left), value_type_of(known, right))
        }
        Shape::Paren(a) => value_type_of(known, a),
    }
}

/// The type of a name, which may be in parentheses.
fn bare_type(known: &Known<'_, ExprType>, e: ExprRef<'_>) -> Option<ExprType>
    ensures { result ≡ bare_type known.now (ref_tree e.entry) }
{
    match e.shape() {
        Shape::Variable(x) => type_in(known, x),
        Shape::Paren(a) => bare_type(known, a),
        _ => None,
    }
}

/// The type of an expression, if it has one.
pub(crate) fn type_of(known: &Known<'_, ExprType>, e: ExprRef<'_>) -> Option<ExprType>
    ensures { result ≡ type_of known.now (ref_tree e.entry) }
{
    match value_type_of(known, e) {
        Some(ty) => Some(ty.among_all()),
        None => bare_type(known, e),
    }
}

/// Whether an expression is a bare name or constant, or has a type.
pub(crate) fn is_formed(known: &Known<'_, ExprType>, e: ExprRef<'_>) -> bool
    ensures { result ≡ is_formed known.now (ref_tree e.entry) }
{
    match e.shape() {
        Shape::Named(_) | Shape::Variable(_) => true,
        _ => type_of(known, e).is_some(),
    }
}

/// Whether some name of an expression is not known.
pub(crate) fn has_unknown(known: &Known<'_, ExprType>, e: ExprRef<'_>) -> bool
    ensures { result ≡ expr_uses (is_unknown known.now) (ref_tree e.entry) }
{
    match e.shape() {
        Shape::Number { .. } | Shape::Named(_) => false,
        Shape::Variable(x) => is_unknown(known, x),
        Shape::Element(x, i) => is_unknown(known, x) || has_unknown(known, i),
        Shape::Prefix(_, a) | Shape::Paren(a) => has_unknown(known, a),
        Shape::Binary(_, a, b) => has_unknown(known, a) || has_unknown(known, b),
    }
}
