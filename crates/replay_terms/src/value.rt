//! What the operators make of values.

ghost use Rattle.std.specs.Prelude.{◌≡◌, ◌<◌};
ghost use Rattle.syntax.specs.Limits.{number_limit};
ghost use Rattle.semantics.specs.Term.{literal, constant};
ghost use Rattle.semantics.specs.declared.value.Value.TheVariants.{Word, Int, Flag, Truth};
ghost use Rattle.semantics.specs.Value.{Gives, convert, prefix_value, binary_value};
ghost use Rattle.replay_terms.specs.Views.{evaluated_view};

use semantics::{Trap, Value};
use syntax::{BinaryOp, Constant, ElementType, PrefixOp};

/// What evaluating an expression gives.
#[derive(Clone, Copy)]
pub enum Evaluated {
    Gives(Value),
    Traps(Trap),
    /// The parts don't fit, as in no accepted program.
    Stuck,
}

/// The value of a number.
pub(crate) fn literal(value: u32, unsigned: bool) -> Value
    requires { value < number_limit unsigned }
    ensures { result ≡ literal value unsigned }
{
    if unsigned {
        Value::Word(value)
    } else {
        Value::Int(value as i32)
    }
}

/// The value of a named constant; NULL has none.
pub fn constant(c: Constant) -> Evaluated
    ensures { evaluated_view result ≡ constant c }
{
    match c {
        Constant::True => Evaluated::Gives(Value::Flag(true)),
        Constant::False => Evaluated::Gives(Value::Flag(false)),
        Constant::Commit => Evaluated::Gives(Value::Int(1)),
        Constant::Abort => Evaluated::Gives(Value::Int(2)),
        Constant::Null => Evaluated::Stuck,
    }
}

/// What is left of a number in an element type.
pub fn convert(kind: ElementType, number: i32) -> i32
    ensures { result ≡ convert kind number }
{
    let word = number.cast_unsigned();
    match kind {
        ElementType::Int => number,
        ElementType::Short => i32::from(((word % 65_536) as u16).cast_signed()),
        ElementType::Byte => i32::from(((word % 256) as u8).cast_signed()),
        ElementType::Char => (word % 65_536) as i32,
    }
}

/// What a prefix makes of a value.
pub(crate) fn prefix_value(op: PrefixOp, v: Value) -> Evaluated
    ensures { evaluated_view result ≡ prefix_value op v }
{
    match (op, v) {
        (PrefixOp::LogicalNot, Value::Truth(b)) => Evaluated::Gives(Value::Truth(!b)),
        (PrefixOp::Complement, Value::Word(n)) => Evaluated::Gives(Value::Word(u32::MAX - n)),
        (PrefixOp::ToWord, Value::Word(n)) => Evaluated::Gives(Value::Word(n)),
        (PrefixOp::ToWord, Value::Int(z)) => Evaluated::Gives(Value::Word(z.cast_unsigned())),
        (PrefixOp::ToWord, Value::Flag(b)) => Evaluated::Gives(Value::Word(u32::from(b))),
        (PrefixOp::ToInt, Value::Word(n)) => Evaluated::Gives(Value::Int(n.cast_signed())),
        (PrefixOp::ToInt, Value::Int(z)) => Evaluated::Gives(Value::Int(z)),
        (PrefixOp::ToInt, Value::Flag(b)) => Evaluated::Gives(Value::Int(i32::from(b))),
        (PrefixOp::LogicalNot, Value::Word(_) | Value::Int(_) | Value::Flag(_)) => Evaluated::Stuck,
        (PrefixOp::Complement, Value::Int(_) | Value::Flag(_) | Value::Truth(_)) =>
            Evaluated::Stuck,
        (PrefixOp::ToWord | PrefixOp::ToInt, Value::Truth(_)) => Evaluated::Stuck,
    }
}

/// A word, as a value.
fn word(n: u32) -> Evaluated
    ensures { evaluated_view result ≡ Gives (Word n) }
{
    Evaluated::Gives(Value::Word(n))
}

/// A truth, as a value.
pub(crate) fn truth(b: bool) -> Evaluated
    ensures { evaluated_view result ≡ Gives (Truth b) }
{
    Evaluated::Gives(Value::Truth(b))
}

/// What an operator makes of two words.
fn word_value(op: BinaryOp, a: u32, b: u32) -> Evaluated
    ensures { evaluated_view result ≡ binary_value op (Word a) (Word b) }
{
    match op {
        BinaryOp::BitOr => word(a | b),
        BinaryOp::BitXor => word(a ^ b),
        BinaryOp::BitAnd => word(a & b),
        BinaryOp::Equal => truth(a == b),
        BinaryOp::NotEqual => truth(a != b),
        BinaryOp::Less => truth(a < b),
        BinaryOp::LessEqual => truth(a <= b),
        BinaryOp::Greater => truth(a > b),
        BinaryOp::GreaterEqual => truth(a >= b),
        BinaryOp::ShiftLeft if b < 32 => word(a << b),
        BinaryOp::ShiftRight if b < 32 => word(a >> b),
        BinaryOp::ShiftLeft | BinaryOp::ShiftRight => Evaluated::Traps(Trap::ShiftTooFar),
        BinaryOp::Add => word(a.wrapping_add(b)),
        BinaryOp::Subtract => word(a.wrapping_sub(b)),
        BinaryOp::Multiply => word(a.wrapping_mul(b)),
        BinaryOp::Divide if b == 0 => Evaluated::Traps(Trap::DivisionByZero),
        BinaryOp::Divide => word(a / b),
        BinaryOp::Remainder if b == 0 => Evaluated::Traps(Trap::DivisionByZero),
        BinaryOp::Remainder => word(a % b),
        BinaryOp::LogicalOr | BinaryOp::LogicalAnd => Evaluated::Stuck,
    }
}

/// What an operator makes of two numbers of type `jint`, which are only compared.
fn int_value(op: BinaryOp, a: i32, b: i32) -> Evaluated
    ensures { evaluated_view result ≡ binary_value op (Int a) (Int b) }
{
    match op {
        BinaryOp::Equal => truth(a == b),
        BinaryOp::NotEqual => truth(a != b),
        BinaryOp::Less => truth(a < b),
        BinaryOp::LessEqual => truth(a <= b),
        BinaryOp::Greater => truth(a > b),
        BinaryOp::GreaterEqual => truth(a >= b),
        BinaryOp::LogicalOr | BinaryOp::LogicalAnd => Evaluated::Stuck,
        BinaryOp::BitOr | BinaryOp::BitXor | BinaryOp::BitAnd => Evaluated::Stuck,
        BinaryOp::ShiftLeft | BinaryOp::ShiftRight => Evaluated::Stuck,
        BinaryOp::Add | BinaryOp::Subtract | BinaryOp::Multiply => Evaluated::Stuck,
        BinaryOp::Divide | BinaryOp::Remainder => Evaluated::Stuck,
    }
}

/// What an operator makes of two values of type `jboolean`.
fn flag_value(op: BinaryOp, a: bool, b: bool) -> Evaluated
    ensures { evaluated_view result ≡ binary_value op (Flag a) (Flag b) }
{
    match op {
        BinaryOp::Equal => truth(a == b),
        BinaryOp::NotEqual => truth(a != b),
        BinaryOp::LogicalOr | BinaryOp::LogicalAnd => Evaluated::Stuck,
        BinaryOp::BitOr | BinaryOp::BitXor | BinaryOp::BitAnd => Evaluated::Stuck,
        BinaryOp::Less | BinaryOp::LessEqual => Evaluated::Stuck,
        BinaryOp::Greater | BinaryOp::GreaterEqual => Evaluated::Stuck,
        BinaryOp::ShiftLeft | BinaryOp::ShiftRight => Evaluated::Stuck,
        BinaryOp::Add | BinaryOp::Subtract | BinaryOp::Multiply => Evaluated::Stuck,
        BinaryOp::Divide | BinaryOp::Remainder => Evaluated::Stuck,
    }
}

/// What an operator, other than `&&` and `||`, makes of two values.
pub(crate) fn binary_value(op: BinaryOp, a: Value, b: Value) -> Evaluated
    ensures { evaluated_view result ≡ binary_value op a b }
{
    match a {
        Value::Word(a) => match b {
            Value::Word(b) => word_value(op, a, b),
            Value::Int(_) | Value::Flag(_) | Value::Truth(_) => Evaluated::Stuck,
        },
        Value::Int(a) => match b {
            Value::Int(b) => int_value(op, a, b),
            Value::Word(_) | Value::Flag(_) | Value::Truth(_) => Evaluated::Stuck,
        },
        Value::Flag(a) => match b {
            Value::Flag(b) => flag_value(op, a, b),
            Value::Word(_) | Value::Int(_) | Value::Truth(_) => Evaluated::Stuck,
        },
        Value::Truth(_) => Evaluated::Stuck,
    }
}
