//! Expressions.

ghost use Rattle.syntax.specs.Nodes.{IsWhole, held_nodes};

use crate::node::Held;

/// An expression (ISO/IEC 9899:1999, 6.5): its nodes in postfix order, each after its operands.
#[derive(Drop)]
pub struct Expr {
    pub(crate) held: Held,
    ghost whole: { ∥ IsWhole (held_nodes held) ∥₁ },
}

/// A constant with a name (JNI Specification, chapters 3 and 4; ISO/IEC 9899:1999, 7.17).
#[derive(Clone, Copy)]
pub enum Constant {
    /// `JNI_TRUE`
    True,
    /// `JNI_FALSE`
    False,
    /// `JNI_COMMIT`
    Commit,
    /// `JNI_ABORT`
    Abort,
    /// `NULL`
    Null,
}

/// An operator in front of its operand, or a cast.
#[derive(Clone, Copy)]
pub enum PrefixOp {
    /// `!`
    LogicalNot,
    /// `~`
    Complement,
    /// `(uint32_t)`
    ToWord,
    /// `(jint)`
    ToInt,
}

/// An operator between two operands.
#[derive(Clone, Copy)]
pub enum BinaryOp {
    /// `||`
    LogicalOr,
    /// `&&`
    LogicalAnd,
    /// `|`
    BitOr,
    /// `^`
    BitXor,
    /// `&`
    BitAnd,
    /// `==`
    Equal,
    /// `!=`
    NotEqual,
    /// `<`
    Less,
    /// `<=`
    LessEqual,
    /// `>`
    Greater,
    /// `>=`
    GreaterEqual,
    /// `<<`
    ShiftLeft,
    /// `>>`
    ShiftRight,
    /// `+`
    Add,
    /// `-`
    Subtract,
    /// `*`
    Multiply,
    /// `/`
    Divide,
    /// `%`
    Remainder,
}
