//! Calls of JNI functions.

use crate::expr::Expr;
use crate::name::Name;

/// A call of a JNI function, `(*env)->function(env, arguments)` (JNI Specification, chapter 2, "Interface Function Table").
#[derive(Drop)]
pub struct Call {
    pub function: Name,
    /// The arguments after `env`.
    pub arguments: Vec<Argument>,
}

/// An argument of a call.
#[derive(Drop)]
pub enum Argument {
    Value(Expr),
    /// A string: the bytes between its quotes.
    Text(Vec<u8>),
    /// `&x`
    AddressOf(Name),
}

/// What a variable is set to.
#[derive(Drop)]
pub enum RightSide {
    Expr(Expr),
    Call(Call),
}

/// What an `if` tests.
#[derive(Drop)]
pub enum Test {
    Expr(Expr),
    /// Whether the call's result is 0.
    Call(Call),
}
