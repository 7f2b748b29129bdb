//! Nodes of expressions.

use crate::expr::{BinaryOp, Constant, PrefixOp};
use crate::name::Name;

/// A node of an expression: a number, a constant, a name, an operator or parentheses. What is inside it isn't in it.
#[derive(Drop)]
pub(crate) enum Node {
    /// A number, and whether it ends in `u`.
    Number { value: u32, unsigned: bool },
    /// A named constant.
    Named(Constant),
    /// A name.
    Variable(Name),
    /// An element of a named array or buffer, `x[e]`.
    Element(Name),
    Prefix(PrefixOp),
    /// An operator between two operands, and how many nodes the right one has.
    Binary { op: BinaryOp, right: usize },
    /// Parentheses, which are kept.
    Paren,
}

/// Where the nodes of an expression lie. One alone takes no memory of its own.
#[derive(Drop)]
pub(crate) enum Held {
    One(Node),
    Many(Vec<Node>),
}
