//! An expression as the passes see it: one level at a time, with what is inside it at hand.

ghost use Rattle.syntax.specs.Nodes.{IsWhole};

use crate::expr::{BinaryOp, Constant, Expr, PrefixOp};
use crate::name::Name;
use crate::node::{Held, Node};
use std::slice;

/// A part of an expression, or all of it. It is passed by value.
#[derive(Clone, Copy)]
pub struct ExprRef<'a> {
    /// Its nodes in postfix order, the top one last.
    nodes: &'a [Node],
    ghost whole: { ∥ IsWhole nodes.now ∥₁ },
}

/// What an expression is at its top, with what is inside it.
#[derive(Clone, Copy)]
pub enum Shape<'a> {
    /// A number, and whether it ends in `u`.
    Number { value: u32, unsigned: bool },
    /// A named constant.
    Named(Constant),
    /// A name.
    Variable(&'a Name),
    /// An element of a named array or buffer, by its index.
    Element(&'a Name, ExprRef<'a>),
    /// An operator in front of its operand, or a cast.
    Prefix(PrefixOp, ExprRef<'a>),
    /// An operator between two operands.
    Binary(BinaryOp, ExprRef<'a>, ExprRef<'a>),
    /// Parentheses.
    Paren(ExprRef<'a>),
}

impl Expr {
    ghost use Rattle.std.specs.Prelude.{◌≡◌};
    ghost use Rattle.syntax.specs.Shapes.{ref_tree};
    ghost use Rattle.syntax.specs.Views.{expr_tree};

    /// All of it, to be looked at.
    #[inline(always)]
    #[tactic(auto, unfolding(crate::specs::Shapes::ref_tree, crate::specs::Views::expr_tree))]
    pub fn whole(&self) -> ExprRef<'_>
        ensures { ref_tree result ≡ expr_tree self.now }
    {
        match &self.held {
            Held::One(node) => ExprRef {
                nodes: slice::from_ref(node),
            },
            Held::Many(nodes) => ExprRef { nodes },
        }
    }
}

impl<'a> ExprRef<'a> {
    ghost use Rattle.std.specs.Prelude.{◌≡◌};
    ghost use Rattle.syntax.specs.Nodes.{size};
    ghost use Rattle.syntax.specs.Shapes.{ref_tree, shape_tree, PartsBelow};

    /// What it is at its top.
    #[inline(always)]
    #[tactic(auto, unfolding(crate::specs::Shapes::ref_tree, crate::specs::Nodes::size))]
    pub fn shape(self) -> Shape<'a>
        ensures tree { shape_tree result ≡ ref_tree self.entry }
        ensures below { PartsBelow (size (ref_tree self.entry)) result }
    {
        let (before, top) = self.nodes.split_at(self.nodes.len() - 1);
        match &top[0] {
            Node::Number { value, unsigned } => Shape::Number {
                value: *value,
                unsigned: *unsigned,
            },
            Node::Named(constant) => Shape::Named(*constant),
            Node::Variable(name) => Shape::Variable(name),
            Node::Element(name) => Shape::Element(name, ExprRef { nodes: before }),
            Node::Prefix(op) => Shape::Prefix(*op, ExprRef { nodes: before }),
            Node::Binary { op, right } => {
                let (left, right) = before.split_at(before.len() - *right);
                Shape::Binary(*op, ExprRef { nodes: left }, ExprRef { nodes: right })
            }
            Node::Paren => Shape::Paren(ExprRef { nodes: before }),
        }
    }
}
