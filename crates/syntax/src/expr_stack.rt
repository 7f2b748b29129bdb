//! Expressions that are being read: a stack, from which operators take their operands.

ghost use Rattle.syntax.specs.Nodes.{AreWhole};

use crate::expr::{BinaryOp, Constant, Expr, PrefixOp};
use crate::name::Name;
use crate::node::{Held, Node};
use std::alloc::{AllocError, Global};

/// Expressions, the last first. Their nodes lie one after another, so a node that is added takes no memory of its own.
#[derive(Drop)]
pub struct ExprStack {
    alloc: Global,
    nodes: Vec<Node>,
    ghost whole: { ∥ AreWhole nodes.items ∥₁ },
}

impl ExprStack {
    ghost use Rattle.std.specs.Prelude.{◌≡◌, ◌≤◌, ◌<◌, [], ◌∷◌, length, IfOk, OnOk};
    ghost use Rattle.std.specs.List.{sum_by};
    ghost use Rattle.syntax.specs.Nodes.{size, top, before_top, on_top, on_two, onto, HasOperands};
    ghost use Rattle.syntax.specs.Stacks.{stacked};
    ghost use Rattle.syntax.specs.Tree.{Number, Named, Variable, Element, Prefix, Binary, Paren};
    ghost use Rattle.syntax.specs.Views.{expr_tree};

    /// One with no expression.
    pub fn new(alloc: Global) -> ExprStack
        ensures { stacked result ≡ [] }
    {
        ExprStack {
            alloc,
            nodes: Vec::new(alloc),
        }
    }

    /// Where memory for names is taken from.
    pub fn alloc(&self) -> Global {
        self.alloc
    }

    /// How many nodes the expressions have.
    pub fn len(&self) -> usize
        ensures { result ≡ sum_by size (stacked self.now) }
    {
        self.nodes.len()
    }

    /// Adds a node after its operands.
    #[inline(always)]
    fn add(&mut self, node: Node) -> Result<(), AllocError>
        requires { HasOperands (stacked self.old) node }
        ensures { OnOk result (stacked self.new ≡ onto (stacked self.old) node) }
    {
        self.nodes.push(node)?;
        Ok(())
    }

    /// Adds a number, and whether it ends in `u`.
    pub fn number(&mut self, value: u32, unsigned: bool) -> Result<(), AllocError>
        ensures { OnOk result (stacked self.new ≡ Number value unsigned ∷ stacked self.old) }
    {
        self.add(Node::Number { value, unsigned })
    }

    /// Adds a named constant.
    pub fn named(&mut self, constant: Constant) -> Result<(), AllocError>
        ensures { OnOk result (stacked self.new ≡ Named constant ∷ stacked self.old) }
    {
        self.add(Node::Named(constant))
    }

    /// Adds a name.
    pub fn variable(&mut self, name: Name) -> Result<(), AllocError>
        ensures { OnOk result (stacked self.new ≡ Variable name ∷ stacked self.old) }
    {
        self.add(Node::Variable(name))
    }

    /// Makes the last expression the index of an element of this name.
    pub fn element(&mut self, name: Name) -> Result<(), AllocError>
        requires { 1 ≤ length (stacked self.old) }
        ensures { OnOk result (stacked self.new ≡ on_top (Element name) (stacked self.old)) }
    {
        self.add(Node::Element(name))
    }

    /// Puts an operator, or a cast, in front of the last expression.
    pub fn prefix(&mut self, op: PrefixOp) -> Result<(), AllocError>
        requires { 1 ≤ length (stacked self.old) }
        ensures { OnOk result (stacked self.new ≡ on_top (Prefix op) (stacked self.old)) }
    {
        self.add(Node::Prefix(op))
    }

    /// Puts the last expression in parentheses.
    pub fn paren(&mut self) -> Result<(), AllocError>
        requires { 1 ≤ length (stacked self.old) }
        ensures { OnOk result (stacked self.new ≡ on_top Paren (stacked self.old)) }
    {
        self.add(Node::Paren)
    }

    /// Puts an operator between the last two expressions, of which the last begins with this node.
    pub fn binary(&mut self, op: BinaryOp, start: usize) -> Result<(), AllocError>
        requires two { 2 ≤ length (stacked self.old) }
        requires start { start ≡ sum_by size (before_top (stacked self.old)) }
        ensures { OnOk result (stacked self.new ≡ on_two (Binary op) (stacked self.old)) }
    {
        let right = self.nodes.len() - start;
        self.add(Node::Binary { op, right })
    }

    /// Takes the last expression, which begins with this node.
    pub fn take(&mut self, start: usize) -> Result<Expr, AllocError>
        requires some { 1 ≤ length (stacked self.old) }
        requires start { start ≡ sum_by size (before_top (stacked self.old)) }
        ensures expr { IfOk result (λ e. expr_tree e ≡ top (stacked self.old)) }
        ensures rest { OnOk result (stacked self.new ≡ before_top (stacked self.old)) }
    {
        if self.nodes.len() - start > 1 {
            let nodes = self.nodes.split_off(start)?;
            return Ok(Expr {
                held: Held::Many(nodes),
            });
        }
        match self.nodes.pop() {
            Some(node) => Ok(Expr {
                held: Held::One(node),
            }),
            None => unreachable!(),
        }
    }
}
