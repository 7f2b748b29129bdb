//! Statements that are still to do.

ghost use Rattle.std.specs.Prelude.{◌≡◌, [], ◌∷◌, drop, IfSome, IfNone};
ghost use Rattle.replay_tasks.specs.Tasks.{statements_in};

use std::marker::Model;
use syntax::{Block, Stmt};

/// Statements that are still to do, in their order: contracts see the list of them.
#[derive(Drop)]
pub struct Statements<'a> {
    left: &'a [Stmt],
}

impl<'a> Model for Statements<'a> {
    ghost use Rattle.std.specs.Prelude.{List};
    ghost use Rattle.std.specs.Coded.{codes as all_codes};
    ghost use Rattle.syntax.specs.declared.stmt.Stmt.{Stmt};
    ghost use Rattle.syntax.specs.contracts.stmt.Stmt as statement;

    ghost Value = { List Stmt };

    ghost coded = { Prim.hlevel (all_codes, statement.the_row.coded) };

    ghost view = { λ s. s.left.now };
}

impl<'a> Statements<'a> {
    /// Those of a block; none where an `else` is missing.
    pub fn of(block: Option<&'a Block>) -> Statements<'a>
        ensures { result ≡ statements_in block.entry }
    {
        match block {
            Some(block) => Statements {
                left: &block.statements,
            },
            None => Statements { left: &[] },
        }
    }

    /// The first of them.
    pub fn first(&self) -> Option<&'a Stmt>
        ensures some { IfSome result (λ s. self.now ≡ s.now ∷ drop 1 self.now) }
        ensures none { IfNone result (self.now ≡ []) }
    {
        self.left.first()
    }

    /// Leaves out the first of them, if there is one.
    pub fn skip_first(&mut self)
        ensures { self.new ≡ drop 1 self.old }
    {
        if let Some((_, after)) = self.left.split_first() {
            self.left = after;
        }
    }
}
