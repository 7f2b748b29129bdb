//! The call of a statement.

ghost use Rattle.std.specs.Prelude.{◌≡◌, ℕ};
ghost use Rattle.std.specs.Option.{option_map};
ghost use Rattle.syntax.specs.Parts.{own_call};
ghost use Rattle.syntax.specs.Tree.{Plain};
ghost use Rattle.syntax.specs.Views.{call_tree, form_tree, plain_tree};

use crate::call::{Call, RightSide, Test};
use crate::stmt::{Form, PlainStmt};

impl PlainStmt {
    /// The call that it makes.
    pub fn own_call(&self) -> Option<&Call>
        ensures { (line : ℕ) → option_map (λ c. call_tree c.now) result ≡ own_call (Plain line (plain_tree self.now)) }
    {
        match self {
            PlainStmt::Declare(_, _, RightSide::Call(c)) => Some(c),
            PlainStmt::Assign(_, RightSide::Call(c)) => Some(c),
            PlainStmt::Perform(c) => Some(c),
            _ => None,
        }
    }
}

impl Form {
    /// The call that it makes, its blocks aside.
    pub fn own_call(&self) -> Option<&Call>
        ensures { (line : ℕ) → option_map (λ c. call_tree c.now) result ≡ own_call (form_tree line self.now) }
    {
        match self {
            Form::Plain(plain) => plain.own_call(),
            Form::If(Test::Call(c), _, _) => Some(c),
            _ => None,
        }
    }
}
