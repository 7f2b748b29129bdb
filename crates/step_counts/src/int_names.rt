//! The names of a function's variables of type `jint`.

ghost use Rattle.std.specs.Prelude.{◌≡◌, ℕ, [], ◌∷◌, filter_map, map, bytes_eq};
ghost use Rattle.std.specs.List.{list_any};
ghost use Rattle.syntax.specs.Parts.{statements_of, statements_within};
ghost use Rattle.syntax.specs.Tree.{Plain};
ghost use Rattle.syntax.specs.Views.{parameter_tree, plain_tree, stmt_tree, block_tree, function_tree};
ghost use Rattle.code_meaning.specs.Length.{int_parameter, int_declared, int_names};
ghost use Rattle.step_counts.specs.Names.{HasFewNames, with_names};

use arrayvec::ArrayVec;
use base::limits::MOST_NAMES;
use std::marker::Model;
use syntax::{
    Block, DeclaredType, Else, Form, Function, Name, Parameter, ParameterType, PlainStmt, Stmt,
    VariableType,
};

/// A name by its spelling.
#[derive(Clone, Copy)]
struct Spelled<'a> {
    bytes: &'a [u8],
}

impl<'a> Default for Spelled<'a> {
    fn default() -> Spelled<'a> {
        Spelled { bytes: b"" }
    }
}

/// The names of a function's variables of type `jint`: the first 256 of them, as an accepted function has no more. It never
/// allocates.
#[derive(Drop)]
pub(crate) struct IntNames<'a> {
    names: ArrayVec<Spelled<'a>, MOST_NAMES>,
}

impl<'a> Model for IntNames<'a> {
    ghost use Rattle.std.specs.Prelude.{List, map};
    ghost use Rattle.base.specs.Bytes.{Identifier};

    ghost Value = { List Identifier };

    ghost view = { λ n. map {B = Identifier} (λ name. name.bytes.now) n.names.items };
}

/// Whether one of the names is this one.
fn is_among(names: &[Spelled<'_>], name: &Name) -> bool
    ensures { result ≡ list_any (λ other. bytes_eq name.now other.bytes.now) names.now }
{
    names.iter().any(|other| name.as_bytes() == other.bytes)
}

impl<'a> IntNames<'a> {
    pub(crate) fn new() -> IntNames<'a>
        ensures { result ≡ [] }
    {
        IntNames {
            names: ArrayVec::new(),
        }
    }

    /// Those of a function, in place of those before: of its parameters and of its statements, in text order.
    pub(crate) fn enter(&mut self, function: &'a Function)
        requires { HasFewNames (function_tree function.now) }
        ensures { self.new ≡ int_names (function_tree function.now) }
    {
        self.names.clear();
        self.take_parameters(&function.parameters);
        self.take_block(&function.body);
    }

    /// Whether one of them is this one.
    #[tactic(auto, using(crate::proofs::FirstNames::any_spelled))]
    pub(crate) fn has(&self, name: &Name) -> bool
        ensures { result ≡ list_any (bytes_eq name.now) self.now }
    {
        is_among(self.names.as_slice(), name)
    }

    /// One name more, where there is room.
    #[tactic(auto, using(crate::proofs::FirstNames::with_room, crate::proofs::FirstNames::without_room))]
    fn take(&mut self, name: &'a Name)
        ensures { self.new ≡ with_names self.old (name.now ∷ []) }
    {
        if self.names.is_full() {
            return;
        }
        self.names.push(Spelled {
            bytes: name.as_bytes(),
        });
    }

    /// That of a parameter, where it is a `jint`.
    #[tactic(auto, using(crate::proofs::FirstNames::with_none))]
    fn take_parameter(&mut self, parameter: &'a Parameter)
        ensures { self.new ≡ with_names self.old (filter_map int_parameter (parameter_tree parameter.now ∷ [])) }
    {
        match parameter.kind {
            ParameterType::Jint => self.take(&parameter.name),
            ParameterType::Reference(_) => {}
        }
    }

    /// Those of parameters. It calls itself once for each.
    fn take_parameters(&mut self, parameters: &'a [Parameter])
        ensures { self.new ≡ with_names self.old (filter_map int_parameter (map parameter_tree parameters.now)) }
    {
        match parameters {
            [] => {}
            [parameter, parameters @ ..] => {
                self.take_parameter(parameter);
                self.take_parameters(parameters);
            }
        }
    }

    /// That of a variable of type `jint` that a plain statement declares.
    #[tactic(auto, using(crate::proofs::FirstNames::with_none))]
    fn take_declared(&mut self, plain: &'a PlainStmt)
        ensures { (line : ℕ) → self.new ≡ with_names self.old (filter_map int_declared (Plain line (plain_tree plain.now) ∷ [])) }
    {
        match plain {
            PlainStmt::Declare(
                DeclaredType::Simple(VariableType::Jint | VariableType::Jsize),
                name,
                _,
            ) => self.take(name),
            _ => {}
        }
    }

    /// Those that a statement declares, and the statements inside it.
    #[cycle(declared)]
    #[tactic(auto, using(crate::proofs::FirstNames::with_none, crate::proofs::FirstNames::with_both, crate::proofs::FirstNames::ints_both))]
    fn take_stmt(&mut self, stmt: &'a Stmt)
        ensures { self.new ≡ with_names self.old (filter_map int_declared (statements_within (stmt_tree stmt.now))) }
    {
        match &stmt.form {
            Form::Plain(plain) => self.take_declared(plain),
            Form::If(_, first, other) => {
                self.take_block(first);
                match other {
                    Else::Nothing => {}
                    Else::Block(second) => self.take_block(second),
                }
            }
            Form::While(_, body) => self.take_block(body),
            Form::Return(_) => {}
        }
    }

    /// Those that the statements of a block declare.
    #[cycle(declared)]
    #[tactic(auto, using(crate::proofs::FirstNames::with_none, crate::proofs::FirstNames::with_both, crate::proofs::FirstNames::ints_both))]
    fn take_block(&mut self, block: &'a Block)
        ensures { self.new ≡ with_names self.old (filter_map int_declared (statements_of (block_tree block.now))) }
    {
        for stmt in &block.statements {
            self.take_stmt(stmt);
        }
    }
}
