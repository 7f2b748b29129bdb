//! The names that are taken in a function.

ghost use Rattle.std.specs.Prelude.{◌≡◌, [], ◌∷◌, ◌++◌, OnOk, IfOk};
ghost use Rattle.type_rules.specs.TypeRules.{has_name, has_repeated};

use std::alloc::{AllocError, Global};
use std::marker::Model;
use syntax::Name;
use type_rules::Known;

/// The names that are taken, in their order. Whether a name is one of them is found in constant time.
#[derive(Drop)]
pub(crate) struct Taken<'n> {
    /// Contracts see the latest first.
    names: Known<'n, ()>,
    /// How many are taken where the function begins; contracts don't see it.
    entered: usize,
    /// How many of these the function is given: its class and its parameters.
    given: usize,
}

impl<'n> Model for Taken<'n> {
    ghost use Rattle.std.specs.Prelude.{List, map, reverse};
    ghost use Rattle.base.specs.Bytes.{Identifier};

    ghost Value = { List Identifier };

    ghost view = { λ t. reverse (map (λ k. k.0) t.names) };
}

impl<'n> Taken<'n> {
    /// None is taken, in a function that is given this many names.
    pub(crate) fn new(alloc: Global, given: usize) -> Taken<'n>
        ensures { result ≡ [] }
    {
        Taken {
            names: Known::new(alloc),
            entered: 0,
            given,
        }
    }

    /// How many names were taken where the function began.
    pub(crate) fn entered(&self) -> usize {
        self.entered
    }

    /// How many of these the function is given: its class and its parameters.
    pub(crate) fn given(&self) -> usize {
        self.given
    }

    /// These names are taken, where none was. Answers whether two of them are spelled alike.
    pub(crate) fn enter(&mut self, names: &'n [Name]) -> Result<bool, AllocError>
        requires { self.old ≡ [] }
        ensures taken { OnOk result (self.new ≡ names.now) }
        ensures repeated { IfOk result (λ repeated. repeated ≡ has_repeated names.now) }
    {
        self.entered = names.len();
        let mut repeated = false;
        for name in names {
            repeated |= self.has(name);
            self.add(name)?;
        }
        Ok(repeated)
    }

    /// Whether a name is taken.
    pub(crate) fn has(&self, name: &Name) -> bool
        ensures { result ≡ has_name self.now name.now }
    {
        self.names.get(name).is_some()
    }

    /// One name more is taken.
    pub(crate) fn add(&mut self, name: &'n Name) -> Result<(), AllocError>
        ensures { OnOk result (self.new ≡ self.old ++ name.now ∷ []) }
    {
        self.names.declare(name, ())
    }
}
