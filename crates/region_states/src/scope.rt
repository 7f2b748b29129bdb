//! The names of the references and buffers in scope.

ghost use Rattle.std.specs.Prelude.{◌≡◌, false, ◌++◌, ◌∷◌, [], bytes_eq, length, position, take, OnOk, OnErr};
ghost use Rattle.std.specs.List.{IsDistinct, list_any};

use indexmap::IndexSet;
use std::alloc::{AllocError, Global};
use std::marker::Model;

/// Names in the order of their declarations, no two of them alike. A name's number, its place in this order, is found
/// in constant time.
pub struct Names<'a> {
    places: IndexSet<&'a [u8]>,
}

impl Drop for Names<'_> {
    fn drop(self) {
        let Names { places } = self;
        drop(places);
    }
}

impl<'a> Model for Names<'a> {
    ghost use Rattle.std.specs.Prelude.{List, map, bytes_eq};
    ghost use Rattle.std.specs.List.{IsDistinct};
    ghost use Rattle.base.specs.Bytes.{Identifier};

    ghost Value = { List Identifier };

    ghost view = { λ n. map (λ x. x.now) n.places.keys };

    ghost invariant = { λ n. IsDistinct bytes_eq (map (λ x. x.now) n.places.keys) };
}

impl<'a> Names<'a> {
    pub fn new(alloc: Global) -> Names<'a>
        ensures empty { result ≡ [] }
        ensures distinct { IsDistinct bytes_eq result }
    {
        Names {
            places: IndexSet::new(alloc),
        }
    }

    /// How many names there are.
    pub fn len(&self) -> usize
        ensures { result ≡ length self.now }
    {
        self.places.len()
    }

    /// A name's number.
    pub fn number_of(&self, name: &[u8]) -> Option<usize>
        ensures { result ≡ position (bytes_eq name.now) self.now }
    {
        self.places.get_index_of(name)
    }

    /// The name of a number.
    pub fn name_of(&self, number: usize) -> Option<&'a [u8]> {
        self.places.get_index(number).copied()
    }

    /// Puts a name after the others, of which none is the same.
    pub fn add(&mut self, name: &'a [u8]) -> Result<(), AllocError>
        requires { list_any (bytes_eq name.now) self.old ≡ false }
        ensures ok { OnOk result (self.new ≡ self.old ++ name.now ∷ []) }
        ensures err { OnErr result (self.new ≡ self.old) }
        ensures distinct { IsDistinct bytes_eq self.new }
    {
        self.places.insert(name)?;
        Ok(())
    }

    /// Takes back the names after the first `count`.
    pub fn truncate(&mut self, count: usize)
        ensures first { self.new ≡ take count self.old }
        ensures distinct { IsDistinct bytes_eq self.new }
    {
        self.places.truncate(count);
    }
}
