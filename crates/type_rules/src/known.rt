//! Names that are declared one after another, each with what it is.

ghost use Rattle.std.specs.Prelude.{◌≡◌, ◌-◌, [], ◌∷◌, length, drop, map, IfOk, OnOk};
ghost use Rattle.base.specs.Bytes.{lookup};

use std::alloc::{AllocError, Global};
use std::collections::HashMap;
use std::marker::Model;
use syntax::Name;

/// A name with what it is, and what it was before.
#[derive(Clone, Copy)]
pub(crate) struct Declared<'a, T: Copy> {
    pub name: &'a Name,
    pub value: T,
    pub hidden: Option<T>,
}

/// The names that are known, each with what it is: contracts see the latest first. A name is found in constant time.
#[derive(Drop)]
pub struct Known<'a, T: Copy> {
    /// The latest last.
    declared: Vec<Declared<'a, T>>,
    /// What each name is by its latest declaration.
    latest: HashMap<&'a [u8], T>,
}

impl<'a, T: Copy> Model for Known<'a, T> {
    ghost use Rattle.std.specs.Prelude.{[]};
    ghost use Rattle.base.specs.Bytes.{ByName};
    ghost use Rattle.type_rules.specs.Declarations.{known_after, IsIndexed};

    ghost Value = { ByName T };

    ghost view = { λ k. known_after k.declared.items [] };

    ghost invariant = { λ k. IsIndexed k.declared.items k.latest };
}

impl<'a, T: Copy> Known<'a, T> {
    pub fn new(alloc: Global) -> Known<'a, T>
        ensures { result ≡ [] }
    {
        Known {
            declared: Vec::new(alloc),
            latest: HashMap::new(alloc),
        }
    }

    pub fn len(&self) -> usize
        ensures { result ≡ length self.now }
    {
        self.declared.len()
    }

    /// What a name is by its latest declaration.
    pub fn get(&self, name: &Name) -> Option<T>
        ensures { result ≡ lookup name.now self.now }
    {
        self.latest.get(name.as_bytes()).copied()
    }

    /// Copies of the names, the latest first.
    pub fn names(&self, alloc: Global) -> Result<Vec<Name>, AllocError>
        ensures { IfOk result (λ names. names.items ≡ map (λ k. k.0) self.now) }
    {
        let mut names = Vec::new(alloc);
        for d in &self.declared {
            names.push(Name::new(alloc, d.name.as_bytes())?)?;
        }
        names.reverse();
        Ok(names)
    }

    /// Declares a name, which hides an earlier one of the same spelling.
    pub fn declare(&mut self, name: &'a Name, value: T) -> Result<(), AllocError>
        ensures { OnOk result (self.new ≡ (name.now, value) ∷ self.old) }
    {
        self.declared.reserve(1)?;
        match self.latest.insert(name.as_bytes(), value) {
            Ok(hidden) => {
                self.declared.push_reserved(Declared {
                    name,
                    value,
                    hidden,
                });
                Ok(())
            }
            Err(_) => Err(AllocError),
        }
    }

    /// Forgets the latest names, so that this many are left. One that they hid is found again.
    pub fn leave(&mut self, count: usize)
        ensures { self.new ≡ drop (length self.old - count) self.old }
    {
        while self.len() > count {
            self.forget();
        }
    }

    /// Forgets the latest name.
    fn forget(&mut self)
        ensures { self.new ≡ drop 1 self.old }
    {
        let Some(latest) = self.declared.pop() else {
            return;
        };
        let name = latest.name.as_bytes();
        match latest.hidden {
            Some(hidden) => {
                if let Some(value) = self.latest.get_mut(name) {
                    *value = hidden;
                }
            }
            None => {
                let _ = self.latest.remove(name);
            }
        }
    }
}
