//! How many held buffers each array or string has.

ghost use Rattle.std.specs.Prelude.{◌≡◌, ◌+◌, ◌<◌, ◌≤◌, ◌^◌, [], map, length, OnOk, OnErr, IfOk};
ghost use Rattle.base.specs.Bytes.{Identifier};
ghost use Rattle.region_states.specs.StatesInMemory.{variable_state, one_of, holders, count_of, HasOneMore, CountsMore, IsCounted};

use crate::states::VariableState;
use indexmap::IndexMap;
use std::alloc::{AllocError, Global};
use std::marker::Model;

/// How many held buffers each array or string variable has, by its name. The number of a name is found, and changed, in
/// constant time.
pub struct Holders<'a> {
    counts: IndexMap<&'a [u8], usize>,
}

impl Drop for Holders<'_> {
    fn drop(self) {
        let Holders { counts } = self;
        drop(counts);
    }
}

impl<'a> Model for Holders<'a> {
    ghost use Rattle.std.specs.Prelude.{ℕ, map};
    ghost use Rattle.base.specs.Bytes.{ByName};

    ghost Value = { ByName ℕ };

    ghost view = { λ h. map (λ e. (e.0.now, e.1)) h.counts.entries };
}

impl<'a> Holders<'a> {
    pub fn new(alloc: Global) -> Holders<'a>
        ensures { result ≡ [] }
    {
        Holders {
            counts: IndexMap::new(alloc),
        }
    }

    /// None is held any more.
    pub fn clear(&mut self)
        ensures { self.new ≡ [] }
    {
        self.counts.clear();
    }

    /// How many held buffers a variable has.
    pub fn count(&self, name: &[u8]) -> usize
        ensures { result ≡ count_of self.now name.now }
    {
        match self.counts.get(name) {
            Some(count) => *count,
            None => 0,
        }
    }

    /// One more.
    fn add(&mut self, name: &'a [u8]) -> Result<(), AllocError>
        requires { count_of self.old name.now < 2 ^ 63 }
        ensures ok { OnOk result (HasOneMore name.now self.old self.new) }
        ensures err { OnErr result (self.new ≡ self.old) }
    {
        let count = self.count(name);
        self.counts.insert(name, count + 1)?;
        Ok(())
    }

    /// One less.
    fn remove(&mut self, name: &'a [u8])
        requires { 0 < count_of self.old name.now }
        ensures { HasOneMore name.now self.new self.old }
    {
        let count = self.count(name);
        match self.counts.insert(name, count - 1) {
            Ok(_) => {}
            // The name has a count.
            Err(_) => unreachable!(),
        }
    }

    /// One held buffer more, where this is known of one.
    pub fn note(&mut self, known: VariableState<'a>) -> Result<(), AllocError>
        requires { (x : Identifier) → count_of self.old x < 2 ^ 63 }
        ensures ok { OnOk result (CountsMore (variable_state known.entry) self.old self.new) }
        ensures err { OnErr result (self.new ≡ self.old) }
    {
        match known.held() {
            Some((_, array)) => self.add(array),
            None => Ok(()),
        }
    }

    /// One held buffer less, where this was known of one.
    pub fn forget(&mut self, known: VariableState<'a>)
        requires { (x : Identifier) → one_of x (variable_state known) ≤ count_of self.old x }
        ensures { CountsMore (variable_state known.entry) self.new self.old }
    {
        match known.held() {
            Some((_, array)) => self.remove(array),
            None => {}
        }
    }

    /// One held buffer less for each of these that is known of one.
    pub fn forget_all(&mut self, variables: &[VariableState<'a>])
        requires { (x : Identifier) → holders x (map variable_state variables.now) ≤ count_of self.old x }
        ensures { (x : Identifier) → count_of self.old x
            ≡ holders x (map variable_state variables.now) + count_of self.new x }
    {
        for v in variables {
            self.forget(*v);
        }
    }

    /// The held buffers among these variables, counted.
    pub fn counted(
        alloc: Global,
        variables: &[VariableState<'a>],
    ) -> Result<Holders<'a>, AllocError>
        requires { length variables.now < 2 ^ 63 }
        ensures { IfOk result (λ counts. IsCounted counts (map variable_state variables.now)) }
    {
        let mut counts = Holders::new(alloc);
        for v in variables {
            counts.note(*v)?;
        }
        Ok(counts)
    }
}
