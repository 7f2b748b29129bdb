//! The references that operands can name.

ghost use Rattle.std.specs.Prelude.{◌≡◌, slice_get};
ghost use Rattle.machine_scenes.specs.Given.{held_in};
ghost use Rattle.machine_scenes.specs.Locals.{address_of};
ghost use Rattle.machine_scenes.specs.Statics.{all_held, held_weakly, static_at};
ghost use Rattle.tables.specs.Keys.{value_at};

use crate::statics::StaticReference;
use heap::Addr;
use std::marker::Model;
use tables::{Globals, Local, Locals, Weak, Weaks};

/// What a static holds, with the address of its object.
#[derive(Clone, Copy)]
pub enum Held {
    Empty,
    At(Addr),
    /// A weak global reference to the object at this address.
    Weakly(Addr),
    /// A weak global reference whose object is gone.
    Cleared,
    Deleted,
}

/// The references that operands can name: the local ones of a call, by their keys, and the statics.
#[derive(Drop)]
pub struct References<'a> {
    keys: &'a [Option<Local>],
    locals: &'a Locals,
    statics: &'a [StaticReference],
    globals: &'a Globals,
    weaks: &'a Weaks,
}

/// The key in the slot of a local reference; none for NULL, and where there is no slot.
#[inline(always)]
fn key_of(keys: &[Option<Local>], slot: u32) -> Option<Local>
    ensures { result ≡ held_in (slice_get keys.now slot) }
{
    keys.get(slot as usize).copied().unwrap_or(None)
}

/// The address that the slot of a local reference gives, of a call with these keys and frames; none for NULL, and for a
/// reference that is dead.
#[inline(always)]
pub fn local_of(keys: &[Option<Local>], locals: &Locals, slot: u32) -> Option<Addr>
    ensures { result ≡ address_of locals.now (held_in (slice_get keys.now slot)) }
{
    match key_of(keys, slot) {
        Some(key) => locals.get(key).ok(),
        None => None,
    }
}

/// What a static holds whose weak global reference has this key. It stands apart, and so finding any other reference takes
/// no more instructions than without weak ones.
#[inline(never)]
fn held_weakly(weaks: &Weaks, key: Weak) -> Held
    ensures { result ≡ held_weakly (value_at weaks.now key) }
{
    match weaks.get(key) {
        Ok(Some(addr)) => Held::Weakly(addr),
        Ok(None) => Held::Cleared,
        Err(_) => Held::Empty,
    }
}

impl<'a> Model for References<'a> {
    ghost use Rattle.machine_scenes.specs.Statics.{References, all_held};

    ghost Value = { References };

    ghost view = { λ r. record { keys = r.keys.now; locals = r.locals.now; statics = all_held r.globals.now r.weaks.now r.statics.now } };
}

impl<'a> References<'a> {
    /// These references.
    #[inline(always)]
    pub fn new(
        keys: &'a [Option<Local>],
        locals: &'a Locals,
        statics: &'a [StaticReference],
        globals: &'a Globals,
        weaks: &'a Weaks,
    ) -> References<'a>
        ensures { result ≡ record { keys = keys.now; locals = locals.now; statics = all_held globals.now weaks.now statics.now } }
    {
        References {
            keys,
            locals,
            statics,
            globals,
            weaks,
        }
    }

    /// The key in the slot of a local reference; none for NULL, and where there is no slot.
    #[inline(always)]
    pub fn key(&self, slot: u32) -> Option<Local>
        ensures { result ≡ held_in (slice_get self.now.keys slot) }
    {
        key_of(self.keys, slot)
    }

    /// The address that the slot of a local reference gives; none for NULL, and for a reference that is dead.
    #[inline(always)]
    pub fn local(&self, slot: u32) -> Option<Addr>
        ensures { result ≡ address_of self.now.locals (held_in (slice_get self.now.keys slot)) }
    {
        local_of(self.keys, self.locals, slot)
    }

    /// What the static of a slot holds; NULL where there is none.
    pub fn held(&self, slot: u32) -> Held
        ensures { result ≡ static_at self.now slot }
    {
        match self.statics.get(slot as usize) {
            None | Some(StaticReference::Empty) => Held::Empty,
            Some(StaticReference::Live(key)) => match self.globals.get(*key) {
                Ok(addr) => Held::At(addr),
                Err(_) => Held::Empty,
            },
            Some(StaticReference::Weakly(key)) => held_weakly(self.weaks, *key),
            Some(StaticReference::Cleared) => Held::Cleared,
            Some(StaticReference::Deleted) => Held::Deleted,
        }
    }
}
