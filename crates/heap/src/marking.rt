//! A marking that goes on between calls.

ghost use Rattle.std.specs.Prelude.{◌≡◌, ℕ, ◌+◌, ◌<◌, ◌≤◌, ◌∷◌, [], true, false, length, slice_set, IfOk, IfSome, MatchOption};
ghost use Rattle.std.specs.Option.{option_map};
ghost use Rattle.heap.specs.declared.value.Value.TheVariants.{Block as Reference};
ghost use Rattle.heap.specs.Marks.{noted, with_new, noted_in};
ghost use Rattle.heap.specs.Marking.{unmarked};

use crate::addr::Addr;
use crate::value::Value;
use std::alloc::{AllocError, Global};
use std::marker::Model;

/// Which blocks are kept, by their addresses, and a list of those that are to be marked: what they refer to has still
/// to be kept too.
///
/// A block is put on the list once at most, when it is first kept. `new` takes all of the host's memory that the list ever
/// needs: no other call allocates.
#[derive(Drop)]
pub struct Marking {
    kept: Vec<bool>,
    /// All that was put on the list.
    list: Vec<Addr>,
    /// How many of these were marked.
    taken: usize,
}

impl Model for Marking {
    ghost use Rattle.std.specs.Prelude.{drop};
    ghost use Rattle.heap.specs.Marking.{HasRoom};
    ghost use Rattle.heap.specs.Marks.{Marks};

    ghost Value = { Marks };

    ghost view = { λ m. record { kept = m.kept.items; waiting = drop m.taken m.list.items; marked = m.taken } };

    ghost invariant = { λ m. HasRoom m.kept.items m.list.items m.taken m.list.cap };
}

impl Marking {
    /// A marking that keeps what these marks say, a mark a cell, with nothing on the list. Fails where the host has too little
    /// memory.
    pub fn new(alloc: Global, kept: Vec<bool>) -> Result<Marking, AllocError>
        ensures { IfOk result (λ m. m ≡ record { kept = kept.items; waiting = []; marked = 0 }) }
    {
        let list = Vec::with_capacity(alloc, kept.len())?;
        Ok(Marking {
            kept,
            list,
            taken: 0,
        })
    }

    /// Keeps a block, and puts it on the list where it wasn't kept.
    pub fn note(&mut self, addr: Addr)
        requires { addr < length self.old.kept }
        ensures { self.new ≡ noted self.old addr }
    {
        let index = addr.cell() as usize;
        if !self.kept[index] {
            self.kept[index] = true;
            self.list.push_reserved(addr);
        }
    }

    /// Keeps a block that is new, and doesn't list it: it counts as marked, as whoever writes a reference into it notes
    /// that too.
    pub fn note_new(&mut self, addr: Addr)
        requires { addr < length self.old.kept }
        ensures { self.new ≡ record self.old { kept = slice_set self.old.kept addr true } }
    {
        let index = addr.cell() as usize;
        self.kept[index] = true;
    }

    /// The next block of the list, which counts as marked from now on; none where none waits.
    pub fn next(&mut self) -> Option<Addr>
        ensures { MatchOption result ((self.old.waiting ≡ []) × (self.new ≡ self.old)) (λ a. (self.old.waiting ≡ a ∷ self.new.waiting) × (self.new.kept ≡ self.old.kept) × (self.new.marked ≡ self.old.marked + 1)) }
    {
        if self.taken < self.list.len() {
            let addr = self.list[self.taken];
            self.taken += 1;
            Some(addr)
        } else {
            None
        }
    }

    /// Whether a block waits on the list.
    pub fn waits(&self) -> bool
        ensures some { result ≡ true → 0 < length self.now.waiting }
        ensures none { result ≡ false → self.now.waiting ≡ [] }
    {
        self.taken < self.list.len()
    }

    /// How many blocks wait on the list.
    pub fn waiting(&self) -> usize
        ensures { result ≡ length self.now.waiting }
    {
        self.list.len() - self.taken
    }

    /// How many blocks of the list were marked.
    pub fn marked(&self) -> usize
        ensures marked { result ≡ self.now.marked }
        ensures few { result + length self.now.waiting + unmarked self.now.kept ≤ length self.now.kept }
    {
        self.taken
    }

    /// Which blocks are kept.
    pub fn into_kept(self) -> Vec<bool>
        ensures kept { result.items ≡ self.kept }
        ensures few { self.marked + unmarked self.kept ≤ length self.kept }
    {
        let Marking {
            kept,
            list,
            taken: _,
        } = self;
        drop(list);
        kept
    }
}

/// Notes the block that a value refers to, if it refers to one and a marking is under way.
#[inline(always)]
pub(crate) fn note_value(marking: &mut Option<Marking>, value: &Value)
    requires { (b : ℕ) → value.now ≡ Reference b → IfSome marking.old (λ m. b < length m.kept) }
    ensures { marking.new ≡ noted_in value.now marking.old }
{
    if let Some(under_way) = marking {
        if let Value::Block(addr) = value {
            under_way.note(*addr);
        }
    }
}

/// A new block counts as marked, if a marking is under way.
#[inline(always)]
pub(crate) fn note_new(marking: &mut Option<Marking>, addr: Addr)
    requires { IfSome marking.old (λ m. addr < length m.kept) }
    ensures { marking.new ≡ option_map (with_new addr) marking.old }
{
    if let Some(under_way) = marking {
        under_way.note_new(addr);
    }
}
