//! Weak global references.

ghost use Rattle.std.specs.Prelude.{◌≡◌, ◌<◌, ℕ, [], None, Option, Some, IsSome, length, slice_get, ok_or, IfOk, IfErr, OnOk, OnErr};
ghost use Rattle.tables.specs.declared.fault.TableFault.TheVariants.{Dead, Memory};
ghost use Rattle.tables.specs.Keys.{Gains, IsOneMore, value_at, values_in, without_key};
ghost use Rattle.tables.specs.Weaks.{weak_places, with_weak};

use crate::fault::TableFault;
use heap::Addr;
use slab::Slab;
use std::alloc::Global as Host;
use std::marker::Model;

/// Where a weak global reference is, seen as the place of its slot.
#[derive(Clone, Copy, PartialEq, Eq)]
pub struct Weak {
    place: usize,
}

impl Model for Weak {
    ghost use Rattle.std.specs.Prelude.{ℕ};

    ghost Value = { ℕ };

    ghost view = { λ g. g.place };

    ghost inverse = { λ n. record { place = n } };
}

/// The weak global references (JNI Specification, chapter 4, "Weak Global References"), seen as what is at each key from 0 on:
/// a reference, or none. A reference has the address of its object, or is cleared, as its object is gone. A key is used again
/// only after its `delete`.
///
/// None but `make` takes host memory. Each call takes constant time, but for the growth of the slab in `make`.
pub struct Weaks {
    slots: Slab<Option<Addr>>,
    /// Every key in use is below it.
    end: usize,
}

impl Drop for Weaks {
    fn drop(self) {
        let Weaks { slots, end: _ } = self;
        drop(slots);
    }
}

impl Model for Weaks {
    ghost use Rattle.std.specs.Prelude.{ℕ, List, Option};
    ghost use Rattle.slab.specs.Slab.{get};
    ghost use Rattle.tables.specs.Keys.{AreBelow, listed};

    ghost Value = { List (Option (Option ℕ)) };

    ghost view = { λ w. listed (get w.slots) w.end };

    ghost invariant = { λ w. AreBelow w.slots w.end };
}

impl Weaks {
    /// No reference.
    pub fn new(alloc: Host) -> Weaks
        ensures { result ≡ [] }
    {
        Weaks {
            slots: Slab::new(alloc),
            end: 0,
        }
    }

    /// Makes a reference to an object (JNI Specification, chapter 4, `NewWeakGlobalRef`). Its key had no reference, and every
    /// other key keeps its own.
    pub fn make(&mut self, addr: Addr) -> Result<Weak, TableFault>
        ensures made { IfOk result (λ key. Gains self.old key (Some addr) self.new) }
        ensures more { OnOk result (IsOneMore (Some addr) (values_in self.old) (values_in self.new)) }
        ensures memory { IfErr result (λ e. e ≡ Memory) }
        ensures err { OnErr result (self.new ≡ self.old) }
    {
        let place = self.slots.insert(Some(addr))?;
        let capacity = self.slots.capacity();
        prove!(place < capacity);
        self.end = self.end.max(place + 1);
        Ok(Weak { place })
    }

    /// Ends a reference, cleared or not (JNI Specification, chapter 4, `DeleteWeakGlobalRef`).
    ///
    /// `Dead` exactly where the key has none.
    pub fn delete(&mut self, key: Weak) -> Result<(), TableFault>
        ensures live { OnOk result (IsSome (value_at self.old key)) }
        ensures ok { OnOk result (self.new ≡ without_key self.old key) }
        ensures fewer { (held : Option ℕ) → value_at self.old key ≡ Some held → IsOneMore held (values_in self.new) (values_in self.old) }
        ensures dead { IfErr result (λ e. (e ≡ Dead) × (value_at self.old key ≡ None)) }
        ensures err { OnErr result (self.new ≡ self.old) }
    {
        let Some(_held) = self.slots.try_remove(key.place) else {
            return Err(TableFault::Dead);
        };
        Ok(())
    }

    /// The address of a reference, or none where it is cleared.
    ///
    /// `Dead` exactly where the key has none.
    pub fn get(&self, key: Weak) -> Result<Option<Addr>, TableFault>
        ensures { result ≡ ok_or (value_at self.now key) Dead }
    {
        self.slots.get(key.place).copied().ok_or(TableFault::Dead)
    }

    /// How many places there are: every reference has one, and a place may have none.
    pub fn len(&self) -> usize
        ensures { result ≡ length self.now }
    {
        self.end
    }

    /// The address at a place. It is none where there is no reference, and where the reference is cleared.
    pub fn weak(&self, place: usize) -> Option<Addr>
        requires { place < length self.now }
        ensures { slice_get (weak_places self.now) place ≡ Some result }
    {
        self.slots.get(place).copied().flatten()
    }

    /// Changes the address of the reference at a place, whose object was moved, or clears it, as its object is gone. Where
    /// there is no reference nothing changes.
    pub fn set_weak(&mut self, place: usize, address: Option<Addr>)
        ensures { self.new ≡ with_weak self.old place address }
    {
        if let Some(held) = self.slots.get_mut(place) {
            *held = address;
        }
    }
}
