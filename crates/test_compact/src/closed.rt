//! A heap to be collected.

ghost use Rattle.std.specs.Prelude.{◌≡◌, ℕ, ◌≤◌, Some};
ghost use Rattle.heap.specs.declared.value.Value.TheVariants.{Block as Reference};
ghost use Rattle.heap.specs.Heap.{IsAddress};
ghost use Rattle.compact.specs.Reach.{IsClosed, AreAddresses};

use base::limits::MOST_CELLS;
use compact::{Roots, WeakList, collect, collect_weak, mark_on, slice};
use heap::{Addr, Heap, MOST_PINS, Value};
use std::alloc::{AllocError, Global};

/// Roots in a list.
#[derive(Drop)]
pub struct Places {
    pub places: Vec<Option<Addr>>,
}

impl Roots for Places {
    ghost use Rattle.std.specs.Prelude.{ℕ};

    ghost roots = { λ p. p.places.items };

    fn len(&self) -> usize {
        self.places.len()
    }

    fn root(&self, place: usize) -> Option<Addr> {
        self.places[place]
    }

    fn set_root(&mut self, place: usize, address: Addr) {
        self.places[place] = Some(address);
    }
}

/// A value that is written: a reference names a block by its place.
#[derive(Clone, Copy)]
pub enum Written {
    Number(u32),
    Null,
    Block(usize),
}

/// A heap with roots and weak references. References, roots and weak references are each to a block, and name it by its
/// place in the order of addresses, from 0 on; where no block has it they are to none.
#[derive(Drop)]
pub struct Closed {
    heap: Heap,
    roots: Places,
    weak: WeakList,
    ghost closed: { IsClosed heap },
    ghost rooted: { AreAddresses heap roots.places.items },
    ghost followed: { AreAddresses heap weak.places.items },
}

impl Closed {
    /// A heap without blocks.
    pub fn new(alloc: Global, cells: u32) -> Result<Closed, AllocError>
        requires { cells ≤ MOST_CELLS }
    {
        let heap = Heap::new(alloc, cells)?;
        Ok(Closed {
            heap,
            roots: Places {
                places: Vec::new(alloc),
            },
            weak: WeakList {
                places: Vec::new(alloc),
            },
        })
    }

    /// The address of a block.
    fn address(&self, place: usize) -> Option<Addr>
        ensures { (x : ℕ) → result ≡ Some x → IsAddress self.now.heap x }
    {
        if place < self.heap.count() {
            Some(self.heap.address(place))
        } else {
            None
        }
    }

    fn value_of(&self, written: Written) -> Value
        ensures { (x : ℕ) → result ≡ Reference x → IsAddress self.now.heap x }
    {
        match written {
            Written::Number(number) => Value::Number(number),
            Written::Null => Value::Null,
            Written::Block(place) => match self.address(place) {
                Some(address) => Value::Block(address),
                None => Value::Null,
            },
        }
    }

    /// Makes a block of so many values, all of which are this one. Says whether it had room.
    pub fn make(&mut self, birth: u32, len: usize, fill: Written) -> bool {
        let fill = self.value_of(fill);
        self.heap.alloc(1, birth, len, fill).is_ok()
    }

    /// Changes a value of a block.
    pub fn set(&mut self, place: usize, index: usize, written: Written) {
        let value = self.value_of(written);
        if let Some(address) = self.address(place) {
            if index < self.heap.len_of(address) {
                self.heap.set(address, index, value);
            }
        }
    }

    /// Pins a block once more.
    pub fn pin(&mut self, place: usize) {
        if let Some(address) = self.address(place) {
            if self.heap.pins(address) < MOST_PINS {
                self.heap.pin(address);
            }
        }
    }

    /// A further root.
    pub fn root(&mut self, place: usize) -> Result<(), AllocError> {
        let address = self.address(place);
        self.roots.places.push(address)?;
        Ok(())
    }

    /// A further weak reference.
    pub fn refer_weakly(&mut self, place: usize) -> Result<(), AllocError> {
        let address = self.address(place);
        self.weak.places.push(address)?;
        Ok(())
    }

    /// Ends all roots.
    pub fn forget_roots(&mut self) {
        self.roots.places.clear();
    }

    /// Takes a slice of a marking.
    pub fn slice(&mut self, alloc: Global) -> Result<(), AllocError> {
        slice(alloc, &mut self.heap, &mut self.roots, &mut self.weak)
    }

    /// Marks on as a slice does, where more blocks wait than a slice marks. Whether it did.
    pub fn mark_on(&mut self) -> bool {
        mark_on(&mut self.heap)
    }

    /// How many blocks the marking has marked that is under way.
    pub fn marked(&self) -> Option<usize> {
        self.heap.marked()
    }

    /// Collects; weak references end before.
    pub fn collect(&mut self, alloc: Global) -> Result<(), AllocError> {
        self.weak.places.clear();
        collect(alloc, &mut self.heap, &mut self.roots)
    }

    /// Collects, with weak references.
    pub fn collect_weakly(&mut self, alloc: Global) -> Result<(), AllocError> {
        collect_weak(alloc, &mut self.heap, &mut self.roots, &mut self.weak)
    }

    /// How many blocks there are.
    pub fn count(&self) -> usize {
        self.heap.count()
    }

    /// How many cells are left after the highest block.
    pub fn left(&self) -> usize {
        self.heap.left()
    }

    /// The cell of a block, its birth number, and how often it is pinned.
    pub fn block(&self, place: usize) -> Option<(u32, u32, u8)> {
        let address = self.address(place)?;
        Some((
            address.cell(),
            self.heap.birth_of(address),
            self.heap.pins(address),
        ))
    }

    /// A value of a block.
    pub fn value(&self, place: usize, index: usize) -> Option<Value> {
        let address = self.address(place)?;
        if index < self.heap.len_of(address) {
            Some(self.heap.get(address, index))
        } else {
            None
        }
    }

    pub fn roots(&self) -> &[Option<Addr>] {
        &self.roots.places
    }

    pub fn weak(&self) -> &[Option<Addr>] {
        &self.weak.places
    }
}
