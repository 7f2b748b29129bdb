//! The objects of the heap by their names, for a report.

ghost use Rattle.std.specs.Prelude.{◌≡◌, length, IfOk};
ghost use Rattle.heap.specs.Heap.{IsLaidOut};
ghost use Rattle.semantics.specs.Heap.{Heap as SourceHeap};
ghost use Rattle.machine_scenes.specs.HeapAgrees.{HeapAgrees};
ghost use Rattle.machine.specs.Rows.{AreSeen};

use class_rules::{ClassId, NO_CLASS};
use heap::{Addr, Heap, Value};
use machine_scenes::operands::{class_there, object_there};
use report_objects::Objects;
use semantics::ObjectId;
use std::alloc::{AllocError, Global};
use std::marker::Model;
use world_values::ObjectValue;

/// The objects of a heap by their names, seen as a heap of the definitions.
/// An object whose block is gone has no class and no values there.
#[derive(Drop)]
pub struct NamedBlocks<'a> {
    heap: &'a Heap,
    /// The addresses of the objects' blocks, in the order of their names; none where the block is gone.
    addresses: Vec<Option<Addr>>,
}

impl<'a> Model for NamedBlocks<'a> {
    ghost use Rattle.semantics.specs.Heap.{Heap as HeapOfNames};
    ghost use Rattle.machine.specs.Rows.{heap_of, AreBlocks};

    ghost Value = { HeapOfNames };

    ghost view = { λ x. heap_of x.heap.now x.addresses.items };

    ghost invariant = { λ x. AreBlocks x.heap.now x.addresses.items };
}

impl<'a> Objects for NamedBlocks<'a> {
    ghost heap = { λ x. x };

    fn len(&self) -> usize {
        self.addresses.len()
    }

    fn class_of(&self, name: ObjectId) -> ClassId {
        match self.addresses[name.number - 1] {
            None => NO_CLASS,
            Some(addr) => class_there(self.heap, addr),
        }
    }

    fn count(&self, name: ObjectId) -> usize {
        match self.addresses[name.number - 1] {
            None => 0,
            Some(addr) => self.heap.len_of(addr),
        }
    }

    fn value(&self, name: ObjectId, index: usize) -> ObjectValue {
        match self.addresses[name.number - 1] {
            None => unreachable!(),
            Some(addr) => match self.heap.get(addr, index) {
                Value::Number(word) => ObjectValue::Number(word.cast_signed()),
                Value::Null => ObjectValue::Reference(None),
                Value::Block(to) => ObjectValue::Reference(Some(object_there(self.heap, to))),
            },
        }
    }
}

/// The objects by their names, of which `births` have been made.
pub fn named_blocks<'a>(
    alloc: Global,
    heap: &'a Heap,
    births: u32,
) -> Result<NamedBlocks<'a>, AllocError>
    requires { (objects : SourceHeap) × HeapAgrees heap.now objects × (births ≡ length objects) × IsLaidOut heap.now }
    ensures { IfOk result (λ named. (objects : SourceHeap) → HeapAgrees heap.now objects → births ≡ length objects
        → AreSeen heap.now objects named) }
{
    let mut addresses: Vec<Option<Addr>> = vec![in alloc; None; births as usize]?;
    for place in 0..heap.count() {
        let addr = heap.address(place);
        addresses[heap.birth_of(addr) as usize - 1] = Some(addr);
    }
    Ok(NamedBlocks { heap, addresses })
}
