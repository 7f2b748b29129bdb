//! The barrier: while a marking is under way, the block of each reference that a call writes outside of the heap is
//! noted.
//!
//! A call writes references into the current frame (what it gives), into a static and as the exception that is pending.
//! What it writes into an object `Heap::set` notes, and a new object, which `Heap::alloc` makes, counts as marked. The
//! OutOfMemoryError object has been noted since the marking began, as it can be reached for ever; so has what a call of
//! a method is passed or gives back, as it is in a frame or held by a static already.

ghost use Rattle.std.specs.Prelude.{◌≡◌};
ghost use Rattle.machine_calls.specs.Barrier.{noted_at, reference_given};
ghost use Rattle.machine_scenes.specs.Given.{ReferenceIsThere};

use heap::{Addr, Heap};
use machine_answers::answer::Given;

/// Notes the block of a reference that is written, if a marking is under way.
#[inline(always)]
pub(crate) fn note(heap: &mut Heap, reference: &Option<Addr>)
    requires { ReferenceIsThere heap.old reference.now }
    ensures { heap.new ≡ record heap.old { marking = noted_at reference.now heap.old.marking } }
{
    if let Some(addr) = reference {
        heap.note(*addr);
    }
}

/// The same of what a call gives, where it is a reference.
#[inline(always)]
pub(crate) fn note_given(heap: &mut Heap, given: &Given)
    requires { ReferenceIsThere heap.old (reference_given given.now) }
    ensures { heap.new ≡ record heap.old { marking = noted_at (reference_given given.now) heap.old.marking } }
{
    if let Given::Reference(reference) = given {
        note(heap, reference);
    }
}

/// The same of an exception that is to be pending, and then of what the call gives.
#[inline(always)]
pub(crate) fn note_pending(heap: &mut Heap, exception: &Option<Addr>, given: &Given)
    requires exception { ReferenceIsThere heap.old exception.now }
    requires given { ReferenceIsThere heap.old (reference_given given.now) }
    ensures { heap.new ≡ record heap.old {
      marking = noted_at (reference_given given.now) (noted_at exception.now heap.old.marking);
    } }
{
    note(heap, exception);
    note_given(heap, given);
}
