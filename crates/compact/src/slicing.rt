//! Marking in slices: a marking that goes on while the blocks change between its slices.

ghost use Rattle.std.specs.Prelude.{◌≡◌, ℕ, ◌<◌, ◌≤◌, ◌+◌, true, false, [], List, Option, Some, IsSome, length, IfNone, IfOk, IfSome, OnOk, OnErr};
ghost use Rattle.std.specs.List.{Contains};
ghost use Rattle.heap.specs.Heap.{Space, IsAddress, IsLaidOut, pins_at};
ghost use Rattle.heap.specs.Marking.{IsUnderWay};
ghost use Rattle.heap.specs.Marks.{is_kept};
ghost use Rattle.compact.specs.Marks.{Adds, IsFollowed};
ghost use Rattle.compact.specs.Reach.{AreAddresses, IsClosed, Refers};
ghost use Rattle.compact.specs.Slices.{FewWait, HasMarked, IsSliced, IsWhole, MarksOn, slice_size};

use crate::collecting::{lend_marks, lend_table};
use crate::compacting::compact;
use crate::marking::SMALL;
use crate::roots::{Roots, Weak};
use base::limits::MOST_CELLS;
use heap::{Addr, ClearMarks, Heap, Marking, Value};
use std::alloc::{AllocError, Global};

/// How many blocks a slice marks, where so many are on the list.
pub const SLICE: u32 = 64;

/// Takes one slice of the heap's marking, and begins one where none is under way. The slice that leaves the list empty
/// ends the marking, and moves together what it keeps: what roots name, what is pinned and all that these lead to, and
/// what they led to at some time since the marking began. All else is gone.
///
/// Fails where the host has too little memory to begin a marking; then nothing has changed. To go on takes none.
pub fn slice<R: Roots, W: Weak>(
    alloc: Global,
    heap: &mut Heap,
    roots: &mut R,
    weak: &mut W,
) -> Result<(), AllocError>
    requires closed { IsClosed heap.old }
    requires roots { AreAddresses heap.old (R.roots roots.old) }
    requires weak { AreAddresses heap.old (W.weak weak.old) }
    ensures ok { OnOk result (IsSliced heap.old heap.new (R.roots roots.old) (R.roots roots.new) (W.weak weak.old) (W.weak weak.new)) }
    ensures closed { OnOk result (IsClosed heap.new) }
    ensures addresses { OnOk result (AreAddresses heap.new (R.roots roots.new)) }
    ensures weak_addresses { OnOk result (AreAddresses heap.new (W.weak weak.new)) }
    ensures heap { OnErr result (heap.new ≡ heap.old) }
    ensures roots { OnErr result (R.roots roots.new ≡ R.roots roots.old) }
    ensures weak { OnErr result (W.weak weak.new ≡ W.weak weak.old) }
{
    let mut to = lend_table(alloc, heap)?;
    let result = slice_or_end(alloc, heap, roots, weak, &mut to);
    heap.put_table(to);
    result
}

/// Takes one slice, with notes for where blocks go.
fn slice_or_end<R: Roots, W: Weak>(
    alloc: Global,
    heap: &mut Heap,
    roots: &mut R,
    weak: &mut W,
    to: &mut [u32],
) -> Result<(), AllocError>
    requires count { length to.old ≡ heap.old.cells }
    requires limit { heap.old.cells ≤ MOST_CELLS }
    requires closed { IsClosed heap.old }
    requires roots { AreAddresses heap.old (R.roots roots.old) }
    requires weak { AreAddresses heap.old (W.weak weak.old) }
    ensures ok { OnOk result (IsSliced heap.old heap.new (R.roots roots.old) (R.roots roots.new) (W.weak weak.old) (W.weak weak.new)) }
    ensures closed { OnOk result (IsClosed heap.new) }
    ensures addresses { OnOk result (AreAddresses heap.new (R.roots roots.new)) }
    ensures weak_addresses { OnOk result (AreAddresses heap.new (W.weak weak.new)) }
    ensures heap { OnErr result (heap.new ≡ heap.old) }
    ensures roots { OnErr result (R.roots roots.new ≡ R.roots roots.old) }
    ensures weak { OnErr result (W.weak weak.new ≡ W.weak weak.old) }
{
    let current = match heap.take_marking() {
        Some(current) => current,
        None => begin(alloc, heap, roots)?,
    };
    heap.put_marking(Some(current));
    slice_on(heap, roots, weak, to, 0);
    Ok(())
}

/// Takes the rest of a slice that has marked so many blocks by `mark_waiting`. It takes no memory.
pub fn slice_on<R: Roots, W: Weak>(
    heap: &mut Heap,
    roots: &mut R,
    weak: &mut W,
    to: &mut [u32],
    marked: u32,
)
    requires count { length to.old ≡ heap.old.cells }
    requires limit { heap.old.cells ≤ MOST_CELLS }
    requires under_way { IsSome heap.old.marking }
    requires marked { marked ≤ slice_size }
    requires closed { IsClosed heap.old }
    requires roots { AreAddresses heap.old (R.roots roots.old) }
    requires weak { AreAddresses heap.old (W.weak weak.old) }
    ensures sliced { (s : Space) → HasMarked s heap.old (R.roots roots.old) marked
        → IsSliced s heap.new (R.roots roots.old) (R.roots roots.new) (W.weak weak.old) (W.weak weak.new) }
    ensures closed { IsClosed heap.new }
    ensures addresses { AreAddresses heap.new (R.roots roots.new) }
    ensures weak_addresses { AreAddresses heap.new (W.weak weak.new) }
{
    let Some(mut current) = heap.take_marking() else {
        return;
    };
    if mark_slice(heap, roots, &mut current, marked) {
        let mut kept = current.into_kept();
        compact(heap, roots, weak, &mut kept, to);
        heap.put_marks(ClearMarks::of(kept));
    } else {
        heap.put_marking(Some(current));
    }
}

/// Marks as many blocks as a slice does, where a marking is under way on whose list more wait. Neither roots nor pins are
/// looked at, so it costs by what it marks. Whether it did; if not, nothing has changed.
pub fn mark_on(heap: &mut Heap) -> bool
    requires { IsClosed heap.old }
    ensures yes { result ≡ true → MarksOn heap.old heap.new }
    ensures no { result ≡ false → heap.new ≡ heap.old }
    ensures few { result ≡ false → FewWait heap.old.marking }
{
    // The proof reads off this call how the heap lies.
    let _ = heap.count();
    let Some(mut current) = heap.take_marking() else {
        return false;
    };
    if current.waiting() <= SLICE as usize {
        heap.put_marking(Some(current));
        return false;
    }
    mark_listed(heap, &mut current);
    heap.put_marking(Some(current));
    true
}

/// Marks the blocks that wait on the list of the marking under way, but no more than a slice does. Neither roots nor pins are
/// looked at, so it costs by what it marks. None where the slice is whole by that, as more wait; else how many it marked,
/// and `slice_on` is to take the rest.
pub fn mark_waiting(heap: &mut Heap) -> Option<u32>
    requires under_way { IsSome heap.old.marking }
    requires closed { IsClosed heap.old }
    ensures whole { IfNone result (MarksOn heap.old heap.new) }
    ensures limit { IfSome result (λ n. n ≤ slice_size) }
    ensures part { IfSome result (λ n. (roots : List (Option ℕ)) → HasMarked heap.old heap.new roots n) }
{
    // The proof reads off this call how the heap lies.
    let _ = heap.count();
    let Some(mut current) = heap.take_marking() else {
        return Some(0);
    };
    let marked = mark_some(heap, &mut current);
    let more = current.waits();
    heap.put_marking(Some(current));
    if more && marked == SLICE {
        None
    } else {
        Some(marked)
    }
}

/// Marks the blocks of a list, but no more than a slice does. How many these are.
fn mark_some(heap: &Heap, marking: &mut Marking) -> u32
    requires closed { IsClosed heap.now }
    requires laid_out { IsLaidOut heap.now }
    requires under_way { IsUnderWay heap.now marking.old }
    ensures under_way { IsUnderWay heap.now marking.new }
    ensures marked { marking.new.marked ≡ marking.old.marked + result }
    ensures limit { result ≤ slice_size }
    ensures stays { (a : ℕ) → is_kept marking.old.kept a ≡ true → is_kept marking.new.kept a ≡ true }
{
    let mut more = 0;
    'turns: while more < SLICE && marking.waits() {
        mark_next(heap, marking);
        more += 1;
    }
    more
}

/// Marks as many blocks as a slice does, of a list on which more wait.
fn mark_listed(heap: &Heap, marking: &mut Marking)
    requires closed { IsClosed heap.now }
    requires laid_out { IsLaidOut heap.now }
    requires under_way { IsUnderWay heap.now marking.old }
    requires waits { slice_size < length marking.old.waiting }
    ensures under_way { IsUnderWay heap.now marking.new }
    ensures marked { marking.new.marked ≡ marking.old.marked + slice_size }
    ensures stays { (a : ℕ) → is_kept marking.old.kept a ≡ true → is_kept marking.new.kept a ≡ true }
{
    let mut more = 0;
    'turns: while more < SLICE {
        mark_next(heap, marking);
        more += 1;
    }
}

/// A marking whose list has the blocks that roots name and those that are pinned. No block is marked.
fn begin<R: Roots>(alloc: Global, heap: &mut Heap, roots: &R) -> Result<Marking, AllocError>
    requires roots { AreAddresses heap.old (R.roots roots.now) }
    ensures same { heap.new ≡ heap.old }
    ensures under_way { IfOk result (IsUnderWay heap.old) }
    ensures none { IfOk result (λ m. m.marked ≡ 0) }
    ensures roots { IfOk result (λ m. (a : ℕ) → Contains (R.roots roots.now) (Some a) → is_kept m.kept a ≡ true) }
    ensures pinned { IfOk result (λ m. (a : ℕ) → 0 < pins_at heap.old a → is_kept m.kept a ≡ true) }
{
    let kept = lend_marks(alloc, heap)?;
    let mut marking = Marking::new(alloc, kept)?;
    note_pinned(heap, &mut marking);
    note_roots(heap, roots, &mut marking);
    Ok(marking)
}

/// Marks as many blocks as a slice does, with those that it has marked, or all that are on the list, where these are fewer:
/// true, where the list is empty then.
fn mark_slice<R: Roots>(heap: &Heap, roots: &R, marking: &mut Marking, marked: u32) -> bool
    requires marked { marked ≤ slice_size }
    requires closed { IsClosed heap.now }
    requires roots { AreAddresses heap.now (R.roots roots.now) }
    requires under_way { IsUnderWay heap.now marking.old }
    ensures under_way { IsUnderWay heap.now marking.new }
    ensures whole { result ≡ true → IsWhole heap.now (R.roots roots.now) marking.new.kept }
    ensures goes_on { result ≡ false → marking.new.marked + marked ≡ marking.old.marked + slice_size }
    ensures up { marking.old.marked ≤ marking.new.marked }
    ensures stays { (a : ℕ) → is_kept marking.old.kept a ≡ true → is_kept marking.new.kept a ≡ true }
{
    // The proof reads off this call how the heap lies.
    let _ = heap.count();
    let mut more = marked;
    'turns: while more < SLICE {
        if is_done(heap, roots, marking) {
            return true;
        }
        mark_next(heap, marking);
        more += 1;
    }
    is_done(heap, roots, marking)
}

/// Whether nothing is left to be marked. Before the list is taken for empty, what roots name and what is pinned is
/// noted once more.
fn is_done<R: Roots>(heap: &Heap, roots: &R, marking: &mut Marking) -> bool
    requires roots { AreAddresses heap.now (R.roots roots.now) }
    requires under_way { IsUnderWay heap.now marking.old }
    ensures under_way { IsUnderWay heap.now marking.new }
    ensures whole { result ≡ true → IsWhole heap.now (R.roots roots.now) marking.new.kept }
    ensures waits { result ≡ false → 0 < length marking.new.waiting }
    ensures marked { marking.new.marked ≡ marking.old.marked }
    ensures stays { (a : ℕ) → is_kept marking.old.kept a ≡ true → is_kept marking.new.kept a ≡ true }
{
    if marking.waits() {
        return false;
    }
    note_pinned(heap, marking);
    note_roots(heap, roots, marking);
    !marking.waits()
}

/// Marks the next block of the list.
fn mark_next(heap: &Heap, marking: &mut Marking)
    requires closed { IsClosed heap.now }
    requires laid_out { IsLaidOut heap.now }
    requires under_way { IsUnderWay heap.now marking.old }
    requires waits { 0 < length marking.old.waiting }
    ensures under_way { IsUnderWay heap.now marking.new }
    ensures marked { marking.new.marked ≡ marking.old.marked + 1 }
    ensures waiting { length marking.old.waiting ≤ length marking.new.waiting + 1 }
    ensures stays { (a : ℕ) → is_kept marking.old.kept a ≡ true → is_kept marking.new.kept a ≡ true }
{
    if let Some(a) = marking.next() {
        note_references(heap, a, marking);
    }
}

/// Notes what a block refers to.
fn note_references(heap: &Heap, a: Addr, marking: &mut Marking)
    requires count { length marking.old.kept ≡ heap.now.cells }
    requires laid_out { IsLaidOut heap.now }
    requires closed { IsClosed heap.now }
    requires address { IsAddress heap.now a }
    ensures adds { Adds (Refers heap.now a) marking.old.kept marking.old.waiting marking.new.kept marking.new.waiting }
    ensures followed { IsFollowed heap.now marking.new.kept a }
    ensures marked { marking.new.marked ≡ marking.old.marked }
{
    let len = heap.len_of(a);
    if len > SMALL {
        note_many(heap, a, marking);
        return;
    }
    for place in 0..len {
        if let Value::Block(b) = heap.get(a, place) {
            marking.note(b);
        }
    }
}

/// The same of a block that may have many values.
#[inline(never)]
fn note_many(heap: &Heap, a: Addr, marking: &mut Marking)
    requires count { length marking.old.kept ≡ heap.now.cells }
    requires laid_out { IsLaidOut heap.now }
    requires closed { IsClosed heap.now }
    requires address { IsAddress heap.now a }
    ensures adds { Adds (Refers heap.now a) marking.old.kept marking.old.waiting marking.new.kept marking.new.waiting }
    ensures followed { IsFollowed heap.now marking.new.kept a }
    ensures marked { marking.new.marked ≡ marking.old.marked }
{
    let mut place = 0;
    'values: while let Some(next) = heap.next_reference(a, place) {
        marking.note(next.1);
        place = next.0 + 1;
    }
}

/// Notes what is pinned.
fn note_pinned(heap: &Heap, marking: &mut Marking)
    requires count { length marking.old.kept ≡ heap.now.cells }
    ensures adds { Adds (λ x. 0 < pins_at heap.now x) marking.old.kept marking.old.waiting marking.new.kept marking.new.waiting }
    ensures all { (x : ℕ) → 0 < pins_at heap.now x → is_kept marking.new.kept x ≡ true }
    ensures marked { marking.new.marked ≡ marking.old.marked }
    ensures laid_out { IsLaidOut heap.now }
{
    if !heap.may_be_pinned() {
        // The proof reads off this call how the heap lies.
        let _ = heap.count();
        return;
    }
    for place in 0..heap.count() {
        let a = heap.address(place);
        if heap.pins(a) > 0 {
            marking.note(a);
        }
    }
}

/// Notes what roots name.
fn note_roots<R: Roots>(heap: &Heap, roots: &R, marking: &mut Marking)
    requires count { length marking.old.kept ≡ heap.now.cells }
    requires laid_out { IsLaidOut heap.now }
    requires roots { AreAddresses heap.now (R.roots roots.now) }
    ensures adds { Adds (λ x. Contains (R.roots roots.now) (Some x)) marking.old.kept marking.old.waiting marking.new.kept marking.new.waiting }
    ensures all { (x : ℕ) → Contains (R.roots roots.now) (Some x) → is_kept marking.new.kept x ≡ true }
    ensures marked { marking.new.marked ≡ marking.old.marked }
{
    for place in 0..roots.len() {
        if let Some(a) = roots.root(place) {
            marking.note(a);
        }
    }
}
