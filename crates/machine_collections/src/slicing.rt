//! A slice of a marking.

ghost use Rattle.std.specs.Prelude.{◌≡◌, ◌≤◌, IfOk, IsSome, OnOk, OnErr, length};
ghost use Rattle.heap.specs.Heap.{Space};
ghost use Rattle.compact.specs.Slices.{HasMarked, slice_size};
ghost use Rattle.semantics.specs.Views.{names_of};
ghost use Rattle.machine_collections.specs.Clearing.{AreCleared};
ghost use Rattle.machine_collections.specs.Gathering.{IsReserved};
ghost use Rattle.machine_collections.specs.Moving.{AreReferred};
ghost use Rattle.machine_collections.specs.Roots.{root_places};
ghost use Rattle.machine_collections.specs.Slices.{AreSliced};

use crate::gathered::{Gathered, fill_all, gather_all, put_all, reserve_all};
use base::limits::MOST_CELLS;
use compact::{lend_table, mark_on, mark_waiting, slice, slice_on};
use machine_scenes::store::Store;
use machine_threads::thread::Thread;
use semantics::ObjectId;
use std::alloc::{AllocError, Global};

/// Takes a slice of the heap's marking, and begins one where none is under way. The slice that ends the marking moves together
/// the blocks that it keeps; the others are gone. Weak references to what is gone are cleared, and these are the objects of
/// those that statics held, by rising names.
///
/// Where host memory is refused, nothing has changed.
pub fn slice_blocks(
    alloc: Global,
    store: &mut Store,
    threads: &mut [Thread],
) -> Result<Vec<ObjectId>, AllocError>
    requires { AreReferred store.old threads.old }
    ensures ok { OnOk result (AreSliced store.old threads.old store.new threads.new) }
    ensures cleared { IfOk result (λ cleared. AreCleared store.old.heap store.old.statics.items store.old.weaks store.new.weaks (names_of cleared.items)) }
    ensures store { OnErr result (store.new ≡ store.old) }
    ensures threads { OnErr result (threads.new ≡ threads.old) }
{
    if mark_on(&mut store.heap) {
        return Ok(Vec::new(alloc));
    }
    match store.heap.marked() {
        None => slice_from_roots(alloc, store, threads),
        Some(_) => slice_along(alloc, store, threads),
    }
}

/// Takes a slice of a marking that is under way. Memory is taken for the roots before, and these are looked at only where the
/// list runs empty, as the slice may end the marking then.
fn slice_along(
    alloc: Global,
    store: &mut Store,
    threads: &mut [Thread],
) -> Result<Vec<ObjectId>, AllocError>
    requires referred { AreReferred store.old threads.old }
    requires under_way { IsSome store.old.heap.marking }
    ensures ok { OnOk result (AreSliced store.old threads.old store.new threads.new) }
    ensures cleared { IfOk result (λ cleared. AreCleared store.old.heap store.old.statics.items store.old.weaks store.new.weaks (names_of cleared.items)) }
    ensures store { OnErr result (store.new ≡ store.old) }
    ensures threads { OnErr result (threads.new ≡ threads.old) }
{
    let gathered = reserve_all(alloc, store, threads)?;
    let mut to = lend_table(alloc, &mut store.heap)?;
    let Some(marked) = mark_waiting(&mut store.heap) else {
        store.heap.put_table(to);
        return Ok(Vec::new(alloc));
    };
    let cleared = slice_rest(gathered, store, threads, &mut to, marked);
    store.heap.put_table(to);
    Ok(cleared)
}

/// Takes the rest of a slice that has marked so many blocks, with memory for the roots, which are looked at now.
fn slice_rest(
    mut gathered: Gathered,
    store: &mut Store,
    threads: &mut [Thread],
    to: &mut [u32],
    marked: u32,
) -> Vec<ObjectId>
    requires reserved { IsReserved store.old threads.old gathered }
    requires referred { AreReferred store.old threads.old }
    requires begun { (s : Space) × HasMarked s store.old.heap (root_places store.old threads.old) marked }
    requires under_way { IsSome store.old.heap.marking }
    requires marked { marked ≤ slice_size }
    requires count { length to.old ≡ store.old.heap.cells }
    requires limit { store.old.heap.cells ≤ MOST_CELLS }
    ensures sliced { (s : Space) → HasMarked s store.old.heap (root_places store.old threads.old) marked
        → AreSliced (record store.old { heap = s }) threads.old store.new threads.new }
    ensures cleared { AreCleared store.old.heap store.old.statics.items store.old.weaks store.new.weaks (names_of result.items) }
{
    fill_all(&mut gathered, store, threads);
    slice_on(
        &mut store.heap,
        &mut gathered.roots,
        &mut gathered.weak,
        to,
        marked,
    );
    match store.heap.marked() {
        Some(_) => gathered.cleared,
        None => put_all(gathered, store, threads),
    }
}

/// Takes a slice with the roots at hand, as one wants them that begins a marking.
fn slice_from_roots(
    alloc: Global,
    store: &mut Store,
    threads: &mut [Thread],
) -> Result<Vec<ObjectId>, AllocError>
    requires { AreReferred store.old threads.old }
    ensures ok { OnOk result (AreSliced store.old threads.old store.new threads.new) }
    ensures cleared { IfOk result (λ cleared. AreCleared store.old.heap store.old.statics.items store.old.weaks store.new.weaks (names_of cleared.items)) }
    ensures store { OnErr result (store.new ≡ store.old) }
    ensures threads { OnErr result (threads.new ≡ threads.old) }
{
    let mut gathered = gather_all(alloc, store, threads)?;
    slice(
        alloc,
        &mut store.heap,
        &mut gathered.roots,
        &mut gathered.weak,
    )?;
    match store.heap.marked() {
        Some(_) => Ok(Vec::new(alloc)),
        None => Ok(put_all(gathered, store, threads)),
    }
}
