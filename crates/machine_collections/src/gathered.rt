//! What a collection takes from a machine before it begins, and puts back after it.

ghost use Rattle.std.specs.Prelude.{◌≡◌, ℕ, IfOk, length};
ghost use Rattle.semantics.specs.Views.{names_of};
ghost use Rattle.machine_collections.specs.Clearing.{ArePut, ListsCleared};
ghost use Rattle.machine_collections.specs.Gathering.{HasRoom, IsGathered, IsReserved};
ghost use Rattle.machine_collections.specs.Moving.{AreMoved, AreReferred, moved_slots};
ghost use Rattle.machine_collections.specs.Roots.{root_places};

use crate::roots::{RootPlaces, fill_roots, put_back, reserve_roots};
use crate::weak::{fill_objects, fill_weak, list_cleared, put_weak};
use compact::WeakList;
use machine_scenes::store::Store;
use machine_threads::thread::Thread;
use semantics::ObjectId;
use std::alloc::{AllocError, Global};

/// The roots and the weak references, place by place, and the objects that statics hold weakly, static by static. There
/// is room for all of these in two lists, for those whose references are cleared.
#[derive(Drop)]
pub struct Gathered {
    pub roots: RootPlaces,
    pub weak: WeakList,
    pub objects: Vec<Option<ObjectId>>,
    pub names: Vec<usize>,
    pub cleared: Vec<ObjectId>,
}

/// Takes all that a collection needs, so that nothing fails once blocks have moved.
pub(crate) fn gather_all(
    alloc: Global,
    store: &Store,
    threads: &[Thread],
) -> Result<Gathered, AllocError>
    requires { AreReferred store.now threads.now }
    ensures { IfOk result (IsGathered store.now threads.now) }
{
    let mut gathered = reserve_all(alloc, store, threads)?;
    fill_all(&mut gathered, store, threads);
    Ok(gathered)
}

/// Takes the memory for all that a collection needs, and looks at none of it.
pub(crate) fn reserve_all(
    alloc: Global,
    store: &Store,
    threads: &[Thread],
) -> Result<Gathered, AllocError>
    ensures { IfOk result (IsReserved store.now threads.now) }
{
    let statics = store.statics.len();
    let objects = Vec::with_capacity(alloc, statics)?;
    let names = Vec::with_capacity(alloc, statics)?;
    let cleared = Vec::with_capacity(alloc, statics)?;
    let roots = reserve_roots(alloc, store, threads)?;
    let weak = WeakList {
        places: Vec::with_capacity(alloc, store.weaks.len())?,
    };
    Ok(Gathered {
        roots,
        weak,
        objects,
        names,
        cleared,
    })
}

/// Lists all that a collection needs, for which there is room.
pub(crate) fn fill_all(gathered: &mut Gathered, store: &Store, threads: &[Thread])
    requires referred { AreReferred store.now threads.now }
    requires reserved { IsReserved store.now threads.now gathered.old }
    ensures { IsGathered store.now threads.now gathered.new }
{
    fill_objects(
        &mut gathered.objects,
        &store.heap,
        &store.weaks,
        &store.statics,
    );
    fill_roots(&mut gathered.roots, store, threads);
    fill_weak(&mut gathered.weak, &store.weaks);
}

/// Puts the roots and the weak references back, where a collection has moved what they name. Gives the objects of the weak
/// references of statics that it cleared, by rising names.
pub(crate) fn put_all(
    mut gathered: Gathered,
    store: &mut Store,
    threads: &mut [Thread],
) -> Vec<ObjectId>
    requires roots { (to : ℕ → ℕ) × (gathered.roots.places.items ≡ moved_slots to (root_places store.old threads.old)) }
    requires weak { length gathered.weak.places.items ≡ length store.old.weaks }
    requires objects { length gathered.objects.items ≡ length store.old.statics.items }
    requires room { HasRoom gathered }
    ensures moved { (to : ℕ → ℕ) → gathered.roots.places.items ≡ moved_slots to (root_places store.old threads.old)
        → AreMoved to store.old threads.old store.new threads.new }
    ensures weaks { ArePut store.old.weaks gathered.weak.places.items store.new.weaks }
    ensures cleared { ListsCleared gathered.objects.items store.new.weaks store.old.statics.items (names_of result.items) }
{
    put_back(&gathered.roots, store, threads);
    put_weak(&gathered.weak, &mut store.weaks);
    list_cleared(
        &mut gathered.names,
        &mut gathered.cleared,
        &gathered.objects,
        &store.weaks,
        &store.statics,
    );
    gathered.cleared
}
