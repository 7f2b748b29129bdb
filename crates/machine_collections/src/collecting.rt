//! A collection.

ghost use Rattle.std.specs.Prelude.{◌≡◌, [], None, IfOk, OnErr, OnOk};
ghost use Rattle.semantics.specs.Views.{names_of};
ghost use Rattle.machine_collections.specs.Clearing.{AreCleared};
ghost use Rattle.machine_collections.specs.Moving.{AreCollected, AreReferred};

use crate::gathered::{gather_all, put_all};
use crate::roots::{gather, put_back};
use compact::{collect, collect_weak};
use machine_scenes::store::Store;
use machine_threads::thread::Thread;
use semantics::ObjectId;
use std::alloc::{AllocError, Global};

/// Moves the blocks that roots lead to together; the others are gone. Weak references to what is gone are cleared, and these are
/// the objects of those that statics held, by rising names. A marking that is under way is given up.
///
/// Where host memory is refused, nothing has moved.
pub fn collect_blocks(
    alloc: Global,
    store: &mut Store,
    threads: &mut [Thread],
) -> Result<Vec<ObjectId>, AllocError>
    requires { AreReferred store.old threads.old }
    ensures ok { IfOk result (λ cleared. AreCollected store.old threads.old store.new threads.new) }
    ensures cleared { IfOk result (λ cleared. AreCleared store.old.heap store.old.statics.items store.old.weaks store.new.weaks (names_of cleared.items)) }
    ensures none { OnOk result (store.new.heap.marking ≡ None) }
    ensures store { OnErr result (store.new ≡ store.old) }
    ensures threads { OnErr result (threads.new ≡ threads.old) }
{
    if store.weaks.len() == 0 {
        return collect_strongly(alloc, store, threads);
    }
    let mut gathered = gather_all(alloc, store, threads)?;
    collect_weak(
        alloc,
        &mut store.heap,
        &mut gathered.roots,
        &mut gathered.weak,
    )?;
    Ok(put_all(gathered, store, threads))
}

/// A collection where there are no weak references, which takes nothing for them.
fn collect_strongly(
    alloc: Global,
    store: &mut Store,
    threads: &mut [Thread],
) -> Result<Vec<ObjectId>, AllocError>
    requires referred { AreReferred store.old threads.old }
    requires none { store.old.weaks ≡ [] }
    ensures ok { OnOk result (AreCollected store.old threads.old store.new threads.new) }
    ensures nothing { IfOk result (λ cleared. cleared.items ≡ []) }
    ensures weaks { store.new.weaks ≡ [] }
    ensures none { OnOk result (store.new.heap.marking ≡ None) }
    ensures store { OnErr result (store.new ≡ store.old) }
    ensures threads { OnErr result (threads.new ≡ threads.old) }
{
    let mut roots = gather(alloc, store, threads)?;
    collect(alloc, &mut store.heap, &mut roots)?;
    put_back(&roots, store, threads);
    Ok(Vec::new(alloc))
}
