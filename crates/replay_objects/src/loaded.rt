//! The objects that are there when a run begins.

ghost use Rattle.std.specs.Prelude.{◌≡◌, ◌≤◌, ◌+◌, [], IfOk, OnOk, length, take};
ghost use Rattle.semantics.specs.World.{loaded_objects};

use crate::store::Store;
use class_queries::{fresh_values, initial_values};
use class_rules::ClassId;
use classes::built_ins::{CLASS, OUT_OF_MEMORY_ERROR};
use std::alloc::{AllocError, Global};
use world_values::World;

/// How many objects are made before the world's own: a class object for each class, and the OutOfMemoryError object.
pub fn made_before(world: &World) -> usize
    ensures count { result ≡ length world.now.classes + 1 }
    ensures few { result ≤ 257 }
{
    world.classes().len() + 1
}

/// The store with the objects that are made before the first step: the class objects, the OutOfMemoryError object and the
/// world's, in this order.
pub fn loaded_store(alloc: Global, world: &World) -> Result<Store, AllocError>
    ensures { IfOk result (λ store. store ≡ loaded_objects world.now) }
{
    let mut store = Store::new(alloc);
    make_class_objects(alloc, &mut store, world)?;
    let error = fresh_values(alloc, world.classes(), OUT_OF_MEMORY_ERROR)?;
    store.add(OUT_OF_MEMORY_ERROR, error)?;
    make_objects(alloc, &mut store, world)?;
    Ok(store)
}

/// Makes the class objects, which hold the statics that their classes declare.
fn make_class_objects(alloc: Global, store: &mut Store, world: &World) -> Result<(), AllocError>
    requires { store.old ≡ [] }
    ensures { OnOk result (store.new ≡ take (length world.now.classes) (loaded_objects world.now)) }
{
    let classes = world.classes();
    for place in 0..classes.len() {
        let values = initial_values(alloc, classes.own_statics(ClassId { number: place + 1 }))?;
        store.add(CLASS, values)?;
    }
    Ok(())
}

/// Makes the world's objects.
fn make_objects(alloc: Global, store: &mut Store, world: &World) -> Result<(), AllocError>
    requires { store.old ≡ take (length world.now.classes + 1) (loaded_objects world.now) }
    ensures { OnOk result (store.new ≡ loaded_objects world.now) }
{
    for object in world.objects() {
        let values = Vec::from_slice(alloc, object.values())?;
        store.add(object.class(), values)?;
    }
    Ok(())
}
