//! The objects that are there when a run begins.

ghost use Rattle.std.specs.Prelude.{◌≡◌, ◌+◌, ◌^◌, ◌<◌, ◌≤◌, [], ◌∷◌, ◌++◌, length, map, replicate, take, None, IfOk, OnOk, IsTrue};
ghost use Rattle.std.specs.List.{list_all};
ghost use Rattle.heap.specs.Heap.{IsLaidOut, left_of};
ghost use Rattle.machine_scenes.specs.HeapAgrees.{AreMade};
ghost use Rattle.machine_threads.specs.Held.{held_value};
ghost use Rattle.semantics.specs.declared.static_reference.StaticReference.TheVariants.{Empty};
ghost use Rattle.syntax.specs.Parts.{statics_of};
ghost use Rattle.syntax.specs.Views.{unit_tree};
ghost use Rattle.semantics.specs.Heap.{Heap as Objects};
ghost use Rattle.semantics.specs.World.{loaded_objects};
ghost use Rattle.world_values.specs.CallArguments.{is_argument};
ghost use Rattle.world_values.specs.Views.{object_value_view};

use base::limits::MOST_CELLS;
use class_queries::{fresh_values, initial_values};
use class_rules::ClassId;
use classes::built_ins::{CLASS, OUT_OF_MEMORY_ERROR};
use heap::{Addr, Heap, Value};
use machine_scenes::statics::StaticReference;
use machine_scenes::store::Store;
use monitors::Monitors;
use std::alloc::{AllocError, Global};
use syntax::Item;
use tables::{Elements, Globals, Weaks};
use world_values::{ObjectValue, World};

/// The heap with the objects that are made before the first step, and the address of each by its name, counted from 1.
/// They are the class objects, the OutOfMemoryError object and the world's, in this order.
pub fn load_store(alloc: Global, items: &[Item], world: &World) -> Result<Store, AllocError>
    ensures made { IfOk result (λ store. AreMade store.heap store.loaded.items (loaded_objects world.now)) }
    ensures births { IfOk result (λ store. store.births ≡ length (loaded_objects world.now)) }
    ensures cells { IfOk result (λ store. store.heap.cells ≡ world.now.cells) }
    ensures statics { IfOk result (λ store. store.statics.items ≡ replicate (length (statics_of (unit_tree items.now))) Empty) }
    ensures globals { IfOk result (λ store. store.globals ≡ []) }
    ensures weaks { IfOk result (λ store. store.weaks ≡ []) }
    ensures elements { IfOk result (λ store. store.elements ≡ []) }
    ensures views { IfOk result (λ store. store.views ≡ 0) }
    ensures monitors { IfOk result (λ store. store.monitors ≡ []) }
{
    let mut heap = Heap::new(alloc, world.cells())?;
    let loaded = load_objects(alloc, &mut heap, world)?;
    // The proof reads off this call that there are few objects.
    let _ = heap.cells();
    let births = loaded.len() as u32;
    Ok(Store {
        heap,
        loaded,
        births,
        statics: empty_statics(alloc, items)?,
        globals: Globals::new(alloc),
        weaks: Weaks::new(alloc),
        elements: Elements::new(alloc),
        views: 0,
        monitors: Monitors::new(alloc),
    })
}

/// Makes all objects in an empty heap, and answers their addresses.
fn load_objects(alloc: Global, heap: &mut Heap, world: &World) -> Result<Vec<Addr>, AllocError>
    requires none { AreMade heap.old [] [] }
    requires cells { heap.old.cells ≡ world.now.cells }
    ensures made { IfOk result (λ loaded. AreMade heap.new loaded.items (loaded_objects world.now)) }
    ensures cells { OnOk result (heap.new.cells ≡ world.now.cells) }
{
    let mut loaded = Vec::new(alloc);
    make_class_objects(alloc, heap, &mut loaded, world)?;
    make_error(alloc, heap, &mut loaded, world)?;
    make_objects(heap, &mut loaded, world)?;
    Ok(loaded)
}

/// The unit's statics, which are NULL.
fn empty_statics(alloc: Global, items: &[Item]) -> Result<Vec<StaticReference>, AllocError>
    ensures { IfOk result (λ statics. statics.items ≡ replicate (length (statics_of (unit_tree items.now))) Empty) }
{
    let mut statics = Vec::new(alloc);
    for item in items {
        match item {
            Item::Static(_) => statics.push(StaticReference::Empty)?,
            Item::Function(_) => {}
        }
    }
    Ok(statics)
}

/// Makes the class objects, which hold the statics that their classes declare.
fn make_class_objects(
    alloc: Global,
    heap: &mut Heap,
    loaded: &mut Vec<Addr>,
    world: &World,
) -> Result<(), AllocError>
    requires none { AreMade heap.old loaded.old.items [] }
    requires cells { heap.old.cells ≡ world.now.cells }
    ensures made { OnOk result (AreMade heap.new loaded.new.items (take (length world.now.classes) (loaded_objects world.now))) }
    ensures cells { OnOk result (heap.new.cells ≡ world.now.cells) }
{
    let classes = world.classes();
    for place in 0..classes.len() {
        let values = initial_values(alloc, classes.own_statics(ClassId { number: place + 1 }))?;
        make(heap, loaded, CLASS, &values)?;
    }
    Ok(())
}

/// Makes the OutOfMemoryError object.
fn make_error(
    alloc: Global,
    heap: &mut Heap,
    loaded: &mut Vec<Addr>,
    world: &World,
) -> Result<(), AllocError>
    requires classes { AreMade heap.old loaded.old.items (take (length world.now.classes) (loaded_objects world.now)) }
    requires cells { heap.old.cells ≡ world.now.cells }
    ensures made { OnOk result (AreMade heap.new loaded.new.items (take (length world.now.classes + 1) (loaded_objects world.now))) }
    ensures cells { OnOk result (heap.new.cells ≡ world.now.cells) }
{
    let error = fresh_values(alloc, world.classes(), OUT_OF_MEMORY_ERROR)?;
    make(heap, loaded, OUT_OF_MEMORY_ERROR, &error)
}

/// Makes the world's objects.
fn make_objects(heap: &mut Heap, loaded: &mut Vec<Addr>, world: &World) -> Result<(), AllocError>
    requires first { AreMade heap.old loaded.old.items (take (length world.now.classes + 1) (loaded_objects world.now)) }
    requires cells { heap.old.cells ≡ world.now.cells }
    ensures made { OnOk result (AreMade heap.new loaded.new.items (loaded_objects world.now)) }
    ensures cells { OnOk result (heap.new.cells ≡ world.now.cells) }
{
    // The proof reads off this call how many classes there are.
    let _ = world.classes().len();
    for object in world.objects() {
        make(heap, loaded, object.class(), object.values())?;
    }
    Ok(())
}

/// Makes the next object, with these values.
fn make(
    heap: &mut Heap,
    loaded: &mut Vec<Addr>,
    class: ClassId,
    values: &[ObjectValue],
) -> Result<(), AllocError>
    requires class { class.number < 2 ^ 32 }
    requires room { 3 + length values.now ≤ left_of heap.old }
    requires few { length loaded.old.items < MOST_CELLS }
    requires laid_out { IsLaidOut heap.old }
    requires unmarked { heap.old.marking ≡ None }
    requires given { IsTrue (list_all (is_argument (length loaded.old.items)) (map object_value_view values.now)) }
    ensures made { (objects : Objects) → AreMade heap.old loaded.old.items objects
        → OnOk result (AreMade heap.new loaded.new.items (objects ++ record { class = class.number; values = map object_value_view values.now } ∷ [])) }
    ensures cells { OnOk result (heap.new.cells ≡ heap.old.cells) }
{
    loaded.reserve(1)?;
    let birth = loaded.len() as u32 + 1;
    let addr = heap
        .alloc(class.number as u32, birth, values.len(), Value::Null)
        .unwrap();
    for place in 0..values.len() {
        heap.set(addr, place, held(loaded, values[place]));
    }
    loaded.push(addr).unwrap();
    Ok(())
}

/// How a cell holds a value: an object by its address.
pub(crate) fn held(loaded: &[Addr], value: ObjectValue) -> Value
    requires { IsTrue (is_argument (length loaded.now) (object_value_view value)) }
    ensures { result ≡ held_value loaded.now (object_value_view value) }
{
    match value {
        ObjectValue::Number(number) => Value::Number(number.cast_unsigned()),
        ObjectValue::Reference(None) => Value::Null,
        ObjectValue::Reference(Some(name)) => Value::Block(loaded[name.number - 1]),
    }
}
