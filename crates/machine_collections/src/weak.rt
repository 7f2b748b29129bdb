//! Weak global references in a collection: they keep no object. Each follows its object, and is cleared where that is gone.

ghost use Rattle.std.specs.Prelude.{◌≡◌, ℕ, [], ◌+◌, ◌++◌, ◌≤◌, Some, length, map, vec_capacity, vec_len};
ghost use Rattle.std.specs.Option.{option_map};
ghost use Rattle.heap.specs.Heap.{IsAddress};
ghost use Rattle.tables.specs.Keys.{value_at};
ghost use Rattle.tables.specs.Weaks.{weak_places};
ghost use Rattle.semantics.specs.Views.{names_of};
ghost use Rattle.semantics.specs.declared.object_id.ObjectId.{ObjectId as Object};
ghost use Rattle.machine_collections.specs.Clearing.{AreNamed, ArePut, ListsCleared, cleared_name, cleared_names, holds_cleared, weak_name};

use compact::WeakList;
use heap::Heap;
use machine_scenes::operands::object_there;
use machine_scenes::statics::StaticReference;
use semantics::ObjectId;
use tables::Weaks;

/// Lists the weak references, place by place: each with the address of its object, or none. There is room for them.
pub(crate) fn fill_weak(list: &mut WeakList, weaks: &Weaks)
    requires none { list.old.places.items ≡ [] }
    requires room { length weaks.now ≤ vec_capacity list.old.places }
    ensures { list.new.places.items ≡ weak_places weaks.now }
{
    for place in 0..weaks.len() {
        list.places.push_reserved(weaks.weak(place));
    }
}

/// Puts the weak references back, place by place.
pub(crate) fn put_weak(list: &WeakList, weaks: &mut Weaks)
    requires { length list.now.places.items ≡ length weaks.old }
    ensures { ArePut weaks.old list.now.places.items weaks.new }
{
    for place in 0..weaks.len() {
        weaks.set_weak(place, list.places[place]);
    }
}

/// The object that a static holds weakly.
fn weak_object(heap: &Heap, weaks: &Weaks, held: StaticReference) -> Option<ObjectId>
    requires { (key a : ℕ) → value_at weaks.now key ≡ Some (Some a) → IsAddress heap.now a }
    ensures { option_map (λ (o : Object). o.number) result ≡ weak_name heap.now weaks.now held }
{
    match held {
        StaticReference::Weakly(key) => match weaks.get(key) {
            Ok(Some(addr)) => Some(object_there(heap, addr)),
            _ => None,
        },
        _ => None,
    }
}

/// Lists the objects that statics hold weakly, static by static. There is room for them.
pub(crate) fn fill_objects(
    objects: &mut Vec<Option<ObjectId>>,
    heap: &Heap,
    weaks: &Weaks,
    statics: &[StaticReference],
)
    requires weak { (key a : ℕ) → value_at weaks.now key ≡ Some (Some a) → IsAddress heap.now a }
    requires none { objects.old.items ≡ [] }
    requires room { length statics.now ≤ vec_capacity objects.old }
    ensures { AreNamed heap.now weaks.now statics.now objects.new.items }
{
    for held in statics {
        objects.push_reserved(weak_object(heap, weaks, *held));
    }
}

/// Whether a static's weak reference is cleared.
fn is_cleared(weaks: &Weaks, held: StaticReference) -> bool
    ensures { result ≡ holds_cleared weaks.now held }
{
    match held {
        StaticReference::Weakly(key) => matches!(weaks.get(key), Ok(None)),
        _ => false,
    }
}

/// The name of an object that a static held weakly before, where its reference is cleared now.
fn cleared_name(object: Option<ObjectId>, weaks: &Weaks, held: StaticReference) -> Option<usize>
    ensures { result ≡ cleared_name (option_map (λ (o : Object). o.number) object) (holds_cleared weaks.now held) }
{
    match object {
        Some(object) if is_cleared(weaks, held) => Some(object.number),
        _ => None,
    }
}

/// Adds the names of the objects that statics held weakly before and whose references are cleared now, static by static.
fn push_cleared(
    cleared: &mut Vec<usize>,
    objects: &[Option<ObjectId>],
    weaks: &Weaks,
    statics: &[StaticReference],
)
    requires room { vec_len cleared.old + length objects.now ≤ vec_capacity cleared.old }
    requires count { length objects.now ≡ length statics.now }
    ensures { cleared.new.items ≡ cleared.old.items ++ cleared_names (map (option_map (λ (o : Object). o.number)) objects.now) (map (holds_cleared weaks.now) statics.now) }
{
    for place in 0..objects.len() {
        if let Some(name) = cleared_name(objects[place], weaks, statics[place]) {
            cleared.push_reserved(name);
        }
    }
}

/// The objects of these names, for which there is room.
fn push_objects(objects: &mut Vec<ObjectId>, names: &[usize])
    requires { vec_len objects.old + length names.now ≤ vec_capacity objects.old }
    ensures { names_of objects.new.items ≡ names_of objects.old.items ++ names.now }
{
    for place in 0..names.len() {
        objects.push_reserved(ObjectId {
            number: names[place],
        });
    }
}

/// Lists the objects that statics held weakly before and whose references are cleared now, each once, by rising names. There is
/// room for all of them in both lists.
pub(crate) fn list_cleared(
    names: &mut Vec<usize>,
    cleared: &mut Vec<ObjectId>,
    objects: &[Option<ObjectId>],
    weaks: &Weaks,
    statics: &[StaticReference],
)
    requires names { (names.old.items ≡ []) × (length objects.now ≤ vec_capacity names.old) }
    requires cleared { (cleared.old.items ≡ []) × (length objects.now ≤ vec_capacity cleared.old) }
    requires count { length objects.now ≡ length statics.now }
    ensures { ListsCleared objects.now weaks.now statics.now (names_of cleared.new.items) }
{
    push_cleared(names, objects, weaks, statics);
    names.sort_unstable();
    names.dedup();
    push_objects(cleared, names);
}
