//! The roots: what refers to objects from outside of the heap. A report begins with them, a collection keeps what they
//! name, and moves them along. Views are no roots of a collection: what they are of is pinned, so it stays, and slots
//! have its address yet. A report begins with them too.
//!
//! A kind of root has a line in `fill_roots`, one in `put_back` and one in `root_places`, at the same place of each, one
//! in `count_roots`, and no other.

ghost use Rattle.std.specs.Prelude.{◌≡◌, ℕ, [], ◌+◌, ◌++◌, ◌≤◌, IfOk, OnOk, flat_map, length, map, vec_capacity, vec_len};
ghost use Rattle.std.specs.Option.{option_map};
ghost use Rattle.compact.specs.Same.{moved_value};
ghost use Rattle.tables.specs.Locals.{AreStacked};
ghost use Rattle.tables.specs.References.{references_in};
ghost use Rattle.monitors.specs.Monitors.{addresses};
ghost use Rattle.semantics.specs.Views.{names_of};
ghost use Rattle.machine_collections.specs.Moving.{AreMoved, AreMovedAt, moved_call, moved_entering, moved_locals, moved_monitors, moved_slots, moved_thread};
ghost use Rattle.machine_scenes.specs.Given.{object_there, ReferenceIsThere};
ghost use Rattle.machine_collections.specs.Roots.{AreAddresses, CallIsStacked, CallersAreStacked, ThreadIsStacked, ThreadsAreStacked, argument_place, argument_places, call_places, loaded_places, pinned_names, reference_names, root_places, slots_of, thread_places};

use crate::counting::count_roots;
use compact::Roots;
use heap::{Addr, Heap, Value};
use machine_scenes::operands::object_there;
use machine_scenes::store::Store;
use machine_threads::boxed_activation::BoxedActivation;
use machine_threads::thread::{Entering, Thread};
use monitors::Monitors;
use semantics::ObjectId;
use std::alloc::{AllocError, Global};
use tables::{Globals, Locals};

/// The roots, place by place: each with the address of an object, or none.
#[derive(Drop)]
pub struct RootPlaces {
    pub places: Vec<Option<Addr>>,
}

impl Roots for RootPlaces {
    ghost roots = { λ roots. roots.places.items };

    fn len(&self) -> usize {
        self.places.len()
    }

    fn root(&self, place: usize) -> Option<Addr> {
        self.places[place]
    }

    fn set_root(&mut self, place: usize, address: Addr) {
        self.places[place] = Some(address);
    }
}

/// The roots, by the places in their tables.
///
/// They are the objects made at load, the global references, of each thread the local references of all its calls, what
/// a call is given that isn't entered yet, and the pending exception, and the objects whose monitors are owned.
pub fn gather(alloc: Global, store: &Store, threads: &[Thread]) -> Result<RootPlaces, AllocError>
    ensures places { IfOk result (λ roots. roots.places.items ≡ root_places store.now threads.now) }
    ensures stacked { IfOk result (λ _. ThreadsAreStacked threads.now) }
{
    let mut roots = reserve_roots(alloc, store, threads)?;
    fill_roots(&mut roots, store, threads);
    Ok(roots)
}

/// Takes the memory for all roots, and lists none: of a call only the number of its local references is read.
pub(crate) fn reserve_roots(
    alloc: Global,
    store: &Store,
    threads: &[Thread],
) -> Result<RootPlaces, AllocError>
    ensures none { IfOk result (λ roots. roots.places.items ≡ []) }
    ensures room { IfOk result (λ roots. length (root_places store.now threads.now) ≤ vec_capacity roots.places) }
{
    let count = count_roots(store, threads)?;
    Ok(RootPlaces {
        places: Vec::with_capacity(alloc, count)?,
    })
}

/// Lists the roots, for which there is room.
pub(crate) fn fill_roots(roots: &mut RootPlaces, store: &Store, threads: &[Thread])
    requires none { roots.old.places.items ≡ [] }
    requires room { length (root_places store.now threads.now) ≤ vec_capacity roots.old.places }
    ensures places { roots.new.places.items ≡ root_places store.now threads.now }
    ensures stacked { ThreadsAreStacked threads.now }
{
    push_loaded(&mut roots.places, &store.loaded);
    push_globals(&mut roots.places, &store.globals);
    push_threads(&mut roots.places, threads);
    push_monitors(&mut roots.places, &store.monitors);
}

/// Puts the roots back, where a collection has moved what they name.
pub(crate) fn put_back(roots: &RootPlaces, store: &mut Store, threads: &mut [Thread])
    requires { (to : ℕ → ℕ) × (roots.now.places.items ≡ moved_slots to (root_places store.old threads.old)) }
    ensures moved { (to : ℕ → ℕ) → roots.now.places.items ≡ moved_slots to (root_places store.old threads.old)
        → AreMoved to store.old threads.old store.new threads.new }
    ensures weaks { store.new.weaks ≡ store.old.weaks }
{
    let next = put_loaded(&mut store.loaded, roots);
    let next = put_globals(&mut store.globals, roots, next);
    let next = put_threads(threads, roots, next);
    put_monitors(&mut store.monitors, roots, next);
}

/// The names of the objects that roots name, by their places.
pub fn root_names(
    alloc: Global,
    heap: &Heap,
    roots: &RootPlaces,
) -> Result<Vec<ObjectId>, AllocError>
    requires { AreAddresses heap.now (references_in roots.now.places.items) }
    ensures { IfOk result (λ names. names_of names.items ≡ map (object_there heap.now) (references_in roots.now.places.items)) }
{
    let mut names = Vec::new(alloc);
    for place in 0..roots.len() {
        push_name(&mut names, heap, roots.root(place))?;
    }
    Ok(names)
}

/// Adds the names of the objects that are viewed, whose blocks are pinned.
pub fn push_viewed(names: &mut Vec<ObjectId>, heap: &Heap) -> Result<(), AllocError>
    ensures { OnOk result (names_of names.new.items ≡ names_of names.old.items ++ pinned_names heap.now.blocks) }
{
    for place in 0..heap.count() {
        let viewed = heap.address(place);
        if heap.pins(viewed) > 0 {
            names.push(object_there(heap, viewed))?;
        }
    }
    Ok(())
}

/// Adds the name of a root's object, if there is one.
fn push_name(
    names: &mut Vec<ObjectId>,
    heap: &Heap,
    reference: Option<Addr>,
) -> Result<(), AllocError>
    requires { ReferenceIsThere heap.now reference }
    ensures { OnOk result (names_of names.new.items ≡ names_of names.old.items ++ reference_names heap.now reference) }
{
    match reference {
        None => Ok(()),
        Some(addr) => {
            names.push(object_there(heap, addr))?;
            Ok(())
        }
    }
}

/// Adds the objects made at load.
fn push_loaded(places: &mut Vec<Option<Addr>>, loaded: &[Addr])
    requires room { vec_len places.old + length (loaded_places loaded.now) ≤ vec_capacity places.old }
    ensures places { places.new.items ≡ places.old.items ++ loaded_places loaded.now }
    ensures len { vec_len places.new ≡ vec_len places.old + length (loaded_places loaded.now) }
    ensures capacity { vec_capacity places.new ≡ vec_capacity places.old }
{
    for addr in loaded {
        places.push_reserved(Some(*addr));
    }
}

/// Adds the global references.
fn push_globals(places: &mut Vec<Option<Addr>>, globals: &Globals)
    requires room { vec_len places.old + length (globals.now) ≤ vec_capacity places.old }
    ensures places { places.new.items ≡ places.old.items ++ globals.now }
    ensures len { vec_len places.new ≡ vec_len places.old + length (globals.now) }
    ensures capacity { vec_capacity places.new ≡ vec_capacity places.old }
{
    for place in 0..globals.len() {
        places.push_reserved(globals.root(place));
    }
}

/// Adds what threads refer to.
fn push_threads(places: &mut Vec<Option<Addr>>, threads: &[Thread])
    requires room { vec_len places.old + length (flat_map thread_places threads.now) ≤ vec_capacity places.old }
    ensures places { places.new.items ≡ places.old.items ++ flat_map thread_places threads.now }
    ensures len { vec_len places.new ≡ vec_len places.old + length (flat_map thread_places threads.now) }
    ensures capacity { vec_capacity places.new ≡ vec_capacity places.old }
    ensures stacked { ThreadsAreStacked threads.now }
{
    for thread in threads {
        push_thread(places, thread);
    }
}

/// Adds what a thread refers to.
fn push_thread(places: &mut Vec<Option<Addr>>, thread: &Thread)
    requires room { vec_len places.old + length (thread_places thread.now) ≤ vec_capacity places.old }
    ensures places { places.new.items ≡ places.old.items ++ thread_places thread.now }
    ensures len { vec_len places.new ≡ vec_len places.old + length (thread_places thread.now) }
    ensures capacity { vec_capacity places.new ≡ vec_capacity places.old }
    ensures stacked { ThreadIsStacked thread.now }
{
    push_callers(places, &thread.callers);
    push_entering(places, &thread.entering);
    push_call(places, &thread.call);
    places.push_reserved(thread.pending);
}

/// Adds the local references of the calls from which others were made.
fn push_callers(places: &mut Vec<Option<Addr>>, callers: &[BoxedActivation])
    requires room { vec_len places.old + length (flat_map call_places callers.now) ≤ vec_capacity places.old }
    ensures places { places.new.items ≡ places.old.items ++ flat_map call_places callers.now }
    ensures len { vec_len places.new ≡ vec_len places.old + length (flat_map call_places callers.now) }
    ensures capacity { vec_capacity places.new ≡ vec_capacity places.old }
    ensures stacked { CallersAreStacked callers.now }
{
    for caller in callers {
        push_locals(places, &caller.get().locals);
    }
}

/// Adds what a call is given that isn't entered yet.
fn push_entering(places: &mut Vec<Option<Addr>>, entering: &Option<Entering>)
    requires room { vec_len places.old + length (argument_places entering.now) ≤ vec_capacity places.old }
    ensures places { places.new.items ≡ places.old.items ++ argument_places entering.now }
    ensures len { vec_len places.new ≡ vec_len places.old + length (argument_places entering.now) }
    ensures capacity { vec_capacity places.new ≡ vec_capacity places.old }
{
    if let Some(entering) = entering {
        push_arguments(places, &entering.arguments);
    }
}

/// Adds the arguments of a call, of which numbers have no address.
fn push_arguments(places: &mut Vec<Option<Addr>>, arguments: &[Value])
    requires room { vec_len places.old + length (map argument_place arguments.now) ≤ vec_capacity places.old }
    ensures places { places.new.items ≡ places.old.items ++ map argument_place arguments.now }
    ensures len { vec_len places.new ≡ vec_len places.old + length (map argument_place arguments.now) }
    ensures capacity { vec_capacity places.new ≡ vec_capacity places.old }
{
    for argument in arguments {
        places.push_reserved(address_of(*argument));
    }
}

/// The address of an argument that is a reference.
fn address_of(argument: Value) -> Option<Addr>
    ensures { result ≡ argument_place argument }
{
    match argument {
        Value::Number(_) => None,
        Value::Null => None,
        Value::Block(addr) => Some(addr),
    }
}

/// Adds the local references of a call in progress.
fn push_call(places: &mut Vec<Option<Addr>>, call: &Option<BoxedActivation>)
    requires room { vec_len places.old + length (slots_of call.now) ≤ vec_capacity places.old }
    ensures places { places.new.items ≡ places.old.items ++ slots_of call.now }
    ensures len { vec_len places.new ≡ vec_len places.old + length (slots_of call.now) }
    ensures capacity { vec_capacity places.new ≡ vec_capacity places.old }
    ensures stacked { CallIsStacked call.now }
{
    if let Some(boxed) = call {
        push_locals(places, &boxed.get().locals);
    }
}

/// Adds local references.
fn push_locals(places: &mut Vec<Option<Addr>>, locals: &Locals)
    requires room { vec_len places.old + length (locals.now.slots) ≤ vec_capacity places.old }
    ensures places { places.new.items ≡ places.old.items ++ locals.now.slots }
    ensures len { vec_len places.new ≡ vec_len places.old + length (locals.now.slots) }
    ensures capacity { vec_capacity places.new ≡ vec_capacity places.old }
    ensures stacked { AreStacked locals.now }
{
    let _frames = locals.frames();
    for place in 0..locals.len() {
        places.push_reserved(locals.root(place));
    }
}

/// Adds the objects whose monitors are owned.
fn push_monitors(places: &mut Vec<Option<Addr>>, monitors: &Monitors)
    requires room { vec_len places.old + length (addresses monitors.now) ≤ vec_capacity places.old }
    ensures places { places.new.items ≡ places.old.items ++ addresses monitors.now }
    ensures len { vec_len places.new ≡ vec_len places.old + length (addresses monitors.now) }
    ensures capacity { vec_capacity places.new ≡ vec_capacity places.old }
{
    for place in 0..monitors.len() {
        places.push_reserved(monitors.root(place));
    }
}

/// Puts back the objects made at load, and tells the next place.
fn put_loaded(loaded: &mut [Addr], roots: &RootPlaces) -> usize
    requires { (to : ℕ → ℕ) × AreMovedAt to (loaded_places loaded.old) roots.now.places.items 0 }
    ensures moved { (to : ℕ → ℕ) → AreMovedAt to (loaded_places loaded.old) roots.now.places.items 0
        → loaded.new ≡ map to loaded.old }
    ensures next { result ≡ length loaded.old }
{
    for place in 0..loaded.len() {
        if let Some(addr) = roots.root(place) {
            loaded[place] = addr;
        }
    }
    loaded.len()
}

/// Puts back the global references, from a place on, and tells the next one.
fn put_globals(globals: &mut Globals, roots: &RootPlaces, from: usize) -> usize
    requires { (to : ℕ → ℕ) × AreMovedAt to globals.old roots.now.places.items from }
    ensures moved { (to : ℕ → ℕ) → AreMovedAt to globals.old roots.now.places.items from
        → globals.new ≡ moved_slots to globals.old }
    ensures next { result ≡ from + length globals.old }
{
    for place in 0..globals.len() {
        if let Some(addr) = roots.root(from + place) {
            globals.set_root(place, addr);
        }
    }
    from + globals.len()
}

/// Puts back what threads refer to, from a place on, and tells the next one.
fn put_threads(threads: &mut [Thread], roots: &RootPlaces, from: usize) -> usize
    requires { (to : ℕ → ℕ) × AreMovedAt to (flat_map thread_places threads.old) roots.now.places.items from }
    ensures moved { (to : ℕ → ℕ) → AreMovedAt to (flat_map thread_places threads.old) roots.now.places.items from
        → threads.new ≡ map (moved_thread to) threads.old }
    ensures next { result ≡ from + length (flat_map thread_places threads.old) }
{
    let mut next = from;
    for index in 0..threads.len() {
        next = put_thread(&mut threads[index], roots, next);
    }
    next
}

/// Puts back what a thread refers to, from a place on, and tells the next one.
fn put_thread(thread: &mut Thread, roots: &RootPlaces, from: usize) -> usize
    requires { (to : ℕ → ℕ) × AreMovedAt to (thread_places thread.old) roots.now.places.items from }
    ensures moved { (to : ℕ → ℕ) → AreMovedAt to (thread_places thread.old) roots.now.places.items from
        → thread.new ≡ moved_thread to thread.old }
    ensures next { result ≡ from + length (thread_places thread.old) }
{
    let next = put_callers(&mut thread.callers, roots, from);
    let next = put_entering(&mut thread.entering, roots, next);
    let next = put_call(&mut thread.call, roots, next);
    thread.pending = roots.root(next);
    next + 1
}

/// Puts back the local references of the calls from which others were made, from a place on, and tells the next one.
fn put_callers(callers: &mut [BoxedActivation], roots: &RootPlaces, from: usize) -> usize
    requires { (to : ℕ → ℕ) × AreMovedAt to (flat_map call_places callers.old) roots.now.places.items from }
    ensures moved { (to : ℕ → ℕ) → AreMovedAt to (flat_map call_places callers.old) roots.now.places.items from
        → callers.new ≡ map (moved_call to) callers.old }
    ensures next { result ≡ from + length (flat_map call_places callers.old) }
{
    let mut next = from;
    for index in 0..callers.len() {
        next = put_caller(&mut callers[index], roots, next);
    }
    next
}

/// Puts back the local references of a call, from a place on, and tells the next one.
fn put_caller(call: &mut BoxedActivation, roots: &RootPlaces, from: usize) -> usize
    requires { (to : ℕ → ℕ) × AreMovedAt to (call_places call.old) roots.now.places.items from }
    ensures moved { (to : ℕ → ℕ) → AreMovedAt to (call_places call.old) roots.now.places.items from
        → call.new ≡ moved_call to call.old }
    ensures next { result ≡ from + length (call_places call.old) }
{
    let activation = call.get_mut();
    put_locals(&mut activation.locals, roots, from)
}

/// Puts back what a call is given that isn't entered yet, from a place on, and tells the next one.
fn put_entering(entering: &mut Option<Entering>, roots: &RootPlaces, from: usize) -> usize
    requires { (to : ℕ → ℕ) × AreMovedAt to (argument_places entering.old) roots.now.places.items from }
    ensures moved { (to : ℕ → ℕ) → AreMovedAt to (argument_places entering.old) roots.now.places.items from
        → entering.new ≡ option_map (moved_entering to) entering.old }
    ensures next { result ≡ from + length (argument_places entering.old) }
{
    match entering {
        None => from,
        Some(entering) => put_arguments(&mut entering.arguments, roots, from),
    }
}

/// Puts back the arguments of a call, from a place on, and tells the next one.
fn put_arguments(arguments: &mut [Value], roots: &RootPlaces, from: usize) -> usize
    requires { (to : ℕ → ℕ) × AreMovedAt to (map argument_place arguments.old) roots.now.places.items from }
    ensures moved { (to : ℕ → ℕ) → AreMovedAt to (map argument_place arguments.old) roots.now.places.items from
        → arguments.new ≡ map (moved_value to) arguments.old }
    ensures next { result ≡ from + length (map argument_place arguments.old) }
{
    for place in 0..arguments.len() {
        if let Some(addr) = roots.root(from + place) {
            arguments[place] = Value::Block(addr);
        }
    }
    from + arguments.len()
}

/// Puts back the local references of a call in progress, from a place on, and tells the next one.
fn put_call(call: &mut Option<BoxedActivation>, roots: &RootPlaces, from: usize) -> usize
    requires { (to : ℕ → ℕ) × AreMovedAt to (slots_of call.old) roots.now.places.items from }
    ensures moved { (to : ℕ → ℕ) → AreMovedAt to (slots_of call.old) roots.now.places.items from
        → call.new ≡ option_map (moved_call to) call.old }
    ensures next { result ≡ from + length (slots_of call.old) }
{
    match call {
        None => from,
        Some(boxed) => {
            let activation = boxed.get_mut();
            put_locals(&mut activation.locals, roots, from)
        }
    }
}

/// Puts back local references, from a place on, and tells the next one.
fn put_locals(locals: &mut Locals, roots: &RootPlaces, from: usize) -> usize
    requires { (to : ℕ → ℕ) × AreMovedAt to locals.old.slots roots.now.places.items from }
    ensures moved { (to : ℕ → ℕ) → AreMovedAt to locals.old.slots roots.now.places.items from
        → locals.new ≡ moved_locals to locals.old }
    ensures next { result ≡ from + length locals.old.slots }
{
    for place in 0..locals.len() {
        if let Some(addr) = roots.root(from + place) {
            locals.set_root(place, addr);
        }
    }
    from + locals.len()
}

/// Puts back the objects whose monitors are owned, from a place on.
fn put_monitors(monitors: &mut Monitors, roots: &RootPlaces, from: usize)
    requires { (to : ℕ → ℕ) × AreMovedAt to (addresses monitors.old) roots.now.places.items from }
    ensures { (to : ℕ → ℕ) → AreMovedAt to (addresses monitors.old) roots.now.places.items from
        → monitors.new ≡ moved_monitors to monitors.old }
{
    for place in 0..monitors.len() {
        if let Some(addr) = roots.root(from + place) {
            monitors.set_root(place, addr);
        }
    }
}
