//! What a call is given, and its slots at its entry.

ghost use Rattle.std.specs.Prelude.{◌≡◌, ℕ, true, ◌++◌, ◌-◌, ◌<◌, ◌≤◌, [], length, map, filter_map, slice_get, IfOk, OnOk, OnErr, IsTrue, ◌+◌, None, replicate, vec_capacity};
ghost use Rattle.std.specs.List.{list_all};
ghost use Rattle.base.specs.Limits.{most_names, most_references};
ghost use Rattle.world_values.specs.Views.{object_value_view};
ghost use Rattle.world_values.specs.CallArguments.{is_argument};
ghost use Rattle.tables.specs.Locals.{pushed};
ghost use Rattle.tables.specs.References.{references_in};
ghost use Rattle.machine_threads.specs.Entry.{first_frame, given_address, given_word, AreEntryReferences, BeginsIn, HasMemoryFor, HasRoomFor, IsEnteringOf, IsNumbersOf};
ghost use Rattle.machine_threads.specs.Held.{held_value};

use crate::objects::held;
use crate::thread::{Entering, PendingCall};
use code::code::Code;
use code::stack::Stack;
use heap::{Addr, Value};
use machine_scenes::activation::{Activation, Slots};
use machine_scenes::buffer::Buffer;
use machine_scenes::handle::Handle;
use semantics::ObjectId;
use std::alloc::{AllocError, Global};
use tables::{Local, Locals, TableFault};
use world_values::ObjectValue;

/// How many local references more a native method may have than it is given (JNI Specification, chapter 2, "Local
/// References").
const MORE_LOCALS: u32 = 16;

/// A call that a thread has still to make, with what it is given by addresses.
pub fn entering_of(
    alloc: Global,
    loaded: &[Addr],
    next: &PendingCall,
) -> Result<Entering, AllocError>
    requires { IsTrue (list_all (is_argument (length loaded.now)) (map object_value_view next.now.arguments.items)) }
    ensures { IfOk result (λ entering. IsEnteringOf loaded.now next.now entering) }
{
    Ok(Entering {
        function: next.function,
        class: next.class,
        arguments: values_given(alloc, loaded, &next.arguments)?,
    })
}

/// These arguments by the addresses of their objects.
fn values_given(
    alloc: Global,
    loaded: &[Addr],
    arguments: &[ObjectValue],
) -> Result<Vec<Value>, AllocError>
    requires { IsTrue (list_all (is_argument (length loaded.now)) (map object_value_view arguments.now)) }
    ensures { IfOk result (λ values. values.items ≡ map (held_value loaded.now) (map object_value_view arguments.now)) }
{
    let mut values = Vec::with_capacity(alloc, arguments.len())?;
    for argument in arguments {
        values.push(held(loaded, *argument))?;
    }
    Ok(values)
}

/// A call before its first instruction.
pub fn begin(
    alloc: Global,
    code: &Code,
    loaded: &[Addr],
    next: &Entering,
) -> Result<Activation, AllocError>
    requires class { (0 < next.now.class.number) × (next.now.class.number ≤ length loaded.now) }
    requires room { HasRoomFor code.now next.now.arguments.items }
    requires few { length next.now.arguments.items ≤ most_names }
    ensures { IfOk result (λ activation. BeginsIn code.now loaded.now next.now activation) }
{
    let slots = code.slots();
    let mut fields = Vec::new(alloc);
    fields.resize(slots.field_ids as usize, None)?;
    let mut buffers = Vec::new(alloc);
    buffers.resize(slots.buffers as usize, Buffer::Null)?;
    let mut numbers = Vec::with_capacity(alloc, slots.numbers as usize)?;
    let given = fill_numbers(&mut numbers, &next.arguments, slots.numbers as usize);
    let mut references = Vec::with_capacity(alloc, slots.references as usize)?;
    let mut locals = Locals::new(alloc)?;
    push_first(&mut locals, 1 + given + MORE_LOCALS)?;
    fill_references(
        &mut locals,
        &mut references,
        loaded,
        next,
        slots.references as usize,
    );
    Ok(Activation {
        function: next.function,
        place: 0,
        stack: Stack::new(),
        slots: Slots {
            numbers,
            references,
            fields,
            buffers,
        },
        locals,
    })
}

/// Whether what an ended call takes serves for one with this code.
#[inline(always)]
pub fn serves(ended: &Activation, code: &Code) -> bool
    ensures { result ≡ true → HasMemoryFor code.now ended.now }
{
    let slots = code.slots();
    ended.slots.numbers.capacity() >= slots.numbers as usize
        && ended.slots.references.capacity() >= slots.references as usize
        && ended.slots.fields.capacity() >= slots.field_ids as usize
        && ended.slots.buffers.capacity() >= slots.buffers as usize
        && ended.locals.frames() > 0
}

/// A call before its first instruction, in the place of one that has ended. It takes no host memory.
#[inline(always)]
pub fn begin_again(ended: &mut Activation, code: &Code, loaded: &[Addr], next: &Entering)
    requires class { (0 < next.now.class.number) × (next.now.class.number ≤ length loaded.now) }
    requires room { HasRoomFor code.now next.now.arguments.items }
    requires few { length next.now.arguments.items ≤ most_names }
    requires memory { HasMemoryFor code.now ended.old }
    ensures { BeginsIn code.now loaded.now next.now ended.new }
{
    let slots = code.slots();
    ended.function = next.function;
    ended.place = 0;
    ended.stack.clear();
    let given = fill_numbers(
        &mut ended.slots.numbers,
        &next.arguments,
        slots.numbers as usize,
    );
    empty_fields(&mut ended.slots.fields, slots.field_ids as usize);
    empty_buffers(&mut ended.slots.buffers, slots.buffers as usize);
    ended.locals.restart(1 + given + MORE_LOCALS);
    fill_references(
        &mut ended.locals,
        &mut ended.slots.references,
        loaded,
        next,
        slots.references as usize,
    );
}

/// `count` slots of field IDs and method IDs, all NULL. Most functions have none.
#[inline(always)]
fn empty_fields(slots: &mut Vec<Option<Handle>>, count: usize)
    requires room { count ≤ vec_capacity slots.old }
    ensures { slots.new.items ≡ replicate count None }
{
    slots.clear();
    if count == 0 {
        return;
    }
    fill_fields(slots, count);
}

/// Fills the slots of a function that has some. It stands apart from the entry of all others.
#[inline(never)]
fn fill_fields(slots: &mut Vec<Option<Handle>>, count: usize)
    requires none { slots.old.items ≡ [] }
    requires room { count ≤ vec_capacity slots.old }
    ensures { slots.new.items ≡ replicate count None }
{
    slots.resize(count, None).unwrap();
}

/// `count` slots of buffers, all NULL. Most functions have none.
#[inline(always)]
fn empty_buffers(slots: &mut Vec<Buffer>, count: usize)
    requires room { count ≤ vec_capacity slots.old }
    ensures { slots.new.items ≡ replicate count Buffer.Null }
{
    slots.clear();
    if count == 0 {
        return;
    }
    fill_buffers(slots, count);
}

/// Fills the slots of a function that has some, apart likewise.
#[inline(never)]
fn fill_buffers(slots: &mut Vec<Buffer>, count: usize)
    requires none { slots.old.items ≡ [] }
    requires room { count ≤ vec_capacity slots.old }
    ensures { slots.new.items ≡ replicate count Buffer.Null }
{
    slots.resize(count, Buffer::Null).unwrap();
}

/// `count` number slots, of which the first hold the numbers that the call is given. The answer is how many of its arguments are references
/// but NULL: so one walk over them serves for both.
#[inline(always)]
fn fill_numbers(slots: &mut Vec<u32>, arguments: &[Value], count: usize) -> u32
    requires given { length (filter_map given_word arguments.now) ≤ count }
    requires room { count ≤ vec_capacity slots.old }
    requires few { length arguments.now ≤ most_names }
    ensures numbers { IsNumbersOf count arguments.now slots.new.items }
    ensures references { result ≡ length (references_in (filter_map given_address arguments.now)) }
    ensures few { result ≤ most_names }
{
    slots.clear();
    let mut references = 0;
    for argument in arguments {
        match argument {
            Value::Number(number) => slots.push_reserved(*number),
            Value::Null => {}
            Value::Block(_) => references += 1,
        }
    }
    add_zeros(slots, count);
    references
}

/// `count` number slots in all, of which the further ones hold 0.
#[inline(always)]
fn add_zeros(slots: &mut Vec<u32>, count: usize)
    requires given { length slots.old.items ≤ count }
    requires room { count ≤ vec_capacity slots.old }
    ensures { slots.new.items ≡ slots.old.items ++ replicate (count - length slots.old.items) 0 }
{
    if slots.len() < count {
        fill_zeros(slots, count);
    }
}

/// The same of a function that has more number slots than it is given numbers. It stands apart from the entry of all others.
#[inline(never)]
fn fill_zeros(slots: &mut Vec<u32>, count: usize)
    requires given { length slots.old.items ≤ count }
    requires room { count ≤ vec_capacity slots.old }
    ensures { slots.new.items ≡ slots.old.items ++ replicate (count - length slots.old.items) 0 }
{
    slots.resize(count, 0).unwrap();
}

/// Makes references to a call's class and to what it is given but NULL, in the first frame, which has none yet. The first of
/// `count` slots have their keys, in order.
#[inline(always)]
fn fill_references(
    locals: &mut Locals,
    keys: &mut Vec<Option<Local>>,
    loaded: &[Addr],
    next: &Entering,
    count: usize,
)
    requires frame { locals.old ≡ first_frame (length (references_in (filter_map given_address next.now.arguments.items)) + 17) }
    requires class { (0 < next.now.class.number) × (next.now.class.number ≤ length loaded.now) }
    requires given { length (filter_map given_address next.now.arguments.items) < count }
    requires room { count ≤ vec_capacity keys.old }
    ensures { AreEntryReferences count loaded.now next.now.class.number next.now.arguments.items locals.new keys.new.items }
{
    keys.clear();
    let object = object_of(loaded, ObjectId::of_class(next.class)).unwrap();
    let key = locals.make_in_room(object);
    keys.push_reserved(Some(key));
    for argument in &next.arguments {
        match argument {
            Value::Number(_) => {}
            Value::Null => keys.push_reserved(None),
            Value::Block(addr) => {
                let key = locals.make_in_room(*addr);
                keys.push_reserved(Some(key));
            }
        }
    }
    add_nulls(keys, count);
}

/// `count` slots of references in all, of which the further ones are NULL.
#[inline(always)]
fn add_nulls(keys: &mut Vec<Option<Local>>, count: usize)
    requires given { length keys.old.items ≤ count }
    requires room { count ≤ vec_capacity keys.old }
    ensures { keys.new.items ≡ keys.old.items ++ replicate (count - length keys.old.items) None }
{
    if keys.len() < count {
        fill_nulls(keys, count);
    }
}

/// The same of a function that has more slots of references than it is given references, apart likewise.
#[inline(never)]
fn fill_nulls(keys: &mut Vec<Option<Local>>, count: usize)
    requires given { length keys.old.items ≤ count }
    requires room { count ≤ vec_capacity keys.old }
    ensures { keys.new.items ≡ keys.old.items ++ replicate (count - length keys.old.items) None }
{
    keys.resize(count, None).unwrap();
}

/// Makes the first frame, of this capacity.
fn push_first(locals: &mut Locals, capacity: u32) -> Result<(), AllocError>
    requires none { locals.old ≡ record { frames = []; slots = [] } }
    requires few { capacity ≤ most_references }
    ensures pushed { OnOk result (locals.new ≡ pushed locals.old capacity) }
    ensures err { OnErr result (locals.new ≡ locals.old) }
{
    match locals.push(capacity) {
        Ok(()) => Ok(()),
        Err(TableFault::Full) => unreachable!(),
        Err(_) => Err(AllocError),
    }
}

/// The address of the object of a name.
fn object_of(loaded: &[Addr], name: ObjectId) -> Option<Addr>
    requires { 0 < name.number }
    ensures { result ≡ slice_get loaded.now (name.number - 1) }
{
    loaded.get(name.number - 1).copied()
}
