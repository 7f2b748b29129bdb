//! Elements of buffers.

ghost use Rattle.std.specs.Prelude.{◌≡◌, ◌<◌, ◌+◌, ◌^◌, ℕ, ◌∷◌, List, length, nat_lt, slice_get};
ghost use Rattle.code.specs.Effect.{element_word};
ghost use Rattle.machine_answers.specs.Copies.{words_at};
ghost use Rattle.machine_answers.specs.BufferChanges.{numbers_at};
ghost use Rattle.machine_answers.specs.WorkedOut.{buffer_there};
ghost use Rattle.std.specs.Prelude.{map};
ghost use Rattle.std.specs.Int.{w32, cast_unsigned};
ghost use Rattle.heap.specs.Heap.{IsAddress};
ghost use Rattle.machine_steps.specs.BufferElements.{IsOfBlock, LoadsElement, StoresElement, with_word, words_held};

use crate::variable::buffer_there;
use code::instr::ElementType;
use code::plain::element_word;
use heap::{Addr, Heap, Value};
use machine_scenes::activation::Activation;
use machine_scenes::buffer::Buffer;
use machine_scenes::store::Store;
use semantics::{Event, Trap};
use tables::{Copied, Elements};

/// Replaces the topmost word, an index, by the element of a buffer there.
/// Past the end a trap on this line leaves all as it was.
#[inline(always)]
pub fn load_element(store: &Store, activation: &mut Activation, slot: u32, line: u32) -> Event
    requires operand { 0 < length activation.old.stack }
    requires place { activation.old.place + 1 < 2 ^ 64 }
    requires block { IsOfBlock store.now.heap (buffer_there activation.old.slots.buffers.items slot) }
    ensures { (index : ℕ) (stack : List ℕ) → activation.old.stack ≡ index ∷ stack
        → LoadsElement line stack (slice_get (words_held store.now
        (buffer_there activation.old.slots.buffers.items slot)) index) activation.old activation.new result }
{
    let buffer = buffer_there(&activation.slots.buffers, slot as usize);
    match element_at(store, buffer, activation.stack.top() as usize) {
        Some(word) => {
            activation.stack.replace_top(word);
            activation.place += 1;
            Event::Quiet
        }
        None => Event::Trapped {
            trap: Trap::OutOfRange,
            line: line as usize,
        },
    }
}

/// Writes the topmost word to a buffer, at the index that is the word below it, converted to the elements' type.
/// Past the end a trap on this line leaves all as it was.
#[inline(never)]
pub fn store_element(
    store: &mut Store,
    activation: &mut Activation,
    element: ElementType,
    slot: u32,
    line: u32,
) -> Event
    requires operands { 1 < length activation.old.stack }
    requires place { activation.old.place + 1 < 2 ^ 64 }
    requires block { IsOfBlock store.old.heap (buffer_there activation.old.slots.buffers.items slot) }
    ensures { (word index : ℕ) (stack : List ℕ) → activation.old.stack ≡ word ∷ index ∷ stack
        → StoresElement line stack
        (nat_lt index (length (words_held store.old (buffer_there activation.old.slots.buffers.items slot))))
        store.old (buffer_there activation.old.slots.buffers.items slot) index (element_word element word)
        store.new activation.old activation.new result }
{
    let count = count_of(
        store,
        buffer_there(&activation.slots.buffers, slot as usize),
    );
    let word = activation.stack.pop();
    let index = activation.stack.pop();
    if (index as usize) < count {
        write(
            store,
            buffer_there(&activation.slots.buffers, slot as usize),
            index as usize,
            element_word(element, word),
        );
        activation.place += 1;
        Event::Quiet
    } else {
        activation.stack.push(index);
        activation.stack.push(word);
        Event::Trapped {
            trap: Trap::OutOfRange,
            line: line as usize,
        }
    }
}

/// How many elements a buffer has.
fn count_of(store: &Store, buffer: Buffer) -> usize
    requires { IsOfBlock store.now.heap buffer }
    ensures { result ≡ length (words_held store.now buffer) }
{
    match buffer {
        Buffer::Null => 0,
        Buffer::Copy(key) => store.elements.len(key).unwrap_or(0),
        Buffer::View(addr) => store.heap.len_of(addr),
    }
}

/// The element of a buffer at an index, as a word, if it is there.
#[inline(never)]
fn element_at(store: &Store, buffer: Buffer, index: usize) -> Option<u32>
    requires { IsOfBlock store.now.heap buffer }
    ensures { result ≡ slice_get (words_held store.now buffer) index }
{
    match buffer {
        Buffer::Null => None,
        Buffer::Copy(key) => copied_at(&store.elements, key, index),
        Buffer::View(addr) => viewed_at(&store.heap, addr, index),
    }
}

/// The element of a copied list at an index, as a word, if it is there.
fn copied_at(elements: &Elements, key: Copied, index: usize) -> Option<u32>
    ensures { result ≡ slice_get (map (λ z. cast_unsigned w32 z) (numbers_at elements.now key)) index }
{
    if index < elements.len(key).unwrap_or(0) {
        match elements.read(key, index) {
            Ok(number) => Some(number.cast_unsigned()),
            Err(_) => None,
        }
    } else {
        None
    }
}

/// The element of an object at an index, as a word, if it is there.
fn viewed_at(heap: &Heap, addr: Addr, index: usize) -> Option<u32>
    requires { IsAddress heap.now addr }
    ensures { result ≡ slice_get (words_at heap.now addr) index }
{
    if index < heap.len_of(addr) {
        match heap.get(addr, index) {
            Value::Number(word) => Some(word),
            _ => Some(0),
        }
    } else {
        None
    }
}

/// Writes an element of a buffer that is there.
fn write(store: &mut Store, buffer: Buffer, index: usize, word: u32)
    requires { index < length (words_held store.old buffer) }
    ensures { store.new ≡ with_word store.old buffer index word }
{
    match buffer {
        Buffer::Null => {}
        Buffer::Copy(key) => {
            let _ = store.elements.write(key, index, word.cast_signed());
        }
        Buffer::View(addr) => store.heap.set(addr, index, Value::Number(word)),
    }
}
