//! Making objects.

ghost use Rattle.std.specs.Prelude.{◌≡◌, ◌+◌, ◌<◌, ◌^◌, ℕ, nat_le, replicate, slice_index_or, IfSome};
ghost use Rattle.class_rules.specs.BuiltIns.{string_class};
ghost use Rattle.classes.specs.Views.{field_type_view};
ghost use Rattle.heap.specs.Heap.{IsAddress, left_of};
ghost use Rattle.heap.specs.declared.value.Value.TheVariants.{Null, Block as Refers};
ghost use Rattle.machine_answers.specs.declared.answer.Answer.TheVariants as answer;
ghost use Rattle.machine_calls.specs.Made.{cells_of, noted_of_new, Allocates, Makes, Raises, RefersThere};
ghost use Rattle.machine_scenes.specs.NewObjects.{class_of_new, initial_value, initial_values, texts_in, units, values_of_exception, values_of_new, AreBytes, IsOfBytes};

use class_rules::ClassId;
use classes::LayoutFields;
use classes::built_ins::STRING;
use classes::class::FieldType;
use classes::table::ClassTable;
use heap::{Addr, Heap, Value};
use machine_scenes::new_object::{New, NewArray, text_at};
use machine_scenes::store::Store;

/// Makes an object for a call with these texts, if the heap has room. It takes no host memory.
/// The cost goes by the number of its values, and the depth of its class.
pub fn make(classes: &ClassTable, texts: &[Vec<u8>], store: &mut Store, new: New) -> Option<Addr>
    requires class { class_of_new new < 2 ^ 32 }
    requires few { store.old.births + 1 < 2 ^ 32 }
    requires there { RefersThere store.old.heap new }
    ensures { Makes classes.now (texts_in texts.now) store.old new store.new result }
{
    let birth = store.births + 1;
    match allocate(classes, texts, &mut store.heap, new, birth) {
        None => None,
        Some(addr) => {
            store.births = birth;
            Some(addr)
        }
    }
}

/// Makes a string of a text, and an exception of a class with it as message, if the heap has room for both.
/// It takes no host memory.
pub fn raise(
    classes: &ClassTable,
    texts: &[Vec<u8>],
    store: &mut Store,
    class: ClassId,
    place: usize,
) -> Option<Addr>
    requires class { class.number < 2 ^ 32 }
    requires few { store.old.births + 2 < 2 ^ 32 }
    ensures { Raises classes.now (texts_in texts.now) store.old class place store.new result }
{
    if !can_raise(classes, texts, &store.heap, class, place) {
        return None;
    }
    let message = make(classes, texts, store, New::Text(place)).unwrap();
    make(classes, texts, store, New::Exception { class, message })
}

/// Whether a string of a text and an exception of a class with it as message have room.
pub fn can_raise(
    classes: &ClassTable,
    texts: &[Vec<u8>],
    heap: &Heap,
    class: ClassId,
    place: usize,
) -> bool
    ensures { result ≡ nat_le (cells_of classes.now (texts_in texts.now) (answer.Raises class place)) (left_of heap.now) }
{
    let left = heap.left();
    let message = New::Text(place).cells(classes, texts);
    message <= left && New::Fresh(class).cells(classes, texts) <= left - message
}

/// Makes its block, if there is room.
fn allocate(
    classes: &ClassTable,
    texts: &[Vec<u8>],
    heap: &mut Heap,
    new: New,
    birth: u32,
) -> Option<Addr>
    requires class { class_of_new new < 2 ^ 32 }
    requires there { RefersThere heap.old new }
    ensures made { Allocates (noted_of_new classes.now new) heap.old (class_of_new new) birth
        (values_of_new classes.now (texts_in texts.now) new) heap.new result }
    ensures bytes { IfSome result (λ a. IsOfBytes (texts_in texts.now) new) }
{
    match new {
        New::Fresh(class) => allocate_fresh(classes, heap, class, birth),
        New::Array(array) => allocate_array(heap, &array, birth),
        New::Text(place) => allocate_text(heap, text_at(texts, place), birth),
        New::Exception { class, message } => {
            allocate_exception(classes, heap, class, message, birth)
        }
    }
}

/// Makes the block of an object with zero and null fields.
fn allocate_fresh(classes: &ClassTable, heap: &mut Heap, class: ClassId, birth: u32) -> Option<Addr>
    requires { class.number < 2 ^ 32 }
    ensures { Allocates Null heap.old class.number birth (initial_values classes.now class.number) heap.new result }
{
    // The proof reads off this call how the heap lies.
    let _ = heap.count();
    let mut fields = LayoutFields::of(classes, class);
    let count = fields.len();
    match heap.alloc(class.number as u32, birth, count, Value::Null) {
        Err(_) => None,
        Ok(addr) => {
            for place in 0..count {
                let id = fields.next().unwrap();
                heap.set(addr, place, initial_value(id.field.field_type));
            }
            Some(addr)
        }
    }
}

/// Makes the block of an exception with a message, which is its first field.
fn allocate_exception(
    classes: &ClassTable,
    heap: &mut Heap,
    class: ClassId,
    message: Addr,
    birth: u32,
) -> Option<Addr>
    requires class { class.number < 2 ^ 32 }
    requires message { IsAddress heap.old message }
    ensures { Allocates (slice_index_or (values_of_exception classes.now class.number message) 0 Null)
        heap.old class.number birth (values_of_exception classes.now class.number message) heap.new result }
{
    // The proof reads off this call how the heap lies.
    let _ = heap.count();
    match allocate_fresh(classes, heap, class, birth) {
        None => None,
        Some(addr) => {
            if heap.len_of(addr) > 0 {
                heap.set(addr, 0, Value::Block(message));
            }
            Some(addr)
        }
    }
}

/// Makes the block of an array.
fn allocate_array(heap: &mut Heap, array: &NewArray, birth: u32) -> Option<Addr>
    requires class { array.now.class.number < 2 ^ 32 }
    requires value { (a : ℕ) → array.now.value ≡ Refers a → IsAddress heap.old a }
    ensures { Allocates array.now.value heap.old array.now.class.number birth (replicate array.now.count array.now.value) heap.new result }
{
    let count = array.count as usize;
    match heap.alloc(array.class.number as u32, birth, count, array.value) {
        Err(_) => None,
        Ok(addr) => Some(addr),
    }
}

/// Makes the block of a string.
fn allocate_text(heap: &mut Heap, bytes: &[u8], birth: u32) -> Option<Addr>
    ensures made { Allocates Null heap.old string_class birth (units bytes.now) heap.new result }
    ensures bytes { IfSome result (λ a. AreBytes bytes.now) }
{
    // The proof reads off this call how the heap lies.
    let _ = heap.count();
    match heap.alloc(STRING.number as u32, birth, bytes.len(), Value::Null) {
        Err(_) => None,
        Ok(addr) => {
            for place in 0..bytes.len() {
                heap.set(addr, place, unit(bytes[place]));
            }
            Some(addr)
        }
    }
}

/// The UTF-16 unit of a byte.
fn unit(byte: u8) -> Value
    ensures unit { result ≡ Value.Number byte }
    ensures small { byte < 256 }
{
    Value::Number(u32::from(byte))
}

/// What a new field of this type holds.
fn initial_value(field_type: FieldType) -> Value
    ensures { result ≡ initial_value (field_type_view field_type) }
{
    match field_type {
        FieldType::Number(_) => Value::Number(0),
        FieldType::Reference(_) => Value::Null,
    }
}
