//! Copies between arrays or strings and number slots.

ghost use Rattle.std.specs.Prelude.{◌≡◌, ◌+◌, ◌<◌, ◌≤◌, ℕ, length};
ghost use Rattle.heap.specs.Heap.{values_at};
ghost use Rattle.machine_answers.specs.Copies.{numbers_with, space_with, word_of};

use heap::{Heap, Value};
use machine_scenes::array_region::ArrayRegion;

/// Copies numbers of an object into slots.
pub fn copy_out(heap: &Heap, numbers: &mut [u32], region: &ArrayRegion)
    requires within { region.now.start + region.now.count ≤ length (values_at heap.now region.now.object) }
    requires slots { (i : ℕ) → i < region.now.count → region.now.slot + i < length numbers.old }
    ensures { numbers.new ≡ numbers_with heap.now region.now numbers.old }
{
    // The proof reads off these calls that no object has more values than there are cells.
    let _ = heap.count();
    let _ = heap.cells();
    for place in 0..region.count as usize {
        let word = word_of(heap.get(region.object, region.start as usize + place));
        numbers[region.slot as usize + place] = word;
    }
}

/// Copies what slots hold into an object.
pub fn copy_in(heap: &mut Heap, numbers: &[u32], region: &ArrayRegion)
    requires within { region.now.start + region.now.count ≤ length (values_at heap.old region.now.object) }
    requires slots { (i : ℕ) → i < region.now.count → region.now.slot + i < length numbers.now }
    ensures { heap.new ≡ space_with heap.old region.now numbers.now }
{
    // As in `copy_out`.
    let _ = heap.count();
    let _ = heap.cells();
    for place in 0..region.count as usize {
        let word = numbers[region.slot as usize + place];
        heap.set(
            region.object,
            region.start as usize + place,
            Value::Number(word),
        );
    }
}

/// The word in a cell, and 0 where it holds no number.
pub(crate) fn word_of(value: Value) -> u32
    ensures { result ≡ word_of value }
{
    match value {
        Value::Number(word) => word,
        _ => 0,
    }
}
