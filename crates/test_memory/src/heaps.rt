//! The heap: each public call once with success, at numbers counted by hand.

use heap::{Addr, Heap, Value};
use std::test::Fail;

// A block has three cells, and one for each value.
#[test]
fn blocks_lie_one_after_another(rt: HostRuntime) -> Result<(), Fail> {
    let mut heap = Heap::new(rt.alloc(), 20)?;
    let first = heap.alloc(7, 1, 2, Value::Number(0))?;
    let second = heap.alloc(8, 2, 0, Value::Null)?;
    let got = [
        heap.cells(),
        heap.left(),
        heap.count(),
        first.cell() as usize,
        second.cell() as usize,
        heap.address(1).cell() as usize,
        Addr::new(9).cell() as usize,
    ];
    assert!(rt; got == [20, 12, 2, 0, 5, 5, 9]);
    Ok(())
}

#[test]
fn a_block_begins_as_it_is_made(rt: HostRuntime) -> Result<(), Fail> {
    let mut heap = Heap::new(rt.alloc(), 20)?;
    let block = heap.alloc(7, 1, 2, Value::Number(9))?;
    let got = [
        heap.class_of(block),
        heap.birth_of(block),
        heap.len_of(block) as u32,
        heap.number(block, 0),
    ];
    assert!(rt; got == [7, 1, 2, 9]);
    Ok(())
}

// The number 5, NULL and the address 5 are three values.
#[test]
fn a_number_is_no_address(rt: HostRuntime) -> Result<(), Fail> {
    let mut heap = Heap::new(rt.alloc(), 20)?;
    let block = heap.alloc(7, 1, 2, Value::Null)?;
    let other = heap.alloc(8, 2, 2, Value::Number(0))?;
    heap.set(block, 1, Value::Block(other));
    heap.set_number(other, 0, 5);
    heap.set(other, 1, Value::Null);
    let got = [
        heap.get(block, 0) == Value::Null,
        heap.get(block, 1) == Value::Block(Addr::new(5)),
        heap.get(other, 0) == Value::Number(5),
        heap.get(other, 1) == Value::Null,
    ];
    assert!(rt; got == [true; 4]);
    Ok(())
}

#[test]
fn pins_are_counted(rt: HostRuntime) -> Result<(), Fail> {
    let mut heap = Heap::new(rt.alloc(), 20)?;
    let block = heap.alloc(7, 1, 2, Value::Null)?;
    heap.pin(block);
    heap.pin(block);
    heap.unpin(block);
    assert!(rt; heap.pins(block) == 1);
    Ok(())
}

#[test]
fn there_is_no_room_past_the_last_cell(rt: HostRuntime) -> Result<(), Fail> {
    let mut heap = Heap::new(rt.alloc(), 8)?;
    let got = [
        heap.alloc(7, 1, 6, Value::Null).is_ok(),
        heap.alloc(7, 1, usize::MAX, Value::Null).is_ok(),
        heap.alloc(7, 1, 2, Value::Null).is_ok(),
        heap.alloc(7, 2, 1, Value::Null).is_ok(),
        heap.alloc(7, 2, 0, Value::Null).is_ok(),
        heap.alloc(7, 3, 0, Value::Null).is_ok(),
    ];
    assert!(rt; got == [false, false, true, false, true, false]);
    Ok(())
}

#[test]
fn the_largest_heap_is_filled_by_the_smallest_blocks(rt: HostRuntime) -> Result<(), Fail> {
    let mut heap = Heap::new(rt.alloc(), 1_048_576)?;
    for _ in 0..349_525 {
        if heap.alloc(0, 0, 0, Value::Null).is_err() {
            return Err(Fail::new("refused"));
        }
    }
    assert!(rt; [heap.left(), heap.count()] == [1, 349_525]);
    Ok(())
}
