//! What slices of a marking leave.

use crate::closed::{Closed, Written};
use heap::{Addr, Value};
use std::test::Fail;

// Of 150 blocks of three cells 146 are roots: slices mark 64, 64 and 18 of them, and the last moves the blocks together.
// The first four are dead.
#[test]
fn a_slice_marks_sixty_four(rt: HostRuntime) -> Result<(), Fail> {
    let mut heap = Closed::new(rt.alloc(), 512)?;
    for birth in 0..150 {
        let _made = heap.make(birth, 0, Written::Null);
    }
    for place in 4..150 {
        heap.root(place)?;
    }
    assert!(rt; heap.marked() == None);
    heap.slice(rt.alloc())?;
    assert!(rt; heap.marked() == Some(64) && heap.count() == 150);
    heap.slice(rt.alloc())?;
    assert!(rt; heap.marked() == Some(128) && heap.count() == 150);
    heap.slice(rt.alloc())?;
    assert!(rt; heap.marked() == None && heap.count() == 146 && heap.left() == 74);
    assert!(rt; heap.block(0) == Some((0, 4, 0)) && heap.block(145) == Some((435, 149, 0)));
    Ok(())
}

// Of 150 roots 86 wait after the first slice, and 22 after the second: so the marking goes on by itself once.
#[test]
fn a_marking_goes_on_without_its_roots(rt: HostRuntime) -> Result<(), Fail> {
    let mut heap = Closed::new(rt.alloc(), 512)?;
    for birth in 0..150 {
        let _made = heap.make(birth, 0, Written::Null);
    }
    for place in 0..150 {
        heap.root(place)?;
    }
    assert!(rt; !heap.mark_on() && heap.marked() == None);
    heap.slice(rt.alloc())?;
    assert!(rt; heap.mark_on() && heap.marked() == Some(128));
    assert!(rt; !heap.mark_on() && heap.marked() == Some(128));
    heap.slice(rt.alloc())?;
    assert!(rt; heap.marked() == None && heap.count() == 150);
    Ok(())
}

// A marking of 64 blocks ends with its first slice, and one of 65 with its second.
#[test]
fn a_marking_ends_when_the_list_is_empty(rt: HostRuntime) -> Result<(), Fail> {
    let mut heap = Closed::new(rt.alloc(), 512)?;
    for birth in 0..65 {
        let _made = heap.make(birth, 0, Written::Null);
    }
    for place in 0..64 {
        heap.root(place)?;
    }
    heap.slice(rt.alloc())?;
    assert!(rt; heap.marked() == None && heap.count() == 64);
    let _made = heap.make(65, 0, Written::Null);
    heap.root(64)?;
    heap.slice(rt.alloc())?;
    assert!(rt; heap.marked() == Some(64) && heap.count() == 65);
    heap.slice(rt.alloc())?;
    assert!(rt; heap.marked() == None && heap.count() == 65);
    Ok(())
}

// What was a root when the marking began is kept, and gone with the next collection.
#[test]
fn what_dies_while_it_is_marked_is_kept_once(rt: HostRuntime) -> Result<(), Fail> {
    let mut heap = Closed::new(rt.alloc(), 512)?;
    for birth in 0..65 {
        let _made = heap.make(birth, 0, Written::Null);
        heap.root(birth as usize)?;
    }
    heap.slice(rt.alloc())?;
    heap.forget_roots();
    heap.slice(rt.alloc())?;
    assert!(rt; heap.marked() == None && heap.count() == 65);
    heap.slice(rt.alloc())?;
    assert!(rt; heap.marked() == None && heap.count() == 0 && heap.left() == 512);
    Ok(())
}

// A dead block of three cells, the first root of four, 63 roots of three, the last root of four, and a block of three
// to which the last root alone refers. After a slice the first root is marked and the last isn't; then the reference
// goes from the one to the other.
#[test]
fn what_is_written_into_a_marked_block_is_kept(rt: HostRuntime) -> Result<(), Fail> {
    let mut heap = Closed::new(rt.alloc(), 512)?;
    let _dead = heap.make(1, 0, Written::Null);
    let _first = heap.make(2, 1, Written::Null);
    for birth in 3..66 {
        let _root = heap.make(birth, 0, Written::Null);
    }
    let _last = heap.make(66, 1, Written::Null);
    let _block = heap.make(67, 0, Written::Null);
    heap.set(65, 0, Written::Block(66));
    for place in 1..66 {
        heap.root(place)?;
    }
    heap.slice(rt.alloc())?;
    assert!(rt; heap.marked() == Some(64) && heap.block(66) == Some((200, 67, 0)));
    heap.set(1, 0, Written::Block(66));
    heap.set(65, 0, Written::Null);
    heap.slice(rt.alloc())?;
    assert!(rt; heap.marked() == None && heap.count() == 66 && heap.left() == 312);
    assert!(rt; heap.block(0) == Some((0, 2, 0)) && heap.block(65) == Some((197, 67, 0)));
    assert!(rt; heap.value(0, 0) == Some(Value::Block(Addr::new(197))));
    Ok(())
}

// A block that is made while a marking is under way is kept, and what it refers to.
#[test]
fn a_new_block_counts_as_marked(rt: HostRuntime) -> Result<(), Fail> {
    let mut heap = Closed::new(rt.alloc(), 512)?;
    for birth in 0..65 {
        let _root = heap.make(birth, 0, Written::Null);
        heap.root(birth as usize)?;
    }
    let _block = heap.make(65, 0, Written::Null);
    heap.slice(rt.alloc())?;
    let _new = heap.make(66, 2, Written::Block(65));
    heap.slice(rt.alloc())?;
    assert!(rt; heap.marked() == None && heap.count() == 67 && heap.left() == 309);
    assert!(rt; heap.value(66, 1) == Some(Value::Block(Addr::new(195))));
    Ok(())
}

// A block that becomes a root between slices, and one that is pinned, are found when the list is empty.
#[test]
fn roots_and_pins_are_looked_at_again(rt: HostRuntime) -> Result<(), Fail> {
    let mut heap = Closed::new(rt.alloc(), 512)?;
    for birth in 0..67 {
        let _made = heap.make(birth, 0, Written::Null);
    }
    for place in 0..65 {
        heap.root(place)?;
    }
    heap.slice(rt.alloc())?;
    heap.root(65)?;
    heap.pin(66);
    heap.slice(rt.alloc())?;
    assert!(rt; heap.marked() == None && heap.count() == 67);
    assert!(rt; heap.block(66) == Some((198, 66, 1)));
    Ok(())
}

// A whole collection gives the marking up, and keeps nothing for it.
#[test]
fn a_whole_collection_starts_afresh(rt: HostRuntime) -> Result<(), Fail> {
    let mut heap = Closed::new(rt.alloc(), 512)?;
    for birth in 0..65 {
        let _made = heap.make(birth, 0, Written::Null);
        heap.root(birth as usize)?;
    }
    heap.slice(rt.alloc())?;
    assert!(rt; heap.marked() == Some(64));
    heap.forget_roots();
    heap.root(64)?;
    heap.collect(rt.alloc())?;
    assert!(rt; heap.marked() == None && heap.count() == 1);
    assert!(rt; heap.roots() == [Some(Addr::new(0))].as_slice());
    Ok(())
}

#[test]
fn weak_references_follow_a_slice_or_are_cleared(rt: HostRuntime) -> Result<(), Fail> {
    let mut heap = Closed::new(rt.alloc(), 40)?;
    let _dead = heap.make(1, 2, Written::Number(0));
    let _kept = heap.make(2, 1, Written::Null);
    heap.root(1)?;
    heap.refer_weakly(0)?;
    heap.refer_weakly(9)?;
    heap.refer_weakly(1)?;
    heap.slice(rt.alloc())?;
    assert!(rt; heap.roots() == [Some(Addr::new(0))].as_slice());
    assert!(rt; heap.weak() == [None, None, Some(Addr::new(0))].as_slice());
    Ok(())
}

// Where memory is refused all is as it was, and a later slice succeeds.
#[test]
fn a_refused_slice_changes_nothing(rt: HostRuntime) -> Result<(), Fail> {
    let mut heap = Closed::new(rt.alloc(), 40)?;
    let _dead = heap.make(1, 2, Written::Number(0));
    let _kept = heap.make(2, 2, Written::Null);
    heap.root(1)?;
    if heap.slice(rt.alloc()).is_err() {
        assert!(rt; heap.marked() == None && heap.count() == 2);
        assert!(rt; heap.block(1) == Some((5, 2, 0)));
        assert!(rt; heap.roots() == [Some(Addr::new(5))].as_slice());
        heap.slice(rt.alloc())?;
    }
    assert!(rt; heap.count() == 1 && heap.roots() == [Some(Addr::new(0))].as_slice());
    Ok(())
}
