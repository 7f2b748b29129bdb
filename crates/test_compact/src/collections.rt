//! What collections leave.

use crate::closed::{Closed, Written};
use heap::{Addr, Value};
use std::test::Fail;

#[test]
fn what_roots_lead_to_moves_down(rt: HostRuntime) -> Result<(), Fail> {
    let mut heap = Closed::new(rt.alloc(), 40)?;
    let _dead = heap.make(1, 2, Written::Number(0));
    let _kept = heap.make(2, 2, Written::Null);
    let _dead = heap.make(3, 0, Written::Null);
    let _kept = heap.make(4, 1, Written::Number(9));
    heap.set(1, 1, Written::Block(3));
    heap.root(9)?;
    heap.root(1)?;
    heap.root(3)?;
    heap.collect(rt.alloc())?;
    let places = [None, Some(Addr::new(0)), Some(Addr::new(5))];
    assert!(rt; heap.count() == 2 && heap.left() == 31 && heap.roots() == places.as_slice());
    assert!(rt; heap.block(0) == Some((0, 2, 0)) && heap.block(1) == Some((5, 4, 0)));
    assert!(rt; heap.value(0, 0) == Some(Value::Null));
    assert!(rt; heap.value(0, 1) == Some(Value::Block(Addr::new(5))));
    assert!(rt; heap.value(1, 0) == Some(Value::Number(9)));
    Ok(())
}

// Two blocks that refer to each other die. The number 0 is no reference to them.
#[test]
fn a_number_is_no_address_and_cycles_die(rt: HostRuntime) -> Result<(), Fail> {
    let mut heap = Closed::new(rt.alloc(), 40)?;
    let _dead = heap.make(1, 1, Written::Null);
    let _dead = heap.make(2, 1, Written::Block(0));
    heap.set(0, 0, Written::Block(1));
    let _kept = heap.make(3, 1, Written::Number(0));
    heap.root(2)?;
    heap.collect(rt.alloc())?;
    assert!(rt; heap.count() == 1 && heap.left() == 36);
    assert!(rt; heap.roots() == [Some(Addr::new(0))].as_slice());
    assert!(rt; heap.value(0, 0) == Some(Value::Number(0)));
    Ok(())
}

// Beside a block of 6 cells at 0, which dies, a pinned one of 5 at 6. That of 7 has no room below it, and stays; once
// it has died, one of 3 passes the pinned one.
#[test]
fn a_pinned_block_stays_and_others_pass_it(rt: HostRuntime) -> Result<(), Fail> {
    let mut heap = Closed::new(rt.alloc(), 60)?;
    let _dead = heap.make(1, 3, Written::Number(0));
    let _pinned = heap.make(2, 2, Written::Null);
    let _large = heap.make(3, 4, Written::Number(7));
    let _small = heap.make(4, 0, Written::Null);
    heap.pin(1);
    heap.pin(1);
    heap.set(1, 0, Written::Block(3));
    heap.root(2)?;
    heap.collect(rt.alloc())?;
    assert!(rt; heap.count() == 3 && heap.left() == 39);
    assert!(rt; heap.block(0) == Some((6, 2, 2)) && heap.block(1) == Some((11, 3, 0)));
    assert!(rt; heap.value(0, 0) == Some(Value::Block(Addr::new(18))));
    heap.forget_roots();
    heap.collect(rt.alloc())?;
    assert!(rt; heap.count() == 2 && heap.left() == 49);
    assert!(rt; heap.block(0) == Some((0, 4, 0)) && heap.block(1) == Some((6, 2, 2)));
    assert!(rt; heap.value(1, 0) == Some(Value::Block(Addr::new(0))));
    Ok(())
}

// Each of 262,144 blocks of four cells refers to the last one before it at an odd place, or else to the first: all at
// odd places and the first are kept.
#[test]
fn a_full_heap_is_collected(rt: HostRuntime) -> Result<(), Fail> {
    let mut heap = Closed::new(rt.alloc(), 1_048_576)?;
    let _first = heap.make(1, 1, Written::Null);
    let mut last = 0;
    for place in 1..262_144 {
        let _made = heap.make(1, 1, Written::Block(last));
        if place % 2 == 1 {
            last = place;
        }
    }
    assert!(rt; heap.count() == 262_144 && heap.left() == 0);
    heap.root(last)?;
    heap.collect(rt.alloc())?;
    assert!(rt; heap.count() == 131_073 && heap.left() == 1_048_576 - 4 * 131_073);
    Ok(())
}

// Where memory is refused all is as it was, and a later call succeeds.
#[test]
fn a_refused_collection_changes_nothing(rt: HostRuntime) -> Result<(), Fail> {
    let mut heap = Closed::new(rt.alloc(), 40)?;
    let _dead = heap.make(1, 2, Written::Number(0));
    let _kept = heap.make(2, 2, Written::Null);
    heap.root(1)?;
    if heap.collect(rt.alloc()).is_err() {
        assert!(rt; heap.count() == 2 && heap.block(1) == Some((5, 2, 0)));
        assert!(rt; heap.roots() == [Some(Addr::new(5))].as_slice());
        heap.collect(rt.alloc())?;
    }
    assert!(rt; heap.count() == 1 && heap.roots() == [Some(Addr::new(0))].as_slice());
    Ok(())
}

// With nothing to follow no memory is asked for.
#[test]
fn dead_blocks_need_no_memory(rt: HostRuntime) -> Result<(), Fail> {
    let mut heap = Closed::new(rt.alloc(), 40)?;
    let _dead = heap.make(1, 1, Written::Null);
    heap.set(0, 0, Written::Block(0));
    heap.collect(rt.alloc())?;
    assert!(rt; heap.count() == 0 && heap.left() == 40);
    Ok(())
}

#[test]
fn weak_references_follow_or_are_cleared(rt: HostRuntime) -> Result<(), Fail> {
    let mut heap = Closed::new(rt.alloc(), 40)?;
    let _dead = heap.make(1, 2, Written::Number(0));
    let _kept = heap.make(2, 1, Written::Null);
    heap.root(1)?;
    heap.refer_weakly(0)?;
    heap.refer_weakly(9)?;
    heap.refer_weakly(1)?;
    heap.collect_weakly(rt.alloc())?;
    assert!(rt; heap.roots() == [Some(Addr::new(0))].as_slice());
    assert!(rt; heap.weak() == [None, None, Some(Addr::new(0))].as_slice());
    Ok(())
}
