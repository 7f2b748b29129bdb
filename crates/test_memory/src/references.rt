//! Local references: each public call once with success, and each refusal once.

use heap::Addr;
use std::alloc::Global as Host;
use std::test::Fail;
use tables::{Local, Locals, TableFault};

/// A frame with room for two references, which has two.
fn full_frame(alloc: Host) -> Result<(Locals, Local, Local), Fail> {
    let mut locals = Locals::new(alloc)?;
    locals.push(2)?;
    let first = locals.make(Addr::new(5))?;
    let second = locals.make(Addr::new(9))?;
    Ok((locals, first, second))
}

/// Whether a reference is dead.
fn is_dead(locals: &mut Locals, key: Local) -> bool {
    locals.get(key) == Err(TableFault::Dead) && locals.delete(key) == Err(TableFault::Dead)
}

/// Whether a reference is live, to this address.
fn leads_to(locals: &Locals, key: Local, cell: u32) -> bool {
    locals.get(key) == Ok(Addr::new(cell))
}

#[test]
fn a_frame_has_its_capacity(rt: HostRuntime) -> Result<(), Fail> {
    let mut none = Locals::new(rt.alloc())?;
    let early = none.make(Addr::new(1));
    let (mut locals, first, second) = full_frame(rt.alloc())?;
    let late = locals.make(Addr::new(7));
    let kept = leads_to(&locals, first, 5) && leads_to(&locals, second, 9);
    assert!(rt; early == Err(TableFault::Full) && late == Err(TableFault::Full) && kept);
    Ok(())
}

// A freed slot is used again, and its key then names the new reference.
#[test]
fn local_references_come_and_go(rt: HostRuntime) -> Result<(), Fail> {
    let (mut locals, first, second) = full_frame(rt.alloc())?;
    locals.delete(first)?;
    let dead = is_dead(&mut locals, first);
    let third = locals.make(Addr::new(7))?;
    let kept = leads_to(&locals, third, 7) && leads_to(&locals, second, 9);
    assert!(rt; dead && kept && third == first);
    Ok(())
}

#[test]
fn roots_of_frames_are_set(rt: HostRuntime) -> Result<(), Fail> {
    let (mut locals, first, second) = full_frame(rt.alloc())?;
    if locals.len() == 2 && locals.root(1).is_some() {
        locals.set_root(1, Addr::new(11));
    }
    assert!(rt; leads_to(&locals, first, 5) && leads_to(&locals, second, 11));
    Ok(())
}

// All frames together have room for 1,024 references.
#[test]
fn frames_share_their_capacity(rt: HostRuntime) -> Result<(), Fail> {
    let mut locals = Locals::new(rt.alloc())?;
    locals.push(2)?;
    let refused = [
        locals.ensure(1_025),
        locals.ensure(u32::MAX),
        locals.push(1_023),
    ];
    let taken = [locals.ensure(4), locals.push(1_020)];
    let over = locals.push(1);
    assert!(rt; refused == [Err(TableFault::Full); 3] && taken == [Ok(()); 2]);
    assert!(rt; over == Err(TableFault::Full));
    Ok(())
}

#[test]
fn a_popped_frame_ends_its_references(rt: HostRuntime) -> Result<(), Fail> {
    let (mut locals, first, _) = full_frame(rt.alloc())?;
    locals.push(2)?;
    let inner = locals.make(Addr::new(6))?;
    let got = [
        locals.frames() == 2,
        locals.has_room(),
        leads_to(&locals, inner, 6),
    ];
    locals.pop();
    let kept = leads_to(&locals, first, 5) && locals.len() == 2;
    assert!(rt; got == [true; 3] && kept && is_dead(&mut locals, inner));
    Ok(())
}
