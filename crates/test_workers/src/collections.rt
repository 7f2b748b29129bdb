//! Collections of a machine that is driven by hand, alone and behind its lock.

ghost use Rattle.std.specs.Prelude.{◌≡◌};
ghost use Rattle.crossbeam_utils.specs.Seq.{cell_view};
ghost use Rattle.shared_passes.specs.Tokens.{knower, unknown};

use crate::workers::reported;
use lower::lower;
use machine::{Machine, Turn};
use program_check::read_program;
use region_rules::Checked;
use shared::{Cell, Naming, Pass, Shared, new_cell};
use std::alloc::{AllocError, Global};
use std::marker::Brand;
use std::sync::Wait;
use std::test::*;
use world::read_world;

/// Makes two objects of four cells, and drops the first. The second stays in its frame until the call returns.
const PROGRAM: &[u8] =
    b"JNIEXPORT void JNICALL Java_A_f(JNIEnv *env, jclass cls) { jobject x = (*env)->AllocObject(env, cls); (*env)->DeleteLocalRef(env, x); jobject y = (*env)->AllocObject(env, cls); return; }";

const WORLD: &[u8] = b"heap 512\nclass A\nfield A n I\nthread Java_A_f\n";

/// The machine of the program on the world.
fn loaded<'a>(alloc: Global, checked: &'a Checked) -> Result<Machine<'a>, AllocError> {
    let Ok(world) = read_world(alloc, WORLD) else {
        return Err(AllocError);
    };
    let Ok(program) = lower(alloc, checked) else {
        return Err(AllocError);
    };
    Machine::load(alloc, program, world).map_err(|_| AllocError)
}

/// Takes so many turns of thread 1.
fn run_on(machine: &mut Machine<'_>, turns: usize) -> Result<(), AllocError> {
    for _ in 0..turns {
        if machine.threads() > 0 {
            let _ = machine.step(1)?;
        }
    }
    Ok(())
}

// After four turns both objects are made, and the first is dropped.
#[test]
fn collections_leave_what_is_reached(rt: HostRuntime) -> Result<(), Fail> {
    let Ok(checked) = read_program(rt.alloc(), PROGRAM) else {
        return Err(AllocError.into());
    };
    let mut machine = loaded(rt.alloc(), &checked)?;
    let begun = machine.left();
    run_on(&mut machine, 4)?;
    let made = begun.checked_sub(machine.left());
    machine.collect()?;
    let kept = begun.checked_sub(machine.left());
    run_on(&mut machine, 100)?;
    machine.collect()?;
    let ended = begun.checked_sub(machine.left());
    assert_eq!(rt;
        [made, kept, ended].as_slice(),
        [Some(8), Some(4), Some(0)].as_slice()
    );
    Ok(())
}

/// Takes so many turns of the one thread, or all, and a collection. How many cells are left fewer than before.
fn turns<J: Naming, R: Wait>(
    rt: &R,
    alloc: Global,
    cell: Cell,
    keeper: Pass,
    machine: Machine<'_>,
    most: usize,
) -> Result<Option<usize>, AllocError>
    requires cell { cell.table.shared.table_id ≡ J.cell }
    requires keeper { (keeper.table_id ≡ J.cell) × (cell_view keeper ≡ knower unknown 0) }
    requires unit { machine.unit ≡ J.unit }
    requires world { machine.world ≡ J.world }
{
    let begun = machine.left();
    let opened: Result<(Shared<'_, J>, Vec<_>), _> = Shared::new(alloc, cell, keeper, machine);
    let Ok((shared, mut seats)) = opened else {
        return Err(AllocError);
    };
    let Some(mut seat) = seats.pop() else {
        return Err(AllocError);
    };
    for _ in 0..most {
        match shared.turn(rt, &mut seat)? {
            Turn::Stepped => {}
            _ => break,
        }
    }
    shared.collect(rt)?;
    seats.push(seat)?;
    match shared.finish(rt, seats) {
        Ok(machine) => Ok(begun.checked_sub(machine.left())),
        Err(_) => Err(AllocError),
    }
}

/// What turns and a collection take of the program's machine.
fn turned<R: Wait>(rt: &R, alloc: Global, most: usize) -> Result<Option<usize>, AllocError> {
    let Ok(checked) = read_program(alloc, PROGRAM) else {
        return Err(AllocError);
    };
    let machine = loaded(alloc, &checked)?;
    let (cell, keeper) = new_cell(alloc)?;
    turns::<Brand, R>(rt, alloc, cell, keeper, machine, most)
}

#[test]
fn seats_collect(rt: HostRuntime) -> Result<(), Fail> {
    let kept = turned(&rt, rt.alloc(), 4)?;
    let ended = turned(&rt, rt.alloc(), 100)?;
    assert_eq!(rt; [kept, ended].as_slice(), [Some(4), Some(0)].as_slice());
    Ok(())
}

/// Makes an object, holds it weakly, drops it, and prints whether the weak reference still gives it: thirteen steps at most.
const WEAK: &[u8] =
    b"static jweak w = NULL;\nJNIEXPORT void JNICALL Java_A_f(JNIEnv *env, jclass cls) { jobject o = (*env)->AllocObject(env, cls); w = (*env)->NewWeakGlobalRef(env, o); (*env)->DeleteLocalRef(env, o); jobject x = (*env)->NewLocalRef(env, w); if (x == NULL) { put_jint(0); } else { put_jint(1); } return; }";

/// The report after four turns of the one thread, a collection, and nine turns more.
fn cleared<J: Naming, R: Wait>(
    rt: &R,
    alloc: Global,
    cell: Cell,
    keeper: Pass,
    machine: Machine<'_>,
) -> Result<Vec<u8>, AllocError>
    requires cell { cell.table.shared.table_id ≡ J.cell }
    requires keeper { (keeper.table_id ≡ J.cell) × (cell_view keeper ≡ knower unknown 0) }
    requires unit { machine.unit ≡ J.unit }
    requires world { machine.world ≡ J.world }
{
    let opened: Result<(Shared<'_, J>, Vec<_>), _> = Shared::new(alloc, cell, keeper, machine);
    let Ok((shared, mut seats)) = opened else {
        return Err(AllocError);
    };
    for turn in 0..13 {
        if turn == 4 {
            shared.collect(rt)?;
        }
        for seat in &mut seats {
            shared.turn(rt, seat)?;
        }
    }
    match shared.finish(rt, seats) {
        Ok(machine) => reported(alloc, &machine),
        Err(_) => Err(AllocError),
    }
}

/// The report of the program that holds its object weakly.
fn watched<R: Wait>(rt: &R, alloc: Global) -> Result<Vec<u8>, AllocError> {
    let Ok(checked) = read_program(alloc, WEAK) else {
        return Err(AllocError);
    };
    let machine = loaded(alloc, &checked)?;
    let (cell, keeper) = new_cell(alloc)?;
    cleared::<Brand, R>(rt, alloc, cell, keeper, machine)
}

// The fourth turn drops the object, so that the collection clears the weak reference, and the thread is given NULL.
#[test]
fn seats_clear(rt: HostRuntime) -> Result<(), Fail> {
    let report = watched(&rt, rt.alloc())?;
    assert!(rt;
        report.as_slice() == b"T1 0\nT1 ended\njournal 1 1 1 1 ~46 1 1 1 1 1 1 1\n".as_slice()
    );
    Ok(())
}
