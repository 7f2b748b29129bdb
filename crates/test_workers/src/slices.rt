//! Slices of a marking, of a machine that is driven by hand, alone and behind its lock.

ghost use Rattle.std.specs.Prelude.{◌≡◌};
ghost use Rattle.crossbeam_utils.specs.Seq.{cell_view};
ghost use Rattle.shared_passes.specs.Tokens.{knower, unknown};

use crate::workers::reported;
use lower::lower;
use machine::Machine;
use program_check::read_program;
use region_rules::Checked;
use shared::{Cell, Naming, Pass, Shared, new_cell};
use std::alloc::{AllocError, Global};
use std::marker::Brand;
use std::sync::Wait;
use std::test::*;
use world::read_world;

/// Makes an object, holds it weakly, drops it, and prints whether the weak reference still gives it: thirteen steps at
/// most. The third step makes the weak reference, the fourth drops the local one.
const WEAK: &[u8] =
    b"static jweak w = NULL;\nJNIEXPORT void JNICALL Java_A_f(JNIEnv *env, jclass cls) { jobject o = (*env)->AllocObject(env, cls); w = (*env)->NewWeakGlobalRef(env, o); (*env)->DeleteLocalRef(env, o); jobject x = (*env)->NewLocalRef(env, w); if (x == NULL) { put_jint(0); } else { put_jint(1); } return; }";

/// A world of a hundred objects: with those that each world has there are 145 before the first step.
fn world_text(alloc: Global) -> Result<Vec<u8>, AllocError> {
    let mut text = Vec::from_slice(alloc, b"heap 1024\nclass A\n")?;
    for tens in b'0'..=b'9' {
        for ones in b'0'..=b'9' {
            text.extend_from_slice(b"object @o")?;
            text.push(tens)?;
            text.push(ones)?;
            text.extend_from_slice(b" A\n")?;
        }
    }
    text.extend_from_slice(b"thread Java_A_f\n")?;
    Ok(text)
}

/// The machine of the program on that world.
fn loaded<'a>(alloc: Global, checked: &'a Checked) -> Result<Machine<'a>, AllocError> {
    let text = world_text(alloc)?;
    let Ok(world) = read_world(alloc, &text) else {
        return Err(AllocError);
    };
    let Ok(program) = lower(alloc, checked) else {
        return Err(AllocError);
    };
    Machine::load(alloc, program, world).map_err(|_| AllocError)
}

/// Takes so many turns of thread 1.
fn run_on(machine: &mut Machine<'_>, turns: usize) -> Result<(), AllocError> {
    for _ in 0..turns {
        if machine.threads() > 0 {
            let _ = machine.step(1)?;
        }
    }
    Ok(())
}

/// How far the marking is after a slice more.
fn sliced(machine: &mut Machine<'_>) -> Result<Option<(usize, usize)>, AllocError> {
    machine.slice()?;
    Ok(machine.marking())
}

// The new object is the 146th. It is on the list when its local reference goes, and so it is kept.
#[test]
fn a_marking_keeps_what_was_listed(rt: HostRuntime) -> Result<(), Fail> {
    let Ok(checked) = read_program(rt.alloc(), WEAK) else {
        return Err(AllocError.into());
    };
    let mut machine = loaded(rt.alloc(), &checked)?;
    run_on(&mut machine, 3)?;
    let first = sliced(&mut machine)?;
    run_on(&mut machine, 1)?;
    let second = sliced(&mut machine)?;
    let last = sliced(&mut machine)?;
    assert_eq!(rt;
        [first, second, last].as_slice(),
        [Some((1, 64)), Some((2, 128)), None].as_slice()
    );
    run_on(&mut machine, 9)?;
    let report = reported(rt.alloc(), &machine)?;
    assert!(rt; report.starts_with(b"T1 1\nT1 ended\n#46 A\n#47 A\n"));
    assert!(rt; report.ends_with(b"#144 A\n#145 A\njournal 1 1 1 1 1 1 1 1 1 1 1\n"));
    Ok(())
}

// A collection gives the marking up: it keeps what can be reached then, and the next slice begins anew.
#[test]
fn a_collection_gives_a_marking_up(rt: HostRuntime) -> Result<(), Fail> {
    let Ok(checked) = read_program(rt.alloc(), WEAK) else {
        return Err(AllocError.into());
    };
    let mut machine = loaded(rt.alloc(), &checked)?;
    run_on(&mut machine, 3)?;
    let first = sliced(&mut machine)?;
    run_on(&mut machine, 1)?;
    machine.collect()?;
    let none = machine.marking();
    let anew = sliced(&mut machine)?;
    assert_eq!(rt;
        [first, none, anew].as_slice(),
        [Some((1, 64)), None, Some((1, 64))].as_slice()
    );
    run_on(&mut machine, 9)?;
    let report = reported(rt.alloc(), &machine)?;
    assert!(rt; report.starts_with(b"T1 0\nT1 ended\n#46 A\n#47 A\n"));
    assert!(rt; report.ends_with(b"#144 A\n#145 A\njournal 1 1 1 1 ~146 1 1 1 1 1 1 1\n"));
    Ok(())
}

/// The report after four turns of the one thread, three slices, and nine turns more.
fn turns<J: Naming, R: Wait>(
    rt: &R,
    alloc: Global,
    cell: Cell,
    keeper: Pass,
    machine: Machine<'_>,
) -> Result<Vec<u8>, AllocError>
    requires cell { cell.table.shared.table_id ≡ J.cell }
    requires keeper { (keeper.table_id ≡ J.cell) × (cell_view keeper ≡ knower unknown 0) }
    requires unit { machine.unit ≡ J.unit }
    requires world { machine.world ≡ J.world }
{
    let opened: Result<(Shared<'_, J>, Vec<_>), _> = Shared::new(alloc, cell, keeper, machine);
    let Ok((shared, mut seats)) = opened else {
        return Err(AllocError);
    };
    for turn in 0..13 {
        if turn == 4 {
            for _ in 0..3 {
                shared.slice(rt)?;
            }
        }
        for seat in &mut seats {
            shared.turn(rt, seat)?;
        }
    }
    match shared.finish(rt, seats) {
        Ok(machine) => reported(alloc, &machine),
        Err(_) => Err(AllocError),
    }
}

/// The report of the program whose object was dropped before the first slice.
fn seated<R: Wait>(rt: &R, alloc: Global) -> Result<Vec<u8>, AllocError> {
    let Ok(checked) = read_program(alloc, WEAK) else {
        return Err(AllocError);
    };
    let machine = loaded(alloc, &checked)?;
    let (cell, keeper) = new_cell(alloc)?;
    turns::<Brand, R>(rt, alloc, cell, keeper, machine)
}

// 145 objects can be reached: the third slice marks the last 17, and clears the weak reference.
#[test]
fn slices_behind_the_lock_clear(rt: HostRuntime) -> Result<(), Fail> {
    let report = seated(&rt, rt.alloc())?;
    assert!(rt; report.starts_with(b"T1 0\nT1 ended\n#46 A\n#47 A\n"));
    assert!(rt; report.ends_with(b"#144 A\n#145 A\njournal 1 1 1 1 ~146 1 1 1 1 1 1 1\n"));
    Ok(())
}
