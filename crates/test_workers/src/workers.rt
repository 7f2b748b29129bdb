//! A machine that threads share: by turns of its seats, and by a worker for each of two threads.

ghost use Rattle.std.specs.Prelude.{◌≡◌};
ghost use Rattle.crossbeam_utils.specs.Seq.{cell_view};
ghost use Rattle.shared_passes.specs.Tokens.{knower, unknown};

use lower::lower;
use machine::{Entries, Machine, Turn};
use program_check::read_program;
use region_rules::Checked;
use shared::{Cell, Gate, Naming, Pass, Shared, Verdict, new_cell, run_workers};
use sinks::StdSink;
use std::alloc::{AllocError, Global};
use std::marker::Brand;
use std::sync::Wait;
use std::sync::atomic::{AtomicBool, Ordering};
use std::test::*;
use std::thread;
use std::time::{Clock, Duration};
use world::read_world;
use world_values::World;

const WORLD: &[u8] = b"heap 512\nthread Java_java_lang_Object_f\n";

const TWO_THREADS: &[u8] =
    b"heap 512\nthread Java_java_lang_Object_f\nthread Java_java_lang_Object_f\n";

/// Three steps: the entry into the call, the number, and the return.
const RETURNING: &[u8] =
    b"JNIEXPORT jint JNICALL Java_java_lang_Object_f(JNIEnv *env, jclass cls) { return 0; }";

/// Ten steps: the entry, five for a sum that wraps to 0, three for a cast that makes 2^31 negative, and the return.
const PRINTING: &[u8] =
    b"JNIEXPORT void JNICALL Java_java_lang_Object_f(JNIEnv *env, jclass cls) { put_jint((jint)(4294967295u + 1u)); put_jint((jint)2147483648u); return; }";

/// The machine of a program on a world.
pub(crate) fn loaded<'a>(
    alloc: Global,
    checked: &'a Checked,
    world: World,
) -> Result<Machine<'a>, AllocError> {
    let Ok(program) = lower(alloc, checked) else {
        return Err(AllocError);
    };
    Machine::load(alloc, program, world).map_err(|_| AllocError)
}

/// The report of the run.
pub(crate) fn reported(alloc: Global, machine: &Machine<'_>) -> Result<Vec<u8>, AllocError> {
    let mut sink = StdSink::new(Vec::new(alloc));
    match machine.report(alloc, &mut sink) {
        Ok(()) => Ok(sink.into_inner()),
        Err(_) => Err(AllocError),
    }
}

/// Takes turns of each thread in order until all have ended, and hands the seats back: not before the last is the
/// machine given. The numbers that each thread has printed, and the report.
fn turns<J: Naming, R: Wait>(
    rt: &R,
    alloc: Global,
    cell: Cell,
    keeper: Pass,
    machine: Machine<'_>,
) -> Result<(Vec<Vec<i32>>, Vec<u8>), AllocError>
    requires cell { cell.table.shared.table_id ≡ J.cell }
    requires keeper { (keeper.table_id ≡ J.cell) × (cell_view keeper ≡ knower unknown 0) }
    requires unit { machine.unit ≡ J.unit }
    requires world { machine.world ≡ J.world }
{
    let opened: Result<(Shared<'_, J>, Vec<_>), _> = Shared::new(alloc, cell, keeper, machine);
    let Ok((shared, mut seats)) = opened else {
        return Err(AllocError);
    };
    for _ in 0..20 {
        for seat in &mut seats {
            shared.turn(rt, seat)?;
        }
    }
    let mut lines = Vec::new(alloc);
    for seat in &seats {
        lines.push(shared.lines(seat)?)?;
    }
    let Some(seat) = seats.pop() else {
        return Err(AllocError);
    };
    let Err((shared, mut seats)) = shared.finish(rt, seats) else {
        return Err(AllocError);
    };
    seats.push(seat)?;
    match shared.finish(rt, seats) {
        Ok(machine) => Ok((lines, reported(alloc, &machine)?)),
        Err(_) => Err(AllocError),
    }
}

/// What turns give of a program in a world.
fn turned<R: Wait>(
    rt: &R,
    alloc: Global,
    program: &[u8],
    world: &[u8],
) -> Result<(Vec<Vec<i32>>, Vec<u8>), AllocError> {
    let Ok(checked) = read_program(alloc, program) else {
        return Err(AllocError);
    };
    let Ok(world) = read_world(alloc, world) else {
        return Err(AllocError);
    };
    let machine = loaded(alloc, &checked, world)?;
    let (cell, keeper) = new_cell(alloc)?;
    turns::<Brand, R>(rt, alloc, cell, keeper, machine)
}

#[test]
fn turns_return(rt: HostRuntime) -> Result<(), Fail> {
    let (lines, report) = turned(&rt, rt.alloc(), RETURNING, WORLD)?;
    assert!(rt; lines.iter().all(|it| it.is_empty()));
    assert!(rt; report.as_slice() == b"T1 ended\njournal 1 1 1\n".as_slice());
    Ok(())
}

#[test]
fn turns_print(rt: HostRuntime) -> Result<(), Fail> {
    let (lines, report) = turned(&rt, rt.alloc(), PRINTING, TWO_THREADS)?;
    let printed = [0, -2147483648];
    assert!(rt; lines.len() == 2 && lines.iter().all(|it| it.as_slice() == printed.as_slice()));
    assert!(rt;
        report.as_slice()
            == b"T1 0\nT2 0\nT1 -2147483648\nT2 -2147483648\nT1 ended\nT2 ended\njournal 1 2 1 2 1 2 1 2 1 2 1 2 1 2 1 2 1 2 1 2\n".as_slice()
    );
    Ok(())
}

/// Each of two workers goes on once the other has come, for which it looks 1,000 times, a millisecond apart.
#[derive(Drop)]
struct Meeting<R: Clock> {
    clock: R,
    came: [AtomicBool; 2],
}

impl<R: Clock> Gate for Meeting<R> {
    fn pass(&self, seat: usize) -> bool {
        let mine = if seat == 1 { 0 } else { 1 };
        self.came[mine].store(true, Ordering::SeqCst);
        for _ in 0..1000 {
            if self.came[1 - mine].load(Ordering::SeqCst) {
                return true;
            }
            thread::sleep(&self.clock, Duration::from_millis(1));
        }
        false
    }
}

// Were both seats served by one thread, the first one's gate would answer false.
#[test]
fn workers_meet(rt: HostRuntime) -> Result<(), Fail> {
    let gate = Meeting {
        clock: rt,
        came: [AtomicBool::new(false), AtomicBool::new(false)],
    };
    let Ok(checked) = read_program(rt.alloc(), RETURNING) else {
        return Err(AllocError.into());
    };
    let machine = loaded(rt.alloc(), &checked, read_world(rt.alloc(), TWO_THREADS)?)?;
    let (machine, verdict) = run_workers(&rt, rt.alloc(), machine, &gate)?;
    let report = reported(rt.alloc(), &machine)?;
    assert_eq!(rt; verdict, Verdict::Done);
    assert_eq!(rt; machine.journal().len(), 6);
    assert!(rt; report.starts_with(b"T1 ended\nT2 ended\njournal "));
    Ok(())
}
