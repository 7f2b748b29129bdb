//! Threads that wait for monitors: a machine that is driven by hand, by turns of its seats, and by workers.

ghost use Rattle.std.specs.Prelude.{◌≡◌, ◌⊎◌};
ghost use Rattle.crossbeam_utils.specs.Seq.{cell_view};
ghost use Rattle.shared_passes.specs.Tokens.{knower, unknown};

use crate::workers::{loaded, reported};
use machine::{Entries, Machine, Turn};
use program_check::read_program;
use shared::{Cell, Gate, Naming, Pass, Shared, Verdict, new_cell, run_workers};
use std::alloc::{AllocError, Global};
use std::marker::Brand;
use std::sync::Wait;
use std::sync::atomic::{AtomicUsize, Ordering};
use std::test::*;
use std::thread;
use std::time::{Clock, Duration};
use world::read_world;

/// Enters two monitors, and leaves them: six steps with the entry into the call and the return.
const CROSSING: &[u8] =
    b"JNIEXPORT void JNICALL Java_A_f(JNIEnv *env, jclass cls, jobject o, jobject p) { (*env)->MonitorEnter(env, o); (*env)->MonitorEnter(env, p); (*env)->MonitorExit(env, p); (*env)->MonitorExit(env, o); return; }";

/// Two threads that enter them in opposite orders.
const CROSSED: &[u8] =
    b"heap 512\nclass A\nobject @o A\nobject @p A\nthread Java_A_f @o @p\nthread Java_A_f @p @o\n";

/// Enters a monitor twice, and leaves it twice: six steps.
const TWICE: &[u8] =
    b"JNIEXPORT void JNICALL Java_A_f(JNIEnv *env, jclass cls, jobject o) { (*env)->MonitorEnter(env, o); (*env)->MonitorEnter(env, o); (*env)->MonitorExit(env, o); (*env)->MonitorExit(env, o); return; }";

const ONE_OBJECT: &[u8] =
    b"heap 512\nclass A\nobject @o A\nthread Java_A_f @o\nthread Java_A_f @o\n";

/// Twelve steps: the entry, the field ID, the monitor, the number, six for its successor, which is set, the monitor
/// again, and the return.
const COUNTING: &[u8] =
    b"JNIEXPORT void JNICALL Java_A_f(JNIEnv *env, jclass cls, jobject o) { jfieldID n = (*env)->GetFieldID(env, cls, \"n\", \"I\"); (*env)->MonitorEnter(env, o); jint old = (*env)->GetIntField(env, o, n); (*env)->SetIntField(env, o, n, (jint)((uint32_t)old + 1u)); (*env)->MonitorExit(env, o); return; }";

/// Two threads that count twice each.
const COUNTER: &[u8] =
    b"heap 512\nclass A\nfield A n I\nobject @o A 0\nthread Java_A_f @o\ncall Java_A_f @o\nthread Java_A_f @o\ncall Java_A_f @o\n";

/// One thread uses a global reference that the other deletes.
const USING: &[u8] =
    b"static jobject g = NULL;\nJNIEXPORT void JNICALL Java_A_f(JNIEnv *env, jclass cls, jobject o) {\ng = (*env)->NewGlobalRef(env, o);\njobject x = (*env)->NewLocalRef(env, g);\njobject y = (*env)->NewLocalRef(env, g);\nreturn; }\nJNIEXPORT void JNICALL Java_A_h(JNIEnv *env, jclass cls) { (*env)->DeleteGlobalRef(env, g); return; }";

const USED: &[u8] = b"heap 512\nclass A\nobject @o A\nthread Java_A_f @o\nthread Java_A_h\n";

/// A letter for an answer.
fn letter_of(turn: Turn) -> u8 {
    match turn {
        Turn::Stopped => b'!',
        Turn::Ended => b'e',
        Turn::Blocked(false) => b'w',
        Turn::Blocked(true) => b'W',
        Turn::Full => b'f',
        Turn::Short => b'r',
        Turn::Stepped => b's',
    }
}

/// The thread of a letter.
fn thread_of(letter: u8) -> u8
    ensures { result ≡ 1 ⊎ result ≡ 2 }
{
    if letter == b'1' { 1 } else { 2 }
}

/// The answers to turns of two threads of a machine, in this order.
fn stepped(alloc: Global, machine: &mut Machine<'_>, order: &[u8]) -> Result<Vec<u8>, AllocError> {
    let mut answers = Vec::new(alloc);
    for letter in order {
        if machine.threads() > 1 {
            let turn = machine.step(thread_of(*letter))?;
            answers.push(letter_of(turn))?;
        }
    }
    Ok(answers)
}

/// The answers to turns of two seats, in this order, and the report.
fn turns<J: Naming, R: Wait>(
    rt: &R,
    alloc: Global,
    cell: Cell,
    keeper: Pass,
    machine: Machine<'_>,
    order: &[u8],
) -> Result<(Vec<u8>, Vec<u8>), AllocError>
    requires cell { cell.table.shared.table_id ≡ J.cell }
    requires keeper { (keeper.table_id ≡ J.cell) × (cell_view keeper ≡ knower unknown 0) }
    requires unit { machine.unit ≡ J.unit }
    requires world { machine.world ≡ J.world }
{
    let opened: Result<(Shared<'_, J>, Vec<_>), _> = Shared::new(alloc, cell, keeper, machine);
    let Ok((shared, mut seats)) = opened else {
        return Err(AllocError);
    };
    let mut answers = Vec::new(alloc);
    for letter in order {
        for seat in &mut seats {
            if seat.thread() == thread_of(*letter) {
                let turn = shared.turn(rt, seat)?;
                answers.push(letter_of(turn))?;
            }
        }
    }
    match shared.finish(rt, seats) {
        Ok(machine) => Ok((answers, reported(alloc, &machine)?)),
        Err(_) => Err(AllocError),
    }
}

/// What turns of seats give of a program in a world of two threads.
fn turned<R: Wait>(
    rt: &R,
    alloc: Global,
    program: &[u8],
    world: &[u8],
    order: &[u8],
) -> Result<(Vec<u8>, Vec<u8>), AllocError> {
    let Ok(checked) = read_program(alloc, program) else {
        return Err(AllocError);
    };
    let Ok(world) = read_world(alloc, world) else {
        return Err(AllocError);
    };
    let machine = loaded(alloc, &checked, world)?;
    let (cell, keeper) = new_cell(alloc)?;
    turns::<Brand, R>(rt, alloc, cell, keeper, machine, order)
}

// Thread 2 waits until thread 1 has left the monitor as often as it has entered it. That it waits is of the machine as it stands.
#[test]
fn a_seat_waits(rt: HostRuntime) -> Result<(), Fail> {
    let (answers, report) = turned(&rt, rt.alloc(), TWICE, ONE_OBJECT, b"11112221222222222")?;
    assert!(rt; answers.as_slice() == b"ssssswwsssssseeee".as_slice());
    assert!(rt;
        report.as_slice()
            == b"T1 running\nT2 ended\n#46 A\njournal 1 1 1 1 2 1 2 2 2 2 2\n".as_slice()
    );
    Ok(())
}

// A trap of one seat's thread stops the other's too.
#[test]
fn a_seat_traps(rt: HostRuntime) -> Result<(), Fail> {
    let (answers, report) = turned(&rt, rt.alloc(), USING, USED, b"111222112")?;
    assert!(rt; answers.as_slice() == b"sssssss!!".as_slice());
    assert!(rt;
        report.as_slice()
            == b"T1 trap 7 line 5\nT2 ended\n#46 A\njournal 1 1 1 2 2 2 1\n".as_slice()
    );
    Ok(())
}

// In the first calls thread 2 comes between the reading and the writing of thread 1, and waits; in the second ones thread 1 does.
#[test]
fn seats_count(rt: HostRuntime) -> Result<(), Fail> {
    let order = b"111122221111111122222222222222111122222222111111111112";
    let (answers, report) = turned(&rt, rt.alloc(), COUNTING, COUNTER, order)?;
    assert!(rt;
        answers.as_slice() == b"sssssswwsssssssssssssssssssssssswwssssssssssssssssssee".as_slice()
    );
    assert!(rt; report.starts_with(b"T1 ended\nT2 ended\n#46 A 4\njournal "));
    Ok(())
}

/// Lets every worker go on.
#[derive(Drop)]
struct Open;

impl Gate for Open {
    fn pass(&self, _seat: usize) -> bool {
        true
    }
}

// Each thread owns what the other one waits for: no turn of the machine gives a step, and workers have nothing to do.
#[test]
fn a_deadlock(rt: HostRuntime) -> Result<(), Fail> {
    let Ok(checked) = read_program(rt.alloc(), CROSSING) else {
        return Err(AllocError.into());
    };
    let mut machine = loaded(rt.alloc(), &checked, read_world(rt.alloc(), CROSSED)?)?;
    let answers = stepped(rt.alloc(), &mut machine, b"112212")?;
    assert!(rt; answers.as_slice() == b"ssssWW".as_slice());
    assert!(rt; machine.finished());
    let (machine, verdict) = run_workers(&rt, rt.alloc(), machine, &Open)?;
    let report = reported(rt.alloc(), &machine)?;
    assert_eq!(rt; verdict, Verdict::Done);
    assert!(rt;
        report.as_slice() == b"T1 blocked\nT2 blocked\n#46 A\n#47 A\njournal 1 1 2 2\n".as_slice()
    );
    Ok(())
}

/// Lets each of two workers take two turns, and goes on once the other one has taken as many, for which it looks 1,000
/// times, a millisecond apart.
#[derive(Drop)]
struct Crossing<R: Clock> {
    clock: R,
    asked: [AtomicUsize; 2],
}

impl<R: Clock> Gate for Crossing<R> {
    fn pass(&self, seat: usize) -> bool {
        let mine = if seat == 1 { 0 } else { 1 };
        if self.asked[mine].fetch_add(1, Ordering::SeqCst) < 2 {
            return true;
        }
        for _ in 0..1000 {
            if self.asked[1 - mine].load(Ordering::SeqCst) > 2 {
                return true;
            }
            thread::sleep(&self.clock, Duration::from_millis(1));
        }
        false
    }
}

// Each worker is led into the deadlock, and ends there.
#[test]
fn workers_wait_for_each_other(rt: HostRuntime) -> Result<(), Fail> {
    let gate = Crossing {
        clock: rt,
        asked: [AtomicUsize::new(0), AtomicUsize::new(0)],
    };
    let Ok(checked) = read_program(rt.alloc(), CROSSING) else {
        return Err(AllocError.into());
    };
    let machine = loaded(rt.alloc(), &checked, read_world(rt.alloc(), CROSSED)?)?;
    let (machine, verdict) = run_workers(&rt, rt.alloc(), machine, &gate)?;
    let report = reported(rt.alloc(), &machine)?;
    assert_eq!(rt; verdict, Verdict::Done);
    assert_eq!(rt; machine.journal().len(), 4);
    assert!(rt; report.starts_with(b"T1 blocked\nT2 blocked\n#46 A\n#47 A\njournal "));
    Ok(())
}

// In whatever order the workers of the same threads step, they end: both threads have ended then, or both wait.
#[test]
fn workers_end_either_way(rt: HostRuntime) -> Result<(), Fail> {
    for _ in 0..20 {
        let Ok(checked) = read_program(rt.alloc(), CROSSING) else {
            return Err(AllocError.into());
        };
        let machine = loaded(rt.alloc(), &checked, read_world(rt.alloc(), CROSSED)?)?;
        let (machine, verdict) = run_workers(&rt, rt.alloc(), machine, &Open)?;
        let report = reported(rt.alloc(), &machine)?;
        assert_eq!(rt; verdict, Verdict::Done);
        assert!(rt;
            report.starts_with(b"T1 ended\nT2 ended\n")
                || report.starts_with(b"T1 blocked\nT2 blocked\n")
        );
    }
    Ok(())
}

#[test]
fn workers_count(rt: HostRuntime) -> Result<(), Fail> {
    let Ok(checked) = read_program(rt.alloc(), COUNTING) else {
        return Err(AllocError.into());
    };
    let machine = loaded(rt.alloc(), &checked, read_world(rt.alloc(), COUNTER)?)?;
    let (machine, verdict) = run_workers(&rt, rt.alloc(), machine, &Open)?;
    let report = reported(rt.alloc(), &machine)?;
    assert_eq!(rt; verdict, Verdict::Done);
    assert_eq!(rt; machine.journal().len(), 48);
    assert!(rt; report.starts_with(b"T1 ended\nT2 ended\n#46 A 4\njournal "));
    Ok(())
}
