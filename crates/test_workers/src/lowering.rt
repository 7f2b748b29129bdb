//! Lowering by workers: the program is that of `lower`, and each worker has a thread of its own.

ghost use Rattle.std.specs.Prelude.{◌<◌, ◌≤◌};

use code::code::Code;
use code::instr::Instr;
use lower::{LowerError, Program, lower};
use lower_parallel::{Watch, lower_parallel};
use program_check::read_program;
use region_rules::Checked;
use std::alloc::{AllocError, Global};
use std::sync::atomic::{AtomicBool, AtomicU64, Ordering};
use std::test::*;
use std::thread;
use std::thread::Threads;
use std::time::{Clock, Duration};

/// The text of so many functions, each of which prints its number, after a static of its own.
fn text(alloc: Global, functions: usize) -> Result<Vec<u8>, AllocError> {
    let mut text = Vec::new(alloc);
    for k in 0..functions {
        let item = format!(in alloc;
            "static jobject g{k} = NULL; JNIEXPORT void JNICALL Java_A_f{k}(JNIEnv *env, jclass cls) {{ put_jint({k}); return; }}\n"
        )?;
        text.extend_from_slice(item.as_bytes())?;
    }
    Ok(text)
}

/// The text of so many functions, each of 66,301 steps: 3,900 statements of 17 steps each, and a return.
fn long_text(alloc: Global, functions: usize) -> Result<Vec<u8>, AllocError> {
    let mut text = Vec::new(alloc);
    for k in 0..functions {
        let head = format!(in alloc;
            "JNIEXPORT void JNICALL Java_A_f{k}(JNIEnv *env, jclass cls) {{"
        )?;
        text.extend_from_slice(head.as_bytes())?;
        for _ in 0..3900 {
            text.extend_from_slice(b"put_jint((jint)(((1u+1u)+(1u+1u))+((1u+1u)+(1u+1u))));")?;
        }
        text.extend_from_slice(b" return; }\n")?;
    }
    Ok(text)
}

/// Whether both are the same, of the instructions that these functions have.
fn same_instr(a: Option<&Instr>, b: Option<&Instr>) -> bool {
    match (a, b) {
        (Some(Instr::Push(x)), Some(Instr::Push(y))) => x == y,
        (Some(Instr::PutJint), Some(Instr::PutJint)) => true,
        (Some(Instr::Return), Some(Instr::Return)) => true,
        _ => false,
    }
}

fn same_code(a: &Code, b: &Code) -> bool {
    let (s, t) = (a.slots(), b.slots());
    if a.len() != b.len() || s.statics != t.statics || s.references != t.references {
        return false;
    }
    for place in 0..a.len() {
        if !same_instr(a.get(place), b.get(place)) {
            return false;
        }
    }
    true
}

fn same_program(functions: usize, a: &Program<'_>, b: &Program<'_>) -> bool {
    for k in 0..functions {
        match (a.code(k), b.code(k)) {
            (Some(x), Some(y)) => {
                if x.len() < 3 || !same_code(x, y) {
                    return false;
                }
            }
            _ => return false,
        }
    }
    a.code(functions).is_none() && b.code(functions).is_none()
}

/// How many functions were begun, and the sum of their numbers.
#[derive(Drop)]
struct Counted {
    begun: AtomicU64,
    sum: AtomicU64,
}

impl Watch for Counted {
    fn begin(&self, function: usize) {
        self.begun.fetch_add(1, Ordering::SeqCst);
        self.sum.fetch_add(function as u64, Ordering::SeqCst);
    }
}

impl Counted {
    fn new() -> Counted {
        Counted {
            begun: AtomicU64::new(0),
            sum: AtomicU64::new(0),
        }
    }
}

/// Whether so many workers make the program that `lower` made of these functions, with one call of the watch for each, whose
/// numbers have this sum.
fn made_by<R: Threads + Sync>(
    rt: &R,
    alloc: Global,
    checked: &Checked,
    functions: usize,
    sum: u64,
    workers: usize,
) -> Result<bool, LowerError>
    requires { (0 < workers) × (workers ≤ 8) }
{
    let watch = Counted::new();
    let one = lower(alloc, checked)?;
    let other = lower_parallel(rt, alloc, checked, workers, &watch)?;
    let all_begun = watch.begun.load(Ordering::SeqCst) == functions as u64
        && watch.sum.load(Ordering::SeqCst) == sum;
    Ok(all_begun && same_program(functions, &one, &other))
}

/// Whether so many functions, whose numbers have this sum, are lowered by 1, 2 and 8 workers as `lower` lowers them.
fn same_of<R: Threads + Sync>(
    rt: &R,
    alloc: Global,
    functions: usize,
    sum: u64,
) -> Result<bool, LowerError> {
    let Ok(checked) = read_program(alloc, text(alloc, functions)?.as_slice()) else {
        return Err(LowerError::Memory);
    };
    Ok(
        made_by(rt, alloc, &checked, functions, sum, 1)?
            && made_by(rt, alloc, &checked, functions, sum, 2)?
            && made_by(rt, alloc, &checked, functions, sum, 8)?,
    )
}

#[test]
fn workers_lower_as_lower_does(rt: HostRuntime) {
    let alloc = rt.alloc();
    assert!(rt; matches!(same_of(&rt, alloc, 0, 0), Ok(true)));
    assert!(rt; matches!(same_of(&rt, alloc, 1, 0), Ok(true)));
    assert!(rt; matches!(same_of(&rt, alloc, 7, 21), Ok(true)));
    assert!(rt; matches!(same_of(&rt, alloc, 256, 32640), Ok(true)));
}

#[test]
fn long_functions_are_refused(rt: HostRuntime) -> Result<(), Fail> {
    let alloc = rt.alloc();
    let Ok(checked) = read_program(alloc, long_text(alloc, 2)?.as_slice()) else {
        return Err(AllocError.into());
    };
    let lowered = lower_parallel(&rt, alloc, &checked, 2, &Counted::new());
    assert!(rt; matches!(lowered, Err(LowerError::TooLong)));
    Ok(())
}

/// Of two functions, whether each was begun, and whether it then saw the other begun. It looks 1,000 times, and sleeps
/// a millisecond after each.
#[derive(Drop)]
struct Meeting<R: Clock> {
    clock: R,
    begun: [AtomicBool; 2],
    seen: [AtomicBool; 2],
}

impl<R: Clock> Watch for Meeting<R> {
    fn begin(&self, function: usize) {
        let mine = if function == 0 { 0 } else { 1 };
        self.begun[mine].store(true, Ordering::SeqCst);
        for _ in 0..1000 {
            if self.begun[1 - mine].load(Ordering::SeqCst) {
                self.seen[mine].store(true, Ordering::SeqCst);
            }
            thread::sleep(&self.clock, Duration::from_millis(1));
            if self.seen[mine].load(Ordering::SeqCst) {
                return;
            }
        }
    }
}

// Were both functions lowered by one thread, the first would not see the second begun.
#[test]
fn two_workers_meet(rt: HostRuntime) -> Result<(), Fail> {
    let alloc = rt.alloc();
    let watch = Meeting {
        clock: rt,
        begun: [AtomicBool::new(false), AtomicBool::new(false)],
        seen: [AtomicBool::new(false), AtomicBool::new(false)],
    };
    let Ok(checked) = read_program(alloc, text(alloc, 2)?.as_slice()) else {
        return Err(AllocError.into());
    };
    assert!(rt; lower_parallel(&rt, alloc, &checked, 2, &watch).is_ok());
    assert!(rt; watch.seen.iter().all(|it| it.load(Ordering::SeqCst)));
    Ok(())
}
