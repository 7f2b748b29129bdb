//! A machine that is driven by workers.

use crate::failure::Failure;
use crate::seen::reported;
use machine::Machine;
use shared::{Gate, Verdict, run_workers};
use std::alloc::Global;
use std::sync::Wait;
use std::thread::Threads;

/// Lets each worker go on.
struct Open;

impl Gate for Open {
    fn pass(&self, _seat: usize) -> bool {
        true
    }
}

/// The report of a run by workers, also where they were refused memory before its end.
pub(crate) fn by_workers<R: Threads + Wait + Sync>(
    rt: &R,
    alloc: Global,
    machine: Machine<'_>,
) -> Result<Vec<u8>, Failure> {
    let (machine, verdict) = run_workers(rt, alloc, machine, &Open)?;
    match verdict {
        Verdict::Done | Verdict::NoMemory => reported(alloc, &machine),
        Verdict::Full | Verdict::Stalled => Err(Failure::Stalled),
    }
}
