//! What is seen of a machine.

use crate::failure::Failure;
use machine::{Entries, Machine, ReportFault};
use semantics::Printed;
use sinks::StdSink;
use std::alloc::Global;

/// How often a call is asked that is refused memory.
pub(crate) const TRIES: u32 = 8;

/// What is seen of a machine: its report with the line of its journal, how many entries that has, what was printed, how many
/// cells are left, and how far a marking is.
#[derive(Drop)]
pub(crate) struct Seen {
    report: Vec<u8>,
    entries: usize,
    printed: Vec<Printed>,
    left: usize,
    marking: Option<(usize, usize)>,
}

/// The report of a run. A report that was refused memory has written nothing, and is asked for again.
pub(crate) fn reported(alloc: Global, machine: &Machine<'_>) -> Result<Vec<u8>, Failure> {
    for _ in 0..TRIES {
        let mut sink = StdSink::new(Vec::new(alloc));
        match machine.report(alloc, &mut sink) {
            Ok(()) => return Ok(sink.into_inner()),
            Err(ReportFault::Memory) => {
                if !sink.into_inner().is_empty() {
                    return Err(Failure::Changed);
                }
            }
            // The sink itself was refused memory.
            Err(ReportFault::Sink) => {}
        }
    }
    Err(Failure::Memory)
}

/// A list, copied. A refused copy is asked for again.
pub(crate) fn copied<T: Copy>(alloc: Global, list: &[T]) -> Result<Vec<T>, Failure> {
    for _ in 0..TRIES {
        if let Ok(copy) = Vec::from_slice(alloc, list) {
            return Ok(copy);
        }
    }
    Err(Failure::Memory)
}

/// Whether both were printed by the same thread, and are one number.
fn is_same_number(one: &Printed, other: &Printed) -> bool {
    one.thread == other.thread && one.number == other.number
}

/// Whether the same was printed.
fn are_same_numbers(some: &[Printed], others: &[Printed]) -> bool {
    some.len() == others.len() && some.iter().zip(others).all(|(a, b)| is_same_number(a, b))
}

impl Seen {
    pub(crate) fn of(alloc: Global, machine: &Machine<'_>) -> Result<Seen, Failure> {
        Ok(Seen {
            report: reported(alloc, machine)?,
            entries: machine.journal().len(),
            printed: copied(alloc, machine.lines())?,
            left: machine.left(),
            marking: machine.marking(),
        })
    }

    /// Whether the same is seen.
    pub(crate) fn is_same(&self, other: &Seen) -> bool {
        self.report == other.report
            && self.entries == other.entries
            && are_same_numbers(&self.printed, &other.printed)
            && self.left == other.left
            && self.marking == other.marking
    }
}
