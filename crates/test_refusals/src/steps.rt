//! A machine that is driven by its own calls.

use crate::failure::Failure;
use crate::seen::{Seen, TRIES};
use machine::{Machine, Turn};
use semantics::ScheduleWord;
use std::alloc::{AllocError, Global};
use world_schedules::Schedule;

/// Takes the words of the schedule, each until memory isn't refused. A call that was refused it has changed nothing that is seen.
pub(crate) fn by_steps(
    alloc: Global,
    machine: &mut Machine<'_>,
    schedule: &Schedule,
) -> Result<(), Failure> {
    for repetition in schedule.repetitions() {
        for _ in 0..repetition.times {
            if !take(alloc, machine, repetition.word)? {
                break;
            }
        }
    }
    Ok(())
}

/// Takes a word. Whether it can do more where it comes again.
fn take(alloc: Global, machine: &mut Machine<'_>, word: ScheduleWord) -> Result<bool, Failure> {
    let before = Seen::of(alloc, machine)?;
    for _ in 0..TRIES {
        if let Ok(goes_on) = ask(machine, word) {
            return Ok(goes_on);
        }
        if !before.is_same(&Seen::of(alloc, machine)?) {
            return Err(Failure::Changed);
        }
    }
    Err(Failure::Memory)
}

/// Asks for a step of the word's thread, for a collection or for a slice. Whether it can do more where it comes again.
fn ask(machine: &mut Machine<'_>, word: ScheduleWord) -> Result<bool, AllocError> {
    match word {
        ScheduleWord::Collect => {
            machine.collect()?;
            Ok(true)
        }
        ScheduleWord::Slice => {
            machine.slice()?;
            Ok(true)
        }
        ScheduleWord::Turn(k) => {
            if k == 0 || k > machine.threads() {
                return Ok(false);
            }
            Ok(is_step(machine.step(k)?))
        }
    }
}

/// Whether the thread took a step.
pub(crate) fn is_step(turn: Turn) -> bool {
    match turn {
        Turn::Stepped | Turn::Short => true,
        _ => false,
    }
}
