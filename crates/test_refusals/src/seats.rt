//! A machine that is driven by the turns of its seats.

ghost use Rattle.std.specs.Prelude.{◌≡◌};
ghost use Rattle.crossbeam_utils.specs.Seq.{cell_view};
ghost use Rattle.shared_passes.specs.Tokens.{knower, unknown};

use crate::failure::Failure;
use crate::seen::{TRIES, reported};
use crate::steps::is_step;
use machine::Machine;
use semantics::ScheduleWord;
use shared::{Cell, Naming, Pass, Seat, Shared, new_cell};
use std::alloc::Global;
use std::marker::Brand;
use std::sync::Wait;
use world_schedules::Schedule;

/// The report after the words of the schedule, each of which is taken until memory isn't refused. A turn that was refused it has
/// changed no line of its seat.
pub(crate) fn by_seats<R: Wait>(
    rt: &R,
    alloc: Global,
    machine: Machine<'_>,
    schedule: &Schedule,
) -> Result<Vec<u8>, Failure> {
    let (cell, keeper) = new_cell(alloc)?;
    by_named_seats::<Brand, R>(rt, alloc, cell, keeper, machine, schedule)
}

/// The report after the words of the schedule, with a name for what is shared.
fn by_named_seats<J: Naming, R: Wait>(
    rt: &R,
    alloc: Global,
    cell: Cell,
    keeper: Pass,
    machine: Machine<'_>,
    schedule: &Schedule,
) -> Result<Vec<u8>, Failure>
    requires cell { cell.table.shared.table_id ≡ J.cell }
    requires keeper { (keeper.table_id ≡ J.cell) × (cell_view keeper ≡ knower unknown 0) }
    requires unit { machine.unit ≡ J.unit }
    requires world { machine.world ≡ J.world }
{
    let opened: Result<(Shared<'_, J>, Vec<_>), _> = Shared::new(alloc, cell, keeper, machine);
    let Ok((shared, mut seats)) = opened else {
        return Err(Failure::Memory);
    };
    for repetition in schedule.repetitions() {
        for _ in 0..repetition.times {
            if !take(rt, &shared, &mut seats, repetition.word)? {
                break;
            }
        }
    }
    match shared.finish(rt, seats) {
        Ok(machine) => reported(alloc, &machine),
        Err(_) => Err(Failure::Changed),
    }
}

/// Takes a word. Whether it can do more where it comes again.
fn take<J: Naming, R: Wait>(
    rt: &R,
    shared: &Shared<'_, J>,
    seats: &mut Vec<Seat<J>>,
    word: ScheduleWord,
) -> Result<bool, Failure> {
    match word {
        ScheduleWord::Collect => collect(rt, shared),
        ScheduleWord::Slice => slice(rt, shared),
        ScheduleWord::Turn(k) => {
            for seat in seats {
                if seat.thread() == k {
                    return turn(rt, shared, seat);
                }
            }
            Ok(false)
        }
    }
}

/// Asks for a collection until memory isn't refused.
fn collect<J: Naming, R: Wait>(rt: &R, shared: &Shared<'_, J>) -> Result<bool, Failure> {
    for _ in 0..TRIES {
        if shared.collect(rt).is_ok() {
            return Ok(true);
        }
    }
    Err(Failure::Memory)
}

/// Asks for a slice until memory isn't refused.
fn slice<J: Naming, R: Wait>(rt: &R, shared: &Shared<'_, J>) -> Result<bool, Failure> {
    for _ in 0..TRIES {
        if shared.slice(rt).is_ok() {
            return Ok(true);
        }
    }
    Err(Failure::Memory)
}

/// The numbers of a seat.
fn lines<J: Naming>(shared: &Shared<'_, J>, seat: &Seat<J>) -> Result<Vec<i32>, Failure> {
    for _ in 0..TRIES {
        if let Ok(lines) = shared.lines(seat) {
            return Ok(lines);
        }
    }
    Err(Failure::Memory)
}

/// Asks for a turn of a seat until memory isn't refused. Whether it was a step.
fn turn<J: Naming, R: Wait>(
    rt: &R,
    shared: &Shared<'_, J>,
    seat: &mut Seat<J>,
) -> Result<bool, Failure> {
    let before = lines(shared, seat)?;
    for _ in 0..TRIES {
        if let Ok(turn) = shared.turn(rt, seat) {
            return Ok(is_step(turn));
        }
        if lines(shared, seat)? != before {
            return Err(Failure::Changed);
        }
    }
    Err(Failure::Memory)
}
