// The numbers that a thread has printed.
ghost use Rattle.std.specs.Prelude.{◌≡◌, ◌<◌, ◌≤◌, length, IfOk, OnErr, IsSome, vec_len, vec_capacity};
ghost use Rattle.machine.specs.Run.{CouldStep, TurnHolds, replay_of};
ghost use Rattle.shared_accounts.specs.Accounts.{account_of, more_of, number_at, numbers_of};

use machine::{Machine, Turn};
use semantics::Printed;
use std::alloc::{AllocError, Global};

/// The numbers of a thread among those that were printed.
pub fn numbers_of(alloc: Global, printed: &[Printed], k: u8) -> Result<Vec<i32>, AllocError>
    ensures { IfOk result (λ numbers. numbers.items ≡ numbers_of printed.now k) }
{
    let mut numbers = Vec::new(alloc);
    for line in printed {
        if line.thread == k {
            numbers.push(line.number)?;
        }
    }
    Ok(numbers)
}

/// Lets thread `k` take one step, and puts what it prints behind its lines.
///
/// An `Err` says that host memory was refused to a step, for which the line's place is taken before, or to its
/// collection. Nothing has changed then.
pub fn step_with_lines(
    machine: &mut Machine<'_>,
    lines: &mut Vec<i32>,
    k: u8,
) -> Result<Turn, AllocError>
    requires counted { 0 < k }
    requires is_thread { k ≤ length machine.old.world.threads }
    ensures turn { IfOk result (TurnHolds machine.old k machine.new) }
    ensures err { OnErr result ((machine.new ≡ machine.old) × CouldStep machine.old k) }
    ensures runs { IsSome (replay_of machine.new) }
    ensures lines { (account_of machine.old k).printed ≡ lines.old.items → (account_of machine.new k).printed ≡ lines.new.items }
{
    if lines.len() >= lines.capacity() {
        if let Some(turn) = machine.turn_without_step(k) {
            return Ok(turn);
        }
        lines.reserve(1)?;
    }
    let before = machine.lines().len();
    let turn = machine.step(k)?;
    add_line(lines, machine.lines(), before);
    Ok(turn)
}

/// Puts the number at a place behind the lines, where there is one.
fn add_line(lines: &mut Vec<i32>, printed: &[Printed], place: usize)
    requires { vec_len lines.old < vec_capacity lines.old }
    ensures { lines.new.items ≡ more_of lines.old.items (number_at printed.now place) }
{
    if let Some(line) = printed.get(place) {
        lines.push_reserved(line.number);
    }
}
