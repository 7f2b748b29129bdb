//! Whether the operand stack stays in its range, and jumps lead inside.

ghost use Rattle.std.specs.Prelude.{◌≡◌, ◌+◌, ◌-◌, ◌<◌, ◌≤◌, ◌↔◌, List, IsTrue, IsSome, IfSome, IfOk, length, slice_index};
ghost use Rattle.code.specs.declared.instr.Instr.{Instr};
ghost use Rattle.code.specs.Depth.{depth_after, words_taken, with_fewer, with_result, depths, IsDepthTable, Leaves, EndsByLeaving, Lands, JumpsLand};

use crate::instr::{Instr, Operand, Target};
use std::alloc::{AllocError, Global};

/// The number of words at each place of the code, or none where an instruction finds too few of them or no room.
pub(crate) fn depth_table(alloc: Global, instrs: &[Instr]) -> Result<Option<Vec<usize>>, AllocError>
    ensures table { IfOk result (λ found. IfSome found (λ table. IsDepthTable instrs.now table.items)) }
    ensures stays { IfOk result (λ found. IsSome found ↔ IsSome (depths instrs.now 0)) }
{
    let mut table = Vec::new(alloc);
    let mut depth = 0;
    for instr in instrs {
        table.push(depth)?;
        match next_depth(instr, depth) {
            Some(next) => depth = next,
            None => return Ok(None),
        }
    }
    Ok(Some(table))
}

fn next_depth(instr: &Instr, depth: usize) -> Option<usize>
    requires { depth ≤ 64 }
    ensures next { result ≡ depth_after instr.now depth }
    ensures limit { IfSome result (λ d. d ≤ 64) }
{
    match instr {
        Instr::Push(_) | Instr::Load(_) | Instr::TestNull { .. } => {
            (depth < 64).then_some(depth + 1)
        }
        Instr::Complement
        | Instr::Not
        | Instr::Convert
        | Instr::LoadElement(..)
        | Instr::LoadBuffer { .. } => (depth > 0).then_some(depth),
        Instr::Operate(_) | Instr::OperateOrTrap(..) => depth.checked_sub(1).filter(|d| *d > 0),
        Instr::StoreElement(..) | Instr::StoreBuffer { .. } => depth.checked_sub(2),
        Instr::Store(_)
        | Instr::JumpIfFalseOrPop(_)
        | Instr::JumpIfTrueOrPop(_)
        | Instr::JumpIfFalse(_)
        | Instr::PutJint => depth.checked_sub(1),
        Instr::ReturnJint => (depth > 0).then_some(0),
        Instr::ClearArray(_) | Instr::StoreNull(_) => Some(depth),
        Instr::Call(boxed) => {
            let call = boxed.call();
            with_result(call.target, fewer(words_taken(&call.operands), depth)?)
        }
        Instr::Jump(_) | Instr::JumpBack(_) | Instr::Return | Instr::ReturnReference(_) => Some(0),
    }
}

/// How many words a call takes from the stack.
fn words_taken(operands: &[Operand]) -> usize
    ensures words { result ≡ words_taken operands.now }
    ensures few { result ≤ length operands.now }
{
    match operands {
        [] => 0,
        [Operand::Number, rest @ ..] => 1 + words_taken(rest),
        [_, rest @ ..] => words_taken(rest),
    }
}

/// This many words less, where there are as many.
fn fewer(taken: usize, depth: usize) -> Option<usize>
    ensures { result ≡ with_fewer taken depth }
{
    if taken <= depth {
        Some(depth - taken)
    } else {
        None
    }
}

/// And with a call's result, if it goes onto the stack.
fn with_result(target: Target, depth: usize) -> Option<usize>
    requires { depth ≤ 64 }
    ensures next { result ≡ with_result target depth }
    ensures limit { IfSome result (λ d. d ≤ 64) }
{
    match target {
        Target::Test => (depth < 64).then_some(depth + 1),
        _ => Some(depth),
    }
}

/// Whether the last instruction has nothing after it.
pub(crate) fn ends_by_leaving(instrs: &[Instr]) -> bool
    ensures { IsTrue result ↔ EndsByLeaving instrs.now }
{
    instrs.last().is_some_and(leaves)
}

fn leaves(instr: &Instr) -> bool
    ensures { IsTrue result ↔ Leaves instr.now }
{
    match instr {
        Instr::Jump(_)
        | Instr::JumpBack(_)
        | Instr::Return
        | Instr::ReturnJint
        | Instr::ReturnReference(_) => true,
        _ => false,
    }
}

/// Whether each jump leads inside the code, to a place with as many words as it leaves.
pub(crate) fn jumps_land(instrs: &[Instr], table: &[usize]) -> bool
    requires { IsDepthTable instrs.now table.now }
    ensures { IsTrue result ↔ JumpsLand instrs.now }
{
    for (place, instr) in instrs.iter().enumerate() {
        if !lands(instr, place, table) {
            return false;
        }
    }
    true
}

fn lands(instr: &Instr, place: usize, table: &[usize]) -> bool
    requires { place < length table.now }
    ensures { (instrs : List Instr) → IsDepthTable instrs table.now → (IsTrue result ↔ Lands instrs place (slice_index table.now place) instr.now) }
{
    let depth = table[place];
    match instr {
        Instr::JumpIfFalseOrPop(n) | Instr::JumpIfTrueOrPop(n) | Instr::Jump(n) => {
            has_depth(table, place, *n as usize, depth)
        }
        Instr::JumpIfFalse(n) => has_depth(table, place, *n as usize, depth.saturating_sub(1)),
        Instr::JumpBack(n) => has_depth_before(table, place, *n as usize, depth),
        _ => true,
    }
}

/// Whether the place after the next `skipped` instructions is inside, with `depth` words.
fn has_depth(table: &[usize], place: usize, skipped: usize, depth: usize) -> bool
    requires { place < length table.now }
    ensures { IsTrue result ↔ ((place + 1 + skipped < length table.now) × (slice_index table.now (place + 1 + skipped) ≡ depth)) }
{
    skipped < table.len() - place - 1 && table[place + 1 + skipped] == depth
}

/// Whether the place `back` places before is inside, with `depth` words.
fn has_depth_before(table: &[usize], place: usize, back: usize, depth: usize) -> bool
    requires { place < length table.now }
    ensures { IsTrue result ↔ ((back ≤ place) × (slice_index table.now (place - back) ≡ depth)) }
{
    back <= place && table[place - back] == depth
}
