//! A thread for each worker.

ghost use Rattle.std.specs.Prelude.{◌≡◌, ◌<◌, ◌≤◌, [], map, Ok, Err, IfOk, vec_len};
ghost use Rattle.std.specs.List.{Contains};
ghost use Rattle.syntax.specs.Views.{unit_tree};
ghost use Rattle.code_meaning.specs.Length.{IsTooLong};
ghost use Rattle.lower.specs.Listings.{listings_of};
ghost use Rattle.lower_parallel.specs.Shares.{IsShare, AreShares};

use crate::merge::in_order;
use crate::share::{Watch, lower_share};
use code::code::Code;
use code_meaning::Program;
use lower::LowerError;
use region_rules::Checked;
use std::alloc::Global;
use std::collections::VecDeque;
use std::thread;
use std::thread::Threads;

/// The program that `lower` makes, by several workers: of the functions, counted from 0 in the order of the text, each
/// worker lowers those whose number leaves its own as remainder by `workers`. Each worker has a thread of its own where
/// one can be started, and `lower_parallel` waits for all.
///
/// Errors are those of `lower`, and `Memory` where any worker was refused memory, or there was none for what the workers made.
pub fn lower_parallel<'a, K: Watch + Sync, R: Threads + Sync>(
    rt: &R,
    alloc: Global,
    checked: &'a Checked,
    workers: usize,
    watch: &K,
) -> Result<Program<'a>, LowerError>
    requires workers { (0 < workers) × (workers ≤ 8) }
    ensures ok { IfOk result (λ p. p.unit ≡ checked.now) }
    ensures codes { IfOk result (λ p. p.codes ≡ listings_of [] (unit_tree checked.now).items) }
    ensures short { IfOk result (λ _. IsTooLong (unit_tree checked.now) → ⊥) }
    ensures too_long { result ≡ Err LowerError.TooLong → IsTooLong (unit_tree checked.now) }
{
    let shares = lower_shares(rt, alloc, checked, workers, watch)?;
    let codes = in_order(alloc, shares)?;
    let _ = checked.items();
    Ok(Program::of(checked, codes))
}

/// The shares of all workers.
fn lower_shares<K: Watch + Sync, R: Threads + Sync>(
    rt: &R,
    alloc: Global,
    checked: &Checked,
    workers: usize,
    watch: &K,
) -> Result<Vec<VecDeque<Code>>, LowerError>
    requires { 0 < workers }
    ensures workers { IfOk result (λ shares. vec_len shares ≡ workers) }
    ensures shares { IfOk result (λ shares. AreShares (listings_of [] (unit_tree checked.now).items)
        (map (λ s. s.items) shares.items)) }
    ensures too_long { result ≡ Err LowerError.TooLong → IsTooLong (unit_tree checked.now) }
{
    let share = move |worker: usize| -> Result<VecDeque<Code>, LowerError>
        requires { 0 < workers }
        ensures share { IfOk result (λ codes. IsShare workers worker
            (listings_of [] (unit_tree checked.entry.now).items) codes.items) }
        ensures too_long { result ≡ Err LowerError.TooLong → IsTooLong (unit_tree checked.entry.now) }
    { lower_share(alloc, checked, workers, worker, watch) };
    let answers = thread::map_indices(rt, alloc, workers, &share)?;
    all_made(alloc, answers)
}

/// What the workers made, where each made its share, and else the fault of the first that didn't.
fn all_made(
    alloc: Global,
    answers: Vec<Result<VecDeque<Code>, LowerError>>,
) -> Result<Vec<VecDeque<Code>>, LowerError>
    ensures all { IfOk result (λ shares. answers.items ≡ map (λ s. Ok s) shares.items) }
    ensures fault { result ≡ Err LowerError.TooLong → Contains answers.items (Err LowerError.TooLong) }
{
    let mut shares = Vec::new(alloc);
    for answer in answers {
        shares.push(answer?)?;
    }
    Ok(shares)
}
