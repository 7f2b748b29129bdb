//! The codes of all shares, in the order of the text.

ghost use Rattle.std.specs.Prelude.{◌≡◌, ◌<◌, ◌++◌, ℕ, List, [], length, map, None, IfOk, IsSome, vec_len, option_to_list, slice_index_or};
ghost use Rattle.std.specs.List.{sum_by};
ghost use Rattle.code.specs.Depth.{Listing};
ghost use Rattle.lower_parallel.specs.Shares.{AreShares};

use code::code::Code;
use std::alloc::{AllocError, Global};
use std::collections::VecDeque;

/// The codes of which these are the shares: one of each worker in turn, until the worker whose turn it is has none.
pub(crate) fn in_order(
    alloc: Global,
    mut shares: Vec<VecDeque<Code>>,
) -> Result<Vec<Code>, AllocError>
    requires { 0 < vec_len shares }
    ensures { IfOk result (λ codes. (program : List Listing) → AreShares program (map (λ s. s.items) shares.items)
        → codes.items ≡ program) }
{
    let workers = shares.len();
    let mut codes = Vec::new(alloc);
    while let Some(code) = take_code(&mut shares, codes.len() % workers) {
        codes.push(code)?;
    }
    Ok(codes)
}

/// The next code of a worker's share, or none where it has no more.
fn take_code(shares: &mut Vec<VecDeque<Code>>, worker: usize) -> Option<Code>
    requires { worker < vec_len shares.old }
    ensures taken { slice_index_or (map (λ s. s.items) shares.old.items) worker [] ≡ option_to_list result
        ++ slice_index_or (map (λ s. s.items) shares.new.items) worker [] }
    ensures none { result ≡ None → slice_index_or (map (λ s. s.items) shares.old.items) worker [] ≡ [] }
    ensures kept { (w : ℕ) → (w ≡ worker → ⊥) → slice_index_or (map (λ s. s.items) shares.new.items) w []
        ≡ slice_index_or (map (λ s. s.items) shares.old.items) w [] }
    ensures many { vec_len shares.new ≡ vec_len shares.old }
    ensures fewer { IsSome result
        → sum_by (λ s. length s.items) shares.new.items < sum_by (λ s. length s.items) shares.old.items }
{
    shares[worker].pop_front()
}
