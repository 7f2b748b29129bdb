//! The line of the heap, by its words.

ghost use Rattle.std.specs.Prelude.{◌≡◌, IfOk, map};
ghost use Rattle.world_schedules.specs.Numbers.{natural_of};
ghost use Rattle.world_lines.specs.ReadingLines.{below_zero, cells_named, heap_named, heap_by_words, heap_of_line};

use crate::line::split_words;
use std::alloc::{AllocError, Global};
use world_schedules::natural;

/// The number below 0 that the digits spell, as a number of cells; none where it isn't below 0.
fn below_zero(digits: &[u8]) -> Option<u64>
    ensures { result ≡ below_zero (natural_of digits.now) }
{
    match natural(digits) {
        None | Some(0) => None,
        Some(_) => Some(0),
    }
}

/// The number of cells that a word spells; a negative one is as far below each limit as 0 is.
fn read_cells(word: &[u8]) -> Option<u64>
    ensures { result ≡ cells_named word.now }
{
    match word {
        [b'-', digits @ ..] => below_zero(digits),
        _ => natural(word),
    }
}

/// A number of cells, where the word before it is `heap`.
fn heap_named(methods: bool, word: &[u8], number: &[u8]) -> Option<(u64, bool)>
    ensures { result ≡ heap_named methods word.now number.now }
{
    if word == b"heap".as_slice() {
        let cells = read_cells(number)?;
        Some((cells, methods))
    } else {
        None
    }
}

/// `heap N` or `heap N methods`, by its words.
fn heap_by_words(words: &[&[u8]]) -> Option<(u64, bool)>
    ensures { result ≡ heap_by_words (map (λ w. w.now) words.now) }
{
    match words {
        [word, number] => heap_named(false, *word, *number),
        [word, number, more] => {
            if *more == b"methods".as_slice() {
                heap_named(true, *word, *number)
            } else {
                None
            }
        }
        _ => None,
    }
}

/// The number of cells that a line of the heap gives it, and whether it allows methods.
#[tactic(auto, unfolding(crate::specs::ReadingLines::heap_of_line))]
pub fn heap_of_line(alloc: Global, line: &[u8]) -> Result<Option<(u64, bool)>, AllocError>
    ensures { IfOk result (λ heap. heap ≡ heap_of_line line.now) }
{
    let words = split_words(alloc, line)?;
    Ok(heap_by_words(&words))
}
