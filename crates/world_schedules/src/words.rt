//! Texts that are words, separated by spaces and line feeds.

ghost use Rattle.std.specs.Prelude.{◌≡◌, ℕ, [], ◌+◌, ◌++◌, ◌-◌, ◌^◌, ◌<◌, ◌≤◌, List, Option, Bool, IfOk, OnOk, IfSome, is_some, min, sum_by};
ghost use Rattle.std.specs.Option.{option_map};
ghost use Rattle.std.specs.Result.{result_ok};
ghost use Rattle.std.specs.List.{list_all};
ghost use Rattle.base.specs.Limits.{most_entries};
ghost use Rattle.world_schedules.specs.Reading.{Gives};
ghost use Rattle.world_schedules.specs.ReadingWords.{formed_words, line_words, text_words};
ghost use Rattle.world_schedules.specs.Split.{parts_of};

use crate::broken::Broken;
use crate::fault::{ReadError, Rule};
use crate::split::Split;
use base::limits::MOST_ENTRIES;
use std::alloc::{AllocError, Global};
use std::mem;

/// The most words of a text, each as often as it is repeated; and the most of those that are counted apart.
pub(crate) const MOST_WORDS: u64 = MOST_ENTRIES as u64;

/// A word of a text.
pub trait Word: Drop {
    /// The word that the bytes spell, if they spell one.
    ghost spelled: { List ℕ → Option Self };
    /// Whether the word names only what is there, with this number of threads.
    ghost known: { ℕ → Self → Bool };
    /// How many words it stands for.
    ghost times: { Self → ℕ };
    /// How many of those that are counted apart.
    ghost apart: { Self → ℕ };

    fn read(alloc: Global, bytes: &[u8]) -> Result<Option<Self>, AllocError>
        ensures { IfOk result (λ word. word ≡ spelled bytes.now) };

    fn is_known(&self, threads: u8) -> bool
        ensures { result ≡ known threads self.now };

    fn times(&self) -> u32
        ensures { result ≡ times self.now };

    fn apart(&self) -> u32
        ensures { result ≡ apart self.now };

    /// How many a text may have, in words on one that has more.
    fn limit() -> &'static [u8];
}

/// The words of a line, put into an empty list, or the place of the first that has no form.
fn formed<W: Word>(
    alloc: Global,
    empty: Vec<W>,
    line: &[u8],
) -> Result<Result<Vec<W>, usize>, AllocError>
    requires { empty.items ≡ [] }
    ensures { IfOk result (λ words. option_map (λ v. v.items) (result_ok words) ≡ formed_words W.spelled (parts_of 32 line.now)) }
{
    let mut words = empty;
    for part in Split::new(line, b' ') {
        if !part.is_empty() {
            match W::read(alloc, part)? {
                Some(word) => words.push(word)?,
                None => return Ok(Err(words.len())),
            }
        }
    }
    Ok(Ok(words))
}

/// How many words there are so far, and how many of those that are counted apart.
#[derive(Clone, Copy)]
struct Counts {
    words: u64,
    apart: u64,
}

/// How many words these stand for, and how many of those that are counted apart, each at most `u64::MAX`; or `None` where
/// one of them names what isn't there.
fn counts_of<W: Word>(words: &[W], threads: u8) -> Option<Counts>
    ensures known { is_some result ≡ list_all (W.known threads) words.now }
    ensures words { IfSome result (λ counts. counts.words ≡ min (sum_by W.times words.now) (2 ^ 64 - 1)) }
    ensures apart { IfSome result (λ counts. counts.apart ≡ min (sum_by W.apart words.now) (2 ^ 64 - 1)) }
{
    let mut counts = Counts { words: 0, apart: 0 };
    for word in words {
        if !word.is_known(threads) {
            return None;
        }
        counts.words = counts.words.saturating_add(u64::from(word.times()));
        counts.apart = counts.apart.saturating_add(u64::from(word.apart()));
    }
    Some(counts)
}

/// The place of the first of the words of a line that names what isn't there with this number of threads.
#[inline(never)]
fn place_of_unknown<W: Word>(words: &[W], threads: u8) -> usize {
    words
        .iter()
        .position(|word| !word.is_known(threads))
        .unwrap_or(0)
}

/// The words of a line, put into an empty list, after those so far, with which they are counted then.
fn read_line<W: Word>(
    alloc: Global,
    empty: Vec<W>,
    line: &[u8],
    number: usize,
    threads: u8,
    so_far: &mut Counts,
) -> Result<Vec<W>, Broken>
    requires empty { empty.items ≡ [] }
    requires words { so_far.old.words ≤ most_entries }
    requires apart { so_far.old.apart ≤ most_entries }
    ensures words { Gives (λ v. v.items) result
        (line_words W.spelled (W.known threads) W.times W.apart number so_far.old.words so_far.old.apart line.now) }
    ensures counted { IfOk result (λ v. so_far.new.words ≡ so_far.old.words + sum_by W.times v.items) }
    ensures counted_apart { IfOk result (λ v. so_far.new.apart ≡ so_far.old.apart + sum_by W.apart v.items) }
    ensures within { OnOk result (so_far.new.words ≤ most_entries) }
    ensures within_apart { OnOk result (so_far.new.apart ≤ most_entries) }
{
    let words = match formed::<W>(alloc, empty, line)? {
        Ok(words) => words,
        Err(place) => return Err(Broken::at(Rule::Form, number, place)),
    };
    let Some(more) = counts_of(&words, threads) else {
        let place = place_of_unknown(&words, threads);
        return Err(Broken::at(Rule::Name, number, place));
    };
    if more.words > MOST_WORDS - so_far.words {
        return Err(Broken::at(Rule::Limit, number, 0));
    }
    if more.apart > MOST_WORDS - so_far.apart {
        return Err(Broken::at(Rule::Limit, number, 0));
    }
    so_far.words += more.words;
    so_far.apart += more.apart;
    Ok(words)
}

/// Moves words to the end of others. Where there are none yet, these take their place as they are.
fn gather<W: Word>(words: &mut Vec<W>, more: &mut Vec<W>) -> Result<(), AllocError>
    ensures items { OnOk result (words.new.items ≡ words.old.items ++ more.old.items) }
    ensures none { OnOk result (more.new.items ≡ []) }
{
    if words.is_empty() {
        mem::swap(words, more);
        return Ok(());
    }
    words.append(more)?;
    Ok(())
}

/// All words of a text. The words of each line are gathered in one list, whose memory serves for all lines.
pub fn read_words<W: Word>(alloc: Global, text: &[u8], threads: u8) -> Result<Vec<W>, ReadError>
    ensures { Gives (λ v. v.items) result (text_words W.spelled (W.known threads) W.times W.apart text.now) }
{
    let mut words = Vec::new(alloc);
    let mut empty = Vec::new(alloc);
    let mut so_far = Counts { words: 0, apart: 0 };
    let mut number = 0;
    for line in Split::new(text, b'\n') {
        number += 1;
        let mut more = match read_line::<W>(alloc, empty, line, number, threads, &mut so_far) {
            Ok(more) => more,
            Err(broken) => return Err(broken.told::<W>(line, threads)),
        };
        gather(&mut words, &mut more)?;
        empty = more;
    }
    Ok(words)
}
