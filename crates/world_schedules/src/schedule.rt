//! In which order the threads step.

ghost use Rattle.std.specs.Prelude.{◌≡◌, ◌≤◌, List, Some, IfOk, IfSome, length, option_and_then};
ghost use Rattle.std.specs.Option.{option_map};
ghost use Rattle.base.specs.Limits.{most_entries};
ghost use Rattle.world_schedules.specs.Numbers.{natural_of};
ghost use Rattle.world_schedules.specs.ScheduleText.{IsScheduleText};
ghost use Rattle.world_schedules.specs.ReadingLaws.{SchedulesAreRead, SchedulesAreRefused, SchedulesAreAccepted};
ghost use Rattle.world_schedules.specs.Reading.{Gives};
ghost use Rattle.world_schedules.specs.SingleTurns.{single_turn, first_turn, single_turns, with_turns};
ghost use Rattle.world_schedules.specs.ReadingSchedules.{named_word, repetition, repetition_of, schedule_of};

use crate::fault::ReadError;
use crate::numbers::natural;
use crate::words::{MOST_WORDS, Word, read_words};
use semantics::ScheduleWord;
use std::alloc::{AllocError, Global};
use std::marker::Model;

/// A word, and how many times in a row.
#[derive(Clone, Copy, PartialEq, Eq)]
pub struct Repetition {
    pub word: ScheduleWord,
    pub times: u32,
}

/// The words of a schedule, in order.
#[derive(Drop)]
pub struct Schedule {
    repetitions: Vec<Repetition>,
}

impl Model for Schedule {
    ghost use Rattle.std.specs.Prelude.{List};
    ghost use Rattle.std.specs.List.{flat_map};
    ghost use Rattle.semantics.specs.declared.schedule.ScheduleWord.{ScheduleWord};
    ghost use Rattle.world_schedules.specs.ReadingSchedules.{repeated_words};

    ghost Value = { List ScheduleWord };

    ghost view = { λ s. flat_map repeated_words s.repetitions.items };
}

impl Schedule {
    ghost use Rattle.std.specs.List.{flat_map};
    ghost use Rattle.world_schedules.specs.ReadingSchedules.{repeated_words};

    /// The words, each with how often it comes in a row.
    pub fn repetitions(&self) -> &[Repetition]
        ensures { flat_map repeated_words result.now ≡ self.now }
    {
        &self.repetitions
    }
}

impl Word for Repetition {
    ghost use Rattle.world_schedules.specs.ReadingSchedules.{repetition_of, is_known_turn};

    ghost spelled = { repetition_of };

    ghost known = { λ threads r. is_known_turn threads r.word };

    ghost times = { λ r. r.times };

    ghost apart = { λ _. 0 };

    fn read(_alloc: Global, bytes: &[u8]) -> Result<Option<Repetition>, AllocError> {
        Ok(repetition_of(bytes))
    }

    #[inline]
    fn is_known(&self, threads: u8) -> bool {
        match self.word {
            ScheduleWord::Turn(thread) => thread <= threads,
            ScheduleWord::Collect | ScheduleWord::Slice => true,
        }
    }

    fn times(&self) -> u32 {
        self.times
    }

    fn apart(&self) -> u32 {
        0
    }

    fn limit() -> &'static [u8] {
        b"at most 1000000 words in all"
    }
}

/// The repetition that the bytes spell, if they spell one.
fn repetition_of(bytes: &[u8]) -> Option<Repetition>
    ensures { result ≡ repetition_of bytes.now }
{
    match bytes {
        [name] => repeated(word_of(*name)?, 1),
        [name, b'*', digits @ ..] => counted(*name, digits),
        _ => None,
    }
}

/// The turn of the thread of this digit, a collection, or a slice. Turns are tried first, as most words are.
fn word_of(name: u8) -> Option<ScheduleWord>
    ensures { result ≡ named_word name }
{
    if name >= b'1' && name <= b'8' {
        return Some(ScheduleWord::Turn(name - b'0'));
    }
    match name {
        b'c' => Some(ScheduleWord::Collect),
        b's' => Some(ScheduleWord::Slice),
        _ => None,
    }
}

/// The word repeated, from once to a million times.
#[inline]
fn repeated(word: ScheduleWord, times: u64) -> Option<Repetition>
    ensures { result ≡ repetition times word }
{
    if times < 1 || times > MOST_WORDS {
        return None;
    }
    let times = times as u32;
    Some(Repetition { word, times })
}

/// The word of this name, repeated as often as the digits after it say.
#[inline]
fn counted(name: u8, digits: &[u8]) -> Option<Repetition>
    ensures { result ≡ option_and_then (λ word. option_and_then (λ times. repetition times word) (natural_of digits.now)) (named_word name) }
{
    repeated(word_of(name)?, natural(digits)?)
}

/// The turn that a byte names, of a thread that is there, where a space or a line feed comes after it.
#[inline(always)]
fn single_turn(name: u8, end: u8, threads: u8) -> Option<Repetition>
    ensures { result ≡ single_turn threads name end }
{
    if name < b'1' || name > b'8' || name - b'0' > threads || (end != b' ' && end != b'\n') {
        return None;
    }
    Some(Repetition {
        word: ScheduleWord::Turn(name - b'0'),
        times: 1,
    })
}

/// The turn that a text begins with, and what comes after the byte that ends it.
#[inline(always)]
fn first_turn(text: &[u8], threads: u8) -> Option<(Repetition, &[u8])>
    ensures { option_map (λ t. (t.0, t.1.now)) result ≡ first_turn threads text.entry.now }
{
    match text {
        [name, end, after @ ..] => Some((single_turn(*name, *end, threads)?, after)),
        _ => None,
    }
}

/// The turns so far, and the last one, after which a text has no byte.
#[inline(always)]
fn with_last(
    turns: Vec<Repetition>,
    rest: &[u8],
    threads: u8,
) -> Result<Option<Vec<Repetition>>, AllocError>
    ensures { IfOk result (λ all. IfSome all (λ v. with_turns threads turns.items rest.now ≡ Some v.items)) }
{
    let mut turns = turns;
    match rest {
        [] => Ok(Some(turns)),
        [name] => match single_turn(*name, b'\n', threads) {
            Some(turn) => {
                turns.push(turn)?;
                Ok(Some(turns))
            }
            None => Ok(None),
        },
        _ => Ok(None),
    }
}

/// The words of a text that are all turns of threads that are there, each taken once and with one byte after it, as in most
/// long schedules. None where the text has another word, or too many.
fn single_turns(
    alloc: Global,
    text: &[u8],
    threads: u8,
) -> Result<Option<Vec<Repetition>>, AllocError>
    ensures { IfOk result (λ all. IfSome all (λ v. (single_turns threads text.now ≡ Some v.items) × (length v.items ≤ most_entries))) }
{
    let mut turns = Vec::new(alloc);
    let mut rest = text;
    while let Some((turn, after)) = first_turn(rest, threads) {
        turns.push(turn)?;
        rest = after;
    }
    match with_last(turns, rest, threads)? {
        Some(all) if all.len() as u64 <= MOST_WORDS => Ok(Some(all)),
        _ => Ok(None),
    }
}

/// The schedule that the text means, for a world of this number of threads.
///
/// Fault 81: a word has no form. 82: a turn of a thread that the world lacks. 83: more than 1,000,000 words, each
/// counted as often as it is repeated. Of one line the least of these, and of several lines that of the first.
pub fn read_schedule(alloc: Global, text: &[u8], threads: u8) -> Result<Schedule, ReadError>
    ensures read { Gives (λ words. words) result (schedule_of text.now threads) }
    ensures means { IfOk result (IsScheduleText threads text.now) }
{
    if let Some(turns) = single_turns(alloc, text, threads)? {
        return Ok(Schedule { repetitions: turns });
    }
    let repetitions = read_words::<Repetition>(alloc, text, threads)?;
    Ok(Schedule { repetitions })
}

/// A schedule is read of exactly the texts that mean it: a law, which computes nothing.
pub fn schedules_are_read()
    ensures { SchedulesAreRead }
{}

/// A schedule is refused with the first fault of its text, and read where no line breaks a rule: a law, which computes
/// nothing.
pub fn schedules_are_refused()
    ensures first { SchedulesAreRefused }
    ensures only { SchedulesAreAccepted }
{}
