//! The entries of a run.

ghost use Rattle.std.specs.Prelude.{◌≡◌, Some, None, IfOk};
ghost use Rattle.std.specs.Option.{option_map};
ghost use Rattle.base.specs.Options.{option_filter};
ghost use Rattle.semantics.specs.Views.{names_of};
ghost use Rattle.world_schedules.specs.JournalMeaning.{IsJournalText};
ghost use Rattle.world_schedules.specs.ReadingLaws.{JournalsAreRead, JournalsAreRefused, JournalsAreAccepted};
ghost use Rattle.world_schedules.specs.Reading.{Gives};
ghost use Rattle.world_schedules.specs.ReadingJournals.{clearing_named, journal_of, name_spelled, names_spelled, step_named, EntriesAreReadAgain};
ghost use Rattle.world_schedules.specs.Split.{parts_of};

use crate::fault::ReadError;
use crate::numbers::natural;
use crate::split::Split;
use crate::words::{Word, read_words};
use base::limits::MOST_NAME;
use semantics::{Entry, EntryKind, ObjectId, are_rising};
use std::alloc::{AllocError, Global};

impl Word for Entry {
    ghost use Rattle.world_schedules.specs.ReadingJournals.{entry_of, is_up_to, step_count, clearing_count};

    ghost spelled = { entry_of };

    ghost known = { is_up_to };

    ghost times = { step_count };

    ghost apart = { clearing_count };

    fn read(alloc: Global, bytes: &[u8]) -> Result<Option<Entry>, AllocError> {
        match bytes {
            [b'~', names @ ..] => clearing(alloc, names),
            [name, marks @ ..] => Ok(step(*name, marks)),
            [] => Ok(None),
        }
    }

    #[inline]
    fn is_known(&self, threads: u8) -> bool {
        match self.kind() {
            EntryKind::Step { thread, .. } => *thread <= threads,
            EntryKind::Clearing(_) => true,
        }
    }

    fn times(&self) -> u32 {
        match self.kind() {
            EntryKind::Step { .. } => 1,
            EntryKind::Clearing(_) => 0,
        }
    }

    fn apart(&self) -> u32 {
        match self.kind() {
            EntryKind::Step { .. } => 0,
            EntryKind::Clearing(_) => 1,
        }
    }

    fn limit() -> &'static [u8] {
        b"at most 1000000 steps, and as many clearings"
    }
}

/// The step of the thread of this digit, with what comes after it: nothing, or the mark of a refused allocation.
fn step(name: u8, marks: &[u8]) -> Option<Entry>
    ensures { result ≡ step_named name marks.now }
{
    let refused = match marks {
        [] => false,
        [b'!'] => true,
        _ => return None,
    };
    match name {
        b'1'..=b'8' => {
            let thread = name - b'0';
            Some(Entry::new(EntryKind::Step { thread, refused }))
        }
        _ => None,
    }
}

/// The object whose name a part spells.
fn object(part: &[u8]) -> Option<ObjectId>
    ensures { option_map (λ o. o.number) result ≡ name_spelled part.now }
{
    let number = natural(part)?;
    if number < 1 || number > MOST_NAME {
        return None;
    }
    Some(ObjectId {
        number: number as usize,
    })
}

/// The objects whose names the parts between commas spell, where each spells one.
fn objects(alloc: Global, names: &[u8]) -> Result<Option<Vec<ObjectId>>, AllocError>
    ensures { IfOk result (λ objects. option_map (λ v. names_of v.items) objects ≡ names_spelled (parts_of 44 names.now)) }
{
    let mut objects = Vec::new(alloc);
    for part in Split::new(names, b',') {
        match object(part) {
            Some(object) => objects.push(object)?,
            None => return Ok(None),
        }
    }
    Ok(Some(objects))
}

/// The clearing of the weak references to the objects of these names, with commas between them.
fn clearing(alloc: Global, names: &[u8]) -> Result<Option<Entry>, AllocError>
    ensures { IfOk result (λ entry. entry ≡ clearing_named names.now) }
{
    match objects(alloc, names)? {
        Some(objects) if are_rising(&objects) => {
            Ok(Some(Entry::new(EntryKind::Clearing(objects))))
        }
        _ => Ok(None),
    }
}

/// The journal that the text means, for a world of this number of threads.
///
/// Fault 81: a word has no form. 82: a step of a thread that the world lacks. 83: more than 1,000,000 steps, or more
/// than 1,000,000 clearings. Of one line the least of these, and of several lines that of the first.
pub fn read_journal(alloc: Global, text: &[u8], threads: u8) -> Result<Vec<Entry>, ReadError>
    ensures read { Gives (λ v. v.items) result (journal_of text.now threads) }
    ensures means { IfOk result (λ v. IsJournalText threads text.now v.items) }
{
    read_words::<Entry>(alloc, text, threads)
}

/// What is written of entries is read as these entries: a law, which computes nothing.
pub fn entries_are_read_again()
    ensures { EntriesAreReadAgain }
{}

/// A journal is read of exactly the texts that mean it: a law, which computes nothing.
pub fn journals_are_read()
    ensures { JournalsAreRead }
{}

/// A journal is refused with the first fault of its text, and read where no line breaks a rule: a law, which computes
/// nothing.
pub fn journals_are_refused()
    ensures first { JournalsAreRefused }
    ensures only { JournalsAreAccepted }
{}
