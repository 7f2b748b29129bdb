//! The entries of a journal, which are written after a report.

ghost use Rattle.std.specs.Prelude.{◌≡◌, ◌<◌, List, Some, length, slice_get, take};
ghost use Rattle.semantics.specs.Journal.{Entry as JournalEntry, clearings_in};
ghost use Rattle.report.specs.RunText.{entry_shown};

use semantics::{Entry, EntryKind, ObjectId};

/// What a run did at a time, as its journal shows it.
#[derive(Clone, Copy)]
pub enum ShownEntry<'a> {
    /// The thread of this number, from 1, took a step; and whether the step's allocation was refused.
    Step { thread: u8, refused: bool },
    /// The weak global references to these objects were cleared.
    Clearing(&'a [ObjectId]),
}

/// What has the entries of a journal to show, which are asked for one after another.
pub trait Entries {
    /// The entries, in order.
    ghost entries: { Self → List JournalEntry };

    /// How many entries there are.
    fn len(&self) -> usize
        ensures { result ≡ length (entries self.now) };

    /// The entry at a place, before which there are this many clearings.
    fn entry(&self, place: usize, clearings: usize) -> ShownEntry<'_>
        requires inside { place < length (entries self.now) }
        requires before { clearings ≡ clearings_in (take place (entries self.now)) }
        ensures { slice_get (entries self.now) place ≡ Some (entry_shown result) };
}

/// Entries that lie one after another in memory.
#[derive(Clone, Copy)]
pub struct Listed<'a>(pub &'a [Entry]);

impl Entries for Listed<'_> {
    ghost entries = { λ l. l.0.now };

    fn len(&self) -> usize {
        self.0.len()
    }

    fn entry(&self, place: usize, _clearings: usize) -> ShownEntry<'_> {
        match self.0[place].kind() {
            EntryKind::Step { thread, refused } => ShownEntry::Step {
                thread: *thread,
                refused: *refused,
            },
            EntryKind::Clearing(objects) => ShownEntry::Clearing(objects),
        }
    }
}
