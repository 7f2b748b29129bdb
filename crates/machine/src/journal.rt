//! The journal of a machine.

ghost use Rattle.std.specs.Prelude.{◌≡◌, ℕ, ◌+◌, ◌-◌, ◌<◌, ◌≤◌, [], ◌∷◌, ◌++◌, length, nat_le, OnOk};
ghost use Rattle.base.specs.Limits.{most_entries};
ghost use Rattle.semantics.specs.Journal.{Step, steps_in};
ghost use Rattle.semantics.specs.Views.{names_of};
ghost use Rattle.machine_collections.specs.Clearing.{clearing_of};
ghost use Rattle.machine.specs.Writing.{note_of_step};

use base::limits::MOST_ENTRIES;
use report::{Entries, ShownEntry};
use semantics::ObjectId;
use std::alloc::{AllocError, Global};
use std::marker::Model;

/// What was done at a time. It is small, since there is one for each step.
#[derive(Clone, Copy)]
pub(crate) enum Note {
    /// The thread of this number, from 1, took a step.
    Step { thread: u8 },
    /// The same of a step whose allocation was refused.
    RefusedStep { thread: u8 },
    /// Weak global references were cleared: those of the next list that is kept apart.
    Clearing,
}

/// The note of a step of this thread, and of whether the step's allocation was refused.
#[inline(always)]
fn note_of_step(thread: u8, refused: bool) -> Note
    ensures { result ≡ note_of_step thread refused }
{
    if refused {
        Note::RefusedStep { thread }
    } else {
        Note::Step { thread }
    }
}

/// For how many steps a journal of so many notes, and of so many clearings among them, has room and memory, where that is more
/// memory than steps take. It stands apart, since most journals have less.
#[inline(never)]
fn room_left(capacity: usize, notes: usize, clearings: usize) -> usize
    ensures memory { result ≤ capacity - notes }
    ensures room { result ≤ most_entries + clearings - notes }
{
    let room = capacity.min(MOST_ENTRIES.saturating_add(clearings));
    room.saturating_sub(notes)
}

/// What a machine did, seen as its entries, and as the numbers of further ones for which it has memory.
pub struct Journal {
    notes: Vec<Note>,
    /// The objects of each clearing, in the order of those.
    cleared: Vec<Vec<ObjectId>>,
}

impl Drop for Journal {
    fn drop(self) {
        let Journal { notes, cleared } = self;
        drop(notes);
        drop(cleared);
    }
}

impl Model for Journal {
    ghost use Rattle.std.specs.Prelude.{◌≡◌, ◌-◌, length, vec_len, vec_capacity};
    ghost use Rattle.semantics.specs.Journal.{clearings_in};
    ghost use Rattle.machine.specs.Writing.{Writing, entries_of};

    ghost Value = { Writing };

    ghost view = { λ j. record {
      entries = entries_of j.notes.items j.cleared.items;
      room = vec_capacity j.notes - vec_len j.notes;
      lists = vec_capacity j.cleared - vec_len j.cleared;
    } };

    ghost invariant = { λ j. clearings_in (entries_of j.notes.items j.cleared.items) ≡ length j.cleared.items };
}

impl Entries for Journal {
    ghost entries = { λ j. j.entries };

    #[inline]
    fn len(&self) -> usize {
        self.notes.len()
    }

    #[inline]
    fn entry(&self, place: usize, clearings: usize) -> ShownEntry<'_> {
        match self.notes[place] {
            Note::Step { thread } => ShownEntry::Step {
                thread,
                refused: false,
            },
            Note::RefusedStep { thread } => ShownEntry::Step {
                thread,
                refused: true,
            },
            Note::Clearing => ShownEntry::Clearing(&self.cleared[clearings]),
        }
    }
}

impl Journal {
    /// No entry.
    pub(crate) fn new(alloc: Global) -> Journal
        ensures { result.entries ≡ [] }
    {
        Journal {
            notes: Vec::new(alloc),
            cleared: Vec::new(alloc),
        }
    }

    /// Whether no step can be added any more: clearings don't count.
    #[inline(always)]
    pub(crate) fn is_full(&self) -> bool
        ensures { result ≡ nat_le most_entries (steps_in self.now.entries) }
    {
        self.notes.len() >= MOST_ENTRIES && self.notes.len() - self.cleared.len() >= MOST_ENTRIES
    }

    /// How many steps it has room and memory for, but no more than this many.
    #[inline(always)]
    pub(crate) fn most_steps(&self, most: u32) -> u32
        ensures most { result ≤ most }
        ensures room { 0 < result → steps_in self.now.entries + result ≤ most_entries }
        ensures memory { result ≤ self.now.room }
    {
        let notes = self.notes.len();
        let capacity = self.notes.capacity();
        if capacity <= MOST_ENTRIES {
            let left = capacity - notes;
            return most.min(left as u32);
        }
        let room = room_left(capacity, notes, self.cleared.len());
        most.min(room as u32)
    }

    /// Takes memory for a step, where there is none yet.
    #[inline(always)]
    pub(crate) fn reserve(&mut self) -> Result<(), AllocError>
        ensures same { self.new.entries ≡ self.old.entries }
        ensures room { OnOk result (0 < self.new.room) }
    {
        self.notes.reserve(1)
    }

    /// Takes memory for a clearing and a step after it, where there is none yet.
    pub(crate) fn reserve_clearing(&mut self) -> Result<(), AllocError>
        ensures same { self.new.entries ≡ self.old.entries }
        ensures room { OnOk result (2 ≤ self.new.room) }
        ensures lists { OnOk result (0 < self.new.lists) }
    {
        self.notes.reserve(2)?;
        self.cleared.reserve(1)
    }

    /// Adds a step of thread `k`, for which there is memory.
    #[inline(always)]
    pub(crate) fn push_step(&mut self, k: u8, refused: bool)
        requires { 0 < self.old.room }
        ensures entries { self.new.entries ≡ self.old.entries ++ Step k refused ∷ [] }
        ensures room { self.new.room + 1 ≡ self.old.room }
    {
        self.notes.push_reserved(note_of_step(k, refused));
    }

    /// Adds the clearing of the weak references to these objects, for which there is memory; none where there are no objects.
    pub(crate) fn push_clearing(&mut self, objects: Vec<ObjectId>)
        requires room { 0 < self.old.room }
        requires lists { 0 < self.old.lists }
        ensures entries { self.new.entries ≡ self.old.entries ++ clearing_of (names_of objects.items) }
        ensures room { self.old.room ≤ self.new.room + 1 }
    {
        if !objects.is_empty() {
            self.notes.push_reserved(Note::Clearing);
            self.cleared.push_reserved(objects);
        }
    }
}
