//! The entries of journals.

ghost use Rattle.std.specs.Prelude.{◌≡◌};
ghost use Rattle.semantics.specs.EntryViews.{kind_view};

use crate::object_id::ObjectId;
use std::marker::Model;

/// What a run can do at a time.
#[derive(Drop)]
pub enum EntryKind {
    /// The thread of this number, from 1, takes a step; and whether the step's allocation is refused.
    Step { thread: u8, refused: bool },
    /// The weak global references to these objects are cleared.
    Clearing(Vec<ObjectId>),
}

/// What a run did, as its journal tells it.
#[derive(Drop)]
pub struct Entry {
    kind: EntryKind,
}

impl Model for Entry {
    ghost use Rattle.semantics.specs.Journal.{Entry as JournalEntry};

    ghost Value = { JournalEntry };

    ghost use Rattle.semantics.specs.EntryViews.{kind_view};

    ghost view = { λ e. kind_view e.kind };
}

impl Entry {
    /// The entry of what was done.
    #[inline]
    pub fn new(kind: EntryKind) -> Entry
        ensures { result ≡ kind_view kind }
    {
        Entry { kind }
    }

    /// What was done.
    #[inline]
    pub fn kind(&self) -> &EntryKind
        ensures { kind_view result.now ≡ self.now }
    {
        &self.kind
    }
}
