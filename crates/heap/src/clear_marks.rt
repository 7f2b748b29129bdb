//! Marks between their uses.

ghost use Rattle.std.specs.Prelude.{◌≡◌, ℕ, false, length, IfOk};
ghost use Rattle.heap.specs.Marks.{is_kept};

use std::alloc::{AllocError, Global};
use std::marker::Model;

/// A mark for each cell of a heap, none of which is set, seen as how many they are.
#[derive(Drop)]
pub struct ClearMarks {
    marks: Vec<bool>,
}

impl Model for ClearMarks {
    ghost Value = { ℕ };

    ghost view = { λ m. length m.marks.items };

    ghost invariant = { λ m. (a : ℕ) → is_kept m.marks.items a ≡ false };
}

impl ClearMarks {
    /// So many marks. Fails where the host has too little memory.
    pub fn new(alloc: Global, count: usize) -> Result<ClearMarks, AllocError>
        ensures { IfOk result (λ m. m ≡ count) }
    {
        Ok(ClearMarks {
            marks: vec![in alloc; false; count]?,
        })
    }

    /// Marks that were cleared.
    pub fn of(marks: Vec<bool>) -> ClearMarks
        requires { (a : ℕ) → is_kept marks.items a ≡ false }
        ensures { result ≡ length marks.items }
    {
        ClearMarks { marks }
    }

    /// How many they are.
    pub fn len(&self) -> usize
        ensures { result ≡ self.now }
    {
        self.marks.len()
    }

    /// The marks.
    pub fn into_marks(self) -> Vec<bool>
        ensures count { length result.items ≡ self }
        ensures clear { (a : ℕ) → is_kept result.items a ≡ false }
    {
        let ClearMarks { marks } = self;
        marks
    }
}
