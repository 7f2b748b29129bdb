//! Classes by their numbers.

/// A class of a table: its number in the order in which classes are declared, counted from 1.
#[derive(Clone, Copy, PartialEq, Eq)]
pub struct ClassId {
    pub number: usize,
}

/// No class of any table.
pub const NO_CLASS: ClassId = ClassId { number: 0 };
