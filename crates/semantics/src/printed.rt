//! What a run prints.

/// A number that a thread printed.
#[derive(Clone, Copy)]
pub struct Printed {
    /// The thread's number, from 1.
    pub thread: u8,
    pub number: i32,
}
