//! What a turn gave.

/// The answer of a turn: the first of these that applies. Only a step adds an entry to the journal, and the clearing of the
/// collection before it, where there was one that cleared weak references.
#[derive(Clone, Copy)]
pub enum Turn {
    /// A trap has stopped the machine.
    Stopped,
    /// The thread has ended.
    Ended,
    /// The thread waits for a monitor that another thread owns; whether each thread that hasn't ended waits.
    Blocked(bool),
    /// The journal has no room for another step.
    Full,
    /// A step was taken whose allocation was refused, since too few cells are left: its entry is marked.
    Short,
    /// A step was taken.
    Stepped,
}
