//! What a static of a unit holds.

/// What a static holds. The machine knows a global reference by its key, and a weak one by a key of its own; the replay knows
/// both by the number of the object.
#[derive(Clone, Copy)]
pub enum StaticReference<Held, Weak> {
    /// NULL.
    Empty,
    /// A global reference.
    Live(Held),
    /// A weak global reference, which doesn't keep its object.
    Weakly(Weak),
    /// A weak global reference that was cleared, since its object couldn't be reached.
    Cleared,
    /// A global reference, weak or not, that was deleted, which isn't NULL.
    Deleted,
}
