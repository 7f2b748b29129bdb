//! What a report tells: the objects that can still be reached, by rising names, and the statuses of the threads.
#![tactic(auto)]

mod names;
mod roots;
mod row;
mod rows;
mod standing;

pub use rows::{ReachedRows, reached_marks, reached_rows};
pub use semantics::Objects;
pub use standing::standing_of;
