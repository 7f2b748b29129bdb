//! From the statements of checked functions to instructions, each name in its slot.
#![tactic(auto)]

mod emitting;
mod names;
mod statements;
mod terms;

pub use emitting::emit;
pub use names::{Names, Slot};
pub use statements::emit_block;
