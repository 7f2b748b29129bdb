//! What each entry of a journal did, in the program's words: a line for each, told by a replay. It is for the reader's eye, and no
//! contract fixes it.
#![tactic(auto)]

mod calls;
mod entries;
mod held;
mod journal;
mod keeping;
mod line;
mod step;
mod terms;
mod tracker;

pub use entries::{Told, Traced, trace};
pub use journal::{tell_lack, tell_nothing, trace_line};
pub use keeping::Keeping;
