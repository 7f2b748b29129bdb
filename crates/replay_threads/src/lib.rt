//! The threads of a replay in memory: calls in progress and to come, the state of all, and what an entry does to it.
#![tactic(auto)]

mod clearing;
mod rows;
mod state;
mod thread;

pub use rows::root_names;
pub use state::{State, standings_of, take_entry};
pub use thread::{Thread, class_of};
