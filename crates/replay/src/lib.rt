//! A second opinion on runs: an interpreter of trees that replays a journal, without code, addresses or a collector.
#![tactic(auto)]

mod fault;
mod journal;
mod load;
mod trap_at;

pub use fault::ReplayError;
pub use journal::replay;
pub use load::start;
pub use trap_at::{TrapAt, shown_stop};
