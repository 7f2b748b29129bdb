//! What the seat of a thread knows of the run of a machine that threads share, and what a turn changes of it.
#![tactic(auto)]

pub mod kept;
pub mod lines;
