//! Lowering by several workers, each in a thread of its own.
#![tactic(auto)]

mod merge;
mod share;
mod workers;

pub use share::Watch;
pub use workers::lower_parallel;
