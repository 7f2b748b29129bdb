//! Lowered programs: which instructions a statement becomes, and which tasks of the source each place of the code stands for.
#![tactic(auto)]

mod parameters;
mod program;

pub use parameters::Parameters;
pub use program::Program;
