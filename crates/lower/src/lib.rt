//! From checked programs to code, of which each instruction is one step of the source.
#![tactic(auto)]

mod fault;
mod lowering;

pub use code_meaning::Program;
pub use fault::LowerError;
pub use lowering::{lower, lower_function};
