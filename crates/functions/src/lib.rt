//! The functions of a unit, found by their names.
#![tactic(auto)]

mod functions;

pub use functions::{Functions, NumberedFunction};
