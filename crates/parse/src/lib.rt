//! From a program's tokens to its syntax tree.
#![tactic(auto)]

mod functions;
mod parameters;

pub use functions::{one_unit, parse};
