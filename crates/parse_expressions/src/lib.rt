//! Expressions and calls, read from lexemes.
#![tactic(auto)]

mod calls;
mod expressions;

pub use calls::{call, setting, test};
pub use expressions::{expression, index, owned_name, starts_element};
