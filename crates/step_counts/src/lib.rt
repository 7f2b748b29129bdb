//! How many steps a function has, counted on its tree: no code is made for it.
#![tactic(auto)]

mod int_names;
mod length;

pub use length::{has_long_function, long_function};
