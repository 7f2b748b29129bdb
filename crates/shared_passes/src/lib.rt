//! The passes of a cell that ties the seats of threads to the machine that they share: what each knows, and how one is
//! taken in and given back.
#![tactic(auto)]

pub mod tokens;
pub mod view;
