//! What is known of buffers, references and frames at a point of a function, as it lies in memory, and what statements
//! and tests do to it, with the names that they use.
#![tactic(auto)]

pub mod calls;
pub mod changes;
pub mod found;
pub mod holders;
pub mod names_used;
pub mod scope;
pub mod states;
pub mod tally;
pub mod variables;
