//! The texts that are read, the places of faults in them, and what a fault found, in some words beside its rule. These words are
//! for the reader of the fault, and no contract fixes them.
#![tactic(auto)]

mod detail;
mod fault;
mod line;
mod place;

pub use detail::Detail;
pub use fault::Fault;
pub use line::{Line, Spot};
pub use place::{Place, Text};
