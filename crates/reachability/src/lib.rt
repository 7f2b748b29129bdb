//! Marking: which places of a graph can be reached from roots.
#![tactic(auto)]

mod graph;
mod marks;

pub use graph::Graph;
pub use marks::Marks;
