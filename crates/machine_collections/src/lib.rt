//! Collections: the roots of a machine are gathered, the blocks that they lead to are moved together, and the roots are
//! put back. A slice of a marking does the same with the blocks that the marking keeps.
#![tactic(auto)]

pub mod collecting;
mod counting;
mod gathered;
pub mod roots;
pub mod slicing;
mod weak;
