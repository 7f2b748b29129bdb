//! Programs from their texts: a text is scanned, parsed, and checked for types, regions and the length of functions.
#![tactic(auto)]

mod checking;
mod fault;
mod fault_place;
mod faults;
mod program;

pub use checking::check_text;
pub use fault::{RunError, too_long};
pub use fault_place::FaultPlace;
pub use faults::{ToldFault, all_faults};
pub use program::read_program;
