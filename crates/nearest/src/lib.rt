//! Which of the known names is near one that isn't known, for the words on a fault.
#![tactic(auto)]

mod nearest;

pub use nearest::Nearest;
