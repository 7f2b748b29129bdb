//! Which units are accepted: the rules on buffers, references, frames and returns on each path through a function, and
//! units that keep them.
#![tactic(auto)]

mod checked;
mod rule;

pub use checked::Checked;
pub use rule::RegionRule;
