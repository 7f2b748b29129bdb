//! The objects of a run by their names, and the local references to them, as a replay has them.
#![tactic(auto)]

mod frame;
mod loaded;
mod monitors;
mod names;
mod new;
mod store;

pub use frame::Frames;
pub use loaded::{loaded_store, made_before};
pub use monitors::{Monitor, Monitors};
pub use names::Names;
pub use new::{New, make, make_thrown};
pub use store::Store;
