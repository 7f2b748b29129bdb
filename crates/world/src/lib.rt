//! Reading the texts of worlds.
#![tactic(auto)]

mod additions;
mod builder;
mod laws;
mod names;
mod next_line;
mod rules;
mod telling;
mod text;

pub use laws::{texts_mean_one_world, worlds_are_read};
pub use text::read_world;
