//! What a call of the JNI is given, over the names of objects: what all threads share, what a call sees, its arguments,
//! looked up in that, and what is checked of them before the call does anything.
#![tactic(auto)]

pub mod actual;
pub mod check;
pub mod field;
mod scene;
mod shared;

pub use scene::{Locals, Scene, Turn};
pub use shared::Shared;
