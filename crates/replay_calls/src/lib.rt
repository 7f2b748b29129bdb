//! Calls of the JNI over the names of objects, their arguments being looked up: what they do.
#![tactic(auto)]

mod answer;
mod buffers;
pub mod carry_out;
mod exceptions;
mod monitors;
mod regions;

pub use answer::{Answer, Caller, Region, answer_or_trap};
pub use buffers::tell_copy;
