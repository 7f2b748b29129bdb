//! What the answers of calls of functions of the JNI do to the store and the frames.
#![tactic(auto)]

mod barrier;
pub mod carry_out;
mod make;
pub mod trap;
