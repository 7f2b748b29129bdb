//! What a step of a thread does: the entry into a call, an instruction of the call in progress, a call of a method, or the
//! return; and whether a thread waits for a monitor.
#![tactic(auto)]

pub mod advance;
mod buffer_elements;
pub mod change;
pub mod context;
mod enter;
pub mod execute;
pub mod fault;
mod invoke;
mod monitor;
mod push;
mod receive;
mod scene;
mod variable;
pub mod wait;
