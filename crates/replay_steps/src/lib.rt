//! Steps of tasks, and calls in progress in memory.
#![tactic(auto)]

mod activation;
mod at_once;
mod attempt;
mod callers;
mod field_calls;
mod invoke;
mod step;
mod wait;

pub use activation::{Activation, Outer, Work, advance, attempt_step, work_of};
pub use at_once::attempt_call;
pub use attempt::Attempt;
pub use callers::{Entering, entering_of, resume};
pub use field_calls::attempt_field;
pub use wait::waits;
