//! The tasks of a call in progress in memory: statements that are begun, what a step of one comes to, the steps of
//! those that are no call, and what a step does to the variables and the statics.
#![tactic(auto)]

mod call;
mod outcome;
mod put;
mod statements;
mod step;
mod task;

pub use outcome::{CallResult, End, Outcome, Purpose, Target};
pub use put::{put_given, set_variables};
pub use statements::Statements;
pub use step::{plain_step, reduced};
pub use task::{
    Assignment, Choice, ElementAssignment, Evaluation, Invocation, Iteration, Task, end_task,
    loop_task, task_of,
};
