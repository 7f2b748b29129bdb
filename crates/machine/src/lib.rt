//! The machine, which runs lowered programs on their worlds.
#![tactic(auto)]

mod fault;
mod journal;
mod machine;
mod plain_steps;
mod rows;
mod run;
mod step;
mod turn;

pub use fault::{ReportFault, RunFault};
pub use journal::Journal;
pub use machine::{Machine, collections_have_one_outcome};
pub use machine_threads::fault::LoadFault;
pub use report::{Entries, ShownEntry};
pub use turn::Turn;
