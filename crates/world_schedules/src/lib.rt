//! Texts that are read: their lines, words and numbers, and the faults of these; schedules and journals.
#![tactic(auto)]

mod broken;
mod fault;
mod journal;
mod numbers;
mod schedule;
mod split;
mod telling;
mod words;

pub use fault::{ReadError, Rule, TextFault};
pub use journal::{entries_are_read_again, journals_are_read, journals_are_refused, read_journal};
pub use numbers::{integer, natural};
pub use schedule::{
    Repetition, Schedule, read_schedule, schedules_are_read, schedules_are_refused,
};
pub use split::Split;
