//! All faults of programs that are checked, by lines or as a log.
#![tactic(auto)]

mod lists;
mod logs;

pub use lists::list_all;
pub use logs::write_log;
