//! The commands: their files, and how they tell what comes of them.
#![tactic(auto)]

mod command;
mod files;
mod lines;
mod saying;
mod status;
mod telling;

pub use command::{Command, Trace};
pub use files::{FileFault, FileSystem, Files, MOST_BYTES, Texts, read_texts};
pub use lines::Lines;
pub use saying::{fail, fail_of, say, say_fault, say_fault_of, say_of};
pub use status::{COMMAND_LINE, DONE, FAILED, REFUSED};
pub use telling::{Reason, Source, tell, tell_from};
