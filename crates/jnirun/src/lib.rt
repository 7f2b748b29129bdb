//! Native methods from their texts: a program is checked, run over a heap by a schedule or by workers, or replayed by a
//! journal; and the same of files, with what is said of them on standard output and standard error.
#![tactic(auto)]

mod checks;
mod errors;
mod replaying;
mod run;
mod serving;
mod telling;
mod tracing;
mod working;

pub use checks::check_each;
pub use cli_commands::{
    COMMAND_LINE, Command, DONE, FAILED, FileFault, FileSystem, Files, MOST_BYTES, REFUSED, Trace,
    fail, say,
};
pub use places::{Place, Text};
pub use program_check::{FaultPlace, RunError, check_text};
pub use replay::TrapAt;
pub use replay_trace::Keeping;
pub use replaying::{replay_text, runs_are_replayed};
pub use run::run_text;
pub use serving::{serve, serve_sequential};
pub use tracing::{trace_all, trace_sequential};
pub use working::work_text;
