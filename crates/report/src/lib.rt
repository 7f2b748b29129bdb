//! What a run writes: its report and its journal, into a sink.
#![tactic(auto)]

mod entries;
mod rows;
mod text;
mod thread_status;
mod writing;

pub use entries::{Entries, Listed, ShownEntry};
pub use rows::{NoRows, Rows, Shown, put_row_end, put_row_head, put_value};
pub use thread_status::ThreadStatus;
pub use writing::{write_journal, write_report, write_run};
