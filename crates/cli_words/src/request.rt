//! What words ask for.

use cli_commands::{Command, Trace};
use cli_explanations::Explanation;

/// What words ask for.
#[derive(Drop)]
pub enum Request<'a> {
    /// Something is done with files.
    Serve(Command<'a>),
    /// The programs of these names are checked, two or more.
    CheckEach(Vec<&'a str>),
    /// All faults of the programs of these names are told, one or more.
    CheckAll(Vec<&'a str>),
    /// A log is written of all faults of the programs of these names, one or more.
    WriteLog(Vec<&'a str>),
    /// A run or a replay is traced.
    Trace(Command<'a>, Trace),
    /// A fault or a trap is explained, where there is one of the number.
    Explain(Option<Explanation>),
    /// This text is shown: the help or the version, for which a word asks.
    Show(String),
    /// They are no command line: why, and what there is.
    Misuse(String),
    /// A run, but they name no order of its steps, a schedule or workers, or both.
    LacksOrder,
    /// Memory was refused.
    LacksMemory,
}
