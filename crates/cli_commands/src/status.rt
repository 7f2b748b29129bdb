//! The statuses of the program.

/// The command is done.
pub const DONE: u8 = 0;
/// A text is refused.
pub const REFUSED: u8 = 1;
/// The words are no command line.
pub const COMMAND_LINE: u8 = 2;
/// Memory, a file or a writer failed.
pub const FAILED: u8 = 3;
