//! What a step of a thread leaves besides objects and variables.

ghost use Rattle.std.specs.Prelude.{◌≡◌};
ghost use Rattle.semantics.specs.Step.{is_unfinished};

use crate::trap::Trap;
use class_rules::ClassId;

/// What is seen of a thread's step by others.
#[derive(Clone, Copy)]
pub enum Event {
    Quiet,
    /// The thread printed a number.
    PrintedNumber(i32),
    /// A statement of this line stopped the run.
    Trapped { trap: Trap, line: usize },
}

/// The trap that stopped a run, with its thread, counted from 1, and the line of its statement.
#[derive(Clone, Copy)]
pub struct Stop {
    pub thread: u8,
    pub trap: Trap,
    pub line: usize,
}

/// How a thread has ended, if it has.
#[derive(Clone, Copy)]
pub enum Ending {
    Unfinished,
    Ended,
    /// Its call returned with an exception of the class of this number pending.
    Uncaught(ClassId),
}

impl Ending {
    /// Whether the thread has not ended.
    pub fn is_unfinished(self) -> bool
        ensures { result ≡ is_unfinished self }
    {
        match self {
            Ending::Unfinished => true,
            Ending::Ended | Ending::Uncaught(_) => false,
        }
    }
}
