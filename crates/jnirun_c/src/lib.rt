//! The check of native methods for programs in C: `include/jnirun_check.h` declares it.
#![tactic(auto)]

ghost use Rattle.std.specs.Prelude.{◌≢◌, pos};
ghost use Rattle.program_check.specs.Checks.{PassesCheck};
ghost use Rattle.jnirun_c.specs.Answers.{Answers};

use places::Place;
use program_check::{RunError, check_text};
use std::alloc::Global;

const ACCEPTED: i32 = 0;

const REFUSED: i32 = 1;

const MEMORY: i32 = 3;

/// Why a text is refused: the number of the fault, and its line, counted from 1, or 0 where the fault has no line. Both are 0
/// where the text isn't refused.
#[repr(C)]
#[derive(Clone, Copy, Drop)]
pub struct Fault {
    pub number: u32,
    pub line: usize,
}

/// Whether a text is that of an accepted program, as `program_check::check_text` says: 0 it is, 1 it is refused, and
/// `fault` tells why, 3 memory was refused.
#[unsafe(no_mangle)]
pub extern "C" fn jnirun_check(alloc: Global, text: &[u8], fault: &mut Fault) -> i32
    ensures answers { Answers text.now fault.new result }
    // The text of an accepted program, no function of which is too long, is refused for memory alone.
    ensures passes { PassesCheck text.now → result ≢ pos 1 }
{
    *fault = Fault { number: 0, line: 0 };
    match check_text(alloc, text) {
        Ok(()) => ACCEPTED,
        Err(RunError::Fault(number, place)) => match place.place() {
            Place::Line(_text, line) => {
                *fault = Fault { number, line };
                REFUSED
            }
            // A check reads no journal.
            Place::Entry(_) => unreachable!(),
        },
        Err(RunError::Memory) => MEMORY,
        // Nor has it a writer.
        Err(RunError::Writer) => unreachable!(),
    }
}
