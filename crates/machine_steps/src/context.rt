//! What a step goes by and leaves as it is.

use code::code::Code;
use code::instr::Call;
use code_meaning::Program;
use world_values::World;

/// What a step goes by: the program, the world, and whose step it is.
#[derive(Clone, Copy)]
pub struct StepContext<'s, 'a> {
    pub program: &'s Program<'a>,
    pub world: &'s World,
    /// The thread's number, from 1.
    pub thread: u8,
    /// Whether an allocation that has no room is refused. Else nothing is done, and a fault says so.
    pub may_refuse: bool,
}

/// What the steps of a call in progress go by that stay within its function.
#[derive(Clone, Copy)]
pub struct CodeContext<'s, 'a> {
    pub step: StepContext<'s, 'a>,
    /// The code of the function.
    pub code: &'s Code,
    /// The owner of what the call copies, which tells how many calls are below it.
    pub owner: u16,
}

/// What a call of a function of the JNI goes by.
#[derive(Clone, Copy)]
pub struct CallContext<'s, 'a> {
    pub step: StepContext<'s, 'a>,
    pub call: &'s Call,
    /// The owner of what the call in progress copies, which tells how many calls are below it.
    pub owner: u16,
}
