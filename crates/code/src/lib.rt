//! Instructions, their operand stack, and code that stays in the stack's range, in its slots and inside itself.

#![tactic(auto)]

pub mod code;
mod depth;
pub mod instr;
pub mod plain;
pub mod slots;
pub mod stack;
