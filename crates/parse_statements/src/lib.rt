//! From lexemes to statements and blocks.
#![tactic(auto)]

mod declarations;
mod plain;
mod statements;

pub use statements::{ReadBlock, block};
