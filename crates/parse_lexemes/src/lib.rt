//! Lexemes: tokens with what they stand for, and reading single ones.
#![tactic(auto)]

mod cursor;
mod fault;
mod first;
mod telling;
mod type_words;

pub use cursor::{Cursor, Source};
pub use fault::{ParseError, ParseFault, ParseRule};
pub use first::{Fixed, Shape};
