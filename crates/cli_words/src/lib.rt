//! What the words of a command line ask for, read by `clap`.
#![tactic(auto)]

mod command_line;
mod parsing;
mod request;

pub use parsing::read;
pub use request::Request;
