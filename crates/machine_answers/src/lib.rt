//! Calls of functions of the JNI: what is checked of them, and what they answer, as data, by what they see.
#![tactic(auto)]

pub mod answer;
mod arrays;
pub mod at_once;
pub mod buffers;
pub mod check;
pub mod copies;
mod exceptions;
mod monitor;
pub mod passed;
mod regions;
