//! The lines of the texts of worlds, word by word: what one line says by itself, and the rules on it that ask the classes alone.
#![tactic(auto)]

mod contents;
mod form;
mod heap;
mod line;
mod ranges;
mod rules;
mod value;
mod words;

pub use contents::{cells_added, is_call, name_given, part_of, values_of};
pub use heap::heap_of_line;
pub use line::{ArrayWords, CallWords, FieldWords, Line, ObjectWords, read_line};
pub use ranges::is_number;
pub use rules::{broken_class_rule, class_number, each_in_range, is_class_allowed, is_formed};
pub use value::Value;
