//! The functions of the JNI: which there are, what each takes and gives, and what the rules ask of it.
#![tactic(auto)]

mod access;
mod function;
mod kinds;
mod lookup;
mod mode;
mod subject;

pub use access::{Access, is_same_element};
pub use function::{FUNCTIONS, JniFunction, prototype_at};
pub use kinds::{ParameterKind, Prototype, ResultKind, StateEffect};
pub use lookup::{function_named, known_function};
pub use mode::ReleaseMode;
pub use subject::Subject;
