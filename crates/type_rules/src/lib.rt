//! Which units are well-typed: the rules on names and types, names that are known, and units that keep the rules.
#![tactic(auto)]

mod known;
mod names;
mod rule;
mod ty;
mod typed;

pub use known::Known;
pub use names::{Question, first_name};
pub use rule::TypeRule;
pub use ty::{ExprType, declared_type, parameter_type, static_type, variable_type};
pub use typed::Typed;
