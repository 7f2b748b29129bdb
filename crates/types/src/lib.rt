//! The types of a program's names and expressions, and which calls fit.
#![tactic(auto)]

mod blocks;
mod calls;
mod expressions;
mod fault;
mod items;
mod meant;
mod scope;
mod statements;
mod taken;
mod telling;
mod ty;
mod typed;

pub use fault::{TypeError, TypeFault};
pub use type_rules::{TypeRule, Typed};
pub use typed::{type_faults, type_unit};
