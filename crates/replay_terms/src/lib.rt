//! The values, the variables and the terms of the source in memory, how a term is reduced, and what goes into a call
//! and comes out of it.
#![tactic(auto)]

mod buffers;
mod given;
mod method;
mod name;
mod operand;
mod reduction;
mod sight;
mod statics;
mod term;
mod value;
mod variable;

pub use buffers::BuffersInUse;
pub use given::{Given, Lent, is_zero, static_result};
pub use method::{MethodId, passed};
pub use name::is_same;
pub use operand::{Operand, OperandRef, Operands};
pub use reduction::{Reduction, reduce};
pub use sight::{Indexed, held_reference, number_in, place_in};
pub use statics::{StaticReference, Statics, as_reference, is_among, null_statics};
pub use term::{Part, Term, put_term, term_of};
pub use value::{Evaluated, constant, convert};
pub use variable::{Content, Variables, Written, held_number, zeros};
