//! What a run asks, whichever run it is: of classes alone, whether an object is of the kind of a parameter, what a
//! field can hold, what objects hold at first, the elements of arrays, whose native method a function is, and which
//! function is the native method of a class, a name and a signature; and whether a unit and a world go together, that
//! is, what a call is given goes with the parameters of its function, and methods are allowed where they are asked for, with
//! what is told where they don't.
#![tactic(auto)]

mod arguments;
mod arrays;
mod asked_methods;
mod field_types;
mod first_values;
mod kinds;
mod methods;
mod native_methods;
mod telling;

pub use arguments::arguments_fit;
pub use arrays::{array_class_of, element_class};
pub use asked_methods::{asks_methods, methods_load};
pub use field_types::{holds_number, holds_reference};
pub use first_values::{fresh_values, initial_values};
pub use kinds::class_misfits;
pub use methods::{FoundMethod, find_method, is_method_of};
pub use native_methods::native_class;
pub use telling::{line_of_call, line_of_heap};
