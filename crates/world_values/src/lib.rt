//! Worlds in memory: the heap's size, the classes, the objects, and what each thread calls.
#![tactic(auto)]

mod object;
mod part;
mod world;

pub use object::Object;
pub use part::Part;
pub use semantics::ObjectValue;
pub use world::{Call, World};
