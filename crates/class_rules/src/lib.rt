//! What classes and their fields are, and the names of native methods.
#![tactic(auto)]

ghost use Rattle.class_rules.specs.Grown.{AssignableIsTheRelation};
ghost use Rattle.class_rules.specs.Mangling.{IsInverse};

mod class_id;
pub mod mangling;
mod rule;

pub use class_id::{ClassId, NO_CLASS};
pub use rule::ClassRule;

/// A function name is unmangled to a class and a method exactly where it is the mangled name of the two.
pub fn unmangling_inverts_mangling()
    ensures { IsInverse }
{}

/// A class is assignable to another exactly where it is so by the relation, on each table that grew from the built-in
/// classes: a law, which computes nothing.
pub fn assignable_is_the_relation()
    ensures { AssignableIsTheRelation }
{}
