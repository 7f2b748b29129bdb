//! What each object is made of, in any run.
#![tactic(auto)]

ghost use Rattle.semantics_typing.specs.Law.{AcceptedIsTyped};

use class_rules::unmangling_inverts_mangling;

/// In each replay of an accepted unit in a world that goes with it, objects are typed: the class of each is in the
/// table; it has a value for each field of its class, or any number of elements, as arrays and strings have, and class
/// objects have the statics of their classes; a number is in the range of its place's type, and a reference is NULL or
/// to an object of a class that is assignable to that of its place; a copy is as long as the array or string that it is
/// of, whose elements are numbers of its type, and those of a view's are too. And a step leaves each object with its
/// class and its number of values (JNI Specification, chapters 3 and 4).
pub fn objects_are_typed()
    ensures { AcceptedIsTyped }
{
    unmangling_inverts_mangling();
}
