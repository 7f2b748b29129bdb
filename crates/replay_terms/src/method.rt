//! Methods, and what they are given.

ghost use Rattle.std.specs.Prelude.{◌≡◌, drop};

use class_rules::ClassId;
use syntax::Function;

/// A method, with the class that its ID was got from, and its function in the unit.
#[derive(Clone, Copy)]
pub struct MethodId<'a> {
    pub class: ClassId,
    pub function: &'a Function,
}

/// What a method is given, of the arguments of a function that calls one: what is after the class and the method's ID.
pub fn passed<T>(arguments: &[T]) -> &[T]
    ensures { result.now ≡ drop 2 arguments.now }
{
    match arguments {
        [_, _, passed @ ..] => passed,
        _ => &[],
    }
}
