//! Objects by their names.

ghost use Rattle.std.specs.Prelude.{◌≡◌, ◌∷◌};
ghost use Rattle.semantics.specs.Views.{names_of};
ghost use Rattle.semantics.specs.WeakReferences.{are_rising};

use class_rules::ClassId;

/// An object: its number in the order in which objects are made, counted from 1. In the definitions it is the object's name.
/// No object has the number 0.
#[derive(Clone, Copy, PartialEq, Eq)]
pub struct ObjectId {
    pub number: usize,
}

/// Whether there are some, and each is greater than the one before it.
pub fn are_rising(names: &[ObjectId]) -> bool
    ensures { result ≡ are_rising (names_of names.now) }
{
    match names.split_first() {
        Some((first, further)) => rise_from(*first, further),
        None => false,
    }
}

/// Whether each is greater than the one before it, and the first than this one.
fn rise_from(first: ObjectId, names: &[ObjectId]) -> bool
    ensures { result ≡ are_rising (first.number ∷ names_of names.now) }
{
    let mut before = first.number;
    for name in names {
        if name.number <= before {
            return false;
        }
        before = name.number;
    }
    true
}

/// No object, where NULL is given for one.
pub const NO_OBJECT: ObjectId = ObjectId { number: 0 };

impl ObjectId {
    /// The class object of a class, which has the class's number.
    pub fn of_class(class: ClassId) -> ObjectId
        ensures { result.number ≡ class.number }
    {
        ObjectId {
            number: class.number,
        }
    }
}
