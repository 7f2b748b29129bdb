//! How a buffer comes to an array's elements or a string's units.

ghost use Rattle.std.specs.Prelude.{◌≡◌};
ghost use Rattle.base.specs.Element.{same_element};
ghost use Rattle.jni.specs.Access.{is_critical, same_access};

use base::ElementType;

/// How a buffer comes to an array's elements or a string's units: as a copy or as a view of them.
#[derive(Clone, Copy)]
pub enum Access {
    /// A copy of an array's elements, which are of this type.
    ElementsCopy(ElementType),
    /// An array's elements themselves.
    ArrayView,
    /// A copy of a string's units.
    CharsCopy,
    /// A string's units themselves.
    CharsView,
}

impl Access {
    /// Whether a buffer of this access is a view of the object itself.
    pub fn is_critical(self) -> bool
        ensures { result ≡ is_critical self }
    {
        matches!(self, Access::ArrayView | Access::CharsView)
    }

    /// Whether two accesses are the same.
    pub fn is_same(self, other: Access) -> bool
        ensures { result ≡ same_access self other }
    {
        match self {
            Access::ElementsCopy(t) => match other {
                Access::ElementsCopy(u) => is_same_element(t, u),
                _ => false,
            },
            Access::ArrayView => matches!(other, Access::ArrayView),
            Access::CharsCopy => matches!(other, Access::CharsCopy),
            Access::CharsView => matches!(other, Access::CharsView),
        }
    }
}

/// Whether two element types are the same.
pub fn is_same_element(a: ElementType, b: ElementType) -> bool
    ensures { result ≡ same_element a b }
{
    a == b
}
