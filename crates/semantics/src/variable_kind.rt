//! The kinds of variables.

use base::ElementType;

/// What a declaration makes.
#[derive(Clone, Copy)]
pub enum VariableKind {
    Number,
    Reference,
    Field,
    Method,
    /// A buffer of elements of this type.
    Buffer(ElementType),
}
