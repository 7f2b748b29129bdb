//! What a class is made of.

use crate::own_fields::OwnFields;
pub use base::ElementType;
use class_rules::ClassId;

/// What the objects of a class are made of.
#[derive(Clone, Copy, PartialEq, Eq)]
pub enum ClassKind {
    /// Fields, or what a function of its own makes.
    Plain,
    ArrayOfNumbers(ElementType),
    /// An array of references to objects of the class of this number.
    ArrayOfObjects(ClassId),
}

/// What a field holds.
#[derive(Clone, Copy, PartialEq, Eq)]
pub enum FieldType {
    Number(ElementType),
    /// A reference to objects of the class of this number.
    Reference(ClassId),
}

/// A field or static of a class.
#[derive(Clone, Copy)]
pub struct Field<'t> {
    pub name: &'t [u8],
    pub field_type: FieldType,
}

/// A field or static, by the class that declares it and its place, counted from 0, among the fields, or the statics, that
/// the class declares.
#[derive(Clone, Copy)]
pub struct FieldHandle {
    pub class: ClassId,
    pub place: usize,
    pub is_static: bool,
}

/// A class as a table holds it, by its name.
#[derive(Drop)]
pub(crate) struct Entry {
    pub(crate) superclass: Option<ClassId>,
    pub(crate) kind: ClassKind,
    pub(crate) fields: OwnFields,
    pub(crate) statics: OwnFields,
}
