//! The values of objects.

use crate::object_id::ObjectId;

/// What is in a field, in an array or a string, or what a call is given. An object goes by its number in the order in which
/// they are made, counted from 1: the class objects, the OutOfMemoryError object, the world's objects, and then those that are
/// made in the run.
#[derive(Clone, Copy, PartialEq, Eq)]
pub enum ObjectValue {
    /// In the range of `jint`.
    Number(i32),
    /// NULL or an object.
    Reference(Option<ObjectId>),
}
