//! The element types of arrays, buffers and number fields.

/// The type of the numbers of an array, a buffer or a field (JNI Specification, chapter 3, "Primitive Types").
#[derive(Clone, Copy, PartialEq, Eq)]
pub enum ElementType {
    /// `jint`
    Int,
    /// `jshort`
    Short,
    /// `jbyte`
    Byte,
    /// `jchar`
    Char,
}
