//! The values of expressions.

/// The value of an expression, with its type (ISO/IEC 9899:1999, 6.2.5).
#[derive(Clone, Copy)]
pub enum Value {
    /// Of type `uint32_t`.
    Word(u32),
    /// Of type `jint`.
    Int(i32),
    /// Of type `jboolean`.
    Flag(bool),
    /// Of a comparison, or of `&&`, `||` and `!`.
    Truth(bool),
}
