//! What the table says of a function.

use crate::access::Access;
use base::ElementType;

/// What an argument after `env` is.
#[derive(Clone, Copy)]
pub enum ParameterKind {
    /// A reference that may be NULL.
    Nullable,
    /// A reference that may be NULL, or a weak global one.
    AnyReference,
    /// A reference that may not be NULL, as are the next five.
    NonNull,
    /// A class object.
    ClassObject,
    /// An array of whatever kind.
    AnyArray,
    /// An array of objects.
    ObjectArray,
    /// A string.
    StringObject,
    /// An array of numbers.
    NumberArray(ElementType),
    /// A local reference: the variable itself, not its value, which may be NULL.
    LocalVariable,
    /// A static that isn't weak: the variable itself, not its value, which may be NULL.
    StaticVariable,
    /// A weak static: the variable itself, not its value, which may be NULL.
    WeakVariable,
    /// A field ID.
    FieldID,
    /// A method ID.
    MethodID,
    /// A `jint` or a `jsize`.
    IntNumber,
    /// A text in modified UTF-8.
    TextBytes,
    /// A local array.
    ArrayVariable(ElementType),
    /// A buffer that is released.
    BufferVariable(Access),
    /// 0, `JNI_COMMIT` or `JNI_ABORT`.
    Mode,
    /// Where to tell whether a buffer is a copy, or NULL.
    IsCopy,
    /// What a method is given: a number, or a reference that may be NULL.
    Passed,
}

/// What a call gives.
#[derive(Clone, Copy)]
pub enum ResultKind {
    /// A local reference in the thread's current frame.
    NewLocal,
    /// A global reference.
    NewGlobal,
    /// A weak global reference.
    NewWeak,
    /// A `jboolean`.
    GivesFlag,
    /// A number.
    GivesInt,
    /// A field ID.
    GivesField,
    /// A method ID.
    GivesMethod,
    /// Nothing.
    GivesNothing,
    /// A buffer that has to be released.
    GivesBuffer(Access),
}

/// What a call does to buffers, references and frames.
#[derive(Clone, Copy)]
pub enum StateEffect {
    /// It gets a buffer.
    Gets(Access),
    /// It releases one.
    Releases(Access),
    /// It deletes a local reference.
    Deletes,
    /// It pops a frame.
    Pops,
    /// None of these.
    Other,
}

/// All that the table says of a function.
#[derive(Clone, Copy)]
pub struct Prototype {
    /// The function's name.
    pub name: &'static [u8],
    /// The parameters after `env`.
    pub parameters: &'static [ParameterKind],
    /// What a call gives.
    pub result: ResultKind,
    /// What a call does to buffers, references and frames.
    pub effect: StateEffect,
    /// Whether it may be called while an exception is pending.
    pub pending: bool,
}
