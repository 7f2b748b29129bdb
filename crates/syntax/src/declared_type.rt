//! The types of parameters, variables and statics.

use base::ElementType;

/// A reference type (JNI Specification, chapter 3, "Reference Types").
#[derive(Clone, Copy)]
pub enum ReferenceType {
    /// `jobject`
    Object,
    /// `jclass`
    Class,
    /// `jstring`
    String,
    /// `jarray`
    Array,
    /// `jthrowable`
    Throwable,
    /// `jintArray`
    IntArray,
    /// `jshortArray`
    ShortArray,
    /// `jbyteArray`
    ByteArray,
    /// `jcharArray`
    CharArray,
    /// `jobjectArray`
    ObjectArray,
}

/// The type of a parameter.
#[derive(Clone, Copy)]
pub enum ParameterType {
    /// `jint`
    Jint,
    Reference(ReferenceType),
}

/// The type of a static.
#[derive(Clone, Copy)]
pub enum StaticType {
    Reference(ReferenceType),
    /// `jweak`, a weak global reference, which doesn't keep its object.
    Weak,
}

/// The type of a number, a flag, a reference or a field ID that is declared.
#[derive(Clone, Copy)]
pub enum VariableType {
    /// `uint32_t`
    Uint32,
    /// `jint`
    Jint,
    /// `jsize`
    Jsize,
    /// `jboolean`
    Jboolean,
    /// `jfieldID`
    JfieldId,
    /// `jmethodID`
    JmethodId,
    Reference(ReferenceType),
}

/// The type of a variable that is declared, but for local arrays.
#[derive(Clone, Copy)]
pub enum DeclaredType {
    /// `jint`, and each other type that is a name alone.
    Simple(VariableType),
    /// `jint *`, a pointer to elements of this type.
    Pointer(ElementType),
    /// `const jchar *`
    ConstChars,
}
