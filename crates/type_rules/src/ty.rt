//! The types of names and expressions.

ghost use Rattle.std.specs.Prelude.{◌≡◌};
ghost use Rattle.type_rules.specs.TypeRules.{variable_type, declared_type, parameter_type, static_type};

use syntax::{DeclaredType, ElementType, ParameterType, StaticType, VariableType};

/// What a name or an expression is.
#[derive(Clone, Copy)]
pub enum ExprType {
    /// A number from 0 to 4294967295.
    Word,
    /// A number from -2147483648 to 2147483647.
    Jint,
    /// A `jboolean`.
    Flag,
    /// What comparisons and logic give, which no variable holds.
    Truth,
    /// A local reference.
    Ref,
    /// A reference that all functions share.
    Global,
    /// A weak reference that all functions share.
    Weak,
    FieldId,
    MethodId,
    /// A buffer, and whether it may be written.
    Buffer(ElementType, bool),
    /// A local array, and its size.
    Array(ElementType, u32),
}

/// The type of a variable.
pub fn variable_type(kind: VariableType) -> ExprType
    ensures { result ≡ variable_type kind }
{
    match kind {
        VariableType::Uint32 => ExprType::Word,
        VariableType::Jint | VariableType::Jsize => ExprType::Jint,
        VariableType::Jboolean => ExprType::Flag,
        VariableType::JfieldId => ExprType::FieldId,
        VariableType::JmethodId => ExprType::MethodId,
        VariableType::Reference(_) => ExprType::Ref,
    }
}

/// The type of a declared variable, a buffer or not.
pub fn declared_type(kind: DeclaredType) -> ExprType
    ensures { result ≡ declared_type kind }
{
    match kind {
        DeclaredType::Simple(kind) => variable_type(kind),
        DeclaredType::Pointer(element) => ExprType::Buffer(element, true),
        DeclaredType::ConstChars => ExprType::Buffer(ElementType::Char, false),
    }
}

/// The type of a parameter.
pub fn parameter_type(kind: ParameterType) -> ExprType
    ensures { result ≡ parameter_type kind }
{
    match kind {
        ParameterType::Jint => ExprType::Jint,
        ParameterType::Reference(_) => ExprType::Ref,
    }
}

/// The type of a static.
pub fn static_type(kind: StaticType) -> ExprType
    ensures { result ≡ static_type kind }
{
    match kind {
        StaticType::Reference(_) => ExprType::Global,
        StaticType::Weak => ExprType::Weak,
    }
}
