//! The rules on names and types.

ghost use Rattle.std.specs.Prelude.{◌≡◌};

/// A rule on names and types.
#[derive(Clone, Copy, Debug)]
pub enum TypeRule {
    /// A function's name is that of no native method (JNI Specification, chapter 2, "Resolving Native Method Names"), or
    /// a name in an expression is not known.
    UnknownName,
    /// A name is declared twice in a function and its statics, or two items have one name.
    DeclaredTwice,
    /// A type does not fit.
    TypeMisfit,
    /// A call is of no function of the JNI (JNI Specification, chapter 4).
    UnknownFunction,
    /// A call has another number of arguments than its function has parameters.
    ArgumentCount,
    /// A local reference is set to a name.
    ReferenceCopied,
    /// A release mode is not 0, JNI_COMMIT or JNI_ABORT.
    BadMode,
    /// A buffer that may only be read is written.
    ReadOnlyWrite,
}

impl TypeRule {
    ghost use Rattle.type_rules.specs.TypeRules.{type_rule_number};

    /// The number of the fault.
    pub fn number(self) -> u32
        ensures { result ≡ type_rule_number self }
    {
        match self {
            TypeRule::UnknownName => 21,
            TypeRule::DeclaredTwice => 22,
            TypeRule::TypeMisfit => 23,
            TypeRule::UnknownFunction => 24,
            TypeRule::ArgumentCount => 25,
            TypeRule::ReferenceCopied => 26,
            TypeRule::BadMode => 27,
            TypeRule::ReadOnlyWrite => 28,
        }
    }
}
