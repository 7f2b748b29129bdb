//! The rules on new classes and fields.

ghost use Rattle.std.specs.Prelude.{◌≡◌};

/// A rule that a new class or field breaks.
#[derive(Clone, Copy, Debug, PartialEq, Eq)]
pub enum ClassRule {
    /// There is a class of this name already, or the class declares a field of this name already.
    NameTaken,
    /// There is no such superclass, or it has no subclasses.
    BadSuperclass,
    /// No type of a field has this signature.
    BadSignature,
    /// There are as many as there may be.
    TooMany,
}

impl ClassRule {
    ghost use Rattle.class_rules.specs.Additions.{class_rule_number};

    /// The number under which the rule is reported.
    pub fn number(self) -> u32
        ensures { result ≡ class_rule_number self }
    {
        match self {
            ClassRule::NameTaken => 61,
            ClassRule::BadSuperclass => 62,
            ClassRule::BadSignature => 63,
            ClassRule::TooMany => 64,
        }
    }
}
