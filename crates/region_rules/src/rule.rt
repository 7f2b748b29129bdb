//! The rules on paths through functions.

ghost use Rattle.std.specs.Prelude.{◌≡◌};

/// A rule on the buffers, references, frames and paths of a function (JNI Specification, chapter 4, and ISO/IEC 9899:1999,
/// 6.9.1).
#[derive(Clone, Copy, Debug)]
pub enum RegionRule {
    /// While a buffer is critical, only critical calls may be made, and nothing is printed.
    CallWhileCritical,
    /// A return while a buffer is held.
    ReturnWithBuffer,
    /// A Get into a buffer that is held, or a block that ends with its buffer held.
    HeldBuffer,
    /// An untested buffer is read, written or released.
    UntestedBuffer,
    /// A free buffer is used, or a held one is released wrongly.
    WrongBuffer,
    /// A return with more than one frame.
    ReturnInFrame,
    /// The only frame is popped.
    PopLastFrame,
    /// A deleted reference is used.
    DeadReference,
    /// The array variable of a held buffer is set, deleted or popped, or a Get is of no local variable.
    ArrayInUse,
    /// What is known differs where paths join.
    PathsDiffer,
    /// A reference is set in another frame than that of its declaration.
    WrongLevel,
    /// A function's end is reached without a return, or there is a statement after one.
    NoReturn,
}

impl RegionRule {
    ghost use Rattle.region_rules.specs.RegionRules.{region_rule_number};

    /// The number of the fault.
    pub fn number(self) -> u32
        ensures { result ≡ region_rule_number self }
    {
        match self {
            RegionRule::CallWhileCritical => 31,
            RegionRule::ReturnWithBuffer => 32,
            RegionRule::HeldBuffer => 33,
            RegionRule::UntestedBuffer => 34,
            RegionRule::WrongBuffer => 35,
            RegionRule::ReturnInFrame => 36,
            RegionRule::PopLastFrame => 37,
            RegionRule::DeadReference => 38,
            RegionRule::ArrayInUse => 39,
            RegionRule::PathsDiffer => 40,
            RegionRule::WrongLevel => 41,
            RegionRule::NoReturn => 42,
        }
    }
}
