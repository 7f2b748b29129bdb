//! The levels of local references.

/// The level of a local reference: how many frames its call had when its variable was declared. The call itself is the first,
/// and each frame that is pushed is one more (JNI Specification, chapter 4, "PushLocalFrame").
#[derive(Clone, Copy, PartialEq, Eq)]
pub struct Level {
    pub number: usize,
}

/// The level of a call itself, of which its parameters are.
pub const CALL_LEVEL: Level = Level { number: 1 };
