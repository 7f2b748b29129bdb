//! Whole texts as computed examples: the tokens and the tree that they spell.
#![tactic(auto)]

/// Nothing runs: the examples are in proofs/.
pub fn nothing() {}
