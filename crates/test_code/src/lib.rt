//! Tests of the instructions of `code`. Expected values are worked out from ISO/IEC 9899:1999.
#![tactic(auto)]

#[cfg(test)]
mod instructions;
