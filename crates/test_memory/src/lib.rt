//! Tests of the public calls of `heap`, `tables` and `monitors`: with success, and each refusal once. Expected values
//! are counted by hand.
#![tactic(auto)]

#[cfg(test)]
mod copies;
#[cfg(test)]
mod entries;
#[cfg(test)]
mod globals;
#[cfg(test)]
mod heaps;
#[cfg(test)]
mod references;
#[cfg(test)]
mod weaks;
