//! Tests of the collector, at addresses counted by hand.
#![tactic(auto)]

#[cfg(test)]
mod closed;
#[cfg(test)]
mod collections;
#[cfg(test)]
mod slices;
