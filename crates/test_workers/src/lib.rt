//! The public calls of `machine`, `shared` and `lower_parallel`, called from another crate: a machine that is driven by hand, by
//! turns of its seats and by workers, its collections and slices, and lowering by several workers.
#![tactic(auto)]

#[cfg(test)]
mod collections;
#[cfg(test)]
mod contention;
#[cfg(test)]
mod lowering;
#[cfg(test)]
mod slices;
#[cfg(test)]
mod workers;
