//! Logs of faults in the Static Analysis Results Interchange Format (SARIF) 2.1.0.
#![tactic(auto)]

mod log;
mod parts;

pub use log::Log;
