//! Threads in memory: what a machine begins with, the store and the threads before the first step; and the entry into a
//! call.
#![tactic(auto)]

pub mod boxed_activation;
pub mod entry;
pub mod fault;
pub mod load;
pub mod objects;
pub mod thread;
