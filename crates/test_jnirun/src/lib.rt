//! The public calls of `jnirun`, called from another crate: each with success, and where files and writers fail.
#![tactic(auto)]

#[cfg(test)]
mod tests;
