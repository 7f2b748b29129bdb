//! What a call of a function of the JNI sees: the store, the frames and the slots of the call in progress, what its
//! operands give, and objects that are to be made.
#![tactic(auto)]

pub mod activation;
pub mod array_region;
pub mod buffer;
pub mod handle;
pub mod new_object;
pub mod operands;
pub mod references;
pub mod scene;
pub mod statics;
pub mod store;
