//! Threads, which call functions one after another.

use crate::boxed_activation::BoxedActivation;
use class_rules::ClassId;
use heap::{Addr, Value};
use semantics::Ending;
use std::collections::VecDeque;
use world_values::ObjectValue;

/// A thread: the calls that it has still to make, the call in progress, and those from which it was made. Beside them it keeps the memory of
/// a call that has ended, and of what a call was given, for the next call: what is in it is of no meaning.
pub struct Thread {
    pub calls: VecDeque<PendingCall>,
    /// The call that the last caller has made, before its entry.
    pub entering: Option<Entering>,
    pub call: Option<BoxedActivation>,
    /// The calls from which the one in progress, or the one before its entry, was made, the last one last. They are 63 at most.
    pub callers: Vec<BoxedActivation>,
    /// A call that has ended, if one is kept.
    pub spare: Option<BoxedActivation>,
    /// What a call was given.
    pub spare_arguments: Vec<Value>,
    /// The pending exception.
    pub pending: Option<Addr>,
    pub ending: Ending,
}

impl Drop for Thread {
    fn drop(self) {
        let Thread {
            calls,
            entering,
            call,
            callers,
            spare,
            spare_arguments,
            pending: _,
            ending: _,
        } = self;
        drop(calls);
        drop(entering);
        drop(call);
        drop(callers);
        drop(spare);
        drop(spare_arguments);
    }
}

/// A call that a thread has still to make.
#[derive(Drop)]
pub struct PendingCall {
    /// The number of its function.
    pub function: usize,
    /// The function's class.
    pub class: ClassId,
    /// What the function is given.
    pub arguments: Vec<ObjectValue>,
}

/// A call that another call has made, before its entry.
#[derive(Drop)]
pub struct Entering {
    /// The number of its function.
    pub function: usize,
    /// The function's class.
    pub class: ClassId,
    /// What the function is given.
    pub arguments: Vec<Value>,
}
