//! What all threads share.

use crate::statics::StaticReference;
use heap::{Addr, Heap};
use monitors::Monitors;
use tables::{Elements, Globals, Weaks};

/// The objects, and what else all threads share.
pub struct Store {
    pub heap: Heap,
    /// The addresses of the objects made at load, by their names, counted from 1. These objects stay for ever.
    pub loaded: Vec<Addr>,
    /// How many objects have been made, with those at load. The next is named by one more.
    pub births: u32,
    /// The unit's statics, in order.
    pub statics: Vec<StaticReference>,
    /// The global references, of which a static that is live has one of its own.
    pub globals: Globals,
    /// The weak global references, of which a static that holds one has one of its own.
    pub weaks: Weaks,
    /// The copied lists of all threads' buffers, each with its thread's number as its owner.
    pub elements: Elements,
    /// How many buffers of all threads are views, at most 64.
    pub views: u32,
    /// The monitors that threads own.
    pub monitors: Monitors,
}

impl Drop for Store {
    fn drop(self) {
        let Store {
            heap,
            loaded,
            births: _,
            statics,
            globals,
            weaks,
            elements,
            views: _,
            monitors,
        } = self;
        drop(heap);
        drop(loaded);
        drop(statics);
        drop(globals);
        drop(weaks);
        drop(elements);
        drop(monitors);
    }
}
