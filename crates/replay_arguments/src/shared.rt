//! What all threads share.

use replay_objects::{Monitors, Names, Store};
use replay_terms::Statics;

/// The objects, the statics, the global references, and the monitors that threads own.
pub struct Shared<'a> {
    pub store: Store,
    pub statics: Statics<'a>,
    pub globals: Names,
    pub monitors: Monitors,
}

impl Drop for Shared<'_> {
    fn drop(self) {
        let Shared {
            store,
            statics,
            globals,
            monitors,
        } = self;
        drop(store);
        drop(statics);
        drop(globals);
        drop(monitors);
    }
}
