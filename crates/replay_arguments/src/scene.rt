//! What a call sees, and what its step is given.

use crate::shared::Shared;
use classes::table::ClassTable;
use replay_objects::Frames;
use replay_terms::{BuffersInUse, Variables};
use semantics::ObjectId;
use std::alloc::Global;
use syntax::Item;

/// The variables of a call in progress, in the order in which they came to be, and its frames of local references.
pub struct Locals<'a> {
    pub variables: Variables<'a>,
    pub frames: Frames,
}

impl Drop for Locals<'_> {
    fn drop(self) {
        let Locals { variables, frames } = self;
        drop(variables);
        drop(frames);
    }
}

/// What a step is given: where its memory comes from, the unit, the classes, whose step it is, and what there is of buffers before it.
#[derive(Clone, Copy)]
pub struct Turn<'a> {
    pub alloc: Global,
    /// The items of the unit, in the order of the text.
    pub unit: &'a [Item],
    pub classes: &'a ClassTable,
    /// The thread's number, from 1.
    pub thread: u8,
    /// What the buffers of all threads take together.
    pub in_use: BuffersInUse,
    /// Whether the object that the step makes is refused.
    pub refused: bool,
}

/// What a call sees.
#[derive(Clone, Copy)]
pub struct Scene<'s, 'a> {
    pub classes: &'a ClassTable,
    pub shared: &'s Shared<'a>,
    pub locals: &'s Locals<'a>,
    /// The exception that is pending.
    pub pending: Option<ObjectId>,
}
