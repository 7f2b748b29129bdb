//! What a call sees.

use crate::buffer::Buffer;
use crate::handle::Handle;
use crate::references::References;
use classes::table::ClassTable;
use code::stack::Stack;
use heap::{Addr, Heap};
use monitors::Monitors;
use syntax::Item;

/// What a call sees.
#[derive(Drop)]
pub struct Scene<'a> {
    /// The items of the unit, of which a method's function is one.
    pub items: &'a [Item],
    pub classes: &'a ClassTable,
    pub heap: &'a Heap,
    /// The addresses of the objects made at load, of which the class objects are the first.
    pub loaded: &'a [Addr],
    pub references: References<'a>,
    /// The field IDs and the method IDs in the slots of variables.
    pub fields: &'a [Option<Handle>],
    /// The buffers in the slots of variables.
    pub buffers: &'a [Buffer],
    pub stack: &'a Stack,
    /// The exception that is pending.
    pub pending: Option<Addr>,
    /// The monitors that threads own.
    pub monitors: &'a Monitors,
    /// The number of the thread whose call it is.
    pub thread: u8,
}
