//! A call in progress.

use crate::buffer::Buffer;
use crate::handle::Handle;
use code::stack::Stack;
use tables::{Local, Locals};

/// The slots of a call's variables, kind by kind.
pub struct Slots {
    /// Numbers, and the elements of local arrays.
    pub numbers: Vec<u32>,
    /// The keys of local references, which may be dead; none for NULL.
    pub references: Vec<Option<Local>>,
    /// Field IDs and method IDs; none for NULL.
    pub fields: Vec<Option<Handle>>,
    pub buffers: Vec<Buffer>,
}

impl Drop for Slots {
    fn drop(self) {
        let Slots {
            numbers,
            references,
            fields,
            buffers,
        } = self;
        drop(numbers);
        drop(references);
        drop(fields);
        drop(buffers);
    }
}

/// A call in progress: its place in its function's code, its operands, the slots of its variables, and its local references, of
/// which the slots have keys.
pub struct Activation {
    pub function: usize,
    pub place: usize,
    pub stack: Stack,
    pub slots: Slots,
    pub locals: Locals,
}

impl Drop for Activation {
    fn drop(self) {
        let Activation {
            function: _,
            place: _,
            stack,
            slots,
            locals,
        } = self;
        drop(stack);
        drop(slots);
        drop(locals);
    }
}
