//! Buffers in slots, and their release.

use code::instr::ReleaseMode;
use heap::Addr;
use tables::Copied;

/// What the slot of a buffer holds.
#[derive(Clone, Copy)]
pub enum Buffer {
    Null,
    /// The copied list of this key.
    Copy(Copied),
    /// The object at this address, which is pinned.
    View(Addr),
}

/// The release of a buffer in a slot, with what the slot holds: of the object at this address, and in this mode.
#[derive(Clone, Copy)]
pub struct Release {
    pub object: Addr,
    pub slot: usize,
    pub held: Buffer,
    pub mode: ReleaseMode,
}
