//! Regions of arrays and strings.

use heap::Addr;

/// Numbers of an array or a string, from a place on, and as many number slots, from a slot on.
#[derive(Clone, Copy)]
pub struct ArrayRegion {
    pub object: Addr,
    pub start: u32,
    pub slot: u32,
    pub count: u32,
}
