//! What the lines of a world have said so far.

ghost use Rattle.std.specs.Prelude.{◌≤◌, length};
ghost use Rattle.base.specs.Limits.{most_cells, most_objects};

use crate::names::ObjectNames;
use classes::table::ClassTable;
use world_values::{Call, Object, Part};

/// What the lines so far say.
#[derive(Drop)]
pub struct WorldBuilder {
    /// The line of the heap.
    pub heap_line: usize,
    /// Whether it allows methods.
    pub methods: bool,
    pub cells: u32,
    pub classes: ClassTable,
    pub names: ObjectNames,
    pub objects: Vec<Object>,
    pub threads: Vec<Vec<Call>>,
    /// The cells that are used at load.
    pub used: usize,
    /// The part of the last line.
    pub part: Part,
    ghost room: { used ≤ cells },
    ghost limit: { cells ≤ most_cells },
    ghost few: { length names ≤ most_objects },
}
