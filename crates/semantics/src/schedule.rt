//! The words of schedules.

/// A word of a schedule.
#[derive(Clone, Copy, PartialEq, Eq)]
pub enum ScheduleWord {
    /// A turn of the thread of this number, from 1.
    Turn(u8),
    /// A collection of the heap.
    Collect,
    /// A slice of a marking.
    Slice,
}
