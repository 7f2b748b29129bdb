//! Graphs.

ghost use Rattle.std.specs.Prelude.{◌≡◌, ℕ, ◌<◌, List, Option, Some, length, slice_get};

/// Places, counted from 0, with values, each of which refers to a place or doesn't. There may be numbers between them
/// that are no places, as in a heap, where a place is an address.
pub trait Graph {
    /// The numbers of places.
    ghost IsPlace: { Self → ℕ → Type 0 };

    /// The values of a place, in order.
    ghost references: { Self → ℕ → List (Option ℕ) };

    /// The number of values of a place.
    fn count(&self, place: usize) -> usize
        requires { IsPlace self.now place }
        ensures { result ≡ length (references self.now place) };

    /// What a value refers to, where it is a reference.
    fn reference(&self, place: usize, index: usize) -> Option<usize>
        requires place { IsPlace self.now place }
        requires index { index < length (references self.now place) }
        ensures { slice_get (references self.now place) index ≡ Some result };
}
