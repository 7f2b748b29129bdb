//! Faults: what is wrong with a text, and where.

/// A rule that a text breaks, and where: on a line, or at a spot, which is cheaper to keep.
#[derive(Clone, Copy, Debug, Drop)]
pub struct Fault<R, L> {
    pub rule: R,
    pub line: L,
}
