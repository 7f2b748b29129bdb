//! The parts of a world's text.

ghost use Rattle.std.specs.Prelude.{◌≡◌};

/// What the lines after that of the heap are about, part after part.
#[derive(Clone, Copy)]
pub enum Part {
    /// Classes, with their fields and statics.
    Classes,
    /// Objects, arrays and strings.
    Objects,
    /// Threads, with their calls.
    Threads,
}

impl Part {
    ghost use Rattle.world_values.specs.WorldRules.{is_no_later};

    /// Whether the part is the other or comes before it.
    pub fn is_no_later(self, other: Part) -> bool
        ensures { result ≡ is_no_later self other }
    {
        match self {
            Part::Classes => true,
            Part::Objects => !matches!(other, Part::Classes),
            Part::Threads => matches!(other, Part::Threads),
        }
    }
}
