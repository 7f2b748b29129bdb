//! The classes on the path down to a class.

ghost use Rattle.std.specs.Prelude.{◌≡◌, ◌<◌, ◌++◌, ◌∷◌, [], length, MatchOption};
ghost use Rattle.base.specs.Limits.{most_classes};

use base::limits::MOST_CLASSES;
use std::marker::Model;

/// At most 256 classes, seen as the list of them, from which the last is taken first. It never allocates.
#[derive(Drop)]
pub(crate) struct Path {
    classes: [u16; MOST_CLASSES],
    count: usize,
}

impl Model for Path {
    ghost use Rattle.std.specs.Prelude.{List, ℕ, take, ◌≤◌};
    ghost use Rattle.base.specs.Limits.{most_classes};

    ghost Value = { List ℕ };

    ghost view = { λ p. take p.count p.classes };

    ghost invariant = { λ p. p.count ≤ most_classes };
}

impl Path {
    pub(crate) fn new() -> Path
        ensures { result ≡ [] }
    {
        Path {
            classes: [0; MOST_CLASSES],
            count: 0,
        }
    }

    /// Puts a class after the others.
    pub(crate) fn push(&mut self, class: u16)
        requires { length self.old < most_classes }
        ensures { self.new ≡ self.old ++ class ∷ [] }
    {
        self.classes[self.count] = class;
        self.count += 1;
    }

    /// Takes the last class.
    pub(crate) fn pop(&mut self) -> Option<u16>
        ensures { MatchOption result ((self.old ≡ []) × (self.new ≡ [])) (λ class. self.old ≡ self.new ++ class ∷ []) }
    {
        if self.count == 0 {
            return None;
        }
        self.count -= 1;
        Some(self.classes[self.count])
    }
}
