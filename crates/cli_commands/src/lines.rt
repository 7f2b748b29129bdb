//! The lines of a text, one after the other.

ghost use Rattle.std.specs.Prelude.{◌≡◌};
ghost use Rattle.cli_commands.specs.Telling.{from_line, text_from};

use crate::telling::from_line;
use places::Place;
use std::marker::Model;

/// A text whose lines are found, each from the one before it on: contracts see the text. Places whose lines don't fall are
/// found in one pass over the text.
#[derive(Drop)]
pub struct Lines<'a> {
    text: &'a [u8],
    /// The text behind so many lines.
    rest: &'a [u8],
    skipped: usize,
}

impl<'a> Model for Lines<'a> {
    ghost use Rattle.std.specs.Prelude.{ℕ, List, ◌≡◌};
    ghost use Rattle.cli_commands.specs.Telling.{from_line};

    ghost Value = { List ℕ };

    ghost view = { λ l. l.text.now };

    ghost invariant = { λ l. l.rest.now ≡ from_line l.skipped l.text.now };
}

impl<'a> Lines<'a> {
    #[tactic(auto, unfolding(crate::specs::Telling::from_line))]
    pub fn of(text: &'a [u8]) -> Lines<'a>
        ensures { result ≡ text.now }
    {
        Lines {
            text,
            rest: text,
            skipped: 0,
        }
    }

    /// The text behind so many lines.
    #[tactic(auto, using(crate::proofs::TellingLemmas::line_from))]
    fn behind(&self, skipped: usize) -> &'a [u8]
        ensures { result.now ≡ from_line skipped self.now }
    {
        if skipped < self.skipped {
            return from_line(self.text, skipped);
        }
        from_line(self.rest, skipped - self.skipped)
    }

    /// The text from the line of a place on, where it has one.
    pub fn at(&mut self, place: Place) -> &'a [u8]
        ensures rest { result.now ≡ text_from self.old place }
        ensures same { self.new ≡ self.old }
    {
        match place {
            Place::Line(_text, line) => {
                let skipped = line.saturating_sub(1);
                let rest = self.behind(skipped);
                self.rest = rest;
                self.skipped = skipped;
                rest
            }
            Place::Entry(_entry) => self.text,
        }
    }
}
