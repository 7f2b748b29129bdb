//! How far the tokens of a text are read.

ghost use Rattle.parse_lexemes.specs.Order.{AreInside, AreInside-prop};

use scan::Token;

/// A text with its tokens.
#[derive(Clone, Copy)]
pub struct Source<'t> {
    pub text: &'t [u8],
    pub tokens: &'t [Token],
    ghost inside: { AreInside text.now tokens.now } by { AreInside-prop text.now tokens.now },
}

/// The lexemes that aren't read yet.
#[derive(Clone, Copy)]
pub struct Cursor<'t> {
    pub source: &'t Source<'t>,
    /// How many lexemes come before them.
    pub at: usize,
}
