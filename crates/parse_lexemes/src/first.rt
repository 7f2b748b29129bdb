//! What lexemes stand for, and reading single ones.

ghost use Rattle.std.specs.Prelude.{◌≡◌, ◌≤◌, ◌<◌, ◌+◌, length, get_or, slice_range};
ghost use Rattle.parse_lexemes.specs.declared.fault.ParseRule.TheVariants.{NoForm};
ghost use Rattle.parse_lexemes.specs.Meaning.{between_quotes};
ghost use Rattle.parse_lexemes.specs.Order.{IsInside};
ghost use Rattle.parse_lexemes.specs.Results.{Gives};
ghost use Rattle.parse_lexemes.specs.Lexemes.{lexemes, expect, name_at, fault_at, line_at, views};
ghost use Rattle.parse_lexemes.specs.Shapes.{shape_of_kind, shape_at, is_shape, mark_of_shape, word_of_shape, is_name_shape, line_of_end, IsNameOf, IsTextOf};
ghost use Rattle.std.specs.Option.{option_map};
ghost use Rattle.parse_lexemes.specs.Reading.{rest_of, starts_with, starts_name, text_at, number_at, word_at};

use crate::cursor::{Cursor, Source};
use crate::fault::{ParseError, ParseRule};
use crate::telling::fixed_words;
use places::{Fault, Spot};
use scan::{Kind, Mark, Token, Word};

/// A lexeme that stands for itself.
#[derive(Clone, Copy)]
pub enum Fixed {
    Mark(Mark),
    Word(Word),
    /// After the last token.
    End,
}

/// What a lexeme stands for, but for the bytes of a name or a string.
#[derive(Clone, Copy)]
pub enum Shape {
    Fixed(Fixed),
    Name,
    Number { unsigned: bool, value: u32 },
    Text,
    /// There is no lexeme after the end.
    Nothing,
}

impl Shape {
    /// What a token of this kind stands for.
    #[inline(always)]
    fn of(kind: Kind) -> Shape
        ensures { result ≡ shape_of_kind kind }
    {
        match kind {
            Kind::Name => Shape::Name,
            Kind::Reserved(word) => Shape::Fixed(Fixed::Word(word)),
            Kind::Number { value, unsigned } => Shape::Number { value, unsigned },
            Kind::Text => Shape::Text,
            Kind::Symbol(mark) => Shape::Fixed(Fixed::Mark(mark)),
        }
    }

    /// Whether this is the shape of such a lexeme.
    #[inline(always)]
    fn is(self, fixed: Fixed) -> bool
        ensures { result ≡ is_shape self fixed }
    {
        match (self, fixed) {
            (Shape::Fixed(Fixed::Mark(found)), Fixed::Mark(mark)) => found == mark,
            (Shape::Fixed(Fixed::Word(found)), Fixed::Word(word)) => found == word,
            (Shape::Fixed(Fixed::End), Fixed::End) => true,
            _ => false,
        }
    }

    /// The mark that a lexeme of this shape is.
    #[inline(always)]
    fn mark(self) -> Option<Mark>
        ensures { result ≡ mark_of_shape self }
    {
        match self {
            Shape::Fixed(Fixed::Mark(mark)) => Some(mark),
            _ => None,
        }
    }

    /// The reserved word that a lexeme of this shape is.
    #[inline(always)]
    fn word(self) -> Option<Word>
        ensures { result ≡ word_of_shape self }
    {
        match self {
            Shape::Fixed(Fixed::Word(word)) => Some(word),
            _ => None,
        }
    }

    /// Whether a lexeme of this shape is a name.
    #[inline(always)]
    fn is_name(self) -> bool
        ensures { result ≡ is_name_shape self }
    {
        matches!(self, Shape::Name)
    }
}

/// What is between the quotes of a string.
fn between_quotes(bytes: &[u8]) -> &[u8]
    ensures { result.now ≡ between_quotes bytes.now }
{
    match bytes {
        [_, rest @ ..] => &rest[..rest.len().saturating_sub(1)],
        [] => bytes,
    }
}

/// The token at a place.
#[inline(always)]
fn token_in(tokens: &[Token], at: usize) -> Token
    requires { at < length tokens.now }
    ensures { result ≡ get_or tokens.now at result }
{
    tokens[at]
}

/// The bytes of a token.
fn part_of(text: &[u8], token: Token) -> &[u8]
    requires { IsInside text.now token }
    ensures { result.now ≡ slice_range text.now token.start token.end }
{
    &text[token.start as usize..token.end as usize]
}

/// The place after this one. Past the end it may stay, so that it can't overflow.
#[inline(always)]
fn next(tokens: &[Token], at: usize) -> usize
    ensures within { at ≤ length tokens.now → result ≡ at + 1 }
    ensures past { length tokens.now < at → length tokens.now < result }
{
    if at <= tokens.len() {
        return at + 1;
    }
    at
}

/// The line of the end, which is the last token's, or 1 where there is none. After the end there is no line.
fn line_of_end(tokens: &[Token], at: usize) -> usize
    requires { length tokens.now ≤ at }
    ensures { result ≡ line_of_end tokens.now at }
{
    if at > tokens.len() {
        return 0;
    }
    if tokens.len() == 0 {
        return 1;
    }
    token_in(tokens, tokens.len() - 1).line as usize
}

impl<'t> Cursor<'t> {
    /// All lexemes of a text.
    pub fn start(source: &'t Source<'t>) -> Cursor<'t>
        ensures { views result ≡ lexemes source.now.text.now 1 source.now.tokens.now }
    {
        Cursor { source, at: 0 }
    }

    /// What the first lexeme stands for.
    #[inline(always)]
    pub fn shape(self) -> Shape
        ensures { result ≡ shape_at (views self.entry) }
    {
        let tokens = self.source.tokens;
        if self.at < tokens.len() {
            return Shape::of(token_in(tokens, self.at).kind);
        }
        if self.at == tokens.len() {
            return Shape::Fixed(Fixed::End);
        }
        Shape::Nothing
    }

    /// The lexemes after the first one.
    #[inline(always)]
    pub fn skip(self) -> Cursor<'t>
        ensures { views result ≡ rest_of (views self.entry) }
    {
        Cursor {
            source: self.source,
            at: next(self.source.tokens, self.at),
        }
    }

    /// The line of the first lexeme.
    pub fn line(self) -> usize
        ensures { result ≡ line_at (views self.entry) }
    {
        let tokens = self.source.tokens;
        if self.at < tokens.len() {
            return token_in(tokens, self.at).line as usize;
        }
        line_of_end(tokens, self.at)
    }

    /// The fault at the first lexeme, in whose place this one alone could come.
    pub fn missing(self, fixed: Fixed) -> ParseError
        ensures { result ≡ fault_at NoForm (views self.entry) }
    {
        ParseError::Fault(Fault {
            rule: ParseRule::NoForm,
            line: Spot::wanting(self.line(), self.at, fixed_words(fixed)),
        })
    }

    /// The fault at the first lexeme, which can't come there.
    pub fn unexpected(self) -> ParseError
        ensures { result ≡ fault_at NoForm (views self.entry) }
    {
        self.fault(ParseRule::NoForm)
    }

    /// The fault of this rule at the first lexeme.
    pub fn fault(self, rule: ParseRule) -> ParseError
        ensures { result ≡ fault_at rule (views self.entry) }
    {
        ParseError::Fault(Fault {
            rule,
            line: Spot::new(self.line(), self.at),
        })
    }

    /// The lexemes after this one, which has to come next.
    #[inline(always)]
    #[tactic(auto, unfolding(crate::specs::Lexemes::expect))]
    pub fn expect(self, fixed: Fixed) -> Result<Cursor<'t>, ParseError>
        ensures { Gives views result (expect fixed (views self.entry)) }
    {
        if self.starts_with(fixed) {
            return Ok(self.skip());
        }
        Err(self.missing(fixed))
    }

    /// Whether this lexeme comes next.
    #[inline(always)]
    #[tactic(auto, using(crate::proofs::Shapes::starts_with_is))]
    pub fn starts_with(self, fixed: Fixed) -> bool
        ensures { result ≡ starts_with fixed (views self.entry) }
    {
        self.shape().is(fixed)
    }

    /// The mark that comes next.
    #[inline(always)]
    pub fn mark(self) -> Option<Mark>
        ensures { result ≡ mark_of_shape (shape_at (views self.entry)) }
    {
        self.shape().mark()
    }

    /// The reserved word that comes next.
    #[inline(always)]
    #[tactic(auto, using(crate::proofs::Shapes::word_at_is))]
    pub fn word(self) -> Option<Word>
        ensures { result ≡ word_at (views self.entry) }
    {
        self.shape().word()
    }

    /// Whether a name comes next.
    #[inline(always)]
    #[tactic(auto, using(crate::proofs::Shapes::starts_name_is))]
    pub fn starts_name(self) -> bool
        ensures { result ≡ starts_name (views self.entry) }
    {
        self.shape().is_name()
    }

    /// The bytes of the first lexeme's token.
    fn bytes(self) -> &'t [u8]
        ensures name { IsNameOf result.now (views self.entry) }
        ensures text { IsTextOf result.now (views self.entry) }
    {
        let tokens = self.source.tokens;
        if self.at < tokens.len() {
            return part_of(self.source.text, token_in(tokens, self.at));
        }
        &[]
    }

    /// The string that comes next.
    pub fn text(self) -> Option<&'t [u8]>
        ensures { option_map (λ bytes. bytes.now) result ≡ text_at (views self.entry) }
    {
        match self.shape() {
            Shape::Text => Some(between_quotes(self.bytes())),
            _ => None,
        }
    }

    /// A number without `u`, from the least to the most, and what comes after it.
    #[tactic(auto, unfolding(crate::specs::Reading::number_at))]
    pub fn number(self, least: u32, most: u32) -> Result<(u32, Cursor<'t>), ParseError>
        ensures { Gives (λ x. (x.0, views x.1)) result (number_at least most (views self.entry)) }
    {
        match self.shape() {
            Shape::Number { value, unsigned } => {
                if unsigned || value < least || most < value {
                    return Err(self.unexpected());
                }
                Ok((value, self.skip()))
            }
            _ => Err(self.unexpected()),
        }
    }

    /// A name's bytes, and what comes after it.
    #[tactic(auto, unfolding(crate::specs::Lexemes::name_at))]
    pub fn name(self) -> Result<(&'t [u8], Cursor<'t>), ParseError>
        ensures { Gives (λ x. (x.0.now, views x.1)) result (name_at (views self.entry)) }
    {
        if self.starts_name() {
            return Ok((self.bytes(), self.skip()));
        }
        Err(self.unexpected())
    }
}
