//! Marks, by their first byte or their first two (ISO/IEC 9899:1999, 6.4.6).

ghost use Rattle.std.specs.Prelude.{◌≡◌, ℕ, List, ◌∷◌, IfSome, Some, Ok};
ghost use Rattle.scan.specs.declared.token.Kind.TheVariants.{Symbol};
ghost use Rattle.scan.specs.Reading.{mark_of, pair_of, piece_at};

use crate::token::Mark;

/// The mark of one byte.
#[inline(always)]
pub(crate) fn mark_of(byte: u8) -> Option<Mark>
    ensures { result ≡ mark_of byte }
{
    let mark = match byte {
        b'(' => Mark::OpenParen,
        b')' => Mark::CloseParen,
        b'{' => Mark::OpenBrace,
        b'}' => Mark::CloseBrace,
        b'[' => Mark::OpenBracket,
        b']' => Mark::CloseBracket,
        b';' => Mark::Semicolon,
        b',' => Mark::Comma,
        b'=' => Mark::Assign,
        b'*' => Mark::Star,
        b'&' => Mark::Ampersand,
        b'|' => Mark::Bar,
        b'^' => Mark::Caret,
        b'~' => Mark::Tilde,
        b'!' => Mark::Exclamation,
        b'+' => Mark::Plus,
        b'-' => Mark::Minus,
        b'/' => Mark::Slash,
        b'%' => Mark::Percent,
        b'<' => Mark::Less,
        b'>' => Mark::Greater,
        _ => return None,
    };
    Some(mark)
}

/// The mark of a byte with which no other token and no comment begins.
#[inline(always)]
#[tactic(auto, using(crate::proofs::LoneMarks::lone_marks))]
pub(crate) fn lone_mark(byte: u8) -> Option<Mark>
    ensures { IfSome result (λ mark. (rest : List ℕ) → piece_at (byte ∷ rest) ≡ Ok (Some (Symbol mark), 1)) }
{
    match byte {
        b'(' => Some(Mark::OpenParen),
        b')' => Some(Mark::CloseParen),
        b'{' => Some(Mark::OpenBrace),
        b'}' => Some(Mark::CloseBrace),
        b'[' => Some(Mark::OpenBracket),
        b']' => Some(Mark::CloseBracket),
        b';' => Some(Mark::Semicolon),
        b',' => Some(Mark::Comma),
        b'*' => Some(Mark::Star),
        b'^' => Some(Mark::Caret),
        b'~' => Some(Mark::Tilde),
        b'+' => Some(Mark::Plus),
        b'%' => Some(Mark::Percent),
        _ => None,
    }
}

/// The mark of two bytes.
#[inline(always)]
pub(crate) fn pair_of(first: u8, second: u8) -> Option<Mark>
    ensures { result ≡ pair_of first second }
{
    match (first, second) {
        (b'-', b'>') => Some(Mark::Arrow),
        (b'<', b'=') => Some(Mark::LessEqual),
        (b'>', b'=') => Some(Mark::GreaterEqual),
        (b'=', b'=') => Some(Mark::Equal),
        (b'!', b'=') => Some(Mark::NotEqual),
        (b'&', b'&') => Some(Mark::LogicalAnd),
        (b'|', b'|') => Some(Mark::LogicalOr),
        (b'<', b'<') => Some(Mark::ShiftLeft),
        (b'>', b'>') => Some(Mark::ShiftRight),
        _ => None,
    }
}
