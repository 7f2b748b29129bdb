//! Tokens: their kinds, and where they are in a text.

use crate::reserved::Word;

/// A punctuator (ISO/IEC 9899:1999, 6.4.6), of those that the language uses.
#[derive(Clone, Copy, PartialEq, Eq)]
pub enum Mark {
    /// `(`
    OpenParen,
    /// `)`
    CloseParen,
    /// `{`
    OpenBrace,
    /// `}`
    CloseBrace,
    /// `[`
    OpenBracket,
    /// `]`
    CloseBracket,
    /// `;`
    Semicolon,
    /// `,`
    Comma,
    /// `=`
    Assign,
    /// `*`
    Star,
    /// `->`
    Arrow,
    /// `&`
    Ampersand,
    /// `|`
    Bar,
    /// `^`
    Caret,
    /// `~`
    Tilde,
    /// `!`
    Exclamation,
    /// `+`
    Plus,
    /// `-`
    Minus,
    /// `/`
    Slash,
    /// `%`
    Percent,
    /// `<`
    Less,
    /// `>`
    Greater,
    /// `<=`
    LessEqual,
    /// `>=`
    GreaterEqual,
    /// `==`
    Equal,
    /// `!=`
    NotEqual,
    /// `&&`
    LogicalAnd,
    /// `||`
    LogicalOr,
    /// `<<`
    ShiftLeft,
    /// `>>`
    ShiftRight,
}

/// What a token is (ISO/IEC 9899:1999, 6.4).
#[derive(Clone, Copy)]
pub enum Kind {
    /// A name: letters, digits and underscores, of which the first is no digit (6.4.2), and which
    /// are together no reserved word.
    Name,
    /// A reserved word (6.4.1), or a word that the language reserves beside those of C99.
    Reserved(Word),
    /// A decimal or hexadecimal number, and whether it ends in `u` (6.4.4.1). Its value is below
    /// 2^31, or with `u` below 2^32. Of C99's suffixes there is no other; octal numbers there are
    /// none. The flag comes first, so that a kind takes 8 bytes.
    Number { unsigned: bool, value: u32 },
    /// A string of printable ASCII between two quotes, with no backslash in it (6.4.5).
    Text,
    /// A punctuator (6.4.6).
    Symbol(Mark),
}

/// A token, from the byte `start` of its text up to the byte `end`, which is no part of it. It
/// takes 20 bytes.
#[derive(Clone, Copy)]
pub struct Token {
    pub kind: Kind,
    /// The line that it begins in, counted from 1.
    pub line: u32,
    pub start: u32,
    pub end: u32,
}
