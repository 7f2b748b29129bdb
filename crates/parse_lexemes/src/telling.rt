//! What is told of a fault: the token that was found, and what was wanted; and of what C has and the language hasn't, what to
//! write instead.

use crate::fault::{ParseError, ParseRule};
use crate::first::Fixed;
use places::{Detail, Spot};
use scan::{Kind, Mark, Token, Word};

/// A word of C, and what to write instead.
type Advice = (&'static [u8], &'static [u8]);

/// The keywords of C99 that have no use here (6.4.1).
static KEYWORDS: [Advice; 29] = [
    (b"for", b"write a `while` loop"),
    (b"do", b"write a `while` loop"),
    (b"switch", b"write `if` and `else`"),
    (b"case", b"write `if` and `else`"),
    (b"default", b"write `if` and `else`"),
    (b"goto", b"write `if` and `while`"),
    (
        b"break",
        b"let the condition of the `while` say when it ends",
    ),
    (
        b"continue",
        b"put what is left of the loop's body into an `if`",
    ),
    (b"sizeof", b"write the number"),
    (b"struct", b"declare a variable for each part"),
    (b"union", b"declare a variable for each part"),
    (b"enum", b"write the numbers"),
    (b"typedef", b"write the type itself"),
    (b"int", b"write `jint`"),
    (b"signed", b"write `jint`"),
    (b"unsigned", b"write `uint32_t`"),
    (b"long", b"write `jint` or `uint32_t`"),
    (b"short", b"write `jint`, or `jshort` for elements"),
    (b"char", b"write `jint`, or `jbyte` or `jchar` for elements"),
    (b"float", b"write `jint` or `uint32_t`"),
    (b"double", b"write `jint` or `uint32_t`"),
    (b"_Bool", b"write `jboolean`"),
    (b"_Complex", b"write `jint` or `uint32_t`"),
    (b"_Imaginary", b"write `jint` or `uint32_t`"),
    (b"auto", b"leave it out"),
    (b"register", b"leave it out"),
    (b"inline", b"leave it out"),
    (b"extern", b"leave it out"),
    (b"restrict", b"leave it out"),
];

/// What to write instead of a keyword.
fn advice_on(word: &[u8]) -> &'static [u8] {
    for (keyword, advice) in &KEYWORDS {
        if *keyword == word {
            return advice;
        }
    }
    b"leave it out"
}

/// A mark in C's words.
fn mark_words(mark: Mark) -> &'static [u8] {
    match mark {
        Mark::OpenParen => b"(",
        Mark::CloseParen => b")",
        Mark::OpenBrace => b"{",
        Mark::CloseBrace => b"}",
        Mark::OpenBracket => b"[",
        Mark::CloseBracket => b"]",
        Mark::Semicolon => b";",
        Mark::Comma => b",",
        Mark::Assign => b"=",
        Mark::Star => b"*",
        Mark::Arrow => b"->",
        Mark::Equal => b"==",
        _ => b"",
    }
}

/// A reserved word that can be wanted.
fn word_words(word: Word) -> &'static [u8] {
    match word {
        Word::JniExport => b"JNIEXPORT",
        Word::JniCall => b"JNICALL",
        Word::JniEnv => b"JNIEnv",
        Word::Env => b"env",
        Word::Jclass => b"jclass",
        Word::Jchar => b"jchar",
        Word::Null => b"NULL",
        Word::Static => b"static",
        _ => b"",
    }
}

/// A lexeme that alone could come, in C's words, and none for the end of the text.
pub(crate) fn fixed_words(fixed: Fixed) -> &'static [u8] {
    match fixed {
        Fixed::Mark(mark) => mark_words(mark),
        Fixed::Word(word) => word_words(word),
        Fixed::End => b"",
    }
}

/// Puts what alone could come, where that is known.
fn with_wanted(detail: Detail, wanted: &[u8]) -> Detail {
    if wanted.is_empty() {
        return detail;
    }
    detail.words(b", wanted ").quoted(wanted)
}

/// The bytes of a token.
fn bytes_of(text: &[u8], token: Token) -> &[u8] {
    let end = (token.end as usize).min(text.len());
    let start = (token.start as usize).min(end);
    &text[start..end]
}

/// The mark that a token is.
fn mark_of(token: Token) -> Option<Mark> {
    match token.kind {
        Kind::Symbol(mark) => Some(mark),
        _ => None,
    }
}

fn is_name(token: Option<Token>) -> bool {
    match token {
        Some(token) => matches!(token.kind, Kind::Name),
        None => false,
    }
}

fn is_mark(token: Option<Token>, mark: Mark) -> bool {
    match token {
        Some(token) => mark_of(token) == Some(mark),
        None => false,
    }
}

fn is_word(token: Option<Token>, word: Word) -> bool {
    match token {
        Some(token) => match token.kind {
            Kind::Reserved(other) => other == word,
            _ => false,
        },
        None => false,
    }
}

/// Whether a mark is an operator that C joins with `=`.
fn is_joined(mark: Mark) -> bool {
    matches!(
        mark,
        Mark::Plus
            | Mark::Minus
            | Mark::Star
            | Mark::Slash
            | Mark::Percent
            | Mark::Ampersand
            | Mark::Bar
            | Mark::Caret
            | Mark::ShiftLeft
            | Mark::ShiftRight
    )
}

/// What is told of two marks that C reads as one.
fn pair_advice(first: Mark, second: Mark) -> Option<Detail> {
    match (first, second) {
        (Mark::Plus, Mark::Plus) => Some(Detail::of(
            b"`++` isn't in this language: write `i = i + 1u`",
        )),
        (Mark::Minus, Mark::Minus) => Some(Detail::of(
            b"`--` isn't in this language: write `i = i - 1u`",
        )),
        (operator, Mark::Assign) if is_joined(operator) => Some(Detail::of(
            b"an assignment with an operator isn't in this language: write `i = i + n`",
        )),
        _ => None,
    }
}

/// What is told where two tokens that touch each other are one operator of C.
fn touching(first: Option<Token>, second: Option<Token>) -> Option<Detail> {
    let first = first?;
    let second = second?;
    if first.end != second.start {
        return None;
    }
    pair_advice(mark_of(first)?, mark_of(second)?)
}

/// What is told where a mark of C has no use here.
fn mark_advice(mark: Mark, before: Option<Token>, after: Option<Token>) -> Option<Detail> {
    match mark {
        Mark::Comma => Some(Detail::of(
            b"found `,`: a declaration has one variable, and there is no comma operator",
        )),
        Mark::OpenParen if is_name(before) => Some(Detail::of(
            b"found `(` after a name: functions of your own aren't in this language",
        )),
        Mark::Minus => Some(Detail::of(
            b"found `-` as a sign: write `0u - n`, and `(jint)` before it for a jint",
        )),
        Mark::Star if is_word(after, Word::Env) => Some(Detail::of(
            b"a call of the JNI isn't part of an expression: keep its result in a variable",
        )),
        Mark::Star => Some(Detail::of(b"found `*`: read what a buffer points to as `p[0]`")),
        Mark::Ampersand => Some(Detail::of(
            b"found `&`: only a jboolean has its address taken, for isCopy",
        )),
        _ => None,
    }
}

/// What is told of a function that isn't a native method, or of a static that is no reference.
fn item_advice(tokens: &[Token], at: usize) -> Option<Detail> {
    let before = before(tokens, at);
    if is_word(before, Word::Static) {
        return Some(Detail::of(b", wanted a reference type: statics are references"));
    }
    if is_word(before, Word::JniExport) {
        return Some(Detail::of(b", wanted `void`, `jint` or a reference type"));
    }
    let begins = match before {
        None => true,
        Some(token) => matches!(mark_of(token), Some(Mark::CloseBrace | Mark::Semicolon)),
    };
    if begins && is_outside(tokens, at) {
        return Some(Detail::of(
            b": functions of your own aren't in this language, native methods begin with `JNIEXPORT`",
        ));
    }
    None
}

/// Whether no brace is open before a token.
fn is_outside(tokens: &[Token], at: usize) -> bool {
    let mut open: usize = 0;
    for token in &tokens[..at.min(tokens.len())] {
        match mark_of(*token) {
            Some(Mark::OpenBrace) => open = open.saturating_add(1),
            Some(Mark::CloseBrace) => open = open.saturating_sub(1),
            _ => {}
        }
    }
    open == 0
}

/// The token of this number.
fn token_at(tokens: &[Token], at: usize) -> Option<Token> {
    tokens.get(at).copied()
}

/// The token before one.
fn before(tokens: &[Token], at: usize) -> Option<Token> {
    if at == 0 {
        return None;
    }
    token_at(tokens, at - 1)
}

/// What is told of a construct of C that the language hasn't.
fn construct(text: &[u8], tokens: &[Token], at: usize, found: Token) -> Option<Detail> {
    let before = before(tokens, at);
    let after = token_at(tokens, at.saturating_add(1));
    if let Some(detail) = touching(before, Some(found)) {
        return Some(detail);
    }
    if let Some(detail) = touching(Some(found), after) {
        return Some(detail);
    }
    match found.kind {
        Kind::Symbol(mark) => mark_advice(mark, before, after),
        Kind::Name => unknown_type(text, before),
        _ => None,
    }
}

/// What is told where two names follow each other: the first can only be meant as a type.
fn unknown_type(text: &[u8], before: Option<Token>) -> Option<Detail> {
    let type_name = before?;
    if !is_name(before) {
        return None;
    }
    Some(
        Detail::none()
            .quoted(bytes_of(text, type_name))
            .words(b" is no type of this language"),
    )
}

/// What is told of a keyword without use: outside of functions it mostly begins one.
fn keyword(word: &[u8], begins: Option<Detail>) -> Detail {
    let detail = Detail::none().quoted(word);
    match word {
        b"int" | b"signed" | b"unsigned" | b"long" | b"short" | b"char" | b"float" | b"double" => {
            if let Some(advice) = begins {
                return Detail::of(b"found ").quoted(word).words(advice.as_bytes());
            }
        }
        _ => {}
    }
    detail
        .words(b" isn't in this language: ")
        .words(advice_on(word))
}

/// What is told of a token that can't come where it is.
fn unexpected(text: &[u8], tokens: &[Token], spot: &Spot) -> Detail {
    let at = spot.place();
    let Some(found) = token_at(tokens, at) else {
        return with_wanted(Detail::of(b"found the end of the text"), spot.wanted());
    };
    let word = bytes_of(text, found);
    let begins = item_advice(tokens, at);
    if let Kind::Reserved(Word::Unused) = found.kind {
        return keyword(word, begins);
    }
    if let Some(detail) = construct(text, tokens, at, found) {
        return detail;
    }
    let detail = Detail::of(b"found ").quoted(word);
    match begins {
        Some(advice) => detail.words(advice.as_bytes()),
        None => with_wanted(detail, spot.wanted()),
    }
}

/// What is told of the token that is one too many.
fn too_many(tokens: &[Token], at: usize) -> Detail {
    let found = token_at(tokens, at);
    if is_outside(tokens, at) && is_word(found, Word::JniExport) {
        return Detail::of(b"at most 256 functions");
    }
    if is_outside(tokens, at) && is_word(found, Word::Static) {
        return Detail::of(b"at most 256 statics");
    }
    Detail::of(b"at most 256 names in a function, with its class and its other parameters")
}

impl ParseError {
    /// What was found in this text of these tokens, in words that no contract fixes.
    pub fn detail(&self, text: &[u8], tokens: &[Token]) -> Detail {
        match self {
            ParseError::Memory => Detail::none(),
            ParseError::Fault(fault) => match fault.rule {
                ParseRule::NoForm => unexpected(text, tokens, &fault.line),
                ParseRule::TooHigh => Detail::of(
                    b"at most 32 blocks, operators, casts, parentheses and indexes in one another",
                ),
                ParseRule::TooMany => too_many(tokens, fault.line.place()),
            },
        }
    }
}
