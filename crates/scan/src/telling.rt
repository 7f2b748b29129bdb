//! What is told of a fault: the bytes that were found, and what to write instead.

use crate::fault::{ScanError, ScanRule};
use crate::pieces::word_len;
use places::Detail;

/// The text from a place on.
fn from(text: &[u8], place: usize) -> &[u8] {
    &text[place.min(text.len())..]
}

/// The bytes of names and numbers that a text begins with.
fn word_of(text: &[u8]) -> &[u8] {
    &text[..word_len(text)]
}

/// What to write instead of what a byte begins in C.
fn advice_on(byte: u8) -> &'static [u8] {
    match byte {
        b'#' => b": `#include` and macros aren't in this language",
        b'?' | b':' => b": `?:` and labels aren't in this language: write an `if`",
        b'\'' => b": write a character as its number",
        b'.' => b": there are no members, and no numbers but whole ones",
        b'\\' => b": a line isn't joined to the next",
        _ => b"",
    }
}

/// Puts a byte that is found, by its number where it isn't printable.
fn with_byte(detail: Detail, byte: u8) -> Detail {
    match byte {
        b'!'..=b'~' => detail.words(b"found ").quoted(&[byte]),
        _ => detail.words(b"found the byte ").number(usize::from(byte)),
    }
}

/// What is told of a byte that begins no token.
fn bad_byte(rest: &[u8]) -> Detail {
    match rest {
        [] => Detail::none(),
        [byte, ..] => with_byte(Detail::none(), *byte).words(advice_on(*byte)),
    }
}

/// What is wrong with a number.
fn wrong_number(word: &[u8]) -> &'static [u8] {
    match word {
        [b'0', b'0'..=b'9', ..] => b": numbers have no leading zeros, and none are octal",
        [.., b'U' | b'l' | b'L'] => b": the one suffix is `u`",
        [.., b'0'..=b'9' | b'u'] => b", wanted at most 2147483647, or 4294967295 with `u`",
        _ => b"",
    }
}

/// What is told of a string that doesn't end, or of a byte that can't be in one.
fn bad_string(rest: &[u8]) -> Detail {
    for byte in rest {
        match *byte {
            b'\n' => return Detail::of(b"found the end of the line before the closing quote"),
            b'\\' => return Detail::of(b"found `\\`: strings have no escapes"),
            b' '..=b'~' => {}
            other => return with_byte(Detail::none(), other),
        }
    }
    Detail::of(b"found the end of the text before the closing quote")
}

impl ScanError {
    /// What was found in this text, in words that no contract fixes.
    pub fn detail(&self, text: &[u8]) -> Detail {
        match self {
            ScanError::Memory => Detail::none(),
            ScanError::Fault(fault) => {
                let rest = from(text, fault.line.place());
                match fault.rule {
                    ScanRule::BadByte => bad_byte(rest),
                    ScanRule::OpenComment => Detail::none(),
                    ScanRule::BadNumber => {
                        let word = word_of(rest);
                        Detail::of(b"found ").quoted(word).words(wrong_number(word))
                    }
                    ScanRule::BadText => match rest {
                        [] => Detail::none(),
                        [_, inside @ ..] => bad_string(inside),
                    },
                }
            }
        }
    }
}
