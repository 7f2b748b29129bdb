//! Words on what a fault found.

use arrayvec::ArrayVec;
use itoa::Buffer;
use std::fmt;

/// The most bytes, and two more for the mark of what is cut.
const MOST: usize = 120;

/// What was found and what was wanted, in at most 120 bytes. Nothing is allocated; more words than fit are cut, with `..` in
/// their place.
#[derive(Drop)]
pub struct Detail {
    text: ArrayVec<u8, MOST>,
}

impl Detail {
    /// No words.
    pub fn none() -> Detail {
        Detail {
            text: ArrayVec::new(),
        }
    }

    /// These words, which others may follow.
    pub fn of(words: &[u8]) -> Detail {
        Detail::none().words(words)
    }

    /// All that was put, in printable ASCII.
    pub fn as_bytes(&self) -> &[u8] {
        self.text.as_slice()
    }

    pub fn is_empty(&self) -> bool {
        self.text.len() == 0
    }

    /// Puts a byte; one that isn't printable ASCII is shown as a question mark.
    fn put(&mut self, byte: u8) {
        let shown = match byte {
            b' '..=b'~' => byte,
            _ => b'?',
        };
        let len = self.text.len();
        if len + 2 < MOST {
            self.text.push(shown);
        } else if len + 2 == MOST {
            self.text.push(b'.');
            self.text.push(b'.');
        }
    }

    /// More words after these.
    pub fn words(self, words: &[u8]) -> Detail {
        let mut detail = self;
        for byte in words {
            detail.put(*byte);
        }
        detail
    }

    /// A number after these words.
    pub fn number(self, number: usize) -> Detail {
        let mut digits = Buffer::new();
        self.words(digits.format(number).as_bytes())
    }

    /// A number with its sign after these words.
    pub fn integer(self, number: i64) -> Detail {
        let mut digits = Buffer::new();
        self.words(digits.format(number).as_bytes())
    }

    /// A piece of a text after these words, between backquotes.
    pub fn quoted(self, piece: &[u8]) -> Detail {
        self.words(b"`").words(piece).words(b"`")
    }
}

impl fmt::Debug for Detail {
    fn fmt<W: fmt::Write>(&self, f: &mut fmt::Formatter<W>) -> fmt::Result {
        match str::from_utf8(self.as_bytes()) {
            Ok(words) => f.write_str(words),
            Err(_) => Ok(()),
        }
    }
}
