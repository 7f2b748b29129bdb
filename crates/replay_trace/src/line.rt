//! The line of an entry, as it is put together.

use itoa::{Buffer, Integer};
use std::alloc::{AllocError, Global};

/// The line of an entry. Its room is kept from one entry to the next.
#[derive(Drop)]
pub(crate) struct Line {
    bytes: Vec<u8>,
}

impl Line {
    /// An empty line.
    pub(crate) fn new(alloc: Global) -> Line {
        Line {
            bytes: Vec::new(alloc),
        }
    }

    /// The bytes so far.
    pub(crate) fn as_bytes(&self) -> &[u8] {
        &self.bytes
    }

    /// Begins another line.
    pub(crate) fn clear(&mut self) {
        self.bytes.clear();
    }

    /// Adds a text.
    pub(crate) fn text(&mut self, text: &[u8]) -> Result<(), AllocError> {
        self.bytes.extend_from_slice(text)
    }

    /// Adds a number in decimal.
    pub(crate) fn number<N: Integer>(&mut self, number: N) -> Result<(), AllocError> {
        let mut digits = Buffer::new();
        self.text(digits.format(number).as_bytes())
    }
}
