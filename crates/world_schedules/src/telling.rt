//! What is told of a line of a schedule or a journal that is refused, for its reader; no contract says which words these are.

use crate::split::Split;
use places::Detail;

/// The word of a line before which there are so many.
fn word_at(line: &[u8], place: usize) -> &[u8] {
    let mut left = place;
    for part in Split::new(line, b' ') {
        if !part.is_empty() {
            if left == 0 {
                return part;
            }
            left -= 1;
        }
    }
    b""
}

/// The word at this place of a line has no form.
pub(crate) fn formless(line: &[u8], place: usize) -> Detail {
    Detail::of(b"found ").quoted(word_at(line, place))
}

/// The word at this place of a line names a thread that isn't there, where there are so many.
pub(crate) fn threadless(line: &[u8], place: usize, threads: u8) -> Detail {
    formless(line, place)
        .words(b", threads are ")
        .number(usize::from(threads))
}
