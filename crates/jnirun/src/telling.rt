//! What is told of an entry of a journal that isn't possible, in words that no contract fixes.

use places::Detail;
use semantics::{Entry, EntryKind, ObjectId};

/// Puts the names of objects, with commas between them.
fn with_objects(detail: Detail, objects: &[ObjectId]) -> Detail {
    let mut detail = detail;
    let mut mark: &[u8] = b"~";
    for object in objects {
        detail = detail.words(mark).number(object.number);
        mark = b",";
    }
    detail
}

/// The word of an entry of a journal.
pub(crate) fn entry_detail(entry: &Entry) -> Detail {
    let found = Detail::of(b"found `");
    let found = match entry.kind() {
        EntryKind::Step { thread, refused } => {
            let mark: &[u8] = if *refused { b"!" } else { b"" };
            found.number(usize::from(*thread)).words(mark)
        }
        EntryKind::Clearing(objects) => with_objects(found, objects),
    };
    found.words(b"`")
}
