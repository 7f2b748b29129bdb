//! Names that a reader may have meant.

ghost use Rattle.std.specs.Prelude.{◌≡◌, ◌≢◌, ◌≤◌, length};
ghost use Rattle.std.specs.Option.{ForSome};

use places::Detail;
use std::alloc::Global;
use strsim::generic_damerau_levenshtein;

/// The most bytes of a name that is compared.
const MOST_BYTES: usize = 100;

/// The most pairs of a byte of the name and one of a known name that are compared, so that many names take little time.
const MOST_PAIRS: usize = 4_000_000;

/// The most bytes of words on a fault of which none is cut.
const MOST_WHOLE: usize = 118;

/// A name that isn't known, and the nearest of the known ones that were offered, if one is near.
///
/// A name is near where a third of the bytes of the one that isn't known have to change, or fewer: by a byte more, a byte
/// less, another byte, or two neighbours that change places. What both begin with, up to a `_` or a `/`, isn't counted.
/// Of two that are as near it is the one that was offered first. Names of more than 100 bytes are near none, no more names
/// are compared once four million pairs of bytes were, and none is near where memory is refused.
#[derive(Drop)]
pub struct Nearest<'n, 'k> {
    name: &'n [u8],
    found: Option<&'k [u8]>,
    /// How many changes lead to the name that was found.
    changes: usize,
    /// How many pairs of bytes may still be compared.
    pairs: usize,
    ghost other: { ForSome found (λ known. known.now ≢ name.now) },
}

/// How many bytes both names begin with, up to a `_` or a `/`.
fn shared_front(name: &[u8], known: &[u8]) -> usize
    ensures name { result ≤ length name.now }
    ensures known { result ≤ length known.now }
{
    let mut shared = 0;
    let most = name.len().min(known.len());
    for i in 0..most {
        if name[i] != known[i] {
            return shared;
        }
        if name[i] == b'_' || name[i] == b'/' {
            shared = i + 1;
        }
    }
    shared
}

impl<'n, 'k> Nearest<'n, 'k> {
    /// No name was offered yet.
    pub fn to(name: &'n [u8]) -> Nearest<'n, 'k>
        ensures { result.name ≡ name.entry }
    {
        Nearest {
            name,
            found: None,
            changes: 0,
            pairs: MOST_PAIRS,
        }
    }

    /// Offers a known name.
    pub fn offer(&mut self, alloc: Global, known: &'k [u8])
        ensures { self.new.name ≡ self.old.name }
    {
        if self.name.len() > MOST_BYTES || known.len() > MOST_BYTES || known == self.name {
            return;
        }
        let shared = shared_front(self.name, known);
        let (_, own) = self.name.split_at(shared);
        let (_, other) = known.split_at(shared);
        let most = own.len() / 3;
        if own.len().abs_diff(other.len()) > most {
            return;
        }
        let pairs = own.len().saturating_mul(other.len());
        if pairs > self.pairs {
            return;
        }
        self.pairs -= pairs;
        let Ok(changes) = generic_damerau_levenshtein(alloc, own, other) else {
            self.found = None;
            self.pairs = 0;
            return;
        };
        if changes <= most && (self.found.is_none() || changes < self.changes) {
            self.found = Some(known);
            self.changes = changes;
        }
    }

    /// The nearest name. It is never the one that isn't known.
    pub fn found(&self) -> Option<&'k [u8]>
        ensures { ForSome result (λ known. known.now ≢ self.now.name.now) }
    {
        self.found
    }

    /// Asks after these words whether the nearest name is meant, with the mark that stands before such a name, where one is near
    /// and all of that has room.
    pub fn asked_after(&self, detail: Detail, mark: &[u8]) -> Detail {
        let Some(known) = self.found else {
            return detail;
        };
        let name = Detail::of(mark).words(known);
        let question = Detail::of(b": did you mean ")
            .quoted(name.as_bytes())
            .words(b"?");
        let question = question.as_bytes();
        if detail.as_bytes().len().saturating_add(question.len()) > MOST_WHOLE {
            return detail;
        }
        detail.words(question)
    }
}
