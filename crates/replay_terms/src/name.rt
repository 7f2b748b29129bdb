//! Names, compared four bytes at once.

ghost use Rattle.std.specs.Prelude.{◌≡◌, ◌+◌, ◌≤◌, length, drop, take};
ghost use Rattle.std.specs.Int.{from_le_bytes, w32};
ghost use Rattle.std.specs.Str.{bytes_eq};

/// The bytes that are compared at once.
const WORD: usize = 4;

/// Four bytes of a name, from a place on.
#[inline(always)]
fn word_at(name: &[u8], place: usize) -> u32
    requires { place + 4 ≤ length name.now }
    ensures { result ≡ from_le_bytes w32 (take 4 (drop place name.now)) }
{
    u32::from_le_bytes([
        name[place],
        name[place + 1],
        name[place + 2],
        name[place + 3],
    ])
}

/// Whether two names have the same four bytes from a place on.
#[inline(always)]
fn is_same_word(name: &[u8], other: &[u8], place: usize) -> bool
    requires name { place + 4 ≤ length name.now }
    requires other { place + 4 ≤ length other.now }
    ensures { result ≡ bytes_eq (take 4 (drop place name.now)) (take 4 (drop place other.now)) }
{
    word_at(name, place) == word_at(other, place)
}

/// Whether two short names of one length are the same, byte by byte.
#[inline(always)]
fn is_same_short(name: &[u8], other: &[u8]) -> bool
    requires { length name.now ≡ length other.now }
    ensures { result ≡ bytes_eq name.now other.now }
{
    for place in 0..name.len() {
        if name[place] != other[place] {
            return false;
        }
    }
    true
}

/// Whether two names are the same. The last four bytes are compared wherever they begin.
#[inline(always)]
pub fn is_same(name: &[u8], other: &[u8]) -> bool
    ensures { result ≡ bytes_eq name.now other.now }
{
    if name.len() != other.len() {
        return false;
    }
    if name.len() < WORD {
        return is_same_short(name, other);
    }
    let last = name.len() - WORD;
    let mut place = 0;
    while place < last {
        if !is_same_word(name, other, place) {
            return false;
        }
        place += WORD;
    }
    is_same_word(name, other, last)
}
