//! Objects to be made.

ghost use Rattle.std.specs.Prelude.{◌≡◌, ◌+◌, ◌≤◌, ◌^◌};
ghost use Rattle.machine_scenes.specs.NewObjects.{cells_of_new, text_in, texts_in};

use class_rules::ClassId;
use classes::table::ClassTable;
use heap::{Addr, HEADER, Value};

/// An array to be made: its class, how many elements it has, and what each of them is.
#[derive(Clone, Copy)]
pub struct NewArray {
    pub class: ClassId,
    pub count: u32,
    pub value: Value,
}

/// An object to be made by a call.
#[derive(Clone, Copy)]
pub enum New {
    /// One of this class, with zero and null fields.
    Fresh(ClassId),
    Array(NewArray),
    /// A string of the call's text at this place, one UTF-16 unit a byte.
    Text(usize),
    /// An exception of this class, with the string at this address as message.
    Exception { class: ClassId, message: Addr },
}

impl New {
    /// The cells that it takes, for a call with these texts. The cost goes by the depth of its class.
    pub fn cells(self, classes: &ClassTable, texts: &[Vec<u8>]) -> usize
        ensures cells { result ≡ cells_of_new classes.now (texts_in texts.now) self }
        ensures few { result ≤ 2 ^ 63 + 2 }
    {
        match self {
            New::Fresh(class) | New::Exception { class, .. } => HEADER + classes.layout_len(class),
            New::Array(array) => HEADER + array.count as usize,
            New::Text(place) => HEADER + text_at(texts, place).len(),
        }
    }
}

/// A text of a call, and an empty one where there is none.
pub fn text_at(texts: &[Vec<u8>], place: usize) -> &[u8]
    ensures { result.now ≡ text_in (texts_in texts.now) place }
{
    match texts.get(place) {
        Some(text) => text,
        None => &[],
    }
}
