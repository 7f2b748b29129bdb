//! The parts of a text between separators.

ghost use Rattle.std.specs.Prelude.{◌≡◌, ◌==◌, ◌+◌, ◌<◌, ◌^◌, length};
ghost use Rattle.std.specs.List.{position};
ghost use Rattle.std.specs.Iterator.{YieldsFirstRef, item_count};

/// The parts of a text between separators, of which there is one more than separators.
#[derive(Drop)]
pub struct Split<'a> {
    rest: Option<&'a [u8]>,
    separator: u8,
}

impl<'a> Split<'a> {
    ghost use Rattle.world_schedules.specs.Split.{parts_left, parts_of};

    pub fn new(text: &'a [u8], separator: u8) -> Split<'a>
        ensures parts { parts_left result ≡ parts_of separator text.entry.now }
        ensures few { length (parts_of separator text.entry.now) < 2 ^ 64 }
    {
        prove!(text.len() < usize::MAX);
        Split {
            rest: Some(text),
            separator,
        }
    }
}

/// Where the byte first occurs. A part of one byte, as most words of a schedule are, is told without a search.
fn place_of(text: &[u8], byte: u8) -> Option<usize>
    ensures { result ≡ position (λ b. b == byte) text.now }
{
    match text {
        [first, second, ..] if *first != byte && *second == byte => Some(1),
        _ => text.iter().position(|b| *b == byte),
    }
}

impl<'a> Iterator for Split<'a> {
    ghost use Rattle.std.specs.Iterator.{YieldsFirstRef, item_count};
    ghost use Rattle.world_schedules.specs.Split.{parts_left};

    type Item = &'a [u8];

    ghost next_gives = { YieldsFirstRef parts_left };

    ghost remaining = { item_count parts_left };

    fn next(&mut self) -> Option<&'a [u8]> {
        let text = self.rest?;
        match place_of(text, self.separator) {
            None => {
                self.rest = None;
                Some(text)
            }
            Some(place) => {
                let (part, _) = text.split_at(place);
                let (_, rest) = text.split_at(place + 1);
                self.rest = Some(rest);
                Some(part)
            }
        }
    }
}
