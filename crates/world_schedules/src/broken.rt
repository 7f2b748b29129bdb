//! Why a line of a schedule or a journal isn't read, before anything is told of it.

ghost use Rattle.std.specs.Prelude.{◌≡◌};
ghost use Rattle.world_schedules.specs.declared.fault.ReadError.TheVariants.{Memory, Fault};

use crate::fault::{ReadError, Rule};
use crate::telling::{formless, threadless};
use crate::words::Word;
use places::Detail;
use std::alloc::AllocError;
use std::marker::Model;

/// Memory is refused, or a line breaks a rule: the error of a line, without the words on it, for which it would have room in
/// each answer. Contracts see the error.
#[derive(Drop)]
pub(crate) struct Broken {
    /// None where memory is refused.
    rule: Option<Rule>,
    line: usize,
    /// How many words of the line come before the one that breaks the rule.
    place: usize,
}

impl Model for Broken {
    ghost use Rattle.std.specs.Prelude.{unwrap_or};
    ghost use Rattle.std.specs.Option.{option_map};
    ghost use Rattle.world_schedules.specs.declared.fault.ReadError.{ReadError};
    ghost use Rattle.world_schedules.specs.declared.fault.ReadError.TheVariants.{Memory, Fault};

    ghost Value = { ReadError };

    ghost view = { λ b. unwrap_or (option_map (λ rule. Fault (record { rule = rule; line = b.line })) b.rule) Memory };
}

impl Broken {
    /// This rule is broken on this line, by the word before which there are so many, or by all words so far.
    pub(crate) fn at(rule: Rule, line: usize, place: usize) -> Broken
        ensures { result ≡ Fault (record { rule = rule; line = line }) }
    {
        Broken {
            rule: Some(rule),
            line,
            place,
        }
    }

    /// The error, with what was found on its line, where there are so many threads.
    #[inline(never)]
    pub(crate) fn told<W: Word>(self, line: &[u8], threads: u8) -> ReadError
        ensures { result ≡ self }
    {
        let Some(rule) = self.rule else {
            return ReadError::Memory;
        };
        let detail = match rule {
            Rule::Form => formless(line, self.place),
            Rule::Name => threadless(line, self.place, threads),
            _ => Detail::of(W::limit()),
        };
        ReadError::told(rule, self.line, detail)
    }
}

impl From<AllocError> for Broken {
    ghost from_gives = { λ _ e. e ≡ Memory };

    fn from(_e: AllocError) -> Broken {
        Broken {
            rule: None,
            line: 0,
            place: 0,
        }
    }
}
