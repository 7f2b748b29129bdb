// What a seat keeps of an answer.
ghost use Rattle.std.specs.Prelude.{◌≡◌};
ghost use Rattle.shared_accounts.specs.Accounts.{kept_after};

use machine::Turn;
use shared_passes::view::Fate;
use std::alloc::AllocError;

/// What a seat keeps of an answer.
pub fn kept_after(kept: Fate, answer: &Result<Turn, AllocError>) -> Fate
    ensures { result ≡ kept_after kept answer.now }
{
    match answer {
        Ok(Turn::Stopped) => Fate {
            stopped: true,
            waits: kept.waits,
            full: kept.full,
        },
        Ok(Turn::Blocked(true)) => Fate {
            stopped: kept.stopped,
            waits: true,
            full: kept.full,
        },
        Ok(Turn::Full) => Fate {
            stopped: kept.stopped,
            waits: kept.waits,
            full: true,
        },
        Ok(Turn::Blocked(false)) => kept,
        Ok(Turn::Ended) => kept,
        Ok(Turn::Short) => kept,
        Ok(Turn::Stepped) => kept,
        Err(_) => kept,
    }
}
