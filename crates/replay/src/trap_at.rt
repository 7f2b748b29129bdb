//! Where a run stopped.

ghost use Rattle.std.specs.Prelude.{◌≡◌};
ghost use Rattle.replay.specs.Replays.{shown_stop};

use semantics::Stop;

/// The trap that stopped a run.
#[derive(Clone, Copy, PartialEq, Eq)]
pub struct TrapAt {
    /// The number under which the trap is reported.
    pub number: u8,
    /// The line of its statement, counted from 1.
    pub line: usize,
}

/// The number and the line of a trap that stopped a run, if one did.
pub fn shown_stop(stop: Option<Stop>) -> Option<TrapAt>
    ensures { result ≡ shown_stop stop }
{
    let stop = stop?;
    Some(TrapAt {
        number: stop.trap.number(),
        line: stop.line,
    })
}
