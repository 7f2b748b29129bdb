//! The statuses of threads.

ghost use Rattle.std.specs.Prelude.{◌≡◌};
ghost use Rattle.std.specs.Option.{option_map};
ghost use Rattle.report.specs.ThreadStatus.{standing_view};
ghost use Rattle.semantics.specs.EventViews.{stop_view};
ghost use Rattle.semantics.specs.ReportOf.{standing_at, standing_by_ending};

use classes::table::ClassTable;
use report::ThreadStatus;
use semantics::{Ending, Stop};

/// The status of thread `k`, counted from 1. Only the thread that stopped the run trapped; another may wait for a monitor.
pub fn standing_of(
    classes: &ClassTable,
    waits: bool,
    stop: Option<Stop>,
    k: usize,
    ending: Ending,
) -> ThreadStatus<'_>
    ensures { standing_view result ≡ standing_at classes.entry.now waits (option_map stop_view stop) k ending }
{
    match stop {
        Some(stop) if usize::from(stop.thread) == k => {
            ThreadStatus::Trapped {
                trap: stop.trap.number(),
                line: stop.line,
            }
        }
        _ => standing_by_ending(classes, waits, ending),
    }
}

/// The status of a thread that didn't trap.
fn standing_by_ending(classes: &ClassTable, waits: bool, ending: Ending) -> ThreadStatus<'_>
    ensures { standing_view result ≡ standing_by_ending classes.entry.now waits ending }
{
    match ending {
        Ending::Unfinished => {
            if waits {
                ThreadStatus::Blocked
            } else {
                ThreadStatus::Running
            }
        }
        Ending::Ended => ThreadStatus::Ended,
        Ending::Uncaught(class) => ThreadStatus::Uncaught(classes.name(class)),
    }
}
