//! What a program does: its run on a heap where objects have names and never move. The definitions are in `specs/`; the
//! code has only what a run is made of for the machine and for the replay alike (words of journals and schedules,
//! values of objects, traps, events and endings, and what is printed), and the laws.
#![tactic(auto)]

mod event;
mod journal;
mod level;
mod object_id;
mod object_value;
mod objects;
mod printed;
mod schedule;
mod static_reference;
mod trap;
mod value;
mod variable_kind;

ghost use Rattle.semantics.specs.AccountLaws.{ClearingsAreFew, ClearingsStay, LostAreCleared, OthersStay, StepsMay, StepsPrint};
ghost use Rattle.semantics.specs.Reachable.{ReachedIsComputed};

pub use event::{Ending, Event, Stop};
pub use journal::{Entry, EntryKind};
pub use level::{CALL_LEVEL, Level};
pub use object_id::{NO_OBJECT, ObjectId, are_rising};
pub use object_value::ObjectValue;
pub use objects::Objects;
pub use printed::Printed;
pub use schedule::ScheduleWord;
pub use static_reference::StaticReference;
pub use trap::Trap;
pub use value::Value;
pub use variable_kind::VariableKind;

/// The computed list is the set of the objects that are reached.
pub fn reachable_is_computed()
    ensures { ReachedIsComputed }
{}

/// An entry of one thread, marked or not, changes no other thread's part in a journal.
pub fn others_stay()
    ensures { OthersStay }
{}

/// A clearing changes no thread's part in a journal.
pub fn clearings_stay()
    ensures { ClearingsStay }
{}

/// A journal has no more clearings than steps.
pub fn clearings_are_few()
    ensures { ClearingsAreFew }
{}

/// The clearing of all that is held weakly and lost is possible, and leaves nothing lost.
pub fn lost_are_cleared()
    ensures { LostAreCleared }
{}

/// A step is of a thread that can step: no trap has stopped the machine, and it has neither ended nor waits.
pub fn steps_may()
    ensures { StepsMay }
{}

/// A step prints at most one number, of its own thread, behind those printed before.
pub fn steps_print()
    ensures { StepsPrint }
{}
