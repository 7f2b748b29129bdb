//! The errors of lowering, other texts, loading, a full journal, a report and a replay, as errors of a run, each with what was
//! found.

ghost use Rattle.std.specs.Prelude.{◌≡◌, IfSome, IfNone};
ghost use Rattle.places.specs.declared.place.Place.TheVariants as placed;
ghost use Rattle.places.specs.declared.place.Text.TheVariants as which;
ghost use Rattle.jnirun.specs.Errors.{of_lower, of_reading, of_load, of_run, of_report, of_replay};

use crate::telling::entry_detail;
use lower::LowerError;
use machine::{LoadFault, ReportFault, RunFault};
use places::{Detail, Line, Place, Text};
use program_check::{FaultPlace, RunError, too_long};
use region_rules::Checked;
use replay::ReplayError;
use semantics::Entry;
use world_schedules::ReadError;

/// The error of a program that can't be lowered.
pub(crate) fn of_lower(checked: &Checked, error: LowerError) -> RunError
    ensures { result ≡ of_lower error }
{
    match error {
        LowerError::Memory => RunError::Memory,
        LowerError::TooLong => too_long(checked),
    }
}

/// The error of this text, which is a world, a schedule or a journal.
pub(crate) fn of_reading(text: Text, error: ReadError) -> RunError
    ensures { result ≡ of_reading text error }
{
    match error {
        ReadError::Memory => RunError::Memory,
        ReadError::Fault(fault) => {
            let place = Place::Line(text, fault.line.number());
            let detail = fault.line.into_detail();
            RunError::Fault(fault.rule.number(), FaultPlace::told(place, detail))
        }
    }
}

/// The error of a fault of this number, at this place. What has no number is want of memory.
fn fault_at(number: Option<u32>, place: FaultPlace) -> RunError
    ensures some { IfSome number (λ n. result ≡ RunError.Fault n place) }
    ensures none { IfNone number (result ≡ RunError.Memory) }
{
    match number {
        Some(number) => RunError::Fault(number, place),
        None => RunError::Memory,
    }
}

/// The place of a fault on this line of the world.
fn in_world(line: Line) -> FaultPlace
    ensures { result ≡ placed.Line which.World line }
{
    let place = Place::Line(Text::World, line.number());
    FaultPlace::told(place, line.into_detail())
}

/// The error of a world that isn't loaded.
pub(crate) fn of_load(fault: LoadFault) -> RunError
    ensures { result ≡ of_load fault }
{
    let number = fault.number();
    match fault {
        LoadFault::Memory => RunError::Memory,
        LoadFault::DoesNotFit(line) => fault_at(number, in_world(line)),
    }
}

/// The error of a run that has no memory, or no room in its journal, which has no line.
pub(crate) fn of_run(fault: RunFault) -> RunError
    ensures { result ≡ of_run fault }
{
    let place = Place::Line(Text::Program, 0);
    let detail = Detail::of(b"at most 1000000 steps");
    fault_at(fault.number(), FaultPlace::told(place, detail))
}

/// The error of a report that isn't written.
pub(crate) fn of_report(fault: ReportFault) -> RunError
    ensures { result ≡ of_report fault }
{
    match fault {
        ReportFault::Memory => RunError::Memory,
        ReportFault::Sink => RunError::Writer,
    }
}

/// What was found at the entry of this number, counted from 1.
fn detail_of_entry(journal: &[Entry], number: usize) -> Detail {
    match journal.get(number.saturating_sub(1)) {
        Some(entry) => entry_detail(entry),
        None => Detail::none(),
    }
}

/// The error of a journal that isn't replayed.
pub(crate) fn of_replay(journal: &[Entry], error: ReplayError) -> RunError
    ensures { result ≡ of_replay error }
{
    let number = error.number();
    match error {
        ReplayError::DoesNotFit(line) => fault_at(number, in_world(line)),
        ReplayError::Impossible(entry) => {
            let place = Place::Entry(entry);
            let detail = detail_of_entry(journal, entry);
            fault_at(number, FaultPlace::told(place, detail))
        }
        ReplayError::Memory => RunError::Memory,
        ReplayError::Writer => RunError::Writer,
    }
}
