//! How paths go on, and how two of them become one.

ghost use Rattle.std.specs.Prelude.{◌≡◌, List, Ok, Err, length, OnOk, IfOk, IfErr};
ghost use Rattle.regions.specs.declared.fault.CheckError.TheVariants.{Memory};
ghost use Rattle.base.specs.Bytes.{Identifier};
ghost use Rattle.syntax.specs.Views.{test_tree};
ghost use Rattle.region_rules.specs.RegionStates.{RegionState};
ghost use Rattle.region_rules.specs.Regions.{On, where_true, where_false};
ghost use Rattle.regions.specs.Paths.{join_paths};
ghost use Rattle.region_states.specs.StatesInMemory.{names_of, IsSaved, HasCounts};
ghost use Rattle.regions.specs.Walks.{PathOrFault, path_value, Goes, Branches, Awaits};

use crate::fault::CheckError;
use crate::telling::paths_detail;
use places::{Detail, Fault, Line};
use region_rules::RegionRule;
use region_states::states::{Facts, FlowState};
use std::alloc::Global;
use syntax::Test;

/// How a path goes on after a statement: with a state, or not at all.
#[derive(Clone, Copy)]
pub(crate) enum Path {
    On,
    Returned,
}

/// One of two paths that become one: how it goes on, and what is known after it.
#[derive(Drop)]
pub(crate) struct Branch<'a> {
    pub path: Path,
    pub known: Facts<'a>,
}

/// The fault of a rule on this line, with what was found there.
pub(crate) fn refuse(rule: RegionRule, line: usize, detail: Detail) -> Result<Path, CheckError>
    ensures fault { (after : RegionState) → Goes result after (Err (line, rule)) }
    ensures never { IfOk result (λ _. ⊥) }
{
    Err(CheckError::Fault(Fault {
        rule,
        line: Line::told(line, detail),
    }))
}

/// Two paths become one: the first, after which this is known, and the second, which came to this state.
fn join_paths<'a>(
    state: &mut FlowState<'a>,
    line: usize,
    first: Path,
    known: &mut Facts<'a>,
    second: Path,
) -> Result<Path, CheckError>
    requires long { length known.old.variables.items ≡ length (names_of state.old) }
    requires counted { HasCounts known.old }
    ensures goes { (a : RegionState) → IsSaved known.old a → names_of a ≡ names_of state.old
        → Goes result state.new (join_paths line (Ok (path_value first a)) (Ok (path_value second state.old))) }
    ensures names { (a : RegionState) → IsSaved known.old a → names_of a ≡ names_of state.old
        → IfOk result (λ _. names_of state.new ≡ names_of state.old) }
{
    match first {
        Path::Returned => Ok(second),
        Path::On => match second {
            Path::Returned => {
                state.exchange(known);
                Ok(Path::On)
            }
            Path::On => {
                if state.is_as_saved(known) {
                    return Ok(Path::On);
                }
                refuse(RegionRule::PathsDiffer, line, paths_detail(known, state))
            }
        },
    }
}

/// The path after both branches, of which the second came to this state.
pub(crate) fn join<'a>(
    state: &mut FlowState<'a>,
    line: usize,
    first: Branch<'a>,
    second: Result<Path, CheckError>,
) -> Result<Path, CheckError>
    requires long { IfOk second (λ _. length first.known.variables.items ≡ length (names_of state.old)) }
    requires counted { HasCounts first.known }
    ensures goes { (a : RegionState) (expected : PathOrFault) → IsSaved first.entry.known a
        → IfOk second (λ _. names_of a ≡ names_of state.old) → Goes second state.old expected
        → Goes result state.new (join_paths line (Ok (path_value first.entry.path a)) expected) }
    ensures names { (a : RegionState) → IsSaved first.entry.known a → IfOk second (λ _. names_of a ≡ names_of state.old)
        → IfOk result (λ _. names_of state.new ≡ names_of a) }
{
    let mut known = first.known;
    match second {
        Ok(path) => join_paths(state, line, first.path, &mut known, path),
        Err(e) => Err(e),
    }
}

/// The path after a branch and no other.
#[inline]
pub(crate) fn one_path<'a>(
    state: &mut FlowState<'a>,
    line: usize,
    first: Result<Branch<'a>, CheckError>,
) -> Result<Path, CheckError>
    requires { Awaits first state.old }
    ensures goes { (expected : PathOrFault) (other : RegionState) → Branches first.entry state.old expected other
        → Goes result state.new (join_paths line expected (Ok (On other))) }
    ensures names { (names : List Identifier) → IfOk first.entry (λ _. names_of state.old ≡ names)
        → IfOk result (λ _. names_of state.new ≡ names) }
{
    match first {
        Ok(first) => join(state, line, first, Ok(Path::On)),
        Err(e) => Err(e),
    }
}

/// The path after none of a loop's turns, which is one of its two paths.
#[inline]
pub(crate) fn no_turn<'a>(alloc: Global, state: &FlowState<'a>) -> Result<Branch<'a>, CheckError>
    ensures { Branches result state.now (Ok (On state.now)) state.now }
{
    let known = state.save(alloc)?;
    Ok(Branch {
        path: Path::On,
        known,
    })
}

/// The beginning of the branch where a test holds. What was known before the test is answered.
pub(crate) fn take_then<'a>(
    alloc: Global,
    state: &mut FlowState<'a>,
    test: &'a Test,
) -> Result<Facts<'a>, CheckError>
    ensures before { IfOk result (λ known. IsSaved known state.old) }
    ensures after { OnOk result (state.new ≡ where_true state.old (test_tree test.now)) }
    ensures memory { IfErr result (λ e. e ≡ Memory) }
{
    let known = state.save(alloc)?;
    state.take_true(test)?;
    Ok(known)
}

/// The end of a test's first branch, with this answer, and the beginning of the second, where before the test this was
/// known.
pub(crate) fn take_else<'a>(
    state: &mut FlowState<'a>,
    test: &'a Test,
    first: Result<Path, CheckError>,
    before: Facts<'a>,
) -> Result<Branch<'a>, CheckError>
    requires long { IfOk first (λ _. length before.variables.items ≡ length (names_of state.old)) }
    requires counted { HasCounts before }
    ensures { (s : RegionState) (expected : PathOrFault) → IsSaved before.entry s
        → IfOk first (λ _. names_of s ≡ names_of state.old) → Goes first state.old expected
        → Branches result state.new expected (where_false s (test_tree test.now)) }
{
    let path = first?;
    let mut known = before;
    state.exchange(&mut known);
    state.take_false(test);
    Ok(Branch { path, known })
}
