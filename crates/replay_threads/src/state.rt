//! The state of a replay, and what an entry does to it.

ghost use Rattle.std.specs.Prelude.{◌≡◌, ℕ, ◌<◌, ◌*◌, [], false, IfOk, IfSome, IfNone, is_some, map, ◌≤◌, flat_map, length, sum_by};
ghost use Rattle.base.specs.Limits.{most_activations, most_copied, most_views};
ghost use Rattle.syntax.specs.Limits.{IsTree};
ghost use Rattle.syntax.specs.Views.{unit_tree};
ghost use Rattle.type_rules.specs.TypeRules.{IsWellTyped};
ghost use Rattle.semantics.specs.Journal.{Step, Clearing};
ghost use Rattle.semantics.specs.Views.{names_of};
ghost use Rattle.syntax.specs.Tree.{SourceUnit};
ghost use Rattle.replay_threads.specs.States.{AreInRange, AttemptsCallTurn, AttemptsFieldTurn, AttemptsTurn, IsLiveAt, TakesEntry, TakesNone, IsNoted, AreStandings, Waits, call_copies, call_views, copied_in, in_use_by, variables_of, viewed_in};
ghost use Rattle.replay_threads.specs.Threads.{ThreadInRange, last_first};
ghost use Rattle.semantics.specs.Thread.{lengths_copied, objects_viewed};
ghost use Rattle.replay_terms.specs.Views.{in_use_view};
ghost use Rattle.report.specs.ThreadStatus.{standing_view};

use crate::clearing::may_clear;
use crate::thread::{
    NextCall, Thread, is_waiting, next_call, take_step, try_call, try_field, try_step,
};
use functions::Functions;
use replay_arguments::{Shared, Turn};
use replay_steps::{Activation, Attempt};
use replay_terms::BuffersInUse;
use report::ThreadStatus;
use report_objects::standing_of;
use semantics::{Entry, EntryKind, Event, ObjectId, Printed, Stop};
use std::alloc::{AllocError, Global};
use world_values::World;

/// The threads, the world that they began in, what they share, what they printed, and the trap that stopped them.
pub struct State<'a> {
    pub world: &'a World,
    pub shared: Shared<'a>,
    pub threads: Vec<Thread<'a>>,
    pub printed: Vec<Printed>,
    pub stop: Option<Stop>,
}

impl Drop for State<'_> {
    fn drop(self) {
        let State {
            world: _,
            shared,
            threads,
            printed,
            stop: _,
        } = self;
        drop(shared);
        drop(threads);
        drop(printed);
    }
}

/// Writes down what others see of what thread `k` did; false where it could do nothing.
fn note(state: &mut State<'_>, k: u8, took: Option<Event>) -> Result<bool, AllocError>
    ensures possible { IfOk result (λ possible. possible ≡ is_some took) }
    ensures noted { IfOk result (λ _. IsNoted state.old k took state.new) }
{
    match took {
        Some(Event::Quiet) => Ok(true),
        Some(Event::PrintedNumber(number)) => {
            state.printed.push(Printed { thread: k, number })?;
            Ok(true)
        }
        Some(Event::Trapped { trap, line }) => {
            state.stop = Some(Stop {
                thread: k,
                trap,
                line,
            });
            Ok(true)
        }
        None => Ok(false),
    }
}

/// Whether thread `k`, counted from 1, is there and waits for a monitor that another one owns.
#[inline]
fn waits(state: &State<'_>, k: usize) -> bool
    ensures { Waits state.now k result }
{
    if state.shared.monitors.is_empty() {
        return false;
    }
    waits_for_owner(state, k)
}

/// Whether thread `k` waits, found by what it does next.
#[inline(never)]
fn waits_for_owner(state: &State<'_>, k: usize) -> bool
    ensures { Waits state.now k result }
{
    if k == 0 {
        return false;
    }
    if state.threads.len() < k {
        return false;
    }
    let classes = state.world.classes();
    is_waiting(classes, k, &state.shared, &state.threads[k - 1])
}

/// The place of thread `k` if it can step: the machine hasn't stopped, and the thread is there, has not ended, and
/// waits for no monitor.
#[inline]
fn place_of(state: &State<'_>, k: u8) -> Option<usize>
    requires { AreInRange state.now.threads.items }
    ensures some { IfSome result (IsLiveAt state.now k) }
    ensures none { IfNone result (TakesNone state.now k) }
{
    if state.stop.is_some() {
        return None;
    }
    let number = usize::from(k);
    if number == 0 {
        return None;
    }
    if state.threads.len() < number {
        return None;
    }
    if waits(state, number) {
        return None;
    }
    if state.threads[number - 1].ending.is_unfinished() {
        Some(number - 1)
    } else {
        None
    }
}

/// What the buffers of these calls take together.
fn taken_by_calls(callers: &[Activation<'_>]) -> BuffersInUse
    requires { length callers.now < most_activations }
    ensures copied { result.copied ≡ sum_by call_copies (last_first callers.now) }
    ensures views { result.views ≡ length (flat_map call_views (last_first callers.now)) }
    ensures within { result.copied ≤ 63 * most_copied }
    ensures few { result.views ≤ 63 * most_views }
{
    let mut copied = 0;
    let mut views = 0;
    for done in 0..callers.len() {
        let taken = callers[callers.len() - 1 - done].locals.variables.in_use();
        copied += taken.copied;
        views += taken.views;
    }
    BuffersInUse { copied, views }
}

/// What the buffers of the call in progress take, if there is one.
fn taken_by_call(activation: &Option<Activation<'_>>) -> BuffersInUse
    ensures copied { result.copied ≡ lengths_copied (variables_of activation.now) }
    ensures views { result.views ≡ length (objects_viewed (variables_of activation.now)) }
    ensures within { result.copied ≤ most_copied }
    ensures few { result.views ≤ most_views }
{
    match activation {
        Some(activation) => activation.locals.variables.in_use(),
        None => BuffersInUse {
            copied: 0,
            views: 0,
        },
    }
}

/// What the buffers of a thread take.
fn taken_by(thread: &Thread<'_>) -> BuffersInUse
    requires { ThreadInRange thread.now }
    ensures copied { result.copied ≡ copied_in thread.now }
    ensures views { result.views ≡ length (viewed_in thread.now) }
    ensures within { result.copied ≤ 64 * most_copied }
    ensures few { result.views ≤ 64 * most_views }
{
    let others = taken_by_calls(&thread.callers);
    let own = taken_by_call(&thread.activation);
    BuffersInUse {
        copied: others.copied + own.copied,
        views: others.views + own.views,
    }
}

/// What the buffers of all threads take together.
fn buffers_in_use(threads: &[Thread<'_>]) -> BuffersInUse
    requires { AreInRange threads.now }
    ensures { in_use_view result ≡ in_use_by threads.now }
{
    let mut copied = 0;
    let mut views = 0;
    for thread in threads {
        let taken = taken_by(thread);
        copied += taken.copied;
        views += taken.views;
    }
    BuffersInUse { copied, views }
}

/// A thread that can take its next step.
#[derive(Clone, Copy)]
pub(crate) struct Stepper {
    /// Its number, counted from 1.
    thread: u8,
    /// Its place among the threads.
    place: usize,
}

/// Takes the step of a thread that can step, its allocation refused or not; false where the step isn't possible.
#[inline(never)]
fn take_whole_turn<'a>(
    alloc: Global,
    functions: &Functions<'a>,
    state: &mut State<'a>,
    stepper: Stepper,
    refused: bool,
) -> Result<bool, AllocError>
    requires tree { IsTree (unit_tree functions.now) }
    requires well_typed { IsWellTyped (unit_tree functions.now) }
    requires range { AreInRange state.old.threads.items }
    requires live { IsLiveAt state.old stepper.thread stepper.place }
    ensures step { IfOk result (λ possible.
        TakesEntry (unit_tree functions.now) state.old (Step stepper.thread refused) possible state.new) }
    ensures range { IfOk result (λ _. AreInRange state.new.threads.items) }
{
    let turn = Turn {
        alloc,
        unit: functions.items(),
        classes: state.world.classes(),
        thread: stepper.thread,
        in_use: buffers_in_use(&state.threads),
        refused,
    };
    let thread = &mut state.threads[stepper.place];
    let took = take_step(functions, turn, &mut state.shared, thread)?;
    note(state, stepper.thread, took)
}

/// Takes the step of the thread at this place, which can step, where it is a term's or changes nothing but variables and tasks; all
/// is as it was where there is more to do.
#[inline(always)]
fn attempt_turn(alloc: Global, state: &mut State<'_>, place: usize) -> Result<Attempt, AllocError>
    requires range { AreInRange state.old.threads.items }
    requires there { place < length state.old.threads.items }
    ensures step { IfOk result (λ took. (k : ℕ) → IsLiveAt state.old k place → AttemptsTurn state.old k took state.new) }
    ensures range { IfOk result (λ _. AreInRange state.new.threads.items) }
{
    try_step(alloc, &state.shared, &mut state.threads[place])
}

/// The same where it reads or writes a number of an object; false where there is more to do, and then all is as it was.
#[inline(always)]
fn attempt_field_turn(
    alloc: Global,
    state: &mut State<'_>,
    place: usize,
) -> Result<bool, AllocError>
    requires range { AreInRange state.old.threads.items }
    requires there { place < length state.old.threads.items }
    ensures step { IfOk result (λ took. (k : ℕ) → IsLiveAt state.old k place → AttemptsFieldTurn state.old k took state.new) }
    ensures range { IfOk result (λ _. AreInRange state.new.threads.items) }
{
    let classes = state.world.classes();
    try_field(alloc, classes, &mut state.shared, &mut state.threads[place])
}

/// The same where it is another call that gives something at once; false where there is more to do, and then all is as it was.
#[inline(always)]
fn attempt_other_turn<'a>(
    alloc: Global,
    functions: &Functions<'a>,
    state: &mut State<'a>,
    stepper: Stepper,
) -> Result<bool, AllocError>
    requires range { AreInRange state.old.threads.items }
    requires live { IsLiveAt state.old stepper.thread stepper.place }
    ensures step { IfOk result (λ took. AttemptsCallTurn (unit_tree functions.now) state.old stepper.thread took state.new) }
    ensures range { IfOk result (λ _. AreInRange state.new.threads.items) }
{
    let turn = Turn {
        alloc,
        unit: functions.items(),
        classes: state.world.classes(),
        thread: stepper.thread,
        in_use: BuffersInUse {
            copied: 0,
            views: 0,
        },
        refused: false,
    };
    try_call(&turn, &mut state.shared, &mut state.threads[stepper.place])
}

/// The same where it is a call that gives something at once; false where there is more to do, and then all is as it was.
#[inline(always)]
fn attempt_call_turn<'a>(
    alloc: Global,
    functions: &Functions<'a>,
    state: &mut State<'a>,
    stepper: Stepper,
) -> Result<bool, AllocError>
    requires range { AreInRange state.old.threads.items }
    requires live { IsLiveAt state.old stepper.thread stepper.place }
    ensures step { IfOk result (λ took. AttemptsCallTurn (unit_tree functions.now) state.old stepper.thread took state.new) }
    ensures range { IfOk result (λ _. AreInRange state.new.threads.items) }
{
    match next_call(&state.threads[stepper.place]) {
        NextCall::Number => attempt_field_turn(alloc, state, stepper.place),
        NextCall::Other => attempt_other_turn(alloc, functions, state, stepper),
        NextCall::Nothing => Ok(false),
    }
}

/// The same, whatever the step does, with nothing refused.
#[inline(always)]
fn take_longer_turn<'a>(
    alloc: Global,
    functions: &Functions<'a>,
    state: &mut State<'a>,
    stepper: Stepper,
) -> Result<bool, AllocError>
    requires tree { IsTree (unit_tree functions.now) }
    requires well_typed { IsWellTyped (unit_tree functions.now) }
    requires range { AreInRange state.old.threads.items }
    requires live { IsLiveAt state.old stepper.thread stepper.place }
    ensures step { IfOk result (λ possible.
        TakesEntry (unit_tree functions.now) state.old (Step stepper.thread false) possible state.new) }
    ensures range { IfOk result (λ _. AreInRange state.new.threads.items) }
{
    if attempt_call_turn(alloc, functions, state, stepper)? {
        return Ok(true);
    }
    take_whole_turn(alloc, functions, state, stepper, false)
}

/// The same, whatever the step does.
#[inline(always)]
fn take_turn<'a>(
    alloc: Global,
    functions: &Functions<'a>,
    state: &mut State<'a>,
    stepper: Stepper,
    refused: bool,
) -> Result<bool, AllocError>
    requires tree { IsTree (unit_tree functions.now) }
    requires well_typed { IsWellTyped (unit_tree functions.now) }
    requires range { AreInRange state.old.threads.items }
    requires live { IsLiveAt state.old stepper.thread stepper.place }
    ensures step { IfOk result (λ possible.
        TakesEntry (unit_tree functions.now) state.old (Step stepper.thread refused) possible state.new) }
    ensures range { IfOk result (λ _. AreInRange state.new.threads.items) }
{
    if refused {
        return take_whole_turn(alloc, functions, state, stepper, true);
    }
    match attempt_turn(alloc, state, stepper.place)? {
        Attempt::Reduced => Ok(true),
        Attempt::Stuck => Ok(false),
        Attempt::Left => take_longer_turn(alloc, functions, state, stepper),
    }
}

/// Clears the weak references to these objects; false where they may not be cleared.
#[inline(never)]
fn take_clearing(
    alloc: Global,
    state: &mut State<'_>,
    names: &[ObjectId],
) -> Result<bool, AllocError>
    ensures step { IfOk result (λ possible. (unit : SourceUnit)
        → TakesEntry unit state.old (Clearing (names_of names.now)) possible state.new) }
    ensures threads { state.new.threads ≡ state.old.threads }
{
    if !may_clear(alloc, state, names)? {
        return Ok(false);
    }
    state.shared.statics.clear(names);
    Ok(true)
}

/// Takes an entry; false where it isn't possible.
#[inline(always)]
pub fn take_entry<'a>(
    alloc: Global,
    functions: &Functions<'a>,
    state: &mut State<'a>,
    entry: &Entry,
) -> Result<bool, AllocError>
    requires tree { IsTree (unit_tree functions.now) }
    requires well_typed { IsWellTyped (unit_tree functions.now) }
    requires range { AreInRange state.old.threads.items }
    ensures step { IfOk result (λ possible. TakesEntry (unit_tree functions.now) state.old entry.now possible state.new) }
    ensures range { IfOk result (λ _. AreInRange state.new.threads.items) }
{
    match entry.kind() {
        EntryKind::Step { thread, refused } => match place_of(state, *thread) {
            Some(place) => {
                let stepper = Stepper {
                    thread: *thread,
                    place,
                };
                take_turn(alloc, functions, state, stepper, *refused)
            }
            None => Ok(false),
        },
        EntryKind::Clearing(names) => take_clearing(alloc, state, names),
    }
}

/// Puts the statuses of the threads, in their order, into an empty list.
fn add_standings<'a>(
    standings: &mut Vec<ThreadStatus<'a>>,
    state: &State<'a>,
) -> Result<(), AllocError>
    requires { standings.old.items ≡ [] }
    ensures { IfOk result (λ _. AreStandings state.now (map standing_view standings.new.items)) }
{
    let classes = state.world.classes();
    let mut k = 0;
    for thread in &state.threads {
        k += 1;
        let waits = waits(state, k);
        standings.push(standing_of(classes, waits, state.stop, k, thread.ending))?;
    }
    Ok(())
}

/// The statuses of the threads.
pub fn standings_of<'a>(
    alloc: Global,
    state: &State<'a>,
) -> Result<Vec<ThreadStatus<'a>>, AllocError>
    ensures { IfOk result (λ standings. AreStandings state.now (map standing_view standings.items)) }
{
    let mut standings = Vec::new(alloc);
    add_standings(&mut standings, state)?;
    Ok(standings)
}
