//! A step of the machine, and what it is made of.

ghost use Rattle.std.specs.Prelude.{◌≡◌, ◌+◌, ◌<◌, ◌≤◌, ◌^◌, [], ◌∷◌, ◌++◌, length, slice_get, IfOk, OnOk, OnErr, IsSome, is_some, vec_len, vec_capacity};
ghost use Rattle.semantics.specs.EventViews.{printed_after, stop_after};
ghost use Rattle.semantics.specs.Step.{is_unfinished};
ghost use Rattle.semantics.specs.Journal.{Step};
ghost use Rattle.machine.specs.Run.{replay_of, CanAdvance, StepsAndNotes, step_state, IsReady, CouldStep, TurnHolds, LacksRoom, event_of, is_refused, turn_after, turn_at_rest};

use crate::journal::Journal;
use crate::machine::Machine;
use crate::turn::Turn;
use code_meaning::Program;
use machine_collections::collecting::collect_blocks;
use machine_scenes::store::Store;
use machine_steps::advance::{Advanced, advance};
use machine_steps::context::StepContext;
use machine_steps::fault::StepFault;
use machine_threads::thread::Thread;
use semantics::{Event, Printed, Stop};
use std::alloc::{AllocError, Global};
use world_values::World;

/// What the turn of a thread goes by.
#[derive(Clone, Copy)]
struct TurnContext<'s, 'a> {
    /// What a collection takes its memory from.
    alloc: Global,
    program: &'s Program<'a>,
    world: &'s World,
    /// The thread's number, from 1.
    thread: u8,
    /// Its place among the threads.
    index: usize,
}

impl Machine<'_> {
    /// Lets thread `k` take one step, where it isn't at rest and the journal isn't full: a trap hasn't stopped the machine,
    /// and the thread hasn't ended.
    #[inline(always)]
    pub(crate) fn step_ready(&mut self, k: u8) -> Result<Turn, AllocError>
        requires counted { 0 < k }
        requires is_thread { k ≤ length self.old.world.threads }
        requires ready { IsReady self.old k }
        ensures turn { IfOk result (TurnHolds self.old k self.new) }
        ensures err { OnErr result ((self.new ≡ self.old) × CouldStep self.old k) }
        ensures runs { IsSome (replay_of self.new) }
    {
        if self.waits(k) {
            return Ok(Turn::Blocked(self.finished()));
        }
        self.step_now(k)
    }

    /// The step of thread `k`, which can take one.
    #[inline(always)]
    pub(crate) fn step_now(&mut self, k: u8) -> Result<Turn, AllocError>
        requires counted { 0 < k }
        requires is_thread { k ≤ length self.old.world.threads }
        requires could { CouldStep self.old k }
        ensures turn { IfOk result (TurnHolds self.old k self.new) }
        ensures err { OnErr result ((self.new ≡ self.old) × CouldStep self.old k) }
        ensures runs { IsSome (replay_of self.new) }
    {
        make_room(&mut self.printed, &mut self.journal)?;
        let context = TurnContext {
            alloc: self.alloc,
            program: &self.program,
            world: &self.world,
            thread: k,
            index: usize::from(k) - 1,
        };
        let advanced = advance_or_collect(
            context,
            &mut self.store,
            &mut self.threads,
            &mut self.journal,
        )?;
        Ok(write_step(
            &mut self.printed,
            &mut self.stop,
            &mut self.journal,
            k,
            advanced,
        ))
    }
}

/// The turn of a thread that has no step to take: a trap has stopped the machine, or the thread has ended.
#[inline(always)]
pub(crate) fn turn_at_rest(stop: &Option<Stop>, thread: &Thread) -> Option<Turn>
    ensures { result ≡ turn_at_rest (is_some stop.now) (is_unfinished thread.now.ending) }
{
    if stop.is_some() {
        Some(Turn::Stopped)
    } else if thread.ending.is_unfinished() {
        None
    } else {
        Some(Turn::Ended)
    }
}

/// Makes room for a number and an entry more.
#[inline(always)]
fn make_room(printed: &mut Vec<Printed>, journal: &mut Journal) -> Result<(), AllocError>
    ensures printed { printed.new.items ≡ printed.old.items }
    ensures journal { journal.new.entries ≡ journal.old.entries }
    ensures printed_room { OnOk result (vec_len printed.new < vec_capacity printed.new) }
    ensures journal_room { OnOk result (0 < journal.new.room) }
{
    journal.reserve()?;
    printed.reserve(1)
}

/// Takes one step of a thread, which has not ended, and doesn't wait.
/// Where what it makes has no room, which a step is asked for before anything has changed, there is a collection, one
/// for all objects of the step, and then the allocation is refused where it has none still. Only a step that makes
/// nothing takes host memory, so after the collection nothing can fail.
#[inline(always)]
fn advance_or_collect(
    context: TurnContext<'_, '_>,
    store: &mut Store,
    threads: &mut [Thread],
    journal: &mut Journal,
) -> Result<Advanced, AllocError>
    requires few { store.old.births + 2 < 2 ^ 32 }
    requires number { context.thread ≡ context.index + 1 }
    requires room { 0 < journal.old.room }
    requires stands { CanAdvance context.program.now context.world.now store.old threads.old context.index }
    ensures advances { IfOk result (StepsAndNotes context.entry.program.now context.entry.world.now context.entry.index
        (step_state store.old threads.old journal.old) (step_state store.new threads.new journal.new)) }
    ensures store { OnErr result (store.new ≡ store.old) }
    ensures threads { OnErr result (threads.new ≡ threads.old) }
    ensures journal { OnErr result (journal.new.entries ≡ journal.old.entries) }
{
    let TurnContext {
        alloc,
        program,
        world,
        thread: k,
        index,
    } = context;
    let first = StepContext {
        program,
        world,
        thread: k,
        may_refuse: false,
    };
    match advance(first, store, &mut threads[index]) {
        Ok(advanced) => Ok(advanced),
        Err(StepFault::Memory) => Err(AllocError),
        Err(StepFault::NoRoom) => {
            collect_and_advance(alloc, program, world, store, threads, journal, index, k)
        }
    }
}

/// The step of thread `k` that found no room, after a collection, whose clearing is written down. It makes objects, so it
/// takes no host memory, and a clearing changes nothing of that.
#[inline(never)]
fn collect_and_advance(
    alloc: Global,
    program: &Program<'_>,
    world: &World,
    store: &mut Store,
    threads: &mut [Thread],
    journal: &mut Journal,
    index: usize,
    k: u8,
) -> Result<Advanced, AllocError>
    requires few { store.old.births + 2 < 2 ^ 32 }
    requires number { k ≡ index + 1 }
    requires stands { CanAdvance program.now world.now store.old threads.old index }
    requires lacks { (t : Thread) → slice_get threads.old index ≡ Some t
        → LacksRoom program.now world.now k store.old t }
    ensures advances { IfOk result (StepsAndNotes program.now world.now index (step_state store.old threads.old journal.old)
        (step_state store.new threads.new journal.new)) }
    ensures store { OnErr result (store.new ≡ store.old) }
    ensures threads { OnErr result (threads.new ≡ threads.old) }
    ensures journal { OnErr result (journal.new.entries ≡ journal.old.entries) }
{
    journal.reserve_clearing()?;
    let cleared = collect_blocks(alloc, store, threads)?;
    journal.push_clearing(cleared);
    let again = StepContext {
        program,
        world,
        thread: k,
        may_refuse: true,
    };
    match advance(again, store, &mut threads[index]) {
        Ok(advanced) => Ok(advanced),
        Err(_) => unreachable!(),
    }
}

/// Writes down what thread `k` did, and tells the turn.
#[inline(always)]
fn write_step(
    printed: &mut Vec<Printed>,
    stop: &mut Option<Stop>,
    journal: &mut Journal,
    k: u8,
    advanced: Advanced,
) -> Turn
    requires printed { vec_len printed.old < vec_capacity printed.old }
    requires journal { 0 < journal.old.room }
    ensures printed { printed.new.items ≡ printed_after printed.old.items k (event_of advanced) }
    ensures stop { stop.new ≡ stop_after stop.old k (event_of advanced) }
    ensures journal { journal.new.entries ≡ journal.old.entries ++ Step k (is_refused advanced) ∷ [] }
    ensures turn { result ≡ turn_after advanced }
{
    match advanced {
        Advanced::Did(event) => {
            note(printed, stop, k, event);
            journal.push_step(k, false);
            Turn::Stepped
        }
        Advanced::Refused => {
            journal.push_step(k, true);
            Turn::Short
        }
    }
}

/// Writes down what a step lets others see.
fn note(printed: &mut Vec<Printed>, stop: &mut Option<Stop>, k: u8, event: Event)
    requires { vec_len printed.old < vec_capacity printed.old }
    ensures printed { printed.new.items ≡ printed_after printed.old.items k event }
    ensures stop { stop.new ≡ stop_after stop.old k event }
{
    match event {
        Event::Quiet => {}
        Event::PrintedNumber(number) => printed.push_reserved(Printed { thread: k, number }),
        Event::Trapped { trap, line } => {
            *stop = Some(Stop {
                thread: k,
                trap,
                line,
            });
        }
    }
}
