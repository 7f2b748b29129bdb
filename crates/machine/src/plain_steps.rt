//! Steps of instructions that stay within their call and take no host memory, taken one after another.

ghost use Rattle.std.specs.Prelude.{◌≡◌, ◌+◌, ◌<◌, ◌≤◌, false, true, None};
ghost use Rattle.base.specs.Limits.{most_entries};
ghost use Rattle.semantics.specs.Journal.{steps_in};
ghost use Rattle.code_meaning.specs.Lowered.{IsLowered};
ghost use Rattle.machine_calls.specs.CallState.{state_of};
ghost use Rattle.machine_steps.specs.Advances.{StandsForSome, StepsFreely};
ghost use Rattle.machine.specs.PlainSteps.{CanGo, CanGoIn, Goes, GoesIn, IsLonger, moment_of};

use crate::journal::Journal;
use heap::Addr;
use machine_scenes::activation::Activation;
use machine_scenes::store::Store;
use machine_steps::advance::{AtOnce, advance_at_once, owner_at};
use machine_steps::change::{call_method, enter_at_once, return_to_caller};
use machine_steps::context::{CodeContext, StepContext};
use machine_threads::thread::Thread;
use semantics::{Event, Stop};

/// How steps are taken that a thread takes one after another.
#[derive(Clone, Copy)]
pub(crate) struct Turns<'s, 'a> {
    /// What each goes by.
    pub(crate) step: StepContext<'s, 'a>,
    /// How many there are at most.
    pub(crate) most: u32,
    /// Whether they stay within the call in progress: one step is faster so, where a call follows no other.
    pub(crate) stays: bool,
}

/// How steps are taken within a call, whose code is fetched once for all of them.
#[derive(Clone, Copy)]
struct CodeTurns<'s, 'a> {
    context: CodeContext<'s, 'a>,
    /// How many there are at most.
    most: u32,
}

/// How many steps a thread took one after another, and whether it is at an instruction of another kind then, with room for
/// another step.
#[derive(Clone, Copy)]
pub(crate) struct Ran {
    pub(crate) taken: u32,
    pub(crate) ready: bool,
}

/// What comes after steps that were taken.
#[derive(Clone, Copy)]
enum Next {
    /// No step that could be taken here: a trap was the last, or so many were taken.
    Stop,
    /// The entry into a call.
    Enter,
    /// A call of a method.
    Call,
    /// A return.
    Return,
    /// A step of another kind.
    Other,
}

/// How many steps a thread took one after another, and what comes then.
#[derive(Clone, Copy)]
struct Taken {
    count: u32,
    next: Next,
}

/// Takes steps of a thread as long as its next instruction works on the stack and the number slots alone, or reads beside
/// them whether a variable is NULL, or an element of a buffer, or calls a function of the JNI whose answer is seen at once, or a
/// method that no check stops, or returns to a caller, or the thread enters a call for which there is memory.
/// The thread has not ended, and is of a machine that no trap has stopped. The journal has room and memory for the most steps
/// that it is to take. The answer is how many it took. A trap is the last.
#[inline(always)]
pub(crate) fn take_plainly(
    turns: Turns<'_, '_>,
    store: &mut Store,
    thread: &mut Thread,
    stop: &mut Option<Stop>,
    journal: &mut Journal,
) -> Ran
    requires stands { CanGo turns.step (moment_of store.old thread.old stop.old journal.old) }
    requires goes { stop.old ≡ None }
    requires room { 0 < turns.most → steps_in journal.old.entries + turns.most ≤ most_entries }
    requires memory { turns.most ≤ journal.old.room }
    ensures most { result.taken ≤ turns.entry.most }
    ensures went { Goes turns.entry.step result.taken (moment_of store.old thread.old stop.old journal.old)
        (moment_of store.new thread.new stop.new journal.new) }
    ensures ready { result.ready ≡ true → (result.taken < turns.entry.most) × (stop.new ≡ None)
        × (thread.new.ending ≡ thread.old.ending) × (steps_in journal.new.entries < most_entries) }
{
    let mut taken = 0;
    while taken < turns.most {
        let left = Turns {
            most: turns.most - taken,
            ..turns
        };
        let ran = take_in_call(left, store, thread, stop, journal);
        taken += ran.count;
        match ran.next {
            Next::Stop => return Ran {
                taken,
                ready: false,
            },
            Next::Other => return Ran { taken, ready: true },
            _ => {
                if turns.stays {
                    return Ran { taken, ready: true };
                }
                if !change_call(turns.step, store, thread, ran.next) {
                    return Ran { taken, ready: true };
                }
                journal.push_step(turns.step.thread, false);
                taken += 1;
            }
        }
    }
    Ran {
        taken,
        ready: false,
    }
}

/// Takes a step of this kind that changes which call is in progress, where it is one that can be taken at once, and answers whether it did. Else all
/// is as before.
#[inline(always)]
fn change_call(
    context: StepContext<'_, '_>,
    store: &mut Store,
    thread: &mut Thread,
    next: Next,
) -> bool
    requires lowered { IsLowered context.program.now }
    requires stands { StandsForSome context.program.now context.world.now context.thread store.old thread.old }
    ensures steps { result ≡ true → StepsFreely context.entry.program.now context.entry.world.now context.entry.thread
        store.old store.new thread.old thread.new Event.Quiet }
    ensures store { result ≡ false → store.new ≡ store.old }
    ensures kept { result ≡ false → thread.new ≡ thread.old }
    ensures ending { thread.new.ending ≡ thread.old.ending }
{
    let program = context.program;
    let world = context.world;
    let number = context.thread;
    match next {
        Next::Enter => enter_at_once(program, world, store, thread, number),
        Next::Call => call_method(program, world, store, thread, number),
        Next::Return => return_to_caller(program, world, store, thread, number),
        Next::Stop | Next::Other => false,
    }
}

/// The same up to a step that changes which call is in progress.
#[inline(always)]
fn take_in_call(
    turns: Turns<'_, '_>,
    store: &mut Store,
    thread: &mut Thread,
    stop: &mut Option<Stop>,
    journal: &mut Journal,
) -> Taken
    requires stands { CanGo turns.step (moment_of store.old thread.old stop.old journal.old) }
    requires goes { stop.old ≡ None }
    requires some { 0 < turns.most }
    requires room { steps_in journal.old.entries + turns.most ≤ most_entries }
    requires memory { turns.most ≤ journal.old.room }
    ensures most { result.count ≤ turns.entry.most }
    ensures went { Goes turns.entry.step result.count (moment_of store.old thread.old stop.old journal.old)
        (moment_of store.new thread.new stop.new journal.new) }
    ensures next { (result.next ≡ Next.Stop → ⊥) → (result.count < turns.entry.most) × (stop.new ≡ None) }
    ensures ending { thread.new.ending ≡ thread.old.ending }
    ensures noted { IsLonger journal.old journal.new result.count }
{
    let owner = owner_at(turns.step.thread, thread.callers.len());
    match &mut thread.call {
        None => Taken {
            count: 0,
            next: Next::Enter,
        },
        Some(activation) => {
            let activation = activation.get_mut();
            let code = turns.step.program.code_at(activation.function);
            let context = CodeContext {
                step: turns.step,
                code,
                owner,
            };
            let within = CodeTurns {
                context,
                most: turns.most,
            };
            take_in_code(
                within,
                store,
                &mut thread.pending,
                activation,
                stop,
                journal,
            )
        }
    }
}

/// The same of the call in progress of the thread: none of these steps enters a call or leaves one.
#[inline(always)]
fn take_in_code(
    turns: CodeTurns<'_, '_>,
    store: &mut Store,
    pending: &mut Option<Addr>,
    activation: &mut Activation,
    stop: &mut Option<Stop>,
    journal: &mut Journal,
) -> Taken
    requires stands { CanGoIn turns.context (state_of store.old pending.old activation.old) journal.old }
    requires goes { stop.old ≡ None }
    requires room { steps_in journal.old.entries + turns.most ≤ most_entries }
    requires memory { turns.most ≤ journal.old.room }
    ensures most { result.count ≤ turns.entry.most }
    ensures went { GoesIn turns.entry.context result.count (state_of store.old pending.old activation.old)
        (state_of store.new pending.new activation.new) stop.new journal.old journal.new }
    ensures next { (result.next ≡ Next.Stop → ⊥) → (result.count < turns.entry.most) × (stop.new ≡ None) }
    ensures noted { IsLonger journal.old journal.new result.count }
{
    let thread = turns.context.step.thread;
    for taken in 0..turns.most {
        match advance_at_once(turns.context, store, pending, activation) {
            AtOnce::Other => {
                return Taken {
                    count: taken,
                    next: Next::Other,
                };
            }
            AtOnce::Calls => {
                return Taken {
                    count: taken,
                    next: Next::Call,
                };
            }
            AtOnce::Returns => {
                return Taken {
                    count: taken,
                    next: Next::Return,
                };
            }
            AtOnce::Did(Event::Quiet) => journal.push_step(thread, false),
            AtOnce::Did(Event::Trapped { trap, line }) => {
                journal.push_step(thread, false);
                *stop = Some(Stop { thread, trap, line });
                return Taken {
                    count: taken + 1,
                    next: Next::Stop,
                };
            }
            AtOnce::Did(Event::PrintedNumber(_)) => unreachable!(),
        }
    }
    Taken {
        count: turns.most,
        next: Next::Stop,
    }
}
