//! A step of a thread.

ghost use Rattle.std.specs.Prelude.{◌≡◌, ℕ, ◌+◌, ◌<◌, ◌≤◌, ◌^◌, true, Some, None, [], ◌∷◌, ◌++◌, List, length, Ok, IfOk, IfErr, OnErr};
ghost use Rattle.std.specs.Option.{option_and_then};
ghost use Rattle.heap.specs.Heap.{IsAddress, class_at};
ghost use Rattle.code_meaning.specs.Lowered.{IsLowered};
ghost use Rattle.machine_calls.specs.CallState.{IsAsBefore, state_of};
ghost use Rattle.machine_steps.specs.Advances.{IfDid, IsHinderedStep, LeavesMonitors, MayStep, StandsInCall, StepsInCall, TakesStep, UnlessDid, calls_after, ending_after, ends_with};
ghost use Rattle.machine_threads.specs.Callers.{owner_at};
ghost use Rattle.machine_steps.specs.Moved.{IsSilent};
ghost use Rattle.machine_steps.specs.Resumed.{HasCalled, Resumes};
ghost use Rattle.machine_steps.specs.Returned.{given_back};

use crate::buffer_elements::load_element;
use crate::context::{CodeContext, StepContext};
use crate::enter::enter;
use crate::execute::{Executed, ReturnValue, execute, run_plain, test_null};
use crate::fault::StepFault;
use crate::invoke::call_at_once;
use crate::monitor::is_of_methods;
use crate::push::push;
use crate::receive::{Destination, receive, receive_word};
use code::instr::Instr;
use code_meaning::Program;
use heap::{Addr, Heap};
use jni::ResultKind;
use machine_answers::answer::Given;
use machine_scenes::activation::Activation;
use machine_scenes::operands::class_there;
use machine_scenes::store::Store;
use machine_threads::thread::Thread;
use semantics::{Ending, Event};
use std::mem;

/// What a step of a thread was.
#[derive(Clone, Copy)]
pub enum Advanced {
    Did(Event),
    /// The allocation of its call was refused.
    Refused,
}

/// What was done at once.
#[derive(Clone, Copy)]
pub enum AtOnce {
    /// A step, of which this is seen.
    Did(Event),
    /// Nothing: the instruction calls a method.
    Calls,
    /// Nothing: it returns.
    Returns,
    /// Nothing: it is an instruction of another kind.
    Other,
}

/// Takes one step of a thread, which has not ended and doesn't wait for a monitor.
/// Only the entry into a call, a call of a method, a new frame, a new global reference, a copy of elements and a monitor
/// that is entered take host memory.
///
/// Where the step's objects have no room, its allocation is refused if it may be. Else `NoRoom` says so, before
/// anything has changed: room can be made then, and the same step asked for again. It takes no host memory.
#[inline(always)]
pub fn advance(
    context: StepContext<'_, '_>,
    store: &mut Store,
    thread: &mut Thread,
) -> Result<Advanced, StepFault>
    requires lowered { IsLowered context.program.now }
    requires few { store.old.births + 2 < 2 ^ 32 }
    requires agrees { MayStep context store.old thread.old }
    ensures advances { IfOk result (TakesStep context.entry store.old store.new thread.old thread.new) }
    ensures hindered { IfErr result (IsHinderedStep context.entry store.old thread.old) }
    ensures refuses { result ≡ Ok Advanced.Refused → context.entry.may_refuse ≡ true }
    ensures store { OnErr result (store.new ≡ store.old) }
    ensures thread { OnErr result (thread.new ≡ thread.old) }
{
    let owner = owner_at(context.thread, thread.callers.len());
    match &mut thread.call {
        None => {
            enter(context.program, &store.loaded, thread)?;
            Ok(Advanced::Did(Event::Quiet))
        }
        Some(activation) => match execute(
            context,
            owner,
            store,
            &mut thread.pending,
            activation.get_mut(),
        ) {
            Ok(Executed::Did(Event::Quiet)) => Ok(Advanced::Did(Event::Quiet)),
            Ok(Executed::Did(event)) => Ok(Advanced::Did(event)),
            Ok(Executed::Refused) => Ok(Advanced::Refused),
            Ok(Executed::Calls) => {
                push(context.program, context.world, store, thread)?;
                Ok(Advanced::Did(Event::Quiet))
            }
            Ok(Executed::Returned(value)) => {
                if thread.callers.is_empty() {
                    leave(store, thread, context.thread);
                    return Ok(Advanced::Did(Event::Quiet));
                }
                resume(context.program, store, thread, value);
                Ok(Advanced::Did(Event::Quiet))
            }
            Err(fault) => Err(fault),
        },
    }
}

/// The owner of what a call of this thread copies, where so many calls are below it.
#[inline(always)]
pub fn owner_at(thread: u8, below: usize) -> u16
    requires { below ≤ 63 }
    ensures { result ≡ owner_at thread below }
{
    thread as u16 + 8 * below as u16
}

/// Takes one step of a call in progress, if its next instruction works on the stack and the number slots alone, or reads beside them whether a
/// variable is NULL, or an element of a buffer, or calls a function of the JNI whose answer is seen at once. Else all is as it was,
/// and nothing is said of the step but whether its instruction calls a method or returns. Only a monitor that is entered takes host memory.
#[inline(always)]
pub fn advance_at_once(
    context: CodeContext<'_, '_>,
    store: &mut Store,
    pending: &mut Option<Addr>,
    activation: &mut Activation,
) -> AtOnce
    requires few { store.old.births + 2 < 2 ^ 32 }
    requires stands { StandsInCall context (state_of store.old pending.old activation.old) }
    ensures advances { IfDid result (StepsInCall context.entry (state_of store.old pending.old activation.old)
        (state_of store.new pending.new activation.new)) }
    ensures silent { IfDid result IsSilent }
    ensures kept { UnlessDid result (IsAsBefore (state_of store.old pending.old activation.old)
        (state_of store.new pending.new activation.new)) }
    ensures function { activation.new.function ≡ activation.old.function }
{
    // The proof reads off this call that no object has as many elements as a `jint` can say.
    let _ = store.heap.cells();
    let instr = context.code.instr_at(activation.place);
    match instr {
        Instr::TestNull { variable, equal } => {
            test_null(store, activation, *variable, *equal);
            AtOnce::Did(Event::Quiet)
        }
        Instr::LoadBuffer { slot, line } => {
            AtOnce::Did(load_element(store, activation, *slot, *line))
        }
        Instr::Call(boxed) => {
            let call = boxed.call();
            if is_of_methods(call.function) {
                AtOnce::Calls
            } else if call_at_once(
                context.step.program,
                context.step.world,
                store,
                pending,
                activation,
                call,
                context.step.thread,
                context.owner,
            ) {
                AtOnce::Did(Event::Quiet)
            } else {
                AtOnce::Other
            }
        }
        Instr::Return | Instr::ReturnJint | Instr::ReturnReference(_) => AtOnce::Returns,
        Instr::StoreNull(_) | Instr::StoreBuffer { .. } | Instr::PutJint => AtOnce::Other,
        _ => AtOnce::Did(run_plain(instr, activation)),
    }
}

/// Goes on with the last caller of a thread, where the call that it made gives this. The call that has ended is kept, for its memory. It
/// takes no host memory.
#[inline(always)]
pub(crate) fn resume(
    program: &Program<'_>,
    store: &mut Store,
    thread: &mut Thread,
    value: ReturnValue,
)
    requires lowered { IsLowered program.now }
    requires some { 0 < length thread.old.callers.items }
    requires called { (below : List Activation) (caller : Activation)
        → thread.old.callers.items ≡ below ++ caller ∷ [] → HasCalled program.now store.old caller }
    ensures { (below : List Activation) (caller : Activation) → thread.old.callers.items ≡ below ++ caller ∷ []
        → Resumes program.now value caller below store.old store.new thread.old thread.new }
{
    // The proof reads off this call that no object has as many elements as a `jint` can say.
    let _ = store.heap.cells();
    mem::swap(&mut thread.call, &mut thread.spare);
    thread.call = thread.callers.pop();
    match &mut thread.call {
        Some(caller) => {
            let caller = caller.get_mut();
            // Here the proof takes up what is known of a table.
            let _ = caller.locals.frames();
            let code = program.code_at(caller.function);
            match code.instr_at(caller.place) {
                Instr::Call(boxed) => {
                    let call = boxed.call();
                    match (thread.pending, call.result, value) {
                        (None, ResultKind::GivesInt, ReturnValue::Number(word)) => {
                            receive_word(caller, &call.target, word)
                        }
                        _ => {
                            let given = given_back(thread.pending, call.result, value);
                            let to = Destination {
                                target: call.target,
                                kind: call.result,
                                told: None,
                            };
                            receive(caller, &mut store.statics, to, &given)
                        }
                    }
                }
                _ => unreachable!(),
            }
        }
        None => unreachable!(),
    }
}

/// What a caller that wants a result of this kind is given, with this exception pending or none.
fn given_back(pending: Option<Addr>, kind: ResultKind, value: ReturnValue) -> Given
    ensures { result ≡ given_back pending kind value }
{
    match (pending, kind, value) {
        (None, ResultKind::NewLocal, ReturnValue::Reference(addr)) => Given::Reference(addr),
        (None, ResultKind::GivesInt, ReturnValue::Number(word)) => Given::Number(word),
        (_, ResultKind::NewLocal, _) => Given::Reference(None),
        (_, ResultKind::GivesInt, _) => Given::Number(0),
        _ => Given::Nothing,
    }
}

/// The end of a call of the thread of this number. A thread that has ended owns no monitor.
#[inline(never)]
fn leave(store: &mut Store, thread: &mut Thread, number: u8)
    requires { (a : ℕ) → thread.old.pending ≡ Some a → IsAddress store.old.heap a }
    ensures call { thread.new.call ≡ None }
    ensures entering { thread.new.entering ≡ thread.old.entering }
    ensures callers { thread.new.callers ≡ thread.old.callers }
    ensures pending { thread.new.pending ≡ None }
    ensures calls { thread.new.calls.items
        ≡ calls_after (option_and_then (class_at store.old.heap) thread.old.pending) thread.old.calls.items }
    ensures ending { thread.new.ending ≡ ending_after (option_and_then (class_at store.old.heap) thread.old.pending)
        thread.old.calls.items thread.old.ending }
    ensures monitors { LeavesMonitors
        (ends_with (option_and_then (class_at store.old.heap) thread.old.pending) thread.old.calls.items)
        number store.old store.new }
{
    if ends(&store.heap, thread) {
        store.monitors.drop_thread(number);
    }
}

/// Ends a call, and answers whether the thread has ended. A pending exception ends it, and drops its other calls.
fn ends(heap: &Heap, thread: &mut Thread) -> bool
    requires { (a : ℕ) → thread.old.pending ≡ Some a → IsAddress heap.now a }
    ensures call { thread.new.call ≡ None }
    ensures entering { thread.new.entering ≡ thread.old.entering }
    ensures callers { thread.new.callers ≡ thread.old.callers }
    ensures pending { thread.new.pending ≡ None }
    ensures calls { thread.new.calls.items
        ≡ calls_after (option_and_then (class_at heap.now) thread.old.pending) thread.old.calls.items }
    ensures ending { thread.new.ending ≡ ending_after (option_and_then (class_at heap.now) thread.old.pending)
        thread.old.calls.items thread.old.ending }
    ensures ended { result ≡ ends_with (option_and_then (class_at heap.now) thread.old.pending) thread.old.calls.items }
{
    thread.call = None;
    match thread.pending {
        Some(exception) => {
            thread.pending = None;
            thread.calls.clear();
            thread.ending = Ending::Uncaught(class_there(heap, exception));
            true
        }
        None => {
            let last = thread.calls.is_empty();
            if last {
                thread.ending = Ending::Ended;
            }
            last
        }
    }
}
