//! Calls of functions of the JNI (JNI Specification, chapter 4).

ghost use Rattle.std.specs.Prelude.{◌≡◌, ◌⊎◌, ℕ, Bool, ◌+◌, ◌<◌, ◌^◌, ◌||◌, nat_le, false, true, Option, Some, Ok, slice_get, length, IfOk, IfErr, IfSome, OnOk, OnErr};
ghost use Rattle.code.specs.Call.{IsPrepared};
ghost use Rattle.heap.specs.Heap.{left_of};
ghost use Rattle.machine_calls.specs.Barrier.{IsNoted, written_by};
ghost use Rattle.machine_calls.specs.CarriedOut.{takes_memory};
ghost use Rattle.machine_calls.specs.Made.{cells_of};
ghost use Rattle.machine_scenes.specs.Given.{method_at, operand_of};
ghost use Rattle.machine_scenes.specs.NewObjects.{texts_in};
ghost use Rattle.machine_answers.specs.Answers.{is_carried};
ghost use Rattle.machine_calls.specs.CallState.{IsAsBefore, state_of};
ghost use Rattle.machine_steps.specs.Received.{told_slot};
ghost use Rattle.machine_steps.specs.MonitorCalls.{MayChange, changes_monitor, is_of_monitors};
ghost use Rattle.machine_threads.specs.Callers.{owner_at};
ghost use Rattle.machine_steps.specs.Invoked.{called_from, is_halt, DoesCall, DoesItsCall, Invokes, IsAnsweredIn, IsAtCall, IsStoppedIn, MayCall, StandsAtCall, done_or_refused};

use crate::context::{CallContext, StepContext};
use crate::fault::StepFault;
use crate::monitor::{answer_at_once, change_monitor, could_wait, is_of_monitors};
use crate::receive::{Destination, receive, receive_number};
use crate::scene::scene_of;
use base::limits::MOST_ACTIVATIONS;
use classes::table::ClassTable;
use code::instr::{Call, Operand};
use code_meaning::Program;
use heap::{Addr, Heap};
use jni::JniFunction;
use machine_answers::answer::{Answer, Given, work_out};
use machine_answers::at_once::{
    Write, deleted_at_once, method_at_once, number_at_once, reference_at_once, write_at_once,
};
use machine_answers::check::check;
use machine_calls::carry_out::{Calling, carry_out, has_room};
use machine_scenes::activation::Activation;
use machine_scenes::handle::MethodHandle;
use machine_scenes::store::Store;
use semantics::Trap;
use std::alloc::AllocError;
use tables::Local;
use world_values::World;

/// What a call of a function of the JNI came to.
#[derive(Clone, Copy)]
pub enum Invoked {
    Done,
    /// Its allocation was refused.
    Refused,
    Trapped(Trap),
    /// It calls a method, and no check stops it. Nothing has changed.
    Calls,
}

/// The instruction that calls a function.
/// Only a new frame, a new global reference, a copy of elements and a monitor that is entered take host memory. Where
/// what is made has no room, the call is refused if it may be, and else the fault says so. A call that only enters or
/// leaves a monitor takes a shorter path, and so does one whose answer is seen at once.
#[inline(always)]
pub fn invoke(
    context: CallContext<'_, '_>,
    store: &mut Store,
    pending: &mut Option<Addr>,
    activation: &mut Activation,
) -> Result<Invoked, StepFault>
    requires may { MayCall context (state_of store.old pending.old activation.old) }
    ensures { Invokes context.entry (state_of store.old pending.old activation.old)
        (state_of store.new pending.new activation.new) result }
{
    if is_of_monitors(context.call.function) {
        if change_at_once(
            context.step.program,
            context.step.world,
            store,
            *pending,
            activation,
            context.call,
            context.step.thread,
        ) {
            Ok(Invoked::Done)
        } else {
            invoke_apart(&context, store, pending, activation)
        }
    } else {
        invoke_apart(&context, store, pending, activation)
    }
}

/// The instruction that calls a function, where that doesn't enter or leave a monitor at once.
/// Each kind of answer that is seen at once is finished by itself, so none is handed on as one of many kinds. This stands
/// apart from the loop over steps, which is faster without its variables.
#[inline(never)]
fn invoke_apart(
    context: &CallContext<'_, '_>,
    store: &mut Store,
    pending: &mut Option<Addr>,
    activation: &mut Activation,
) -> Result<Invoked, StepFault>
    requires may { MayCall context.now (state_of store.old pending.old activation.old) }
    ensures { Invokes context.now (state_of store.old pending.old activation.old)
        (state_of store.new pending.new activation.new) result }
{
    match context.call.function {
        JniFunction::GetField(_)
        | JniFunction::GetStaticField(_)
        | JniFunction::GetArrayLength
        | JniFunction::IsSameObject
        | JniFunction::ExceptionCheck => {
            if let Some(word) = number_seen(
                context.step,
                store,
                *pending,
                activation,
                context.call,
            ) {
                let answer = Answer::Gives(Given::Number(word));
                return finish_seen(*context, store, pending, activation, answer);
            }
        }
        JniFunction::NewLocalRef
        | JniFunction::GetObjectField
        | JniFunction::GetStaticObjectField
        | JniFunction::GetObjectArrayElement
        | JniFunction::ExceptionOccurred => {
            if let Some(reference) = reference_seen(
                context.step,
                store,
                *pending,
                activation,
                context.call,
            ) {
                let answer = Answer::Gives(Given::Reference(reference));
                return finish_seen(*context, store, pending, activation, answer);
            }
        }
        JniFunction::SetField(_)
        | JniFunction::SetObjectField
        | JniFunction::SetStaticField(_)
        | JniFunction::SetStaticObjectField => {
            if let Some(write) = write_seen(
                context.step,
                store,
                *pending,
                activation,
                context.call,
            ) {
                let answer = Answer::Writes {
                    object: write.object,
                    place: write.place,
                    value: write.value,
                };
                return finish_seen(*context, store, pending, activation, answer);
            }
        }
        JniFunction::DeleteLocalRef => {
            if let Some(key) = deleted_seen(
                context.step,
                store,
                *pending,
                activation,
                context.call,
            ) {
                let answer = Answer::Deletes(key);
                return finish_seen(*context, store, pending, activation, answer);
            }
        }
        _ => {}
    }
    invoke_checked(context, store, pending, activation)
}

/// Makes a call whose answer is seen at once, which no check stops, and answers whether it did: where it doesn't, or could wait for a monitor, all
/// is as before. It stands apart from the loop over steps, which is faster without its variables.
#[inline(never)]
pub(crate) fn call_at_once(
    program: &Program<'_>,
    world: &World,
    store: &mut Store,
    pending: &mut Option<Addr>,
    activation: &mut Activation,
    call: &Call,
    thread: u8,
    owner: u16,
) -> bool
    requires at_call { (call.now.function ≡ JniFunction.MonitorEnter → ⊥) ⊎ (length store.old.monitors ≡ 0)
        → StandsAtCall program.now world.now thread owner (state_of store.old pending.old activation.old) call.now }
    requires place { activation.old.place + 1 < 2 ^ 64 }
    requires few { store.old.births + 2 < 2 ^ 32 }
    requires prepared { IsPrepared call.now }
    ensures free { result ≡ true → (call.now.function ≡ JniFunction.MonitorEnter → ⊥) ⊎ (length store.old.monitors ≡ 0) }
    ensures done { result ≡ true → DoesCall program.now world.now thread owner (state_of store.old pending.old activation.old)
        (state_of store.new pending.new activation.new) call.now Invoked.Done }
    ensures kept { result ≡ false → IsAsBefore (state_of store.old pending.old activation.old)
        (state_of store.new pending.new activation.new) }
    ensures function { activation.new.function ≡ activation.old.function }
{
    if could_wait(&store.monitors, call.function) {
        return false;
    }
    if is_of_monitors(call.function) {
        return change_at_once(program, world, store, *pending, activation, call, thread);
    }
    let step = StepContext {
        program,
        world,
        thread,
        may_refuse: false,
    };
    let context = CallContext { step, call, owner };
    call_seen(context, store, pending, activation)
}

/// Makes a call that enters and leaves no monitor, likewise.
#[inline(always)]
fn call_seen(
    context: CallContext<'_, '_>,
    store: &mut Store,
    pending: &mut Option<Addr>,
    activation: &mut Activation,
) -> bool
    requires may { MayCall context (state_of store.old pending.old activation.old) }
    ensures done { result ≡ true → DoesItsCall context.entry (state_of store.old pending.old activation.old)
        (state_of store.new pending.new activation.new) Invoked.Done }
    ensures kept { result ≡ false → IsAsBefore (state_of store.old pending.old activation.old)
        (state_of store.new pending.new activation.new) }
    ensures function { activation.new.function ≡ activation.old.function }
{
    match context.call.function {
        JniFunction::GetField(_)
        | JniFunction::GetStaticField(_)
        | JniFunction::GetArrayLength
        | JniFunction::IsSameObject
        | JniFunction::ExceptionCheck => match number_seen(
            context.step,
            store,
            *pending,
            activation,
            context.call,
        ) {
            Some(word) => {
                let answer = Answer::Gives(Given::Number(word));
                finish_at_once(context, store, pending, activation, answer)
            }
            None => false,
        },
        JniFunction::NewLocalRef
        | JniFunction::GetObjectField
        | JniFunction::GetStaticObjectField
        | JniFunction::GetObjectArrayElement
        | JniFunction::ExceptionOccurred => match reference_seen(
            context.step,
            store,
            *pending,
            activation,
            context.call,
        ) {
            Some(reference) => {
                let answer = Answer::Gives(Given::Reference(reference));
                finish_at_once(context, store, pending, activation, answer)
            }
            None => false,
        },
        JniFunction::SetField(_)
        | JniFunction::SetObjectField
        | JniFunction::SetStaticField(_)
        | JniFunction::SetStaticObjectField => match write_seen(
            context.step,
            store,
            *pending,
            activation,
            context.call,
        ) {
            Some(write) => {
                let answer = Answer::Writes {
                    object: write.object,
                    place: write.place,
                    value: write.value,
                };
                finish_at_once(context, store, pending, activation, answer)
            }
            None => false,
        },
        JniFunction::DeleteLocalRef => match deleted_seen(
            context.step,
            store,
            *pending,
            activation,
            context.call,
        ) {
            Some(key) => {
                let answer = Answer::Deletes(key);
                finish_at_once(context, store, pending, activation, answer)
            }
            None => false,
        },
        _ => false,
    }
}

/// The number that a call gives, where that is seen at once, and that no check stops it.
#[inline(always)]
fn number_seen(
    context: StepContext<'_, '_>,
    store: &Store,
    pending: Option<Addr>,
    activation: &Activation,
    call: &Call,
) -> Option<u32>
    requires at_call { IsAtCall context (state_of store.now pending activation.now) call.now }
    ensures { IfSome result (λ x. IsAnsweredIn context.entry (state_of store.now pending activation.now) call.now (Answer.Gives (Given.Number x))) }
{
    let scene = scene_of(context, store, pending, activation);
    number_at_once(&scene, call)
}

/// The reference that a call gives, likewise.
#[inline(always)]
fn reference_seen(
    context: StepContext<'_, '_>,
    store: &Store,
    pending: Option<Addr>,
    activation: &Activation,
    call: &Call,
) -> Option<Option<Addr>>
    requires at_call { IsAtCall context (state_of store.now pending activation.now) call.now }
    ensures { IfSome result (λ x. IsAnsweredIn context.entry (state_of store.now pending activation.now) call.now (Answer.Gives (Given.Reference x))) }
{
    let scene = scene_of(context, store, pending, activation);
    reference_at_once(&scene, &activation.locals, call)
}

/// The change that a call makes, likewise.
#[inline(always)]
fn write_seen(
    context: StepContext<'_, '_>,
    store: &Store,
    pending: Option<Addr>,
    activation: &Activation,
    call: &Call,
) -> Option<Write>
    requires at_call { IsAtCall context (state_of store.now pending activation.now) call.now }
    ensures { IfSome result (λ x. IsAnsweredIn context.entry (state_of store.now pending activation.now) call.now (Answer.Writes x.object x.place x.value)) }
{
    let scene = scene_of(context, store, pending, activation);
    write_at_once(&scene, call)
}

/// The key of the local reference that a call ends, likewise.
#[inline(always)]
fn deleted_seen(
    context: StepContext<'_, '_>,
    store: &Store,
    pending: Option<Addr>,
    activation: &Activation,
    call: &Call,
) -> Option<Local>
    requires at_call { IsAtCall context (state_of store.now pending activation.now) call.now }
    ensures { IfSome result (λ x. IsAnsweredIn context.entry (state_of store.now pending activation.now) call.now (Answer.Deletes x)) }
{
    let scene = scene_of(context, store, pending, activation);
    deleted_at_once(&scene, call)
}

/// The method that a call calls, where it is seen at once that no check but that of how deep calls are stops it.
#[inline(always)]
pub(crate) fn method_seen(
    context: StepContext<'_, '_>,
    store: &Store,
    pending: Option<Addr>,
    activation: &Activation,
    call: &Call,
) -> Option<MethodHandle>
    requires at_call { IsAtCall context (state_of store.now pending activation.now) call.now }
    ensures answered { IfSome result (λ method. IsAnsweredIn context.entry (state_of store.now pending activation.now) call.now Answer.Calls) }
    ensures method { IfSome result (λ method. method_at activation.now.slots.fields.items (operand_of call.now.operands.items 1) ≡ Some method) }
{
    let scene = scene_of(context, store, pending, activation);
    method_at_once(&scene, &activation.locals, call)
}

/// Enters or leaves a monitor, as a call asks, and answers whether it did so: where it is seen at
/// once that no check stops it, and the thread may. Else all is as before, also where host memory was refused, for which the
/// call asks again then.
/// This stands apart from the loop over steps: it has few variables, so none of them goes through memory.
#[inline(never)]
fn change_at_once(
    program: &Program<'_>,
    world: &World,
    store: &mut Store,
    pending: Option<Addr>,
    activation: &mut Activation,
    call: &Call,
    thread: u8,
) -> bool
    requires at_call { (owner : ℕ) × StandsAtCall program.now world.now thread owner (state_of store.old pending activation.old) call.now }
    requires place { activation.old.place + 1 < 2 ^ 64 }
    requires function { is_of_monitors call.now.function ≡ true }
    ensures done { result ≡ true → (owner : ℕ) → DoesCall program.now world.now thread owner (state_of store.old pending activation.old)
        (state_of store.new pending activation.new) call.now Invoked.Done }
    ensures kept { result ≡ false → (store.new ≡ store.old) × (activation.new ≡ activation.old) }
    ensures function { activation.new.function ≡ activation.old.function }
{
    let context = StepContext {
        program,
        world,
        thread,
        may_refuse: false,
    };
    match unchecked_answer(context, store, pending, activation, call) {
        Some(answer) => finish_monitor(context, store, activation, call, answer),
        None => false,
    }
}

/// What a call of a function of monitors answers where it is seen at once that no check stops it. Whether its thread may
/// enter or leave the monitor isn't asked yet. None says nothing of the call.
#[inline(always)]
fn unchecked_answer(
    context: StepContext<'_, '_>,
    store: &Store,
    pending: Option<Addr>,
    activation: &Activation,
    call: &Call,
) -> Option<Answer>
    requires at_call { IsAtCall context (state_of store.now pending activation.now) call.now }
    requires function { is_of_monitors call.now.function ≡ true }
    ensures answer { IfSome result (λ answer. MayChange context.entry.thread answer store.now.monitors
        → IsAnsweredIn context.entry (state_of store.now pending activation.now) call.now answer) }
    ensures changes { IfSome result (λ answer. changes_monitor answer ≡ true) }
{
    // Here the proof takes up what is known of a world.
    let _ = context.world.classes();
    answer_at_once(store, pending, activation, call, context.thread)
}

/// The instruction that calls a function, after all checks.
#[inline(never)]
fn invoke_checked(
    context: &CallContext<'_, '_>,
    store: &mut Store,
    pending: &mut Option<Addr>,
    activation: &mut Activation,
) -> Result<Invoked, StepFault>
    requires may { MayCall context.now (state_of store.old pending.old activation.old) }
    ensures { Invokes context.now (state_of store.old pending.old activation.old)
        (state_of store.new pending.new activation.new) result }
{
    match answer_or_trap(context.step, store, *pending, activation, context.call) {
        Ok(answer) => {
            if is_carried(&answer) {
                if goes_ahead(
                    context.step.world.classes(),
                    &context.call.texts,
                    &store.heap,
                    &answer,
                    context.step.may_refuse,
                ) {
                    Ok(finish(*context, store, pending, activation, answer)?)
                } else {
                    Err(StepFault::NoRoom)
                }
            } else {
                Ok(called_at(context.step.thread, context.owner))
            }
        }
        Err(trap) => Ok(Invoked::Trapped(trap)),
    }
}

/// Whether an answer is carried out: it calls no method, and doesn't stop the machine.
#[inline(always)]
fn is_carried(answer: &Answer) -> bool
    ensures { result ≡ is_carried answer.now }
{
    !matches!(answer, Answer::Calls | Answer::Halts(_))
}

/// What a call of a method comes to, of which only its depth is to be checked yet: a thread has at most 64 calls that are made
/// from one another. The owner of what a call copies tells how many are below it.
#[inline(always)]
fn called_at(thread: u8, owner: u16) -> Invoked
    requires { (below : ℕ) × (owner ≡ owner_at thread below) }
    ensures { (below : ℕ) → owner ≡ owner_at thread below → result ≡ called_from below }
{
    let eight_below = owner - thread as u16;
    if eight_below < 8 * (MOST_ACTIVATIONS as u16 - 1) {
        Invoked::Calls
    } else {
        Invoked::Trapped(Trap::CallsTooDeep)
    }
}

/// Whether an answer is carried out: it may be refused, or what it makes has room.
#[inline(always)]
fn goes_ahead(
    classes: &ClassTable,
    texts: &[Vec<u8>],
    heap: &Heap,
    answer: &Answer,
    may_refuse: bool,
) -> bool
    ensures { result ≡ (may_refuse || nat_le (cells_of classes.now (texts_in texts.now) answer.now) (left_of heap.now)) }
{
    may_refuse || has_room(classes, texts, heap, answer)
}

/// What a call answers, or the trap that stops it.
#[inline(always)]
fn answer_or_trap(
    context: StepContext<'_, '_>,
    store: &Store,
    pending: Option<Addr>,
    activation: &Activation,
    call: &Call,
) -> Result<Answer, Trap>
    requires at_call { IsAtCall context (state_of store.now pending activation.now) call.now }
    requires prepared { IsPrepared call.now }
    ensures answer { IfOk result (IsAnsweredIn context.entry (state_of store.now pending activation.now) call.now) }
    ensures runs { IfOk result (λ answer. is_halt answer ≡ false) }
    ensures trap { IfErr result (IsStoppedIn context.entry (state_of store.now pending activation.now) call.now) }
{
    let scene = scene_of(context, store, pending, activation);
    match check(&scene, &activation.locals, call) {
        Some(trap) => Err(trap),
        None => running(work_out(&scene, call)),
    }
}

/// An answer that doesn't stop the machine, or the trap that does.
#[inline(always)]
fn running(answer: Answer) -> Result<Answer, Trap>
    ensures answer { IfOk result (λ same. same ≡ answer) }
    ensures runs { IfOk result (λ same. is_halt same ≡ false) }
    ensures trap { IfErr result (λ trap. answer ≡ Answer.Halts trap) }
{
    match answer {
        Answer::Halts(trap) => Err(trap),
        _ => Ok(answer),
    }
}

/// Does what a call answers, and puts what it gives where it goes.
#[inline(always)]
fn finish(
    context: CallContext<'_, '_>,
    store: &mut Store,
    pending: &mut Option<Addr>,
    activation: &mut Activation,
    answer: Answer,
) -> Result<Invoked, AllocError>
    requires may { MayCall context (state_of store.old pending.old activation.old) }
    requires answered { IsAnsweredIn context.step (state_of store.old pending.old activation.old) context.call.now answer }
    requires runs { is_carried answer ≡ true }
    ensures done { IfOk result (DoesItsCall context.entry (state_of store.old pending.old activation.old)
        (state_of store.new pending.new activation.new)) }
    ensures barrier { OnOk result (IsNoted (written_by answer) store.old.heap store.new.heap) }
    ensures refused { result ≡ Ok Invoked.Refused
        → left_of store.old.heap < cells_of context.entry.step.world.now.classes (texts_in context.entry.call.now.texts.items) answer }
    ensures memory { OnErr result (takes_memory answer ≡ true) }
    ensures kept { OnErr result (IsAsBefore (state_of store.old pending.old activation.old)
        (state_of store.new pending.new activation.new)) }
    ensures function { activation.new.function ≡ activation.old.function }
    ensures ended { IfOk result (λ done. (refused : Bool) × (done ≡ done_or_refused refused)) }
{
    let calling = Calling {
        world: context.step.world,
        call: context.call,
        thread: context.step.thread,
        owner: context.owner,
    };
    let call = context.call;
    match carry_out(calling, store, pending, activation, answer) {
        Ok(carried) => {
            // Here the proof takes up what is known of a table.
            let _ = activation.locals.frames();
            let to = Destination {
                target: call.target,
                kind: call.result,
                told: told_slot(call),
            };
            receive(activation, &mut store.statics, to, &carried.given);
            Ok(done_or_refused(carried.refused))
        }
        Err(fault) => Err(fault),
    }
}

/// Does what a call answers that makes nothing, and puts what it gives where it goes.
#[inline(always)]
fn finish_seen(
    context: CallContext<'_, '_>,
    store: &mut Store,
    pending: &mut Option<Addr>,
    activation: &mut Activation,
    answer: Answer,
) -> Result<Invoked, StepFault>
    requires may { MayCall context (state_of store.old pending.old activation.old) }
    requires answered { IsAnsweredIn context.step (state_of store.old pending.old activation.old) context.call.now answer }
    requires runs { is_carried answer ≡ true }
    requires makes { cells_of context.step.world.now.classes (texts_in context.call.now.texts.items) answer ≡ 0 }
    ensures { Invokes context.entry (state_of store.old pending.old activation.old)
        (state_of store.new pending.new activation.new) result }
{
    Ok(finish(context, store, pending, activation, answer)?)
}

/// The same of an answer that takes no host memory, and whether it did so. Else all is as before.
#[inline(always)]
fn finish_at_once(
    context: CallContext<'_, '_>,
    store: &mut Store,
    pending: &mut Option<Addr>,
    activation: &mut Activation,
    answer: Answer,
) -> bool
    requires may { MayCall context (state_of store.old pending.old activation.old) }
    requires answered { IsAnsweredIn context.step (state_of store.old pending.old activation.old) context.call.now answer }
    requires runs { is_carried answer ≡ true }
    requires makes { cells_of context.step.world.now.classes (texts_in context.call.now.texts.items) answer ≡ 0 }
    ensures done { result ≡ true → DoesItsCall context.entry (state_of store.old pending.old activation.old)
        (state_of store.new pending.new activation.new) Invoked.Done }
    ensures kept { result ≡ false → IsAsBefore (state_of store.old pending.old activation.old)
        (state_of store.new pending.new activation.new) }
    ensures function { activation.new.function ≡ activation.old.function }
{
    match finish(context, store, pending, activation, answer) {
        Ok(invoked) => match invoked {
            Invoked::Done => true,
            _ => unreachable!(),
        },
        Err(_) => false,
    }
}

/// Enters or leaves a monitor, as a call answers, puts 0 where it goes, and answers whether it did so: where the thread may not, or
/// where host memory for it was refused, all is as it was.
#[inline(always)]
fn finish_monitor(
    context: StepContext<'_, '_>,
    store: &mut Store,
    activation: &mut Activation,
    call: &Call,
    answer: Answer,
) -> bool
    requires at_call { (pending : Option ℕ) × (owner : ℕ)
        × StandsAtCall context.program.now context.world.now context.thread owner (state_of store.old pending activation.old) call.now }
    requires place { activation.old.place + 1 < 2 ^ 64 }
    requires changes { changes_monitor answer ≡ true }
    ensures done { result ≡ true → (pending : Option ℕ) (owner : ℕ)
        → (MayChange context.entry.thread answer store.old.monitors
        → IsAnsweredIn context.entry (state_of store.old pending activation.old) call.now answer)
        → DoesCall context.entry.program.now context.entry.world.now context.entry.thread owner
        (state_of store.old pending activation.old) (state_of store.new pending activation.new) call.now Invoked.Done }
    ensures kept { result ≡ false → (store.new ≡ store.old) × (activation.new ≡ activation.old) }
    ensures function { activation.new.function ≡ activation.old.function }
{
    if !change_monitor(&mut store.monitors, context.thread, answer) {
        return false;
    }
    // Here the proof takes up what is known of a table.
    let _ = activation.locals.frames();
    receive_number(activation, &call.target, 0);
    true
}

/// The slot of the flag that is given for `isCopy`, if there is one.
fn told_slot(call: &Call) -> Option<u32>
    ensures { result ≡ told_slot (slice_get call.now.operands.items 1) }
{
    match call.operands.get(1) {
        Some(Operand::IsCopy(slot)) => Some(*slot),
        _ => None,
    }
}

/// What a call came to that wasn't stopped.
#[inline(always)]
fn done_or_refused(refused: bool) -> Invoked
    ensures { result ≡ done_or_refused refused }
{
    if refused {
        Invoked::Refused
    } else {
        Invoked::Done
    }
}
