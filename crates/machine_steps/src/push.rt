//! A call of a method, which leaves the call in progress to the callers (JNI Specification, chapter 4, "Calling Static
//! Methods").

ghost use Rattle.std.specs.Prelude.{◌≡◌, ℕ, ◌<◌, ◌≤◌, Some, IsSome, length, OnOk, OnErr, vec_len, vec_capacity};
ghost use Rattle.code_meaning.specs.Lowered.{IsLowered};
ghost use Rattle.machine_scenes.specs.declared.activation.Activation.{Activation};
ghost use Rattle.machine_steps.specs.Pushed.{MakesCall, Pushes, PushesMethod};

use code::instr::{Call, Instr, Operand};
use code_meaning::Program;
use heap::Value;
use machine_answers::passed::pass;
use machine_scenes::handle::MethodHandle;
use machine_scenes::operands::{method_in, operand_of};
use machine_scenes::store::Store;
use machine_threads::boxed_activation::BoxedActivation;
use machine_threads::thread::{Entering, Thread};
use std::alloc::{AllocError, Global};
use std::mem;
use world_values::World;

/// Leaves the call in progress to the callers, and has the method that it calls as the one to be entered next.
#[inline(never)]
pub(crate) fn push(
    program: &Program<'_>,
    world: &World,
    store: &Store,
    thread: &mut Thread,
) -> Result<(), AllocError>
    requires lowered { IsLowered program.now }
    requires few { length thread.old.callers.items < 63 }
    requires calling { (activation : Activation) × (thread.old.call ≡ Some activation) × MakesCall program.now world.now store.now activation }
    ensures pushes { OnOk result ((activation : Activation) → thread.old.call ≡ Some activation
        → Pushes program.now world.now store.now activation thread.old thread.new) }
    ensures err { OnErr result (thread.new ≡ thread.old) }
{
    // The proof reads off this call that no object has as many elements as a `jint` can say.
    let _ = store.heap.cells();
    // Here the proof takes up what is known of a world.
    let _ = world.classes();
    match &thread.call {
        Some(activation) => {
            let activation = activation.get();
            let code = program.code_at(activation.function);
            match code.instr_at(activation.place) {
                Instr::Call(boxed) => {
                    let call = boxed.call();
                    let method = method_in(
                        &activation.slots.fields,
                        operand_of(&call.operands, 1),
                    ).unwrap();
                    push_method(store, thread, call, method)
                }
                _ => unreachable!(),
            }
        }
        None => unreachable!(),
    }
}

/// Leaves the call in progress to the callers, and has this method as the one to be entered next, with what this call passes to it. Host memory
/// is taken before anything changes.
#[inline(always)]
pub(crate) fn push_method(
    store: &Store,
    thread: &mut Thread,
    call: &Call,
    method: MethodHandle,
) -> Result<(), AllocError>
    requires few { length thread.old.callers.items < 63 }
    requires active { IsSome thread.old.call }
    ensures pushes { OnOk result ((activation : Activation) → thread.old.call ≡ Some activation
        → PushesMethod store.now activation call.now method thread.old thread.new) }
    ensures err { OnErr result (thread.new ≡ thread.old) }
{
    let alloc = *thread.calls.allocator();
    let operands: &[Operand] = &call.operands;
    have_memory(
        alloc,
        operands.len(),
        &mut thread.spare_arguments,
        &mut thread.callers,
    )?;
    match thread.call.take() {
        Some(caller) => {
            let spare = mem::replace(&mut thread.spare_arguments, Vec::new(alloc));
            let arguments = pass(spare, store, caller.get(), operands);
            thread.callers.push_reserved(caller);
            thread.entering = Some(Entering {
                function: method.function,
                class: method.declarer,
                arguments,
            });
            Ok(())
        }
        None => unreachable!(),
    }
}

/// Room for this many arguments in the spare vector, and for one caller more; mostly it is there.
#[inline(always)]
fn have_memory(
    alloc: Global,
    count: usize,
    spare: &mut Vec<Value>,
    callers: &mut Vec<BoxedActivation>,
) -> Result<(), AllocError>
    requires few { length callers.old.items < 63 }
    ensures arguments { OnOk result (count ≤ vec_capacity spare.new) }
    ensures items { callers.new.items ≡ callers.old.items }
    ensures room { OnOk result (vec_len callers.new < vec_capacity callers.new) }
    ensures callers { OnErr result (callers.new ≡ callers.old) }
    ensures spare { OnErr result (spare.new ≡ spare.old) }
{
    if count <= spare.capacity() && callers.len() < callers.capacity() {
        return Ok(());
    }
    take_memory(alloc, count, spare, callers)
}

/// The same where host memory is to be taken for one of them. It stands apart from calls that need none.
#[inline(never)]
fn take_memory(
    alloc: Global,
    count: usize,
    spare: &mut Vec<Value>,
    callers: &mut Vec<BoxedActivation>,
) -> Result<(), AllocError>
    requires few { length callers.old.items < 63 }
    ensures arguments { OnOk result (count ≤ vec_capacity spare.new) }
    ensures items { callers.new.items ≡ callers.old.items }
    ensures room { OnOk result (vec_len callers.new < vec_capacity callers.new) }
    ensures callers { OnErr result (callers.new ≡ callers.old) }
    ensures spare { OnErr result (spare.new ≡ spare.old) }
{
    if count <= spare.capacity() {
        return make_room(alloc, callers);
    }
    let arguments = Vec::with_capacity(alloc, count)?;
    make_room(alloc, callers)?;
    *spare = arguments;
    Ok(())
}

/// Room for one caller more. Where there is none, the callers move to where there is; an error leaves them where they are.
fn make_room(alloc: Global, callers: &mut Vec<BoxedActivation>) -> Result<(), AllocError>
    requires few { length callers.old.items < 63 }
    ensures items { callers.new.items ≡ callers.old.items }
    ensures room { OnOk result (vec_len callers.new < vec_capacity callers.new) }
    ensures err { OnErr result (callers.new ≡ callers.old) }
{
    if callers.len() < callers.capacity() {
        return Ok(());
    }
    let mut more = Vec::with_capacity(alloc, 2 * callers.len() + 2)?;
    more.append(callers).unwrap();
    *callers = more;
    Ok(())
}
