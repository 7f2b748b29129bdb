//! The entry of a thread into its next call.

ghost use Rattle.std.specs.Prelude.{◌≡◌, ◌<◌, ◌∷◌, true, false, List, length, map, None, Some, IfOk, OnOk, OnErr, IsTrue};
ghost use Rattle.std.specs.List.{list_all};
ghost use Rattle.machine_scenes.specs.declared.activation.Activation.{Activation};
ghost use Rattle.machine_steps.specs.Pushed.{Enters, IsNext};
ghost use Rattle.machine_threads.specs.Entry.{Begins, IsReady};
ghost use Rattle.world_values.specs.CallArguments.{is_argument};
ghost use Rattle.world_values.specs.Views.{object_value_view};

use code_meaning::Program;
use heap::{Addr, Value};
use machine_threads::boxed_activation::BoxedActivation;
use machine_threads::entry::{begin, begin_again, entering_of, serves};
use machine_threads::thread::{Entering, PendingCall, Thread};
use std::alloc::{AllocError, Global};
use std::mem;

/// The entry into the next call: the one that the last caller has made, or else the first of the world's. It takes the memory of
/// a call that has ended where that serves, and else memory of the host.
#[inline(never)]
pub(crate) fn enter(
    program: &Program<'_>,
    loaded: &[Addr],
    thread: &mut Thread,
) -> Result<(), AllocError>
    requires some { thread.old.entering ≡ None → 0 < length thread.old.calls.items }
    requires given { (next : PendingCall) (rest : List PendingCall) → thread.old.calls.items ≡ next ∷ rest
        → IsTrue (list_all (is_argument (length loaded.now)) (map object_value_view next.arguments.items)) }
    requires ready { (rest : List PendingCall) (entering : Entering)
        → IsNext loaded.now thread.old.entering thread.old.calls.items rest entering → IsReady program.now (length loaded.now) entering }
    ensures calls { OnOk result (Enters program.now loaded.now thread.old thread.new) }
    ensures entering { OnOk result (thread.new.entering ≡ None) }
    ensures callers { OnOk result (thread.new.callers ≡ thread.old.callers) }
    ensures pending { OnOk result (thread.new.pending ≡ thread.old.pending) }
    ensures ending { OnOk result (thread.new.ending ≡ thread.old.ending) }
    ensures err { OnErr result (thread.new ≡ thread.old) }
{
    if enter_again(program, loaded, thread) {
        Ok(())
    } else {
        enter_anew(program, loaded, thread)
    }
}

/// The same in memory of the host.
fn enter_anew(program: &Program<'_>, loaded: &[Addr], thread: &mut Thread) -> Result<(), AllocError>
    requires some { thread.old.entering ≡ None → 0 < length thread.old.calls.items }
    requires given { (next : PendingCall) (rest : List PendingCall) → thread.old.calls.items ≡ next ∷ rest
        → IsTrue (list_all (is_argument (length loaded.now)) (map object_value_view next.arguments.items)) }
    requires ready { (rest : List PendingCall) (entering : Entering)
        → IsNext loaded.now thread.old.entering thread.old.calls.items rest entering → IsReady program.now (length loaded.now) entering }
    ensures calls { OnOk result (Enters program.now loaded.now thread.old thread.new) }
    ensures entering { OnOk result (thread.new.entering ≡ None) }
    ensures callers { OnOk result (thread.new.callers ≡ thread.old.callers) }
    ensures pending { OnOk result (thread.new.pending ≡ thread.old.pending) }
    ensures ending { OnOk result (thread.new.ending ≡ thread.old.ending) }
    ensures err { OnErr result (thread.new ≡ thread.old) }
{
    let alloc = *thread.calls.allocator();
    match &thread.entering {
        Some(entering) => {
            let activation = begin_call(alloc, program, loaded, entering)?;
            if let Some(entering) = thread.entering.take() {
                thread.spare_arguments = arguments_of(entering);
            }
            thread.call = Some(activation);
            Ok(())
        }
        None => {
            let next = thread.calls.front().unwrap();
            let entering = entering_of(alloc, loaded, next)?;
            let activation = begin_call(alloc, program, loaded, &entering)?;
            let _ = thread.calls.pop_front();
            thread.call = Some(activation);
            Ok(())
        }
    }
}

/// The entry into the call that the last caller has made, where there is one, and a call has ended whose memory serves; and whether it was
/// made. It takes no host memory.
#[inline(always)]
pub(crate) fn enter_again(program: &Program<'_>, loaded: &[Addr], thread: &mut Thread) -> bool
    requires { (entering : Entering) → thread.old.entering ≡ Some entering → IsReady program.now (length loaded.now) entering }
    ensures calls { result ≡ true → Enters program.now loaded.now thread.old thread.new }
    ensures entering { result ≡ true → thread.new.entering ≡ None }
    ensures callers { thread.new.callers ≡ thread.old.callers }
    ensures pending { thread.new.pending ≡ thread.old.pending }
    ensures ending { thread.new.ending ≡ thread.old.ending }
    ensures kept { result ≡ false → thread.new ≡ thread.old }
{
    match thread.entering.take() {
        Some(entering) => {
            if begin_in_spare(program, loaded, &mut thread.spare, &entering) {
                thread.spare_arguments = arguments_of(entering);
                mem::swap(&mut thread.call, &mut thread.spare);
                true
            } else {
                thread.entering = Some(entering);
                false
            }
        }
        None => false,
    }
}

/// What a call is given.
#[inline(always)]
fn arguments_of(entering: Entering) -> Vec<Value>
    ensures { result ≡ entering.arguments }
{
    let Entering {
        function: _,
        class: _,
        arguments,
    } = entering;
    arguments
}

/// Makes the call that has ended one before its first instruction, if there is one whose memory serves.
#[inline(always)]
fn begin_in_spare(
    program: &Program<'_>,
    loaded: &[Addr],
    spare: &mut Option<BoxedActivation>,
    entering: &Entering,
) -> bool
    requires { IsReady program.now (length loaded.now) entering.now }
    ensures begins { result ≡ true → (activation : Activation) × (spare.new ≡ Some activation)
        × Begins program.now loaded.now entering.now activation }
    ensures others { result ≡ false → spare.new ≡ spare.old }
{
    let code = program.code_at(entering.function);
    match spare {
        Some(ended) => {
            let ended = ended.get_mut();
            if !serves(ended, code) {
                return false;
            }
            begin_again(ended, code, loaded, entering);
            true
        }
        None => false,
    }
}

/// A call before its first instruction.
fn begin_call(
    alloc: Global,
    program: &Program<'_>,
    loaded: &[Addr],
    entering: &Entering,
) -> Result<BoxedActivation, AllocError>
    requires { IsReady program.now (length loaded.now) entering.now }
    ensures { IfOk result (λ activation. Begins program.now loaded.now entering.now activation) }
{
    let code = program.code_at(entering.function);
    let activation = begin(alloc, code, loaded, entering)?;
    let boxed = BoxedActivation::of(alloc, activation)?;
    Ok(boxed)
}
