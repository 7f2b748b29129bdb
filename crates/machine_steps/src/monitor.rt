//! Functions of monitors that no check stops (JNI Specification, chapter 4, "Monitor Operations").

ghost use Rattle.std.specs.Prelude.{◌≡◌, ◌⊎◌, ℕ, Bool, true, false, [], ◌∷◌, None, Some, length, slice_get, IfSome};
ghost use Rattle.base.specs.declared.element.ElementType.{ElementType};
ghost use Rattle.syntax.specs.Tree.{SourceUnit};
ghost use Rattle.class_rules.specs.Class.{Classes};
ghost use Rattle.code.specs.Call.{call_view};
ghost use Rattle.heap.specs.Heap.{name_at};
ghost use Rattle.machine_answers.specs.Asked.{references_of, scene_of};
ghost use Rattle.machine_answers.specs.Checked.{trap_found};
ghost use Rattle.machine_answers.specs.Answered.{IsAnswerTo};
ghost use Rattle.machine_scenes.specs.Given.{AreAddresses, held_in, operand_at};
ghost use Rattle.machine_scenes.specs.Locals.{address_of};
ghost use Rattle.machine_steps.specs.MonitorCalls.{Changes, MayChange, changes_monitor, is_of_monitors};

use code::instr::{Call, Operand};
use heap::Addr;
use jni::JniFunction;
use machine_answers::answer::Answer;
use machine_scenes::activation::Activation;
use machine_scenes::references::local_of;
use machine_scenes::store::Store;
use monitors::{Enter, Exit, Monitors, Object};
use tables::{Local, Locals};

/// What a call of a function of monitors answers where it is seen at once that no check stops it: no exception is pending, and
/// its argument is a local reference to an object. Whether its thread, which has this number, may enter or leave the
/// monitor isn't asked yet. None says nothing of the call.
#[inline(always)]
#[tactic(auto, using(machine_answers::proofs::MonitorsSeen::enters, machine_answers::proofs::MonitorsSeen::exits))]
pub(crate) fn answer_at_once(
    store: &Store,
    pending: Option<Addr>,
    activation: &Activation,
    call: &Call,
    thread: u8,
) -> Option<Answer>
    requires function { is_of_monitors call.now.function ≡ true }
    requires objects { AreAddresses store.now.heap (references_of store.now activation.now) call.now.operands.items }
    ensures free { IfSome result (λ answer. (unit : SourceUnit) (classes : Classes) (room : Bool) (wanted : ElementType)
        → trap_found (scene_of unit classes store.now activation.now thread pending) room wanted
        call.now.function call.now.operands.items ≡ None) }
    ensures works { IfSome result (λ answer. MayChange thread answer store.now.monitors
        → (unit : SourceUnit) (classes : Classes)
        → IsAnswerTo (scene_of unit classes store.now activation.now thread pending) (call_view call.now) answer) }
    ensures changes { IfSome result (λ answer. changes_monitor answer ≡ true) }
{
    match call.function {
        JniFunction::MonitorEnter => match object_at_once(store, pending, activation, call) {
            Some(object) => Some(Answer::Enters(object)),
            None => None,
        },
        JniFunction::MonitorExit => match object_at_once(store, pending, activation, call) {
            Some(object) => Some(Answer::Exits(object.name)),
            None => None,
        },
        _ => unreachable!(),
    }
}

/// The object of a call's only argument, where that is a local reference to one and no exception is pending.
#[inline(always)]
fn object_at_once(
    store: &Store,
    pending: Option<Addr>,
    activation: &Activation,
    call: &Call,
) -> Option<Object>
    requires objects { AreAddresses store.now.heap (references_of store.now activation.now) call.now.operands.items }
    ensures pending { IfSome result (λ object. pending ≡ None) }
    ensures only { IfSome result (λ object. (slot : ℕ) × (call.now.operands.items ≡ Operand.Local slot ∷ [])
        × (operand_at (references_of store.now activation.now) (Operand.Local slot) ≡ Some object.address)) }
    ensures named { IfSome result (λ object. name_at store.now.heap object.address ≡ Some object.name) }
{
    if pending.is_some() {
        return None;
    }
    match only_local(
        &activation.slots.references,
        &activation.locals,
        &call.operands,
    ) {
        Some(address) => {
            let name = store.heap.birth_of(address);
            Some(Object { name, address })
        }
        None => None,
    }
}

/// The address that the only operand gives, where it is a local reference.
#[inline(always)]
fn only_local(keys: &[Option<Local>], locals: &Locals, operands: &[Operand]) -> Option<Addr>
    ensures { IfSome result (λ a. (slot : ℕ) × (operands.now ≡ Operand.Local slot ∷ [])
        × (address_of locals.now (held_in (slice_get keys.now slot)) ≡ Some a)) }
{
    match operands {
        [Operand::Local(slot)] => local_of(keys, locals, *slot),
        _ => None,
    }
}

/// Whether a function enters or leaves a monitor.
#[inline(always)]
pub(crate) fn is_of_monitors(function: JniFunction) -> bool
    ensures { result ≡ is_of_monitors function }
{
    matches!(
        function,
        JniFunction::MonitorEnter | JniFunction::MonitorExit
    )
}

/// Enters or leaves a monitor, as an answer says, and answers whether it did so. Where the thread may not, or where host memory
/// for it was refused, all is as before.
#[inline(always)]
pub(crate) fn change_monitor(monitors: &mut Monitors, thread: u8, answer: Answer) -> bool
    requires changes { changes_monitor answer ≡ true }
    ensures may { result ≡ true → MayChange thread answer monitors.old }
    ensures changed { result ≡ true → Changes thread answer monitors.old monitors.new }
    ensures kept { result ≡ false → monitors.new ≡ monitors.old }
{
    match answer {
        Answer::Enters(object) => match monitors.enter(object, thread) {
            Ok(Enter::Entered) => true,
            Ok(_) => false,
            Err(_) => false,
        },
        Answer::Exits(name) => match monitors.exit(name, thread) {
            Exit::Left => true,
            Exit::NotOwner => false,
        },
        _ => unreachable!(),
    }
}

/// Whether a call of a function of monitors could wait for one: it enters one, while some monitor has an owner.
#[inline(always)]
pub(crate) fn could_wait(monitors: &Monitors, function: JniFunction) -> bool
    ensures { result ≡ false → (function ≡ JniFunction.MonitorEnter → ⊥) ⊎ (length monitors.now ≡ 0) }
{
    matches!(function, JniFunction::MonitorEnter) && monitors.len() > 0
}

/// Whether a function calls a method.
#[inline(always)]
pub(crate) fn is_of_methods(function: JniFunction) -> bool
    ensures { result ≡ true → function ≡ JniFunction.MonitorEnter → ⊥ }
{
    matches!(
        function,
        JniFunction::CallStaticVoidMethod
            | JniFunction::CallStaticIntMethod
            | JniFunction::CallStaticObjectMethod
    )
}
