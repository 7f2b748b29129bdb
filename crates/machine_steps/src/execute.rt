//! An instruction of a call in progress.

ghost use Rattle.std.specs.Prelude.{◌≡◌, ℕ, ◌+◌, ◌<◌, ◌^◌, ◌∷◌, true, Option, Some, IsSome, Ok, List, length, IfOk, IfErr, OnErr};
ghost use Rattle.std.specs.Bool.{beq};
ghost use Rattle.code.specs.Depth.{depth_after};
ghost use Rattle.code.specs.Effect.{plain_of, truth_word};
ghost use Rattle.code_meaning.specs.Lowered.{IsLowered};
ghost use Rattle.machine_answers.specs.Asked.{references_of};
ghost use Rattle.machine_calls.specs.CallState.{IsAsBefore, state_of};
ghost use Rattle.machine_steps.specs.Executes.{DoesFirstTask, IsHinderedExecuting, StandsExecuting};
ghost use Rattle.machine_steps.specs.Invoked.{executed_as};
ghost use Rattle.machine_steps.specs.Returned.{given_by, returned_at};
ghost use Rattle.machine_steps.specs.Moved.{HasMoved, IsReachable, MovesPlainly};
ghost use Rattle.machine_threads.specs.SlotsHold.{values_in};
ghost use Rattle.machine_steps.specs.Variables.{is_null, HasSlot, nulled_slots, nulled_statics};

use crate::buffer_elements::{load_element, store_element};
use crate::context::{CallContext, StepContext};
use crate::fault::StepFault;
use crate::invoke::{Invoked, invoke};
use crate::variable::{is_null, set_null};
use code::instr::{Instr, NullableVariable, Plain, ReferenceOperand};
use code::plain::plain;
use heap::Addr;
use machine_calls::trap::trap_of;
use machine_scenes::activation::Activation;
use machine_scenes::references::{References, local_of};
use machine_scenes::statics::StaticReference;
use machine_scenes::store::Store;
use semantics::Event;

/// What a call returns: nothing, a number, or a reference by its object's address, which is none for NULL.
#[derive(Clone, Copy)]
pub enum ReturnValue {
    Nothing,
    Number(u32),
    Reference(Option<Addr>),
}

/// What an instruction did.
#[derive(Clone, Copy)]
pub enum Executed {
    Did(Event),
    /// A call's allocation was refused.
    Refused,
    /// The call returned, and gives this.
    Returned(ReturnValue),
    /// It is a call of a method, which no check stops. Nothing has changed.
    Calls,
}

/// One instruction of the call in progress.
/// Where what it makes has no room, it is refused if it may be, and else the fault says so.
#[inline(always)]
pub fn execute(
    context: StepContext<'_, '_>,
    owner: u16,
    store: &mut Store,
    pending: &mut Option<Addr>,
    activation: &mut Activation,
) -> Result<Executed, StepFault>
    requires lowered { IsLowered context.program.now }
    requires few { store.old.births + 2 < 2 ^ 32 }
    requires stands { StandsExecuting context owner (state_of store.old pending.old activation.old) }
    ensures done { IfOk result (DoesFirstTask context.entry owner (state_of store.old pending.old activation.old)
        (state_of store.new pending.new activation.new)) }
    ensures hindered { IfErr result (IsHinderedExecuting context.entry owner (state_of store.old pending.old activation.old)) }
    ensures refuses { result ≡ Ok Executed.Refused → context.entry.may_refuse ≡ true }
    ensures calls { IfOk result (λ done. done ≡ Executed.Calls
        → IsAsBefore (state_of store.old pending.old activation.old) (state_of store.new pending.new activation.new)) }
    ensures kept { OnErr result (IsAsBefore (state_of store.old pending.old activation.old)
        (state_of store.new pending.new activation.new)) }
{
    // The proof reads off this call that no object has as many elements as a `jint` can say.
    let _ = store.heap.cells();
    let code = context.program.code_at(activation.function);
    let instr = code.instr_at(activation.place);
    match instr {
        Instr::TestNull { variable, equal } => {
            test_null(store, activation, *variable, *equal);
            Ok(Executed::Did(Event::Quiet))
        }
        Instr::StoreNull(variable) => {
            store_null(&mut store.statics, activation, *variable);
            Ok(Executed::Did(Event::Quiet))
        }
        Instr::LoadBuffer { slot, line } => {
            Ok(Executed::Did(load_element(store, activation, *slot, *line)))
        }
        Instr::StoreBuffer {
            element,
            slot,
            line,
        } => Ok(Executed::Did(store_element(store, activation, *element, *slot, *line))),
        Instr::PutJint => {
            let word = activation.stack.pop();
            activation.place += 1;
            Ok(Executed::Did(Event::PrintedNumber(word.cast_signed())))
        }
        Instr::Call(boxed) => {
            let call = boxed.call();
            let at_call = CallContext {
                step: context,
                call,
                owner,
            };
            match invoke(at_call, store, pending, activation) {
                Ok(Invoked::Done) => Ok(Executed::Did(Event::Quiet)),
                Ok(invoked) => Ok(outcome_of(call.line, invoked)),
                Err(fault) => Err(fault),
            }
        }
        Instr::Return | Instr::ReturnJint | Instr::ReturnReference(_) => {
            Ok(Executed::Returned(given_by(instr, activation)))
        }
        _ => Ok(Executed::Did(run_plain(instr, activation))),
    }
}

/// What an instruction gives that leaves a function (6.8.6.4): the topmost word, a reference, or nothing.
#[inline(always)]
pub(crate) fn given_by(instr: &Instr, activation: &Activation) -> ReturnValue
    requires room { IsSome (depth_after instr.now (length activation.now.stack)) }
    ensures { result ≡ given_by instr.now activation.now }
{
    match instr {
        Instr::ReturnJint => ReturnValue::Number(activation.stack.top()),
        Instr::ReturnReference(operand) => {
            ReturnValue::Reference(returned_at(activation, *operand))
        }
        _ => ReturnValue::Nothing,
    }
}

/// The address of what a return names; none of NULL.
#[inline(always)]
fn returned_at(activation: &Activation, operand: ReferenceOperand) -> Option<Addr>
    ensures { result ≡ returned_at activation.now operand }
{
    match operand {
        ReferenceOperand::Null => None,
        ReferenceOperand::Local(slot) => {
            local_of(&activation.slots.references, &activation.locals, slot)
        }
    }
}

/// What the instruction of a call on this line did, by what the call came to.
/// A step knows its outcome by cases then, where one from memory would have to be read again.
#[inline(always)]
fn outcome_of(line: u32, invoked: Invoked) -> Executed
    ensures { result ≡ executed_as line invoked }
{
    match invoked {
        Invoked::Done => Executed::Did(Event::Quiet),
        Invoked::Refused => Executed::Refused,
        Invoked::Calls => Executed::Calls,
        Invoked::Trapped(trap) => Executed::Did(Event::Trapped {
            trap,
            line: line as usize,
        }),
    }
}

/// Puts the truth whether a variable is NULL, or isn't, onto the stack.
#[inline(always)]
pub(crate) fn test_null(
    store: &Store,
    activation: &mut Activation,
    variable: NullableVariable,
    equal: bool,
)
    requires room { length activation.old.stack < 64 }
    requires place { activation.old.place + 1 < 2 ^ 64 }
    ensures { HasMoved activation.old activation.new (activation.old.place + 1)
        (truth_word (beq (is_null (references_of store.now activation.old) activation.old.slots.fields.items
        activation.old.slots.buffers.items variable) equal) ∷ activation.old.stack)
        (values_in activation.old) }
{
    let references = References::new(
        &activation.slots.references,
        &activation.locals,
        &store.statics,
        &store.globals,
        &store.weaks,
    );
    let null = is_null(
        &references,
        &activation.slots.fields,
        &activation.slots.buffers,
        variable,
    );
    activation.stack.push(u32::from(null == equal));
    activation.place += 1;
}

/// Makes a variable NULL.
#[inline(always)]
fn store_null(
    statics: &mut [StaticReference],
    activation: &mut Activation,
    variable: NullableVariable,
)
    requires slot { HasSlot (length activation.old.slots.references.items) (length activation.old.slots.fields.items)
        (length activation.old.slots.buffers.items) (length statics.old) variable }
    requires place { activation.old.place + 1 < 2 ^ 64 }
    ensures activation { HasMoved activation.old activation.new (activation.old.place + 1) activation.old.stack
        (nulled_slots variable (values_in activation.old)) }
    ensures statics { statics.new ≡ nulled_statics variable statics.old }
{
    set_null(
        &mut activation.slots.references,
        &mut activation.slots.fields,
        &mut activation.slots.buffers,
        statics,
        variable,
    );
    activation.place += 1;
}

/// An instruction on the stack and the number slots alone.
#[inline(always)]
pub(crate) fn run_plain(instr: &Instr, activation: &mut Activation) -> Event
    requires operands { IsSome (plain_of instr.now activation.old.stack activation.old.slots.numbers.items) }
    requires room { IsSome (depth_after instr.now (length activation.old.stack)) }
    requires leads { (path : Plain) (stack numbers : List ℕ)
        → plain_of instr.now activation.old.stack activation.old.slots.numbers.items ≡ Some (path, stack, numbers)
        → IsReachable activation.old.place path }
    ensures { MovesPlainly instr.now activation.old activation.new result }
{
    match plain(instr, &mut activation.stack, &mut activation.slots.numbers) {
        Plain::Next => {
            activation.place += 1;
            Event::Quiet
        }
        Plain::Skip(skipped) => {
            activation.place += 1 + skipped as usize;
            Event::Quiet
        }
        Plain::Back(back) => {
            activation.place -= back as usize;
            Event::Quiet
        }
        Plain::Trap(trap, line) => Event::Trapped {
            trap: trap_of(trap),
            line: line as usize,
        },
    }
}
