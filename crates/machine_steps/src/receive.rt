//! Stores a call's result where its target says.

ghost use Rattle.std.specs.Prelude.{◌≡◌, ℕ, Option, ◌<◌, ◌^◌, ◌+◌, [], length};
ghost use Rattle.std.specs.Option.{option_map};
ghost use Rattle.base.specs.declared.element.ElementType.{ElementType};
ghost use Rattle.jni.specs.declared.kinds.ResultKind.{ResultKind as SourceKind};
ghost use Rattle.machine_steps.specs.Received.{HasTarget, HasTold, HasRoom, MakesLocal, Receives, stack_with, numbers_with, told_with, fields_with, buffers_with, statics_with, HasStatic};

use classes::class::FieldHandle;
use code::instr::Target;
use code::stack::Stack;
use jni::ResultKind;
use machine_answers::answer::Given;
use machine_scenes::activation::Activation;
use machine_scenes::buffer::Buffer;
use machine_scenes::handle::{Handle, MethodHandle};
use machine_scenes::statics::StaticReference;
use tables::{Local, Locals};

/// Where what a function gives goes.
#[derive(Clone, Copy)]
pub struct Destination {
    pub target: Target,
    /// The function's kind of result: a new local reference is put into the current frame too.
    pub kind: ResultKind,
    /// The slot of the flag, if there is one, that tells a buffer that is a copy from a view (JNI Specification, chapter 4,
    /// "Get<PrimitiveType>ArrayElements Routines").
    pub told: Option<u32>,
}

/// Puts what a function gives where it goes, and goes on after the instruction. The flag is put into its slot before. It takes no host memory.
#[inline(always)]
pub fn receive(
    activation: &mut Activation,
    statics: &mut [StaticReference],
    to: Destination,
    given: &Given,
)
    requires place { activation.old.place + 1 < 2 ^ 64 }
    requires target { HasTarget to.target activation.old }
    requires told { HasTold to.told (length activation.old.slots.numbers.items) }
    requires static_target { HasStatic to.target (length statics.old) }
    requires room { HasRoom to.kind activation.old.locals }
    ensures activation { Receives to.target to.kind to.told given.now activation.old activation.new }
    ensures statics { statics.new ≡ statics_with to.target given.now statics.old }
{
    activation.stack.clear();
    activation.place += 1;
    let key = make_local(&mut activation.locals, to.kind, given);
    tell_copy(&mut activation.slots.numbers, to.told, given);
    match to.target {
        Target::Dropped => {}
        Target::Number(slot) => put_number(&mut activation.slots.numbers, slot, given),
        Target::Local(slot) => activation.slots.references[slot as usize] = key,
        Target::FieldId(slot) => put_field(&mut activation.slots.fields, slot, given),
        Target::MethodId(slot) => put_method(&mut activation.slots.fields, slot, given),
        Target::Buffer(_, slot) => put_buffer(&mut activation.slots.buffers, slot, given),
        Target::Static(slot) => put_static(statics, slot, given),
        Target::Test => put_test(&mut activation.stack, given),
    }
}

/// Puts a number that a function gives into its target, and goes on after the instruction. It takes no host memory.
/// `receive` does the same once it has seen what is given: calls of monitors, which are to be fast, know that already.
#[inline(always)]
pub fn receive_number(activation: &mut Activation, target: &Target, word: u32)
    requires place { activation.old.place + 1 < 2 ^ 64 }
    requires target { HasTarget target.now activation.old }
    ensures { (kind : SourceKind) (told : Option ℕ)
        → Receives target.now kind told (Given.Number word) activation.old activation.new }
{
    match *target {
        Target::Dropped => {
            activation.stack.clear();
            activation.place += 1;
        }
        _ => keep_number(activation, target, word),
    }
}

/// The same, faster where the number goes into a slot, as that of a method mostly does.
#[inline(always)]
pub(crate) fn receive_word(activation: &mut Activation, target: &Target, word: u32)
    requires place { activation.old.place + 1 < 2 ^ 64 }
    requires target { HasTarget target.now activation.old }
    ensures { (kind : SourceKind) (told : Option ℕ)
        → Receives target.now kind told (Given.Number word) activation.old activation.new }
{
    match *target {
        Target::Number(slot) => {
            activation.stack.clear();
            activation.place += 1;
            activation.slots.numbers[slot as usize] = word;
        }
        _ => keep_number(activation, target, word),
    }
}

/// The same, also where the number isn't dropped, as it mostly is. It stands apart from calls of monitors, which are faster
/// without its variables.
#[inline(never)]
fn keep_number(activation: &mut Activation, target: &Target, word: u32)
    requires place { activation.old.place + 1 < 2 ^ 64 }
    requires target { HasTarget target.now activation.old }
    ensures { (kind : SourceKind) (told : Option ℕ)
        → Receives target.now kind told (Given.Number word) activation.old activation.new }
{
    activation.stack.clear();
    activation.place += 1;
    match *target {
        Target::Number(slot) => activation.slots.numbers[slot as usize] = word,
        Target::Local(slot) => activation.slots.references[slot as usize] = None,
        Target::Test => activation.stack.push(u32::from(word == 0)),
        Target::Dropped
        | Target::FieldId(_)
        | Target::MethodId(_)
        | Target::Buffer(_, _)
        | Target::Static(_) => {}
    }
}

/// Makes a local reference of what is given, unless it is NULL, where a function of this kind of result does.
#[inline(always)]
fn make_local(locals: &mut Locals, kind: ResultKind, given: &Given) -> Option<Local>
    requires { HasRoom kind locals.old }
    ensures { MakesLocal kind given.now locals.old result locals.new }
{
    match (kind, *given) {
        (ResultKind::NewLocal, Given::Reference(Some(addr))) => Some(locals.make_in_room(addr)),
        _ => None,
    }
}

/// Puts the truth whether a number is 0 onto the stack, for the test of an `if`.
fn put_test(stack: &mut Stack, given: &Given)
    requires { stack.old ≡ [] }
    ensures { stack.new ≡ stack_with Target.Test given.now }
{
    if let Given::Number(word) = *given {
        stack.push(u32::from(word == 0));
    }
}

/// Puts a number into its slot.
fn put_number(numbers: &mut [u32], slot: u32, given: &Given)
    requires { slot < length numbers.old }
    ensures { numbers.new ≡ numbers_with (Target.Number slot) given.now numbers.old }
{
    if let Given::Number(word) = *given {
        numbers[slot as usize] = word;
    }
}

/// Puts a field ID into its slot.
fn put_field(fields: &mut [Option<Handle>], slot: u32, given: &Given)
    requires { slot < length fields.old }
    ensures { fields.new ≡ fields_with (Target.FieldId slot) given.now fields.old }
{
    if let Given::FieldId(field) = *given {
        fields[slot as usize] = field_handle(field);
    }
}

/// What the slot of a field ID holds.
fn field_handle(field: Option<FieldHandle>) -> Option<Handle>
    ensures { result ≡ option_map Handle.Field field }
{
    match field {
        Some(field) => Some(Handle::Field(field)),
        None => None,
    }
}

/// Puts a method ID into its slot.
fn put_method(fields: &mut [Option<Handle>], slot: u32, given: &Given)
    requires { slot < length fields.old }
    ensures { fields.new ≡ fields_with (Target.MethodId slot) given.now fields.old }
{
    if let Given::MethodId(method) = *given {
        fields[slot as usize] = method_handle(method);
    }
}

/// What the slot of a method ID holds.
fn method_handle(method: Option<MethodHandle>) -> Option<Handle>
    ensures { result ≡ option_map Handle.Method method }
{
    match method {
        Some(method) => Some(Handle::Method(method)),
        None => None,
    }
}

/// Puts a buffer into its slot.
fn put_buffer(buffers: &mut [Buffer], slot: u32, given: &Given)
    requires { slot < length buffers.old }
    ensures { (element : ElementType) → buffers.new ≡ buffers_with (Target.Buffer element slot) given.now buffers.old }
{
    if let Given::Buffer(buffer) = *given {
        buffers[slot as usize] = buffer;
    }
}

/// Tells by the flag in a slot, if there is one, whether a buffer that is given is a copy or a view.
fn tell_copy(numbers: &mut [u32], told: Option<u32>, given: &Given)
    requires { HasTold told (length numbers.old) }
    ensures { numbers.new ≡ told_with told given.now numbers.old }
{
    let Some(slot) = told else {
        return;
    };
    match *given {
        Given::Buffer(Buffer::Copy(_)) => numbers[slot as usize] = 1,
        Given::Buffer(Buffer::View(_)) => numbers[slot as usize] = 0,
        _ => {}
    }
}

/// Puts a global reference, weak or not, into its static. One that the static held stays.
fn put_static(statics: &mut [StaticReference], slot: u32, given: &Given)
    requires { slot < length statics.old }
    ensures { statics.new ≡ statics_with (Target.Static slot) given.now statics.old }
{
    if let Given::Global(reference) = *given {
        statics[slot as usize] = reference;
    }
}
