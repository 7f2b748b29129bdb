//! Functions of buffers, and what they do to copied lists, views and slots.

ghost use Rattle.std.specs.Prelude.{◌≡◌, ◌<◌, ◌≤◌, is_some, length, map, slice_set, if◌then◌else◌, true, IfOk, OnErr};
ghost use Rattle.std.specs.Int.{w32, cast_signed};
ghost use Rattle.code.specs.Call.{call_view};
ghost use Rattle.heap.specs.Heap.{pins_at, IsAddress};
ghost use Rattle.machine_answers.specs.AnswersSeen.{CallsMethod, EndsFirst, IsSeen, IsThere, answer_seen, answer_there};
ghost use Rattle.machine_answers.specs.BufferChanges.{CanCopyBack, CanGiveUp, GivesUp, MakesCopy, MakesView, MayGiveUp, copied_back, space_back};
ghost use Rattle.machine_scenes.specs.Buffers.{copies_back, gives_up};
ghost use Rattle.machine_answers.specs.Copies.{words_at};
ghost use Rattle.machine_scenes.specs.Given.{operand_of, AreAddresses, ReferenceIsThere};
ghost use Rattle.machine_scenes.specs.Scenes.{scene_view};
ghost use Rattle.jni.specs.Access.{is_critical};
ghost use Rattle.jni.specs.JniFunction.{prototype};
ghost use Rattle.jni.specs.Subjects.{subject_of};
ghost use Rattle.machine_answers.specs.Sights.{mode_seen, name_seen};
ghost use Rattle.machine_answers.specs.WorkedOut.{buffer_there, mode_of, slot_of};
ghost use Rattle.semantics.specs.Answer.{Copies, Views};
ghost use Rattle.semantics.specs.AnswerTable.{released};
ghost use Rattle.semantics.specs.Arguments.{name_or_zero};
ghost use Rattle.jni.specs.declared.subject.Subject.TheVariants as subject;

use crate::answer::{Answer, Given, argument};
use crate::copies::word_of;
use base::limits::MOST_VIEWS;
use code::instr::{Call, Operand, ReleaseMode};
use heap::{Addr, Heap, Value};
use jni::{Access, JniFunction};
use machine_scenes::buffer::{Buffer, Release};
use machine_scenes::operands::operand_of;
use machine_scenes::scene::Scene;
use std::alloc::{AllocError, Global};
use tables::Elements;

/// What a function does that works on buffers (JNI Specification, chapter 4, "Get<PrimitiveType>ArrayElements Routines",
/// "Release<PrimitiveType>ArrayElements Routines", "GetPrimitiveArrayCritical, ReleasePrimitiveArrayCritical",
/// "GetStringChars", "ReleaseStringChars" and "GetStringCritical, ReleaseStringCritical").
#[inline(always)]
#[tactic(auto, using(crate::proofs::BufferAnswers::buffer_got, crate::proofs::BufferAnswers::buffer_released, std::proofs::lemmas::Grind::common_steps))]
pub(crate) fn work_out_buffer(scene: &Scene<'_>, call: &Call) -> Answer
    requires subject { subject_of call.now.function ≡ subject.Buffers }
    requires objects { AreAddresses scene.now.heap.now scene.now.references call.now.operands.items }
    ensures seen { IsSeen (scene_view scene.now) (call_view call.now) result }
    ensures there { IsThere (scene_view scene.now) (call_view call.now) result }
    ensures ends { EndsFirst (scene_view scene.now) (call_view call.now) result }
    ensures calls { CallsMethod (call_view call.now) result }
{
    let object = argument(scene, call, 0);
    match call.function {
        JniFunction::GetBuffer(access) => acquires(scene, call, access, object),
        JniFunction::ReleaseBuffer(access) => {
            let mode = mode_of(access, operand_of(&call.operands, 2));
            let slot = slot_of(operand_of(&call.operands, 1));
            releases(scene, call, object, slot, mode)
        }
        _ => unreachable!(),
    }
}

/// A copy or a view of an object is acquired; NULL is given where there is none.
fn acquires(scene: &Scene<'_>, call: &Call, access: Access, object: Option<Addr>) -> Answer
    requires { ReferenceIsThere scene.now.heap.now object }
    ensures seen { is_some (name_seen scene.now.heap.now object) ≡ true
        → answer_seen (scene_view scene.now) (call_view call.now) (prototype call.now.function).result result
        ≡ (if is_critical access then Views (name_or_zero (name_seen scene.now.heap.now object))
        else Copies (name_or_zero (name_seen scene.now.heap.now object))) }
    ensures there { answer_there (scene_view scene.now) (call_view call.now) (prototype call.now.function).result result ≡ true }
{
    match object {
        None => Answer::Gives(Given::Buffer(Buffer::Null)),
        Some(object) if access.is_critical() => Answer::AcquiresView(object),
        Some(object) => Answer::AcquiresCopy(object),
    }
}

/// The slot of an operand that is a buffer, and 0 of another.
fn slot_of(operand: Operand) -> usize
    ensures { result ≡ slot_of operand }
{
    match operand {
        Operand::Buffer(slot) => slot as usize,
        _ => 0,
    }
}

/// The mode of a release: that of this operand for elements of an array. Nothing else is copied back.
fn mode_of(access: Access, operand: Operand) -> ReleaseMode
    ensures { result ≡ mode_of access (mode_seen operand) }
{
    match access {
        Access::ElementsCopy(_) => match operand {
            Operand::Mode(mode) => mode,
            _ => ReleaseMode::CopyBackAndFree,
        },
        _ => ReleaseMode::FreeUncopied,
    }
}

/// What the slot of a buffer holds, and NULL where there is none.
fn buffer_there(buffers: &[Buffer], slot: usize) -> Buffer
    ensures { result ≡ buffer_there buffers.now slot }
{
    buffers.get(slot).copied().unwrap_or(Buffer::Null)
}

/// The buffer in the slot of operand 1 is released.
#[tactic(auto, using(crate::proofs::BufferAnswers::buffer_own, std::proofs::lemmas::Grind::common_steps))]
fn releases(
    scene: &Scene<'_>,
    call: &Call,
    object: Option<Addr>,
    slot: usize,
    mode: ReleaseMode,
) -> Answer
    requires object { ReferenceIsThere scene.now.heap.now object }
    requires slot { slot ≡ slot_of (operand_of call.now.operands.items 1) }
    ensures seen { is_some (name_seen scene.now.heap.now object) ≡ true
        → answer_seen (scene_view scene.now) (call_view call.now) (prototype call.now.function).result result
        ≡ released (name_or_zero (name_seen scene.now.heap.now object)) mode }
    ensures there { answer_there (scene_view scene.now) (call_view call.now) (prototype call.now.function).result result ≡ true }
{
    match object {
        None => Answer::Gives(Given::Nothing),
        Some(object) => Answer::Releases(Release {
            object,
            slot,
            held: buffer_there(scene.buffers, slot),
            mode,
        }),
    }
}

// ---- what they do

/// Copies an object's numbers into a list of this owner; NULL where all lists together would be too long.
///
/// Only a list takes host memory.
pub fn acquire_copy(
    alloc: Global,
    heap: &Heap,
    elements: &mut Elements,
    owner: u16,
    object: Addr,
) -> Result<Buffer, AllocError>
    requires { IsAddress heap.now object }
    ensures ok { IfOk result (λ buffer. MakesCopy owner (map (cast_signed w32) (words_at heap.now object)) elements.old buffer elements.new) }
    ensures err { OnErr result (elements.new ≡ elements.old) }
{
    if !elements.has_room(heap.len_of(object)) {
        return Ok(Buffer::Null);
    }
    let numbers = numbers_of(alloc, heap, object)?;
    match elements.keep(owner, numbers) {
        Ok(key) => Ok(Buffer::Copy(key)),
        Err(_) => Err(AllocError),
    }
}

/// The numbers of an object.
fn numbers_of(alloc: Global, heap: &Heap, object: Addr) -> Result<Vec<i32>, AllocError>
    requires { IsAddress heap.now object }
    ensures { IfOk result (λ numbers. numbers.items ≡ map (cast_signed w32) (words_at heap.now object)) }
{
    let count = heap.len_of(object);
    let mut numbers = Vec::with_capacity(alloc, count)?;
    for place in 0..count {
        numbers.push(word_of(heap.get(object, place)).cast_signed())?;
    }
    Ok(numbers)
}

/// Pins an object for a view; NULL where there are as many views as may be.
pub fn acquire_view(heap: &mut Heap, views: &mut u32, object: Addr) -> Buffer
    requires there { IsAddress heap.old object }
    requires pins { pins_at heap.old object ≤ views.old }
    ensures { MakesView object heap.old views.old result heap.new views.new }
{
    if *views >= MOST_VIEWS {
        return Buffer::Null;
    }
    heap.pin(object);
    *views += 1;
    Buffer::View(object)
}

/// Releases a buffer by its mode: the numbers of a copy go back into the object, and the buffer is given up.
pub fn release(
    heap: &mut Heap,
    elements: &mut Elements,
    views: &mut u32,
    buffers: &mut [Buffer],
    release: &Release,
)
    requires back { copies_back release.now.mode ≡ true → CanCopyBack elements.old release.now.object release.now.held heap.old }
    requires held { CanGiveUp release.now.held heap.old elements.old views.old }
    requires slot { release.now.slot < length buffers.old }
    ensures released { MayGiveUp (gives_up release.now.mode) release.now.held
        (space_back elements.old release.now heap.old) elements.old views.old heap.new elements.new views.new }
    ensures slots { buffers.new ≡ (if gives_up release.now.mode then slice_set buffers.old release.now.slot Buffer.Null else buffers.old) }
{
    if copies_back(release.mode) {
        copy_back(heap, elements, release.object, release.held);
    }
    if gives_up(release.mode) {
        give_up(heap, elements, views, release.held);
        buffers[release.slot] = Buffer::Null;
    }
}

/// Whether the numbers of a copy go back by a mode.
fn copies_back(mode: ReleaseMode) -> bool
    ensures { result ≡ copies_back mode }
{
    !matches!(mode, ReleaseMode::FreeUncopied)
}

/// Whether the buffer is given up by a mode.
fn gives_up(mode: ReleaseMode) -> bool
    ensures { result ≡ gives_up mode }
{
    !matches!(mode, ReleaseMode::CopyBack)
}

/// The numbers of a copy go back into an object.
fn copy_back(heap: &mut Heap, elements: &Elements, object: Addr, held: Buffer)
    requires { CanCopyBack elements.now object held heap.old }
    ensures { heap.new ≡ copied_back elements.now object held heap.old }
{
    if let Buffer::Copy(key) = held {
        let count = elements.len(key).unwrap();
        for place in 0..count {
            let number = elements.read(key, place).unwrap();
            heap.set(object, place, Value::Number(number.cast_unsigned()));
        }
    }
}

/// A copied list ends, or an object gets a pin less.
fn give_up(heap: &mut Heap, elements: &mut Elements, views: &mut u32, held: Buffer)
    requires { CanGiveUp held heap.old elements.old views.old }
    ensures { GivesUp held heap.old elements.old views.old heap.new elements.new views.new }
{
    match held {
        Buffer::Null => {}
        Buffer::Copy(key) => elements.free(key).unwrap(),
        Buffer::View(object) => {
            heap.unpin(object);
            *views -= 1;
        }
    }
}
