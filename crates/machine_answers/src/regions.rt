//! What functions of regions do: parts of arrays and strings that are copied to or from local arrays.

ghost use Rattle.std.specs.Prelude.{◌≡◌, ◌≤◌, ◌+◌, pos, is_some, length, true, IfSome, Some};
ghost use Rattle.std.specs.Option.{option_map};
ghost use Rattle.machine_answers.specs.AnswersSeen.{CallsMethod, EndsFirst, IsSeen, IsThere, answer_seen, answer_there, region_seen};
ghost use Rattle.code.specs.Call.{call_view};
ghost use Rattle.heap.specs.Heap.{IsAddress, values_at};
ghost use Rattle.machine_scenes.specs.Given.{operand_of, AreAddresses, ReferenceIsThere};
ghost use Rattle.machine_scenes.specs.Scenes.{scene_view};
ghost use Rattle.jni.specs.JniFunction.{prototype};
ghost use Rattle.jni.specs.Subjects.{subject_of};
ghost use Rattle.machine_answers.specs.WorkedOut.{reference};
ghost use Rattle.jni.specs.declared.subject.Subject.TheVariants as subject;
ghost use Rattle.machine_answers.specs.Sights.{array_in, name_seen, number_at, values_seen};
ghost use Rattle.semantics.specs.Answer.{GetsRegion, SetsRegion};
ghost use Rattle.semantics.specs.AnswerTable.{region_with, region_within};
ghost use Rattle.semantics.specs.Arguments.{name_or_zero};

use crate::answer::{Answer, argument};
use crate::arrays::stack_number;
use class_rules::ClassId;
use classes::built_ins::{
    ARRAY_INDEX_OUT_OF_BOUNDS_EXCEPTION, STRING_INDEX_OUT_OF_BOUNDS_EXCEPTION,
};
use code::instr::{Call, LocalArray, Operand};
use code::stack::Stack;
use heap::{Addr, Heap};
use jni::JniFunction;
use machine_scenes::array_region::ArrayRegion;
use machine_scenes::operands::operand_of;
use machine_scenes::scene::Scene;
use semantics::Trap;

/// What a function does that works on a region (JNI Specification, chapter 4, "Get<PrimitiveType>ArrayRegion Routines",
/// "Set<PrimitiveType>ArrayRegion Routines" and "GetStringRegion").
#[inline(always)]
#[tactic(auto, unfolding(semantics::specs::AnswerTable::call_answer))]
pub(crate) fn work_out_region(scene: &Scene<'_>, call: &Call) -> Answer
    requires subject { subject_of call.now.function ≡ subject.Regions }
    requires objects { AreAddresses scene.now.heap.now scene.now.references call.now.operands.items }
    ensures seen { IsSeen (scene_view scene.now) (call_view call.now) result }
    ensures there { IsThere (scene_view scene.now) (call_view call.now) result }
    ensures ends { EndsFirst (scene_view scene.now) (call_view call.now) result }
    ensures calls { CallsMethod (call_view call.now) result }
{
    let array = array_in(operand_of(&call.operands, 3));
    let region = region_asked(scene, call, array);
    match call.function {
        JniFunction::GetArrayRegion(_) => {
            copies_out(
                scene,
                call,
                ARRAY_INDEX_OUT_OF_BOUNDS_EXCEPTION,
                array,
                region,
            )
        }
        JniFunction::SetArrayRegion(_) => {
            copies_in(
                scene,
                call,
                ARRAY_INDEX_OUT_OF_BOUNDS_EXCEPTION,
                array,
                region,
            )
        }
        JniFunction::GetStringRegion => {
            copies_out(
                scene,
                call,
                STRING_INDEX_OUT_OF_BOUNDS_EXCEPTION,
                array,
                region,
            )
        }
        _ => unreachable!(),
    }
}

/// The region of operand 0 that the two numbers on the stack tell, and this local array.
fn region_asked(scene: &Scene<'_>, call: &Call, array: LocalArray) -> Option<ArrayRegion>
    requires objects { AreAddresses scene.now.heap.now scene.now.references call.now.operands.items }
    requires array { array ≡ array_in (operand_of call.now.operands.items 3) }
    ensures seen { is_some (name_seen scene.now.heap.now (reference (scene_view scene.now) (call_view call.now) 0)) ≡ true
        → option_map (region_seen scene.now.heap.now) result
        ≡ region_within (name_or_zero (name_seen scene.now.heap.now (reference (scene_view scene.now) (call_view call.now) 0)))
        (length (values_seen scene.now.heap.now (reference (scene_view scene.now) (call_view call.now) 0)))
        (number_at scene.now.stack.now 1) (number_at scene.now.stack.now 0) }
    ensures there { IfSome result (λ r. IsAddress scene.now.heap.now r.object
        × (r.start + r.count ≤ length (values_at scene.now.heap.now r.object)) × (r.slot ≡ array.start)) }
{
    let object = argument(scene, call, 0);
    let start = next_number(scene.stack);
    region_in(scene.heap, object, start, stack_number(scene.stack), array)
}

/// The number below the topmost on the stack, and 0 where there is none.
fn next_number(stack: &Stack) -> i32
    ensures { result ≡ number_at stack.now 1 }
{
    stack.below_top().unwrap_or(0).cast_signed()
}

/// An operand's local array, and one of no elements where it is none.
fn array_in(operand: Operand) -> LocalArray
    ensures { result ≡ array_in operand }
{
    match operand {
        Operand::Array(array) => array,
        _ => LocalArray { start: 0, len: 0 },
    }
}

/// Elements of an object, from a start on, and as many first slots of a local array; none where the object hasn't so many.
fn region_in(
    heap: &Heap,
    reference: Option<Addr>,
    start: i32,
    count: i32,
    array: LocalArray,
) -> Option<ArrayRegion>
    requires { ReferenceIsThere heap.now reference }
    ensures seen { is_some (name_seen heap.now reference) ≡ true → option_map (region_seen heap.now) result
        ≡ region_within (name_or_zero (name_seen heap.now reference)) (length (values_seen heap.now reference)) start count }
    ensures there { IfSome result (λ r. IsAddress heap.now r.object
        × (r.start + r.count ≤ length (values_at heap.now r.object)) × (r.slot ≡ array.start)) }
{
    let object = reference?;
    if start < 0 || count < 0 {
        return None;
    }
    region_within(heap, object, start as u32, count as u32, array)
}

/// Elements of an object, from a start on, where neither number is negative; none where the object hasn't so many.
fn region_within(
    heap: &Heap,
    object: Addr,
    start: u32,
    count: u32,
    array: LocalArray,
) -> Option<ArrayRegion>
    requires { IsAddress heap.now object }
    ensures seen { option_map (region_seen heap.now) result
        ≡ region_within (name_or_zero (name_seen heap.now (Some object))) (length (values_seen heap.now (Some object))) (pos start) (pos count) }
    ensures there { IfSome result (λ r. IsAddress heap.now r.object
        × (r.start + r.count ≤ length (values_at heap.now r.object)) × (r.slot ≡ array.start)) }
{
    if start as usize + count as usize <= heap.len_of(object) {
        Some(ArrayRegion {
            object,
            start,
            slot: array.start,
            count,
        })
    } else {
        None
    }
}

/// A region's numbers go into its slots; an exception of this class where there is no region, and a trap where the local array
/// hasn't so many elements.
fn copies_out(
    scene: &Scene<'_>,
    call: &Call,
    exception: ClassId,
    array: LocalArray,
    region: Option<ArrayRegion>,
) -> Answer
    requires array { array ≡ array_in (operand_of call.now.operands.items 3) }
    requires there { IfSome region (λ r. IsAddress scene.now.heap.now r.object
        × (r.start + r.count ≤ length (values_at scene.now.heap.now r.object)) × (r.slot ≡ array.start)) }
    ensures seen { answer_seen (scene_view scene.now) (call_view call.now) (prototype call.now.function).result result
        ≡ region_with GetsRegion exception.number array.len (option_map (region_seen scene.now.heap.now) region) }
    ensures there { answer_there (scene_view scene.now) (call_view call.now) (prototype call.now.function).result result ≡ true }
{
    match region {
        None => Answer::Throws(exception),
        Some(region) if region.count <= array.len => Answer::CopiesOut(region),
        Some(_) => Answer::Halts(Trap::OutOfRange),
    }
}

/// What the slots of a region hold goes into its object; where it can't, the answer is that of `copies_out`.
fn copies_in(
    scene: &Scene<'_>,
    call: &Call,
    exception: ClassId,
    array: LocalArray,
    region: Option<ArrayRegion>,
) -> Answer
    requires array { array ≡ array_in (operand_of call.now.operands.items 3) }
    requires there { IfSome region (λ r. IsAddress scene.now.heap.now r.object
        × (r.start + r.count ≤ length (values_at scene.now.heap.now r.object)) × (r.slot ≡ array.start)) }
    ensures seen { answer_seen (scene_view scene.now) (call_view call.now) (prototype call.now.function).result result
        ≡ region_with SetsRegion exception.number array.len (option_map (region_seen scene.now.heap.now) region) }
    ensures there { answer_there (scene_view scene.now) (call_view call.now) (prototype call.now.function).result result ≡ true }
{
    match region {
        None => Answer::Throws(exception),
        Some(region) if region.count <= array.len => Answer::CopiesIn(region),
        Some(_) => Answer::Halts(Trap::OutOfRange),
    }
}
