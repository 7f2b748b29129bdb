//! What functions of arrays and strings do.

ghost use Rattle.std.specs.Prelude.{◌≡◌, ℕ, Some, is_some, length, slice_get, true};
ghost use Rattle.std.specs.Option.{option_map_or};
ghost use Rattle.class_rules.specs.Class.{array_class_of, assignable, class_kind, element_class};
ghost use Rattle.machine_answers.specs.AnswersSeen.{CallsMethod, EndsFirst, IsSeen, IsThere, answer_seen, answer_there, value_there};
ghost use Rattle.machine_scenes.specs.Given.{class_of_given};
ghost use Rattle.code.specs.Call.{call_view};
ghost use Rattle.machine_scenes.specs.Given.{AreAddresses, ReferenceIsThere};
ghost use Rattle.machine_scenes.specs.Scenes.{scene_view};
ghost use Rattle.jni.specs.Subjects.{subject_of};
ghost use Rattle.machine_answers.specs.WorkedOut.{reference};
ghost use Rattle.jni.specs.declared.subject.Subject.TheVariants as subject;
ghost use Rattle.machine_answers.specs.Sights.{name_seen, number_at, value_seen, values_seen};
ghost use Rattle.semantics.specs.AnswerTable.{element_given, element_set, index_within, new_array};
ghost use Rattle.semantics.specs.Arguments.{name_or_zero};
ghost use Rattle.jni.specs.JniFunction.{prototype};
ghost use Rattle.heap.specs.Heap.{IsAddress, block_at, values_at};

use crate::answer::{
    Answer, Given, address_in, argument, class_given, count_there, held_reference, top_word,
    value_there,
};
use class_queries::{array_class_of, element_class};
use class_rules::{ClassId, NO_CLASS};
use classes::built_ins::{
    ARRAY_INDEX_OUT_OF_BOUNDS_EXCEPTION, ARRAY_STORE_EXCEPTION, NEGATIVE_ARRAY_SIZE_EXCEPTION,
    number_array,
};
use code::instr::Call;
use code::stack::Stack;
use heap::{Addr, Heap, Value};
use jni::JniFunction;
use machine_scenes::new_object::{New, NewArray};
use machine_scenes::operands::{class_of_given, fits_there};
use machine_scenes::scene::Scene;

/// What a function does that works on arrays or strings.
#[inline(always)]
#[tactic(auto, using(crate::proofs::SightValues::value_at, crate::proofs::SightValues::count_of, std::proofs::lemmas::Grind::common_steps), unfolding(semantics::specs::AnswerTable::call_answer))]
pub(crate) fn work_out_array(scene: &Scene<'_>, call: &Call) -> Answer
    requires subject { subject_of call.now.function ≡ subject.Arrays }
    requires objects { AreAddresses scene.now.heap.now scene.now.references call.now.operands.items }
    ensures seen { IsSeen (scene_view scene.now) (call_view call.now) result }
    ensures there { IsThere (scene_view scene.now) (call_view call.now) result }
    ensures ends { EndsFirst (scene_view scene.now) (call_view call.now) result }
    ensures calls { CallsMethod (call_view call.now) result }
{
    match call.function {
        JniFunction::GetArrayLength | JniFunction::GetStringLength => {
            let first = argument(scene, call, 0);
            Answer::Gives(Given::Number(count_there(scene.heap, first)))
        }
        JniFunction::NewArray(element) => {
            let class = number_array(element);
            new_array(
                scene,
                call,
                class,
                stack_number(scene.stack),
                Value::Number(0),
            )
        }
        JniFunction::NewObjectArray => {
            let class = class_of_arrays(scene, call);
            let element = held_reference(argument(scene, call, 2));
            new_array(scene, call, class, stack_number(scene.stack), element)
        }
        JniFunction::GetObjectArrayElement => {
            let array = argument(scene, call, 0);
            element_there(scene, call, array, stack_number(scene.stack))
        }
        JniFunction::SetObjectArrayElement => {
            let fits = fits_element(scene, call);
            let element = argument(scene, call, 2);
            let array = argument(scene, call, 0);
            stores_there(scene, call, array, fits, stack_number(scene.stack), element)
        }
        JniFunction::NewStringUTF => Answer::Makes(New::Text(0)),
        _ => unreachable!(),
    }
}

/// The class of arrays of the class of operand 1, and no class where there is none.
#[inline(always)]
fn class_of_arrays(scene: &Scene<'_>, call: &Call) -> ClassId
    requires { AreAddresses scene.now.heap.now scene.now.references call.now.operands.items }
    ensures { result.number ≡ option_map_or (λ (c : ℕ). c) (array_class_of scene.now.classes.now
        (name_or_zero (name_seen scene.now.heap.now (reference (scene_view scene.now) (call_view call.now) 1)))) 0 }
{
    array_class_of(scene.classes, class_given(scene, call, 1)).unwrap_or(NO_CLASS)
}

/// The number on top of the stack, and 0 where there is none.
pub(crate) fn stack_number(stack: &Stack) -> i32
    ensures { result ≡ number_at stack.now 0 }
{
    top_word(stack).cast_signed()
}

/// A new array of equal values is made; a negative number of them is an exception.
fn new_array(scene: &Scene<'_>, call: &Call, class: ClassId, count: i32, value: Value) -> Answer
    ensures seen { answer_seen (scene_view scene.now) (call_view call.now) (prototype call.now.function).result result
        ≡ new_array class.number count (value_seen scene.now.heap.now value) }
    ensures there { value_there scene.now.heap.now value ≡ true
        → answer_there (scene_view scene.now) (call_view call.now) (prototype call.now.function).result result ≡ true }
{
    if count < 0 {
        Answer::Throws(NEGATIVE_ARRAY_SIZE_EXCEPTION)
    } else {
        Answer::Makes(New::Array(NewArray {
            class,
            count: count as u32,
            value,
        }))
    }
}

/// Whether operand 2 fits the elements of operand 0.
fn fits_element(scene: &Scene<'_>, call: &Call) -> bool
    requires { AreAddresses scene.now.heap.now scene.now.references call.now.operands.items }
    ensures { result ≡ option_map_or (λ (n : ℕ). assignable scene.now.classes.now
        (class_of_given scene.now.heap.now (reference (scene_view scene.now) (call_view call.now) 2))
        (element_class (class_kind scene.now.classes.now
        (class_of_given scene.now.heap.now (reference (scene_view scene.now) (call_view call.now) 0)))))
        (name_seen scene.now.heap.now (reference (scene_view scene.now) (call_view call.now) 2)) true }
{
    let array = argument(scene, call, 0);
    let class = element_class(scene.classes, class_of_given(scene.heap, array));
    let element = argument(scene, call, 2);
    fits_there(scene.classes, scene.heap, element, class)
}

/// An index of an array, where it has such an element.
#[inline(always)]
pub(crate) fn index_in(heap: &Heap, array: Addr, index: i32) -> Option<usize>
    requires { IsAddress heap.now array }
    ensures { result ≡ index_within (length (values_seen heap.now (Some array))) index }
{
    if index < 0 {
        return None;
    }
    let index = index as usize;
    if index < heap.len_of(array) {
        Some(index)
    } else {
        None
    }
}

/// An element of an array is given; an index of none is an exception.
#[tactic(auto, using(crate::proofs::SightValues::value_at, std::proofs::lemmas::Grind::common_steps))]
fn element_there(scene: &Scene<'_>, call: &Call, reference: Option<Addr>, index: i32) -> Answer
    requires { ReferenceIsThere scene.now.heap.now reference }
    ensures seen { answer_seen (scene_view scene.now) (call_view call.now) (prototype call.now.function).result result
        ≡ element_given (values_seen scene.now.heap.now reference) (index_within (length (values_seen scene.now.heap.now reference)) index) }
    ensures there { ((a i b : ℕ) → slice_get (values_at scene.now.heap.now a) i ≡ Some (Value.Block b)
        → is_some (block_at scene.now.heap.now b) ≡ true)
        → answer_there (scene_view scene.now) (call_view call.now) (prototype call.now.function).result result ≡ true }
{
    match reference {
        Some(array) => match index_in(scene.heap, array, index) {
            Some(index) => {
                let element = address_in(value_there(scene.heap, Some(array), index));
                Answer::Gives(Given::Reference(element))
            }
            None => Answer::Throws(ARRAY_INDEX_OUT_OF_BOUNDS_EXCEPTION),
        },
        None => Answer::Throws(ARRAY_INDEX_OUT_OF_BOUNDS_EXCEPTION),
    }
}

/// An element of an array becomes this one; an index of none is an exception, and so is an element that doesn't fit.
#[tactic(auto, using(crate::proofs::SightValues::count_of, std::proofs::lemmas::Grind::common_steps))]
fn stores_there(
    scene: &Scene<'_>,
    call: &Call,
    reference: Option<Addr>,
    fits: bool,
    index: i32,
    element: Option<Addr>,
) -> Answer
    requires array { ReferenceIsThere scene.now.heap.now reference }
    requires element { ReferenceIsThere scene.now.heap.now element }
    ensures seen { answer_seen (scene_view scene.now) (call_view call.now) (prototype call.now.function).result result
        ≡ element_set fits (name_or_zero (name_seen scene.now.heap.now reference)) (name_seen scene.now.heap.now element)
        (index_within (length (values_seen scene.now.heap.now reference)) index) }
    ensures there { answer_there (scene_view scene.now) (call_view call.now) (prototype call.now.function).result result ≡ true }
{
    match reference {
        Some(array) => match index_in(scene.heap, array, index) {
            Some(place) if fits => Answer::Writes {
                object: array,
                place,
                value: held_reference(element),
            },
            Some(_) => Answer::Throws(ARRAY_STORE_EXCEPTION),
            None => Answer::Throws(ARRAY_INDEX_OUT_OF_BOUNDS_EXCEPTION),
        },
        None => Answer::Throws(ARRAY_INDEX_OUT_OF_BOUNDS_EXCEPTION),
    }
}
