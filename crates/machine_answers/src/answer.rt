//! What a function of the JNI does, as data.

ghost use Rattle.std.specs.Prelude.{◌≡◌, ◌≢◌, ◌<◌, ℕ, [], Some, None, true, false, is_some, nat_lt, unwrap_or, slice_get, map, length};
ghost use Rattle.std.specs.Int.{w32, cast_signed};
ghost use Rattle.classes.specs.FieldViews.{find_as};
ghost use Rattle.class_rules.specs.ClassIds.{number_of};
ghost use Rattle.class_rules.specs.Fields.{layout};
ghost use Rattle.class_rules.specs.Grown.{IsGrown};
ghost use Rattle.machine_answers.specs.AnswersSeen.{CallsMethod, CellsAreThere, EndsFirst, IsSeen, IsThere, IsThereOrMethod};
ghost use Rattle.machine_answers.specs.AnswersSeen as view;
ghost use Rattle.code.specs.Call.{call_view};
ghost use Rattle.code.specs.Effect.{element_word, truth_word};
ghost use Rattle.code_meaning.specs.Coding.{element_of};
ghost use Rattle.heap.specs.Heap.{IsAddress, Space};
ghost use Rattle.machine_answers.specs.Answered.{IsAnswerTo};
ghost use Rattle.machine_answers.specs.Checked.{arguments_fit};
ghost use Rattle.machine_answers.specs.Sights.{element_wanted, name_seen, number_at, object_seen, value_seen, values_seen};
ghost use Rattle.machine_scenes.specs.Given.{field_there, name_there, AreAddresses, AreHandles, FieldIsThere, ReferenceIsThere};
ghost use Rattle.machine_scenes.specs.Scenes.{scene_view};
ghost use Rattle.jni.specs.declared.function.JniFunction.TheVariants.{GetStaticMethodID};
ghost use Rattle.jni.specs.Subjects.{subject_of};
ghost use Rattle.jni.specs.declared.kinds.ResultKind.TheVariants.{GivesNothing};
ghost use Rattle.machine_answers.specs.WorkedOut.{address_in, class_object, declaring, deletes, deletes_global, deletes_weak, field, found_class, frame_for, handle, held_reference, place, place_of_static, reference, room_for, value_there, word_in, writes_there, IsFoundField, IsFoundMethod};
ghost use Rattle.semantics.specs.Answer.{Writes};
ghost use Rattle.semantics.specs.AnswerTable.{value_in};
ghost use Rattle.semantics.specs.Arguments.{name_or_zero};
ghost use Rattle.semantics.specs.Heap.{number_in, place_in, reference_in, static_place};
ghost use Rattle.semantics.specs.Method.{find_method};
ghost use Rattle.semantics.specs.Object.{Number, Refers};
ghost use Rattle.semantics.specs.Value.{convert};
ghost use Rattle.syntax.specs.Parts.{functions_of};
ghost use Rattle.syntax.specs.Tree.{Function, FunctionItem};
ghost use Rattle.syntax.specs.Views.{unit_tree};
ghost use Rattle.jni.specs.declared.subject.Subject.TheVariants as subject;

use crate::arrays::{stack_number, work_out_array};
use crate::buffers::work_out_buffer;
use crate::exceptions::work_out_exception;
use crate::monitor::work_out_monitor;
use crate::regions::work_out_region;
use class_queries::find_method;
use class_rules::ClassId;
use classes::built_ins::{NO_CLASS_DEF_FOUND_ERROR, NO_SUCH_FIELD_ERROR, NO_SUCH_METHOD_ERROR};
use classes::class::FieldHandle;
use classes::table::ClassTable;
use code::instr::{Call, ElementType, Operand};
use code::plain::element_word;
use code::stack::Stack;
use heap::{Addr, Heap, Value};
use jni::{JniFunction, Subject};
use machine_scenes::array_region::ArrayRegion;
use machine_scenes::buffer::{Buffer, Release};
use machine_scenes::handle::MethodHandle;
use machine_scenes::new_object::{New, text_at};
use machine_scenes::operands::{
    class_of_given, declaring, fits_there, handle_at, key_in, name_there, operand_of, reference_at,
};
use machine_scenes::references::{Held, References};
use machine_scenes::scene::Scene;
use machine_scenes::statics::StaticReference;
use monitors::Object;
use semantics::{ObjectId, Trap};
use syntax::Item;
use tables::Local;

/// What a call gives.
#[derive(Clone, Copy)]
pub enum Given {
    Nothing,
    /// A `jint` or a `jboolean`, as a word.
    Number(u32),
    Reference(Option<Addr>),
    FieldId(Option<FieldHandle>),
    MethodId(Option<MethodHandle>),
    /// What a static comes to hold.
    Global(StaticReference),
    /// What the slot of a buffer comes to hold.
    Buffer(Buffer),
}

/// What a call does. A new object and an exception can be refused where the heap has no room.
#[derive(Clone, Copy)]
pub enum Answer {
    /// Nothing changes, and this is given.
    Gives(Given),
    /// A value of the object at this address changes, by its place, counted from 0.
    Writes {
        object: Addr,
        place: usize,
        value: Value,
    },
    /// Numbers of an object go into number slots.
    CopiesOut(ArrayRegion),
    /// What number slots hold goes into an object.
    CopiesIn(ArrayRegion),
    /// A copy of the numbers of the object at this address is given, or NULL where all copies together would be too long.
    AcquiresCopy(Addr),
    /// A view of the object at this address is given, or NULL where there are as many views as may be.
    AcquiresView(Addr),
    /// A buffer is released.
    Releases(Release),
    /// An object is made, and given.
    Makes(New),
    /// An exception of this class is made and is pending.
    Throws(ClassId),
    /// A string of the call's text at this place is made, and an exception of this class with it as message, which is
    /// pending; 0 is given.
    Raises {
        class: ClassId,
        text: usize,
    },
    /// This exception is pending, or none, and this is given.
    Pends {
        exception: Option<Addr>,
        given: Given,
    },
    /// The machine stops, all checks being passed.
    Halts(Trap),
    /// The current frame gets room for this number of references more, and 0 is given, where the frames can have them; else as
    /// `RefusesFrames`.
    Ensures(u32),
    /// A frame with room for this number of references is made, and 0 is given, where the frames can have it; else as
    /// `RefusesFrames`.
    Pushes(u32),
    /// -4 is given, and the OutOfMemoryError object is pending, but nothing is made.
    RefusesFrames,
    /// The current frame ends, and this reference is given.
    Pops(Option<Addr>),
    /// The local reference of this key ends.
    Deletes(Local),
    /// A global reference to the object at this address is made and given, and none for NULL.
    MakesGlobal(Option<Addr>),
    /// The global reference of the static of this number ends, and the static is marked.
    DeletesGlobal(u32),
    /// A weak global reference to the object at this address is made and given, and none for NULL.
    MakesWeak(Option<Addr>),
    /// The weak global reference of the static of this number ends, cleared or not, and the static is marked.
    DeletesWeak(u32),
    /// The thread owns the monitor of this object, or once more, and 0 is given.
    Enters(Object),
    /// The thread owns the monitor of the object of this birth number once less, and 0 is given.
    Exits(u32),
    /// A method is called, all checks being passed but that of how deep calls are. The call's operands tell which, and what it
    /// is given.
    Calls,
}

/// What a function does, all checks being passed. It takes no host memory.
pub fn work_out(scene: &Scene<'_>, call: &Call) -> Answer
    requires grown { IsGrown scene.now.classes.now }
    requires loaded { (i a : ℕ) → slice_get scene.now.loaded.now i ≡ Some a → IsAddress scene.now.heap.now a }
    requires objects { AreAddresses scene.now.heap.now scene.now.references call.now.operands.items }
    requires handles { AreHandles scene.now.classes.now scene.now.fields.now call.now.operands.items }
    requires passed { arguments_fit (scene_view scene.now) call.now.operands.items
        (element_wanted call.now.target) call.now.function ≡ true }
    ensures { IsAnswerTo (scene_view scene.now) (call_view call.now) result }
{
    match call.function.subject() {
        Subject::Classes => work_out_class(scene, call),
        Subject::References => work_out_reference(scene, call),
        Subject::Fields => work_out_field(scene, call),
        Subject::Statics => work_out_static(scene, call),
        Subject::Arrays => work_out_array(scene, call),
        Subject::Regions => work_out_region(scene, call),
        Subject::Buffers => work_out_buffer(scene, call),
        Subject::Exceptions => work_out_exception(scene, call),
        Subject::Monitors => work_out_monitor(scene, call),
    }
}

/// What a function does that works on classes.
#[inline(always)]
#[tactic(auto, using(std::proofs::lemmas::Grind::common_steps), unfolding(semantics::specs::AnswerTable::call_answer))]
fn work_out_class(scene: &Scene<'_>, call: &Call) -> Answer
    requires subject { subject_of call.now.function ≡ subject.Classes }
    requires grown { IsGrown scene.now.classes.now }
    requires loaded { (i a : ℕ) → slice_get scene.now.loaded.now i ≡ Some a → IsAddress scene.now.heap.now a }
    requires objects { AreAddresses scene.now.heap.now scene.now.references call.now.operands.items }
    ensures seen { IsSeen (scene_view scene.now) (call_view call.now) result }
    ensures there { call.now.function ≢ GetStaticMethodID → IsThere (scene_view scene.now) (call_view call.now) result }
    ensures method { call.now.function ≡ GetStaticMethodID → IsThereOrMethod (scene_view scene.now) (call_view call.now) result }
    ensures ends { EndsFirst (scene_view scene.now) (call_view call.now) result }
    ensures calls { CallsMethod (call_view call.now) result }
{
    match call.function {
        JniFunction::FindClass => {
            let class = scene.classes.find(text_at(&call.texts, 0));
            found_class(scene.loaded, class)
        }
        JniFunction::GetSuperclass => {
            let class = class_given(scene, call, 0);
            gives_class(scene.loaded, scene.classes.superclass(class))
        }
        JniFunction::GetObjectClass => {
            let first = argument(scene, call, 0);
            gives_class(scene.loaded, Some(class_of_given(scene.heap, first)))
        }
        JniFunction::IsInstanceOf => {
            let first = argument(scene, call, 0);
            let class = class_given(scene, call, 1);
            gives_truth(fits_there(scene.classes, scene.heap, first, class))
        }
        JniFunction::IsAssignableFrom => {
            let below = class_given(scene, call, 0);
            let above = class_given(scene, call, 1);
            gives_truth(scene.classes.assignable(below, above))
        }
        JniFunction::AllocObject => Answer::Makes(New::Fresh(class_given(scene, call, 0))),
        JniFunction::GetFieldID => {
            let class = class_given(scene, call, 0);
            find_field(scene.classes, class, &call.texts, false)
        }
        JniFunction::GetStaticFieldID => {
            let class = class_given(scene, call, 0);
            find_field(scene.classes, class, &call.texts, true)
        }
        JniFunction::GetStaticMethodID => {
            let class = class_given(scene, call, 0);
            method_found(scene.items, scene.classes, class, &call.texts)
        }
        JniFunction::CallStaticVoidMethod => Answer::Calls,
        JniFunction::CallStaticIntMethod | JniFunction::CallStaticObjectMethod => Answer::Calls,
        _ => unreachable!(),
    }
}

/// What a function does that works on references and frames.
#[inline(always)]
#[tactic(auto, unfolding(semantics::specs::AnswerTable::call_answer))]
fn work_out_reference(scene: &Scene<'_>, call: &Call) -> Answer
    requires subject { subject_of call.now.function ≡ subject.References }
    requires objects { AreAddresses scene.now.heap.now scene.now.references call.now.operands.items }
    ensures seen { IsSeen (scene_view scene.now) (call_view call.now) result }
    ensures there { IsThere (scene_view scene.now) (call_view call.now) result }
    ensures ends { EndsFirst (scene_view scene.now) (call_view call.now) result }
    ensures calls { CallsMethod (call_view call.now) result }
{
    match call.function {
        JniFunction::NewLocalRef => Answer::Gives(Given::Reference(argument(scene, call, 0))),
        JniFunction::NewGlobalRef => Answer::MakesGlobal(argument(scene, call, 0)),
        JniFunction::NewWeakGlobalRef => Answer::MakesWeak(argument(scene, call, 0)),
        JniFunction::DeleteLocalRef => {
            deletes(key_in(&scene.references, operand_of(&call.operands, 0)))
        }
        JniFunction::DeleteGlobalRef => {
            deletes_global(&scene.references, operand_of(&call.operands, 0))
        }
        JniFunction::DeleteWeakGlobalRef => {
            deletes_weak(&scene.references, operand_of(&call.operands, 0))
        }
        JniFunction::IsSameObject => {
            let first = name_of(scene, call, 0);
            let second = name_of(scene, call, 1);
            gives_truth(first == second)
        }
        JniFunction::EnsureLocalCapacity => room_for(stack_number(scene.stack)),
        JniFunction::PushLocalFrame => frame_for(stack_number(scene.stack)),
        JniFunction::PopLocalFrame => Answer::Pops(argument(scene, call, 0)),
        _ => unreachable!(),
    }
}

/// What a function does that works on the fields of an object.
#[inline(always)]
#[tactic(auto, using(crate::proofs::FieldKinds::no_static, std::proofs::lemmas::Grind::common_steps), unfolding(semantics::specs::AnswerTable::call_answer))]
fn work_out_field(scene: &Scene<'_>, call: &Call) -> Answer
    requires subject { subject_of call.now.function ≡ subject.Fields }
    requires grown { IsGrown scene.now.classes.now }
    requires objects { AreAddresses scene.now.heap.now scene.now.references call.now.operands.items }
    requires handles { AreHandles scene.now.classes.now scene.now.fields.now call.now.operands.items }
    requires passed { arguments_fit (scene_view scene.now) call.now.operands.items
        (element_wanted call.now.target) call.now.function ≡ true }
    ensures seen { IsSeen (scene_view scene.now) (call_view call.now) result }
    ensures there { IsThere (scene_view scene.now) (call_view call.now) result }
    ensures ends { EndsFirst (scene_view scene.now) (call_view call.now) result }
    ensures calls { CallsMethod (call_view call.now) result }
{
    match call.function {
        JniFunction::GetField(_) => {
            let value = value_of_field(scene, call);
            Answer::Gives(Given::Number(word_in(value)))
        }
        JniFunction::SetField(element) => {
            let value = stored(element, scene.stack);
            writes_field(scene, call, value)
        }
        JniFunction::GetObjectField => {
            let value = value_of_field(scene, call);
            Answer::Gives(Given::Reference(address_in(value)))
        }
        JniFunction::SetObjectField => {
            let value = held_reference(argument(scene, call, 2));
            writes_field(scene, call, value)
        }
        _ => unreachable!(),
    }
}

/// What a function does that works on a static of a class.
#[inline(always)]
#[tactic(auto, using(crate::proofs::FieldKinds::a_static, std::proofs::lemmas::Grind::common_steps), unfolding(semantics::specs::AnswerTable::call_answer))]
fn work_out_static(scene: &Scene<'_>, call: &Call) -> Answer
    requires subject { subject_of call.now.function ≡ subject.Statics }
    requires loaded { (i a : ℕ) → slice_get scene.now.loaded.now i ≡ Some a → IsAddress scene.now.heap.now a }
    requires objects { AreAddresses scene.now.heap.now scene.now.references call.now.operands.items }
    requires handles { AreHandles scene.now.classes.now scene.now.fields.now call.now.operands.items }
    requires passed { arguments_fit (scene_view scene.now) call.now.operands.items
        (element_wanted call.now.target) call.now.function ≡ true }
    ensures seen { IsSeen (scene_view scene.now) (call_view call.now) result }
    ensures there { IsThere (scene_view scene.now) (call_view call.now) result }
    ensures ends { EndsFirst (scene_view scene.now) (call_view call.now) result }
    ensures calls { CallsMethod (call_view call.now) result }
{
    match call.function {
        JniFunction::GetStaticField(_) => {
            let value = value_of_static(scene, call);
            Answer::Gives(Given::Number(word_in(value)))
        }
        JniFunction::SetStaticField(element) => {
            let value = stored(element, scene.stack);
            writes_static(scene, call, value)
        }
        JniFunction::GetStaticObjectField => {
            let value = value_of_static(scene, call);
            Answer::Gives(Given::Reference(address_in(value)))
        }
        JniFunction::SetStaticObjectField => {
            let value = held_reference(argument(scene, call, 2));
            writes_static(scene, call, value)
        }
        _ => unreachable!(),
    }
}

/// The reference of the operand at a place.
#[inline(always)]
pub fn argument(scene: &Scene<'_>, call: &Call, place: usize) -> Option<Addr>
    requires { AreAddresses scene.now.heap.now scene.now.references call.now.operands.items }
    ensures reference { result ≡ reference (scene_view scene.now) (call_view call.now) place }
    ensures there { ReferenceIsThere scene.now.heap.now result }
{
    reference_at(&scene.references, &call.operands, place)
}

/// The id of the object of the operand at a place, and the number 0 for NULL.
#[inline(always)]
pub(crate) fn name_of(scene: &Scene<'_>, call: &Call, place: usize) -> ObjectId
    requires { AreAddresses scene.now.heap.now scene.now.references call.now.operands.items }
    ensures { result.number ≡ name_there scene.now.heap.now (reference (scene_view scene.now) (call_view call.now) place) }
{
    name_there(scene.heap, argument(scene, call, place))
}

/// The class whose class object the operand at a place is. The two have one number.
#[inline(always)]
pub(crate) fn class_given(scene: &Scene<'_>, call: &Call, place: usize) -> ClassId
    requires { AreAddresses scene.now.heap.now scene.now.references call.now.operands.items }
    ensures { result.number ≡ name_there scene.now.heap.now (reference (scene_view scene.now) (call_view call.now) place) }
{
    ClassId {
        number: name_of(scene, call, place).number,
    }
}

/// The field ID of operand 1, which is NULL or that of a field.
#[inline(always)]
pub(crate) fn handle_of(scene: &Scene<'_>, call: &Call) -> Option<FieldHandle>
    requires { AreHandles scene.now.classes.now scene.now.fields.now call.now.operands.items }
    ensures field { result ≡ handle (scene_view scene.now) (call_view call.now) }
    ensures there { FieldIsThere scene.now.classes.now result }
{
    handle_at(scene.fields, &call.operands, 1)
}

/// A class object is given, or NULL.
#[inline(always)]
fn gives_class(loaded: &[Addr], class: Option<ClassId>) -> Answer
    ensures { result ≡ Answer.Gives (Given.Reference (class_object loaded.now (number_of class))) }
{
    Answer::Gives(Given::Reference(class_object(loaded, class)))
}

/// A truth is given.
#[inline(always)]
pub(crate) fn gives_truth(truth: bool) -> Answer
    ensures { result ≡ Answer.Gives (Given.Number (truth_word truth)) }
{
    Answer::Gives(Given::Number(u32::from(truth)))
}

/// A class that was found, or else an exception.
fn found_class(loaded: &[Addr], class: Option<ClassId>) -> Answer
    ensures { result ≡ found_class loaded.now (number_of class) }
{
    match class {
        Some(class) => Answer::Gives(Given::Reference(class_object(loaded, Some(class)))),
        None => Answer::Throws(NO_CLASS_DEF_FOUND_ERROR),
    }
}

/// Room for this number of references more in the current frame; it is refused where the number is negative.
fn room_for(more: i32) -> Answer
    ensures { result ≡ room_for more }
{
    if more < 0 {
        Answer::RefusesFrames
    } else {
        Answer::Ensures(more as u32)
    }
}

/// A frame with room for this number of references; it is refused where the number is negative.
fn frame_for(capacity: i32) -> Answer
    ensures { result ≡ frame_for capacity }
{
    if capacity < 0 {
        Answer::RefusesFrames
    } else {
        Answer::Pushes(capacity as u32)
    }
}

/// The local reference of this key ends; nothing does for NULL.
fn deletes(key: Option<Local>) -> Answer
    ensures { result ≡ deletes key }
{
    match key {
        Some(key) => Answer::Deletes(key),
        None => Answer::Gives(Given::Nothing),
    }
}

/// The global reference of a static ends, where it holds one.
fn deletes_global(references: &References<'_>, operand: Operand) -> Answer
    ensures { result ≡ deletes_global references.now operand }
{
    match operand {
        Operand::Static(slot) => match references.held(slot) {
            Held::At(_) => Answer::DeletesGlobal(slot),
            Held::Empty | Held::Weakly(_) | Held::Cleared | Held::Deleted => {
                Answer::Gives(Given::Nothing)
            }
        },
        _ => Answer::Gives(Given::Nothing),
    }
}

/// The weak global reference of a static ends, cleared or not, where it holds one.
fn deletes_weak(references: &References<'_>, operand: Operand) -> Answer
    ensures { result ≡ deletes_weak references.now operand }
{
    match operand {
        Operand::Static(slot) => match references.held(slot) {
            Held::Weakly(_) | Held::Cleared => Answer::DeletesWeak(slot),
            Held::Empty | Held::At(_) | Held::Deleted => Answer::Gives(Given::Nothing),
        },
        _ => Answer::Gives(Given::Nothing),
    }
}

/// A handle of the field, or the static, with the name and the signature of a call's texts, or else an exception.
fn find_field(classes: &ClassTable, class: ClassId, texts: &[Vec<u8>], is_static: bool) -> Answer
    ensures { IsFoundField classes.now (find_as classes.now class.number (unwrap_or
        (slice_get (map (λ text. text.items) texts.now) 0) []) (unwrap_or
        (slice_get (map (λ text. text.items) texts.now) 1) []) is_static) result }
{
    match classes.find_handle(class, text_at(texts, 0), text_at(texts, 1), is_static) {
        Some(handle) => Answer::Gives(Given::FieldId(Some(handle))),
        None => Answer::Throws(NO_SUCH_FIELD_ERROR),
    }
}

/// A handle of the method with the name and the signature of a call's texts, or else an exception.
fn method_found(items: &[Item], classes: &ClassTable, class: ClassId, texts: &[Vec<u8>]) -> Answer
    ensures { IsFoundMethod (unit_tree items.now) classes.now (find_method (unit_tree items.now) classes.now class.number (unwrap_or
        (slice_get (map (λ text. text.items) texts.now) 0) []) (unwrap_or
        (slice_get (map (λ text. text.items) texts.now) 1) [])) result }
{
    match find_method(items, classes, class, text_at(texts, 0), text_at(texts, 1)) {
        Some(found) => Answer::Gives(Given::MethodId(Some(MethodHandle {
            class,
            declarer: found.declarer,
            function: found.number,
            item: item_of(items, found.number),
        }))),
        None => Answer::Throws(NO_SUCH_METHOD_ERROR),
    }
}

/// The place of a function's item among these, by the function's number.
fn item_of(items: &[Item], function: usize) -> usize
    ensures { (f : Function) → slice_get (functions_of (unit_tree items.now)) function ≡ Some f
        → slice_get (unit_tree items.now).items result ≡ Some (FunctionItem f) }
{
    let mut place = 0;
    let mut before = 0;
    for item in items {
        match item {
            Item::Static(_) => {}
            Item::Function(_) => {
                if before == function {
                    return place;
                }
                before += 1;
            }
        }
        place += 1;
    }
    place
}

/// The number of values of an object, and 0 for NULL.
pub(crate) fn count_there(heap: &Heap, reference: Option<Addr>) -> u32
    requires { ReferenceIsThere heap.now reference }
    ensures { result ≡ length (values_seen heap.now reference) }
{
    // The proof reads off these calls that no object has more values than there are cells.
    let _ = heap.count();
    let _ = heap.cells();
    match reference {
        Some(addr) => heap.len_of(addr) as u32,
        None => 0,
    }
}

// ---- fields

/// The place of the field of operand 1 among the values of operand 0.
#[inline(always)]
fn place_of_field(scene: &Scene<'_>, call: &Call) -> usize
    requires grown { IsGrown scene.now.classes.now }
    requires objects { AreAddresses scene.now.heap.now scene.now.references call.now.operands.items }
    requires handles { AreHandles scene.now.classes.now scene.now.fields.now call.now.operands.items }
    ensures { is_some (handle (scene_view scene.now) (call_view call.now)) ≡ true
        → (field (scene_view scene.now) (call_view call.now)).is_static ≡ false
        → result ≡ place (scene_view scene.now) (call_view call.now) }
{
    let class = class_of_given(scene.heap, argument(scene, call, 0));
    field_place(scene.classes, class, handle_of(scene, call))
}

/// The class object that holds the static of operand 1.
#[inline(always)]
pub(crate) fn holder_of_static(scene: &Scene<'_>, call: &Call) -> Option<Addr>
    requires loaded { (i a : ℕ) → slice_get scene.now.loaded.now i ≡ Some a → IsAddress scene.now.heap.now a }
    requires handles { AreHandles scene.now.classes.now scene.now.fields.now call.now.operands.items }
    ensures is { is_some (handle (scene_view scene.now) (call_view call.now)) ≡ true
        → result ≡ declaring (scene_view scene.now) (call_view call.now) }
    ensures there { ReferenceIsThere scene.now.heap.now result }
{
    let class = declaring(handle_of(scene, call));
    class_object(scene.loaded, Some(class))
}

/// The place of the static of operand 1 among the values of its class object.
#[inline(always)]
pub(crate) fn place_of_static(scene: &Scene<'_>, call: &Call) -> usize
    requires { AreHandles scene.now.classes.now scene.now.fields.now call.now.operands.items }
    ensures { is_some (handle (scene_view scene.now) (call_view call.now)) ≡ true
        → (field (scene_view scene.now) (call_view call.now)).is_static ≡ true
        → result ≡ place_of_static (scene_view scene.now) (call_view call.now) }
{
    static_place(scene.classes, handle_of(scene, call))
}

/// The value of the field of operand 1 in operand 0.
#[inline(always)]
fn value_of_field(scene: &Scene<'_>, call: &Call) -> Option<Value>
    requires grown { IsGrown scene.now.classes.now }
    requires objects { AreAddresses scene.now.heap.now scene.now.references call.now.operands.items }
    requires handles { AreHandles scene.now.classes.now scene.now.fields.now call.now.operands.items }
    ensures number { is_some (handle (scene_view scene.now) (call_view call.now)) ≡ true
        → (field (scene_view scene.now) (call_view call.now)).is_static ≡ false → cast_signed w32 (word_in result)
        ≡ number_in (value_in (object_seen scene.now.heap.now (reference (scene_view scene.now) (call_view call.now) 0))
        (place (scene_view scene.now) (call_view call.now))) }
    ensures reference { is_some (handle (scene_view scene.now) (call_view call.now)) ≡ true
        → (field (scene_view scene.now) (call_view call.now)).is_static ≡ false → name_seen scene.now.heap.now (address_in result)
        ≡ reference_in (value_in (object_seen scene.now.heap.now (reference (scene_view scene.now) (call_view call.now) 0))
        (place (scene_view scene.now) (call_view call.now))) }
    ensures there { CellsAreThere scene.now.heap.now → view.reference_there scene.now.heap.now (address_in result) ≡ true }
{
    let first = argument(scene, call, 0);
    value_there(scene.heap, first, place_of_field(scene, call))
}

/// The field of operand 1 in operand 0 changes to this value.
#[inline(always)]
fn writes_field(scene: &Scene<'_>, call: &Call, value: Value) -> Answer
    requires grown { IsGrown scene.now.classes.now }
    requires objects { AreAddresses scene.now.heap.now scene.now.references call.now.operands.items }
    requires handles { AreHandles scene.now.classes.now scene.now.fields.now call.now.operands.items }
    ensures seen { is_some (handle (scene_view scene.now) (call_view call.now)) ≡ true
        → (field (scene_view scene.now) (call_view call.now)).is_static ≡ false
        → nat_lt (place (scene_view scene.now) (call_view call.now))
        (length (values_seen scene.now.heap.now (reference (scene_view scene.now) (call_view call.now) 0))) ≡ true
        → view.answer_seen (scene_view scene.now) (call_view call.now) GivesNothing result
        ≡ Writes (name_or_zero (name_seen scene.now.heap.now (reference (scene_view scene.now) (call_view call.now) 0)))
        (place (scene_view scene.now) (call_view call.now)) (value_seen scene.now.heap.now value) }
    ensures there { view.value_there scene.now.heap.now value ≡ true
        → view.answer_there (scene_view scene.now) (call_view call.now) GivesNothing result ≡ true }
{
    let first = argument(scene, call, 0);
    writes_there(scene.heap, first, place_of_field(scene, call), value)
}

/// The value of the static of operand 1.
#[inline(always)]
pub(crate) fn value_of_static(scene: &Scene<'_>, call: &Call) -> Option<Value>
    requires loaded { (i a : ℕ) → slice_get scene.now.loaded.now i ≡ Some a → IsAddress scene.now.heap.now a }
    requires handles { AreHandles scene.now.classes.now scene.now.fields.now call.now.operands.items }
    ensures number { is_some (handle (scene_view scene.now) (call_view call.now)) ≡ true
        → (field (scene_view scene.now) (call_view call.now)).is_static ≡ true → cast_signed w32 (word_in result)
        ≡ number_in (value_in (object_seen scene.now.heap.now (declaring (scene_view scene.now) (call_view call.now)))
        (place_of_static (scene_view scene.now) (call_view call.now))) }
    ensures reference { is_some (handle (scene_view scene.now) (call_view call.now)) ≡ true
        → (field (scene_view scene.now) (call_view call.now)).is_static ≡ true → name_seen scene.now.heap.now (address_in result)
        ≡ reference_in (value_in (object_seen scene.now.heap.now (declaring (scene_view scene.now) (call_view call.now)))
        (place_of_static (scene_view scene.now) (call_view call.now))) }
    ensures there { CellsAreThere scene.now.heap.now → view.reference_there scene.now.heap.now (address_in result) ≡ true }
{
    let holder = holder_of_static(scene, call);
    value_there(scene.heap, holder, place_of_static(scene, call))
}

/// The static of operand 1 changes to this value.
#[inline(always)]
fn writes_static(scene: &Scene<'_>, call: &Call, value: Value) -> Answer
    requires loaded { (i a : ℕ) → slice_get scene.now.loaded.now i ≡ Some a → IsAddress scene.now.heap.now a }
    requires handles { AreHandles scene.now.classes.now scene.now.fields.now call.now.operands.items }
    ensures seen { is_some (handle (scene_view scene.now) (call_view call.now)) ≡ true
        → (field (scene_view scene.now) (call_view call.now)).is_static ≡ true
        → nat_lt (place_of_static (scene_view scene.now) (call_view call.now))
        (length (values_seen scene.now.heap.now (declaring (scene_view scene.now) (call_view call.now)))) ≡ true
        → view.answer_seen (scene_view scene.now) (call_view call.now) GivesNothing result
        ≡ Writes (name_or_zero (name_seen scene.now.heap.now (declaring (scene_view scene.now) (call_view call.now))))
        (place_of_static (scene_view scene.now) (call_view call.now)) (value_seen scene.now.heap.now value) }
    ensures there { view.value_there scene.now.heap.now value ≡ true
        → view.answer_there (scene_view scene.now) (call_view call.now) GivesNothing result ≡ true }
{
    let holder = holder_of_static(scene, call);
    writes_there(scene.heap, holder, place_of_static(scene, call), value)
}

/// The place of the field of a handle among those of a class, and 0 for NULL.
#[inline(always)]
pub(crate) fn field_place(classes: &ClassTable, class: ClassId, field: Option<FieldHandle>) -> usize
    requires grown { IsGrown classes.now }
    requires there { FieldIsThere classes.now field }
    ensures { is_some field ≡ true → (field_there classes.now field).is_static ≡ false
        → result ≡ place_in (field_there classes.now field) (layout classes.now class.number) }
{
    match field {
        Some(handle) => {
            if handle.is_static {
                0
            } else {
                classes.field_place(class, handle)
            }
        }
        None => 0,
    }
}

/// The place of the static of a handle among those of the class that declares it, and 0 for NULL.
fn static_place(classes: &ClassTable, field: Option<FieldHandle>) -> usize
    requires { FieldIsThere classes.now field }
    ensures { is_some field ≡ true → (field_there classes.now field).is_static ≡ true
        → result ≡ static_place classes.now (field_there classes.now field) }
{
    match field {
        Some(handle) => classes.static_place(handle),
        None => 0,
    }
}

/// A value of an object, where the object has it.
#[inline(always)]
pub(crate) fn value_there(heap: &Heap, reference: Option<Addr>, place: usize) -> Option<Value>
    requires { ReferenceIsThere heap.now reference }
    ensures { result ≡ value_there heap.now reference place }
{
    match reference {
        Some(addr) if place < heap.len_of(addr) => Some(heap.get(addr, place)),
        _ => None,
    }
}

/// The word in a cell, and 0 where there is none.
#[inline(always)]
pub(crate) fn word_in(value: Option<Value>) -> u32
    ensures { result ≡ word_in value }
{
    match value {
        Some(Value::Number(word)) => word,
        _ => 0,
    }
}

/// The address in a cell, and NULL where there is none.
#[inline(always)]
pub(crate) fn address_in(value: Option<Value>) -> Option<Addr>
    ensures { result ≡ address_in value }
{
    match value {
        Some(held) => match held {
            Value::Block(addr) => Some(addr),
            Value::Number(_) | Value::Null => None,
        },
        None => None,
    }
}

/// How a cell holds a reference.
#[inline(always)]
pub(crate) fn held_reference(reference: Option<Addr>) -> Value
    ensures is { result ≡ held_reference reference }
    ensures seen { (space : Space) → value_seen space result ≡ Refers (name_seen space reference) }
    ensures there { (space : Space) → ReferenceIsThere space reference → view.value_there space result ≡ true }
{
    match reference {
        Some(addr) => Value::Block(addr),
        None => Value::Null,
    }
}

/// A value of an object changes, where the object has it.
pub(crate) fn writes_there(
    heap: &Heap,
    reference: Option<Addr>,
    place: usize,
    value: Value,
) -> Answer
    requires { ReferenceIsThere heap.now reference }
    ensures { result ≡ writes_there heap.now reference place value }
{
    match reference {
        Some(addr) if place < heap.len_of(addr) => Answer::Writes {
            object: addr,
            place,
            value,
        },
        _ => Answer::Gives(Given::Nothing),
    }
}

/// The word on top of the stack, and 0 where there is none.
#[inline(always)]
pub(crate) fn top_word(stack: &Stack) -> u32
    ensures { result ≡ unwrap_or (slice_get stack.now 0) 0 }
{
    if stack.is_empty() { 0 } else { stack.top() }
}

/// How a cell of this type holds the word on the stack.
#[tactic(auto, using(code_meaning::proofs::ElementWords::element_same))]
#[inline(always)]
pub(crate) fn stored(element: syntax::ElementType, stack: &Stack) -> Value
    ensures word { result ≡ Value.Number (element_word (element_of element) (unwrap_or (slice_get stack.now 0) 0)) }
    ensures seen { (space : Space) → value_seen space result ≡ Number (convert element (number_at stack.now 0)) }
    ensures there { (space : Space) → view.value_there space result ≡ true }
{
    Value::Number(element_word(element, top_word(stack)))
}

// ---- classes

/// The address of a class object.
fn class_object(loaded: &[Addr], class: Option<ClassId>) -> Option<Addr>
    ensures { result ≡ class_object loaded.now (number_of class) }
{
    match class {
        Some(class) => loaded.get(class.number.saturating_sub(1)).copied(),
        None => None,
    }
}
