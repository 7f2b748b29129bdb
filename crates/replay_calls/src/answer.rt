//! What a function of the JNI does, as data.

ghost use Rattle.std.specs.Prelude.{◌≡◌, [], false, length, map, pos, slice_get, true};
ghost use Rattle.std.specs.Option.{option_map};
ghost use Rattle.classes.specs.FieldViews.{field_id_view};
ghost use Rattle.base.specs.Bytes.{lookup};
ghost use Rattle.class_rules.specs.Class.{Classes, class_kind, element_class};
ghost use Rattle.class_rules.specs.ClassIds.{number_of};
ghost use Rattle.class_rules.specs.Fields.{find_field, find_static};
ghost use Rattle.class_rules.specs.Grown.{IsGrown};
ghost use Rattle.jni.specs.Subjects.{subject_of};
ghost use Rattle.jni.specs.Table.{facts, facts_of};
ghost use Rattle.jni.specs.declared.subject.Subject.TheVariants as subject;
ghost use Rattle.syntax.specs.Views.{unit_tree};
ghost use Rattle.semantics.specs.AnswerTable.{element_given, element_set, ensured, fits, found_class, found_field, found_method, global_deleted, index_within, local_deleted, method_called, new_array, pushed, weak_deleted};
ghost use Rattle.semantics.specs.CallSight.{argument_seen};
ghost use Rattle.semantics.specs.Checks.{trap_of};
ghost use Rattle.semantics.specs.Arguments.{field_given, number_given, object_given, reference_given, text_given, variable_given};
ghost use Rattle.semantics.specs.CallEffects.{same_reference};
ghost use Rattle.semantics.specs.Heap.{class_of, field_place, number_in, reference_in, static_place, values_of};
ghost use Rattle.semantics.specs.Method.{find_method};
ghost use Rattle.semantics.specs.Object.{Number, Refers};
ghost use Rattle.semantics.specs.Views.{name_of};
ghost use Rattle.replay_arguments.specs.Actuals.{actual_view};
ghost use Rattle.replay_arguments.specs.Sights.{scene_sight};
ghost use Rattle.replay_calls.specs.Answers.{answered, FitsCall, answer_view, array_given, scene_answer};
ghost use Rattle.replay_objects.specs.New.{array_class};
ghost use Rattle.replay_terms.specs.Views.{held_view, method_view, variables_view};
ghost use Rattle.world_values.specs.Views.{object_value_view};

use crate::buffers::buffer_answer;
use crate::exceptions::exception_answer;
use crate::monitors::monitor_answer;
use crate::regions::region_answer;
use class_queries::{element_class, find_method};
use class_rules::ClassId;
use classes::built_ins::{
    ARRAY_INDEX_OUT_OF_BOUNDS_EXCEPTION, ARRAY_STORE_EXCEPTION, NEGATIVE_ARRAY_SIZE_EXCEPTION,
    NO_CLASS_DEF_FOUND_ERROR, NO_SUCH_FIELD_ERROR, NO_SUCH_METHOD_ERROR, number_array,
};
use classes::fields::FieldId;
use classes::table::ClassTable;
use jni::{JniFunction, Prototype, Subject};
use replay_arguments::actual::{
    Actual, class_given, field_given, method_given, number_given, object_given, reference_given,
    text_given, variable_given,
};
use replay_arguments::check::check;
use replay_arguments::{Scene, field};
use replay_objects::{New, Store};
use replay_terms::{Given, MethodId, StaticReference, Statics, convert};
use semantics::{ObjectId, Trap};
use syntax::{ElementType, Item};
use world_values::ObjectValue;

/// What a call does, all checks being passed. A variable is that of an argument.
#[derive(Clone, Copy)]
pub enum Answer<'a> {
    /// Nothing changes, and this is given.
    Gives(Given<'a>),
    /// A value of the object of this name changes, by its place, counted from 0.
    Writes {
        object: ObjectId,
        place: usize,
        value: ObjectValue,
    },
    /// This object is made, and given.
    Makes(New<'a>),
    /// An exception of the class of this number is made, with zero and null fields, and is pending.
    Raises(ClassId),
    /// A string of this text is made, and an exception of the class of this number with it as message; the exception is
    /// pending, and 0 is given.
    RaisesWith {
        class: ClassId,
        text: &'a [u8],
    },
    /// The exception of this name is pending, or none is, whatever was pending before, and this is given.
    Pends {
        exception: Option<ObjectId>,
        given: Given<'a>,
    },
    /// The current frame gets room for this number of references more and 0 is given, or -4 where the frames can't have it.
    Ensures(usize),
    /// A frame of this capacity is made and 0 is given, or -4 where the frames can't have it.
    Pushes(usize),
    /// -4 is given, and the OutOfMemoryError object is pending.
    RefusesFrames,
    /// The current frame is dropped, and this is given.
    Pops(Option<ObjectId>),
    /// A local reference to the object of this name is deleted, in the frame of the first argument's variable.
    DeletesLocal(ObjectId),
    /// A global reference to the object of this name is made and given, and none for NULL.
    MakesGlobal(Option<ObjectId>),
    /// A global reference to the object of this name is deleted, and the static of the first argument, which held it, is marked.
    DeletesGlobal(ObjectId),
    /// The static of the first argument, which held a weak global reference, is marked.
    DeletesWeak,
    /// The local array of the fourth argument begins with the numbers of a region.
    GetsRegion(Region),
    /// The numbers of a region become the first of the local array of the fourth argument.
    SetsRegion(Region),
    /// A copy of the numbers of the object of this name is given, or NULL where all copies would be too long.
    Copies(ObjectId),
    /// A view of the object of this name is given, or NULL where there are as many as there may be.
    Views(ObjectId),
    /// The object of this name gets the numbers of the copy that the second argument's variable holds, which is given up or not.
    CopiesBack {
        object: ObjectId,
        frees: bool,
    },
    /// The buffer that the second argument's variable holds is given up.
    Frees,
    /// The thread owns the object of this name so many times, and 0 is given.
    Owns {
        object: ObjectId,
        count: u8,
    },
    /// Nobody owns the object of this name, and 0 is given.
    Disowns(ObjectId),
    /// The method is called, with what is passed to it.
    Calls(MethodId<'a>),
    /// The run stops.
    Halts(Trap),
}

/// A part of an array or of a string.
#[derive(Clone, Copy)]
pub struct Region {
    pub object: ObjectId,
    /// The place of the first value, counted from 0.
    pub start: usize,
    pub count: usize,
}

/// Who calls, and what a call goes by beside what it sees.
#[derive(Clone, Copy)]
pub struct Caller<'a> {
    /// The items of the unit, in the order of the text.
    pub unit: &'a [Item],
    /// The thread's number, from 1.
    pub thread: u8,
    /// The element type of the buffer that the call is to fill.
    pub element: ElementType,
}

/// What a call does, its arguments being looked up: the run stops by the first check that fails, or else it does what
/// its function does. How deep calls are is none of these checks: that is checked where a method is entered.
#[inline(always)]
pub fn answer_or_trap<'a>(
    scene: Scene<'_, 'a>,
    caller: Caller<'a>,
    function: JniFunction,
    asked: &Prototype,
    actuals: &[Actual<'a>],
) -> Answer<'a>
    requires grown { IsGrown scene.classes.now }
    requires asked { facts asked.now ≡ facts_of function }
    ensures answer { answer_view scene.entry.classes.now result
        ≡ answered (trap_of scene.entry.classes.now (scene_sight scene.entry function actuals.now) caller.entry.element
        function)
        (scene_answer scene.entry caller.entry function actuals.now) }
    ensures fits { FitsCall scene.entry.shared.now.store
        (array_given (variables_view scene.entry.locals.now.variables) (map actual_view actuals.now)) function
        (answer_view scene.entry.classes.now result) }
{
    match check(scene, caller.element, function, asked, actuals) {
        Some(trap) => Answer::Halts(trap),
        None => work_out(scene, caller, function, actuals),
    }
}

/// What a function does, all checks being passed.
#[inline(always)]
fn work_out<'a>(
    scene: Scene<'_, 'a>,
    caller: Caller<'a>,
    function: JniFunction,
    actuals: &[Actual<'a>],
) -> Answer<'a>
    requires { IsGrown scene.classes.now }
    ensures { answer_view scene.entry.classes.now result ≡ scene_answer scene.entry caller.entry function actuals.now }
{
    match function.subject() {
        Subject::Classes => class_answer(scene, caller, function, actuals),
        Subject::References => reference_answer(scene, caller, function, actuals),
        Subject::Fields => field_answer(scene, caller, function, actuals),
        Subject::Statics => static_answer(scene, caller, function, actuals),
        Subject::Arrays => array_answer(scene, caller, function, actuals),
        Subject::Regions => region_answer(scene, caller, function, actuals),
        Subject::Buffers => buffer_answer(scene, caller, function, actuals),
        Subject::Exceptions => exception_answer(scene, caller, function, actuals),
        Subject::Monitors => monitor_answer(scene, caller, function, actuals),
    }
}

/// What a function does that works on classes and methods.
#[tactic(auto, unfolding(semantics::specs::AnswerTable::call_answer))]
#[inline(always)]
fn class_answer<'a>(
    scene: Scene<'_, 'a>,
    caller: Caller<'a>,
    function: JniFunction,
    actuals: &[Actual<'a>],
) -> Answer<'a>
    requires { subject_of function ≡ subject.Classes }
    ensures { answer_view scene.entry.classes.now result ≡ scene_answer scene.entry caller.entry function actuals.now }
{
    let (classes, store) = (scene.classes, &scene.shared.store);
    let first = class_given(actuals, 0);
    let second = class_given(actuals, 1);
    match function {
        JniFunction::FindClass => found_class(classes.find(text_given(actuals, 0))),
        JniFunction::GetSuperclass => {
            let superclass = classes.superclass(first);
            Answer::Gives(Given::Reference(superclass.map(ObjectId::of_class)))
        }
        JniFunction::GetObjectClass => {
            let class = store.class_of(object_given(actuals, 0));
            Answer::Gives(Given::Reference(Some(ObjectId::of_class(class))))
        }
        JniFunction::IsInstanceOf => {
            Answer::Gives(Given::Flag(fits(classes, store, actuals, 0, second)))
        }
        JniFunction::IsAssignableFrom => {
            Answer::Gives(Given::Flag(classes.assignable(first, second)))
        }
        JniFunction::AllocObject => Answer::Makes(New::Fresh(first)),
        JniFunction::GetFieldID => field_named(classes, actuals, false),
        JniFunction::GetStaticFieldID => field_named(classes, actuals, true),
        JniFunction::GetStaticMethodID => method_named(caller.unit, classes, actuals),
        JniFunction::CallStaticVoidMethod => method_called(method_given(actuals, 1)),
        JniFunction::CallStaticIntMethod => method_called(method_given(actuals, 1)),
        JniFunction::CallStaticObjectMethod => method_called(method_given(actuals, 1)),
        _ => unreachable!(),
    }
}

/// What a function does that works on references and frames.
#[tactic(auto, unfolding(semantics::specs::AnswerTable::call_answer))]
#[inline(always)]
fn reference_answer<'a>(
    scene: Scene<'_, 'a>,
    caller: Caller<'a>,
    function: JniFunction,
    actuals: &[Actual<'a>],
) -> Answer<'a>
    requires { subject_of function ≡ subject.References }
    ensures { answer_view scene.entry.classes.now result ≡ scene_answer scene.entry caller.entry function actuals.now }
{
    match function {
        JniFunction::NewLocalRef => { Answer::Gives(Given::Reference(reference_given(actuals, 0))) }
        JniFunction::NewGlobalRef => Answer::MakesGlobal(reference_given(actuals, 0)),
        JniFunction::NewWeakGlobalRef => { Answer::Gives(Given::Weak(reference_given(actuals, 0))) }
        JniFunction::DeleteLocalRef => local_deleted(reference_given(actuals, 0)),
        JniFunction::DeleteGlobalRef => global_deleted(held(&scene.shared.statics, actuals)),
        JniFunction::DeleteWeakGlobalRef => weak_deleted(held(&scene.shared.statics, actuals)),
        JniFunction::IsSameObject => {
            let same = same_reference(reference_given(actuals, 0), reference_given(actuals, 1));
            Answer::Gives(Given::Flag(same))
        }
        JniFunction::EnsureLocalCapacity => ensured(number_given(actuals, 0)),
        JniFunction::PushLocalFrame => pushed(number_given(actuals, 0)),
        JniFunction::PopLocalFrame => Answer::Pops(reference_given(actuals, 0)),
        _ => unreachable!(),
    }
}

/// What a function does that works on the fields of an object.
#[tactic(auto, unfolding(semantics::specs::AnswerTable::call_answer))]
#[inline(always)]
fn field_answer<'a>(
    scene: Scene<'_, 'a>,
    caller: Caller<'a>,
    function: JniFunction,
    actuals: &[Actual<'a>],
) -> Answer<'a>
    requires subject { subject_of function ≡ subject.Fields }
    requires grown { IsGrown scene.classes.now }
    ensures { answer_view scene.entry.classes.now result ≡ scene_answer scene.entry caller.entry function actuals.now }
{
    let (classes, store) = (scene.classes, &scene.shared.store);
    let object = object_given(actuals, 0);
    let place = place_of_field(classes, store, actuals);
    match function {
        JniFunction::GetField(_) => {
            Answer::Gives(Given::Number(number_in(store.value_at(object, place))))
        }
        JniFunction::SetField(element) => {
            let number = convert(element, number_given(actuals, 2));
            Answer::Writes {
                object,
                place,
                value: ObjectValue::Number(number),
            }
        }
        JniFunction::GetObjectField => {
            Answer::Gives(Given::Reference(reference_in(store.value_at(object, place))))
        }
        JniFunction::SetObjectField => {
            Answer::Writes {
                object,
                place,
                value: ObjectValue::Reference(reference_given(actuals, 2)),
            }
        }
        _ => unreachable!(),
    }
}

/// What a function does that works on a static of a class.
#[tactic(auto, unfolding(semantics::specs::AnswerTable::call_answer))]
#[inline(always)]
fn static_answer<'a>(
    scene: Scene<'_, 'a>,
    caller: Caller<'a>,
    function: JniFunction,
    actuals: &[Actual<'a>],
) -> Answer<'a>
    requires subject { subject_of function ≡ subject.Statics }
    requires grown { IsGrown scene.classes.now }
    ensures { answer_view scene.entry.classes.now result ≡ scene_answer scene.entry caller.entry function actuals.now }
{
    let (classes, store) = (scene.classes, &scene.shared.store);
    let class = ObjectId::of_class(declarer(actuals));
    let place = place_of_static(classes, actuals);
    match function {
        JniFunction::GetStaticField(_) => {
            Answer::Gives(Given::Number(number_in(store.value_at(class, place))))
        }
        JniFunction::SetStaticField(element) => {
            let number = convert(element, number_given(actuals, 2));
            Answer::Writes {
                object: class,
                place,
                value: ObjectValue::Number(number),
            }
        }
        JniFunction::GetStaticObjectField => {
            Answer::Gives(Given::Reference(reference_in(store.value_at(class, place))))
        }
        JniFunction::SetStaticObjectField => {
            Answer::Writes {
                object: class,
                place,
                value: ObjectValue::Reference(reference_given(actuals, 2)),
            }
        }
        _ => unreachable!(),
    }
}

/// What a function does that works on arrays or strings.
#[tactic(auto, unfolding(semantics::specs::AnswerTable::call_answer))]
#[inline(always)]
fn array_answer<'a>(
    scene: Scene<'_, 'a>,
    caller: Caller<'a>,
    function: JniFunction,
    actuals: &[Actual<'a>],
) -> Answer<'a>
    requires { subject_of function ≡ subject.Arrays }
    ensures { answer_view scene.entry.classes.now result ≡ scene_answer scene.entry caller.entry function actuals.now }
{
    let (classes, store) = (scene.classes, &scene.shared.store);
    match function {
        JniFunction::GetArrayLength | JniFunction::GetStringLength => {
            let values = store.values_of(object_given(actuals, 0));
            Answer::Gives(Given::Number(values.len() as i32))
        }
        JniFunction::NewArray(element) => {
            new_array(number_array(element), number_given(actuals, 0))
        }
        JniFunction::NewObjectArray => new_object_array(actuals),
        JniFunction::GetObjectArrayElement => element(store, actuals),
        JniFunction::SetObjectArrayElement => element_set(classes, store, actuals),
        JniFunction::NewStringUTF => Answer::Makes(New::Text(text_given(actuals, 0))),
        _ => unreachable!(),
    }
}

/// The field or the static of a class with the name and the type of arguments 1 and 2, or else an exception.
fn field_named<'a>(classes: &'a ClassTable, actuals: &[Actual<'a>], is_static: bool) -> Answer<'a>
    ensures field { is_static ≡ false → (cs : Classes) → answer_view cs result
        ≡ found_field (find_field classes.now (object_given (map actual_view actuals.now) 0)
        (text_given (map actual_view actuals.now) 1) (text_given (map actual_view actuals.now) 2)) }
    ensures static_field { is_static ≡ true → (cs : Classes) → answer_view cs result
        ≡ found_field (find_static classes.now (object_given (map actual_view actuals.now) 0)
        (text_given (map actual_view actuals.now) 1) (text_given (map actual_view actuals.now) 2)) }
{
    let (name, text) = (text_given(actuals, 1), text_given(actuals, 2));
    found_field(classes.field(class_given(actuals, 0), name, text, is_static))
}

/// The method of a class with the name and the signature of arguments 1 and 2, or else an exception.
fn method_named<'a>(unit: &'a [Item], classes: &ClassTable, actuals: &[Actual<'a>]) -> Answer<'a>
    ensures { (cs : Classes) → answer_view cs result
        ≡ found_method
        (find_method (unit_tree unit.now) classes.now (object_given (map actual_view actuals.now) 0)
        (text_given (map actual_view actuals.now) 1) (text_given (map actual_view actuals.now) 2)) }
{
    let class = class_given(actuals, 0);
    let (name, text) = (text_given(actuals, 1), text_given(actuals, 2));
    match find_method(unit, classes, class, name, text) {
        Some(found) => Answer::Gives(Given::Method(Some(MethodId {
            class,
            function: found.function,
        }))),
        None => Answer::Raises(NO_SUCH_METHOD_ERROR),
    }
}

/// The method is called; without one the run stops.
fn method_called<'a>(method: Option<MethodId<'a>>) -> Answer<'a>
    ensures { (cs : Classes) → answer_view cs result ≡ method_called (option_map method_view method.entry) }
{
    match method {
        Some(method) => Answer::Calls(method),
        None => Answer::Halts(Trap::NullReference),
    }
}

/// A class that was found, or else an exception.
fn found_class<'a>(class: Option<ClassId>) -> Answer<'a>
    ensures { (cs : Classes) → answer_view cs result ≡ found_class (number_of class) }
{
    match class {
        Some(class) => Answer::Gives(Given::Reference(Some(ObjectId::of_class(class)))),
        None => Answer::Raises(NO_CLASS_DEF_FOUND_ERROR),
    }
}

/// A field that was found, or else an exception.
fn found_field(field: Option<FieldId<'_>>) -> Answer<'_>
    ensures { (cs : Classes) → answer_view cs result ≡ found_field (option_map field_id_view field.entry) }
{
    match field {
        Some(field) => Answer::Gives(Given::Field(Some(field))),
        None => Answer::Raises(NO_SUCH_FIELD_ERROR),
    }
}

/// Room for this number of references more in the current frame.
fn ensured<'a>(more: i32) -> Answer<'a>
    ensures { (cs : Classes) → answer_view cs result ≡ ensured more }
{
    if more < 0 {
        return Answer::RefusesFrames;
    }
    Answer::Ensures(more as usize)
}

/// A frame of this capacity.
fn pushed<'a>(capacity: i32) -> Answer<'a>
    ensures { (cs : Classes) → answer_view cs result ≡ pushed capacity }
{
    if capacity < 0 {
        return Answer::RefusesFrames;
    }
    Answer::Pushes(capacity as usize)
}

/// This local reference is deleted, unless it is NULL.
fn local_deleted<'a>(reference: Option<ObjectId>) -> Answer<'a>
    ensures { (cs : Classes) → answer_view cs result ≡ local_deleted (name_of reference) }
{
    match reference {
        Some(object) => Answer::DeletesLocal(object),
        None => Answer::Gives(Given::Nothing),
    }
}

/// What the static of the first argument holds, if it is one.
fn held(statics: &Statics<'_>, actuals: &[Actual<'_>]) -> Option<StaticReference>
    ensures { option_map held_view result ≡ lookup (variable_given (map actual_view actuals.now) 0) statics.now }
{
    statics.held_named(variable_given(actuals, 0))
}

/// The global reference is deleted that a static holds, if it holds one.
fn global_deleted<'a>(held: Option<StaticReference>) -> Answer<'a>
    ensures { (cs : Classes) → answer_view cs result ≡ global_deleted (option_map held_view held) }
{
    match held {
        Some(StaticReference::Live(object)) => Answer::DeletesGlobal(object),
        _ => Answer::Gives(Given::Nothing),
    }
}

/// The weak global reference is deleted that a static holds, cleared or not, if it holds one.
fn weak_deleted<'a>(held: Option<StaticReference>) -> Answer<'a>
    ensures { (cs : Classes) → answer_view cs result ≡ weak_deleted (option_map held_view held) }
{
    match held {
        Some(StaticReference::Weakly(_)) | Some(StaticReference::Cleared) => Answer::DeletesWeak,
        _ => Answer::Gives(Given::Nothing),
    }
}

/// Whether both are NULL, or one object.
fn same_reference(first: Option<ObjectId>, second: Option<ObjectId>) -> bool
    ensures { result ≡ same_reference (name_of first) (name_of second) }
{
    match (first, second) {
        (None, None) => true,
        (Some(first), Some(second)) => first == second,
        _ => false,
    }
}

// ---- fields

/// The place of the field of argument 1 among the values of argument 0.
fn place_of_field(classes: &ClassTable, store: &Store, actuals: &[Actual<'_>]) -> usize
    requires { IsGrown classes.now }
    ensures { result
        ≡ field_place classes.now store.now (object_given (map actual_view actuals.now) 0)
        (field_given (map actual_view actuals.now) 1) }
{
    let class = store.class_of(object_given(actuals, 0));
    field::field_place(classes, class, field_given(actuals, 1))
}

/// The class that declares the static of argument 1.
fn declarer(actuals: &[Actual<'_>]) -> ClassId
    ensures { result.number ≡ (field_given (map actual_view actuals.now) 1).class }
{
    field::declaring(field_given(actuals, 1))
}

/// The place of the static of argument 1 in that class.
fn place_of_static(classes: &ClassTable, actuals: &[Actual<'_>]) -> usize
    ensures { result ≡ static_place classes.now (field_given (map actual_view actuals.now) 1) }
{
    field::static_place(classes, field_given(actuals, 1))
}

/// The number of a value.
fn number_in(value: ObjectValue) -> i32
    ensures { result ≡ number_in (object_value_view value) }
{
    match value {
        ObjectValue::Number(number) => number,
        ObjectValue::Reference(_) => 0,
    }
}

/// The reference of a value.
fn reference_in(value: ObjectValue) -> Option<ObjectId>
    ensures { name_of result ≡ reference_in (object_value_view value) }
{
    match value {
        ObjectValue::Number(_) => None,
        ObjectValue::Reference(reference) => reference,
    }
}

// ---- arrays

/// An array of this class with this many zeros, or else an exception.
fn new_array<'a>(class: ClassId, count: i32) -> Answer<'a>
    ensures { (cs : Classes) → answer_view cs result ≡ new_array class.number count (Number (pos 0)) }
{
    if count < 0 {
        return Answer::Raises(NEGATIVE_ARRAY_SIZE_EXCEPTION);
    }
    Answer::Makes(New::Array {
        class,
        count: count as usize,
        value: ObjectValue::Number(0),
    })
}

/// An array of this many equal references to objects of this class, or else an exception.
fn object_array<'a>(element: ClassId, reference: Option<ObjectId>, count: i32) -> Answer<'a>
    ensures { (cs : Classes) → answer_view cs result ≡ new_array (array_class cs element.number) count (Refers (name_of reference)) }
{
    if count < 0 {
        return Answer::Raises(NEGATIVE_ARRAY_SIZE_EXCEPTION);
    }
    Answer::Makes(New::ObjectArray {
        element,
        count: count as usize,
        reference,
    })
}

/// An array with the length, the class of its elements and the reference of arguments 0 to 2, or else an exception.
fn new_object_array<'a>(actuals: &[Actual<'_>]) -> Answer<'a>
    ensures { (cs : Classes) → answer_view cs result
        ≡ new_array (array_class cs (object_given (map actual_view actuals.now) 1)) (number_given (map actual_view actuals.now) 0)
        (Refers (reference_given (map actual_view actuals.now) 2)) }
{
    let (element, reference) = (class_given(actuals, 1), reference_given(actuals, 2));
    let count = number_given(actuals, 0);
    object_array(element, reference, count)
}

/// The index of argument 1, where the array of argument 0 has it.
fn index_given(store: &Store, actuals: &[Actual<'_>]) -> Option<usize>
    ensures { result ≡ index_within (length (values_of store.now (object_given (map actual_view actuals.now) 0)))
        (number_given (map actual_view actuals.now) 1) }
{
    let index = number_given(actuals, 1);
    if index < 0 {
        return None;
    }
    let index = index as usize;
    if index < store.values_of(object_given(actuals, 0)).len() {
        Some(index)
    } else {
        None
    }
}

/// The element of an array of references at an index, or else an exception.
fn element<'a>(store: &Store, actuals: &[Actual<'_>]) -> Answer<'a>
    ensures { (cs : Classes) → answer_view cs result
        ≡ element_given (values_of store.now (object_given (map actual_view actuals.now) 0))
        (index_within (length (values_of store.now (object_given (map actual_view actuals.now) 0)))
        (number_given (map actual_view actuals.now) 1)) }
{
    match index_given(store, actuals) {
        Some(index) => {
            let value = store.value_at(object_given(actuals, 0), index);
            Answer::Gives(Given::Reference(reference_in(value)))
        }
        None => Answer::Raises(ARRAY_INDEX_OUT_OF_BOUNDS_EXCEPTION),
    }
}

/// The element of an array at an index becomes the reference of argument 2, or else there is an exception.
fn element_set<'a>(classes: &ClassTable, store: &Store, actuals: &[Actual<'_>]) -> Answer<'a>
    ensures { (cs : Classes) → answer_view cs result
        ≡ element_set (fits classes.now (argument_seen store.now (slice_get (map actual_view actuals.now) 2))
        (element_class (class_kind classes.now (class_of store.now (object_given (map actual_view actuals.now) 0)))))
        (object_given (map actual_view actuals.now) 0) (reference_given (map actual_view actuals.now) 2)
        (index_within (length (values_of store.now (object_given (map actual_view actuals.now) 0)))
        (number_given (map actual_view actuals.now) 1)) }
{
    let Some(index) = index_given(store, actuals) else {
        return Answer::Raises(ARRAY_INDEX_OUT_OF_BOUNDS_EXCEPTION);
    };
    if !fits_element(classes, store, actuals) {
        return Answer::Raises(ARRAY_STORE_EXCEPTION);
    }
    Answer::Writes {
        object: object_given(actuals, 0),
        place: index,
        value: ObjectValue::Reference(reference_given(actuals, 2)),
    }
}

/// Whether the reference of argument 2 may be an element of the array of argument 0.
fn fits_element(classes: &ClassTable, store: &Store, actuals: &[Actual<'_>]) -> bool
    ensures { result
        ≡ fits classes.now (argument_seen store.now (slice_get (map actual_view actuals.now) 2))
        (element_class (class_kind classes.now (class_of store.now (object_given (map actual_view actuals.now) 0)))) }
{
    let class = store.class_of(object_given(actuals, 0));
    let element = element_class(classes, class);
    fits(classes, store, actuals, 2, element)
}

/// Whether the reference of an argument fits a class, as NULL does always.
fn fits(
    classes: &ClassTable,
    store: &Store,
    actuals: &[Actual<'_>],
    place: usize,
    class: ClassId,
) -> bool
    ensures { result
        ≡ fits classes.now (argument_seen store.now (slice_get (map actual_view actuals.now) place)) class.number }
{
    match reference_given(actuals, place) {
        Some(object) => classes.assignable(store.class_of(object), class),
        None => true,
    }
}
