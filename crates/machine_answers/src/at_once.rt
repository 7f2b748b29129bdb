//! Answers that are seen at once: those of the commonest functions, where the references that a call names are local, and
//! no check stops it. None says nothing of a call. Here checks and answers are one piece of code, so nothing is looked up
//! twice.

ghost use Rattle.std.specs.Prelude.{◌≡◌, ◌<◌, ℕ, Bool, true, false, None, Some, [], ◌∷◌, is_some, length, map, slice_get, IfSome};
ghost use Rattle.std.specs.Int.{w32, cast_signed};
ghost use Rattle.std.specs.List.{list_any};
ghost use Rattle.class_rules.specs.Class.{assignable};
ghost use Rattle.class_rules.specs.Fields.{layout};
ghost use Rattle.class_rules.specs.Grown.{IsGrown};
ghost use Rattle.code.specs.Call.{call_view};
ghost use Rattle.class_queries.specs.Kinds.{class_misfits};
ghost use Rattle.heap.specs.Heap.{block_at, values_at, IsAddress};
ghost use Rattle.jni.specs.declared.kinds.ParameterKind.TheVariants.{ClassObject, MethodID, ObjectArray};
ghost use Rattle.machine_answers.specs.Answered.{IsAnswerTo};
ghost use Rattle.machine_answers.specs.AtOnce.{field_in_spot};
ghost use Rattle.machine_answers.specs.Checked.{called, calls_well, function_in, misfits, returns, takes, takes_all, some_misfit, some_missing, trap_found};
ghost use Rattle.machine_answers.specs.Sights.{element_wanted, gives_deleted, name_seen, number_at, object_seen, values_seen};
ghost use Rattle.machine_answers.specs.WorkedOut.{address_in, declaring, field, handle, place_of_static, word_in};
ghost use Rattle.machine_scenes.specs.Given.{class_there, field_at, field_there, method_at, operand_at, operand_of, AreAddresses, AreHandles, FieldIsThere, ReferenceIsThere};
ghost use Rattle.machine_scenes.specs.Locals.{locals_after};
ghost use Rattle.machine_scenes.specs.Scenes.{scene_view};
ghost use Rattle.machine_scenes.specs.Statics.{References};
ghost use Rattle.syntax.specs.Tree.{Function};
ghost use Rattle.syntax.specs.Views.{parameter_tree, unit_tree};
ghost use Rattle.tables.specs.Locals.{has_room};
ghost use Rattle.machine_answers.specs.declared.answer.Given.TheVariants.{Number, Reference};
ghost use Rattle.machine_answers.specs.declared.answer.Answer.TheVariants.{Calls, Gives, Writes, Deletes};
ghost use Rattle.semantics.specs.AnswerTable.{element_given, gives_reference, index_within, value_in};
ghost use Rattle.semantics.specs.Heap.{number_in, place_in, reference_in};
ghost use Rattle.machine_answers.specs.AnswersSeen.{CellsAreThere, reference_there};

use crate::answer::{
    address_in, argument, count_there, field_place, held_reference, holder_of_static, name_of,
    place_of_static, stored, value_of_static, value_there, word_in,
};
use crate::arrays::{index_in, stack_number};
use crate::check::{asked_type, fits_type, function_in, has_static, returns};
use class_queries::{holds_number, holds_reference};
use class_rules::ClassId;
use classes::built_ins::CLASS;
use classes::class::{ClassKind, FieldHandle};
use code::instr::{Call, Operand};
use heap::{Addr, Value};
use jni::JniFunction;
use machine_scenes::handle::{Handle, MethodHandle};
use machine_scenes::operands::{class_there, declaring, field_in, is_static, type_of};
use machine_scenes::scene::Scene;
use syntax::{Parameter, ParameterType};
use tables::{Local, Locals};

/// A change of a value of the object at an address, by its place, counted from 0.
#[derive(Clone, Copy)]
pub struct Write {
    pub object: Addr,
    pub place: usize,
    pub value: Value,
}

/// An object, its class, and a field that it has, by the class that declares the field and its place there. No field ID is kept
/// whole, since it would be copied with what pads it.
#[derive(Clone, Copy)]
struct Spot {
    object: Addr,
    class: ClassId,
    declarer: ClassId,
    place: usize,
}

impl Spot {
    /// The field.
    #[inline(always)]
    fn field(&self) -> Option<FieldHandle>
        ensures { result ≡ field_in_spot self.now }
    {
        Some(FieldHandle {
            class: self.declarer,
            place: self.place,
            is_static: false,
        })
    }
}

/// The object of the slot of a local reference, and the field of that of a field ID, where the object has it.
#[inline(always)]
fn field_spot(scene: &Scene<'_>, slot: u32, id: u32) -> Option<Spot>
    requires object { ReferenceIsThere scene.now.heap.now (operand_at scene.now.references (Operand.Local slot)) }
    requires field { FieldIsThere scene.now.classes.now (field_at scene.now.fields.now (Operand.FieldId id)) }
    ensures object { IfSome result (λ spot. operand_at scene.now.references (Operand.Local slot) ≡ Some spot.object) }
    ensures field { IfSome result (λ spot. field_at scene.now.fields.now (Operand.FieldId id) ≡ field_in_spot spot) }
    ensures class { IfSome result (λ spot. spot.class.number ≡ class_there scene.now.heap.now spot.object) }
    ensures own { IfSome result (λ spot. (field_there scene.now.classes.now (field_in_spot spot)).is_static ≡ false) }
    ensures has { IfSome result (λ spot. assignable scene.now.classes.now (class_there scene.now.heap.now spot.object)
        (field_there scene.now.classes.now (field_in_spot spot)).class ≡ true) }
{
    match scene.references.local(slot) {
        Some(object) => match field_in(scene.fields, Operand::FieldId(id)) {
            Some(field) => {
                let class = class_there(scene.heap, object);
                if !field.is_static
                    && !is_static(Some(field))
                    && scene.classes.assignable(class, declaring(Some(field)))
                {
                    Some(Spot {
                        object,
                        class,
                        declarer: field.class,
                        place: field.place,
                    })
                } else {
                    None
                }
            }
            None => None,
        },
        None => None,
    }
}

/// The value of a field in an object that has it.
#[inline(always)]
fn value_at(scene: &Scene<'_>, spot: &Spot) -> Option<Value>
    requires grown { IsGrown scene.now.classes.now }
    requires object { IsAddress scene.now.heap.now spot.now.object }
    requires class { spot.now.class.number ≡ class_there scene.now.heap.now spot.now.object }
    requires field { FieldIsThere scene.now.classes.now (field_in_spot spot.now) }
    requires own { (field_there scene.now.classes.now (field_in_spot spot.now)).is_static ≡ false }
    ensures number { cast_signed w32 (word_in result) ≡ number_in (value_in (object_seen scene.now.heap.now (Some spot.now.object))
        (place_in (field_there scene.now.classes.now (field_in_spot spot.now))
        (layout scene.now.classes.now (class_there scene.now.heap.now spot.now.object)))) }
    ensures reference { name_seen scene.now.heap.now (address_in result)
        ≡ reference_in (value_in (object_seen scene.now.heap.now (Some spot.now.object))
        (place_in (field_there scene.now.classes.now (field_in_spot spot.now))
        (layout scene.now.classes.now (class_there scene.now.heap.now spot.now.object)))) }
    ensures there { CellsAreThere scene.now.heap.now → reference_there scene.now.heap.now (address_in result) ≡ true }
{
    let place = field_place(scene.classes, spot.class, spot.field());
    value_there(scene.heap, Some(spot.object), place)
}

/// The change of a field to this value in an object that has it, where it has such a place.
#[inline(always)]
fn write_to(scene: &Scene<'_>, spot: &Spot, value: Value) -> Option<Write>
    requires grown { IsGrown scene.now.classes.now }
    requires object { IsAddress scene.now.heap.now spot.now.object }
    requires class { spot.now.class.number ≡ class_there scene.now.heap.now spot.now.object }
    requires field { FieldIsThere scene.now.classes.now (field_in_spot spot.now) }
    requires own { (field_there scene.now.classes.now (field_in_spot spot.now)).is_static ≡ false }
    ensures value { IfSome result (λ write. write.value ≡ value) }
    ensures object { IfSome result (λ write. write.object ≡ spot.now.object) }
    ensures place { IfSome result (λ write. write.place ≡ place_in (field_there scene.now.classes.now (field_in_spot spot.now))
        (layout scene.now.classes.now (class_there scene.now.heap.now spot.now.object))) }
    ensures inside { IfSome result (λ write. write.place < length (values_at scene.now.heap.now write.object)) }
{
    let object = spot.object;
    let place = field_place(scene.classes, spot.class, spot.field());
    if place < scene.heap.len_of(object) {
        Some(Write {
            object,
            place,
            value,
        })
    } else {
        None
    }
}

/// Whether the slot of a local reference gives a class object, and that of a field ID a field.
#[inline(always)]
fn gives_class_and_field(scene: &Scene<'_>, slot: u32, id: u32) -> bool
    requires { ReferenceIsThere scene.now.heap.now (operand_at scene.now.references (Operand.Local slot)) }
    ensures object { result ≡ true → is_some (operand_at scene.now.references (Operand.Local slot)) ≡ true }
    ensures class { result ≡ true → misfits scene.now.classes.now scene.now.heap.now ClassObject
        (operand_at scene.now.references (Operand.Local slot)) ≡ false }
    ensures field { result ≡ true → is_some (field_at scene.now.fields.now (Operand.FieldId id)) ≡ true }
{
    match scene.references.local(slot) {
        Some(addr) => {
            class_there(scene.heap, addr) == CLASS
                && field_in(scene.fields, Operand::FieldId(id)).is_some()
        }
        None => false,
    }
}

/// The number that a call gives.
#[inline(always)]
#[tactic(auto, using(crate::proofs::AnswersStand::answers_seen, std::proofs::lemmas::Grind::common_steps), unfolding(semantics::specs::AnswerTable::call_answer))]
pub fn number_at_once(scene: &Scene<'_>, call: &Call) -> Option<u32>
    requires grown { IsGrown scene.now.classes.now }
    requires loaded { (i a : ℕ) → slice_get scene.now.loaded.now i ≡ Some a → IsAddress scene.now.heap.now a }
    requires objects { AreAddresses scene.now.heap.now scene.now.references call.now.operands.items }
    requires handles { AreHandles scene.now.classes.now scene.now.fields.now call.now.operands.items }
    ensures free { IfSome result (λ word. (room : Bool) → trap_found (scene_view scene.now) room
        (element_wanted call.now.target) call.now.function call.now.operands.items ≡ None) }
    ensures works { IfSome result (λ word. IsAnswerTo (scene_view scene.now) (call_view call.now) (Gives (Number word))) }
{
    let operands: &[Operand] = &call.operands;
    match call.function {
        JniFunction::GetField(element) => match operands {
            [Operand::Local(slot), Operand::FieldId(id)] => {
                match field_spot(scene, *slot, *id) {
                    Some(spot) => {
                        if scene.pending.is_none()
                            && holds_number(element, type_of(scene.classes, spot.field()))
                        {
                            Some(word_in(value_at(scene, &spot)))
                        } else {
                            None
                        }
                    }
                    None => None,
                }
            }
            _ => None,
        },
        JniFunction::GetStaticField(element) => match operands {
            [Operand::Local(slot), Operand::FieldId(id)] => {
                if scene.pending.is_none()
                    && gives_class_and_field(scene, *slot, *id)
                    && has_static(scene, call)
                    && holds_number(element, asked_type(scene, call))
                {
                    Some(word_in(value_in_static(scene, call)))
                } else {
                    None
                }
            }
            _ => None,
        },
        JniFunction::GetArrayLength => match operands {
            [Operand::Local(slot)] => match scene.references.local(*slot) {
                Some(array) => {
                    if scene.pending.is_none()
                        && scene.classes.is_array(class_there(scene.heap, array))
                    {
                        Some(count_there(scene.heap, Some(array)))
                    } else {
                        None
                    }
                }
                None => None,
            },
            _ => None,
        },
        JniFunction::IsSameObject => match operands {
            [Operand::Local(_), Operand::Local(_)] => {
                if scene.pending.is_none() {
                    let first = name_of(scene, call, 0);
                    let second = name_of(scene, call, 1);
                    Some(u32::from(first == second))
                } else {
                    None
                }
            }
            _ => None,
        },
        JniFunction::ExceptionCheck => match operands {
            [] => Some(u32::from(scene.pending.is_some())),
            _ => None,
        },
        _ => None,
    }
}

/// The reference that a call gives, for which there is room.
#[inline(always)]
#[tactic(auto, using(crate::proofs::AnswersStand::answers_seen, std::proofs::lemmas::Grind::common_steps), unfolding(semantics::specs::AnswerTable::call_answer))]
pub fn reference_at_once(scene: &Scene<'_>, locals: &Locals, call: &Call) -> Option<Option<Addr>>
    requires grown { IsGrown scene.now.classes.now }
    requires loaded { (i a : ℕ) → slice_get scene.now.loaded.now i ≡ Some a → IsAddress scene.now.heap.now a }
    requires objects { AreAddresses scene.now.heap.now scene.now.references call.now.operands.items }
    requires handles { AreHandles scene.now.classes.now scene.now.fields.now call.now.operands.items }
    ensures free { IfSome result (λ reference. trap_found (scene_view scene.now)
        (has_room (locals_after call.now.function locals.now))
        (element_wanted call.now.target) call.now.function call.now.operands.items ≡ None) }
    ensures works { IfSome result (λ reference. IsAnswerTo (scene_view scene.now) (call_view call.now) (Gives (Reference reference))) }
{
    if scene.pending.is_some() || !locals.has_room() {
        return None;
    }
    let operands: &[Operand] = &call.operands;
    match call.function {
        JniFunction::NewLocalRef => match operands {
            [Operand::Local(_)] => Some(argument(scene, call, 0)),
            _ => None,
        },
        JniFunction::GetObjectField => match operands {
            [Operand::Local(slot), Operand::FieldId(id)] => {
                match field_spot(scene, *slot, *id) {
                    Some(spot) => {
                        if holds_reference(type_of(scene.classes, spot.field())) {
                            Some(address_in(value_at(scene, &spot)))
                        } else {
                            None
                        }
                    }
                    None => None,
                }
            }
            _ => None,
        },
        JniFunction::GetStaticObjectField => match operands {
            [Operand::Local(slot), Operand::FieldId(id)] => {
                if gives_class_and_field(scene, *slot, *id)
                    && has_static(scene, call)
                    && holds_reference(asked_type(scene, call))
                {
                    Some(address_in(value_in_static(scene, call)))
                } else {
                    None
                }
            }
            _ => None,
        },
        JniFunction::GetObjectArrayElement => match operands {
            [Operand::Local(slot), Operand::Number] => match scene.references.local(*slot) {
                Some(array) => element_at_once(scene, array),
                None => None,
            },
            _ => None,
        },
        JniFunction::ExceptionOccurred => match operands {
            [] => Some(scene.pending),
            _ => None,
        },
        _ => None,
    }
}

/// The element of an array that the number on top of the stack tells, where the array is one of objects and has it.
#[tactic(auto, using(crate::proofs::SightValues::value_at, std::proofs::lemmas::Grind::common_steps))]
#[inline(always)]
fn element_at_once(scene: &Scene<'_>, array: Addr) -> Option<Option<Addr>>
    requires { IsAddress scene.now.heap.now array }
    ensures kind { IfSome result (λ element. class_misfits scene.now.classes.now ObjectArray (class_there scene.now.heap.now array) ≡ false) }
    ensures element { IfSome result (λ element. gives_reference (name_seen scene.now.heap.now element)
        ≡ element_given (values_seen scene.now.heap.now (Some array))
        (index_within (length (values_seen scene.now.heap.now (Some array))) (number_at scene.now.stack.now 0))) }
    ensures there { IfSome result (λ element. ((a i b : ℕ) → slice_get (values_at scene.now.heap.now a) i ≡ Some (Value.Block b)
        → is_some (block_at scene.now.heap.now b) ≡ true) → reference_there scene.now.heap.now element ≡ true) }
{
    match scene.classes.kind(class_there(scene.heap, array)) {
        ClassKind::ArrayOfObjects(_) => match index_in(
            scene.heap,
            array,
            stack_number(scene.stack),
        ) {
            Some(index) => Some(address_in(value_there(scene.heap, Some(array), index))),
            None => None,
        },
        _ => None,
    }
}

/// The change that a call makes.
#[inline(always)]
#[tactic(auto, using(crate::proofs::AnswersStand::answers_seen, std::proofs::lemmas::Grind::common_steps), unfolding(semantics::specs::AnswerTable::call_answer))]
pub fn write_at_once(scene: &Scene<'_>, call: &Call) -> Option<Write>
    requires grown { IsGrown scene.now.classes.now }
    requires loaded { (i a : ℕ) → slice_get scene.now.loaded.now i ≡ Some a → IsAddress scene.now.heap.now a }
    requires objects { AreAddresses scene.now.heap.now scene.now.references call.now.operands.items }
    requires handles { AreHandles scene.now.classes.now scene.now.fields.now call.now.operands.items }
    ensures free { IfSome result (λ write. (room : Bool) → trap_found (scene_view scene.now) room
        (element_wanted call.now.target) call.now.function call.now.operands.items ≡ None) }
    ensures works { IfSome result (λ write. IsAnswerTo (scene_view scene.now) (call_view call.now) (Writes write.object write.place write.value)) }
{
    let operands: &[Operand] = &call.operands;
    if scene.pending.is_some() {
        return None;
    }
    match call.function {
        JniFunction::SetField(element) => match operands {
            [Operand::Local(slot), Operand::FieldId(id), Operand::Number] => {
                match field_spot(scene, *slot, *id) {
                    Some(spot) => {
                        if holds_number(element, type_of(scene.classes, spot.field())) {
                            write_to(scene, &spot, stored(element, scene.stack))
                        } else {
                            None
                        }
                    }
                    None => None,
                }
            }
            _ => None,
        },
        JniFunction::SetObjectField => match operands {
            [
                Operand::Local(slot),
                Operand::FieldId(id),
                Operand::Local(_),
            ] => {
                match field_spot(scene, *slot, *id) {
                    Some(spot) => {
                        let value = argument(scene, call, 2);
                        if fits_type(scene, value, type_of(scene.classes, spot.field())) {
                            write_to(scene, &spot, held_reference(argument(scene, call, 2)))
                        } else {
                            None
                        }
                    }
                    None => None,
                }
            }
            _ => None,
        },
        JniFunction::SetStaticField(element) => match operands {
            [Operand::Local(slot), Operand::FieldId(id), Operand::Number] => {
                if gives_class_and_field(scene, *slot, *id)
                    && has_static(scene, call)
                    && holds_number(element, asked_type(scene, call))
                {
                    write_to_static(scene, call, stored(element, scene.stack))
                } else {
                    None
                }
            }
            _ => None,
        },
        JniFunction::SetStaticObjectField => match operands {
            [
                Operand::Local(slot),
                Operand::FieldId(id),
                Operand::Local(_),
            ] => {
                let value = argument(scene, call, 2);
                if gives_class_and_field(scene, *slot, *id)
                    && has_static(scene, call)
                    && fits_type(scene, value, asked_type(scene, call))
                {
                    write_to_static(scene, call, held_reference(argument(scene, call, 2)))
                } else {
                    None
                }
            }
            _ => None,
        },
        _ => None,
    }
}

/// The value of the static of operand 1, which is one.
#[inline(always)]
fn value_in_static(scene: &Scene<'_>, call: &Call) -> Option<Value>
    requires loaded { (i a : ℕ) → slice_get scene.now.loaded.now i ≡ Some a → IsAddress scene.now.heap.now a }
    requires handles { AreHandles scene.now.classes.now scene.now.fields.now call.now.operands.items }
    requires given { is_some (handle (scene_view scene.now) (call_view call.now)) ≡ true }
    requires own { (field (scene_view scene.now) (call_view call.now)).is_static ≡ true }
    ensures number { cast_signed w32 (word_in result)
        ≡ number_in (value_in (object_seen scene.now.heap.now (declaring (scene_view scene.now) (call_view call.now)))
        (place_of_static (scene_view scene.now) (call_view call.now))) }
    ensures reference { name_seen scene.now.heap.now (address_in result)
        ≡ reference_in (value_in (object_seen scene.now.heap.now (declaring (scene_view scene.now) (call_view call.now)))
        (place_of_static (scene_view scene.now) (call_view call.now))) }
    ensures there { CellsAreThere scene.now.heap.now → reference_there scene.now.heap.now (address_in result) ≡ true }
{
    value_of_static(scene, call)
}

/// The change of the static of operand 1 to this value, where there is such a place.
#[inline(always)]
fn write_to_static(scene: &Scene<'_>, call: &Call, value: Value) -> Option<Write>
    requires loaded { (i a : ℕ) → slice_get scene.now.loaded.now i ≡ Some a → IsAddress scene.now.heap.now a }
    requires handles { AreHandles scene.now.classes.now scene.now.fields.now call.now.operands.items }
    requires given { is_some (handle (scene_view scene.now) (call_view call.now)) ≡ true }
    requires own { (field (scene_view scene.now) (call_view call.now)).is_static ≡ true }
    ensures value { IfSome result (λ write. write.value ≡ value) }
    ensures object { IfSome result (λ write. declaring (scene_view scene.now) (call_view call.now) ≡ Some write.object) }
    ensures place { IfSome result (λ write. write.place ≡ place_of_static (scene_view scene.now) (call_view call.now)) }
    ensures inside { IfSome result (λ write. write.place < length (values_at scene.now.heap.now write.object)) }
{
    let place = place_of_static(scene, call);
    match holder_of_static(scene, call) {
        Some(object) => {
            if place < scene.heap.len_of(object) {
                Some(Write {
                    object,
                    place,
                    value,
                })
            } else {
                None
            }
        }
        None => None,
    }
}

/// The key of the local reference that a call ends.
#[inline(always)]
#[tactic(auto, using(crate::proofs::AnswersStand::answers_seen, std::proofs::lemmas::Grind::common_steps), unfolding(semantics::specs::AnswerTable::call_answer))]
pub fn deleted_at_once(scene: &Scene<'_>, call: &Call) -> Option<Local>
    ensures free { IfSome result (λ key. (room : Bool) → trap_found (scene_view scene.now) room
        (element_wanted call.now.target) call.now.function call.now.operands.items ≡ None) }
    ensures works { IfSome result (λ key. IsAnswerTo (scene_view scene.now) (call_view call.now) (Deletes key)) }
{
    let operands: &[Operand] = &call.operands;
    match call.function {
        JniFunction::DeleteLocalRef => match operands {
            [Operand::Local(slot)] => scene.references.key(*slot),
            _ => None,
        },
        _ => None,
    }
}

/// The method that a call calls, where no check but that of how deep calls are stops it.
#[inline(always)]
#[tactic(auto, using(crate::proofs::AnswersStand::answers_seen, std::proofs::lemmas::Grind::common_steps), unfolding(semantics::specs::AnswerTable::call_answer))]
pub fn method_at_once(scene: &Scene<'_>, locals: &Locals, call: &Call) -> Option<MethodHandle>
    requires objects { AreAddresses scene.now.heap.now scene.now.references call.now.operands.items }
    ensures free { IfSome result (λ method. trap_found (scene_view scene.now)
        (has_room (locals_after call.now.function locals.now))
        (element_wanted call.now.target) call.now.function call.now.operands.items ≡ None) }
    ensures works { IfSome result (λ method. IsAnswerTo (scene_view scene.now) (call_view call.now) Calls) }
    ensures method { IfSome result (λ method. method_at scene.now.fields.now (operand_of call.now.operands.items 1) ≡ Some method) }
{
    if scene.pending.is_some() {
        return None;
    }
    match call.function {
        JniFunction::CallStaticVoidMethod => method_of_class(scene, call),
        JniFunction::CallStaticIntMethod => method_of_class(scene, call),
        JniFunction::CallStaticObjectMethod => {
            if locals.has_room() {
                method_of_class(scene, call)
            } else {
                None
            }
        }
        _ => None,
    }
}

/// The method of a call, where all that the call is given goes together, its class is a local reference, and it is passed no static.
#[inline(always)]
fn method_of_class(scene: &Scene<'_>, call: &Call) -> Option<MethodHandle>
    requires { AreAddresses scene.now.heap.now scene.now.references call.now.operands.items }
    ensures deleted { IfSome result (λ method. list_any (gives_deleted scene.now.references) call.now.operands.items ≡ false) }
    ensures missing { IfSome result (λ method. some_missing scene.now.references scene.now.fields.now (ClassObject ∷ MethodID ∷ [])
        call.now.operands.items ≡ false) }
    ensures misfit { IfSome result (λ method. some_misfit scene.now.classes.now scene.now.heap.now scene.now.references
        (ClassObject ∷ MethodID ∷ []) call.now.operands.items ≡ false) }
    ensures well { IfSome result (λ method. calls_well (unit_tree scene.now.items.now) scene.now.classes.now scene.now.heap.now
        scene.now.references scene.now.fields.now call.now.operands.items call.now.function
        (called (unit_tree scene.now.items.now) scene.now.classes.now scene.now.heap.now scene.now.references
        scene.now.fields.now call.now.operands.items (Some method)) ≡ true) }
    ensures method { IfSome result (λ method. method_at scene.now.fields.now (operand_of call.now.operands.items 1) ≡ Some method) }
{
    let operands: &[Operand] = &call.operands;
    match operands {
        [Operand::Local(slot), Operand::MethodId(id), passed @ ..] => match scene
            .references
            .local(*slot)
        {
            Some(class) => match method_of(scene.fields, *id) {
                Some(method) => {
                    if class_there(scene.heap, class) == CLASS
                        && method.class.number == scene.heap.birth_of(class) as usize
                        && calls_well_at_once(scene, call.function, method.item, passed)
                    {
                        Some(method)
                    } else {
                        None
                    }
                }
                None => None,
            },
            None => None,
        },
        _ => None,
    }
}

/// The method ID in a slot; none for NULL.
#[inline(always)]
fn method_of(methods: &[Option<Handle>], slot: u32) -> Option<MethodHandle>
    ensures { result ≡ method_at methods.now (Operand.MethodId slot) }
{
    match methods.get(slot as usize) {
        Some(Some(Handle::Method(method))) => Some(*method),
        _ => None,
    }
}

/// Whether the function whose item is at a place gives what a function that calls methods asks for, and takes these operands, of which none
/// is a static.
#[inline(always)]
fn calls_well_at_once(
    scene: &Scene<'_>,
    function: JniFunction,
    place: usize,
    passed: &[Operand],
) -> bool
    ensures { result ≡ true → (method : Function)
        × (function_in (slice_get (unit_tree scene.now.items.now).items place) ≡ Some method)
        × (returns function method.result ≡ true) × (takes_all method.parameters passed.now ≡ true)
        × (list_any (gives_deleted scene.now.references) passed.now ≡ false) }
{
    match function_in(scene.items, place) {
        Some(method) => {
            returns(function, method.result) && takes_at_once(&method.parameters, passed)
        }
        None => false,
    }
}

/// Whether there are as many operands as parameters, and each may be passed to its own, and is no static.
fn takes_at_once(parameters: &[Parameter], operands: &[Operand]) -> bool
    ensures all { result ≡ true → takes_all (map parameter_tree parameters.now) operands.now ≡ true }
    ensures none { result ≡ true → (references : References) → list_any (gives_deleted references) operands.now ≡ false }
{
    match parameters {
        [parameter, parameters @ ..] => match operands {
            [operand, operands @ ..] => {
                takes_one(parameter.kind, *operand) && takes_at_once(parameters, operands)
            }
            [] => false,
        },
        [] => operands.is_empty(),
    }
}

/// Whether what an operand gives may be passed to a parameter, and is no static.
#[inline(always)]
fn takes_one(parameter: ParameterType, operand: Operand) -> bool
    ensures all { result ≡ true → takes parameter operand ≡ true }
    ensures none { result ≡ true → (references : References) → gives_deleted references operand ≡ false }
{
    match parameter {
        ParameterType::Jint => matches!(operand, Operand::Number),
        ParameterType::Reference(_) => matches!(operand, Operand::Null | Operand::Local(_)),
    }
}
