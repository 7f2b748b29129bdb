//! What is checked of a call before it does anything, in one order for all functions.

ghost use Rattle.std.specs.Prelude.{◌≡◌, ℕ, ◌&&◌, not, is_some, IfSome, IfNone, map, true, false, slice_get, Some};
ghost use Rattle.std.specs.List.{list_any};
ghost use Rattle.std.specs.Option.{option_map};
ghost use Rattle.class_queries.specs.Kinds.{class_misfits};
ghost use Rattle.class_rules.specs.Class.{Classes};
ghost use Rattle.classes.specs.Views.{field_type_view};
ghost use Rattle.code.specs.Call.{call_view, IsPrepared};
ghost use Rattle.jni.specs.JniFunction.{is_allowed_pending, prototype};
ghost use Rattle.syntax.specs.Views.{function_tree, parameter_tree, unit_tree};
ghost use Rattle.heap.specs.Heap.{IsAddress};
ghost use Rattle.machine_scenes.specs.Given.{method_at, operand_at, operand_of, AreAddresses, AreHandles, ReferenceIsThere};
ghost use Rattle.machine_scenes.specs.Locals.{locals_after};
ghost use Rattle.tables.specs.Locals.{has_room};
ghost use Rattle.machine_answers.specs.Checked.{arguments_fit, called, calls_well, function_in, returns, takes, takes_all, has_field, has_static, may_be_null, some_missing, misfits, some_misfit, fits_type_there, puts_local, ArgumentsPass, ArgumentsTrap};
ghost use Rattle.machine_answers.specs.Sights.{element_wanted, gives_deleted, gives_null, trap_seen, MethodIsThere};
ghost use Rattle.machine_answers.specs.WorkedOut.{field};
ghost use Rattle.machine_scenes.specs.Scenes.{scene_view};

use crate::answer::{argument, class_given, handle_of};
use crate::passed::passed_operands;
use class_queries::{class_misfits, holds_number, holds_reference};
use classes::built_ins::{THROWABLE, number_array};
use classes::class::{ElementType, FieldType};
use code::instr::{Call, Operand, Target};
use heap::Addr;
use jni::{Access, JniFunction, ParameterKind, ResultKind};
use machine_scenes::operands::{
    class_of_given, class_there, declaring, field_in, fits_there, is_static, method_in, operand_of,
    reference_in, type_of,
};
use machine_scenes::references::{Held, References};
use machine_scenes::scene::Scene;
use semantics::Trap;
use syntax::{Function, Item, Parameter, ParameterType, ResultType};
use tables::Locals;

/// Whether an operand gives NULL.
fn gives_null(scene: &Scene<'_>, operand: Operand) -> bool
    ensures { result ≡ gives_null scene.now.references scene.now.fields.now operand }
{
    match operand {
        Operand::Null => true,
        Operand::Local(_) => reference_in(&scene.references, operand).is_none(),
        Operand::Static(slot) => {
            matches!(scene.references.held(slot), Held::Empty | Held::Cleared)
        }
        Operand::FieldId(_) => field_in(scene.fields, operand).is_none(),
        Operand::MethodId(_) => method_in(scene.fields, operand).is_none(),
        Operand::Number | Operand::Text | Operand::Mode(_) => false,
        Operand::Array(_) | Operand::Buffer(_) | Operand::IsCopy(_) => false,
    }
}

/// Whether an operand gives a static that is marked as deleted.
fn gives_deleted(references: &References<'_>, operand: Operand) -> bool
    ensures { result ≡ gives_deleted references.now operand }
{
    match operand {
        Operand::Static(slot) => matches!(references.held(slot), Held::Deleted),
        _ => false,
    }
}

/// Whether some operand gives a static that is marked as deleted.
fn some_deleted(references: &References<'_>, operands: &[Operand]) -> bool
    ensures { result ≡ list_any (gives_deleted references.now) operands.now }
{
    operands
        .iter()
        .any(|operand| gives_deleted(references, *operand))
}

/// Whether a parameter may be NULL.
fn may_be_null(parameter: ParameterKind) -> bool
    ensures { result ≡ may_be_null parameter }
{
    matches!(
        parameter,
        ParameterKind::Nullable
            | ParameterKind::AnyReference
            | ParameterKind::LocalVariable
            | ParameterKind::StaticVariable
            | ParameterKind::WeakVariable
            | ParameterKind::IsCopy
            | ParameterKind::Passed
    )
}

/// Whether some operand gives NULL where that isn't allowed.
fn some_missing(scene: &Scene<'_>, parameters: &[ParameterKind], operands: &[Operand]) -> bool
    ensures { result ≡ some_missing scene.now.references scene.now.fields.now parameters.now operands.now }
{
    match parameters {
        [parameter, parameters @ ..] => match operands {
            [operand, operands @ ..] => {
                !may_be_null(*parameter) && gives_null(scene, *operand)
                    || some_missing(scene, parameters, operands)
            }
            [] => false,
        },
        [] => false,
    }
}

/// Whether a parameter asks for objects of a kind. Where it doesn't, no object is looked at.
fn asks_kind(parameter: ParameterKind) -> bool
    ensures { result ≡ false → (classes : Classes) (class : ℕ) → class_misfits classes parameter class ≡ false }
{
    matches!(
        parameter,
        ParameterKind::ClassObject
            | ParameterKind::AnyArray
            | ParameterKind::ObjectArray
            | ParameterKind::StringObject
            | ParameterKind::NumberArray(_)
    )
}

/// Whether an operand gives an object of another kind than the parameter.
fn misfits(scene: &Scene<'_>, parameter: ParameterKind, operand: Operand) -> bool
    requires { ReferenceIsThere scene.now.heap.now (operand_at scene.now.references operand) }
    ensures { result ≡ misfits scene.now.classes.now scene.now.heap.now parameter (operand_at scene.now.references operand) }
{
    if !asks_kind(parameter) {
        return false;
    }
    match reference_in(&scene.references, operand) {
        Some(addr) => class_misfits(scene.classes, parameter, class_there(scene.heap, addr)),
        None => false,
    }
}

/// Whether some operand gives an object of another kind than its parameter.
fn some_misfit(scene: &Scene<'_>, parameters: &[ParameterKind], operands: &[Operand]) -> bool
    requires { AreAddresses scene.now.heap.now scene.now.references operands.now }
    ensures { result ≡ some_misfit scene.now.classes.now scene.now.heap.now scene.now.references parameters.now operands.now }
{
    match parameters {
        [parameter, parameters @ ..] => match operands {
            [operand, operands @ ..] => {
                misfits(scene, *parameter, *operand) || some_misfit(scene, parameters, operands)
            }
            [] => false,
        },
        [] => false,
    }
}

/// Whether a reference may be stored in a field of this type.
#[inline(always)]
pub(crate) fn fits_type(scene: &Scene<'_>, reference: Option<Addr>, field_type: FieldType) -> bool
    requires { ReferenceIsThere scene.now.heap.now reference }
    ensures { result ≡ fits_type_there scene.now.classes.now scene.now.heap.now reference (field_type_view field_type) }
{
    match field_type {
        FieldType::Number(_) => false,
        FieldType::Reference(class) => fits_there(scene.classes, scene.heap, reference, class),
    }
}

/// What the field or static of operand 1 holds, and numbers for NULL.
#[inline(always)]
pub(crate) fn asked_type(scene: &Scene<'_>, call: &Call) -> FieldType
    requires { AreHandles scene.now.classes.now scene.now.fields.now call.now.operands.items }
    ensures { field_type_view result ≡ (field (scene_view scene.now) (call_view call.now)).field.type }
{
    type_of(scene.classes, handle_of(scene, call))
}

/// Whether operand 0 is an object that has the field of operand 1.
#[inline(always)]
fn has_field(scene: &Scene<'_>, call: &Call) -> bool
    requires objects { AreAddresses scene.now.heap.now scene.now.references call.now.operands.items }
    requires handles { AreHandles scene.now.classes.now scene.now.fields.now call.now.operands.items }
    ensures { result ≡ has_field (unit_tree scene.now.items.now) scene.now.classes.now scene.now.heap.now scene.now.references scene.now.fields.now call.now.operands.items }
{
    let field = handle_of(scene, call);
    let class = class_of_given(scene.heap, argument(scene, call, 0));
    !is_static(field) && scene.classes.assignable(class, declaring(field))
}

/// Whether operand 0 is a class that has the static of operand 1.
#[inline(always)]
pub(crate) fn has_static(scene: &Scene<'_>, call: &Call) -> bool
    requires objects { AreAddresses scene.now.heap.now scene.now.references call.now.operands.items }
    requires handles { AreHandles scene.now.classes.now scene.now.fields.now call.now.operands.items }
    ensures { result ≡ has_static (unit_tree scene.now.items.now) scene.now.classes.now scene.now.heap.now scene.now.references scene.now.fields.now call.now.operands.items }
{
    let field = handle_of(scene, call);
    let class = class_given(scene, call, 0);
    is_static(field) && scene.classes.assignable(class, declaring(field))
}

/// The function whose item is at a place.
#[inline(always)]
pub(crate) fn function_in(items: &[Item], place: usize) -> Option<&Function>
    ensures { option_map (λ f. function_tree f.now) result ≡ function_in (slice_get (unit_tree items.now).items place) }
{
    match items.get(place) {
        Some(Item::Function(function)) => Some(function),
        Some(Item::Static(_)) | None => None,
    }
}

/// The function of operand 1, a method ID, where the ID was got from the class of operand 0.
fn called<'a>(scene: &Scene<'a>, call: &Call) -> Option<&'a Function>
    requires { AreAddresses scene.now.heap.now scene.now.references call.now.operands.items }
    ensures { option_map (λ f. function_tree f.now) result ≡ called (unit_tree scene.now.items.now) scene.now.classes.now
        scene.now.heap.now scene.now.references scene.now.fields.now call.now.operands.items
        (method_at scene.now.fields.now (operand_of call.now.operands.items 1)) }
{
    match method_in(scene.fields, operand_of(&call.operands, 1)) {
        Some(method) if method.class == class_given(scene, call, 0) => {
            function_in(scene.items, method.item)
        }
        _ => None,
    }
}

/// Whether a method with this result gives what a function that calls methods asks for.
#[inline(always)]
pub(crate) fn returns(function: JniFunction, kind: ResultType) -> bool
    ensures { result ≡ returns function kind }
{
    match function {
        JniFunction::CallStaticVoidMethod => matches!(kind, ResultType::Void),
        JniFunction::CallStaticIntMethod => matches!(kind, ResultType::Jint),
        _ => matches!(kind, ResultType::Reference(_)),
    }
}

/// Whether what an operand gives may be passed to a parameter: a number, or a reference, as it asks.
fn takes(parameter: ParameterType, operand: Operand) -> bool
    ensures { result ≡ takes parameter operand }
{
    match parameter {
        ParameterType::Jint => matches!(operand, Operand::Number),
        ParameterType::Reference(_) => {
            matches!(
                operand,
                Operand::Null | Operand::Local(_) | Operand::Static(_)
            )
        }
    }
}

/// Whether there are as many operands as parameters, and each may be passed to its own.
fn takes_all(parameters: &[Parameter], operands: &[Operand]) -> bool
    ensures { result ≡ takes_all (map parameter_tree parameters.now) operands.now }
{
    match parameters {
        [parameter, parameters @ ..] => match operands {
            [operand, operands @ ..] => {
                takes(parameter.kind, *operand) && takes_all(parameters, operands)
            }
            [] => false,
        },
        [] => operands.is_empty(),
    }
}

/// Whether the method of operand 1 was got from the class of operand 0, gives what is asked for, and takes what it is passed.
fn calls_well(scene: &Scene<'_>, call: &Call) -> bool
    requires { AreAddresses scene.now.heap.now scene.now.references call.now.operands.items }
    ensures { result ≡ calls_well (unit_tree scene.now.items.now) scene.now.classes.now scene.now.heap.now
        scene.now.references scene.now.fields.now call.now.operands.items call.now.function
        (called (unit_tree scene.now.items.now) scene.now.classes.now scene.now.heap.now scene.now.references
        scene.now.fields.now call.now.operands.items (method_at scene.now.fields.now (operand_of call.now.operands.items 1))) }
{
    match called(scene, call) {
        Some(function) => {
            returns(call.function, function.result)
                && takes_all(&function.parameters, passed_operands(&call.operands))
        }
        None => false,
    }
}

/// Whether the arguments of a function, each of its kind, go together.
fn fit_together(scene: &Scene<'_>, call: &Call) -> bool
    requires objects { AreAddresses scene.now.heap.now scene.now.references call.now.operands.items }
    requires handles { AreHandles scene.now.classes.now scene.now.fields.now call.now.operands.items }
    ensures { result ≡ arguments_fit (scene_view scene.now) call.now.operands.items
        (element_wanted call.now.target) call.now.function }
{
    let classes = scene.classes;
    match call.function {
        JniFunction::AllocObject => !classes.has_own_making(class_given(scene, call, 0)),
        JniFunction::GetField(element) | JniFunction::SetField(element) => {
            has_field(scene, call) && holds_number(element, asked_type(scene, call))
        }
        JniFunction::GetObjectField => {
            has_field(scene, call) && holds_reference(asked_type(scene, call))
        }
        JniFunction::SetObjectField => {
            let value = argument(scene, call, 2);
            has_field(scene, call) && fits_type(scene, value, asked_type(scene, call))
        }
        JniFunction::GetStaticField(element) | JniFunction::SetStaticField(element) => {
            has_static(scene, call) && holds_number(element, asked_type(scene, call))
        }
        JniFunction::GetStaticObjectField => {
            has_static(scene, call) && holds_reference(asked_type(scene, call))
        }
        JniFunction::SetStaticObjectField => {
            let value = argument(scene, call, 2);
            has_static(scene, call) && fits_type(scene, value, asked_type(scene, call))
        }
        JniFunction::NewObjectArray => {
            let class = class_given(scene, call, 1);
            let element = argument(scene, call, 2);
            !classes.is_array(class) && fits_there(classes, scene.heap, element, class)
        }
        JniFunction::GetBuffer(Access::ArrayView) => {
            let class = class_of_given(scene.heap, argument(scene, call, 0));
            class == number_array(element_wanted(call.target))
        }
        JniFunction::Throw => {
            let class = class_of_given(scene.heap, argument(scene, call, 0));
            classes.assignable(class, THROWABLE)
        }
        JniFunction::ThrowNew => classes.assignable(class_given(scene, call, 0), THROWABLE),
        JniFunction::CallStaticVoidMethod => calls_well(scene, call),
        JniFunction::CallStaticIntMethod => calls_well(scene, call),
        JniFunction::CallStaticObjectMethod => calls_well(scene, call),
        _ => true,
    }
}

/// The element type of the buffer that a call is to fill.
fn element_wanted(target: Target) -> ElementType
    ensures { result ≡ element_wanted target }
{
    match target {
        Target::Buffer(element, _) => element,
        _ => ElementType::Int,
    }
}

/// Whether an object is of the kind that a parameter asks for.
#[inline(always)]
fn is_of_kind(scene: &Scene<'_>, parameter: ParameterKind, addr: Addr) -> bool
    requires { IsAddress scene.now.heap.now addr }
    ensures { result ≡ not (misfits scene.now.classes.now scene.now.heap.now parameter (Some addr)) }
{
    !asks_kind(parameter) || !class_misfits(scene.classes, parameter, class_there(scene.heap, addr))
}

/// Whether an operand gives what its parameter takes by itself.
#[inline(always)]
fn passes(scene: &Scene<'_>, parameter: ParameterKind, operand: Operand) -> bool
    requires { ReferenceIsThere scene.now.heap.now (operand_at scene.now.references operand) }
    ensures { result ≡ true → (gives_deleted scene.now.references operand ≡ false)
        × ((not (may_be_null parameter) && gives_null scene.now.references scene.now.fields.now operand) ≡ false)
        × (misfits scene.now.classes.now scene.now.heap.now parameter (operand_at scene.now.references operand) ≡ false) }
{
    match operand {
        Operand::Local(slot) => match scene.references.local(slot) {
            Some(addr) => is_of_kind(scene, parameter, addr),
            None => may_be_null(parameter),
        },
        Operand::Static(slot) => match scene.references.held(slot) {
            Held::At(addr) | Held::Weakly(addr) => is_of_kind(scene, parameter, addr),
            Held::Empty | Held::Cleared => may_be_null(parameter),
            Held::Deleted => false,
        },
        Operand::Null => may_be_null(parameter),
        Operand::FieldId(_) => {
            field_in(scene.fields, operand).is_some() || may_be_null(parameter)
        }
        Operand::MethodId(_) => {
            method_in(scene.fields, operand).is_some() || may_be_null(parameter)
        }
        Operand::Number | Operand::Text | Operand::Mode(_) => true,
        Operand::Array(_) | Operand::Buffer(_) | Operand::IsCopy(_) => true,
    }
}

/// Whether each operand does, in one walk over them.
fn all_pass(scene: &Scene<'_>, parameters: &[ParameterKind], operands: &[Operand]) -> bool
    requires { AreAddresses scene.now.heap.now scene.now.references operands.now }
    ensures { result ≡ true → (list_any (gives_deleted scene.now.references) operands.now ≡ false)
        × (some_missing scene.now.references scene.now.fields.now parameters.now operands.now ≡ false)
        × (some_misfit scene.now.classes.now scene.now.heap.now scene.now.references parameters.now operands.now ≡ false) }
{
    match parameters {
        [parameter, parameters @ ..] => match operands {
            [operand, operands @ ..] => {
                passes(scene, *parameter, *operand) && all_pass(scene, parameters, operands)
            }
            [] => true,
        },
        [] => !some_deleted(&scene.references, operands),
    }
}

/// The trap of a call for its arguments, found test by test.
#[inline(never)]
fn trap_of_arguments(scene: &Scene<'_>, call: &Call) -> Option<Trap>
    requires objects { AreAddresses scene.now.heap.now scene.now.references call.now.operands.items }
    requires handles { AreHandles scene.now.classes.now scene.now.fields.now call.now.operands.items }
    ensures some { IfSome result (λ t. ArgumentsTrap (scene_view scene.now) (call_view call.now) t) }
    ensures none { IfNone result (ArgumentsPass (scene_view scene.now) (call_view call.now)) }
{
    let operands = &call.operands;
    let parameters = call.function.prototype().parameters;
    if some_deleted(&scene.references, operands) {
        return Some(Trap::DeletedReference);
    }
    if some_missing(scene, parameters, operands) {
        return Some(Trap::NullReference);
    }
    if some_misfit(scene, parameters, operands) || !fit_together(scene, call) {
        return Some(Trap::WrongObject);
    }
    None
}

/// The trap of a call for its arguments. Where there is none, which is mostly so, they are walked over once.
fn check_arguments(scene: &Scene<'_>, call: &Call) -> Option<Trap>
    requires objects { AreAddresses scene.now.heap.now scene.now.references call.now.operands.items }
    requires handles { AreHandles scene.now.classes.now scene.now.fields.now call.now.operands.items }
    ensures some { IfSome result (λ t. ArgumentsTrap (scene_view scene.now) (call_view call.now) t) }
    ensures none { IfNone result (ArgumentsPass (scene_view scene.now) (call_view call.now)) }
{
    let parameters = call.function.prototype().parameters;
    if all_pass(scene, parameters, &call.operands) && fit_together(scene, call) {
        None
    } else {
        trap_of_arguments(scene, call)
    }
}

/// The trap of a call for its arguments, without a look at arguments of which nothing is asked.
#[tactic(auto, using(crate::proofs::Unasked::nothing_asked))]
fn argument_trap(scene: &Scene<'_>, call: &Call) -> Option<Trap>
    requires prepared { IsPrepared call.now }
    requires objects { AreAddresses scene.now.heap.now scene.now.references call.now.operands.items }
    requires handles { AreHandles scene.now.classes.now scene.now.fields.now call.now.operands.items }
    ensures some { IfSome result (λ t. ArgumentsTrap (scene_view scene.now) (call_view call.now) t) }
    ensures none { IfNone result (ArgumentsPass (scene_view scene.now) (call_view call.now)) }
{
    if call.asks {
        check_arguments(scene, call)
    } else {
        None
    }
}

/// Whether a pending exception keeps a function from being called.
fn is_kept_off(pending: Option<Addr>, function: JniFunction) -> bool
    ensures { result ≡ (is_some pending && not (is_allowed_pending function)) }
{
    pending.is_some() && !function.prototype().pending
}

/// Whether a call gives a local reference for which there is no room.
fn lacks_room(locals: &Locals, call: &Call) -> bool
    requires { IsPrepared call.now }
    ensures { result ≡ (puts_local (prototype call.now.function).result
        && not (has_room (locals_after call.now.function locals.now))) }
{
    puts_local(call.result) && !has_room(locals, call.function)
}

/// The trap of a call that sees this, before it does anything; how deep calls are is not looked at, and is checked after all
/// else. It takes no host memory.
pub fn check(scene: &Scene<'_>, locals: &Locals, call: &Call) -> Option<Trap>
    requires prepared { IsPrepared call.now }
    requires pending { ReferenceIsThere scene.now.heap.now scene.now.pending }
    requires objects { AreAddresses scene.now.heap.now scene.now.references call.now.operands.items }
    requires handles { AreHandles scene.now.classes.now scene.now.fields.now call.now.operands.items }
    requires method { MethodIsThere (unit_tree scene.now.items.now) scene.now.classes.now (method_at scene.now.fields.now (operand_of call.now.operands.items 1)) }
    ensures { result ≡ trap_seen (scene_view scene.now) locals.now (call_view call.now) }
{
    if is_kept_off(scene.pending, call.function) {
        return Some(Trap::ExceptionPending);
    }
    if let Some(trap) = argument_trap(scene, call) {
        return Some(trap);
    }
    if lacks_room(locals, call) {
        return Some(Trap::NoCapacity);
    }
    None
}

/// Whether a call of this kind of result puts a local reference into the frame.
fn puts_local(kind: ResultKind) -> bool
    ensures { result ≡ puts_local kind }
{
    matches!(kind, ResultKind::NewLocal)
}

/// Whether there is room for a local reference that a function gives: `PopLocalFrame` puts it into the frame below.
fn has_room(locals: &Locals, function: JniFunction) -> bool
    ensures { result ≡ has_room (locals_after function locals.now) }
{
    match function {
        JniFunction::PopLocalFrame => locals.has_room_below(),
        _ => locals.has_room(),
    }
}
