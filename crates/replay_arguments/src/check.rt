//! What is checked of a call before it does anything, in one order for all functions.

ghost use Rattle.std.specs.Prelude.{◌≡◌, ◌||◌, ◌&&◌, None, Some, false, map, not, slice_get, true, zip};
ghost use Rattle.std.specs.List.{list_any};
ghost use Rattle.std.specs.Option.{option_map};
ghost use Rattle.class_rules.specs.BuiltIns.{throwable_class};
ghost use Rattle.classes.specs.Views.{field_type_view};
ghost use Rattle.semantics.specs.CallSight.{argument_seen, is_deleted, is_full};
ghost use Rattle.semantics.specs.Checks.{all_pass, calls_well, frames_after, go_together, misfits, passes, trap_of};
ghost use Rattle.class_rules.specs.Class.{assignable};
ghost use Rattle.semantics.specs.Arguments.{field_given, method_given, object_given};
ghost use Rattle.semantics.specs.Heap.{Heap, class_of, fits_class, fits_type, is_instance};
ghost use Rattle.syntax.specs.Views.{parameter_tree};
ghost use Rattle.jni.specs.Table.{facts, facts_of};
ghost use Rattle.replay_arguments.specs.Actuals.{actual_view};
ghost use Rattle.replay_arguments.specs.Sights.{is_wanted, lacks, lacks_room, scene_sight, seen_with};
ghost use Rattle.semantics.specs.Views.{name_of};

use crate::actual::{
    Actual, class_given, field_given, method_given, object_given, reference_given,
};
use crate::field::{declaring, is_static, type_of};
use crate::scene::Scene;
use class_queries::{class_misfits, holds_number, holds_reference};
use class_rules::ClassId;
use classes::built_ins::{THROWABLE, number_array};
use classes::class::FieldType;
use classes::table::ClassTable;
use jni::{Access, JniFunction, ParameterKind, Prototype, ResultKind};
use replay_objects::{Frames, Store};
use replay_terms::{StaticReference, passed};
use semantics::{ObjectId, Trap};
use syntax::{Parameter, ParameterType, ResultType};

/// The trap of a call before it does anything, which may give a buffer of this element type, but for the depth of calls: that is
/// checked where a method is entered. Most calls have none, which is seen in one go.
#[inline(always)]
pub fn check(
    scene: Scene<'_, '_>,
    buffer: syntax::ElementType,
    function: JniFunction,
    asked: &Prototype,
    actuals: &[Actual<'_>],
) -> Option<Trap>
    requires { facts asked.now ≡ facts_of function }
    ensures { result
        ≡ trap_of scene.entry.classes.now (scene_sight scene.entry function actuals.now) buffer function }
{
    if is_passed(scene, buffer, function, asked, actuals) {
        return None;
    }
    first_trap(scene, buffer, function, actuals)
}

/// Whether a call passes all checks.
#[inline(always)]
fn is_passed(
    scene: Scene<'_, '_>,
    buffer: syntax::ElementType,
    function: JniFunction,
    asked: &Prototype,
    actuals: &[Actual<'_>],
) -> bool
    requires { facts asked.now ≡ facts_of function }
    ensures { (result ≡ true) → trap_of scene.entry.classes.now (scene_sight scene.entry function actuals.now) buffer function ≡ None }
{
    if scene.pending.is_some() && !asked.pending {
        return false;
    }
    if !all_fit(
        scene.classes,
        &scene.shared.store,
        asked.parameters,
        actuals,
    ) {
        return false;
    }
    if !go_together(scene, buffer, function, actuals) {
        return false;
    }
    !lacks_room(function, asked.result, &scene.locals.frames)
}

/// The trap of the first check that fails, if one does.
#[inline(never)]
fn first_trap(
    scene: Scene<'_, '_>,
    buffer: syntax::ElementType,
    function: JniFunction,
    actuals: &[Actual<'_>],
) -> Option<Trap>
    ensures { result
        ≡ trap_of scene.entry.classes.now (scene_sight scene.entry function actuals.now) buffer function }
{
    let asked = function.prototype();
    if scene.pending.is_some() && !asked.pending {
        return Some(Trap::ExceptionPending);
    }
    if some_deleted(actuals) {
        return Some(Trap::DeletedReference);
    }
    if some_missing(asked.parameters, actuals) {
        return Some(Trap::NullReference);
    }
    let (classes, store) = (scene.classes, &scene.shared.store);
    if some_misfit(classes, store, asked.parameters, actuals) {
        return Some(Trap::WrongObject);
    }
    if !go_together(scene, buffer, function, actuals) {
        return Some(Trap::WrongObject);
    }
    if lacks_room(function, asked.result, &scene.locals.frames) {
        return Some(Trap::NoCapacity);
    }
    None
}

/// Whether no argument is a static that is marked as deleted, none is NULL where that isn't allowed, and none is an object of another kind than
/// its parameter: most often so it is, and is seen in one go.
#[inline]
fn all_fit(
    classes: &ClassTable,
    store: &Store,
    parameters: &[ParameterKind],
    actuals: &[Actual<'_>],
) -> bool
    ensures deleted { (result ≡ true) → list_any is_deleted (map actual_view actuals.now) ≡ false }
    ensures missing { (result ≡ true) → list_any lacks (zip parameters.now (map actual_view actuals.now)) ≡ false }
    ensures misfit { (result ≡ true) → list_any (λ c. misfits classes.now (seen_with store.now c)) (zip parameters.now (map actual_view actuals.now)) ≡ false }
{
    match parameters {
        [parameter, parameters @ ..] => match actuals {
            [actual, actuals @ ..] => {
                fits(classes, store, *parameter, *actual)
                    && all_fit(classes, store, parameters, actuals)
            }
            [] => true,
        },
        [] => !some_deleted(actuals),
    }
}

/// The same of one argument.
#[inline(always)]
fn fits(classes: &ClassTable, store: &Store, parameter: ParameterKind, actual: Actual<'_>) -> bool
    ensures deleted { (result ≡ true) → is_deleted (actual_view actual.entry) ≡ false }
    ensures missing { (result ≡ true) → lacks (parameter, actual_view actual.entry) ≡ false }
    ensures misfit { (result ≡ true) → misfits classes.now (seen_with store.now (parameter, actual_view actual.entry)) ≡ false }
{
    !is_deleted(actual)
        && !is_missing(parameter, actual)
        && !is_misfit(classes, store, parameter, actual)
}

/// Whether some argument is a static that is marked as deleted.
fn some_deleted(actuals: &[Actual<'_>]) -> bool
    ensures { result ≡ list_any is_deleted (map actual_view actuals.now) }
{
    match actuals {
        [] => false,
        [actual, actuals @ ..] => is_deleted(*actual) || some_deleted(actuals),
    }
}

/// Whether an argument is a static that is marked as deleted.
#[inline(always)]
fn is_deleted(actual: Actual<'_>) -> bool
    ensures { result ≡ is_deleted (actual_view actual.entry) }
{
    matches!(actual, Actual::Reference(_, StaticReference::Deleted))
}

/// Whether some argument is NULL where that isn't allowed.
fn some_missing(parameters: &[ParameterKind], actuals: &[Actual<'_>]) -> bool
    ensures { result ≡ list_any lacks (zip parameters.now (map actual_view actuals.now)) }
{
    match parameters {
        [parameter, parameters @ ..] => match actuals {
            [actual, actuals @ ..] => {
                is_missing(*parameter, *actual) || some_missing(parameters, actuals)
            }
            [] => false,
        },
        [] => false,
    }
}

/// Whether an argument is NULL where that isn't allowed.
#[inline(always)]
fn is_missing(parameter: ParameterKind, actual: Actual<'_>) -> bool
    ensures { result ≡ lacks (parameter, actual_view actual.entry) }
{
    match parameter {
        ParameterKind::Nullable | ParameterKind::AnyReference => false,
        ParameterKind::LocalVariable | ParameterKind::Passed => false,
        ParameterKind::StaticVariable | ParameterKind::WeakVariable => false,
        _ => match actual {
            Actual::Reference(_, held) => matches!(held, StaticReference::Empty),
            Actual::Field(field) => field.is_none(),
            Actual::Method(method) => method.is_none(),
            _ => false,
        },
    }
}

/// Whether some argument is an object of another kind than its parameter.
fn some_misfit(
    classes: &ClassTable,
    store: &Store,
    parameters: &[ParameterKind],
    actuals: &[Actual<'_>],
) -> bool
    ensures { result ≡ list_any (λ c. misfits classes.now (seen_with store.now c)) (zip parameters.now (map actual_view actuals.now)) }
{
    match parameters {
        [parameter, parameters @ ..] => match actuals {
            [actual, actuals @ ..] => {
                is_misfit(classes, store, *parameter, *actual)
                    || some_misfit(classes, store, parameters, actuals)
            }
            [] => false,
        },
        [] => false,
    }
}

/// Whether an argument is an object of another kind than the parameter.
#[inline(always)]
fn is_misfit(
    classes: &ClassTable,
    store: &Store,
    parameter: ParameterKind,
    actual: Actual<'_>,
) -> bool
    ensures { result ≡ misfits classes.now (seen_with store.now (parameter, actual_view actual.entry)) }
{
    match actual {
        Actual::Reference(_, held) => match held {
            StaticReference::Live(name) => {
                class_misfits(classes, parameter, store.class_of(name))
            }
            StaticReference::Empty | StaticReference::Deleted => false,
            StaticReference::Weakly(_) | StaticReference::Cleared => false,
        },
        _ => false,
    }
}

// ---- what a function asks beyond that

/// Whether the arguments of a function, each of its kind, go together.
#[tactic(auto, unfolding(semantics::specs::Checks::go_together))]
#[inline(always)]
fn go_together(
    scene: Scene<'_, '_>,
    buffer: syntax::ElementType,
    function: JniFunction,
    actuals: &[Actual<'_>],
) -> bool
    ensures { result
        ≡ go_together scene.entry.classes.now (scene_sight scene.entry function actuals.now) buffer function }
{
    let (classes, store) = (scene.classes, &scene.shared.store);
    let field = field_given(actuals, 1);
    match function {
        JniFunction::AllocObject => !classes.has_own_making(class_given(actuals, 0)),
        JniFunction::GetField(element) | JniFunction::SetField(element) => {
            has_field(classes, store, actuals) && holds_number(element, type_of(field))
        }
        JniFunction::GetObjectField => {
            has_field(classes, store, actuals) && holds_reference(type_of(field))
        }
        JniFunction::SetObjectField => {
            has_field(classes, store, actuals)
                && fits_type(classes, store, reference_given(actuals, 2), type_of(field))
        }
        JniFunction::GetStaticField(element) | JniFunction::SetStaticField(element) => {
            has_static(classes, actuals) && holds_number(element, type_of(field))
        }
        JniFunction::GetStaticObjectField => {
            has_static(classes, actuals) && holds_reference(type_of(field))
        }
        JniFunction::SetStaticObjectField => {
            has_static(classes, actuals)
                && fits_type(classes, store, reference_given(actuals, 2), type_of(field))
        }
        JniFunction::GetBuffer(Access::ArrayView) => {
            store.class_of(object_given(actuals, 0)) == number_array(buffer)
        }
        JniFunction::NewObjectArray => {
            let element = class_given(actuals, 1);
            !classes.is_array(element)
                && fits_class(classes, store, reference_given(actuals, 2), element)
        }
        JniFunction::Throw => is_throwable(classes, store, object_given(actuals, 0)),
        JniFunction::ThrowNew => classes.assignable(class_given(actuals, 0), THROWABLE),
        JniFunction::CallStaticVoidMethod => calls_well(scene, function, actuals),
        JniFunction::CallStaticIntMethod => calls_well(scene, function, actuals),
        JniFunction::CallStaticObjectMethod => calls_well(scene, function, actuals),
        _ => true,
    }
}

/// Whether the method of argument 1 was got from the class of argument 0, returns what the function that calls it wants, and takes
/// what it is passed.
fn calls_well(scene: Scene<'_, '_>, function: JniFunction, actuals: &[Actual<'_>]) -> bool
    ensures { result
        ≡ calls_well scene.entry.classes.now (scene_sight scene.entry function actuals.now) (is_wanted function)
        (method_given (map actual_view actuals.now) 1) }
{
    match method_given(actuals, 1) {
        Some(method) => {
            method.class == class_given(actuals, 0)
                && is_wanted(function, method.function.result)
                && all_pass(&method.function.parameters, passed(actuals))
        }
        None => false,
    }
}

/// Whether a function that calls a method wants such a result.
fn is_wanted(function: JniFunction, returned: ResultType) -> bool
    ensures { result ≡ is_wanted function returned }
{
    match function {
        JniFunction::CallStaticVoidMethod => matches!(returned, ResultType::Void),
        JniFunction::CallStaticIntMethod => matches!(returned, ResultType::Jint),
        _ => matches!(returned, ResultType::Reference(_)),
    }
}

/// Whether as many are passed as there are parameters, each of its kind.
fn all_pass(parameters: &[Parameter], actuals: &[Actual<'_>]) -> bool
    ensures { (heap : Heap) → result
        ≡ all_pass (map parameter_tree parameters.entry.now) (map (λ a. argument_seen heap (Some (actual_view a))) actuals.entry.now) }
{
    match parameters {
        [] => actuals.is_empty(),
        [parameter, parameters @ ..] => match actuals {
            [] => false,
            [actual, actuals @ ..] => {
                passes(parameter.kind, *actual) && all_pass(parameters, actuals)
            }
        },
    }
}

/// Whether what is passed to a parameter is a number, or a reference, as it asks.
fn passes(kind: ParameterType, actual: Actual<'_>) -> bool
    ensures { (heap : Heap) → result ≡ passes kind (argument_seen heap (Some (actual_view actual.entry))) }
{
    match kind {
        ParameterType::Jint => matches!(actual, Actual::Number(_)),
        ParameterType::Reference(_) => matches!(actual, Actual::Reference(_, _)),
    }
}

/// Whether argument 0 is an object that has the field of argument 1.
fn has_field(classes: &ClassTable, store: &Store, actuals: &[Actual<'_>]) -> bool
    ensures { result ≡ (not (field_given (map actual_view actuals.now) 1).is_static
        && assignable classes.now (class_of store.now (object_given (map actual_view actuals.now) 0)) (field_given (map actual_view actuals.now) 1).class) }
{
    let field = field_given(actuals, 1);
    let class = store.class_of(object_given(actuals, 0));
    !is_static(field) && classes.assignable(class, declaring(field))
}

/// Whether argument 0 is a class that has the static of argument 1.
fn has_static(classes: &ClassTable, actuals: &[Actual<'_>]) -> bool
    ensures { result ≡ ((field_given (map actual_view actuals.now) 1).is_static
        && assignable classes.now (object_given (map actual_view actuals.now) 0) (field_given (map actual_view actuals.now) 1).class) }
{
    let field = field_given(actuals, 1);
    is_static(field) && classes.assignable(class_given(actuals, 0), declaring(field))
}

/// Whether an object can be thrown.
fn is_throwable(classes: &ClassTable, store: &Store, name: ObjectId) -> bool
    ensures { result ≡ is_instance classes.now store.now name.number throwable_class }
{
    classes.assignable(store.class_of(name), THROWABLE)
}

/// Whether a reference fits a class, as NULL does always.
fn fits_class(
    classes: &ClassTable,
    store: &Store,
    reference: Option<ObjectId>,
    class: ClassId,
) -> bool
    ensures { result ≡ fits_class classes.now store.now (name_of reference) class.number }
{
    match reference {
        Some(name) => classes.assignable(store.class_of(name), class),
        None => true,
    }
}

/// Whether a reference may be stored in a field of this type.
fn fits_type(
    classes: &ClassTable,
    store: &Store,
    reference: Option<ObjectId>,
    field_type: FieldType,
) -> bool
    ensures { result ≡ fits_type classes.now store.now (name_of reference) (field_type_view field_type) }
{
    match field_type {
        FieldType::Number(_) => false,
        FieldType::Reference(class) => fits_class(classes, store, reference, class),
    }
}

/// Whether a call puts a local reference into a frame that can hold no more.
#[inline(always)]
fn lacks_room(function: JniFunction, kind: ResultKind, frames: &Frames) -> bool
    ensures { result ≡ lacks_room kind (slice_get (frames_after function frames.now) 0) }
{
    match kind {
        ResultKind::NewLocal => match function {
            JniFunction::PopLocalFrame => frames.is_full_below(),
            _ => frames.is_full(),
        },
        _ => false,
    }
}
