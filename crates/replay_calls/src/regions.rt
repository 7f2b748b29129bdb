//! What functions of regions do: parts of arrays and strings that are copied to or from local arrays.

ghost use Rattle.std.specs.Prelude.{◌≡◌, length, map};
ghost use Rattle.std.specs.Option.{option_map};
ghost use Rattle.base.specs.Bytes.{lookup};
ghost use Rattle.class_rules.specs.BuiltIns.{array_index_out_of_bounds};
ghost use Rattle.class_rules.specs.Class.{Classes};
ghost use Rattle.jni.specs.Subjects.{subject_of};
ghost use Rattle.jni.specs.declared.subject.Subject.TheVariants as subject;
ghost use Rattle.semantics.specs.Answer.{GetsRegion, SetsRegion, with_region_got, with_region_set};
ghost use Rattle.semantics.specs.AnswerTable.{region_with, region_within};
ghost use Rattle.semantics.specs.Arguments.{number_given, object_given};
ghost use Rattle.semantics.specs.CallEffects.{local_array};
ghost use Rattle.semantics.specs.Heap.{values_of};
ghost use Rattle.replay_arguments.specs.Actuals.{actual_view};
ghost use Rattle.replay_calls.specs.Answers.{HasRoom, IsInside, answer_view, array_given, region_view, scene_answer};
ghost use Rattle.replay_terms.specs.Views.{variables_view};

use crate::answer::{Answer, Caller, Region};
use class_rules::ClassId;
use classes::built_ins::{
    ARRAY_INDEX_OUT_OF_BOUNDS_EXCEPTION, STRING_INDEX_OUT_OF_BOUNDS_EXCEPTION,
};
use jni::JniFunction;
use replay_arguments::Scene;
use replay_arguments::actual::{Actual, number_given, object_given, variable_given};
use replay_objects::Store;
use replay_terms::Variables;
use semantics::Trap;

/// What a function does that works on a region.
#[tactic(auto, unfolding(semantics::specs::AnswerTable::call_answer))]
#[inline(always)]
pub(crate) fn region_answer<'a>(
    scene: Scene<'_, 'a>,
    caller: Caller<'a>,
    function: JniFunction,
    actuals: &[Actual<'a>],
) -> Answer<'a>
    requires { subject_of function ≡ subject.Regions }
    ensures { answer_view scene.entry.classes.now result ≡ scene_answer scene.entry caller.entry function actuals.now }
{
    let (store, variables) = (&scene.shared.store, &scene.locals.variables);
    match function {
        JniFunction::GetArrayRegion(_) => {
            region_got(
                store,
                variables,
                ARRAY_INDEX_OUT_OF_BOUNDS_EXCEPTION,
                actuals,
            )
        }
        JniFunction::GetStringRegion => {
            region_got(
                store,
                variables,
                STRING_INDEX_OUT_OF_BOUNDS_EXCEPTION,
                actuals,
            )
        }
        JniFunction::SetArrayRegion(_) => region_set(store, variables, actuals),
        _ => unreachable!(),
    }
}

/// The region of arguments 0 to 2, where the array or the string has it.
fn region_given(store: &Store, actuals: &[Actual<'_>]) -> Option<Region>
    ensures { option_map region_view result
        ≡ region_within (object_given (map actual_view actuals.now) 0)
        (length (values_of store.now (object_given (map actual_view actuals.now) 0)))
        (number_given (map actual_view actuals.now) 1) (number_given (map actual_view actuals.now) 2) }
{
    let object = object_given(actuals, 0);
    let start = number_given(actuals, 1);
    let count = number_given(actuals, 2);
    if start < 0 || count < 0 {
        return None;
    }
    let region = Region {
        object,
        start: start as usize,
        count: count as usize,
    };
    if region.start + region.count <= store.values_of(object).len() {
        Some(region)
    } else {
        None
    }
}

/// How many elements the local array of argument 3 has.
fn room_given(variables: &Variables<'_>, actuals: &[Actual<'_>]) -> usize
    ensures { result ≡ length (array_given (variables_view variables.now) (map actual_view actuals.now)) }
{
    variables.array_named(variable_given(actuals, 3)).len()
}

/// The local array of argument 3 begins with the numbers of a region; there is a Java exception where there is no such
/// region, and a trap where the local array is too short.
fn region_got<'a>(
    store: &Store,
    variables: &Variables<'_>,
    exception: ClassId,
    actuals: &[Actual<'a>],
) -> Answer<'a>
    ensures { (cs : Classes) → answer_view cs result
        ≡ region_with GetsRegion exception.number (length (array_given (variables_view variables.now) (map actual_view actuals.now)))
        (region_within (object_given (map actual_view actuals.now) 0)
        (length (values_of store.now (object_given (map actual_view actuals.now) 0)))
        (number_given (map actual_view actuals.now) 1) (number_given (map actual_view actuals.now) 2)) }
{
    match region_given(store, actuals) {
        None => Answer::Raises(exception),
        Some(region) => {
            if region.count <= room_given(variables, actuals) {
                Answer::GetsRegion(region)
            } else {
                Answer::Halts(Trap::OutOfRange)
            }
        }
    }
}

/// The numbers of a region become the first of the local array of argument 3; there is a Java exception where there is
/// no such region, and a trap where the local array is too short.
fn region_set<'a>(store: &Store, variables: &Variables<'_>, actuals: &[Actual<'a>]) -> Answer<'a>
    ensures { (cs : Classes) → answer_view cs result
        ≡ region_with SetsRegion array_index_out_of_bounds (length (array_given (variables_view variables.now) (map actual_view actuals.now)))
        (region_within (object_given (map actual_view actuals.now) 0)
        (length (values_of store.now (object_given (map actual_view actuals.now) 0)))
        (number_given (map actual_view actuals.now) 1) (number_given (map actual_view actuals.now) 2)) }
{
    match region_given(store, actuals) {
        None => Answer::Raises(ARRAY_INDEX_OUT_OF_BOUNDS_EXCEPTION),
        Some(region) => {
            if region.count <= room_given(variables, actuals) {
                Answer::SetsRegion(region)
            } else {
                Answer::Halts(Trap::OutOfRange)
            }
        }
    }
}

/// Lets a local array begin with the numbers of a region.
pub(crate) fn get_region(store: &Store, variables: &mut Variables<'_>, array: &[u8], region: Region)
    requires inside { IsInside store.now (region_view region) }
    requires room { HasRoom (local_array (lookup array.now (variables_view variables.old))) (region_view region) }
    ensures { variables_view variables.new
        ≡ with_region_got store.now array.now (region_view region) (variables_view variables.old) }
{
    let values = store.values_of(region.object);
    let end = region.start + region.count;
    variables.begin_array(array, &values[region.start..end]);
}

/// Lets the numbers of a region be the first of a local array.
pub(crate) fn set_region(store: &mut Store, variables: &Variables<'_>, array: &[u8], region: Region)
    requires inside { IsInside store.old (region_view region) }
    requires room { HasRoom (local_array (lookup array.now (variables_view variables.now))) (region_view region) }
    ensures { store.new ≡ with_region_set (variables_view variables.now) array.now (region_view region) store.old }
{
    let numbers = variables.array_named(array);
    store.set_numbers(region.object, region.start, &numbers[..region.count]);
}
