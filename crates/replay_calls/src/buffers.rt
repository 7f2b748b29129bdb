//! What functions of element buffers do, as data.

ghost use Rattle.std.specs.Prelude.{◌≡◌, ◌+◌, IfOk, if◌then◌else◌, length, map, nat_le, nat_lt};
ghost use Rattle.std.specs.Option.{option_map};
ghost use Rattle.base.specs.Limits.{most_copied, most_views};
ghost use Rattle.class_rules.specs.Class.{Classes};
ghost use Rattle.jni.specs.Subjects.{subject_of};
ghost use Rattle.jni.specs.declared.subject.Subject.TheVariants as subject;
ghost use Rattle.semantics.specs.Answer.{freed_if, with_copied_back};
ghost use Rattle.semantics.specs.AnswerTable.{released};
ghost use Rattle.semantics.specs.CallEffects.{BufferResult};
ghost use Rattle.semantics.specs.CallStep.{tell_copy};
ghost use Rattle.semantics.specs.Heap.{Heap, numbers_of};
ghost use Rattle.semantics.specs.Variable.{Copy, NoBuffer, View};
ghost use Rattle.replay_calls.specs.Answers.{answer_view, scene_answer};
ghost use Rattle.replay_terms.specs.Views.{in_use_view, lent_view, variables_view};

use crate::answer::{Answer, Caller};
use base::limits::{MOST_COPIED, MOST_VIEWS};
use jni::{Access, JniFunction};
use replay_arguments::Scene;
use replay_arguments::actual::{Actual, ReleaseMode, mode_given, object_given};
use replay_objects::Store;
use replay_terms::{BuffersInUse, Content, Lent, Variables};
use semantics::{ObjectId, Value};
use std::alloc::AllocError;

/// What a function does that gives a buffer or takes it back.
#[tactic(auto, unfolding(semantics::specs::AnswerTable::call_answer))]
#[inline(always)]
pub(crate) fn buffer_answer<'a>(
    scene: Scene<'_, 'a>,
    caller: Caller<'a>,
    function: JniFunction,
    actuals: &[Actual<'a>],
) -> Answer<'a>
    requires { subject_of function ≡ subject.Buffers }
    ensures { answer_view scene.entry.classes.now result ≡ scene_answer scene.entry caller.entry function actuals.now }
{
    let object = object_given(actuals, 0);
    match function {
        JniFunction::GetBuffer(Access::ElementsCopy(_) | Access::CharsCopy) => {
            Answer::Copies(object)
        }
        JniFunction::GetBuffer(Access::ArrayView | Access::CharsView) => Answer::Views(object),
        JniFunction::ReleaseBuffer(Access::ElementsCopy(_)) => {
            released(object, mode_given(actuals, 2))
        }
        JniFunction::ReleaseBuffer(_) => Answer::Frees,
        _ => unreachable!(),
    }
}

/// What a release of a copy in this mode does.
fn released<'a>(object: ObjectId, mode: ReleaseMode) -> Answer<'a>
    ensures { (cs : Classes) → answer_view cs result ≡ released object.number mode }
{
    match mode {
        ReleaseMode::CopyBackAndFree => Answer::CopiesBack {
            object,
            frees: true,
        },
        ReleaseMode::CopyBack => Answer::CopiesBack {
            object,
            frees: false,
        },
        ReleaseMode::FreeUncopied => Answer::Frees,
    }
}

/// A copy of an object, or NULL where all copies together would be too long.
pub(crate) fn copy_lent(store: &Store, in_use: BuffersInUse, object: ObjectId) -> Lent
    ensures { lent_view store.now result
        ≡ (if nat_le ((in_use_view in_use).copied + length (numbers_of store.now object.number)) most_copied
        then Copy object.number (numbers_of store.now object.number) else NoBuffer) }
{
    let count = store.values_of(object).len();
    if in_use.copied <= MOST_COPIED && count <= MOST_COPIED - in_use.copied {
        Lent::Copy(object)
    } else {
        Lent::Nothing
    }
}

/// A view of an object, or NULL where there are as many as there may be.
pub(crate) fn view_lent(in_use: BuffersInUse, object: ObjectId) -> Lent
    ensures { (heap : Heap) → lent_view heap result
        ≡ (if nat_lt (in_use_view in_use).views most_views then View object.number else NoBuffer) }
{
    if in_use.views < MOST_VIEWS as usize {
        Lent::View(object)
    } else {
        Lent::Nothing
    }
}

/// Lets an object have the numbers of the copy of this name, which is given up or not.
pub(crate) fn copy_back(
    store: &mut Store,
    variables: &mut Variables<'_>,
    object: ObjectId,
    buffer: &[u8],
    frees: bool,
) -> Result<(), AllocError>
    ensures heap { IfOk result (λ _. store.new
        ≡ with_copied_back (variables_view variables.old) buffer.now object.number store.old) }
    ensures variables { IfOk result (λ _. variables_view variables.new
        ≡ freed_if frees buffer.now (variables_view variables.old)) }
{
    store.put_numbers(object, variables.copy_named(buffer))?;
    if frees {
        variables.free(buffer);
    }
    Ok(())
}

/// `isCopy`, the variable of this name, tells a copy from a view; it may be NULL.
pub fn tell_copy<'a>(
    variables: &mut Variables<'a>,
    name: Option<&'a [u8]>,
    lent: Lent,
) -> Result<(), AllocError>
    ensures { IfOk result (λ _. (heap : Heap) → variables_view variables.new
        ≡ tell_copy (option_map (λ x. x.now) name.entry) (BufferResult (lent_view heap lent))
        (variables_view variables.old)) }
{
    let Some(name) = name else {
        return Ok(());
    };
    match lent {
        Lent::Copy(_) => variables.set_named(name, Content::Number(Value::Flag(true))),
        Lent::View(_) => variables.set_named(name, Content::Number(Value::Flag(false))),
        Lent::Nothing => Ok(()),
    }
}
