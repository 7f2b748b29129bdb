//! What functions of exceptions do, as data.

ghost use Rattle.std.specs.Prelude.{◌≡◌};
ghost use Rattle.jni.specs.Subjects.{subject_of};
ghost use Rattle.jni.specs.declared.subject.Subject.TheVariants as subject;
ghost use Rattle.replay_calls.specs.Answers.{answer_view, scene_answer};

use crate::answer::{Answer, Caller};
use jni::JniFunction;
use replay_arguments::Scene;
use replay_arguments::actual::{Actual, class_given, reference_given, text_given};
use replay_terms::Given;
use semantics::Trap;

/// What a function does that works on the pending exception.
#[tactic(auto, unfolding(semantics::specs::AnswerTable::call_answer))]
#[inline(always)]
pub(crate) fn exception_answer<'a>(
    scene: Scene<'_, 'a>,
    caller: Caller<'a>,
    function: JniFunction,
    actuals: &[Actual<'a>],
) -> Answer<'a>
    requires { subject_of function ≡ subject.Exceptions }
    ensures { answer_view scene.entry.classes.now result ≡ scene_answer scene.entry caller.entry function actuals.now }
{
    match function {
        JniFunction::Throw => Answer::Pends {
            exception: reference_given(actuals, 0),
            given: Given::Number(0),
        },
        JniFunction::ThrowNew => {
            Answer::RaisesWith {
                class: class_given(actuals, 0),
                text: text_given(actuals, 1),
            }
        }
        JniFunction::ExceptionOccurred => Answer::Gives(Given::Reference(scene.pending)),
        JniFunction::ExceptionCheck => Answer::Gives(Given::Flag(scene.pending.is_some())),
        JniFunction::ExceptionClear => Answer::Pends {
            exception: None,
            given: Given::Nothing,
        },
        JniFunction::FatalError => Answer::Halts(Trap::Fatal),
        _ => unreachable!(),
    }
}
