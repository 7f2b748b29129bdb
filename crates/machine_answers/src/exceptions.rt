//! What functions of exceptions do.

ghost use Rattle.std.specs.Prelude.{◌≡◌};
ghost use Rattle.machine_answers.specs.AnswersSeen.{CallsMethod, EndsFirst, IsSeen, IsThere};
ghost use Rattle.code.specs.Call.{call_view};
ghost use Rattle.machine_scenes.specs.Given.{AreAddresses};
ghost use Rattle.machine_scenes.specs.Scenes.{scene_view};
ghost use Rattle.jni.specs.Subjects.{subject_of};
ghost use Rattle.jni.specs.declared.subject.Subject.TheVariants as subject;

use crate::answer::{Answer, Given, argument, class_given, gives_truth};
use code::instr::Call;
use jni::JniFunction;
use machine_scenes::scene::Scene;
use semantics::Trap;

/// What a function does that works on the pending exception.
#[inline(always)]
#[tactic(auto, unfolding(semantics::specs::AnswerTable::call_answer))]
pub(crate) fn work_out_exception(scene: &Scene<'_>, call: &Call) -> Answer
    requires subject { subject_of call.now.function ≡ subject.Exceptions }
    requires objects { AreAddresses scene.now.heap.now scene.now.references call.now.operands.items }
    ensures seen { IsSeen (scene_view scene.now) (call_view call.now) result }
    ensures there { IsThere (scene_view scene.now) (call_view call.now) result }
    ensures ends { EndsFirst (scene_view scene.now) (call_view call.now) result }
    ensures calls { CallsMethod (call_view call.now) result }
{
    match call.function {
        JniFunction::Throw => {
            let exception = argument(scene, call, 0);
            Answer::Pends {
                exception,
                given: Given::Number(0),
            }
        }
        JniFunction::ThrowNew => {
            Answer::Raises {
                class: class_given(scene, call, 0),
                text: 0,
            }
        }
        JniFunction::ExceptionOccurred => Answer::Gives(Given::Reference(scene.pending)),
        JniFunction::ExceptionCheck => gives_truth(scene.pending.is_some()),
        JniFunction::ExceptionClear => Answer::Pends {
            exception: None,
            given: Given::Nothing,
        },
        JniFunction::FatalError => Answer::Halts(Trap::Fatal),
        _ => unreachable!(),
    }
}
