//! What functions of monitors do.

ghost use Rattle.std.specs.Prelude.{◌≡◌};
ghost use Rattle.machine_answers.specs.AnswersSeen.{CallsMethod, EndsFirst, IsSeen, IsThere};
ghost use Rattle.code.specs.Call.{call_view};
ghost use Rattle.machine_scenes.specs.Given.{AreAddresses};
ghost use Rattle.machine_scenes.specs.Scenes.{scene_view};
ghost use Rattle.jni.specs.Subjects.{subject_of};
ghost use Rattle.jni.specs.declared.subject.Subject.TheVariants as subject;

use crate::answer::{Answer, Given, argument};
use classes::built_ins::ILLEGAL_MONITOR_STATE_EXCEPTION;
use code::instr::Call;
use jni::JniFunction;
use machine_scenes::scene::Scene;
use monitors::{Enter, Exit, Object};

/// What a function does that works on monitors. A monitor that can't be entered gives -1, which is `JNI_ERR`.
#[inline(always)]
#[tactic(auto, using(crate::proofs::MonitorAnswers::limited, crate::proofs::MonitorAnswers::not_busy, crate::proofs::MonitorAnswers::refused, std::proofs::lemmas::Grind::common_steps), unfolding(semantics::specs::AnswerTable::call_answer))]
pub(crate) fn work_out_monitor(scene: &Scene<'_>, call: &Call) -> Answer
    requires subject { subject_of call.now.function ≡ subject.Monitors }
    requires objects { AreAddresses scene.now.heap.now scene.now.references call.now.operands.items }
    ensures seen { IsSeen (scene_view scene.now) (call_view call.now) result }
    ensures there { IsThere (scene_view scene.now) (call_view call.now) result }
    ensures ends { EndsFirst (scene_view scene.now) (call_view call.now) result }
    ensures calls { CallsMethod (call_view call.now) result }
{
    let Some(address) = argument(scene, call, 0) else {
        return Answer::Gives(Given::Nothing);
    };
    let name = scene.heap.birth_of(address);
    match call.function {
        JniFunction::MonitorEnter => match scene.monitors.entering(name, scene.thread) {
            Enter::Entered => Answer::Enters(Object { name, address }),
            Enter::Limit | Enter::Busy => Answer::Gives(Given::Number(u32::MAX)),
        },
        JniFunction::MonitorExit => match scene.monitors.leaving(name, scene.thread) {
            Exit::Left => Answer::Exits(name),
            Exit::NotOwner => Answer::Throws(ILLEGAL_MONITOR_STATE_EXCEPTION),
        },
        _ => unreachable!(),
    }
}
