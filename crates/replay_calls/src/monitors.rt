//! What functions of monitors do, as data.

ghost use Rattle.std.specs.Prelude.{◌≡◌};
ghost use Rattle.std.specs.Option.{option_map};
ghost use Rattle.class_rules.specs.Class.{Classes};
ghost use Rattle.jni.specs.Subjects.{subject_of};
ghost use Rattle.jni.specs.declared.subject.Subject.TheVariants as subject;
ghost use Rattle.semantics.specs.AnswerTable.{monitor_entered, monitor_left};
ghost use Rattle.replay_calls.specs.Answers.{answer_view, scene_answer};
ghost use Rattle.replay_objects.specs.Monitors.{monitor_view};

use crate::answer::{Answer, Caller};
use base::limits::MOST_MONITOR_ENTRIES;
use classes::built_ins::ILLEGAL_MONITOR_STATE_EXCEPTION;
use jni::JniFunction;
use replay_arguments::Scene;
use replay_arguments::actual::{Actual, object_given};
use replay_objects::Monitor;
use replay_terms::Given;
use semantics::ObjectId;

/// What a function does that works on the monitor of an object, where a thread calls it.
#[tactic(auto, unfolding(semantics::specs::AnswerTable::call_answer))]
#[inline(always)]
pub(crate) fn monitor_answer<'a>(
    scene: Scene<'_, 'a>,
    caller: Caller<'a>,
    function: JniFunction,
    actuals: &[Actual<'a>],
) -> Answer<'a>
    requires { subject_of function ≡ subject.Monitors }
    ensures { answer_view scene.entry.classes.now result ≡ scene_answer scene.entry caller.entry function actuals.now }
{
    let object = object_given(actuals, 0);
    let monitor = scene.shared.monitors.of(object);
    match function {
        JniFunction::MonitorEnter => entered(object, monitor),
        JniFunction::MonitorExit => left(caller.thread, object, monitor),
        _ => unreachable!(),
    }
}

/// One entry more of an object with this monitor, which no other thread owns, if there may be one more.
fn entered<'a>(object: ObjectId, monitor: Option<Monitor>) -> Answer<'a>
    ensures { (cs : Classes) → answer_view cs result ≡ monitor_entered object.number (option_map monitor_view monitor) }
{
    match monitor {
        None => Answer::Owns { object, count: 1 },
        Some(monitor) => {
            if monitor.count < MOST_MONITOR_ENTRIES {
                Answer::Owns {
                    object,
                    count: monitor.count + 1,
                }
            } else {
                Answer::Gives(Given::Number(-1))
            }
        }
    }
}

/// One entry less of an object with this monitor, or an exception where the thread doesn't own it.
fn left<'a>(thread: u8, object: ObjectId, monitor: Option<Monitor>) -> Answer<'a>
    ensures { (cs : Classes) → answer_view cs result ≡ monitor_left thread object.number (option_map monitor_view monitor) }
{
    let Some(monitor) = monitor else {
        return Answer::Raises(ILLEGAL_MONITOR_STATE_EXCEPTION);
    };
    if monitor.owner != thread {
        return Answer::Raises(ILLEGAL_MONITOR_STATE_EXCEPTION);
    }
    if monitor.count == 1 {
        return Answer::Disowns(object);
    }
    Answer::Owns {
        object,
        count: monitor.count.saturating_sub(1),
    }
}
