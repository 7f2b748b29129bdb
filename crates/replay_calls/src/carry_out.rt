//! What the answer of a function does to what all threads share, to the variables, to the frames and to the pending
//! exception.

ghost use Rattle.std.specs.Prelude.{◌≡◌, ◌++◌, ℕ, IfOk, List, Some, map, negsuc, true};
ghost use Rattle.std.specs.Option.{option_to_list};
ghost use Rattle.class_rules.specs.Class.{Classes};
ghost use Rattle.semantics.specs.Answer.{effect_of};
ghost use Rattle.semantics.specs.Arguments.{Actual as ActualOfCall};
ghost use Rattle.semantics.specs.CallEffects.{ScalarResult, out_of_memory};
ghost use Rattle.semantics.specs.CallStep.{failure, makes_objects};
ghost use Rattle.semantics.specs.Thread.{BuffersInUse as InUse, Shared as SharedOfThreads, Thread};
ghost use Rattle.semantics.specs.declared.value.Value.TheVariants.{Int};
ghost use Rattle.semantics.specs.Views.{name_of};
ghost use Rattle.replay_arguments.specs.Actuals.{actual_view};
ghost use Rattle.replay_arguments.specs.Shares.{shared_view};
ghost use Rattle.replay_calls.specs.declared.carry_out.Done.TheVariants as done;
ghost use Rattle.replay_calls.specs.Answers.{CarriesOut, CarriesOutWith, FitsCall, GivesAtOnce, answer_view, array_given, frames_with};
ghost use Rattle.replay_terms.specs.Views.{given_view, variables_view};

use crate::answer::Answer;
use crate::buffers::{copy_back, copy_lent, view_lent};
use crate::regions::{get_region, set_region};
use classes::table::ClassTable;
use jni::{JniFunction, ResultKind};
use replay_arguments::actual::{Actual, level_of, variable_given};
use replay_arguments::{Locals, Shared, Turn};
use replay_objects::{Frames, Names, New, make, make_thrown};
use replay_terms::{Given, Lent, StaticReference};
use semantics::{ObjectId, Trap};
use std::alloc::AllocError;

/// How a call is over, or goes on.
#[derive(Clone, Copy)]
pub enum Done<'a> {
    /// It gives this.
    Gives(Given<'a>),
    /// It gives this buffer.
    Lends(Lent),
    /// The function of this name is to be called, with what is passed.
    Calls(&'a [u8]),
    /// The run stops.
    Halts(Trap),
}

/// Does what a function answers to a thread's call with these arguments.
#[tactic(auto, unfolding(semantics::specs::Answer::effect_of))]
pub fn carry_out<'a>(
    turn: Turn<'_>,
    shared: &mut Shared<'a>,
    pending: &mut Option<ObjectId>,
    locals: &mut Locals<'a>,
    function: JniFunction,
    actuals: &[Actual<'a>],
    answer: Answer<'a>,
) -> Result<Done<'a>, AllocError>
    requires { FitsCall shared.old.store (array_given (variables_view locals.old.variables) (map actual_view actuals.now))
        function (answer_view turn.classes.now answer) }
    ensures { IfOk result (λ did. CarriesOut turn.entry function actuals.now answer.entry shared.old locals.old pending.old did
        shared.new locals.new pending.new) }
{
    match answer {
        Answer::Copies(object) => { Ok(Done::Lends(copy_lent(&shared.store, turn.in_use, object))) }
        Answer::Views(object) => Ok(Done::Lends(view_lent(turn.in_use, object))),
        Answer::Calls(method) => Ok(Done::Calls(method.function.name.as_bytes())),
        Answer::Halts(trap) => Ok(Done::Halts(trap)),
        _ => {
            let given = give(turn, shared, pending, locals, function, actuals, answer)?;
            Ok(Done::Gives(given))
        }
    }
}

/// Whether a function that answers so gives something at once: no buffer, for which it matters what all buffers take, no call of a method, and
/// no end of the run.
#[inline(always)]
pub fn gives(answer: Answer<'_>) -> bool
    ensures { result ≡ true → GivesAtOnce answer.entry }
{
    !matches!(
        answer,
        Answer::Copies(_) | Answer::Views(_) | Answer::Calls(_) | Answer::Halts(_)
    )
}

/// Does what a function answers that gives something at once, whatever buffers are in use.
#[tactic(auto, unfolding(semantics::specs::Answer::effect_of))]
#[inline(always)]
pub fn give<'a>(
    turn: Turn<'_>,
    shared: &mut Shared<'a>,
    pending: &mut Option<ObjectId>,
    locals: &mut Locals<'a>,
    function: JniFunction,
    actuals: &[Actual<'a>],
    answer: Answer<'a>,
) -> Result<Given<'a>, AllocError>
    requires fits { FitsCall shared.old.store (array_given (variables_view locals.old.variables) (map actual_view actuals.now))
        function (answer_view turn.classes.now answer) }
    requires at_once { GivesAtOnce answer }
    ensures { IfOk result (λ given. (in_use : InUse) → CarriesOutWith in_use turn.entry function actuals.now answer.entry
        shared.old locals.old pending.old (done.Gives given) shared.new locals.new pending.new) }
{
    match answer {
        Answer::Gives(given) => Ok(given),
        Answer::Writes {
            object,
            place,
            value,
        } => {
            shared.store.set(object, place, value);
            Ok(Given::Nothing)
        }
        Answer::Makes(new) => {
            let name = make(turn.alloc, turn.classes, &mut shared.store, new)?;
            Ok(Given::Reference(Some(name)))
        }
        Answer::Raises(class) => {
            let name = make(
                turn.alloc,
                turn.classes,
                &mut shared.store,
                New::Fresh(class),
            )?;
            *pending = Some(name);
            Ok(failed(function.prototype().result))
        }
        Answer::RaisesWith { class, text } => {
            let name = make_thrown(turn.alloc, turn.classes, &mut shared.store, class, text)?;
            *pending = Some(name);
            Ok(Given::Number(0))
        }
        Answer::Pends { exception, given } => {
            *pending = exception;
            Ok(given)
        }
        Answer::Ensures(more) => {
            if !locals.frames.has_room(more) {
                return Ok(refuse_frames(turn.classes, pending));
            }
            locals.frames.reserve(more);
            Ok(Given::Number(0))
        }
        Answer::Pushes(capacity) => {
            if !locals.frames.has_room_for(capacity) {
                return Ok(refuse_frames(turn.classes, pending));
            }
            locals.frames.push(turn.alloc, capacity)?;
            Ok(Given::Number(0))
        }
        Answer::RefusesFrames => Ok(refuse_frames(turn.classes, pending)),
        Answer::Pops(reference) => {
            locals.frames.pop();
            Ok(Given::Reference(reference))
        }
        Answer::DeletesLocal(object) => {
            let level = level_of(&locals.variables, variable_given(actuals, 0));
            locals.frames.remove(level, object);
            Ok(Given::Nothing)
        }
        Answer::MakesGlobal(reference) => {
            add_global(&mut shared.globals, reference)?;
            Ok(Given::Reference(reference))
        }
        Answer::DeletesGlobal(object) => {
            let variable = variable_given(actuals, 0);
            shared.statics.set(variable, StaticReference::Deleted)?;
            shared.globals.remove(object);
            Ok(Given::Nothing)
        }
        Answer::DeletesWeak => {
            let weak = variable_given(actuals, 0);
            shared.statics.set(weak, StaticReference::Deleted)?;
            Ok(Given::Nothing)
        }
        Answer::GetsRegion(region) => {
            let array = variable_given(actuals, 3);
            get_region(&shared.store, &mut locals.variables, array, region);
            Ok(Given::Nothing)
        }
        Answer::SetsRegion(region) => {
            let array = variable_given(actuals, 3);
            set_region(&mut shared.store, &locals.variables, array, region);
            Ok(Given::Nothing)
        }
        Answer::CopiesBack { object, frees } => {
            let buffer = variable_given(actuals, 1);
            copy_back(
                &mut shared.store,
                &mut locals.variables,
                object,
                buffer,
                frees,
            )?;
            Ok(Given::Nothing)
        }
        Answer::Frees => {
            locals.variables.free(variable_given(actuals, 1));
            Ok(Given::Nothing)
        }
        Answer::Owns { object, count } => {
            shared.monitors.put(object, turn.thread, count)?;
            Ok(Given::Number(0))
        }
        Answer::Disowns(object) => {
            shared.monitors.remove(object);
            Ok(Given::Number(0))
        }
        Answer::Copies(_) | Answer::Views(_) => unreachable!(),
        Answer::Calls(_) | Answer::Halts(_) => unreachable!(),
    }
}

/// A global reference to the same object; none for NULL.
fn add_global(globals: &mut Names, reference: Option<ObjectId>) -> Result<(), AllocError>
    ensures { IfOk result (λ _. globals.new ≡ option_to_list (name_of reference) ++ globals.old) }
{
    match reference {
        Some(name) => globals.push(name),
        None => Ok(()),
    }
}

/// -4 is given, and the OutOfMemoryError object is pending: the frames can't have so large capacities.
fn refuse_frames<'a>(classes: &ClassTable, pending: &mut Option<ObjectId>) -> Given<'a>
    ensures pending { name_of pending.new ≡ Some (out_of_memory classes.now) }
    ensures given { given_view result ≡ ScalarResult (Int (negsuc 3)) }
{
    run_out(classes, pending);
    Given::Number(-4)
}

/// Puts what a call of this kind of result gave into the current frame, if it is a new local reference.
#[inline(always)]
pub fn put_local(frames: &mut Frames, kind: ResultKind, given: Given<'_>) -> Result<(), AllocError>
    ensures { IfOk result (λ _. frames.new ≡ frames_with kind (given_view given.entry) frames.old) }
{
    match (kind, given) {
        (ResultKind::NewLocal, Given::Reference(Some(name))) => frames.receive(name),
        _ => Ok(()),
    }
}

/// Whether a call makes an object, which may be refused.
#[tactic(auto, using(crate::proofs::FrameEffects::make_none), unfolding(semantics::specs::Answer::effect_of))]
pub fn makes_object(answer: Answer<'_>) -> bool
    ensures { (classes : Classes) (in_use : InUse) (k : ℕ) (s : SharedOfThreads) (t : Thread) (args : List ActualOfCall)
        → result ≡ makes_objects (effect_of classes in_use k s t args (answer_view classes answer.entry)) }
{
    match answer {
        Answer::Makes(_) | Answer::Raises(_) | Answer::RaisesWith { .. } => true,
        Answer::Gives(_) | Answer::Writes { .. } | Answer::Pends { .. } => false,
        Answer::Ensures(_) => false,
        Answer::Pushes(_) => false,
        Answer::RefusesFrames | Answer::Pops(_) | Answer::DeletesLocal(_) => false,
        Answer::MakesGlobal(_) | Answer::DeletesGlobal(_) | Answer::DeletesWeak => false,
        Answer::GetsRegion(_) | Answer::SetsRegion(_) => false,
        Answer::Copies(_) | Answer::Views(_) => false,
        Answer::CopiesBack { .. } | Answer::Frees => false,
        Answer::Owns { .. } | Answer::Disowns(_) => false,
        Answer::Calls(_) | Answer::Halts(_) => false,
    }
}

/// The object of a call is refused: the OutOfMemoryError object is pending, and the call fails.
pub fn refuse<'a>(
    classes: &ClassTable,
    pending: &mut Option<ObjectId>,
    kind: ResultKind,
) -> Given<'a>
    ensures pending { name_of pending.new ≡ Some (out_of_memory classes.now) }
    ensures given { given_view result ≡ failure kind }
{
    run_out(classes, pending);
    failed(kind)
}

/// The OutOfMemoryError object, which is made right after the class objects, is pending.
fn run_out(classes: &ClassTable, pending: &mut Option<ObjectId>)
    ensures { name_of pending.new ≡ Some (out_of_memory classes.now) }
{
    let number = classes.len() + 1;
    *pending = Some(ObjectId { number });
}

/// What a call of this kind of result gives where it fails: NULL, -1 or nothing (JNI Specification, chapter 2,
/// "Exceptions and Error Codes").
fn failed<'a>(kind: ResultKind) -> Given<'a>
    ensures { given_view result ≡ failure kind }
{
    match kind {
        ResultKind::NewLocal | ResultKind::NewGlobal | ResultKind::NewWeak => Given::Null,
        ResultKind::GivesField | ResultKind::GivesMethod => Given::Null,
        ResultKind::GivesBuffer(_) => Given::Null,
        ResultKind::GivesInt => Given::Number(-1),
        ResultKind::GivesFlag => Given::Flag(false),
        ResultKind::GivesNothing => Given::Nothing,
    }
}
