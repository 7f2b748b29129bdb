//! What a step is about to do, and what it did.

use crate::calls::{first_unready, put_call, put_entry, put_operand_part, put_result, put_target};
use crate::held::{Objects, Scope, element_of, put_held, put_reference, put_value};
use crate::line::Line;
use crate::terms::{latest_value, put_part, value_of};
use crate::tracker::{calling_line, entered};
use functions::Functions;
use replay_steps::{Activation, Work};
use replay_tasks::{ElementAssignment, End, Evaluation, Invocation, Purpose, Target, Task};
use replay_terms::{Content, OperandRef, Term, Variables};
use replay_threads::{State, Thread};
use semantics::{Ending, ObjectId, Value};
use std::alloc::AllocError;
use syntax::{Constant, Function, Name};

/// What is still to be told of a step once it is taken.
#[derive(Clone, Copy)]
pub(crate) enum Doing<'a> {
    /// Nothing.
    Told,
    /// The value of the part that was worked out.
    Reduces,
    /// The same of the number at this place of a call.
    ReducesNumber(usize),
    /// The number of the element at this place.
    SetsElement(&'a Name, usize),
    /// What the call gave.
    Calls(Purpose<'a>),
    /// Where the return went: the line of the call that waited, and what its result is for.
    Returns(Option<(usize, Purpose<'a>)>),
    /// What the call that is entered is given.
    Enters(Option<&'a Function>),
}

impl Doing<'_> {
    /// Whether it is a call, an entry into one, or the return from one.
    pub(crate) fn is_call(self) -> bool {
        matches!(self, Doing::Calls(_) | Doing::Returns(_) | Doing::Enters(_))
    }
}

/// What is known of a step before it is taken.
#[derive(Clone, Copy)]
pub(crate) struct Before<'a> {
    pub doing: Doing<'a>,
    /// The exception that is pending.
    pub pending: Option<ObjectId>,
    /// The line of the statement that it begins, if it begins one.
    pub begun: usize,
    /// The line of what is told next where none is begun.
    pub ended: usize,
}

/// Adds the part of a term that is worked out.
fn put_reduction<'a>(line: &mut Line, term: &Term<'_>) -> Result<Doing<'a>, AllocError> {
    if put_part(line, term)? {
        Ok(Doing::Reduces)
    } else {
        Ok(Doing::Told)
    }
}

/// Adds a word and a value; or the part that is worked out first.
fn put_evaluation<'a>(
    line: &mut Line,
    words: &[u8],
    term: &Term<'_>,
) -> Result<Doing<'a>, AllocError> {
    match value_of(term) {
        Some(value) => {
            line.text(words)?;
            put_value(line, value)?;
            Ok(Doing::Told)
        }
        None => put_reduction(line, term),
    }
}

/// The place of an element.
fn place_of(value: Value) -> Option<usize> {
    match value {
        Value::Word(word) => Some(word as usize),
        Value::Int(number) => {
            if number < 0 {
                None
            } else {
                Some(number as usize)
            }
        }
        Value::Flag(_) | Value::Truth(_) => None,
    }
}

/// Adds an element that is set; or the part of its place or of its number that is worked out first.
fn put_element<'a>(line: &mut Line, set: &ElementAssignment<'a>) -> Result<Doing<'a>, AllocError> {
    let Some(index) = value_of(&set.index) else {
        return put_reduction(line, &set.index);
    };
    if value_of(&set.number).is_none() {
        return put_reduction(line, &set.number);
    }
    line.text(set.name.as_bytes())?;
    line.text(b"[")?;
    put_value(line, index)?;
    line.text(b"]")?;
    match place_of(index) {
        Some(place) => Ok(Doing::SetsElement(set.name, place)),
        None => Ok(Doing::Told),
    }
}

/// The call that waits for the one in progress: its line, and what its result is for.
fn waiting_call<'a>(callers: &[Activation<'a>]) -> Option<(usize, Purpose<'a>)> {
    match &callers.last()?.work.task {
        Some(Task::Invoke(call)) => Some((calling_line(callers), call.purpose)),
        _ => None,
    }
}

/// Whether a variable of this name is returned as a reference.
fn is_reference(variables: &Variables<'_>, name: &Name) -> bool {
    !matches!(variables.content_of(name), Some(Content::Number(_)))
}

/// Adds a result that is returned to the last of these calls; or the part of it that is worked out first.
fn put_return<'a>(
    line: &mut Line,
    scope: Scope<'_, 'a>,
    callers: &[Activation<'a>],
    e: &Evaluation<'a>,
) -> Result<Doing<'a>, AllocError> {
    match &e.term {
        Term::Done(value) => {
            line.text(b"return ")?;
            put_value(line, *value)?;
        }
        Term::Named(Constant::Null) => line.text(b"return null")?,
        Term::Read(name) if is_reference(scope.variables, name) => {
            line.text(b"return ")?;
            put_held(line, scope, name)?;
        }
        term => return put_reduction(line, term),
    }
    Ok(Doing::Returns(waiting_call(callers)))
}

/// Adds a call; or the part of its numbers that is worked out first.
fn put_invocation<'a>(
    line: &mut Line,
    scope: Scope<'_, 'a>,
    call: &Invocation<'a>,
) -> Result<Doing<'a>, AllocError> {
    if let Some(place) = first_unready(scope.variables, &call.operands) {
        let Some(operand) = call.operands.get(place) else {
            return Ok(Doing::Told);
        };
        return if put_operand_part(line, operand)? {
            Ok(Doing::ReducesNumber(place))
        } else {
            Ok(Doing::Told)
        };
    }
    put_call(line, scope, call)?;
    Ok(Doing::Calls(call.purpose))
}

/// Adds that NULL is put there.
fn put_null<'a>(line: &mut Line, target: Target<'_>) -> Result<Doing<'a>, AllocError> {
    match target {
        Target::Declared(_, name) | Target::Assigned(name) => line.text(name.as_bytes())?,
        Target::Dropped => {}
    }
    line.text(b" = null")?;
    Ok(Doing::Told)
}

/// Adds a variable that is set; or the part of its value that is worked out first.
fn put_assignment<'a>(
    line: &mut Line,
    name: &Name,
    term: &Term<'_>,
) -> Result<Doing<'a>, AllocError> {
    match value_of(term) {
        Some(value) => {
            line.text(name.as_bytes())?;
            line.text(b" = ")?;
            put_value(line, value)?;
            Ok(Doing::Told)
        }
        None => put_reduction(line, term),
    }
}

/// Adds an array of zeros.
fn put_array<'a>(line: &mut Line, name: &Name, size: u32) -> Result<Doing<'a>, AllocError> {
    line.text(name.as_bytes())?;
    line.text(b" has ")?;
    line.number(size)?;
    line.text(b" zeros")?;
    Ok(Doing::Told)
}

/// Adds what a task is about to do, in a call that the last of these calls made.
fn put_task<'a>(
    line: &mut Line,
    scope: Scope<'_, 'a>,
    callers: &[Activation<'a>],
    task: &Task<'a>,
) -> Result<Doing<'a>, AllocError> {
    match task {
        Task::Print(e) => put_evaluation(line, b"put_jint prints ", &e.term),
        Task::Set(a) => put_assignment(line, a.name, &a.term),
        Task::SetElement(a) => put_element(line, a),
        Task::SetNull(target) => put_null(line, *target),
        Task::MakeArray(_, name, size) => put_array(line, name, *size),
        Task::Invoke(call) => put_invocation(line, scope, call),
        Task::Branch(choice) => put_evaluation(line, b"if is ", &choice.test),
        Task::Loop(iteration) => put_evaluation(line, b"while is ", &iteration.term),
        Task::Return => {
            line.text(b"return")?;
            Ok(Doing::Returns(waiting_call(callers)))
        }
        Task::ReturnValue(e) => put_return(line, scope, callers, e),
    }
}

/// Adds the end of a block.
fn put_end<'a>(line: &mut Line, work: &Work<'_>) -> Result<Doing<'a>, AllocError> {
    match work.outer.last() {
        Some(outer) => match outer.end {
            End::If => line.text(b"end of the block")?,
            End::Turn { .. } => line.text(b"end of the turn")?,
        },
        None => line.text(b"end")?,
    }
    Ok(Doing::Told)
}

/// Adds what a thread is about to do.
pub(crate) fn put_before<'a>(
    line: &mut Line,
    functions: &Functions<'a>,
    state: &State<'a>,
    thread: &Thread<'a>,
) -> Result<Doing<'a>, AllocError> {
    let Some(activation) = &thread.activation else {
        return Ok(Doing::Enters(entered(functions, thread)));
    };
    match &activation.work.task {
        Some(task) => put_task(line, Scope::of(state, activation), &thread.callers, task),
        None => put_end(line, &activation.work),
    }
}

// ---- after the step

/// The value of the part of a task that was worked out last.
fn latest_in(task: &Task<'_>) -> Option<Value> {
    match task {
        Task::Print(e) | Task::ReturnValue(e) => latest_value(&e.term),
        Task::Set(a) => latest_value(&a.term),
        Task::SetElement(a) => match latest_value(&a.number) {
            Some(value) => Some(value),
            None => latest_value(&a.index),
        },
        Task::Branch(choice) => latest_value(&choice.test),
        Task::Loop(iteration) => latest_value(&iteration.term),
        Task::SetNull(_) | Task::MakeArray(_, _, _) | Task::Invoke(_) | Task::Return => None,
    }
}

/// The value of the part of the number at a place of a call that was worked out last.
fn latest_number(task: &Task<'_>, place: usize) -> Option<Value> {
    let Task::Invoke(call) = task else {
        return None;
    };
    match call.operands.get(place)? {
        OperandRef::Number(term) => latest_value(term),
        OperandRef::Passed(_) | OperandRef::Given(_) => None,
    }
}

/// Adds the value of a part that was worked out.
fn put_latest(line: &mut Line, value: Option<Value>) -> Result<(), AllocError> {
    match value {
        Some(value) => {
            line.text(b" is ")?;
            put_value(line, value)
        }
        None => Ok(()),
    }
}

/// Adds what is now in an element.
fn put_element_after(
    line: &mut Line,
    scope: Scope<'_, '_>,
    name: &Name,
    place: usize,
) -> Result<(), AllocError> {
    match element_of(scope, name, place) {
        Some(number) => {
            line.text(b" = ")?;
            line.number(number)
        }
        None => Ok(()),
    }
}

/// Adds where a call went on that waited for the one that returned.
fn put_returned(
    line: &mut Line,
    scope: Scope<'_, '_>,
    waited: Option<(usize, Purpose<'_>)>,
) -> Result<(), AllocError> {
    let Some((number, purpose)) = waited else {
        return Ok(());
    };
    line.text(b" to line ")?;
    line.number(number)?;
    match purpose {
        Purpose::Put(Target::Dropped) | Purpose::Test(_, _) => Ok(()),
        Purpose::Put(target) => {
            line.text(b": ")?;
            put_target(line, scope, target)
        }
    }
}

/// Adds what a call in progress has after a step that left it with this task.
fn put_in_progress(
    line: &mut Line,
    scope: Scope<'_, '_>,
    task: &Option<Task<'_>>,
    doing: Doing<'_>,
) -> Result<(), AllocError> {
    match doing {
        Doing::Told => Ok(()),
        Doing::Reduces => match task {
            Some(task) => put_latest(line, latest_in(task)),
            None => Ok(()),
        },
        Doing::ReducesNumber(place) => match task {
            Some(task) => put_latest(line, latest_number(task, place)),
            None => Ok(()),
        },
        Doing::SetsElement(name, place) => put_element_after(line, scope, name, place),
        Doing::Calls(purpose) => put_result(line, scope, task, purpose),
        Doing::Returns(waited) => put_returned(line, scope, waited),
        Doing::Enters(Some(function)) => put_entry(line, scope, function),
        Doing::Enters(None) => Ok(()),
    }
}

/// Adds how a thread has ended, if it has.
fn put_ending(line: &mut Line, objects: Objects<'_>, ending: Ending) -> Result<(), AllocError> {
    match ending {
        Ending::Unfinished => Ok(()),
        Ending::Ended => line.text(b"; ended"),
        Ending::Uncaught(class) => {
            line.text(b"; uncaught ")?;
            line.text(objects.classes.name(class))
        }
    }
}

/// Adds the exception that is pending now, if that is another than before.
fn put_pending(
    line: &mut Line,
    objects: Objects<'_>,
    before: Option<ObjectId>,
    after: Option<ObjectId>,
) -> Result<(), AllocError> {
    if before == after {
        return Ok(());
    }
    line.text(b"; pending ")?;
    put_reference(line, objects, after)
}

/// Adds the call that a call in progress waits for now.
fn put_waiting(line: &mut Line, thread: &Thread<'_>) -> Result<(), AllocError> {
    match &thread.entering {
        Some(entering) => {
            line.text(b" calls ")?;
            line.text(entering.function)
        }
        None => Ok(()),
    }
}

/// Adds what a step did, of which this was known before, and whether its object was refused.
pub(crate) fn put_after<'a>(
    line: &mut Line,
    state: &State<'a>,
    thread: &Thread<'a>,
    before: Before<'a>,
    refused: bool,
) -> Result<(), AllocError> {
    if let Some(stop) = state.stop {
        line.text(b": trap ")?;
        return line.number(stop.trap.number());
    }
    match &thread.activation {
        Some(activation) => {
            let scope = Scope::of(state, activation);
            put_in_progress(line, scope, &activation.work.task, before.doing)?;
            line.text(if refused { b", refused" } else { b"" })?;
            put_pending(line, scope.objects, before.pending, thread.pending)
        }
        None => {
            put_waiting(line, thread)?;
            put_ending(line, Objects::of(state), thread.ending)
        }
    }
}

/// Adds the objects whose weak references are cleared.
pub(crate) fn put_clearing(line: &mut Line, names: &[ObjectId]) -> Result<(), AllocError> {
    let mut mark: &[u8] = b" clears #";
    for name in names {
        line.text(mark)?;
        line.number(name.number)?;
        mark = b", #";
    }
    Ok(())
}
