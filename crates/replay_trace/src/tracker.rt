//! The lines of the steps that threads take next.

use functions::Functions;
use replay_steps::Activation;
use replay_tasks::Task;
use replay_terms::Term;
use replay_threads::Thread;
use semantics::Value;
use syntax::{Block, Function};

/// The line of each thread's next step. A task of some statements has no line: that is the line of the statement which the step
/// before began.
#[derive(Clone, Copy)]
pub(crate) struct Lines {
    lines: [usize; 8],
}

impl Lines {
    pub(crate) fn new() -> Lines {
        Lines { lines: [0; 8] }
    }

    /// The line of the next step of the thread at this place.
    pub(crate) fn at(&self, place: usize) -> usize {
        match self.lines.get(place) {
            Some(line) => *line,
            None => 0,
        }
    }

    /// Sets it.
    pub(crate) fn set(&mut self, place: usize, line: usize) {
        if let Some(at) = self.lines.get_mut(place) {
            *at = line;
        }
    }
}

/// The line of a task, where it has one.
fn line_of(task: &Task<'_>) -> Option<usize> {
    match task {
        Task::Print(e) | Task::ReturnValue(e) => Some(e.line),
        Task::Set(a) => Some(a.line),
        Task::SetElement(a) => Some(a.line),
        Task::Invoke(i) => Some(i.line),
        Task::Branch(c) => Some(c.line),
        Task::Loop(i) => Some(i.line),
        Task::SetNull(_) | Task::MakeArray(_, _, _) | Task::Return => None,
    }
}

/// The line of the first statement of a block; 0 where there is none.
fn first_line(block: Option<&Block>) -> usize {
    match block {
        Some(block) => match block.statements.first() {
            Some(statement) => statement.line,
            None => 0,
        },
        None => 0,
    }
}

/// The line of the first statement that is left of a block; 0 where there is none.
fn line_after(activation: &Activation<'_>) -> usize {
    match activation.work.rest.first() {
        Some(statement) => statement.line,
        None => 0,
    }
}

/// The function of the call that a thread enters next.
pub(crate) fn entered<'a>(functions: &Functions<'a>, thread: &Thread<'a>) -> Option<&'a Function> {
    let name = match &thread.entering {
        Some(entering) => entering.function,
        None => thread.calls.first()?.function(),
    };
    Some(functions.find(name)?.function)
}

/// The line of the statement that the next step of a call begins, if it begins one.
fn begun_in(activation: &Activation<'_>, callers: &[Activation<'_>]) -> usize {
    match &activation.work.task {
        None => match activation.work.outer.last() {
            Some(outer) => match outer.rest.first() {
                Some(statement) => statement.line,
                None => 0,
            },
            None => 0,
        },
        Some(Task::Branch(choice)) => match &choice.test {
            Term::Done(Value::Truth(true)) => first_line(Some(choice.block)),
            _ => first_line(choice.otherwise),
        },
        Some(Task::Loop(iteration)) => match &iteration.term {
            Term::Done(Value::Truth(true)) => first_line(Some(iteration.body)),
            _ => line_after(activation),
        },
        Some(Task::Return | Task::ReturnValue(_)) => match callers.last() {
            Some(caller) => line_after(caller),
            None => 0,
        },
        Some(_) => line_after(activation),
    }
}

/// The line of the statement that a thread's next step begins, if it begins one.
pub(crate) fn begun_by<'a>(functions: &Functions<'a>, thread: &Thread<'a>) -> usize {
    match &thread.activation {
        Some(activation) => begun_in(activation, &thread.callers),
        None => match entered(functions, thread) {
            Some(function) => first_line(Some(&function.body)),
            None => 0,
        },
    }
}

/// The line of the call of the last of these that wait; 0 where there is none.
pub(crate) fn calling_line(callers: &[Activation<'_>]) -> usize {
    let Some(caller) = callers.last() else {
        return 0;
    };
    match &caller.work.task {
        Some(task) => match line_of(task) {
            Some(line) => line,
            None => 0,
        },
        None => 0,
    }
}

/// The line of a thread's next step, after one that began a statement of the one line, or ended in the other.
pub(crate) fn next_line(thread: &Thread<'_>, begun: usize, ended: usize) -> usize {
    match &thread.activation {
        Some(activation) => match &activation.work.task {
            Some(task) => match line_of(task) {
                Some(line) => line,
                None => begun,
            },
            None => ended,
        },
        None => ended,
    }
}
