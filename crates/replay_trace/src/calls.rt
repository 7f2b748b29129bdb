//! Calls with their arguments, their entries, and what they give.

use crate::held::{Scope, put_named};
use crate::line::Line;
use crate::terms::{constant_of, put_part};
use replay_tasks::{Invocation, Purpose, Target, Task};
use replay_terms::{Content, OperandRef, Operands, Term, Variables};
use semantics::Value;
use std::alloc::AllocError;
use syntax::{Argument, ExprRef, Function, Name, Parameter, Shape};

/// Whether a number of a call is to be worked out before it is made.
fn is_unready(variables: &Variables<'_>, operand: OperandRef<'_, '_>) -> bool {
    match operand {
        OperandRef::Number(term) => !matches!(term, Term::Done(_)),
        OperandRef::Passed(name) => matches!(variables.content_of(name), Some(Content::Number(_))),
        OperandRef::Given(_) => false,
    }
}

/// The place of the first number of a call that is to be worked out.
pub(crate) fn first_unready(variables: &Variables<'_>, operands: &Operands<'_>) -> Option<usize> {
    for place in 0..operands.count() {
        if let Some(operand) = operands.get(place) {
            if is_unready(variables, operand) {
                return Some(place);
            }
        }
    }
    None
}

/// Adds the part of an operand that is worked out next. Whether its value is still to be told.
pub(crate) fn put_operand_part(
    line: &mut Line,
    operand: OperandRef<'_, '_>,
) -> Result<bool, AllocError> {
    match operand {
        OperandRef::Number(term) => put_part(line, term),
        OperandRef::Passed(name) => {
            line.text(name.as_bytes())?;
            Ok(true)
        }
        OperandRef::Given(_) => Ok(false),
    }
}

/// Adds a variable that is given: its name, and what it holds, unless it is a local array.
fn put_variable(line: &mut Line, scope: Scope<'_, '_>, name: &Name) -> Result<(), AllocError> {
    match scope.variables.content_of(name) {
        Some(Content::Array(_, _)) => line.text(name.as_bytes()),
        _ => put_named(line, scope, name),
    }
}

/// Adds an expression that is given as it is written.
fn put_expression(line: &mut Line, scope: Scope<'_, '_>, e: ExprRef<'_>) -> Result<(), AllocError> {
    match e.shape() {
        Shape::Variable(name) => put_variable(line, scope, name),
        Shape::Named(constant) => line.text(constant_of(constant)),
        Shape::Number { value, .. } => line.number(value),
        Shape::Paren(inner) => put_expression(line, scope, inner),
        Shape::Element(..) | Shape::Prefix(..) | Shape::Binary(..) => line.text(b".."),
    }
}

/// Adds an argument that is given as it is written.
fn put_given(line: &mut Line, scope: Scope<'_, '_>, argument: &Argument) -> Result<(), AllocError> {
    match argument {
        Argument::Value(e) => put_expression(line, scope, e.whole()),
        Argument::Text(bytes) => {
            line.text(b"\"")?;
            line.text(bytes)?;
            line.text(b"\"")
        }
        Argument::AddressOf(name) => {
            line.text(b"&")?;
            line.text(name.as_bytes())
        }
    }
}

/// Adds an argument of a call whose numbers are worked out.
fn put_operand(
    line: &mut Line,
    scope: Scope<'_, '_>,
    operand: OperandRef<'_, '_>,
) -> Result<(), AllocError> {
    match operand {
        OperandRef::Number(term) => {
            put_part(line, term)?;
            Ok(())
        }
        OperandRef::Passed(name) => put_named(line, scope, name),
        OperandRef::Given(argument) => put_given(line, scope, argument),
    }
}

/// Adds a call of a function of the JNI, with its arguments.
pub(crate) fn put_call(
    line: &mut Line,
    scope: Scope<'_, '_>,
    call: &Invocation<'_>,
) -> Result<(), AllocError> {
    line.text(call.function.prototype().name)?;
    line.text(b"(env")?;
    for place in 0..call.operands.count() {
        if let Some(operand) = call.operands.get(place) {
            line.text(b", ")?;
            put_operand(line, scope, operand)?;
        }
    }
    line.text(b")")
}

/// Adds the parameters of a function with what they hold.
fn put_parameters(
    line: &mut Line,
    scope: Scope<'_, '_>,
    parameters: &[Parameter],
) -> Result<(), AllocError> {
    for parameter in parameters {
        line.text(b", ")?;
        put_named(line, scope, &parameter.name)?;
    }
    Ok(())
}

/// Adds the entry into a call of a function.
pub(crate) fn put_entry(
    line: &mut Line,
    scope: Scope<'_, '_>,
    function: &Function,
) -> Result<(), AllocError> {
    line.text(b"enters ")?;
    line.text(function.name.as_bytes())?;
    line.text(b"(")?;
    put_named(line, scope, &function.class_name)?;
    put_parameters(line, scope, &function.parameters)?;
    line.text(b")")
}

/// Adds where the result of a call went, and what is there now.
pub(crate) fn put_target(
    line: &mut Line,
    scope: Scope<'_, '_>,
    target: Target<'_>,
) -> Result<(), AllocError> {
    match target {
        Target::Declared(_, name) | Target::Assigned(name) => { put_named(line, scope, name) }
        Target::Dropped => Ok(()),
    }
}

/// Adds what the test of an `if` came to, where a call was its test.
fn put_test(line: &mut Line, task: &Option<Task<'_>>) -> Result<(), AllocError> {
    let Some(Task::Branch(choice)) = task else {
        return Ok(());
    };
    match &choice.test {
        Term::Done(Value::Truth(true)) => line.text(b" is 0"),
        Term::Done(Value::Truth(false)) => line.text(b" isn't 0"),
        _ => Ok(()),
    }
}

/// Adds what a call gave, once it is where it belongs.
pub(crate) fn put_result(
    line: &mut Line,
    scope: Scope<'_, '_>,
    task: &Option<Task<'_>>,
    purpose: Purpose<'_>,
) -> Result<(), AllocError> {
    match purpose {
        Purpose::Put(Target::Dropped) => Ok(()),
        Purpose::Put(target) => {
            line.text(b" gives ")?;
            put_target(line, scope, target)
        }
        Purpose::Test(_, _) => put_test(line, task),
    }
}
