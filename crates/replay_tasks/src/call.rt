//! Calls that are begun.

ghost use Rattle.std.specs.Prelude.{◌≡◌, ◌++◌, ◌∷◌, [], IfOk, IfSome, IsTrue, None, Some, length, map, not, zip};
ghost use Rattle.jni.specs.declared.kinds.ParameterKind.TheVariants.{Passed};
ghost use Rattle.std.specs.List.{list_all};
ghost use Rattle.jni.specs.JniFunction.{parameters_for};
ghost use Rattle.syntax.specs.Views.{argument_tree, call_tree};
ghost use Rattle.syntax.specs.Limits.{numbers_in_range};
ghost use Rattle.syntax.specs.Parts.{argument_expressions};
ghost use Rattle.syntax.specs.Shapes.{ref_tree};
ghost use Rattle.syntax.specs.Tree.{Value};
ghost use Rattle.semantics.specs.Task.{Invoke, call_task, operand, passed_operand};
ghost use Rattle.replay_tasks.specs.Outcomes.{purpose_view};
ghost use Rattle.replay_terms.specs.Views.{looked_up, operand_view};
ghost use Rattle.replay_tasks.specs.Numbers.{AreNumbers, is_looked_up, operands_for};
ghost use Rattle.replay_tasks.specs.declared.call.Numbers.TheVariants as numbers;
ghost use Rattle.replay_tasks.specs.Tasks.{is_unknown_call, ArgumentsInRange, OperandInRange, ListedInRange, ExprInRange, PurposeInRange, Begins, BegunInRange};

use crate::outcome::Purpose;
use crate::task::{Invocation, Task, put_task};
use jni::JniFunction::{GetField, SetField};
use jni::{JniFunction, ParameterKind, known_function};
use replay_terms::{Operand, Operands, passed, term_of};
use std::alloc::{AllocError, Global};
use syntax::{Argument, Call, Constant, ExprRef, Shape};

/// Begins a call, of a function that is there.
pub(crate) fn call_task<'a>(
    alloc: Global,
    place: &mut Option<Task<'a>>,
    line: usize,
    purpose: Purpose<'a>,
    call: &'a Call,
) -> Result<(), AllocError>
    requires none { place.old ≡ None }
    requires numbers { ArgumentsInRange (call_tree call.now).arguments }
    requires branches { PurposeInRange purpose }
    requires known { IsTrue (not (is_unknown_call (call_tree call.now))) }
    ensures view { IfOk result (λ _. Begins (call_task line (purpose_view line purpose.entry) (call_tree call.entry.now)) place.new) }
    ensures range { IfOk result (λ _. BegunInRange place.new) }
{
    let function = known_function(call.function.as_bytes());
    begin_call(alloc, place, line, purpose, function, &call.arguments)
}

/// Begins a call of a function.
#[inline(always)]
fn begin_call<'a>(
    alloc: Global,
    place: &mut Option<Task<'a>>,
    line: usize,
    purpose: Purpose<'a>,
    function: JniFunction,
    arguments: &'a [Argument],
) -> Result<(), AllocError>
    requires none { place.old ≡ None }
    requires numbers { ArgumentsInRange (map argument_tree arguments.now) }
    requires branches { PurposeInRange purpose }
    ensures view { IfOk result (λ _. Begins (Invoke line (purpose_view line purpose.entry) function
        (operands_for function (map argument_tree arguments.entry.now))) place.new) }
    ensures range { IfOk result (λ _. BegunInRange place.new) }
{
    match numbers_of(function, arguments.len()) {
        Numbers::Nowhere => {
            given_task(place, line, purpose, function, arguments);
            Ok(())
        }
        Numbers::Last => last_task(alloc, place, line, purpose, function, arguments),
        Numbers::Anywhere => listed_task(alloc, place, line, purpose, function, arguments),
    }
}

/// Begins a call whose arguments are all looked up in its own step.
#[inline(always)]
fn given_task<'a>(
    place: &mut Option<Task<'a>>,
    line: usize,
    purpose: Purpose<'a>,
    function: JniFunction,
    arguments: &'a [Argument],
)
    requires none { place.old ≡ None }
    requires branches { PurposeInRange purpose }
    ensures view { Begins (Invoke line (purpose_view line purpose.entry) function (map looked_up arguments.entry.now)) place.new }
    ensures range { BegunInRange place.new }
{
    let operands = Operands::Given(arguments);
    put_task(
        place,
        Task::Invoke(Invocation {
            line,
            purpose,
            function,
            operands,
        }),
    );
}

/// Begins a call whose arguments are all looked up in its own step but the last, which is a number.
#[inline(always)]
fn last_task<'a>(
    alloc: Global,
    place: &mut Option<Task<'a>>,
    line: usize,
    purpose: Purpose<'a>,
    function: JniFunction,
    arguments: &'a [Argument],
) -> Result<(), AllocError>
    requires none { place.old ≡ None }
    requires numbers { ArgumentsInRange (map argument_tree arguments.now) }
    requires branches { PurposeInRange purpose }
    requires last { AreNumbers (length arguments.now) (parameters_for function (length arguments.now)) numbers.Last }
    ensures view { IfOk result (λ _. Begins (Invoke line (purpose_view line purpose.entry) function
        (operands_for function (map argument_tree arguments.entry.now))) place.new) }
    ensures range { IfOk result (λ _. BegunInRange place.new) }
{
    let Some((before, number)) = last_number(arguments) else {
        return listed_task(alloc, place, line, purpose, function, arguments);
    };
    let number = term_of(alloc, number)?;
    let operands = Operands::Last(before, number);
    put_task(
        place,
        Task::Invoke(Invocation {
            line,
            purpose,
            function,
            operands,
        }),
    );
    Ok(())
}

/// Begins a call with a list of its arguments.
#[inline(never)]
fn listed_task<'a>(
    alloc: Global,
    place: &mut Option<Task<'a>>,
    line: usize,
    purpose: Purpose<'a>,
    function: JniFunction,
    arguments: &'a [Argument],
) -> Result<(), AllocError>
    requires none { place.old ≡ None }
    requires numbers { ArgumentsInRange (map argument_tree arguments.now) }
    requires branches { PurposeInRange purpose }
    ensures view { IfOk result (λ _. Begins (Invoke line (purpose_view line purpose.entry) function
        (operands_for function (map argument_tree arguments.entry.now))) place.new) }
    ensures range { IfOk result (λ _. BegunInRange place.new) }
{
    let mut operands = Vec::new(alloc);
    push_arguments(alloc, &mut operands, function, arguments)?;
    let operands = Operands::Listed(operands);
    put_task(
        place,
        Task::Invoke(Invocation {
            line,
            purpose,
            function,
            operands,
        }),
    );
    Ok(())
}

/// Where the arguments of a call are that aren't looked up in the call's own step.
#[derive(Clone, Copy)]
pub enum Numbers {
    Nowhere,
    Last,
    Anywhere,
}

/// Whether an argument for this parameter is looked up in the call's own step.
#[inline(always)]
fn is_looked_up(parameter: ParameterKind) -> bool
    ensures { result ≡ is_looked_up parameter }
{
    !matches!(parameter, ParameterKind::IntNumber | ParameterKind::Passed)
}

/// Whether each argument for these parameters is.
#[inline]
fn are_looked_up(parameters: &[ParameterKind]) -> bool
    ensures { result ≡ list_all is_looked_up parameters.now }
{
    match parameters {
        [] => true,
        [parameter, parameters @ ..] => is_looked_up(*parameter) && are_looked_up(parameters),
    }
}

/// Where they are among so many arguments for these parameters.
#[inline(always)]
fn numbers_among(parameters: &[ParameterKind], count: usize) -> Numbers
    ensures { AreNumbers count parameters.now result }
{
    if parameters.len() != count {
        return Numbers::Anywhere;
    }
    let Some((last, before)) = parameters.split_last() else {
        return Numbers::Nowhere;
    };
    if !are_looked_up(before) {
        return Numbers::Anywhere;
    }
    match last {
        ParameterKind::IntNumber => Numbers::Last,
        ParameterKind::Passed => Numbers::Anywhere,
        _ => Numbers::Nowhere,
    }
}

/// Where they are in a call of this function with so many arguments, by the kinds of its parameters.
#[inline(never)]
fn numbers_by_kinds(function: JniFunction, count: usize) -> Numbers
    ensures { AreNumbers count (parameters_for function count) result }
{
    if function.calls_method() {
        return Numbers::Anywhere;
    }
    numbers_among(function.prototype().parameters, count)
}

/// The same. Those that most calls are of are known.
#[inline(always)]
fn numbers_of(function: JniFunction, count: usize) -> Numbers
    ensures { AreNumbers count (parameters_for function count) result }
{
    match function {
        GetField(_) => {
            if count == 2 {
                Numbers::Nowhere
            } else {
                Numbers::Anywhere
            }
        }
        SetField(_) => {
            if count == 3 {
                Numbers::Last
            } else {
                Numbers::Anywhere
            }
        }
        JniFunction::NewLocalRef
        | JniFunction::DeleteLocalRef
        | JniFunction::MonitorEnter
        | JniFunction::MonitorExit => {
            if count == 1 {
                Numbers::Nowhere
            } else {
                Numbers::Anywhere
            }
        }
        _ => numbers_by_kinds(function, count),
    }
}

/// The last argument, if it is an expression, and those before it.
#[inline]
fn last_number(arguments: &[Argument]) -> Option<(&[Argument], ExprRef<'_>)>
    ensures { IfSome result (λ r. map argument_tree arguments.entry.now ≡ map argument_tree r.0.now ++ Value (ref_tree r.1) ∷ []) }
{
    match arguments.split_last() {
        Some((last, before)) => match last {
            Argument::Value(e) => Some((before, e.whole())),
            Argument::Text(_) | Argument::AddressOf(_) => None,
        },
        None => None,
    }
}

/// Adds the operands of a function's arguments.
fn push_arguments<'a>(
    alloc: Global,
    operands: &mut Vec<Operand<'a>>,
    function: JniFunction,
    arguments: &'a [Argument],
) -> Result<(), AllocError>
    requires numbers { ArgumentsInRange (map argument_tree arguments.now) }
    requires range { ListedInRange operands.old.items }
    ensures view { IfOk result (λ _. map operand_view operands.new.items ≡ map operand_view operands.old.items
        ++ map operand (zip (parameters_for function (length (map argument_tree arguments.entry.now)))
        (map argument_tree arguments.entry.now))) }
    ensures range { IfOk result (λ _. ListedInRange operands.new.items) }
{
    push_operands(alloc, operands, function.prototype().parameters, arguments)?;
    if !function.calls_method() {
        return Ok(());
    }
    push_passed(alloc, operands, passed(arguments))
}

/// Adds the operands of these arguments, each for its parameter.
fn push_operands<'a>(
    alloc: Global,
    operands: &mut Vec<Operand<'a>>,
    parameters: &[ParameterKind],
    arguments: &'a [Argument],
) -> Result<(), AllocError>
    requires numbers { ArgumentsInRange (map argument_tree arguments.now) }
    requires range { ListedInRange operands.old.items }
    ensures view { IfOk result (λ _. map operand_view operands.new.items ≡ map operand_view operands.old.items
        ++ map operand (zip parameters.entry.now (map argument_tree arguments.entry.now))) }
    ensures range { IfOk result (λ _. ListedInRange operands.new.items) }
{
    match parameters {
        [] => Ok(()),
        [parameter, parameters @ ..] => match arguments {
            [] => Ok(()),
            [argument, arguments @ ..] => {
                operands.push(operand_of(alloc, *parameter, argument)?)?;
                push_operands(alloc, operands, parameters, arguments)
            }
        },
    }
}

/// Adds the operands of what a method is given.
fn push_passed<'a>(
    alloc: Global,
    operands: &mut Vec<Operand<'a>>,
    arguments: &'a [Argument],
) -> Result<(), AllocError>
    requires numbers { ArgumentsInRange (map argument_tree arguments.now) }
    requires range { ListedInRange operands.old.items }
    ensures view { IfOk result (λ _. map operand_view operands.new.items ≡ map operand_view operands.old.items
        ++ map (λ a. operand (Passed, a)) (map argument_tree arguments.entry.now)) }
    ensures range { IfOk result (λ _. ListedInRange operands.new.items) }
{
    match arguments {
        [] => Ok(()),
        [argument, arguments @ ..] => {
            operands.push(operand_of(alloc, ParameterKind::Passed, argument)?)?;
            push_passed(alloc, operands, arguments)
        }
    }
}

/// What a method is given, before the call's first step.
fn passed_operand<'a>(
    alloc: Global,
    argument: &'a Argument,
    e: ExprRef<'a>,
) -> Result<Operand<'a>, AllocError>
    requires numbers { ExprInRange (ref_tree e) }
    requires value { argument_tree argument.now ≡ Value (ref_tree e) }
    ensures view { IfOk result (λ o. operand_view o ≡ passed_operand (ref_tree e.entry)) }
    ensures range { IfOk result OperandInRange }
{
    match e.shape() {
        Shape::Named(Constant::Null) => Ok(Operand::Given(argument)),
        Shape::Variable(name) => Ok(Operand::Passed(name)),
        _ => Ok(Operand::Number(term_of(alloc, e)?)),
    }
}

/// An argument before the call's first step.
fn operand_of<'a>(
    alloc: Global,
    parameter: ParameterKind,
    argument: &'a Argument,
) -> Result<Operand<'a>, AllocError>
    requires { IsTrue (list_all numbers_in_range (argument_expressions (argument_tree argument.now))) }
    ensures view { IfOk result (λ o. operand_view o ≡ operand (parameter, argument_tree argument.entry.now)) }
    ensures range { IfOk result OperandInRange }
{
    match parameter {
        ParameterKind::IntNumber => match argument {
            Argument::Value(e) => Ok(Operand::Number(term_of(alloc, e.whole())?)),
            Argument::Text(_) | Argument::AddressOf(_) => Ok(Operand::Given(argument)),
        },
        ParameterKind::Passed => match argument {
            Argument::Value(e) => passed_operand(alloc, argument, e.whole()),
            Argument::Text(_) | Argument::AddressOf(_) => Ok(Operand::Given(argument)),
        },
        _ => Ok(Operand::Given(argument)),
    }
}
