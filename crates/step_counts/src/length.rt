//! Which functions are too long, told from the tree alone. A walk counts down from the limit, and stops where nothing is left.

ghost use Rattle.std.specs.Prelude.{◌≡◌, ℕ, ◌+◌, ◌<◌, nat_lt, if◌then◌else◌, IfSome, IfNone, IsTrue, map};
ghost use Rattle.std.specs.List.{list_any, sum_by};
ghost use Rattle.base.specs.Limits.{most_steps};
ghost use Rattle.syntax.specs.Shapes.{ref_tree};
ghost use Rattle.syntax.specs.Views.{argument_tree, call_tree, right_side_tree, test_tree, plain_tree, form_tree, else_tree, block_tree, function_tree, item_tree, unit_tree};
ghost use Rattle.jni.specs.JniFunction.{function_named};
ghost use Rattle.code_meaning.specs.Arguments.{paired};
ghost use Rattle.code_meaning.specs.Length.{expr_steps, passed_steps, argument_steps, call_steps, value_steps, right_steps, test_steps, return_steps, plain_steps, stmt_steps, else_steps, block_steps, function_steps, is_long};
ghost use Rattle.step_counts.specs.Names.{HasFewNames, has_few_names};

use crate::int_names::IntNames;
use base::limits::MOST_STEPS;
use code_meaning::Parameters;
use jni::{ParameterKind, function_named};
use region_rules::Checked;
use syntax::{
    Argument, Block, Call, Constant, Else, ExprRef, Form, Function, Item, PlainStmt, ResultType,
    RightSide, Shape, Test,
};

/// What is left of `left` after one step, where there is one.
fn after_one(left: usize) -> Option<usize>
    ensures some { IfSome result (λ rest. rest + 1 ≡ left) }
    ensures none { IfNone result (left ≡ 0) }
{
    left.checked_sub(1)
}

/// What is left of `left` after the steps of an expression, where there are as many.
fn after_expr(left: usize, e: ExprRef<'_>) -> Option<usize>
    ensures some { IfSome result (λ rest. rest + expr_steps (ref_tree e.entry) ≡ left) }
    ensures none { IfNone result (left < expr_steps (ref_tree e.entry)) }
{
    match e.shape() {
        Shape::Number { .. } | Shape::Named(_) | Shape::Variable(_) => after_one(left),
        Shape::Element(_, a) | Shape::Prefix(_, a) => after_one(after_expr(left, a)?),
        Shape::Binary(_, a, b) => {
            if e.null_test().is_some() {
                return after_one(left);
            }
            after_one(after_expr(after_expr(left, a)?, b)?)
        }
        Shape::Paren(a) => after_expr(left, a),
    }
}

/// What is left of `left` after the steps of an expression and one that takes its value.
fn after_number(left: usize, e: ExprRef<'_>) -> Option<usize>
    ensures some { IfSome result (λ rest. rest + expr_steps (ref_tree e.entry) + 1 ≡ left) }
    ensures none { IfNone result (left < expr_steps (ref_tree e.entry) + 1) }
{
    after_one(after_expr(left, e)?)
}

/// What is left of `left` after the steps of an argument before the call.
fn after_argument(
    left: usize,
    ints: &IntNames<'_>,
    parameter: ParameterKind,
    argument: &Argument,
) -> Option<usize>
    ensures some { IfSome result (λ rest. rest + argument_steps ints.now (parameter, argument_tree argument.now) ≡ left) }
    ensures none { IfNone result (left < argument_steps ints.now (parameter, argument_tree argument.now)) }
{
    match (parameter, argument) {
        (ParameterKind::IntNumber, Argument::Value(e)) => after_expr(left, e.whole()),
        (ParameterKind::Passed, Argument::Value(e)) => after_passed(left, ints, e.whole()),
        _ => Some(left),
    }
}

/// What is left of `left` after the steps of what a method is given.
fn after_passed(left: usize, ints: &IntNames<'_>, e: ExprRef<'_>) -> Option<usize>
    ensures some { IfSome result (λ rest. rest + passed_steps ints.now (ref_tree e.entry) ≡ left) }
    ensures none { IfNone result (left < passed_steps ints.now (ref_tree e.entry)) }
{
    match e.shape() {
        Shape::Named(Constant::Null) => Some(left),
        Shape::Variable(name) => after_name(left, ints.has(name)),
        _ => after_expr(left, e),
    }
}

/// What is left of `left` after a name that a method is given: a number takes a step.
fn after_name(left: usize, number: bool) -> Option<usize>
    ensures some { IfSome result (λ rest. rest + (if number then 1 else 0) ≡ left) }
    ensures none { IfNone result (left < (if number then 1 else 0)) }
{
    if number { after_one(left) } else { Some(left) }
}

/// What is left of `left` after the steps of several arguments before the call.
fn after_arguments(
    left: usize,
    ints: &IntNames<'_>,
    parameters: Parameters,
    arguments: &[Argument],
) -> Option<usize>
    ensures some { IfSome result (λ rest. rest + sum_by (argument_steps ints.now) (paired parameters (map argument_tree arguments.now)) ≡ left) }
    ensures none { IfNone result (left < sum_by (argument_steps ints.now) (paired parameters (map argument_tree arguments.now))) }
{
    match arguments {
        [] => Some(left),
        [argument, arguments_left @ ..] => match parameters.first() {
            None => Some(left),
            Some((parameter, parameters_left)) => after_arguments(
                after_argument(left, ints, parameter, argument)?,
                ints,
                parameters_left,
                arguments_left,
            ),
        },
    }
}

/// What is left of `left` after the steps of a call.
fn after_call(left: usize, ints: &IntNames<'_>, call: &Call) -> Option<usize>
    ensures some { IfSome result (λ rest. rest + call_steps ints.now (call_tree call.now) ≡ left) }
    ensures none { IfNone result (left < call_steps ints.now (call_tree call.now)) }
{
    match function_named(call.function.as_bytes()) {
        Some(function) => after_one(after_arguments(
            left,
            ints,
            Parameters::of(function),
            &call.arguments,
        )?),
        None => after_one(left),
    }
}

/// What is left of `left` after the steps of a value for a variable.
fn after_value(left: usize, e: ExprRef<'_>) -> Option<usize>
    ensures some { IfSome result (λ rest. rest + value_steps (ref_tree e.entry) ≡ left) }
    ensures none { IfNone result (left < value_steps (ref_tree e.entry)) }
{
    match e.shape() {
        Shape::Named(Constant::Null) => after_one(left),
        _ => after_number(left, e),
    }
}

/// What is left of `left` after the steps of a right side.
fn after_right(left: usize, ints: &IntNames<'_>, right: &RightSide) -> Option<usize>
    ensures some { IfSome result (λ rest. rest + right_steps ints.now (right_side_tree right.now) ≡ left) }
    ensures none { IfNone result (left < right_steps ints.now (right_side_tree right.now)) }
{
    match right {
        RightSide::Expr(e) => after_value(left, e.whole()),
        RightSide::Call(call) => after_call(left, ints, call),
    }
}

/// What is left of `left` after the steps of a test and the choice of a path.
fn after_test(left: usize, ints: &IntNames<'_>, test: &Test) -> Option<usize>
    ensures some { IfSome result (λ rest. rest + test_steps ints.now (test_tree test.now) ≡ left) }
    ensures none { IfNone result (left < test_steps ints.now (test_tree test.now)) }
{
    match test {
        Test::Expr(e) => after_number(left, e.whole()),
        Test::Call(call) => after_one(after_call(left, ints, call)?),
    }
}

/// What is left of `left` after the steps of the return of a value.
fn after_return(left: usize, returns: ResultType, e: ExprRef<'_>) -> Option<usize>
    ensures some { IfSome result (λ rest. rest + return_steps returns (ref_tree e.entry) ≡ left) }
    ensures none { IfNone result (left < return_steps returns (ref_tree e.entry)) }
{
    match returns {
        ResultType::Jint => after_number(left, e),
        ResultType::Void | ResultType::Reference(_) => after_one(left),
    }
}

/// What is left of `left` after the steps of a statement.
#[cycle(statements)]
fn after_form(left: usize, ints: &IntNames<'_>, returns: ResultType, form: &Form) -> Option<usize>
    ensures some { (line : ℕ) → IfSome result (λ rest. rest + stmt_steps ints.now returns (form_tree line form.now) ≡ left) }
    ensures none { (line : ℕ) → IfNone result (left < stmt_steps ints.now returns (form_tree line form.now)) }
{
    match form {
        Form::Plain(plain) => after_plain(left, ints, plain),
        Form::If(test, block, other) => {
            after_else(
                after_first(left, ints, returns, test, block)?,
                ints,
                returns,
                other,
            )
        }
        Form::While(test, body) => after_path(
            after_number(left, test.whole())?,
            ints,
            returns,
            body,
        ),
        Form::Return(None) => after_one(left),
        Form::Return(Some(e)) => after_return(left, returns, e.whole()),
    }
}

/// What is left of `left` after the steps of the second block of an `if`, where it has one, and the one at its end.
#[cycle(statements)]
fn after_else(left: usize, ints: &IntNames<'_>, returns: ResultType, other: &Else) -> Option<usize>
    ensures some { IfSome result (λ rest. rest + (else_steps ints.now returns (else_tree other.now) + 1) ≡ left) }
    ensures none { IfNone result (left < else_steps ints.now returns (else_tree other.now) + 1) }
{
    match other {
        Else::Nothing => after_one(left),
        Else::Block(block) => after_path(left, ints, returns, block),
    }
}

/// What is left of `left` after the steps of a test and of the path that is taken where it holds.
#[cycle(statements)]
fn after_first(
    left: usize,
    ints: &IntNames<'_>,
    returns: ResultType,
    test: &Test,
    block: &Block,
) -> Option<usize>
    ensures some { IfSome result (λ rest. rest
        + (test_steps ints.now (test_tree test.now) + (block_steps ints.now returns (block_tree block.now) + 1)) ≡ left) }
    ensures none { IfNone result (left < test_steps ints.now (test_tree test.now) + (block_steps ints.now returns (block_tree block.now) + 1)) }
{
    after_path(after_test(left, ints, test)?, ints, returns, block)
}

/// What is left of `left` after the steps of a plain statement.
fn after_plain(left: usize, ints: &IntNames<'_>, plain: &PlainStmt) -> Option<usize>
    ensures some { IfSome result (λ rest. rest + plain_steps ints.now (plain_tree plain.now) ≡ left) }
    ensures none { IfNone result (left < plain_steps ints.now (plain_tree plain.now)) }
{
    match plain {
        PlainStmt::Declare(_, _, right) => after_right(left, ints, right),
        PlainStmt::DeclareArray(..) => after_one(left),
        PlainStmt::Assign(_, right) => after_right(left, ints, right),
        PlainStmt::AssignElement(_, i, e) => after_number(after_expr(left, i.whole())?, e.whole()),
        PlainStmt::Perform(call) => after_call(left, ints, call),
        PlainStmt::PutJint(e) => after_number(left, e.whole()),
    }
}

/// What is left of `left` after the steps of a block and the one at its end.
#[cycle(statements)]
fn after_path(left: usize, ints: &IntNames<'_>, returns: ResultType, block: &Block) -> Option<usize>
    ensures some { IfSome result (λ rest. rest + (block_steps ints.now returns (block_tree block.now) + 1) ≡ left) }
    ensures none { IfNone result (left < block_steps ints.now returns (block_tree block.now) + 1) }
{
    after_one(after_block(left, ints, returns, block)?)
}

/// What is left of `left` after the steps of a block's statements.
#[cycle(statements)]
fn after_block(
    left: usize,
    ints: &IntNames<'_>,
    returns: ResultType,
    block: &Block,
) -> Option<usize>
    ensures some { IfSome result (λ rest. rest + block_steps ints.now returns (block_tree block.now) ≡ left) }
    ensures none { IfNone result (left < block_steps ints.now returns (block_tree block.now)) }
{
    let mut rest = left;
    for stmt in &block.statements {
        rest = after_form(rest, ints, returns, &stmt.form)?;
    }
    Some(rest)
}

/// Whether a function has more than 65,535 steps.
fn is_long_function<'a>(ints: &mut IntNames<'a>, function: &'a Function) -> bool
    requires { HasFewNames (function_tree function.now) }
    ensures { result ≡ nat_lt most_steps (function_steps (function_tree function.now)) }
{
    ints.enter(function);
    after_block(MOST_STEPS, ints, function.result, &function.body).is_none()
}

/// Whether an item is such a function. The names of its variables are put in the place of those before.
fn is_long<'a>(ints: &mut IntNames<'a>, item: &'a Item) -> bool
    requires { IsTrue (has_few_names (item_tree item.now)) }
    ensures { result ≡ is_long (item_tree item.now) }
{
    match item {
        Item::Static(_) => false,
        Item::Function(function) => is_long_function(ints, function),
    }
}

/// Whether some function has more than 65,535 steps, so that `lower` answers `TooLong` unless host memory is refused.
pub fn has_long_function(checked: &Checked) -> bool
    ensures { result ≡ list_any is_long (unit_tree checked.now).items }
{
    let mut ints = IntNames::new();
    for item in checked.items() {
        if is_long(&mut ints, item) {
            return true;
        }
    }
    false
}

/// The first function that has more than 65,535 steps, for the reader of the fault.
pub fn long_function(checked: &Checked) -> Option<&Function> {
    let mut ints = IntNames::new();
    for item in checked.items() {
        if is_long(&mut ints, item) {
            if let Item::Function(function) = item {
                return Some(function);
            }
        }
    }
    None
}
