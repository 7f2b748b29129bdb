//! The names that a statement uses, and those whose elements it reads or writes.

ghost use Rattle.std.specs.Prelude.{◌≡◌, ℕ};
ghost use Rattle.syntax.specs.Shapes.{ref_tree};
ghost use Rattle.syntax.specs.Views.{argument_tree, call_tree, right_side_tree, test_tree, plain_tree, form_tree};
ghost use Rattle.region_states.specs.StatesInMemory.{asks};
ghost use Rattle.type_rules.specs.Uses.{expr_uses, argument_uses, call_uses, right_uses, test_uses, plain_uses, uses};
ghost use Rattle.region_states.specs.Reads.{expr_reads, argument_reads, call_reads, right_reads, test_reads, plain_reads, reads};

use crate::states::{Condition, FlowState};
use syntax::{Argument, Call, ExprRef, Form, PlainStmt, RightSide, Shape, Test};

/// Whether some name of an expression meets the condition.
fn expr_uses(state: &FlowState, condition: Condition, e: ExprRef<'_>) -> bool
    ensures { result ≡ expr_uses (asks condition state.now) (ref_tree e.entry) }
{
    match e.shape() {
        Shape::Number { .. } | Shape::Named(_) => false,
        Shape::Variable(x) => state.meets(condition, x.as_bytes()),
        Shape::Element(x, i) => {
            state.meets(condition, x.as_bytes()) || expr_uses(state, condition, i)
        }
        Shape::Prefix(_, a) | Shape::Paren(a) => expr_uses(state, condition, a),
        Shape::Binary(_, a, b) => {
            expr_uses(state, condition, a) || expr_uses(state, condition, b)
        }
    }
}

/// Whether an argument uses a name that meets the condition.
fn argument_uses(state: &FlowState, condition: Condition, argument: &Argument) -> bool
    ensures { result ≡ argument_uses (asks condition state.now) (argument_tree argument.now) }
{
    match argument {
        Argument::Value(e) => expr_uses(state, condition, e.whole()),
        Argument::Text(_) => false,
        Argument::AddressOf(x) => state.meets(condition, x.as_bytes()),
    }
}

/// Whether an argument of a call uses a name that meets the condition.
fn call_uses(state: &FlowState, condition: Condition, call: &Call) -> bool
    ensures { result ≡ call_uses (asks condition state.now) (call_tree call.now) }
{
    for argument in &call.arguments {
        if argument_uses(state, condition, argument) {
            return true;
        }
    }
    false
}

fn right_uses(state: &FlowState, condition: Condition, right: &RightSide) -> bool
    ensures { result ≡ right_uses (asks condition state.now) (right_side_tree right.now) }
{
    match right {
        RightSide::Expr(e) => expr_uses(state, condition, e.whole()),
        RightSide::Call(c) => call_uses(state, condition, c),
    }
}

fn test_uses(state: &FlowState, condition: Condition, test: &Test) -> bool
    ensures { result ≡ test_uses (asks condition state.now) (test_tree test.now) }
{
    match test {
        Test::Expr(e) => expr_uses(state, condition, e.whole()),
        Test::Call(c) => call_uses(state, condition, c),
    }
}

/// Whether some name that a plain statement uses meets the condition.
fn plain_uses(state: &FlowState, condition: Condition, plain: &PlainStmt) -> bool
    ensures { result ≡ plain_uses (asks condition state.now) (plain_tree plain.now) }
{
    match plain {
        PlainStmt::Declare(_, _, r) => right_uses(state, condition, r),
        PlainStmt::DeclareArray(..) => false,
        PlainStmt::Assign(_, r) => right_uses(state, condition, r),
        PlainStmt::AssignElement(x, i, e) => {
            state.meets(condition, x.as_bytes())
                || expr_uses(state, condition, i.whole())
                || expr_uses(state, condition, e.whole())
        }
        PlainStmt::Perform(c) => call_uses(state, condition, c),
        PlainStmt::PutJint(e) => expr_uses(state, condition, e.whole()),
    }
}

/// Whether some name that a statement uses meets the condition. The statements of its blocks aren't looked at.
fn form_uses(state: &FlowState, condition: Condition, form: &Form) -> bool
    ensures { (line : ℕ) → result ≡ uses (asks condition state.now) (form_tree line form.now) }
{
    match form {
        Form::Plain(plain) => plain_uses(state, condition, plain),
        Form::If(test, _, _) => test_uses(state, condition, test),
        Form::While(e, _) => expr_uses(state, condition, e.whole()),
        Form::Return(None) => false,
        Form::Return(Some(e)) => expr_uses(state, condition, e.whole()),
    }
}

/// Whether an expression reads an element of a name that meets the condition.
fn expr_reads(state: &FlowState, condition: Condition, e: ExprRef<'_>) -> bool
    ensures { result ≡ expr_reads (asks condition state.now) (ref_tree e.entry) }
{
    match e.shape() {
        Shape::Number { .. } | Shape::Named(_) | Shape::Variable(_) => false,
        Shape::Element(x, i) => {
            state.meets(condition, x.as_bytes()) || expr_reads(state, condition, i)
        }
        Shape::Prefix(_, a) | Shape::Paren(a) => expr_reads(state, condition, a),
        Shape::Binary(_, a, b) => {
            expr_reads(state, condition, a) || expr_reads(state, condition, b)
        }
    }
}

fn argument_reads(state: &FlowState, condition: Condition, argument: &Argument) -> bool
    ensures { result ≡ argument_reads (asks condition state.now) (argument_tree argument.now) }
{
    match argument {
        Argument::Value(e) => expr_reads(state, condition, e.whole()),
        Argument::Text(_) => false,
        Argument::AddressOf(_) => false,
    }
}

fn call_reads(state: &FlowState, condition: Condition, call: &Call) -> bool
    ensures { result ≡ call_reads (asks condition state.now) (call_tree call.now) }
{
    for argument in &call.arguments {
        if argument_reads(state, condition, argument) {
            return true;
        }
    }
    false
}

fn right_reads(state: &FlowState, condition: Condition, right: &RightSide) -> bool
    ensures { result ≡ right_reads (asks condition state.now) (right_side_tree right.now) }
{
    match right {
        RightSide::Expr(e) => expr_reads(state, condition, e.whole()),
        RightSide::Call(c) => call_reads(state, condition, c),
    }
}

fn test_reads(state: &FlowState, condition: Condition, test: &Test) -> bool
    ensures { result ≡ test_reads (asks condition state.now) (test_tree test.now) }
{
    match test {
        Test::Expr(e) => expr_reads(state, condition, e.whole()),
        Test::Call(c) => call_reads(state, condition, c),
    }
}

/// Whether a plain statement reads or writes an element of a name that meets the condition.
fn plain_reads(state: &FlowState, condition: Condition, plain: &PlainStmt) -> bool
    ensures { result ≡ plain_reads (asks condition state.now) (plain_tree plain.now) }
{
    match plain {
        PlainStmt::Declare(_, _, r) => right_reads(state, condition, r),
        PlainStmt::DeclareArray(..) => false,
        PlainStmt::Assign(_, r) => right_reads(state, condition, r),
        PlainStmt::AssignElement(x, i, e) => {
            expr_reads(state, condition, i.whole())
                || expr_reads(state, condition, e.whole())
                || state.meets(condition, x.as_bytes())
        }
        PlainStmt::Perform(c) => call_reads(state, condition, c),
        PlainStmt::PutJint(e) => expr_reads(state, condition, e.whole()),
    }
}

/// Whether a statement reads or writes an element of a name that meets the condition. The statements of its blocks aren't looked
/// at.
fn form_reads(state: &FlowState, condition: Condition, form: &Form) -> bool
    ensures { (line : ℕ) → result ≡ reads (asks condition state.now) (form_tree line form.now) }
{
    match form {
        Form::Plain(plain) => plain_reads(state, condition, plain),
        Form::If(test, _, _) => test_reads(state, condition, test),
        Form::While(e, _) => expr_reads(state, condition, e.whole()),
        Form::Return(None) => false,
        Form::Return(Some(e)) => expr_reads(state, condition, e.whole()),
    }
}

/// Whether a statement uses a name that meets the condition. A name that it declares or sets is not used.
/// Where no name meets it, the statement isn't looked at.
#[tactic(auto, using(crate::proofs::NoneLemmas::none_uses))]
pub fn uses(state: &FlowState, condition: Condition, form: &Form) -> bool
    ensures { (line : ℕ) → result ≡ uses (asks condition state.now) (form_tree line form.now) }
{
    state.is_any(condition) && form_uses(state, condition, form)
}

/// Whether a statement reads or writes an element of a name that meets the condition.
/// Where no name meets it, the statement isn't looked at.
#[tactic(auto, using(crate::proofs::NoneLemmas::none_reads))]
pub fn reads(state: &FlowState, condition: Condition, form: &Form) -> bool
    ensures { (line : ℕ) → result ≡ reads (asks condition state.now) (form_tree line form.now) }
{
    state.is_any(condition) && form_reads(state, condition, form)
}
