//! The name of a statement that a fault is about.

use syntax::{Argument, Call, ExprRef, Form, Name, PlainStmt, RightSide, Shape, Test};

/// A question about the names that a statement uses.
pub trait Question {
    /// Whether the answer is yes, of a name that stands alone, or that has an index.
    fn holds(&self, name: &Name, has_index: bool) -> bool;
}

/// A name, if the answer is yes.
fn one_name<'f, Q: Question>(name: &'f Name, has_index: bool, question: &Q) -> Option<&'f Name> {
    if question.holds(name, has_index) {
        Some(name)
    } else {
        None
    }
}

fn first_in_expr<'f, Q: Question>(e: ExprRef<'f>, question: &Q) -> Option<&'f Name> {
    match e.shape() {
        Shape::Number { .. } | Shape::Named(_) => None,
        Shape::Variable(x) => one_name(x, false, question),
        Shape::Element(x, i) => match one_name(x, true, question) {
            Some(x) => Some(x),
            None => first_in_expr(i, question),
        },
        Shape::Prefix(_, a) | Shape::Paren(a) => first_in_expr(a, question),
        Shape::Binary(_, a, b) => match first_in_expr(a, question) {
            Some(x) => Some(x),
            None => first_in_expr(b, question),
        },
    }
}

fn first_in_argument<'f, Q: Question>(argument: &'f Argument, question: &Q) -> Option<&'f Name> {
    match argument {
        Argument::Value(e) => first_in_expr(e.whole(), question),
        Argument::Text(_) => None,
        Argument::AddressOf(x) => one_name(x, false, question),
    }
}

fn first_in_call<'f, Q: Question>(call: &'f Call, question: &Q) -> Option<&'f Name> {
    for argument in &call.arguments {
        if let Some(name) = first_in_argument(argument, question) {
            return Some(name);
        }
    }
    None
}

fn first_in_right<'f, Q: Question>(right: &'f RightSide, question: &Q) -> Option<&'f Name> {
    match right {
        RightSide::Expr(e) => first_in_expr(e.whole(), question),
        RightSide::Call(call) => first_in_call(call, question),
    }
}

fn first_in_test<'f, Q: Question>(test: &'f Test, question: &Q) -> Option<&'f Name> {
    match test {
        Test::Expr(e) => first_in_expr(e.whole(), question),
        Test::Call(call) => first_in_call(call, question),
    }
}

fn first_in_setting<'f, Q: Question>(
    name: &'f Name,
    index: ExprRef<'f>,
    value: ExprRef<'f>,
    question: &Q,
) -> Option<&'f Name> {
    match one_name(name, true, question) {
        Some(x) => Some(x),
        None => match first_in_expr(index, question) {
            Some(x) => Some(x),
            None => first_in_expr(value, question),
        },
    }
}

fn first_in_plain<'f, Q: Question>(plain: &'f PlainStmt, question: &Q) -> Option<&'f Name> {
    match plain {
        PlainStmt::Declare(_, _, r) | PlainStmt::Assign(_, r) => first_in_right(r, question),
        PlainStmt::DeclareArray(..) => None,
        PlainStmt::AssignElement(x, i, e) => first_in_setting(x, i.whole(), e.whole(), question),
        PlainStmt::Perform(call) => first_in_call(call, question),
        PlainStmt::PutJint(e) => first_in_expr(e.whole(), question),
    }
}

/// The first name that a statement uses of which the answer is yes. A name that it declares, or sets as a whole, is not used, and
/// the statements of its blocks aren't looked at.
pub fn first_name<'f, Q: Question>(form: &'f Form, question: &Q) -> Option<&'f Name> {
    match form {
        Form::Plain(plain) => first_in_plain(plain, question),
        Form::If(test, _, _) => first_in_test(test, question),
        Form::While(e, _) | Form::Return(Some(e)) => first_in_expr(e.whole(), question),
        Form::Return(None) => None,
    }
}
