//! Statements that declare no name and have no block (ISO/IEC 9899:1999, 6.8.3 and 6.8.6.4).

ghost use Rattle.std.specs.Prelude.{◌≤◌};
ghost use Rattle.syntax.specs.Views.{expr_tree, stmt_tree};
ghost use Rattle.parse_lexemes.specs.Results.{Gives};
ghost use Rattle.parse_statements.specs.Steps.{element_set_at};
ghost use Rattle.parse_lexemes.specs.Lexemes.{views};
ghost use Rattle.parse_statements.specs.Reading.{put_at, return_at, perform_at, set_element_at, set_at, plain_at};

use parse_expressions::{call, expression, index, setting, starts_element};
use parse_lexemes::{Cursor, Fixed, ParseError};
use scan::{Mark, Word};
use syntax::{Expr, ExprStack, Form, Name, PlainStmt, Stmt};

/// A statement whose `put_jint`, in this line, is read.
#[tactic(auto, unfolding(crate::specs::Reading::put_at))]
fn put<'t>(
    stack: &mut ExprStack,
    room: u32,
    line: usize,
    lexemes: Cursor<'t>,
) -> Result<(Stmt, Cursor<'t>), ParseError>
    requires { room ≤ 32 }
    ensures { Gives (λ x. (stmt_tree x.0, views x.1)) result (put_at room line (views lexemes.entry)) }
{
    let rest = lexemes.expect(Fixed::Mark(Mark::OpenParen))?;
    let (operand, _, rest) = expression(stack, room, 0, rest)?;
    let rest = rest
        .expect(Fixed::Mark(Mark::CloseParen))?
        .expect(Fixed::Mark(Mark::Semicolon))?;
    let form = Form::Plain(PlainStmt::PutJint(operand));
    Ok((Stmt { line, form }, rest))
}

/// A statement whose `return`, in this line, is read.
#[tactic(auto, unfolding(crate::specs::Reading::return_at))]
fn returned<'t>(
    stack: &mut ExprStack,
    room: u32,
    line: usize,
    lexemes: Cursor<'t>,
) -> Result<(Stmt, Cursor<'t>), ParseError>
    requires { room ≤ 32 }
    ensures { Gives (λ x. (stmt_tree x.0, views x.1)) result (return_at room line (views lexemes.entry)) }
{
    if lexemes.starts_with(Fixed::Mark(Mark::Semicolon)) {
        let form = Form::Return(None);
        return Ok((Stmt { line, form }, lexemes.skip()));
    }
    let (operand, _, rest) = expression(stack, room, 0, lexemes)?;
    let rest = rest.expect(Fixed::Mark(Mark::Semicolon))?;
    let form = Form::Return(Some(operand));
    Ok((Stmt { line, form }, rest))
}

/// A call whose result is dropped.
#[tactic(auto, unfolding(crate::specs::Reading::perform_at))]
fn perform<'t>(
    stack: &mut ExprStack,
    room: u32,
    line: usize,
    lexemes: Cursor<'t>,
) -> Result<(Stmt, Cursor<'t>), ParseError>
    requires { room ≤ 32 }
    ensures { Gives (λ x. (stmt_tree x.0, views x.1)) result (perform_at room line (views lexemes.entry)) }
{
    let (call, rest) = call(stack, room, lexemes)?;
    let rest = rest.expect(Fixed::Mark(Mark::Semicolon))?;
    let form = Form::Plain(PlainStmt::Perform(call));
    Ok((Stmt { line, form }, rest))
}

/// An assignment to the element of this name and index, which are read.
#[tactic(auto, unfolding(crate::specs::Steps::element_set_at))]
fn set_to<'t>(
    stack: &mut ExprStack,
    room: u32,
    line: usize,
    name: Name,
    index: Expr,
    lexemes: Cursor<'t>,
) -> Result<(Stmt, Cursor<'t>), ParseError>
    requires { room ≤ 32 }
    ensures { Gives (λ x. (stmt_tree x.0, views x.1)) result (element_set_at room line name (expr_tree index) (views lexemes.entry)) }
{
    let rest = lexemes.expect(Fixed::Mark(Mark::Assign))?;
    let (value, _, rest) = expression(stack, room, 0, rest)?;
    let rest = rest.expect(Fixed::Mark(Mark::Semicolon))?;
    let form = Form::Plain(PlainStmt::AssignElement(name, index, value));
    Ok((Stmt { line, form }, rest))
}

/// An assignment to an element.
#[tactic(auto, unfolding(crate::specs::Reading::set_element_at, crate::specs::Steps::element_set_at))]
fn set_element<'t>(
    stack: &mut ExprStack,
    room: u32,
    line: usize,
    lexemes: Cursor<'t>,
) -> Result<(Stmt, Cursor<'t>), ParseError>
    requires { room ≤ 32 }
    ensures { Gives (λ x. (stmt_tree x.0, views x.1)) result (set_element_at room line (views lexemes.entry)) }
{
    let (name, rest) = lexemes.name()?;
    let (index, _, rest) = index(stack, room, rest)?;
    let name = Name::new(stack.alloc(), name)?;
    set_to(stack, room, line, name, index, rest)
}

/// An assignment to a name or an element.
#[tactic(auto, unfolding(crate::specs::Reading::set_at))]
fn set<'t>(
    stack: &mut ExprStack,
    room: u32,
    line: usize,
    lexemes: Cursor<'t>,
) -> Result<(Stmt, Cursor<'t>), ParseError>
    requires { room ≤ 32 }
    ensures { Gives (λ x. (stmt_tree x.0, views x.1)) result (set_at room line (views lexemes.entry)) }
{
    if starts_element(lexemes) {
        return set_element(stack, room, line, lexemes);
    }
    let (name, right, rest) = setting(stack, room, lexemes)?;
    let form = Form::Plain(PlainStmt::Assign(name, right));
    Ok((Stmt { line, form }, rest))
}

/// A statement that declares no name and has no block.
#[tactic(auto, unfolding(crate::specs::Reading::plain_at))]
pub(crate) fn plain<'t>(
    stack: &mut ExprStack,
    room: u32,
    lexemes: Cursor<'t>,
) -> Result<(Stmt, Cursor<'t>), ParseError>
    requires { room ≤ 32 }
    ensures { Gives (λ x. (stmt_tree x.0, views x.1)) result (plain_at room (views lexemes.entry)) }
{
    let line = lexemes.line();
    if lexemes.starts_with(Fixed::Word(Word::PutJint)) {
        return put(stack, room, line, lexemes.skip());
    }
    if lexemes.starts_with(Fixed::Word(Word::Return)) {
        return returned(stack, room, line, lexemes.skip());
    }
    if lexemes.starts_with(Fixed::Mark(Mark::OpenParen)) {
        return perform(stack, room, line, lexemes);
    }
    set(stack, room, line, lexemes)
}
