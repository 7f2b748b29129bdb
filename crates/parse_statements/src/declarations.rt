//! Declarations of variables (ISO/IEC 9899:1999, 6.7).

ghost use Rattle.std.specs.Prelude.{◌≡◌, ◌≤◌};
ghost use Rattle.syntax.specs.Views.{stmt_tree};
ghost use Rattle.parse_lexemes.specs.Results.{Gives};
ghost use Rattle.parse_lexemes.specs.Lexemes.{views};
ghost use Rattle.parse_statements.specs.Reading.{zeros_at, array_at, is_array, after_element, after_variable, after_const, declared_at, starts_declaration};

use base::limits::MOST_ELEMENTS;
use parse_expressions::setting;
use parse_lexemes::{Cursor, Fixed, ParseError};
use scan::{Mark, Word};
use std::alloc::Global;
use syntax::{DeclaredType, ElementType, ExprStack, Form, Name, PlainStmt, Stmt, VariableType};

/// What comes after the zeros of a local array.
#[tactic(auto, unfolding(crate::specs::Reading::zeros_at))]
fn zeros(lexemes: Cursor<'_>) -> Result<Cursor<'_>, ParseError>
    ensures { Gives (λ x. views x) result (zeros_at (views lexemes.entry)) }
{
    let rest = lexemes
        .expect(Fixed::Mark(Mark::Assign))?
        .expect(Fixed::Mark(Mark::OpenBrace))?;
    let (_, rest) = rest.number(0, 0)?;
    rest.expect(Fixed::Mark(Mark::CloseBrace))?
        .expect(Fixed::Mark(Mark::Semicolon))
}

/// The name, the size and the zeros of a local array.
#[tactic(auto, unfolding(crate::specs::Reading::array_at))]
fn array(
    alloc: Global,
    line: usize,
    element: ElementType,
    lexemes: Cursor<'_>,
) -> Result<(Stmt, Cursor<'_>), ParseError>
    ensures { Gives (λ x. (stmt_tree x.0, views x.1)) result (array_at line element (views lexemes.entry)) }
{
    let (name, rest) = lexemes.name()?;
    let rest = rest.expect(Fixed::Mark(Mark::OpenBracket))?;
    let (size, rest) = rest.number(1, MOST_ELEMENTS)?;
    let rest = zeros(rest.expect(Fixed::Mark(Mark::CloseBracket))?)?;
    let name = Name::new(alloc, name)?;
    let form = Form::Plain(PlainStmt::DeclareArray(element, name, size));
    Ok((Stmt { line, form }, rest))
}

/// Whether an array is declared after an element's type, of which `jint` alone is a variable's too.
fn is_array(element: ElementType, lexemes: Cursor<'_>) -> bool
    ensures { result ≡ is_array element (views lexemes.entry) }
{
    match element {
        ElementType::Int => lexemes.skip().starts_with(Fixed::Mark(Mark::OpenBracket)),
        ElementType::Short | ElementType::Byte | ElementType::Char => true,
    }
}

/// A declaration whose first word, of an element's type, is read.
#[tactic(auto, unfolding(crate::specs::Reading::after_element, crate::specs::Reading::after_variable))]
fn after_element<'t>(
    stack: &mut ExprStack,
    room: u32,
    line: usize,
    element: ElementType,
    lexemes: Cursor<'t>,
) -> Result<(Stmt, Cursor<'t>), ParseError>
    requires { room ≤ 32 }
    ensures { Gives (λ x. (stmt_tree x.0, views x.1)) result (after_element room line element (views lexemes.entry)) }
{
    if lexemes.starts_with(Fixed::Mark(Mark::Star)) {
        let (name, right, rest) = setting(stack, room, lexemes.skip())?;
        let kind = DeclaredType::Pointer(element);
        let form = Form::Plain(PlainStmt::Declare(kind, name, right));
        return Ok((Stmt { line, form }, rest));
    }
    if is_array(element, lexemes) {
        return array(stack.alloc(), line, element, lexemes);
    }
    after_variable(stack, room, line, VariableType::Jint, lexemes)
}

/// A declaration of a variable whose type is read.
#[tactic(auto, unfolding(crate::specs::Reading::after_variable))]
fn after_variable<'t>(
    stack: &mut ExprStack,
    room: u32,
    line: usize,
    kind: VariableType,
    lexemes: Cursor<'t>,
) -> Result<(Stmt, Cursor<'t>), ParseError>
    requires { room ≤ 32 }
    ensures { Gives (λ x. (stmt_tree x.0, views x.1)) result (after_variable room line kind (views lexemes.entry)) }
{
    let (name, right, rest) = setting(stack, room, lexemes)?;
    let form = Form::Plain(PlainStmt::Declare(DeclaredType::Simple(kind), name, right));
    Ok((Stmt { line, form }, rest))
}

/// A declaration whose `const` is read.
#[tactic(auto, unfolding(crate::specs::Reading::after_const))]
fn after_const<'t>(
    stack: &mut ExprStack,
    room: u32,
    line: usize,
    lexemes: Cursor<'t>,
) -> Result<(Stmt, Cursor<'t>), ParseError>
    requires { room ≤ 32 }
    ensures { Gives (λ x. (stmt_tree x.0, views x.1)) result (after_const room line (views lexemes.entry)) }
{
    let rest = lexemes
        .expect(Fixed::Word(Word::Jchar))?
        .expect(Fixed::Mark(Mark::Star))?;
    let (name, right, rest) = setting(stack, room, rest)?;
    let form = Form::Plain(PlainStmt::Declare(DeclaredType::ConstChars, name, right));
    Ok((Stmt { line, form }, rest))
}

/// A declaration.
#[tactic(auto, unfolding(crate::specs::Reading::declared_at))]
pub(crate) fn declared<'t>(
    stack: &mut ExprStack,
    room: u32,
    lexemes: Cursor<'t>,
) -> Result<(Stmt, Cursor<'t>), ParseError>
    requires { room ≤ 32 }
    ensures { Gives (λ x. (stmt_tree x.0, views x.1)) result (declared_at room (views lexemes.entry)) }
{
    let line = lexemes.line();
    if let Some(element) = lexemes.element_type() {
        return after_element(stack, room, line, element, lexemes.skip());
    }
    if let Some(kind) = lexemes.variable_type() {
        return after_variable(stack, room, line, kind, lexemes.skip());
    }
    after_const(stack, room, line, lexemes.skip())
}

/// Whether a declaration comes next.
pub(crate) fn starts_declaration(lexemes: Cursor<'_>) -> bool
    ensures { result ≡ starts_declaration (views lexemes.entry) }
{
    lexemes.element_type().is_some()
        || lexemes.variable_type().is_some()
        || lexemes.starts_with(Fixed::Word(Word::Const))
}
