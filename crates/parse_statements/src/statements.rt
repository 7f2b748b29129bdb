//! Statements and blocks (ISO/IEC 9899:1999, 6.8).

ghost use Rattle.std.specs.Prelude.{◌≡◌, ◌≤◌, ℕ, Result, IfOk, IfSome};
ghost use Rattle.std.specs.Option.{option_map};
ghost use Rattle.syntax.specs.Views.{expr_tree, test_tree, stmt_tree, block_tree};
ghost use Rattle.parse_lexemes.specs.declared.fault.ParseError.{ParseError};
ghost use Rattle.parse_lexemes.specs.Results.{Gives};
ghost use Rattle.parse_lexemes.specs.Lexemes.{views};
ghost use Rattle.parse_statements.specs.Steps.{BranchesRead, OtherRead, BlockRead, head_view, nested_head_at, starts_nested, takes_other, nested_made, nested_of, both_of, second_of, other_at, branches_at};
ghost use Rattle.parse_statements.specs.Reading.{simple_at, inner, if_test_at, while_test_at, is_return, statement_at, block_at};

use crate::declarations::{declared, starts_declaration};
use crate::plain::plain;
use parse_expressions::{expression, test};
use parse_lexemes::{Cursor, Fixed, ParseError, ParseRule};
use scan::{Mark, Word};
use syntax::{Block, Else, Expr, ExprStack, Form, Stmt, Test};

/// A statement, how many more names may be declared after it, and what comes after it.
type ReadStmt<'t> = (Stmt, usize, Cursor<'t>);

/// A block, how many more names may be declared after it, and what comes after it.
pub type ReadBlock<'t> = (Block, usize, Cursor<'t>);

/// The second block of an `if`, where it has one, how many more names may be declared after it, and what comes after it.
type ReadOther<'t> = (Option<Block>, usize, Cursor<'t>);

/// Both blocks of an `if`, how many more names may be declared after them, and what comes after them.
type ReadBranches<'t> = (Block, Option<Block>, usize, Cursor<'t>);

/// What comes in a statement before its first block.
#[derive(Drop)]
enum Head {
    If(Test),
    While(Expr),
}

/// A statement without a block, where `free` more names may be declared.
#[tactic(auto, unfolding(crate::specs::Reading::simple_at))]
fn simple<'t>(
    stack: &mut ExprStack,
    room: u32,
    free: usize,
    lexemes: Cursor<'t>,
) -> Result<ReadStmt<'t>, ParseError>
    requires { room ≤ 32 }
    ensures { Gives (λ x. (stmt_tree x.0, x.1, views x.2)) result (simple_at room free (views lexemes.entry)) }
{
    if starts_declaration(lexemes) {
        if free == 0 {
            return Err(lexemes.fault(ParseRule::TooMany));
        }
        let (stmt, rest) = declared(stack, room, lexemes)?;
        return Ok((stmt, free - 1, rest));
    }
    let (stmt, rest) = plain(stack, room, lexemes)?;
    Ok((stmt, free, rest))
}

/// Whether a statement is a return, which ends its block.
fn is_return(stmt: &Stmt) -> bool
    ensures { result ≡ is_return (stmt_tree stmt.now) }
{
    matches!(stmt.form, Form::Return(_))
}

/// What an `if` tests, in its parentheses, and what comes after the brace of its block.
#[tactic(auto, unfolding(crate::specs::Reading::if_test_at))]
fn if_test<'t>(
    stack: &mut ExprStack,
    room: u32,
    lexemes: Cursor<'t>,
) -> Result<(Test, Cursor<'t>), ParseError>
    requires { room ≤ 32 }
    ensures { Gives (λ x. (test_tree x.0, views x.1)) result (if_test_at room (views lexemes.entry)) }
{
    let rest = lexemes.expect(Fixed::Mark(Mark::OpenParen))?;
    let (test, rest) = test(stack, room, rest)?;
    let rest = rest
        .expect(Fixed::Mark(Mark::CloseParen))?
        .expect(Fixed::Mark(Mark::OpenBrace))?;
    Ok((test, rest))
}

/// What a `while` tests, in its parentheses, and what comes after the brace of its block.
#[tactic(auto, unfolding(crate::specs::Reading::while_test_at))]
fn while_test<'t>(
    stack: &mut ExprStack,
    room: u32,
    lexemes: Cursor<'t>,
) -> Result<(Expr, Cursor<'t>), ParseError>
    requires { room ≤ 32 }
    ensures { Gives (λ x. (expr_tree x.0, views x.1)) result (while_test_at room (views lexemes.entry)) }
{
    let rest = lexemes.expect(Fixed::Mark(Mark::OpenParen))?;
    let (operand, _, rest) = expression(stack, room, 0, rest)?;
    let rest = rest
        .expect(Fixed::Mark(Mark::CloseParen))?
        .expect(Fixed::Mark(Mark::OpenBrace))?;
    Ok((operand, rest))
}

/// How a statement with blocks begins, up to the brace of the first, where there is room for blocks, and what comes after that.
#[tactic(auto, unfolding(crate::specs::Steps::nested_head_at))]
fn nested_head<'t>(
    stack: &mut ExprStack,
    room: u32,
    lexemes: Cursor<'t>,
) -> Result<Option<(Head, Cursor<'t>)>, ParseError>
    requires { room ≤ 32 }
    ensures some { IfOk result (λ x. IfSome x (λ _. 1 ≤ room)) }
    ensures gives { Gives (option_map (λ x. (head_view x.0, views x.1))) result (nested_head_at room (views lexemes.entry)) }
{
    if room == 0 && starts_nested(lexemes) {
        return Err(lexemes.fault(ParseRule::TooHigh));
    }
    if lexemes.starts_with(Fixed::Word(Word::If)) {
        let (test, rest) = if_test(stack, room, lexemes.skip())?;
        return Ok(Some((Head::If(test), rest)));
    }
    if lexemes.starts_with(Fixed::Word(Word::While)) {
        let (test, rest) = while_test(stack, room, lexemes.skip())?;
        return Ok(Some((Head::While(test), rest)));
    }
    Ok(None)
}

/// Whether a statement with blocks begins.
fn starts_nested(lexemes: Cursor<'_>) -> bool
    ensures { result ≡ starts_nested (views lexemes.entry) }
{
    lexemes.starts_with(Fixed::Word(Word::If)) || lexemes.starts_with(Fixed::Word(Word::While))
}

/// Whether a second block may come after the first.
#[inline]
fn takes_other(head: &Head) -> bool
    ensures { result ≡ takes_other (head_view head.now) }
{
    matches!(head, Head::If(_))
}

/// A statement of its blocks.
#[inline]
fn nested_form(head: Head, body: Block, other: Option<Block>) -> Form
    ensures { (line : ℕ) → stmt_tree (record { line = line; form = result })
        ≡ nested_made line (head_view head) (block_tree body) (option_map block_tree other) }
{
    match head {
        Head::While(test) => Form::While(test, body),
        Head::If(test) => match other {
            None => Form::If(test, body, Else::Nothing),
            Some(other) => Form::If(test, body, Else::Block(other)),
        },
    }
}

/// A statement of this line, with the blocks that were read after its head.
#[inline]
fn nested<'t>(
    line: usize,
    head: Head,
    branches: Result<ReadBranches<'t>, ParseError>,
) -> Result<ReadStmt<'t>, ParseError>
    ensures { (read : Result BranchesRead ParseError)
        → Gives (λ x. (block_tree x.0, option_map block_tree x.1, x.2, views x.3)) branches.entry read
        → Gives (λ x. (stmt_tree x.0, x.1, views x.2)) result (nested_of line (head_view head) read) }
{
    let (body, other, free, rest) = branches?;
    let form = nested_form(head, body, other);
    Ok((Stmt { line, form }, free, rest))
}

/// The first block, and what was read after it.
#[inline]
fn both<'t>(
    body: Block,
    other: Result<ReadOther<'t>, ParseError>,
) -> Result<ReadBranches<'t>, ParseError>
    ensures { (read : Result OtherRead ParseError)
        → Gives (λ x. (option_map block_tree x.0, x.1, views x.2)) other.entry read
        → Gives (λ x. (block_tree x.0, option_map block_tree x.1, x.2, views x.3)) result
        (both_of (block_tree body) read) }
{
    let (other, free, rest) = other?;
    Ok((body, other, free, rest))
}

/// The blocks of a statement, of which `otherwise` says whether there may be a second one.
#[cycle(blocks)]
fn branches<'t>(
    stack: &mut ExprStack,
    room: u32,
    free: usize,
    otherwise: bool,
    lexemes: Cursor<'t>,
) -> Result<ReadBranches<'t>, ParseError>
    requires some { 1 ≤ room }
    requires bound { room ≤ 32 }
    ensures { Gives (λ x. (block_tree x.0, option_map block_tree x.1, x.2, views x.3)) result (branches_at (inner room) free otherwise (views lexemes.entry)) }
{
    let (body, left, rest) = block(stack, room - 1, free, lexemes)?;
    let other = other_block(stack, room, left, otherwise, rest);
    both(body, other)
}

/// A block that was read as the second one.
#[inline]
fn second(read: Result<ReadBlock<'_>, ParseError>) -> Result<ReadOther<'_>, ParseError>
    ensures { (from : Result BlockRead ParseError) → Gives (λ x. (block_tree x.0, x.1, views x.2)) read.entry from
        → Gives (λ x. (option_map block_tree x.0, x.1, views x.2)) result (second_of from) }
{
    let (other, free, rest) = read?;
    Ok((Some(other), free, rest))
}

/// The second block, where there may be one and `else` comes next.
#[cycle(blocks)]
#[tactic(auto, unfolding(crate::specs::Steps::other_at))]
fn other_block<'t>(
    stack: &mut ExprStack,
    room: u32,
    free: usize,
    otherwise: bool,
    lexemes: Cursor<'t>,
) -> Result<ReadOther<'t>, ParseError>
    requires some { 1 ≤ room }
    requires bound { room ≤ 32 }
    ensures { Gives (λ x. (option_map block_tree x.0, x.1, views x.2)) result (other_at (inner room) free otherwise (views lexemes.entry)) }
{
    if !otherwise || !lexemes.starts_with(Fixed::Word(Word::Else)) {
        return Ok((None, free, lexemes));
    }
    let rest = lexemes.skip().expect(Fixed::Mark(Mark::OpenBrace))?;
    second(block(stack, room - 1, free, rest))
}

/// A statement, where `free` more names may be declared.
#[cycle(blocks)]
fn statement<'t>(
    stack: &mut ExprStack,
    room: u32,
    free: usize,
    lexemes: Cursor<'t>,
) -> Result<ReadStmt<'t>, ParseError>
    requires { room ≤ 32 }
    ensures { Gives (λ x. (stmt_tree x.0, x.1, views x.2)) result (statement_at room free (views lexemes.entry)) }
{
    let Some((head, rest)) = nested_head(stack, room, lexemes)? else {
        return simple(stack, room, free, lexemes);
    };
    let branches = branches(stack, room, free, takes_other(&head), rest);
    nested(lexemes.line(), head, branches)
}

/// Statements up to the closing brace, where `names` more names may be declared.
#[cycle(blocks)]
pub fn block<'t>(
    stack: &mut ExprStack,
    room: u32,
    names: usize,
    lexemes: Cursor<'t>,
) -> Result<ReadBlock<'t>, ParseError>
    requires { room ≤ 32 }
    ensures { Gives (λ x. (block_tree x.0, x.1, views x.2)) result (block_at room names (views lexemes.entry)) }
{
    // Many blocks have one statement.
    let mut statements = Vec::with_capacity(stack.alloc(), 1)?;
    let mut rest = lexemes;
    let mut free = names;
    let mut returned = false;
    'statements: while !rest.starts_with(Fixed::Mark(Mark::CloseBrace)) {
        if returned {
            return Err(rest.missing(Fixed::Mark(Mark::CloseBrace)));
        }
        let (stmt, left, after) = statement(stack, room, free, rest)?;
        returned = is_return(&stmt);
        free = left;
        statements.push(stmt)?;
        rest = after;
    }
    // The tree keeps memory for its statements alone, where the allocator can take back the rest.
    statements.shrink_to_fit();
    let end_line = rest.line();
    let block = Block {
        statements,
        end_line,
    };
    Ok((block, free, rest.skip()))
}
