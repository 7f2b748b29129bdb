//! Statements and blocks.

use crate::call::{Call, RightSide, Test};
use crate::declared_type::DeclaredType;
use crate::expr::Expr;
use crate::name::Name;
use base::ElementType;

/// Statements in braces.
#[cycle(statements)]
#[derive(Drop)]
pub struct Block {
    pub statements: Vec<Stmt>,
    /// The line of the closing brace, counted from 1.
    pub end_line: usize,
}

/// A statement (ISO/IEC 9899:1999, 6.8).
#[cycle(statements)]
#[derive(Drop)]
pub struct Stmt {
    /// The line of its first token, counted from 1.
    pub line: usize,
    pub form: Form,
}

/// What a statement does.
#[cycle(statements)]
#[derive(Drop)]
pub enum Form {
    Plain(PlainStmt),
    /// `if (e) { .. }` or `if (e) { .. } else { .. }`
    If(Test, Block, Else),
    /// `while (e) { .. }`
    While(Expr, Block),
    /// `return;` or `return e;`
    Return(Option<Expr>),
}

/// The second block of an `if`, where it has one.
#[cycle(statements)]
#[derive(Drop)]
pub enum Else {
    Nothing,
    Block(Block),
}

/// What a statement does after which the next one comes: it has no block and doesn't return.
#[derive(Drop)]
pub enum PlainStmt {
    /// `jint x = e;`
    Declare(DeclaredType, Name, RightSide),
    /// `jint x[n] = {0};`
    DeclareArray(ElementType, Name, u32),
    /// `x = e;`
    Assign(Name, RightSide),
    /// `x[i] = e;`
    AssignElement(Name, Expr, Expr),
    /// A call whose result, if it has one, is dropped.
    Perform(Call),
    /// `put_jint(e);`
    PutJint(Expr),
}
