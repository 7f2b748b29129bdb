//! Tasks: statements that are begun.

ghost use Rattle.std.specs.Prelude.{◌≡◌, IfOk, IsTrue, None, Some};
ghost use Rattle.syntax.specs.Views.{stmt_tree, expr_tree, right_side_tree, test_tree, plain_tree, block_tree};
ghost use Rattle.syntax.specs.Shapes.{ref_tree};
ghost use Rattle.syntax.specs.Tree.{Plain};
ghost use Rattle.semantics.specs.Task.{Loop, Print, ReturnValue, SetElement, set_task, right_side_task, if_task, plain_task, task_of};
ghost use Rattle.semantics.specs.Term.{term_of};
ghost use Rattle.replay_tasks.specs.Outcomes.{IsNamed, else_tree, target_name, target_view};
ghost use Rattle.replay_tasks.specs.Tasks.{ExprInRange, RightSideInRange, TestInRange, BlockInRange, ElseInRange, StatementInRange, has_numbers_in_range, calls_known, Begins, BegunInRange};

use crate::call::call_task;
use crate::outcome::{Purpose, Target, kind_of};
use jni::JniFunction;
use replay_terms::{Operands, Term, term_of};
use semantics::VariableKind;
use std::alloc::{AllocError, Global};
use syntax::{
    Block, Constant, ElementType, Else, Expr, ExprRef, Form, Name, PlainStmt, RightSide, Shape,
    Stmt, Test,
};

/// A call that is to do.
#[derive(Drop)]
pub struct Invocation<'a> {
    pub line: usize,
    pub purpose: Purpose<'a>,
    pub function: JniFunction,
    /// The arguments after `env`.
    pub operands: Operands<'a>,
}

/// An `if`, with its test's term and its two branches.
#[derive(Drop)]
pub struct Choice<'a> {
    pub line: usize,
    pub test: Term<'a>,
    pub block: &'a Block,
    pub otherwise: Option<&'a Block>,
}

/// An expression whose value is printed or returned.
#[derive(Drop)]
pub struct Evaluation<'a> {
    pub line: usize,
    pub term: Term<'a>,
}

/// A value for a variable.
#[derive(Drop)]
pub struct Assignment<'a> {
    pub line: usize,
    pub name: &'a Name,
    pub term: Term<'a>,
}

/// A loop, with its test, the test's term, and the body.
#[derive(Drop)]
pub struct Iteration<'a> {
    pub line: usize,
    pub test: &'a Expr,
    pub term: Term<'a>,
    pub body: &'a Block,
}

/// A number for an element of an array, after the element's index.
#[derive(Drop)]
pub struct ElementAssignment<'a> {
    pub line: usize,
    pub name: &'a Name,
    pub index: Term<'a>,
    pub number: Term<'a>,
}

/// A statement still to do, with its line.
pub enum Task<'a> {
    Print(Evaluation<'a>),
    Set(Assignment<'a>),
    SetElement(ElementAssignment<'a>),
    SetNull(Target<'a>),
    MakeArray(ElementType, &'a Name, u32),
    Invoke(Invocation<'a>),
    Branch(Choice<'a>),
    Loop(Iteration<'a>),
    Return,
    ReturnValue(Evaluation<'a>),
}

impl Drop for Task<'_> {
    #[inline(always)]
    fn drop(self) {
        match self {
            Task::Print(Evaluation { line: _, term }) => drop_over(term),
            Task::ReturnValue(Evaluation { line: _, term }) => drop_over(term),
            Task::Set(
                Assignment {
                    line: _,
                    name: _,
                    term,
                },
            ) => drop_over(term),
            Task::SetElement(a) => drop(a),
            Task::Invoke(
                Invocation {
                    line: _,
                    purpose: _,
                    function: _,
                    operands,
                },
            ) => drop_operands(operands),
            Task::Branch(
                Choice {
                    line: _,
                    test,
                    block: _,
                    otherwise: _,
                },
            ) => drop_over(test),
            Task::Loop(
                Iteration {
                    line: _,
                    test: _,
                    term,
                    body: _,
                },
            ) => drop_over(term),
            Task::SetNull(_) | Task::MakeArray(_, _, _) | Task::Return => {}
        }
    }
}

/// Ends the task that is begun, so that none is. Most tasks own nothing when they are over: in an arm of one of these there is nothing to drop.
#[inline(never)]
pub fn end_task(place: &mut Option<Task<'_>>)
    ensures { place.new ≡ None }
{
    match place {
        None => {}
        Some(
            Task::Invoke(
                Invocation {
                    operands: Operands::Given(_),
                    ..
                },
            ),
        ) => *place = None,
        Some(
            Task::Invoke(
                Invocation {
                    operands: Operands::Last(_, Term::Done(_)),
                    ..
                },
            ),
        ) => *place = None,
        Some(
            Task::Set(
                Assignment {
                    term: Term::Done(_),
                    ..
                },
            ),
        ) => *place = None,
        Some(
            Task::Loop(
                Iteration {
                    term: Term::Done(_),
                    ..
                },
            ),
        ) => *place = None,
        Some(_) => end_owner(place),
    }
}

/// The same of any task.
#[inline(never)]
fn end_owner(place: &mut Option<Task<'_>>)
    ensures { place.new ≡ None }
{
    *place = None;
}

/// Puts a task where none is begun.
#[inline(always)]
pub(crate) fn put_task<'a>(place: &mut Option<Task<'a>>, task: Task<'a>)
    requires { place.old ≡ None }
    ensures { place.new ≡ Some task.entry }
{
    match place {
        None => *place = Some(task),
        Some(_) => unreachable!(),
    }
}

/// Drops a term, which most often is a value.
#[inline(always)]
fn drop_over(term: Term<'_>) {
    match term {
        Term::Done(_) => {}
        term => drop(term),
    }
}

/// Drops the operands of a call, of which most often none owns anything.
#[inline(always)]
fn drop_operands(operands: Operands<'_>) {
    match operands {
        Operands::Given(_) => {}
        Operands::Last(_, term) => drop_over(term),
        Operands::Listed(operands) => drop(operands),
    }
}

/// Begins to give a variable the value of an expression.
#[inline(never)]
fn value_task<'a>(
    alloc: Global,
    place: &mut Option<Task<'a>>,
    line: usize,
    target: Target<'a>,
    e: ExprRef<'a>,
) -> Result<(), AllocError>
    requires none { place.old ≡ None }
    requires named { IsNamed target }
    requires numbers { ExprInRange (ref_tree e) }
    ensures view { IfOk result (λ _. Begins (set_task line (target_view target.entry) (target_name target.entry)
        (ref_tree e.entry)) place.new) }
    ensures range { IfOk result (λ _. BegunInRange place.new) }
{
    if let Shape::Named(Constant::Null) = e.shape() {
        put_task(place, Task::SetNull(target));
        return Ok(());
    }
    let name = target.name();
    let term = term_of(alloc, e)?;
    put_task(place, Task::Set(Assignment { line, name, term }));
    Ok(())
}

/// Begins to set a variable.
#[inline(always)]
fn set_task<'a>(
    alloc: Global,
    place: &mut Option<Task<'a>>,
    line: usize,
    target: Target<'a>,
    right: &'a RightSide,
) -> Result<(), AllocError>
    requires none { place.old ≡ None }
    requires named { IsNamed target }
    requires numbers { RightSideInRange (right_side_tree right.now) }
    ensures view { IfOk result (λ _. Begins (right_side_task line (target_view target.entry) (target_name target.entry)
        (right_side_tree right.entry.now)) place.new) }
    ensures range { IfOk result (λ _. BegunInRange place.new) }
{
    match right {
        RightSide::Expr(e) => value_task(alloc, place, line, target, e.whole()),
        RightSide::Call(call) => call_task(alloc, place, line, Purpose::Put(target), call),
    }
}

/// A test, and the block that is done where it holds.
#[derive(Clone, Copy)]
pub(crate) struct Conditional<'a> {
    test: &'a Test,
    block: &'a Block,
}

/// Begins an `if`.
fn if_task<'a>(
    alloc: Global,
    place: &mut Option<Task<'a>>,
    line: usize,
    conditional: Conditional<'a>,
    otherwise: Option<&'a Block>,
) -> Result<(), AllocError>
    requires none { place.old ≡ None }
    requires test { TestInRange (test_tree conditional.test.now) }
    requires block { BlockInRange (block_tree conditional.block.now) }
    requires otherwise { ElseInRange otherwise }
    ensures view { IfOk result (λ _. Begins (if_task line (test_tree conditional.entry.test.now)
        (block_tree conditional.entry.block.now) (else_tree line otherwise.entry)) place.new) }
    ensures range { IfOk result (λ _. BegunInRange place.new) }
{
    let Conditional { test, block } = conditional;
    match test {
        Test::Expr(e) => {
            let test = term_of(alloc, e.whole())?;
            put_task(
                place,
                Task::Branch(Choice {
                    line,
                    test,
                    block,
                    otherwise,
                }),
            );
            Ok(())
        }
        Test::Call(call) => { call_task(alloc, place, line, Purpose::Test(block, otherwise), call) }
    }
}

/// An element that a statement sets.
#[derive(Clone, Copy)]
pub(crate) struct Element<'a> {
    /// The name of its array.
    name: &'a Name,
    index: &'a Expr,
}

/// Begins to set an element.
#[inline(never)]
fn element_task<'a>(
    alloc: Global,
    place: &mut Option<Task<'a>>,
    line: usize,
    element: Element<'a>,
    e: &'a Expr,
) -> Result<(), AllocError>
    requires none { place.old ≡ None }
    requires index { ExprInRange (expr_tree element.index.now) }
    requires number { ExprInRange (expr_tree e.now) }
    ensures view { IfOk result (λ _. Begins (SetElement line element.entry.name.now (term_of (expr_tree element.entry.index.now))
        (term_of (expr_tree e.entry.now))) place.new) }
    ensures range { IfOk result (λ _. BegunInRange place.new) }
{
    let Element { name, index } = element;
    let index = term_of(alloc, index.whole())?;
    let number = term_of(alloc, e.whole())?;
    put_task(
        place,
        Task::SetElement(ElementAssignment {
            line,
            name,
            index,
            number,
        }),
    );
    Ok(())
}

/// Begins to print a number.
fn print_task<'a>(
    alloc: Global,
    place: &mut Option<Task<'a>>,
    line: usize,
    e: &'a Expr,
) -> Result<(), AllocError>
    requires none { place.old ≡ None }
    requires numbers { ExprInRange (expr_tree e.now) }
    ensures view { IfOk result (λ _. Begins (Print line (term_of (expr_tree e.entry.now))) place.new) }
    ensures range { IfOk result (λ _. BegunInRange place.new) }
{
    let term = term_of(alloc, e.whole())?;
    put_task(place, Task::Print(Evaluation { line, term }));
    Ok(())
}

/// Begins a loop, or its next turn, in the place of the task that is begun.
pub fn loop_task<'a>(
    alloc: Global,
    place: &mut Option<Task<'a>>,
    line: usize,
    test: &'a Expr,
    body: &'a Block,
) -> Result<(), AllocError>
    requires test { ExprInRange (expr_tree test.now) }
    requires body { BlockInRange (block_tree body.now) }
    ensures view { IfOk result (λ _. Begins (Loop line (expr_tree test.entry.now) (term_of (expr_tree test.entry.now)) (block_tree body.entry.now)) place.new) }
    ensures range { IfOk result (λ _. BegunInRange place.new) }
{
    end_task(place);
    begin_loop(alloc, place, line, test, body)
}

/// The same where none is begun.
fn begin_loop<'a>(
    alloc: Global,
    place: &mut Option<Task<'a>>,
    line: usize,
    test: &'a Expr,
    body: &'a Block,
) -> Result<(), AllocError>
    requires none { place.old ≡ None }
    requires test { ExprInRange (expr_tree test.now) }
    requires body { BlockInRange (block_tree body.now) }
    ensures view { IfOk result (λ _. Begins (Loop line (expr_tree test.entry.now) (term_of (expr_tree test.entry.now)) (block_tree body.entry.now)) place.new) }
    ensures range { IfOk result (λ _. BegunInRange place.new) }
{
    let term = term_of(alloc, test.whole())?;
    put_task(
        place,
        Task::Loop(Iteration {
            line,
            test,
            term,
            body,
        }),
    );
    Ok(())
}

/// Begins to return a value.
fn return_task<'a>(
    alloc: Global,
    place: &mut Option<Task<'a>>,
    line: usize,
    e: &'a Expr,
) -> Result<(), AllocError>
    requires none { place.old ≡ None }
    requires numbers { ExprInRange (expr_tree e.now) }
    ensures view { IfOk result (λ _. Begins (ReturnValue line (term_of (expr_tree e.entry.now))) place.new) }
    ensures range { IfOk result (λ _. BegunInRange place.new) }
{
    let term = term_of(alloc, e.whole())?;
    put_task(place, Task::ReturnValue(Evaluation { line, term }));
    Ok(())
}

/// Begins a statement, in the place of the task that is begun. With the task handed on by its place, it is moved once.
pub fn task_of<'a>(
    alloc: Global,
    place: &mut Option<Task<'a>>,
    s: &'a Stmt,
) -> Result<(), AllocError>
    requires { StatementInRange s.now }
    ensures view { IfOk result (λ _. Begins (task_of (stmt_tree s.entry.now)) place.new) }
    ensures range { IfOk result (λ _. BegunInRange place.new) }
{
    end_task(place);
    let line = s.line;
    match &s.form {
        Form::Plain(plain) => plain_task(alloc, place, line, plain),
        Form::If(test, block, other) => match other {
            Else::Nothing => if_task(alloc, place, line, Conditional { test, block }, None),
            Else::Block(other) => {
                if_task(alloc, place, line, Conditional { test, block }, Some(other))
            }
        },
        Form::While(test, body) => begin_loop(alloc, place, line, test, body),
        Form::Return(None) => {
            put_task(place, Task::Return);
            Ok(())
        }
        Form::Return(Some(e)) => return_task(alloc, place, line, e),
    }
}

/// Begins a plain statement.
fn plain_task<'a>(
    alloc: Global,
    place: &mut Option<Task<'a>>,
    line: usize,
    plain: &'a PlainStmt,
) -> Result<(), AllocError>
    requires none { place.old ≡ None }
    requires numbers { IsTrue (has_numbers_in_range (Plain line (plain_tree plain.now))) }
    requires known { IsTrue (calls_known (Plain line (plain_tree plain.now))) }
    ensures view { IfOk result (λ _. Begins (plain_task line (plain_tree plain.entry.now)) place.new) }
    ensures range { IfOk result (λ _. BegunInRange place.new) }
{
    match plain {
        PlainStmt::Declare(t, x, right) => {
            let target = Target::Declared(kind_of(*t), x);
            set_task(alloc, place, line, target, right)
        }
        PlainStmt::DeclareArray(t, x, size) => {
            put_task(place, Task::MakeArray(*t, x, *size));
            Ok(())
        }
        PlainStmt::Assign(x, right) => set_task(alloc, place, line, Target::Assigned(x), right),
        PlainStmt::AssignElement(x, i, e) => {
            element_task(alloc, place, line, Element { name: x, index: i }, e)
        }
        PlainStmt::Perform(call) => {
            call_task(alloc, place, line, Purpose::Put(Target::Dropped), call)
        }
        PlainStmt::PutJint(e) => print_task(alloc, place, line, e),
    }
}
