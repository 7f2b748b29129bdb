//! The code of statements and blocks.

ghost use Rattle.std.specs.Prelude.{◌≡◌, ◌+◌, ◌-◌, ◌<◌, ◌≤◌, [], ◌∷◌, ◌++◌, slice_set, vec_len, map, IfOk, OnOk, IsTrue};
ghost use Rattle.base.specs.Bytes.{lookup};
ghost use Rattle.syntax.specs.Shapes.{ref_tree};
ghost use Rattle.syntax.specs.Views.{argument_tree, call_tree, right_side_tree, test_tree, plain_tree, form_tree, else_tree, block_tree};
ghost use Rattle.jni.specs.JniFunction.{function_named};
ghost use Rattle.semantics.specs.Arguments.{mode_of};
ghost use Rattle.semantics.specs.Term.{term_of};
ghost use Rattle.code_meaning.specs.Layout.{closed, plain_layout, layout_after, else_layout, block_layout, with_name};
ghost use Rattle.code_meaning.specs.Arguments.{paired};
ghost use Rattle.code_meaning.specs.Coding.{mode_code, operand_code, passed_code, passed_rest, number_code, argument_code, arguments_code, arguments_texts, variable_operand, result_target, named_call_code, right_code, assign_code, write_code, of_slot, return_code, returned_code, test_code, first_code, loop_code, expr_code, plain_code, stmt_code, else_code, block_code};
ghost use Rattle.lower_statements.specs.Emitting.{Emits};
ghost use Rattle.lower_statements.specs.Names.{slot_view};

use crate::emitting::{counted, emit, replace};
use crate::names::{Names, Slot};
use crate::terms::{emit_expr, nullable};
use code::instr;
use code::instr::{BoxedCall, Instr, LocalArray, Operand, ReferenceOperand, ReleaseMode, Target};
use code_meaning::Parameters;
use jni::{JniFunction, ParameterKind, function_named};
use std::alloc::{AllocError, Global};
use syntax::{
    Argument, Block, Call, Constant, ElementType, Else, ExprRef, Form, Name, PlainStmt, RightSide,
    Shape, Test,
};
use type_rules::{ExprType, declared_type};

/// A statement on this line, with the names that are known after it.
#[cycle(statements)]
pub fn emit_form<'a>(
    code: &mut Vec<Instr>,
    names: &mut Names<'a>,
    line: u32,
    form: &'a Form,
) -> Result<(), AllocError>
    ensures code { Emits result code.old.items code.new.items (stmt_code names.old (form_tree line form.now)) }
    ensures names { OnOk result (names.new ≡ layout_after names.old (form_tree line form.now)) }
{
    match form {
        Form::Plain(plain) => emit_plain(code, names, line, plain),
        Form::If(test, first, other) => {
            let end = emit_first(code, names, line, test, first)?;
            emit_else(code, names, other)?;
            emit_end(code, end)
        }
        Form::While(test, body) => emit_loop(code, names, line, body, test.whole()),
        Form::Return(None) => emit(code, Instr::Return),
        Form::Return(Some(value)) => emit_return(code, names, line, value.whole()),
    }
}

/// A plain statement.
fn emit_plain<'a>(
    code: &mut Vec<Instr>,
    names: &mut Names<'a>,
    line: u32,
    plain: &'a PlainStmt,
) -> Result<(), AllocError>
    ensures code { Emits result code.old.items code.new.items (plain_code names.old line (plain_tree plain.now)) }
    ensures names { OnOk result (names.new ≡ plain_layout names.old (plain_tree plain.now)) }
{
    match plain {
        PlainStmt::Declare(kind, name, right) => {
            let ty = declared_type(*kind);
            emit_right(code, names, line, names.new_slot(ty), right)?;
            names.declare(name, ty)
        }
        PlainStmt::DeclareArray(element, name, size) => {
            emit_array(code, names, name, *element, *size)
        }
        PlainStmt::Assign(name, right) => emit_assignment(code, names, line, name, right),
        PlainStmt::AssignElement(name, index, value) => {
            emit_expr(code, names, line, index.whole())?;
            emit_expr(code, names, line, value.whole())?;
            emit_write(code, names, line, name)
        }
        PlainStmt::Perform(call) => emit_call(code, names, line, Target::Dropped, call),
        PlainStmt::PutJint(number) => emit_print(code, names, line, number.whole()),
    }
}

/// The second block of an `if`, where it has one.
#[cycle(statements)]
fn emit_else<'a>(
    code: &mut Vec<Instr>,
    names: &mut Names<'a>,
    other: &'a Else,
) -> Result<(), AllocError>
    ensures code { Emits result code.old.items code.new.items (else_code names.old (else_tree other.now)) }
    ensures names { OnOk result (names.new ≡ closed names.old (else_layout names.old (else_tree other.now))) }
{
    match other {
        Else::Nothing => Ok(()),
        Else::Block(block) => emit_block(code, names, block),
    }
}

/// The statements of a block, whose names are forgotten after it.
#[cycle(statements)]
pub fn emit_block<'a>(
    code: &mut Vec<Instr>,
    names: &mut Names<'a>,
    block: &'a Block,
) -> Result<(), AllocError>
    ensures code { OnOk result (code.new.items ≡ code.old.items ++ block_code names.old (block_tree block.now)) }
    ensures names { OnOk result (names.new ≡ closed names.old (block_layout names.old (block_tree block.now))) }
{
    let outside = names.len();
    for stmt in &block.statements {
        emit_form(code, names, counted(stmt.line)?, &stmt.form)?;
    }
    names.leave(outside);
    Ok(())
}

/// An `if` up to the end of its first branch. It answers the place of the jump there, which is not known yet.
#[cycle(statements)]
fn emit_first<'a>(
    code: &mut Vec<Instr>,
    names: &mut Names<'a>,
    line: u32,
    test: &Test,
    first: &'a Block,
) -> Result<usize, AllocError>
    ensures end { IfOk result (λ end. end + 1 ≡ vec_len code.new) }
    ensures code { Emits result code.old.items code.new.items
        (first_code (test_code names.old.known line (test_tree test.now))
        (block_code names.old (block_tree first.now))) }
    ensures names { OnOk result (names.new ≡ closed names.old (block_layout names.old (block_tree first.now))) }
{
    emit_test(code, names, line, test)?;
    let jump = code.len();
    emit(code, Instr::JumpIfFalse(0))?;
    emit_block(code, names, first)?;
    close_first(code, jump)
}

/// The end of an `if`'s first branch: a jump, and how far that after the test leads. It answers the place of the former, which is
/// not known yet.
fn close_first(code: &mut Vec<Instr>, jump: usize) -> Result<usize, AllocError>
    requires { jump < vec_len code.old }
    ensures end { IfOk result (λ end. end + 1 ≡ vec_len code.new) }
    ensures code { OnOk result (code.new.items ≡ slice_set (code.old.items ++ Instr.Jump 0 ∷ []) jump (Instr.JumpIfFalse (vec_len code.old - jump))) }
{
    let end = code.len();
    let skipped = counted(end - jump)?;
    emit(code, Instr::Jump(0))?;
    replace(code, jump, Instr::JumpIfFalse(skipped));
    Ok(end)
}

/// The end of an `if`: the jump after its second branch, and how far that after its first one leads.
fn emit_end(code: &mut Vec<Instr>, end: usize) -> Result<(), AllocError>
    requires { end < vec_len code.old }
    ensures { OnOk result (code.new.items ≡ slice_set (code.old.items ++ Instr.Jump 0 ∷ []) end (Instr.Jump (vec_len code.old - end))) }
{
    let skipped = counted(code.len() - end)?;
    emit(code, Instr::Jump(0))?;
    replace(code, end, Instr::Jump(skipped));
    Ok(())
}

/// A loop: its test, its body, and the path back to the test.
#[cycle(statements)]
fn emit_loop<'a>(
    code: &mut Vec<Instr>,
    names: &mut Names<'a>,
    line: u32,
    body: &'a Block,
    test: ExprRef<'_>,
) -> Result<(), AllocError>
    ensures code { Emits result code.old.items code.new.items
        (loop_code (expr_code names.old.known line (ref_tree test.entry))
        (block_code names.old (block_tree body.now))) }
    ensures names { OnOk result (names.new ≡ closed names.old (block_layout names.old (block_tree body.now))) }
{
    let start = code.len();
    emit_expr(code, names, line, test)?;
    let jump = code.len();
    emit(code, Instr::JumpIfFalse(0))?;
    emit_block(code, names, body)?;
    close_turn(code, start, jump)
}

/// The end of a loop's turn: the jump back to the test, and how far that after the test leads.
fn close_turn(code: &mut Vec<Instr>, start: usize, jump: usize) -> Result<(), AllocError>
    requires begun { start ≤ jump }
    requires inside { jump < vec_len code.old }
    ensures { OnOk result (code.new.items ≡ slice_set (code.old.items
        ++ Instr.JumpBack (vec_len code.old - start) ∷ []) jump (Instr.JumpIfFalse (vec_len code.old - jump))) }
{
    let end = code.len();
    let back = counted(end - start)?;
    let skipped = counted(end - jump)?;
    emit(code, Instr::JumpBack(back))?;
    replace(code, jump, Instr::JumpIfFalse(skipped));
    Ok(())
}

/// A test, whose truth is on the stack then.
fn emit_test(
    code: &mut Vec<Instr>,
    names: &Names<'_>,
    line: u32,
    test: &Test,
) -> Result<(), AllocError>
    ensures { Emits result code.old.items code.new.items (test_code names.now.known line (test_tree test.now)) }
{
    match test {
        Test::Expr(expr) => emit_expr(code, names, line, expr.whole()),
        Test::Call(call) => emit_call(code, names, line, Target::Test, call),
    }
}

/// A new array of `len` zeros.
fn emit_array<'a>(
    code: &mut Vec<Instr>,
    names: &mut Names<'a>,
    name: &'a Name,
    element: ElementType,
    len: u32,
) -> Result<(), AllocError>
    ensures code { Emits result code.old.items code.new.items (Instr.ClearArray (record { start = names.old.slots.numbers; len = len }) ∷ []) }
    ensures names { OnOk result (names.new ≡ with_name name.now (ExprType.Array element len) names.old) }
{
    let start = names.slots().numbers;
    emit(code, Instr::ClearArray(LocalArray { start, len }))?;
    names.declare(name, ExprType::Array(element, len))
}

/// What a known variable is set to.
fn emit_assignment(
    code: &mut Vec<Instr>,
    names: &Names<'_>,
    line: u32,
    name: &Name,
    right: &RightSide,
) -> Result<(), AllocError>
    ensures { Emits result code.old.items code.new.items (assign_code names.now.known line (lookup name.now names.now.known) (right_side_tree right.now)) }
{
    match names.slot_of(name) {
        Some(slot) => emit_right(code, names, line, slot, right),
        None => Ok(()),
    }
}

/// A right side, whose value goes into this slot.
fn emit_right(
    code: &mut Vec<Instr>,
    names: &Names<'_>,
    line: u32,
    slot: Slot,
    right: &RightSide,
) -> Result<(), AllocError>
    ensures { Emits result code.old.items code.new.items (right_code names.now.known line (slot_view slot) (right_side_tree right.now)) }
{
    match right {
        RightSide::Expr(value) => match value.whole().shape() {
            Shape::Named(Constant::Null) => match nullable(slot) {
                Some(variable) => emit(code, Instr::StoreNull(variable)),
                None => Ok(()),
            },
            _ => {
                emit_expr(code, names, line, value.whole())?;
                emit(code, Instr::Store(slot.index))
            }
        },
        RightSide::Call(call) => emit_call(code, names, line, result_target(slot), call),
    }
}

/// Where a call's result for the variable of a slot goes.
#[tactic(auto, using(code_meaning::proofs::ElementWords::element_same))]
fn result_target(slot: Slot) -> Target
    ensures { result ≡ result_target slot.ty slot.index }
{
    match slot.ty {
        ExprType::Ref => Target::Local(slot.index),
        ExprType::Global | ExprType::Weak => Target::Static(slot.index),
        ExprType::FieldId => Target::FieldId(slot.index),
        ExprType::MethodId => Target::MethodId(slot.index),
        ExprType::Buffer(element, _) => Target::Buffer(element, slot.index),
        _ => Target::Number(slot.index),
    }
}

/// A number that is printed.
fn emit_print(
    code: &mut Vec<Instr>,
    names: &Names<'_>,
    line: u32,
    number: ExprRef<'_>,
) -> Result<(), AllocError>
    ensures { Emits result code.old.items code.new.items (expr_code names.now.known line (ref_tree number.entry) ++ Instr.PutJint ∷ []) }
{
    emit_expr(code, names, line, number)?;
    emit(code, Instr::PutJint)
}

/// An element of a named array or buffer, after its index and its value.
#[tactic(auto, using(code_meaning::proofs::ElementWords::element_same))]
fn emit_write(
    code: &mut Vec<Instr>,
    names: &Names<'_>,
    line: u32,
    name: &Name,
) -> Result<(), AllocError>
    ensures { Emits result code.old.items code.new.items (of_slot (write_code line) (lookup name.now names.now.known)) }
{
    match names.slot_of(name) {
        Some(
            Slot {
                ty: ExprType::Array(element, len),
                index,
            },
        ) => {
            let array = LocalArray { start: index, len };
            emit(code, Instr::StoreElement(element, array, line))
        }
        Some(
            Slot {
                ty: ExprType::Buffer(element, _),
                index,
            },
        ) => emit(
            code,
            Instr::StoreBuffer {
                element,
                slot: index,
                line,
            },
        ),
        _ => Ok(()),
    }
}

/// A call, whose result goes there; none of a function that isn't known.
fn emit_call(
    code: &mut Vec<Instr>,
    names: &Names<'_>,
    line: u32,
    target: Target,
    call: &Call,
) -> Result<(), AllocError>
    ensures { Emits result code.old.items code.new.items
        (named_call_code names.now.known line target (function_named (call_tree call.now).function)
        (call_tree call.now).arguments) }
{
    let Some(function) = function_named(call.function.as_bytes()) else {
        return Ok(());
    };
    let parameters = Parameters::of(function);
    emit_arguments(code, names, line, parameters, &call.arguments)?;
    let alloc = *code.allocator();
    let operands = operands_of(alloc, names, parameters, &call.arguments)?;
    let texts = texts_of(alloc, &call.arguments)?;
    let made = instr::Call::new(line, target, function, operands, texts);
    emit(code, Instr::Call(BoxedCall::of(alloc, made)?))
}

/// The arguments that are worked out before a call, in order.
fn emit_arguments(
    code: &mut Vec<Instr>,
    names: &Names<'_>,
    line: u32,
    parameters: Parameters,
    arguments: &[Argument],
) -> Result<(), AllocError>
    ensures { Emits result code.old.items code.new.items
        (arguments_code names.now.known line (paired parameters (map argument_tree arguments.now))) }
{
    match arguments {
        [] => Ok(()),
        [argument, arguments @ ..] => match parameters.first() {
            Some((parameter, parameters)) => {
                emit_argument(code, names, line, parameter, argument)?;
                emit_arguments(code, names, line, parameters, arguments)
            }
            None => Ok(()),
        },
    }
}

/// An argument, where it is worked out before the call.
fn emit_argument(
    code: &mut Vec<Instr>,
    names: &Names<'_>,
    line: u32,
    parameter: ParameterKind,
    argument: &Argument,
) -> Result<(), AllocError>
    ensures { Emits result code.old.items code.new.items (argument_code names.now.known line (parameter, argument_tree argument.now)) }
{
    match (parameter, argument) {
        (ParameterKind::IntNumber, Argument::Value(number)) => {
            emit_expr(code, names, line, number.whole())
        }
        (ParameterKind::Passed, Argument::Value(given)) => {
            emit_passed(code, names, line, given.whole())
        }
        _ => Ok(()),
    }
}

/// What a method is given, where it is a number.
fn emit_passed(
    code: &mut Vec<Instr>,
    names: &Names<'_>,
    line: u32,
    given: ExprRef<'_>,
) -> Result<(), AllocError>
    ensures { Emits result code.old.items code.new.items (passed_rest names.now.known line (ref_tree given.entry)) }
{
    match given.shape() {
        Shape::Named(Constant::Null) => Ok(()),
        Shape::Variable(name) => emit_number(code, names, name),
        _ => emit_expr(code, names, line, given),
    }
}

/// A variable's value, where it is a `jint`.
fn emit_number(code: &mut Vec<Instr>, names: &Names<'_>, name: &Name) -> Result<(), AllocError>
    ensures { Emits result code.old.items code.new.items (of_slot number_code (lookup name.now names.now.known)) }
{
    match names.slot_of(name) {
        Some(
            Slot {
                ty: ExprType::Jint,
                index,
            },
        ) => emit(code, Instr::Load(index)),
        _ => Ok(()),
    }
}

/// Where the arguments of a call are found, in order.
fn push_operands(
    operands: &mut Vec<Operand>,
    names: &Names<'_>,
    parameters: Parameters,
    arguments: &[Argument],
) -> Result<(), AllocError>
    ensures { OnOk result (operands.new.items ≡ operands.old.items
        ++ map (operand_code names.now.known) (paired parameters (map argument_tree arguments.now))) }
{
    match arguments {
        [] => Ok(()),
        [argument, arguments @ ..] => match parameters.first() {
            Some((parameter, parameters)) => {
                operands.push(operand_of(names, parameter, argument))?;
                push_operands(operands, names, parameters, arguments)
            }
            None => Ok(()),
        },
    }
}

/// The operands of a call, in order.
fn operands_of(
    alloc: Global,
    names: &Names<'_>,
    parameters: Parameters,
    arguments: &[Argument],
) -> Result<Vec<Operand>, AllocError>
    ensures { IfOk result (λ operands. operands.items
        ≡ map (operand_code names.now.known) (paired parameters (map argument_tree arguments.now))) }
{
    let mut operands = Vec::new(alloc);
    push_operands(&mut operands, names, parameters, arguments)?;
    Ok(operands)
}

/// Where an argument is found.
fn operand_of(names: &Names<'_>, parameter: ParameterKind, argument: &Argument) -> Operand
    ensures { result ≡ operand_code names.now.known (parameter, argument_tree argument.now) }
{
    match (parameter, argument) {
        (ParameterKind::IntNumber, Argument::Value(_)) => Operand::Number,
        (ParameterKind::Passed, Argument::Value(given)) => passed_operand(names, given.whole()),
        (ParameterKind::Mode, Argument::Value(mode)) => Operand::Mode(release_mode(mode.whole())),
        (_, Argument::Value(given)) => match given.whole().shape() {
            Shape::Variable(name) => match names.slot_of(name) {
                Some(Slot { ty, index }) => variable_operand(ty, index),
                None => Operand::Null,
            },
            _ => Operand::Null,
        },
        (_, Argument::Text(_)) => Operand::Text,
        (_, Argument::AddressOf(name)) => match names.slot_of(name) {
            Some(Slot { ty: _, index }) => Operand::IsCopy(index),
            None => Operand::Null,
        },
    }
}

/// Where what a method is given is found.
fn passed_operand(names: &Names<'_>, given: ExprRef<'_>) -> Operand
    ensures { result ≡ passed_code names.now.known (ref_tree given.entry) }
{
    match given.shape() {
        Shape::Named(Constant::Null) => Operand::Null,
        Shape::Variable(name) => match names.slot_of(name) {
            Some(
                Slot {
                    ty: ExprType::Jint,
                    index: _,
                },
            ) => Operand::Number,
            Some(Slot { ty, index }) => variable_operand(ty, index),
            None => Operand::Null,
        },
        _ => Operand::Number,
    }
}

/// The mode that stands for `JNI_COMMIT`, `JNI_ABORT` or 0.
fn release_mode(mode: ExprRef<'_>) -> ReleaseMode
    ensures { result ≡ mode_code (mode_of (ref_tree mode.entry)) }
{
    match mode.shape() {
        Shape::Named(Constant::Commit) => ReleaseMode::CopyBack,
        Shape::Named(Constant::Abort) => ReleaseMode::FreeUncopied,
        _ => ReleaseMode::CopyBackAndFree,
    }
}

/// A variable that isn't a number.
fn variable_operand(ty: ExprType, index: u32) -> Operand
    ensures { result ≡ variable_operand ty index }
{
    match ty {
        ExprType::Ref => Operand::Local(index),
        ExprType::Global | ExprType::Weak => Operand::Static(index),
        ExprType::FieldId => Operand::FieldId(index),
        ExprType::MethodId => Operand::MethodId(index),
        ExprType::Array(_, len) => Operand::Array(LocalArray { start: index, len }),
        ExprType::Buffer(..) => Operand::Buffer(index),
        _ => Operand::Null,
    }
}

/// Copies of the texts among the arguments of a call, in order.
fn push_texts(texts: &mut Vec<Vec<u8>>, arguments: &[Argument]) -> Result<(), AllocError>
    ensures { OnOk result (map (λ text. text.items) texts.new.items ≡ map (λ text. text.items) texts.old.items
        ++ arguments_texts (map argument_tree arguments.now)) }
{
    match arguments {
        [] => Ok(()),
        [Argument::Text(bytes), arguments @ ..] => {
            let text = Vec::from_slice(*texts.allocator(), bytes)?;
            texts.push(text)?;
            push_texts(texts, arguments)
        }
        [_, arguments @ ..] => push_texts(texts, arguments),
    }
}

/// Copies of the texts of a call, in order.
fn texts_of(alloc: Global, arguments: &[Argument]) -> Result<Vec<Vec<u8>>, AllocError>
    ensures { IfOk result (λ texts. map (λ text. text.items) texts.items
        ≡ arguments_texts (map argument_tree arguments.now)) }
{
    let mut texts = Vec::new(alloc);
    push_texts(&mut texts, arguments)?;
    Ok(texts)
}

/// A return of NULL, of a name, or of another number.
fn emit_return(
    code: &mut Vec<Instr>,
    names: &Names<'_>,
    line: u32,
    value: ExprRef<'_>,
) -> Result<(), AllocError>
    ensures { Emits result code.old.items code.new.items (return_code names.now.known line (term_of (ref_tree value.entry))) }
{
    match value.shape() {
        Shape::Named(Constant::Null) => {
            emit(code, Instr::ReturnReference(ReferenceOperand::Null))
        }
        Shape::Variable(name) => emit_returned(code, names, name),
        Shape::Paren(inner) => emit_return(code, names, line, inner),
        _ => {
            emit_expr(code, names, line, value)?;
            emit(code, Instr::ReturnJint)
        }
    }
}

/// A return of a name, a reference or a number.
fn emit_returned(code: &mut Vec<Instr>, names: &Names<'_>, name: &Name) -> Result<(), AllocError>
    ensures { Emits result code.old.items code.new.items (of_slot returned_code (lookup name.now names.now.known)) }
{
    match names.slot_of(name) {
        Some(
            Slot {
                ty: ExprType::Ref,
                index,
            },
        ) => emit(code, Instr::ReturnReference(ReferenceOperand::Local(index))),
        Some(slot) => {
            emit(code, Instr::Load(slot.index))?;
            emit(code, Instr::ReturnJint)
        }
        None => Ok(()),
    }
}
