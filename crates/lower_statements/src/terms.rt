//! The code of expressions.

ghost use Rattle.std.specs.Prelude.{◌≡◌, ◌-◌, ◌<◌, [], ◌∷◌, ◌++◌, slice_set, vec_len, None, OnOk};
ghost use Rattle.base.specs.Bytes.{lookup};
ghost use Rattle.syntax.specs.Parts.{null_tested};
ghost use Rattle.syntax.specs.Shapes.{ref_tree};
ghost use Rattle.syntax.specs.Tree.{Binary};
ghost use Rattle.semantics.specs.Term as term;
ghost use Rattle.semantics.specs.Term.{term_of};
ghost use Rattle.code_meaning.specs.Coding.{nullable_of, element_code, null_code, of_slot, load_code, constant_code, prefix_code, operator_code, is_signed, skip_code, logical_code, term_code, expr_code};
ghost use Rattle.lower_statements.specs.Emitting.{Emits};

use crate::emitting::{counted, emit, replace};
use crate::names::{Names, Slot};
use code::instr::{Instr, LocalArray, NullableVariable, Operator, TrappingOperator};
use std::alloc::AllocError;
use syntax::{BinaryOp, Constant, ExprRef, Name, PrefixOp, Shape};
use type_rules::ExprType;

/// A binary operator with its operands.
#[derive(Clone, Copy)]
struct Operation<'e> {
    operator: BinaryOp,
    left: ExprRef<'e>,
    right: ExprRef<'e>,
}

/// An expression in a statement on this line. What no accepted program has becomes nothing.
#[cycle(expressions)]
pub fn emit_expr(
    code: &mut Vec<Instr>,
    names: &Names<'_>,
    line: u32,
    expr: ExprRef<'_>,
) -> Result<(), AllocError>
    ensures { Emits result code.old.items code.new.items (expr_code names.now.known line (ref_tree expr.entry)) }
{
    match expr.shape() {
        Shape::Number { value, .. } => emit(code, Instr::Push(value)),
        Shape::Named(constant) => emit_constant(code, constant),
        Shape::Variable(name) => emit_variable(code, names, name),
        Shape::Element(name, index) => {
            emit_expr(code, names, line, index)?;
            emit_element(code, names, line, name)
        }
        Shape::Prefix(operator, operand) => {
            emit_expr(code, names, line, operand)?;
            emit(code, prefix_instr(operator))
        }
        Shape::Binary(operator, left, right) => match expr.null_test() {
            Some(test) => emit_null_test(code, names, test.name, test.equal),
            None => {
                let operation = Operation {
                    operator,
                    left,
                    right,
                };
                emit_binary(code, names, line, &operation)
            }
        },
        Shape::Paren(inner) => emit_expr(code, names, line, inner),
    }
}

/// A variable's value.
fn emit_variable(code: &mut Vec<Instr>, names: &Names<'_>, name: &Name) -> Result<(), AllocError>
    ensures { Emits result code.old.items code.new.items (of_slot load_code (lookup name.now names.now.known)) }
{
    match names.slot_of(name) {
        Some(slot) => emit(code, Instr::Load(slot.index)),
        None => Ok(()),
    }
}

/// A named constant. NULL is no number, and modes are none that are worked out.
fn emit_constant(code: &mut Vec<Instr>, constant: Constant) -> Result<(), AllocError>
    ensures { Emits result code.old.items code.new.items (constant_code constant) }
{
    match constant {
        Constant::True => emit(code, Instr::Push(1)),
        Constant::False => emit(code, Instr::Push(0)),
        Constant::Commit | Constant::Abort | Constant::Null => Ok(()),
    }
}

/// An element of a named array or buffer, after its index.
fn emit_element(
    code: &mut Vec<Instr>,
    names: &Names<'_>,
    line: u32,
    name: &Name,
) -> Result<(), AllocError>
    ensures { Emits result code.old.items code.new.items (of_slot (element_code line) (lookup name.now names.now.known)) }
{
    match names.slot_of(name) {
        Some(
            Slot {
                ty: ExprType::Array(_, len),
                index,
            },
        ) => emit(
            code,
            Instr::LoadElement(LocalArray { start: index, len }, line),
        ),
        Some(
            Slot {
                ty: ExprType::Buffer(..),
                index,
            },
        ) => emit(code, Instr::LoadBuffer { slot: index, line }),
        _ => Ok(()),
    }
}

/// An operation that doesn't compare a bare name with NULL.
#[cycle(expressions)]
fn emit_binary(
    code: &mut Vec<Instr>,
    names: &Names<'_>,
    line: u32,
    operation: &Operation<'_>,
) -> Result<(), AllocError>
    requires { null_tested (Binary operation.now.operator (ref_tree operation.now.left) (ref_tree operation.now.right)) ≡ None }
    ensures { Emits result code.old.items code.new.items
        (expr_code names.now.known line (Binary operation.now.operator (ref_tree operation.now.left)
        (ref_tree operation.now.right))) }
{
    match operation.operator {
        BinaryOp::LogicalAnd => emit_logical(code, names, line, true, operation),
        BinaryOp::LogicalOr => emit_logical(code, names, line, false, operation),
        BinaryOp::Equal
        | BinaryOp::NotEqual
        | BinaryOp::BitOr
        | BinaryOp::BitXor
        | BinaryOp::BitAnd
        | BinaryOp::Less
        | BinaryOp::LessEqual
        | BinaryOp::Greater
        | BinaryOp::GreaterEqual
        | BinaryOp::ShiftLeft
        | BinaryOp::ShiftRight
        | BinaryOp::Add
        | BinaryOp::Subtract
        | BinaryOp::Multiply
        | BinaryOp::Divide
        | BinaryOp::Remainder => emit_operator(code, names, line, operation),
    }
}

/// An operator after its operands.
#[cycle(expressions)]
fn emit_operator(
    code: &mut Vec<Instr>,
    names: &Names<'_>,
    line: u32,
    operation: &Operation<'_>,
) -> Result<(), AllocError>
    ensures { Emits result code.old.items code.new.items
        (term_code names.now.known line (term.Binary operation.now.operator (term_of (ref_tree operation.now.left))
        (term_of (ref_tree operation.now.right)))) }
{
    emit_expr(code, names, line, operation.left)?;
    emit_expr(code, names, line, operation.right)?;
    emit_operation(code, names, line, operation.operator, operation.left)
}

/// An operator whose operands are on the stack, of which this is the left one.
fn emit_operation(
    code: &mut Vec<Instr>,
    names: &Names<'_>,
    line: u32,
    operator: BinaryOp,
    left: ExprRef<'_>,
) -> Result<(), AllocError>
    ensures { Emits result code.old.items code.new.items
        (operator_code line (is_signed names.now.known (term_of (ref_tree left.entry))) operator ∷ []) }
{
    let signed = is_signed(names, left);
    emit(code, operator_instr(line, signed, operator))
}

/// `&&` or `||`: the left side, the jump over the right side, and the right side.
#[cycle(expressions)]
#[inline(always)]
fn emit_logical(
    code: &mut Vec<Instr>,
    names: &Names<'_>,
    line: u32,
    conjunction: bool,
    operation: &Operation<'_>,
) -> Result<(), AllocError>
    ensures { Emits result code.old.items code.new.items
        (logical_code conjunction (expr_code names.now.known line (ref_tree operation.now.left))
        (expr_code names.now.known line (ref_tree operation.now.right))) }
{
    emit_expr(code, names, line, operation.left)?;
    let place = code.len();
    emit(code, skip(conjunction, 0))?;
    emit_expr(code, names, line, operation.right)?;
    close_side(code, conjunction, place)
}

/// The end of the right side of `&&` or `||`: how far the jump in front of it leads.
fn close_side(code: &mut Vec<Instr>, conjunction: bool, place: usize) -> Result<(), AllocError>
    requires { place < vec_len code.old }
    ensures { OnOk result (code.new.items ≡ slice_set code.old.items place (skip_code conjunction (vec_len code.old - place - 1))) }
{
    let skipped = counted(code.len() - place - 1)?;
    replace(code, place, skip(conjunction, skipped));
    Ok(())
}

fn skip(conjunction: bool, skipped: u32) -> Instr
    ensures { result ≡ skip_code conjunction skipped }
{
    if conjunction {
        Instr::JumpIfFalseOrPop(skipped)
    } else {
        Instr::JumpIfTrueOrPop(skipped)
    }
}

/// The comparison of a name with NULL, by `==` or by `!=`.
fn emit_null_test(
    code: &mut Vec<Instr>,
    names: &Names<'_>,
    name: &Name,
    equal: bool,
) -> Result<(), AllocError>
    ensures { Emits result code.old.items code.new.items (null_code equal (lookup name.now names.now.known)) }
{
    match names.slot_of(name) {
        Some(slot) => match nullable(slot) {
            Some(variable) => emit(code, Instr::TestNull { variable, equal }),
            None => Ok(()),
        },
        None => Ok(()),
    }
}

/// The variable of a slot, if it can be NULL.
pub fn nullable(slot: Slot) -> Option<NullableVariable>
    ensures { result ≡ nullable_of slot.ty slot.index }
{
    match slot.ty {
        ExprType::Ref => Some(NullableVariable::Local(slot.index)),
        ExprType::Global | ExprType::Weak => Some(NullableVariable::Static(slot.index)),
        ExprType::FieldId | ExprType::MethodId => Some(NullableVariable::FieldId(slot.index)),
        ExprType::Buffer(..) => Some(NullableVariable::Buffer(slot.index)),
        ExprType::Word | ExprType::Jint | ExprType::Flag | ExprType::Truth | ExprType::Array(..) =>
            None,
    }
}

/// Whether an operand is a `jint`.
fn is_signed(names: &Names<'_>, operand: ExprRef<'_>) -> bool
    ensures { result ≡ is_signed names.now.known (term_of (ref_tree operand.entry)) }
{
    match operand.shape() {
        Shape::Number { unsigned, .. } => !unsigned,
        Shape::Variable(name) => match names.slot_of(name) {
            Some(slot) => matches!(slot.ty, ExprType::Jint),
            None => false,
        },
        Shape::Element(..) | Shape::Prefix(PrefixOp::ToInt, _) => true,
        Shape::Paren(inner) => is_signed(names, inner),
        Shape::Named(_) | Shape::Prefix(..) | Shape::Binary(..) => false,
    }
}

fn prefix_instr(operator: PrefixOp) -> Instr
    ensures { result ≡ prefix_code operator }
{
    match operator {
        PrefixOp::LogicalNot => Instr::Not,
        PrefixOp::Complement => Instr::Complement,
        PrefixOp::ToWord | PrefixOp::ToInt => Instr::Convert,
    }
}

/// A comparison is one of `jint`s where its operands are.
fn operator_instr(line: u32, signed: bool, operator: BinaryOp) -> Instr
    ensures { result ≡ operator_code line signed operator }
{
    match operator {
        BinaryOp::Divide => Instr::OperateOrTrap(TrappingOperator::Divide, line),
        BinaryOp::Remainder => Instr::OperateOrTrap(TrappingOperator::Remainder, line),
        BinaryOp::ShiftLeft => Instr::OperateOrTrap(TrappingOperator::ShiftLeft, line),
        BinaryOp::ShiftRight => Instr::OperateOrTrap(TrappingOperator::ShiftRight, line),
        BinaryOp::Multiply => Instr::Operate(Operator::Multiply),
        BinaryOp::Add => Instr::Operate(Operator::Add),
        BinaryOp::Subtract => Instr::Operate(Operator::Subtract),
        BinaryOp::BitAnd | BinaryOp::LogicalAnd => Instr::Operate(Operator::And),
        BinaryOp::BitXor => Instr::Operate(Operator::Xor),
        BinaryOp::BitOr | BinaryOp::LogicalOr => Instr::Operate(Operator::Or),
        BinaryOp::Equal => Instr::Operate(Operator::Equal),
        BinaryOp::NotEqual => Instr::Operate(Operator::NotEqual),
        BinaryOp::Less if signed => Instr::Operate(Operator::SignedLess),
        BinaryOp::Less => Instr::Operate(Operator::Less),
        BinaryOp::LessEqual if signed => Instr::Operate(Operator::SignedLessEqual),
        BinaryOp::LessEqual => Instr::Operate(Operator::LessEqual),
        BinaryOp::Greater if signed => Instr::Operate(Operator::SignedGreater),
        BinaryOp::Greater => Instr::Operate(Operator::Greater),
        BinaryOp::GreaterEqual if signed => Instr::Operate(Operator::SignedGreaterEqual),
        BinaryOp::GreaterEqual => Instr::Operate(Operator::GreaterEqual),
    }
}
