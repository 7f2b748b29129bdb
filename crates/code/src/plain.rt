//! Instructions that work on the operand stack and the number slots alone.

ghost use Rattle.std.specs.Prelude.{◌≡◌, ◌+◌, ◌≤◌, ◌<◌, ℕ, List, IsSome, Some, true, length, replicate};
ghost use Rattle.code.specs.declared.instr.Instr.TheVariants.{Complement, Not, Operate, OperateOrTrap, JumpIfFalseOrPop, JumpIfTrueOrPop, JumpIfFalse, LoadElement, StoreElement};
ghost use Rattle.code.specs.declared.instr.Plain.TheVariants.{Next};
ghost use Rattle.code.specs.Depth.{depth_after};
ghost use Rattle.code.specs.Effect.{truth_word, operate, operate_or_trap, element_word, cleared, can_lead, plain_of};

use crate::instr::{ElementType, Instr, LocalArray, Operator, Plain, PlainTrap, TrappingOperator};
use crate::stack::Stack;

/// Does an instruction that works on the stack and the number slots alone, and answers where it leads.
#[inline(always)]
pub fn plain(instr: &Instr, stack: &mut Stack, numbers: &mut [u32]) -> Plain
    requires operands { IsSome (plain_of instr.now stack.old numbers.old) }
    requires room { IsSome (depth_after instr.now (length stack.old)) }
    ensures { plain_of instr.now stack.old numbers.old ≡ Some (result, stack.new, numbers.new) }
{
    match instr {
        Instr::Push(word) => stack.push(*word),
        Instr::Load(slot) => stack.push(numbers[*slot as usize]),
        Instr::Store(slot) => numbers[*slot as usize] = stack.pop(),
        Instr::Complement => complement(stack),
        Instr::Not => invert(stack),
        Instr::Convert => {}
        Instr::Operate(operator) => operate(*operator, stack),
        Instr::ClearArray(array) => clear_array(*array, numbers),
        _ => return lead(instr, stack, numbers),
    }
    Plain::Next
}

/// Does an instruction that can lead elsewhere than to the next.
#[inline(always)]
fn lead(instr: &Instr, stack: &mut Stack, numbers: &mut [u32]) -> Plain
    requires leads { can_lead instr.now ≡ true }
    requires operands { IsSome (plain_of instr.now stack.old numbers.old) }
    requires room { IsSome (depth_after instr.now (length stack.old)) }
    ensures { plain_of instr.now stack.old numbers.old ≡ Some (result, stack.new, numbers.new) }
{
    match instr {
        Instr::OperateOrTrap(operator, line) => operate_or_trap(*operator, *line, stack),
        Instr::JumpIfFalseOrPop(n) => jump_if_false_or_pop(*n, stack),
        Instr::JumpIfTrueOrPop(n) => jump_if_true_or_pop(*n, stack),
        Instr::JumpIfFalse(n) => jump_if_false(*n, stack),
        Instr::Jump(n) => Plain::Skip(*n),
        Instr::JumpBack(n) => Plain::Back(*n),
        Instr::LoadElement(array, line) => load_element(*array, *line, stack, numbers),
        Instr::StoreElement(element, array, line) => {
            store_element(*element, *array, *line, stack, numbers)
        }
        _ => unreachable!(),
    }
}

fn complement(stack: &mut Stack)
    requires { 0 < length stack.old }
    ensures { (numbers : List ℕ) → plain_of Complement stack.old numbers ≡ Some (Next, stack.new, numbers) }
{
    let word = stack.top();
    stack.replace_top(!word);
}

fn invert(stack: &mut Stack)
    requires { 0 < length stack.old }
    ensures { (numbers : List ℕ) → plain_of Not stack.old numbers ≡ Some (Next, stack.new, numbers) }
{
    let word = stack.top();
    stack.replace_top(truth_word(word == 0));
}

#[inline(always)]
fn operate(operator: Operator, stack: &mut Stack)
    requires { 1 < length stack.old }
    ensures { (numbers : List ℕ) → plain_of (Operate operator) stack.old numbers ≡ Some (Next, stack.new, numbers) }
{
    let right = stack.pop();
    let left = stack.top();
    stack.replace_top(result_of(operator, left, right));
}

/// The word of a truth.
fn truth_word(truth: bool) -> u32
    ensures { result ≡ truth_word truth }
{
    u32::from(truth)
}

#[inline(always)]
fn result_of(operator: Operator, left: u32, right: u32) -> u32
    ensures { result ≡ operate operator left right }
{
    match operator {
        Operator::Multiply => left.wrapping_mul(right),
        Operator::Add => left.wrapping_add(right),
        Operator::Subtract => left.wrapping_sub(right),
        Operator::And => left & right,
        Operator::Xor => left ^ right,
        Operator::Or => left | right,
        Operator::Equal => truth_word(left == right),
        Operator::NotEqual => truth_word(left != right),
        Operator::Less => truth_word(left < right),
        Operator::LessEqual => truth_word(left <= right),
        Operator::Greater => truth_word(left > right),
        Operator::GreaterEqual => truth_word(left >= right),
        Operator::SignedLess => truth_word(left.cast_signed() < right.cast_signed()),
        Operator::SignedLessEqual => truth_word(left.cast_signed() <= right.cast_signed()),
        Operator::SignedGreater => truth_word(left.cast_signed() > right.cast_signed()),
        Operator::SignedGreaterEqual => truth_word(left.cast_signed() >= right.cast_signed()),
    }
}

fn result_or_trap(operator: TrappingOperator, left: u32, right: u32) -> Result<u32, PlainTrap>
    ensures { result ≡ operate_or_trap operator left right }
{
    match operator {
        TrappingOperator::Divide if right == 0 => Err(PlainTrap::DivisionByZero),
        TrappingOperator::Divide => Ok(left / right),
        TrappingOperator::Remainder if right == 0 => Err(PlainTrap::DivisionByZero),
        TrappingOperator::Remainder => Ok(left % right),
        TrappingOperator::ShiftLeft if right < 32 => Ok(left << right),
        TrappingOperator::ShiftRight if right < 32 => Ok(left >> right),
        TrappingOperator::ShiftLeft | TrappingOperator::ShiftRight => Err(PlainTrap::ShiftTooFar),
    }
}

/// A trap leaves the operands on the stack.
fn operate_or_trap(operator: TrappingOperator, line: u32, stack: &mut Stack) -> Plain
    requires { 1 < length stack.old }
    ensures { (numbers : List ℕ) → plain_of (OperateOrTrap operator line) stack.old numbers ≡ Some (result, stack.new, numbers) }
{
    let right = stack.pop();
    let left = stack.top();
    match result_or_trap(operator, left, right) {
        Ok(word) => {
            stack.replace_top(word);
            Plain::Next
        }
        Err(trap) => {
            stack.push(right);
            Plain::Trap(trap, line)
        }
    }
}

fn jump_if_false_or_pop(n: u32, stack: &mut Stack) -> Plain
    requires { 0 < length stack.old }
    ensures { (numbers : List ℕ) → plain_of (JumpIfFalseOrPop n) stack.old numbers ≡ Some (result, stack.new, numbers) }
{
    if stack.top() == 0 {
        return Plain::Skip(n);
    }
    let _ = stack.pop();
    Plain::Next
}

fn jump_if_true_or_pop(n: u32, stack: &mut Stack) -> Plain
    requires { 0 < length stack.old }
    ensures { (numbers : List ℕ) → plain_of (JumpIfTrueOrPop n) stack.old numbers ≡ Some (result, stack.new, numbers) }
{
    if stack.top() == 0 {
        let _ = stack.pop();
        return Plain::Next;
    }
    Plain::Skip(n)
}

fn jump_if_false(n: u32, stack: &mut Stack) -> Plain
    requires { 0 < length stack.old }
    ensures { (numbers : List ℕ) → plain_of (JumpIfFalse n) stack.old numbers ≡ Some (result, stack.new, numbers) }
{
    if stack.pop() == 0 {
        Plain::Skip(n)
    } else {
        Plain::Next
    }
}

fn load_element(array: LocalArray, line: u32, stack: &mut Stack, numbers: &[u32]) -> Plain
    requires { IsSome (plain_of (LoadElement array line) stack.old numbers.now) }
    ensures { plain_of (LoadElement array line) stack.old numbers.now ≡ Some (result, stack.new, numbers.now) }
{
    let index = stack.top();
    if index < array.len {
        stack.replace_top(numbers[array.start as usize + index as usize]);
        Plain::Next
    } else {
        Plain::Trap(PlainTrap::OutOfRange, line)
    }
}

fn store_element(
    element: ElementType,
    array: LocalArray,
    line: u32,
    stack: &mut Stack,
    numbers: &mut [u32],
) -> Plain
    requires { IsSome (plain_of (StoreElement element array line) stack.old numbers.old) }
    ensures { plain_of (StoreElement element array line) stack.old numbers.old ≡ Some (result, stack.new, numbers.new) }
{
    let word = stack.pop();
    let index = stack.pop();
    if index < array.len {
        numbers[array.start as usize + index as usize] = element_word(element, word);
        Plain::Next
    } else {
        stack.push(index);
        stack.push(word);
        Plain::Trap(PlainTrap::OutOfRange, line)
    }
}

/// What is left of a `jint` in an element (6.3.1.3), read again as a `jint`.
pub fn element_word(element: ElementType, word: u32) -> u32
    ensures { result ≡ element_word element word }
{
    match element {
        ElementType::Int => word,
        ElementType::Short => i32::from(((word % 65_536) as u16).cast_signed()).cast_unsigned(),
        ElementType::Byte => i32::from(((word % 256) as u8).cast_signed()).cast_unsigned(),
        ElementType::Char => word % 65_536,
    }
}

/// Writes zeros into an array.
#[inline(always)]
fn clear_array(array: LocalArray, numbers: &mut [u32])
    requires { array.start + array.len ≤ length numbers.old }
    ensures { numbers.new ≡ cleared array numbers.old }
{
    let start = array.start as usize;
    clear(&mut numbers[start..start + array.len as usize]);
}

fn clear(words: &mut [u32])
    ensures { words.new ≡ replicate (length words.old) 0 }
{
    words.fill(0);
}
