//! Code: each public call with success, at words worked out by hand from ISO/IEC 9899:1999.

use code::code::Code;
use code::instr::{
    BoxedCall, Call, ElementType, Instr, LocalArray, NullableVariable, Operand, Operator, Plain,
    PlainTrap, ReferenceOperand, Target, TrappingOperator,
};
use code::plain::plain;
use code::slots::SlotCounts;
use code::stack::Stack;
use jni::JniFunction;
use std::alloc::Global;
use std::test::Fail;

const NO_SLOTS: SlotCounts = SlotCounts {
    numbers: 0,
    references: 0,
    statics: 0,
    field_ids: 0,
    buffers: 0,
};

#[test]
fn an_instruction_takes_16_bytes_at_most(rt: HostRuntime) {
    assert!(rt; size_of::<Instr>() <= 16, "{}", size_of::<Instr>());
}

/// jint n = GetArrayLength(a);, in line 3, with a in the second slot of references.
fn length_call(alloc: Global) -> Result<BoxedCall, Fail> {
    let operands = vec![in alloc; Operand::Local(1)]?;
    let call = Call::new(
        3,
        Target::Number(0),
        JniFunction::GetArrayLength,
        operands,
        Vec::new(alloc),
    );
    Ok(BoxedCall::of(alloc, call)?)
}

/// The code of jint n = GetArrayLength(a); while (n > 0) { put_jint(n); } return;
fn counting_code(alloc: Global) -> Result<Code, Fail> {
    let call = length_call(alloc)?;
    let instrs = vec![in alloc;
        Instr::Call(call),
        Instr::Load(0),
        Instr::Push(0),
        Instr::Operate(Operator::SignedGreater),
        Instr::JumpIfFalse(3),
        Instr::Load(0),
        Instr::PutJint,
        Instr::JumpBack(6),
        Instr::Return,
    ]?;
    let slots = SlotCounts {
        numbers: 1,
        references: 2,
        ..NO_SLOTS
    };
    match Code::of(instrs, slots)? {
        Some(code) => Ok(code),
        None => Err(Fail::new("refused")),
    }
}

/// The line of the call at a place, or 0.
fn line_of_call(code: &Code, place: usize) -> u32 {
    match code.get(place) {
        Some(Instr::Call(call)) => call.call().line,
        _ => 0,
    }
}

#[test]
fn code_keeps_its_instructions(rt: HostRuntime) -> Result<(), Fail> {
    let code = counting_code(rt.alloc())?;
    let jumps = matches!(code.get(7), Some(Instr::JumpBack(6)));
    let kept = code.slots();
    let counts = [
        kept.numbers,
        kept.references,
        kept.statics,
        kept.field_ids,
        kept.buffers,
    ];
    assert!(rt;
        jumps && counts == [1, 2, 0, 0, 0] && code.len() == 9 && line_of_call(&code, 0) == 3
    );
    Ok(())
}

// if (x == NULL || x != NULL) { x = NULL; } return x; with other lengths of the first jump.
#[test]
fn jumps_land_at_equal_depths(rt: HostRuntime) -> Result<(), Fail> {
    let x = NullableVariable::Local(0);
    let slots = SlotCounts {
        references: 1,
        ..NO_SLOTS
    };
    for (skipped, want) in [(1, true), (2, false), (5, false)] {
        let instrs = vec![in rt.alloc();
            Instr::TestNull {
                variable: x,
                equal: true
            },
            Instr::JumpIfTrueOrPop(skipped),
            Instr::TestNull {
                variable: x,
                equal: false
            },
            Instr::JumpIfFalse(2),
            Instr::StoreNull(x),
            Instr::Jump(0),
            Instr::ReturnReference(ReferenceOperand::Local(0)),
        ]?;
        assert!(rt; Code::of(instrs, slots)?.is_some() == want, "{skipped}");
    }
    Ok(())
}

// An array of 1,024 elements in 1,027 slots.
#[test]
fn arrays_lie_in_the_slots(rt: HostRuntime) -> Result<(), Fail> {
    let slots = SlotCounts {
        numbers: 1027,
        ..NO_SLOTS
    };
    for (start, want) in [(3, true), (4, false)] {
        let array = Instr::ClearArray(LocalArray { start, len: 1024 });
        let instrs = vec![in rt.alloc(); array, Instr::Return]?;
        assert!(rt; Code::of(instrs, slots)?.is_some() == want, "{start}");
    }
    Ok(())
}

/// jmethodID m = GetStaticMethodID(c, "g", "()V");, in line 3, with m in this slot and c in the first one of references.
fn method_call(alloc: Global, slot: u32) -> Result<BoxedCall, Fail> {
    let operands = vec![in alloc; Operand::Local(0), Operand::Text, Operand::Text]?;
    let mut texts = Vec::new(alloc);
    texts.push(Vec::from_slice(alloc, b"g")?)?;
    texts.push(Vec::from_slice(alloc, b"()V")?)?;
    let call = Call::new(
        3,
        Target::MethodId(slot),
        JniFunction::GetStaticMethodID,
        operands,
        texts,
    );
    Ok(BoxedCall::of(alloc, call)?)
}

// Two slots of field IDs and method IDs, which share them.
#[test]
fn method_ids_lie_in_the_slots(rt: HostRuntime) -> Result<(), Fail> {
    let slots = SlotCounts {
        references: 1,
        field_ids: 2,
        ..NO_SLOTS
    };
    for (slot, want) in [(1, true), (2, false)] {
        let call = method_call(rt.alloc(), slot)?;
        let null = Instr::StoreNull(NullableVariable::FieldId(slot));
        let instrs = vec![in rt.alloc(); Instr::Call(call), null, Instr::Return]?;
        assert!(rt; Code::of(instrs, slots)?.is_some() == want, "{slot}");
    }
    Ok(())
}

// -2 and 5: each operator at `uint32_t`, and the comparisons at `jint` too.
#[test]
fn operates_on_the_two_topmost_words(rt: HostRuntime) {
    for (operator, want) in [
        (Operator::Multiply, 4_294_967_286),
        (Operator::Add, 3),
        (Operator::Subtract, 4_294_967_289),
        (Operator::And, 4),
        (Operator::Xor, 4_294_967_291),
        (Operator::Or, 4_294_967_295),
        (Operator::Equal, 0),
        (Operator::NotEqual, 1),
        (Operator::Less, 0),
        (Operator::LessEqual, 0),
        (Operator::Greater, 1),
        (Operator::GreaterEqual, 1),
        (Operator::SignedLess, 1),
        (Operator::SignedLessEqual, 1),
        (Operator::SignedGreater, 0),
        (Operator::SignedGreaterEqual, 0),
    ] {
        let mut stack = Stack::new();
        stack.push(4_294_967_294);
        stack.push(5);
        let _ = plain(&Instr::Operate(operator), &mut stack, &mut []);
        assert!(rt; stack.pop() == want, "{want}");
    }
}

// A trap leaves the operands.
#[test]
fn divides_shifts_or_traps(rt: HostRuntime) {
    let by_zero = Plain::Trap(PlainTrap::DivisionByZero, 8);
    let too_far = Plain::Trap(PlainTrap::ShiftTooFar, 8);
    for (operator, right, way, top) in [
        (TrappingOperator::Divide, 5, Plain::Next, 858_993_458),
        (TrappingOperator::Remainder, 5, Plain::Next, 4),
        (TrappingOperator::ShiftLeft, 4, Plain::Next, 4_294_967_264),
        (TrappingOperator::ShiftRight, 31, Plain::Next, 1),
        (TrappingOperator::Divide, 0, by_zero, 0),
        (TrappingOperator::ShiftLeft, 32, too_far, 32),
        (
            TrappingOperator::ShiftRight,
            4_294_967_295,
            too_far,
            4_294_967_295,
        ),
    ] {
        let mut stack = Stack::new();
        stack.push(4_294_967_294);
        stack.push(right);
        let instr = Instr::OperateOrTrap(operator, 8);
        let got = plain(&instr, &mut stack, &mut []);
        assert!(rt; (got, stack.pop()) == (way, top), "{top}");
    }
}

#[test]
fn truths_decide_jumps(rt: HostRuntime) {
    for (instr, truth, way, top) in [
        (Instr::JumpIfFalseOrPop(3), 0, Plain::Skip(3), 0),
        (Instr::JumpIfFalseOrPop(3), 1, Plain::Next, 9),
        (Instr::JumpIfTrueOrPop(3), 0, Plain::Next, 9),
        (Instr::JumpIfTrueOrPop(3), 1, Plain::Skip(3), 1),
        (Instr::JumpIfFalse(3), 0, Plain::Skip(3), 9),
        (Instr::JumpIfFalse(3), 1, Plain::Next, 9),
        (Instr::Not, 0, Plain::Next, 1),
    ] {
        let mut stack = Stack::new();
        stack.push(9);
        stack.push(truth);
        let got = plain(&instr, &mut stack, &mut []);
        assert!(rt; (got, stack.pop()) == (way, top), "{top} {truth}");
    }
}

// 98,432 is 0x18080.
#[test]
fn elements_are_converted(rt: HostRuntime) {
    let array = LocalArray { start: 1, len: 2 };
    for (element, want) in [
        (ElementType::Int, 98_432),
        (ElementType::Short, 4_294_934_656),
        (ElementType::Byte, 4_294_967_168),
        (ElementType::Char, 32_896),
    ] {
        let mut stack = Stack::new();
        stack.push(1);
        stack.push(98_432);
        let mut numbers = [5, 6, 7, 8];
        let store = Instr::StoreElement(element, array, 4);
        let _ = plain(&store, &mut stack, &mut numbers);
        assert!(rt; numbers == [5, 6, want, 8], "{want}");
    }
}

#[test]
fn words_go_through_slots(rt: HostRuntime) {
    let array = LocalArray { start: 1, len: 2 };
    let mut numbers = [5, 6, 7, 8];
    let mut stack = Stack::new();
    stack.push(1);
    let _ = plain(&Instr::LoadElement(array, 4), &mut stack, &mut numbers);
    let _ = plain(&Instr::Store(0), &mut stack, &mut numbers);
    let _ = plain(&Instr::ClearArray(array), &mut stack, &mut numbers);
    stack.push(2);
    let got = plain(&Instr::LoadElement(array, 4), &mut stack, &mut numbers);
    let trap = Plain::Trap(PlainTrap::OutOfRange, 4);
    assert!(rt; (got, stack.pop(), numbers) == (trap, 2, [7, 0, 0, 8]));
}
