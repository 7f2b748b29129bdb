//! The slots of code, and whether instructions find theirs.

ghost use Rattle.std.specs.Prelude.{◌≡◌};
ghost use Rattle.std.specs.List.{list_all};
ghost use Rattle.code.specs.Depth.{within_slots, array_within, target_within, operand_within, reference_within, variable_within};

use crate::instr::{Instr, LocalArray, NullableVariable, Operand, ReferenceOperand, Target};

/// How many slots of each kind there are for code, and how many statics.
#[derive(Clone, Copy)]
pub struct SlotCounts {
    /// Slots of numbers, the elements of local arrays among them.
    pub numbers: u32,
    /// Slots of local references.
    pub references: u32,
    /// Statics, each with a global reference.
    pub statics: u32,
    /// Slots of field IDs and method IDs, which share them.
    pub field_ids: u32,
    /// Slots of buffers.
    pub buffers: u32,
}

/// Whether all instructions find their slots.
pub(crate) fn all_within(instrs: &[Instr], slots: SlotCounts) -> bool
    ensures { result ≡ list_all (within_slots slots) instrs.now }
{
    instrs.iter().all(|instr| within_slots(instr, slots))
}

/// Whether an instruction finds its slots.
fn within_slots(instr: &Instr, slots: SlotCounts) -> bool
    ensures { result ≡ within_slots slots instr.now }
{
    match instr {
        Instr::Load(slot) | Instr::Store(slot) => *slot < slots.numbers,
        Instr::LoadElement(array, _)
        | Instr::StoreElement(_, array, _)
        | Instr::ClearArray(array) => array_within(*array, slots.numbers),
        Instr::LoadBuffer { slot, .. } | Instr::StoreBuffer { slot, .. } => *slot < slots.buffers,
        Instr::TestNull { variable, equal: _ } | Instr::StoreNull(variable) => {
            variable_within(*variable, slots)
        }
        Instr::Call(boxed) => {
            let call = boxed.call();
            target_within(call.target, slots) && are_within(call.operands.as_slice(), slots)
        }
        Instr::ReturnReference(operand) => reference_within(*operand, slots.references),
        _ => true,
    }
}

fn array_within(array: LocalArray, numbers: u32) -> bool
    ensures { result ≡ array_within numbers array }
{
    0 < array.len && array.len <= 1024 && array.len <= numbers && array.start <= numbers - array.len
}

fn variable_within(variable: NullableVariable, slots: SlotCounts) -> bool
    ensures { result ≡ variable_within slots variable }
{
    match variable {
        NullableVariable::Local(slot) => slot < slots.references,
        NullableVariable::Static(index) => index < slots.statics,
        NullableVariable::FieldId(slot) => slot < slots.field_ids,
        NullableVariable::Buffer(slot) => slot < slots.buffers,
    }
}

fn target_within(target: Target, slots: SlotCounts) -> bool
    ensures { result ≡ target_within slots target }
{
    match target {
        Target::Dropped => true,
        Target::Number(slot) => slot < slots.numbers,
        Target::Local(slot) => slot < slots.references,
        Target::FieldId(slot) | Target::MethodId(slot) => slot < slots.field_ids,
        Target::Static(index) => index < slots.statics,
        Target::Buffer(_, slot) => slot < slots.buffers,
        Target::Test => true,
    }
}

fn are_within(operands: &[Operand], slots: SlotCounts) -> bool
    ensures { result ≡ list_all (operand_within slots) operands.now }
{
    operands
        .iter()
        .all(|operand| operand_within(*operand, slots))
}

fn operand_within(operand: Operand, slots: SlotCounts) -> bool
    ensures { result ≡ operand_within slots operand }
{
    match operand {
        Operand::Null | Operand::Number | Operand::Text | Operand::Mode(_) => true,
        Operand::Local(slot) => slot < slots.references,
        Operand::Static(index) => index < slots.statics,
        Operand::FieldId(slot) | Operand::MethodId(slot) => slot < slots.field_ids,
        Operand::Array(array) => array_within(array, slots.numbers),
        Operand::Buffer(slot) => slot < slots.buffers,
        Operand::IsCopy(slot) => slot < slots.numbers,
    }
}

fn reference_within(operand: ReferenceOperand, references: u32) -> bool
    ensures { result ≡ reference_within references operand }
{
    match operand {
        ReferenceOperand::Null => true,
        ReferenceOperand::Local(slot) => slot < references,
    }
}
