//! What the operands of a call give, and what is there.

ghost use Rattle.std.specs.Prelude.{◌≡◌};
ghost use Rattle.class_rules.specs.Class.{Classes};
ghost use Rattle.classes.specs.Views.{field_type_view};
ghost use Rattle.heap.specs.Heap.{Space, IsAddress, name_at};
ghost use Rattle.machine_scenes.specs.Given.{operand_at, key_at, field_at, method_at, operand_of, class_of_given, class_there, name_there, fits_there, field_there, AreAddresses, AreHandles, FieldIsThere, ReferenceIsThere};

use crate::handle::{Handle, MethodHandle, field_held, method_held};
use crate::references::{Held, References};
use class_rules::{ClassId, NO_CLASS};
use classes::class::{ElementType, FieldHandle, FieldType};
use classes::table::ClassTable;
use code::instr::Operand;
use heap::{Addr, Heap};
use semantics::{NO_OBJECT, ObjectId};
use tables::Local;

/// The operand at a place, and NULL where there is none.
#[inline(always)]
pub fn operand_of(operands: &[Operand], place: usize) -> Operand
    ensures { result ≡ operand_of operands.now place }
{
    operands.get(place).copied().unwrap_or(Operand::Null)
}

/// The reference that an operand gives.
#[inline(always)]
pub fn reference_in(references: &References<'_>, operand: Operand) -> Option<Addr>
    ensures { result ≡ operand_at references.now operand }
{
    match operand {
        Operand::Local(slot) => references.local(slot),
        Operand::Static(slot) => match references.held(slot) {
            Held::At(addr) | Held::Weakly(addr) => Some(addr),
            Held::Empty | Held::Cleared | Held::Deleted => None,
        },
        _ => None,
    }
}

/// The key of the local reference that an operand gives; none for NULL, and for what is no local reference.
pub fn key_in(references: &References<'_>, operand: Operand) -> Option<Local>
    ensures { result ≡ key_at references.now operand }
{
    match operand {
        Operand::Local(slot) => references.key(slot),
        _ => None,
    }
}

/// The field ID that an operand gives.
#[inline(always)]
pub fn field_in(fields: &[Option<Handle>], operand: Operand) -> Option<FieldHandle>
    ensures { result ≡ field_at fields.now operand }
{
    match operand {
        Operand::FieldId(slot) => field_held(fields.get(slot as usize).copied().unwrap_or(None)),
        _ => None,
    }
}

/// The method ID that an operand gives.
pub fn method_in(methods: &[Option<Handle>], operand: Operand) -> Option<MethodHandle>
    ensures { result ≡ method_at methods.now operand }
{
    match operand {
        Operand::MethodId(slot) => {
            method_held(methods.get(slot as usize).copied().unwrap_or(None))
        }
        _ => None,
    }
}

/// The reference of the operand at a place, which is NULL or the address of an object.
#[inline(always)]
pub fn reference_at(references: &References<'_>, operands: &[Operand], place: usize) -> Option<Addr>
    ensures reference { result ≡ operand_at references.now (operand_of operands.now place) }
    ensures there { (space : Space) → AreAddresses space references.now operands.now → ReferenceIsThere space result }
{
    reference_in(references, operand_of(operands, place))
}

/// The field ID of the operand at a place, which is NULL or that of a field.
#[inline(always)]
pub fn handle_at(
    fields: &[Option<Handle>],
    operands: &[Operand],
    place: usize,
) -> Option<FieldHandle>
    ensures field { result ≡ field_at fields.now (operand_of operands.now place) }
    ensures there { (classes : Classes) → AreHandles classes fields.now operands.now → FieldIsThere classes result }
{
    field_in(fields, operand_of(operands, place))
}

/// The class of the object at an address.
#[inline(always)]
pub fn class_there(heap: &Heap, addr: Addr) -> ClassId
    requires { IsAddress heap.now addr }
    ensures { result.number ≡ class_there heap.now addr }
{
    ClassId {
        number: heap.class_of(addr) as usize,
    }
}

/// The class of an object, and no class for NULL.
#[inline(always)]
pub fn class_of_given(heap: &Heap, reference: Option<Addr>) -> ClassId
    requires { ReferenceIsThere heap.now reference }
    ensures { result.number ≡ class_of_given heap.now reference }
{
    match reference {
        Some(addr) => class_there(heap, addr),
        None => NO_CLASS,
    }
}

/// The object at an address.
#[inline(always)]
pub fn object_there(heap: &Heap, addr: Addr) -> ObjectId
    requires { IsAddress heap.now addr }
    ensures { name_at heap.now addr ≡ Some result.number }
{
    ObjectId {
        number: heap.birth_of(addr) as usize,
    }
}

/// The object of a reference, and `NO_OBJECT` for NULL.
#[inline(always)]
pub fn name_there(heap: &Heap, reference: Option<Addr>) -> ObjectId
    requires { ReferenceIsThere heap.now reference }
    ensures { result.number ≡ name_there heap.now reference }
{
    match reference {
        Some(addr) => object_there(heap, addr),
        None => NO_OBJECT,
    }
}

/// Whether a reference fits a class, as NULL does always.
pub fn fits_there(
    classes: &ClassTable,
    heap: &Heap,
    reference: Option<Addr>,
    class: ClassId,
) -> bool
    requires { ReferenceIsThere heap.now reference }
    ensures { result ≡ fits_there classes.now heap.now reference class.number }
{
    match reference {
        Some(addr) => classes.assignable(class_there(heap, addr), class),
        None => true,
    }
}

/// Whether the field of a handle is a static; NULL is none.
#[inline(always)]
pub fn is_static(field: Option<FieldHandle>) -> bool
    ensures { (classes : Classes) → FieldIsThere classes field → result ≡ (field_there classes field).is_static }
{
    match field {
        Some(handle) => handle.is_static,
        None => false,
    }
}

/// The class that declares the field of a handle, and no class for NULL.
#[inline(always)]
pub fn declaring(field: Option<FieldHandle>) -> ClassId
    ensures { (classes : Classes) → FieldIsThere classes field → result.number ≡ (field_there classes field).class }
{
    match field {
        Some(handle) => handle.class,
        None => NO_CLASS,
    }
}

/// What the field of a handle holds, and numbers for NULL.
#[inline(always)]
pub fn type_of(classes: &ClassTable, field: Option<FieldHandle>) -> FieldType
    requires { FieldIsThere classes.now field }
    ensures { field_type_view result ≡ (field_there classes.now field).field.type }
{
    match field {
        Some(handle) => classes.handle_type(handle).unwrap(),
        None => FieldType::Number(ElementType::Int),
    }
}
