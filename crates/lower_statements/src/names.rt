//! The slots of names.

ghost use Rattle.std.specs.Prelude.{◌≡◌, ◌+◌, ◌-◌, [], ◌++◌, length, drop, map, IfOk, OnOk};
ghost use Rattle.std.specs.Option.{option_map};
ghost use Rattle.base.specs.Bytes.{lookup};
ghost use Rattle.syntax.specs.Views.{static_tree, function_tree, parameter_tree};
ghost use Rattle.code_meaning.specs.Layout.{new_slot, with_static, parameter_slots, numbers_of, references_of, slots_after, with_name, entry_layout};
ghost use Rattle.lower_statements.specs.Names.{slot_view};

use crate::emitting::counted;
use code::slots::SlotCounts;
use std::alloc::{AllocError, Global};
use std::marker::Model;
use syntax::{Function, Name, Parameter, Static};
use type_rules::{ExprType, Known, parameter_type, static_type};

/// A name's type and where its value is, counted among the slots of its kind; the elements of an array begin there.
#[derive(Clone, Copy)]
pub struct Slot {
    pub ty: ExprType,
    pub index: u32,
}

/// The names that are known at a place of a unit, and how many slots are taken so far in the function there.
///
/// One serves all functions of a unit: it keeps the statics, and a function's own names are forgotten after it.
#[derive(Drop)]
pub struct Names<'a> {
    known: Known<'a, Slot>,
    slots: SlotCounts,
}

impl<'a> Model for Names<'a> {
    ghost use Rattle.code_meaning.specs.Layout.{Layout};
    ghost use Rattle.lower_statements.specs.Names.{known_view};

    ghost Value = { Layout };

    ghost view = { λ n. record { known = known_view n.known; slots = n.slots } };
}

impl<'a> Names<'a> {
    /// No names.
    pub fn new(alloc: Global) -> Names<'a>
        ensures { result.known ≡ [] }
    {
        Names {
            known: Known::new(alloc),
            slots: SlotCounts {
                numbers: 0,
                references: 0,
                statics: 0,
                field_ids: 0,
                buffers: 0,
            },
        }
    }

    /// One static more; their slots are counted in the order of the text.
    pub fn declare_static(&mut self, named: &'a Static) -> Result<(), AllocError>
        ensures { OnOk result (self.new.known ≡ with_static (static_tree named.now) self.old.known) }
    {
        let index = counted(self.len())?;
        let ty = static_type(named.kind);
        self.known.declare(&named.name, Slot { ty, index })
    }

    /// The names and slots at a function's first statement, after these statics.
    pub fn enter(&mut self, function: &'a Function) -> Result<(), AllocError>
        ensures { OnOk result (self.new ≡ entry_layout self.old.known (function_tree function.now)) }
    {
        self.slots = SlotCounts {
            numbers: 0,
            references: 1,
            statics: counted(self.known.len())?,
            field_ids: 0,
            buffers: 0,
        };
        self.declare_parameters(&function.parameters)?;
        let slot = Slot {
            ty: ExprType::Ref,
            index: 0,
        };
        self.known.declare(&function.class_name, slot)
    }

    /// Declares parameters, of which the first is known as the latest: so it takes the slots of each before the next one's, and
    /// declares it after that. It calls itself once for each.
    fn declare_parameters(&mut self, parameters: &'a [Parameter]) -> Result<(), AllocError>
        ensures known { OnOk result (self.new.known
            ≡ parameter_slots (map parameter_tree parameters.now) self.old.slots.numbers self.old.slots.references
            ++ self.old.known) }
        ensures slots { OnOk result (self.new.slots
            ≡ record (self.old.slots) {
              numbers = numbers_of (map parameter_tree parameters.now) self.old.slots.numbers;
              references = references_of (map parameter_tree parameters.now) self.old.slots.references;
            }) }
    {
        match parameters {
            [] => Ok(()),
            [parameter, parameters @ ..] => {
                let ty = parameter_type(parameter.kind);
                let slot = self.new_slot(ty);
                self.slots = slots_after(self.slots, ty)?;
                self.declare_parameters(parameters)?;
                self.known.declare(&parameter.name, slot)
            }
        }
    }

    /// The slot of the latest declaration of a name.
    pub fn slot_of(&self, name: &Name) -> Option<Slot>
        ensures { option_map slot_view result ≡ lookup name.now self.now.known }
    {
        self.known.get(name)
    }

    /// The slot of a name that is declared next.
    pub fn new_slot(&self, ty: ExprType) -> Slot
        ensures { slot_view result ≡ new_slot ty self.now }
    {
        let index = match ty {
            ExprType::Ref => self.slots.references,
            ExprType::Global | ExprType::Weak => self.slots.statics,
            ExprType::FieldId | ExprType::MethodId => self.slots.field_ids,
            ExprType::Buffer(..) => self.slots.buffers,
            ExprType::Word
            | ExprType::Jint
            | ExprType::Flag
            | ExprType::Truth
            | ExprType::Array(..) => { self.slots.numbers }
        };
        Slot { ty, index }
    }

    /// Declares a name. More slots than can be counted are no memory.
    pub fn declare(&mut self, name: &'a Name, ty: ExprType) -> Result<(), AllocError>
        ensures { OnOk result (self.new ≡ with_name name.now ty self.old) }
    {
        let slots = slots_after(self.slots, ty)?;
        let slot = self.new_slot(ty);
        self.known.declare(name, slot)?;
        self.slots = slots;
        Ok(())
    }

    /// How many names are known.
    pub fn len(&self) -> usize
        ensures { result ≡ length self.now.known }
    {
        self.known.len()
    }

    /// Forgets the latest names, so that this many are left. Their slots stay taken.
    pub fn leave(&mut self, count: usize)
        ensures { self.new ≡ record { known = drop (length self.old.known - count) self.old.known; slots = self.old.slots } }
    {
        self.known.leave(count);
    }

    /// How many slots are taken.
    pub fn slots(&self) -> SlotCounts
        ensures { result ≡ self.now.slots }
    {
        self.slots
    }
}

/// The count with `by` more, where that can be counted.
fn more(count: u32, by: u32) -> Result<u32, AllocError>
    ensures { IfOk result (λ n. n ≡ count + by) }
{
    match count.checked_add(by) {
        Some(sum) => Ok(sum),
        None => Err(AllocError),
    }
}

/// The slots with those of one variable more.
fn slots_after(slots: SlotCounts, ty: ExprType) -> Result<SlotCounts, AllocError>
    ensures { IfOk result (λ s. s ≡ slots_after ty slots) }
{
    let mut after = slots;
    match ty {
        ExprType::Ref => after.references = more(slots.references, 1)?,
        ExprType::Global | ExprType::Weak => after.statics = more(slots.statics, 1)?,
        ExprType::FieldId | ExprType::MethodId => after.field_ids = more(slots.field_ids, 1)?,
        ExprType::Buffer(..) => after.buffers = more(slots.buffers, 1)?,
        ExprType::Word | ExprType::Jint | ExprType::Flag => after.numbers = more(slots.numbers, 1)?,
        ExprType::Array(_, len) => after.numbers = more(slots.numbers, len)?,
        ExprType::Truth => {}
    }
    Ok(after)
}
