//! Code that stays in the operand stack's range, in its slots, and inside itself.

ghost use Rattle.std.specs.Prelude.{◌≡◌, ◌+◌, ◌<◌, ◌^◌, Some, OnSome, IfOk, IfSome, IfNone, slice_get, length};
ghost use Rattle.std.specs.Option.{option_copied};
ghost use Rattle.code.specs.Depth.{IsValid};
ghost use Rattle.code.specs.Running.{RunsAt};

use crate::depth::{depth_table, ends_by_leaving, jumps_land};
use crate::instr::Instr;
use crate::slots::{SlotCounts, all_within};
use std::alloc::AllocError;
use std::marker::Model;

/// Instructions of which none finds too few words on the stack, too many, or no slot, and none leads past the end.
///
/// Seen as the list of its instructions, so that a place of the code is an index into that list, with the numbers of slots.
pub struct Code {
    instrs: Vec<Instr>,
    slots: SlotCounts,
}

impl Drop for Code {
    fn drop(self) {
        let Code { instrs, slots: _ } = self;
        drop(instrs);
    }
}

impl Model for Code {
    ghost use Rattle.code.specs.Depth.{Listing, IsValid};

    ghost Value = { Listing };

    ghost view = { λ c. record { instrs = c.instrs.items; slots = c.slots } };

    ghost invariant = { λ c. IsValid (record { instrs = c.instrs.items; slots = c.slots }) };
}

impl Code {
    /// The code of these instructions, with these slots. None exactly where one of them finds too few words, no room or no
    /// slot, where a jump doesn't lead inside to as many words as it leaves, or where the last is followed by nothing and
    /// doesn't leave. An instruction that no path reaches is judged like the others. It takes time and host memory linear in
    /// their number.
    pub fn of(instrs: Vec<Instr>, slots: SlotCounts) -> Result<Option<Code>, AllocError>
        ensures instrs { IfOk result (λ found. IfSome found (λ c. c.instrs ≡ instrs.items)) }
        ensures slots { IfOk result (λ found. IfSome found (λ c. c.slots ≡ slots)) }
        ensures valid { IfOk result (λ found. IfSome found (λ c. IsValid c)) }
        ensures refused { IfOk result (λ found. IfNone found (IsValid (record { instrs = instrs.items; slots = slots }) → ⊥)) }
    {
        let Some(table) = depth_table(*instrs.allocator(), instrs.as_slice())? else {
            return Ok(None);
        };
        if ends_by_leaving(instrs.as_slice())
            && jumps_land(instrs.as_slice(), table.as_slice())
            && all_within(instrs.as_slice(), slots)
        {
            Ok(Some(Code { instrs, slots }))
        } else {
            Ok(None)
        }
    }

    /// The number of instructions.
    pub fn len(&self) -> usize
        ensures length { result ≡ length self.now.instrs }
        ensures valid { IsValid self.now }
    {
        self.instrs.len()
    }

    /// How many slots of each kind there are.
    pub fn slots(&self) -> SlotCounts
        ensures counts { result ≡ self.now.slots }
        ensures valid { IsValid self.now }
    {
        self.slots
    }

    /// The instruction at a place, counted from 0.
    pub fn get(&self, place: usize) -> Option<&Instr>
        ensures instr { option_copied result ≡ slice_get self.now.instrs place }
        ensures runs { IfSome result (λ i. RunsAt self.now place i.now) }
        ensures limit { OnSome result (place + 1 < 2 ^ 64) }
        ensures few { length self.now.instrs < 2 ^ 64 }
        ensures valid { IsValid self.now }
    {
        self.instrs.get(place)
    }

    /// The instruction at a place that the code has, counted from 0.
    pub fn instr_at(&self, place: usize) -> &Instr
        requires { place < length self.now.instrs }
        ensures instr { slice_get self.now.instrs place ≡ Some result.now }
        ensures runs { RunsAt self.now place result.now }
        ensures limit { place + 1 < 2 ^ 64 }
        ensures few { length self.now.instrs < 2 ^ 64 }
        ensures valid { IsValid self.now }
    {
        &self.instrs[place]
    }
}
