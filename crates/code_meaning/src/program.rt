//! Lowered programs.

use code::code::Code;
use region_rules::Checked;
use std::marker::Model;
use syntax::Item;

/// A checked program, and the code of its functions in their order.
pub struct Program<'a> {
    checked: &'a Checked,
    codes: Vec<Code>,
}

impl Drop for Program<'_> {
    fn drop(self) {
        let Program { checked: _, codes } = self;
        drop(codes);
    }
}

impl<'a> Model for Program<'a> {
    ghost use Rattle.std.specs.Coded.{codes as all_codes};
    ghost use Rattle.syntax.specs.contracts.unit.Item as item;
    ghost use Rattle.code_meaning.specs.Lowered.{Lowered, IsLowered};

    ghost Value = { Lowered };

    ghost coded = { Prim.hlevel (all_codes, item.the_row.coded) };

    ghost view = { λ p. record { unit = p.checked.now; codes = p.codes.items } };

    ghost invariant = { λ p. IsLowered (record { unit = p.checked.now; codes = p.codes.items }) };
}

impl<'a> Program<'a> {
    ghost use Rattle.std.specs.Prelude.{◌≡◌, ◌<◌, Some, slice_get, length};
    ghost use Rattle.std.specs.Option.{option_copied};
    ghost use Rattle.syntax.specs.Limits.{IsTree};
    ghost use Rattle.syntax.specs.Views.{unit_tree};
    ghost use Rattle.type_rules.specs.TypeRules.{IsWellTyped};
    ghost use Rattle.region_rules.specs.Regions.{HasRegions};
    ghost use Rattle.code_meaning.specs.Lowered.{IsLowered};

    /// A program whose code is known to stand for its unit. `lower` makes it.
    pub fn of(checked: &'a Checked, codes: Vec<Code>) -> Self
        requires { IsLowered (record { unit = checked.now; codes = codes.items }) }
        ensures unit { result.unit ≡ checked.now }
        ensures codes { result.codes ≡ codes.items }
    {
        Program { checked, codes }
    }

    /// The items of the unit that was lowered, in the order of the text.
    pub fn items(&self) -> &[Item]
        ensures items { result.now ≡ self.now.unit }
        ensures lowered { IsLowered self.now }
        ensures tree { IsTree (unit_tree result.now) }
        ensures well_typed { IsWellTyped (unit_tree result.now) }
        ensures regions { HasRegions (unit_tree result.now) }
    {
        self.checked.items()
    }

    /// The code of a function, by its place among the unit's functions, counted from 0.
    pub fn code(&self, function: usize) -> Option<&Code>
        ensures code { option_copied result ≡ slice_get self.now.codes function }
        ensures lowered { IsLowered self.now }
    {
        self.codes.get(function)
    }

    /// The code of a function that the unit has.
    pub fn code_at(&self, function: usize) -> &Code
        requires { function < length self.now.codes }
        ensures code { slice_get self.now.codes function ≡ Some result.now }
        ensures lowered { IsLowered self.now }
    {
        &self.codes[function]
    }
}
