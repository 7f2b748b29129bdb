//! Units that are accepted.

ghost use Rattle.std.specs.Prelude.{◌≡◌};
ghost use Rattle.syntax.specs.Limits.{IsTree};
ghost use Rattle.syntax.specs.Views.{unit_tree};
ghost use Rattle.type_rules.specs.TypeRules.{IsWellTyped};
ghost use Rattle.region_rules.specs.Regions.{HasRegions};
ghost use Rattle.region_rules.specs.Endings.{AreEnded};

use std::marker::Model;
use syntax::Item;
use type_rules::Typed;

/// A unit that keeps the rules of types and regions.
#[derive(Drop)]
pub struct Checked {
    typed: Typed,
}

impl Model for Checked {
    ghost use Rattle.std.specs.Prelude.{List, ◌≡◌, IsTrue};
    ghost use Rattle.std.specs.Coded.{codes};
    ghost use Rattle.syntax.specs.declared.unit.Item.{Item};
    ghost use Rattle.syntax.specs.contracts.unit.Item as item;
    ghost use Rattle.syntax.specs.Views.{unit_tree};
    ghost use Rattle.region_rules.specs.Regions.{HasRegions};

    ghost Value = { List Item };

    ghost coded = { Prim.hlevel (codes, item.the_row.coded) };

    ghost view = { λ c. c.typed };

    ghost invariant = { λ c. HasRegions (unit_tree c.typed) };
}

impl Checked {
    /// A unit that is known to keep the rules. `regions` finds out.
    pub fn of(typed: Typed) -> Checked
        requires { HasRegions (unit_tree typed) }
        ensures { result ≡ typed }
    {
        Checked { typed }
    }

    /// The items of the unit, in the order of the text.
    pub fn items(&self) -> &[Item]
        ensures same { result.now ≡ self.now }
        ensures tree { IsTree (unit_tree result.now) }
        ensures well_typed { IsWellTyped (unit_tree result.now) }
        ensures regions { HasRegions (unit_tree result.now) }
        ensures ends { AreEnded (unit_tree result.now) }
    {
        self.typed.items()
    }
}
