//! Units whose names and types keep the rules.

ghost use Rattle.std.specs.Prelude.{◌≡◌};
ghost use Rattle.syntax.specs.Limits.{IsTree};
ghost use Rattle.syntax.specs.Views.{unit_tree};
ghost use Rattle.type_rules.specs.TypeRules.{IsWellTyped};

use std::marker::Model;
use syntax::{Item, Unit};

/// A unit that is well-typed.
#[derive(Drop)]
pub struct Typed {
    unit: Unit,
}

impl Model for Typed {
    ghost use Rattle.std.specs.Prelude.{List};
    ghost use Rattle.std.specs.Coded.{codes};
    ghost use Rattle.syntax.specs.declared.unit.Item.{Item};
    ghost use Rattle.syntax.specs.contracts.unit.Item as item;
    ghost use Rattle.syntax.specs.Limits.{IsTree};
    ghost use Rattle.syntax.specs.Views.{unit_tree};
    ghost use Rattle.type_rules.specs.TypeRules.{IsWellTyped};

    ghost Value = { List Item };

    ghost coded = { Prim.hlevel (codes, item.the_row.coded) };

    ghost view = { λ t. t.unit };

    ghost invariant = { λ t. IsWellTyped (unit_tree t.unit) };
}

impl Typed {
    /// A unit that is known to be well-typed. `types` finds out.
    pub fn of(unit: Unit) -> Typed
        requires { IsWellTyped (unit_tree unit) }
        ensures { result ≡ unit }
    {
        Typed { unit }
    }

    /// The items of the unit, in the order of the text.
    pub fn items(&self) -> &[Item]
        ensures same { result.now ≡ self.now }
        ensures tree { IsTree (unit_tree result.now) }
        ensures well_typed { IsWellTyped (unit_tree result.now) }
    {
        self.unit.items()
    }
}
