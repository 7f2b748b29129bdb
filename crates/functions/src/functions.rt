//! The table of a unit's functions.

ghost use Rattle.std.specs.Prelude.{◌≡◌, ◌++◌, ◌∷◌, [], IfSome, IfOk, OnOk, Some, length, slice_get};
ghost use Rattle.std.specs.Option.{option_map};
ghost use Rattle.syntax.specs.Parts.{functions_of};
ghost use Rattle.syntax.specs.Views.{function_tree, unit_tree};
ghost use Rattle.semantics.specs.Activation.{function_at};
ghost use Rattle.functions.specs.Numbers.{FindsAll, FindsNone};

use indexmap::IndexMap;
use std::alloc::{AllocError, Global};
use std::marker::Model;
use syntax::{Function, Item};

/// A function with its number, which is its place among the functions of its unit, counted from 0.
#[derive(Clone, Copy)]
pub struct NumberedFunction<'a> {
    pub number: usize,
    pub function: &'a Function,
}

/// The functions of a unit, in the order of the text, each found by its name in constant time. Contracts see the unit's items.
pub struct Functions<'a> {
    items: &'a [Item],
    by_name: IndexMap<&'a [u8], NumberedFunction<'a>>,
}

impl Drop for Functions<'_> {
    fn drop(self) {
        let Functions { items: _, by_name } = self;
        drop(by_name);
    }
}

impl<'a> Model for Functions<'a> {
    ghost use Rattle.std.specs.Prelude.{List};
    ghost use Rattle.std.specs.Coded.{codes};
    ghost use Rattle.syntax.specs.declared.unit.Item.{Item};
    ghost use Rattle.syntax.specs.contracts.unit.Item as item;
    ghost use Rattle.syntax.specs.Parts.{functions_of};
    ghost use Rattle.syntax.specs.Views.{unit_tree};
    ghost use Rattle.functions.specs.Numbers.{FindsAll};

    ghost Value = { List Item };

    ghost coded = { Prim.hlevel (codes, item.the_row.coded) };

    ghost view = { λ f. f.items.now };

    ghost invariant = { λ f. FindsAll 0 (functions_of (unit_tree f.items.now)) f.by_name };
}

impl<'a> Functions<'a> {
    /// The functions among these items. Its time grows with the number of items.
    pub fn of(alloc: Global, items: &'a [Item]) -> Result<Functions<'a>, AllocError>
        ensures { IfOk result (λ functions. functions ≡ items.now) }
    {
        let mut by_name = IndexMap::new(alloc);
        add_all(&mut by_name, items)?;
        Ok(Functions { items, by_name })
    }

    /// The items of the unit, in the order of the text.
    pub fn items(&self) -> &'a [Item]
        ensures { result.now ≡ self.now }
    {
        self.items
    }

    /// The function of a name; of several it is the first, but no accepted unit has several.
    pub fn find(&self, name: &[u8]) -> Option<NumberedFunction<'a>>
        ensures function { option_map (λ found. function_tree found.function.now) result ≡ function_at (unit_tree self.now) name.now }
        ensures number { IfSome result (λ found. slice_get (functions_of (unit_tree self.now)) found.number ≡ Some (function_tree found.function.now)) }
        ensures name { IfSome result (λ found. found.function.now.name ≡ name.now) }
    {
        self.by_name.get(name).copied()
    }
}

/// Puts a function after the others, of which this number are before it. Where one of its name is there, that one stays.
fn add<'a>(
    by_name: &mut IndexMap<&'a [u8], NumberedFunction<'a>>,
    function: &'a Function,
    number: usize,
) -> Result<(), AllocError>
    ensures { (before : _) → number ≡ length before → FindsAll 0 before by_name.old
        → OnOk result (FindsAll 0 (before ++ function_tree function.now ∷ []) by_name.new) }
{
    let name = function.name.as_bytes();
    if by_name.contains_key(name) {
        return Ok(());
    }
    match by_name.insert(name, NumberedFunction { number, function }) {
        Ok(_) => Ok(()),
        Err(_) => Err(AllocError),
    }
}

/// Puts the functions among these items into the table, in their order.
fn add_all<'a>(
    by_name: &mut IndexMap<&'a [u8], NumberedFunction<'a>>,
    items: &'a [Item],
) -> Result<(), AllocError>
    requires { FindsNone by_name.old }
    ensures { OnOk result (FindsAll 0 (functions_of (unit_tree items.now)) by_name.new) }
{
    let mut number = 0;
    for item in items {
        match item {
            Item::Static(_) => {}
            Item::Function(function) => {
                add(by_name, function, number)?;
                number += 1;
            }
        }
    }
    Ok(())
}
