//! The check of a unit's items.

ghost use Rattle.std.specs.Prelude.{◌≡◌, List, [], ◌∷◌, ◌++◌, OnOk, map, take};
ghost use Rattle.base.specs.Bytes.{Identifier};
ghost use Rattle.syntax.specs.Parts.{item_name};
ghost use Rattle.syntax.specs.Views.{block_tree, function_tree, item_tree};
ghost use Rattle.type_rules.specs.declared.rule.TypeRule.TheVariants.{DeclaredTwice};
ghost use Rattle.type_rules.specs.TypeRules.{has_name, has_repeated, static_type, places_of, function_places, item_places};
ghost use Rattle.types.specs.Faults.{Faults, Refuses, Finds, Tells, broken_if, found, head_faults, own_places, with_static};

use crate::blocks::check_block;
use crate::fault::{KeptFaults, TypeError, TypeFault, refuse_if, refuse_name_if, told};
use crate::scope::{enter, has_name};
use crate::taken::Taken;
use crate::telling::head_detail;
use class_rules::mangling::is_mangled;
use std::alloc::{AllocError, Global};
use syntax::{Function, Item, Name, Static};
use type_rules::{ExprType, Known, TypeRule, static_type};

/// The first rule that a function's head breaks after items of these names; `repeated` is whether two of its parameters and
/// the statics are spelled alike.
fn judge_head(names: &[Name], repeated: bool, f: &Function) -> Result<(), TypeError>
    ensures { (entry : List Identifier) → repeated ≡ has_repeated entry → Finds result (head_faults names.now entry f.now) }
{
    refuse_if(
        !is_mangled(f.name.as_bytes()),
        TypeRule::UnknownName,
        f.line,
    )?;
    refuse_if(
        has_name(names, &f.name) || repeated,
        TypeRule::DeclaredTwice,
        f.line,
    )
}

/// A fault of a function's head, with what is told of it.
fn with_detail(error: TypeError, names: &[Name], entry: &[Name], f: &Function) -> TypeError
    ensures { (broken : Faults) → Refuses error broken → Refuses result broken }
{
    match error {
        TypeError::Memory => TypeError::Memory,
        TypeError::Fault(fault) => {
            let detail = head_detail(names, entry, f, fault.rule);
            told(fault, detail)
        }
    }
}

/// Checks a function's head; `names` are those of the items before it, and `entry` those of its parameters and the statics,
/// of which two may be spelled alike.
fn check_head(names: &[Name], entry: &[Name], repeated: bool, f: &Function) -> Result<(), TypeError>
    requires { repeated ≡ has_repeated entry.now }
    ensures { Finds result (head_faults names.now entry.now f.now) }
{
    match judge_head(names, repeated, f) {
        Ok(()) => Ok(()),
        Err(error) => Err(with_detail(error, names, entry, f)),
    }
}

/// One name more, before the others.
fn put_first(names: &mut Vec<Name>, name: &Name) -> Result<(), AllocError>
    ensures { OnOk result (names.new.items ≡ name.now ∷ names.old.items) }
{
    let first = Name::new(*names.allocator(), name.as_bytes())?;
    names.insert(0, first)?;
    Ok(())
}

/// The check of a unit, after some of its items.
#[derive(Drop)]
pub(crate) struct UnitCheck<'a> {
    /// The names of these items, the latest first.
    names: Vec<Name>,
    /// The statics among them, which are known; within a function its own names too.
    known: Known<'a, ExprType>,
    /// What was found in them.
    faults: KeptFaults,
}

impl<'a> UnitCheck<'a> {
    /// No item was checked. All faults will be kept, or the first alone.
    pub(crate) fn new(alloc: Global, all: bool) -> UnitCheck<'a>
        ensures names { result.names.items ≡ [] }
        ensures known { result.known ≡ [] }
        ensures faults { result.faults ≡ record { all = all; faults = [] } }
    {
        UnitCheck {
            names: Vec::new(alloc),
            known: Known::new(alloc),
            faults: KeptFaults::new(alloc, all),
        }
    }

    /// The faults that are kept.
    pub(crate) fn into_faults(self) -> Vec<TypeFault>
        ensures { result.items ≡ self.entry.faults.faults }
    {
        self.faults.into_faults()
    }

    /// Checks a function's head and body; `entry` are the names of its scope, which are known.
    fn check_body(&mut self, entry: &[Name], f: &'a Function) -> Result<(), AllocError>
        ensures tells { OnOk result (Tells self.old.faults self.new.faults (take 1 (head_faults self.old.names.items entry.now f.now)
            ++ found (places_of f.now.result self.old.known entry.now (block_tree f.now.body)))) }
        ensures names { OnOk result (self.new.names ≡ self.old.names) }
        ensures restored { OnOk result (self.new.known ≡ self.old.known) }
    {
        let alloc = *self.names.allocator();
        let mut taken = Taken::new(alloc, f.parameters.len().saturating_add(1));
        let repeated = taken.enter(entry)?;
        let head = check_head(&self.names, entry, repeated, f);
        self.faults.keep(head)?;
        check_block(
            &mut self.known,
            &mut taken,
            f.result,
            &f.body,
            &mut self.faults,
        )
    }

    /// Checks a function. What is known are the statics, before it and again after it.
    fn check_function(&mut self, f: &'a Function) -> Result<(), AllocError>
        ensures tells { OnOk result (Tells self.old.faults self.new.faults
            (found (function_places self.old.names.items self.old.known (function_tree f.now)))) }
        ensures names { OnOk result (self.new.names ≡ self.old.names) }
        ensures restored { OnOk result (self.new.known ≡ self.old.known) }
    {
        let outside = self.known.len();
        enter(&mut self.known, f)?;
        let entry = self.known.names(*self.names.allocator())?;
        let checked: Result<(), AllocError> = self.check_body(&entry, f);
        self.known.leave(outside);
        checked
    }

    /// Checks a static, which becomes one of the items.
    fn check_static(&mut self, s: &'a Static) -> Result<(), AllocError>
        ensures tells { OnOk result (Tells self.old.faults self.new.faults
            (take 1 (broken_if (has_name self.old.names.items s.now.name) DeclaredTwice s.now.line))) }
        ensures names { OnOk result (self.new.names.items ≡ s.now.name ∷ self.old.names.items) }
        ensures known { OnOk result (self.new.known ≡ (s.now.name, static_type s.now.kind) ∷ self.old.known) }
    {
        let name = refuse_name_if(
            has_name(&self.names, &s.name),
            TypeRule::DeclaredTwice,
            s.line,
            &s.name,
        );
        self.faults.keep(name)?;
        self.known.declare(&s.name, static_type(s.kind))?;
        put_first(&mut self.names, &s.name)?;
        Ok(())
    }

    /// Checks a function, which becomes one of the items.
    fn check_named(&mut self, f: &'a Function) -> Result<(), AllocError>
        ensures tells { OnOk result (Tells self.old.faults self.new.faults
            (found (function_places self.old.names.items self.old.known (function_tree f.now)))) }
        ensures names { OnOk result (self.new.names.items ≡ f.now.name ∷ self.old.names.items) }
        ensures known { OnOk result (self.new.known ≡ self.old.known) }
    {
        self.check_function(f)?;
        put_first(&mut self.names, &f.name)?;
        Ok(())
    }

    /// Checks an item, which becomes one of those before the next.
    fn check_item(&mut self, item: &'a Item) -> Result<(), AllocError>
        ensures tells { OnOk result (Tells self.old.faults self.new.faults
            (found (own_places self.old.names.items self.old.known (item_tree item.now)))) }
        ensures names { OnOk result (self.new.names.items ≡ item_name (item_tree item.now) ∷ self.old.names.items) }
        ensures known { OnOk result (self.new.known ≡ with_static self.old.known (item_tree item.now)) }
    {
        match item {
            Item::Static(s) => self.check_static(s),
            Item::Function(f) => self.check_named(f),
        }
    }

    /// Checks items, which become more of those before the next by each. Each name is compared with those of the items
    /// before it, which are 512 at most.
    pub(crate) fn check_items(&mut self, items: &'a [Item]) -> Result<(), AllocError>
        ensures { OnOk result (Tells self.old.faults self.new.faults
            (found (item_places self.old.names.items self.old.known (map item_tree items.now)))) }
    {
        for item in items {
            self.check_item(item)?;
        }
        Ok(())
    }
}
