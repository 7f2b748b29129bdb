//! The statics of a unit: references that outlive calls.

ghost use Rattle.std.specs.Prelude.{◌≡◌, ◌++◌, [], IfOk, OnOk, Some};
ghost use Rattle.std.specs.Option.{option_map};
ghost use Rattle.base.specs.Bytes.{lookup};
ghost use Rattle.syntax.specs.Views.{unit_tree};
ghost use Rattle.semantics.specs.Reachable.{is_in};
ghost use Rattle.semantics.specs.Sight.{static_is_null};
ghost use Rattle.semantics.specs.Start.{null_statics};
ghost use Rattle.semantics.specs.Value.{Gives};
ghost use Rattle.semantics.specs.Variable.{as_argument, as_reference, assign};
ghost use Rattle.semantics.specs.Views.{name_of, names_of};
ghost use Rattle.semantics.specs.WeakReferences.{cleared, cleared_statics, weakly_held};
ghost use Rattle.replay_terms.specs.Views.{assign_all, by_name, held_view, statics_view};

use indexmap::IndexMap;
use semantics::ObjectId;
use std::alloc::{AllocError, Global};
use std::marker::Model;
use syntax::{Item, Name};

/// What a static holds: a global reference, weak or not, is known by the name of its object.
pub type StaticReference = semantics::StaticReference<ObjectId, ObjectId>;

/// The statics of a unit, in its order, seen as those of the definitions. A name is found in constant time.
pub struct Statics<'a> {
    held: IndexMap<&'a [u8], StaticReference>,
}

impl Drop for Statics<'_> {
    fn drop(self) {
        let Statics { held } = self;
        drop(held);
    }
}

impl<'a> Model for Statics<'a> {
    ghost use Rattle.semantics.specs.Variable.{Statics};
    ghost use Rattle.replay_terms.specs.Views.{by_name, statics_view};

    ghost Value = { Statics };

    ghost view = { λ s. statics_view (by_name s.held.entries) };
}

/// Whether a static holds NULL.
pub(crate) fn is_empty(held: StaticReference) -> bool
    ensures { static_is_null (Some (held_view held)) ≡ Gives result }
{
    matches!(held, StaticReference::Empty)
}

/// What an argument is that a static holds: of a weak reference its object, and NULL where it was cleared.
pub(crate) fn as_argument(held: StaticReference) -> StaticReference
    ensures { held_view result ≡ as_argument (held_view held) }
{
    match held {
        StaticReference::Weakly(name) => StaticReference::Live(name),
        StaticReference::Cleared => StaticReference::Empty,
        StaticReference::Empty => held,
        StaticReference::Live(_) => held,
        StaticReference::Deleted => held,
    }
}

/// The object that what is held is, if it is one.
pub fn as_reference(held: StaticReference) -> Option<ObjectId>
    ensures { name_of result ≡ as_reference (held_view held) }
{
    match held {
        StaticReference::Live(name) => Some(name),
        StaticReference::Empty | StaticReference::Weakly(_) => None,
        StaticReference::Cleared | StaticReference::Deleted => None,
    }
}

/// Whether an object is among these.
pub fn is_among(names: &[ObjectId], name: ObjectId) -> bool
    ensures { result ≡ is_in (names_of names.now) name.number }
{
    for other in names {
        if other.number == name.number {
            return true;
        }
    }
    false
}

/// What a static holds, once the weak references to these objects are cleared.
fn cleared(names: &[ObjectId], held: StaticReference) -> StaticReference
    ensures { held_view result ≡ cleared (names_of names.now) (held_view held) }
{
    match held {
        StaticReference::Weakly(name) => {
            if is_among(names, name) {
                StaticReference::Cleared
            } else {
                held
            }
        }
        _ => held,
    }
}

/// Clears the weak references to these objects.
fn clear_held(held: &mut IndexMap<&[u8], StaticReference>, names: &[ObjectId])
    ensures { statics_view (by_name held.new.entries)
        ≡ cleared_statics (names_of names.now) (statics_view (by_name held.old.entries)) }
{
    for place in 0..held.len() {
        let reference = &mut held[place];
        *reference = cleared(names, *reference);
    }
}

/// Adds the objects of the weak references that aren't cleared.
fn add_weak(
    names: &mut Vec<ObjectId>,
    held: &IndexMap<&[u8], StaticReference>,
) -> Result<(), AllocError>
    ensures { IfOk result (λ _. names_of names.new.items
        ≡ names_of names.old.items ++ weakly_held (statics_view (by_name held.now.entries))) }
{
    for place in 0..held.len() {
        if let StaticReference::Weakly(name) = held[place] {
            names.push(name)?;
        }
    }
    Ok(())
}

impl<'a> Statics<'a> {
    /// What the static of this name holds, if there is one.
    pub fn held(&self, name: &Name) -> Option<StaticReference>
        ensures { option_map held_view result ≡ lookup name.now self.now }
    {
        self.held.get(name.as_bytes()).copied()
    }

    /// The same, by the bytes of the name.
    pub fn held_named(&self, name: &[u8]) -> Option<StaticReference>
        ensures { option_map held_view result ≡ lookup name.now self.now }
    {
        self.held.get(name).copied()
    }

    /// Clears the weak references to these objects.
    pub fn clear(&mut self, names: &[ObjectId])
        ensures { self.new ≡ cleared_statics (names_of names.now) self.old }
    {
        clear_held(&mut self.held, names);
    }

    /// The objects of the weak references that aren't cleared, in the order of the statics.
    pub fn weakly_held(&self, alloc: Global) -> Result<Vec<ObjectId>, AllocError>
        ensures { IfOk result (λ names. names_of names.items ≡ weakly_held self.now) }
    {
        let mut names = Vec::new(alloc);
        add_weak(&mut names, &self.held)?;
        Ok(names)
    }

    /// Lets the static of this name hold another reference. It is new where there is none, as in no accepted program.
    pub fn set(&mut self, name: &'a [u8], held: StaticReference) -> Result<(), AllocError>
        ensures { IfOk result (λ _. self.new ≡ assign name.now (held_view held) self.old) }
    {
        if self.held.insert(name, held).is_err() {
            return Err(AllocError);
        }
        Ok(())
    }
}

/// Adds the statics of a unit, all NULL.
fn add_nulls<'a>(statics: &mut Statics<'a>, items: &'a [Item]) -> Result<(), AllocError>
    ensures { OnOk result (statics.new ≡ assign_all (null_statics (unit_tree items.entry.now)) statics.old) }
{
    for item in items {
        match item {
            Item::Static(s) => statics.set(s.name.as_bytes(), StaticReference::Empty)?,
            Item::Function(_) => {}
        }
    }
    Ok(())
}

/// The statics of a unit, all NULL: in an accepted unit no two have one name.
pub fn null_statics<'a>(alloc: Global, items: &'a [Item]) -> Result<Statics<'a>, AllocError>
    ensures { IfOk result (λ statics. statics ≡ assign_all (null_statics (unit_tree items.entry.now)) []) }
{
    let mut statics = Statics {
        held: IndexMap::new(alloc),
    };
    add_nulls(&mut statics, items)?;
    Ok(statics)
}
