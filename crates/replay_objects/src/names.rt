//! Names of objects, each as often as it was put.

ghost use Rattle.std.specs.Prelude.{◌≡◌, ◌++◌, ◌∷◌, [], IfOk, OnErr, length, reverse};
ghost use Rattle.semantics.specs.CallEffects.{without_one};
ghost use Rattle.semantics.specs.Views.{names_of};
ghost use Rattle.replay_objects.specs.Names.{Leaves};

use semantics::ObjectId;
use std::alloc::{AllocError, Global};
use std::marker::Model;

/// Names of objects, seen as a list that begins with the one that was put last.
#[derive(Drop)]
pub struct Names {
    /// The one that was put last is the last.
    names: Vec<ObjectId>,
}

impl Model for Names {
    ghost use Rattle.std.specs.Prelude.{ℕ, List, reverse};
    ghost use Rattle.semantics.specs.Views.{names_of};

    ghost Value = { List ℕ };

    ghost view = { λ n. reverse (names_of n.names.items) };
}

/// The place of the last of these names that is this one.
fn last_place(names: &[ObjectId], name: ObjectId) -> Option<usize>
    ensures { Leaves name.number (names_of names.now) result }
{
    for done in 0..names.len() {
        let place = names.len() - 1 - done;
        if name == names[place] {
            return Some(place);
        }
    }
    None
}

/// Adds names, the last one first.
fn add_reversed(all: &mut Vec<ObjectId>, names: &[ObjectId]) -> Result<(), AllocError>
    ensures { IfOk result (λ _. names_of all.new.items ≡ names_of all.old.items ++ reverse (names_of names.now)) }
{
    for done in 0..names.len() {
        all.push(names[names.len() - 1 - done])?;
    }
    Ok(())
}

impl Names {
    /// No names.
    pub fn new(alloc: Global) -> Names
        ensures { result ≡ [] }
    {
        Names {
            names: Vec::new(alloc),
        }
    }

    /// How many there are.
    pub fn len(&self) -> usize
        ensures { result ≡ length self.now }
    {
        self.names.len()
    }

    /// Puts a name.
    pub fn push(&mut self, name: ObjectId) -> Result<(), AllocError>
        ensures ok { IfOk result (λ _. self.new ≡ name.number ∷ self.old) }
        ensures err { OnErr result (self.new ≡ self.old) }
    {
        self.names.push(name)?;
        Ok(())
    }

    /// Takes a name away once, if it is there: the one that was put last. It compares it with those that were put later.
    pub fn remove(&mut self, name: ObjectId)
        ensures { self.new ≡ without_one name.number self.old }
    {
        if let Some(place) = last_place(&self.names, name) {
            self.names.remove(place);
        }
    }

    /// Adds the names to others, the one that was put last first.
    pub fn add_to(&self, names: &mut Vec<ObjectId>) -> Result<(), AllocError>
        ensures { IfOk result (λ _. names_of names.new.items ≡ names_of names.old.items ++ self.now) }
    {
        add_reversed(names, &self.names)
    }
}
