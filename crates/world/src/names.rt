//! The names of the objects that lines have said so far, each with its class.

ghost use Rattle.class_rules.specs.ClassIds.{number_of};
ghost use Rattle.std.specs.Prelude.{◌≡◌, ◌<◌, ◌++◌, ◌∷◌, [], None, length, position, OnOk, OnErr};
ghost use Rattle.std.specs.Str.{bytes_eq};
ghost use Rattle.base.specs.Bytes.{lookup};

use class_rules::ClassId;
use indexmap::IndexMap;
use nearest::Nearest;
use std::alloc::{AllocError, Global};
use std::marker::Model;

/// Names in their order, each with its object's class. A name is found in constant time.
pub struct ObjectNames {
    classes: IndexMap<Vec<u8>, ClassId>,
}

impl Drop for ObjectNames {
    fn drop(self) {
        let ObjectNames { classes } = self;
        drop(classes);
    }
}

impl Model for ObjectNames {
    ghost use Rattle.std.specs.Prelude.{ℕ};
    ghost use Rattle.base.specs.Bytes.{ByName};
    ghost use Rattle.world.specs.NameViews.{names_view};

    ghost Value = { ByName ℕ };

    ghost view = { λ n. names_view n.classes.entries };
}

impl ObjectNames {
    pub fn new(alloc: Global) -> ObjectNames
        ensures { result ≡ [] }
    {
        ObjectNames {
            classes: IndexMap::new(alloc),
        }
    }

    pub fn len(&self) -> usize
        ensures { result ≡ length self.now }
    {
        self.classes.len()
    }

    /// The class of the object of this name.
    pub fn class_of(&self, name: &[u8]) -> Option<ClassId>
        ensures { number_of result ≡ lookup name.now self.now }
    {
        match self.classes.get(name) {
            Some(class) => Some(*class),
            None => None,
        }
    }

    /// The place of the object of this name.
    pub fn place_of(&self, name: &[u8]) -> Option<usize>
        ensures { result ≡ position (λ o. bytes_eq o.0 name.now) self.now }
    {
        self.classes.get_index_of(name)
    }

    /// Offers all names.
    pub fn offer_to<'a>(&'a self, alloc: Global, nearest: &mut Nearest<'_, 'a>) {
        for name in self.classes.keys() {
            nearest.offer(alloc, name);
        }
    }

    /// Puts a name after the others, of which none is the same.
    pub fn push(&mut self, alloc: Global, name: &[u8], class: ClassId) -> Result<(), AllocError>
        requires { lookup name.now self.old ≡ None }
        ensures ok { OnOk result (self.new ≡ self.old ++ (name.now, class.number) ∷ []) }
        ensures err { OnErr result (self.new ≡ self.old) }
    {
        let name = Vec::from_slice(alloc, name)?;
        if self.classes.insert(name, class).is_err() {
            return Err(AllocError);
        }
        Ok(())
    }
}
