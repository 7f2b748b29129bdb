//! The fields, or the statics, that a class declares itself.

ghost use Rattle.std.specs.Prelude.{◌≡◌, ◌++◌, ◌∷◌, [], Some, false, true, length, slice_get, is_ok, if◌then◌else◌, MatchOption};
ghost use Rattle.std.specs.List.{list_any};
ghost use Rattle.std.specs.Option.{option_map};
ghost use Rattle.std.specs.Str.{bytes_eq};
ghost use Rattle.classes.specs.HeldFields.{field_view, field_type_view};

use crate::class::{Field, FieldType};
use indexmap::IndexMap;
use std::alloc::{AllocError, Global};
use std::marker::Model;

/// Fields by name, in the order of their declarations, no two of one name. A field is found by its name or its place in constant
/// time.
pub struct OwnFields {
    types: IndexMap<Vec<u8>, FieldType>,
}

impl Drop for OwnFields {
    fn drop(self) {
        let OwnFields { types } = self;
        drop(types);
    }
}

impl Model for OwnFields {
    ghost use Rattle.std.specs.Prelude.{List};
    ghost use Rattle.class_rules.specs.Class.{Field};
    ghost use Rattle.classes.specs.HeldFields.{own_view};

    ghost Value = { List Field };

    ghost view = { λ f. own_view f.types.entries };
}

impl OwnFields {
    pub(crate) fn new(alloc: Global) -> OwnFields
        ensures { result ≡ [] }
    {
        OwnFields {
            types: IndexMap::new(alloc),
        }
    }

    pub fn len(&self) -> usize
        ensures { result ≡ length self.now }
    {
        self.types.len()
    }

    /// The field at a place, counted from 0.
    pub fn get(&self, place: usize) -> Option<Field<'_>>
        ensures { option_map field_view result ≡ slice_get self.now place }
    {
        match self.types.get_index(place) {
            Some((name, field_type)) => Some(Field {
                name,
                field_type: *field_type,
            }),
            None => None,
        }
    }

    /// The place of the field of this name.
    pub(crate) fn place_of(&self, name: &[u8]) -> Option<usize>
        ensures { MatchOption result
            (list_any (λ f. bytes_eq f.name name.now) self.now ≡ false)
            (λ place. (f : _) × (slice_get self.now place ≡ Some f) × (bytes_eq f.name name.now ≡ true)) }
    {
        match self.types.get_index_of(name) {
            Some(place) => Some(place),
            None => None,
        }
    }

    /// Whether one of them has this name.
    pub(crate) fn has(&self, name: &[u8]) -> bool
        ensures { result ≡ list_any (λ f. bytes_eq f.name name.now) self.now }
    {
        match self.place_of(name) {
            Some(_) => true,
            None => false,
        }
    }

    /// Puts a field after the others, of which none has its name. After a refusal the fields are what they were.
    pub(crate) fn push(&mut self, name: &[u8], field_type: FieldType) -> Result<(), AllocError>
        requires { list_any (λ f. bytes_eq f.name name.now) self.old ≡ false }
        ensures { self.new ≡ (if is_ok result then self.old ++ record { name = name.now; type = field_type_view field_type } ∷ [] else self.old) }
    {
        let name = Vec::from_slice(*self.types.allocator(), name)?;
        self.types.insert(name, field_type)?;
        Ok(())
    }
}
