//! The classes of a table, as it holds them.

ghost use Rattle.std.specs.Prelude.{◌≡◌, ◌+◌, ◌<◌, ◌≤◌, ◌++◌, ◌∷◌, [], false, length, slice_get, Some, None, IfOk, OnOk, OnErr, is_ok, if◌then◌else◌};
ghost use Rattle.std.specs.List.{list_any};
ghost use Rattle.std.specs.Option.{option_map};
ghost use Rattle.std.specs.Str.{bytes_eq};
ghost use Rattle.indexmap.specs.IndexMap.{spare};
ghost use Rattle.class_rules.specs.ClassIds.{number_of};
ghost use Rattle.class_rules.specs.Additions.{new_class, with_class};
ghost use Rattle.class_rules.specs.BuiltIns.{array_class};
ghost use Rattle.class_rules.specs.Class.{class_named, array_name};
ghost use Rattle.classes.specs.FieldViews.{declared_as, with_declared};
ghost use Rattle.classes.specs.Views.{class_view, classes_view, field_type_view, kind_view};

use crate::built_ins::OBJECT;
use crate::class::{ClassKind, Entry, FieldType};
use crate::own_fields::OwnFields;
use class_rules::ClassId;
use indexmap::IndexMap;
use std::alloc::{AllocError, Global};
use std::marker::Model;

/// Classes by name, in the order of their declarations. A class is found by its name or its place in constant time.
pub(crate) struct Entries {
    classes: IndexMap<Vec<u8>, Entry>,
    /// What a number without a class declares: nothing.
    nothing: OwnFields,
}

impl Drop for Entries {
    fn drop(self) {
        let Entries { classes, nothing } = self;
        drop(classes);
        drop(nothing);
    }
}

impl Model for Entries {
    ghost use Rattle.class_rules.specs.Class.{Classes};

    ghost Value = { Classes };

    ghost use Rattle.classes.specs.Views.{classes_view};

    ghost view = { λ e. classes_view e.classes.entries };

    ghost use Rattle.std.specs.Prelude.{◌≡◌, []};

    ghost invariant = { λ e. e.nothing ≡ [] };
}

impl Entry {
    /// A plain class without fields.
    fn plain(alloc: Global, superclass: ClassId) -> Entry
        ensures { (name : _) → class_view (name, result) ≡ new_class name.items (Some superclass.number) }
    {
        Entry {
            superclass: Some(superclass),
            kind: ClassKind::Plain,
            fields: OwnFields::new(alloc),
            statics: OwnFields::new(alloc),
        }
    }

    /// A class of arrays.
    pub(crate) fn of_arrays(alloc: Global, kind: ClassKind) -> Entry
        ensures { (name : _) → class_view (name, result) ≡ array_class name.items (kind_view kind) }
    {
        Entry {
            superclass: Some(OBJECT),
            kind,
            fields: OwnFields::new(alloc),
            statics: OwnFields::new(alloc),
        }
    }
}

/// The name of the class of arrays whose elements are of the class of this name.
pub(crate) fn array_name(alloc: Global, element: &[u8]) -> Result<Vec<u8>, AllocError>
    ensures { IfOk result (λ name. name.items ≡ array_name element.now) }
{
    [b"[L", element, b";"].concat(alloc)
}

/// Puts a class after the others. There is room for it.
fn put_in_room(classes: &mut IndexMap<Vec<u8>, Entry>, name: Vec<u8>, entry: Entry)
    requires new { class_named (classes_view classes.old.entries) name.items ≡ None }
    requires room { 0 < spare classes.old }
    ensures classes { classes_view classes.new.entries ≡ classes_view classes.old.entries ++ class_view (name, entry) ∷ [] }
    ensures room { spare classes.old ≤ spare classes.new + 1 }
{
    let _ = classes.insert(name, entry).unwrap();
}

impl Entries {
    pub(crate) fn new(alloc: Global) -> Entries
        ensures { result ≡ [] }
    {
        Entries {
            classes: IndexMap::new(alloc),
            nothing: OwnFields::new(alloc),
        }
    }

    /// What a number without a class declares.
    pub(crate) fn nothing(&self) -> &OwnFields
        ensures { result.now ≡ [] }
    {
        &self.nothing
    }

    pub(crate) fn allocator(&self) -> Global {
        *self.classes.allocator()
    }

    pub(crate) fn len(&self) -> usize
        ensures { result ≡ length self.now }
    {
        self.classes.len()
    }

    /// The class of this name.
    pub(crate) fn find(&self, name: &[u8]) -> Option<ClassId>
        ensures { number_of result ≡ class_named self.now name.now }
    {
        // That there are fewer than 2^63 is told here, for the sum.
        let _ = self.classes.len();
        match self.classes.get_index_of(name) {
            Some(place) => Some(ClassId { number: place + 1 }),
            None => None,
        }
    }

    /// The class at a place, counted from 0: its name, and what else is kept of it.
    pub(crate) fn get(&self, place: usize) -> Option<(&Vec<u8>, &Entry)>
        ensures { option_map (λ p. class_view (p.0.now, p.1.now)) result ≡ slice_get self.now place }
    {
        self.classes.get_index(place)
    }

    /// Puts a class after the others. After a refusal there are the classes that there were.
    pub(crate) fn put(&mut self, name: Vec<u8>, entry: Entry) -> Result<(), AllocError>
        requires { class_named self.old name.items ≡ None }
        ensures ok { OnOk result (self.new ≡ self.old ++ class_view (name, entry) ∷ []) }
        ensures err { OnErr result (self.new ≡ self.old) }
    {
        self.classes.reserve(1)?;
        put_in_room(&mut self.classes, name, entry);
        Ok(())
    }

    /// Puts a plain class and the class of its arrays after the others. After a refusal there are the classes that there were.
    pub(crate) fn put_class(&mut self, name: &[u8], superclass: ClassId) -> Result<(), AllocError>
        requires new { class_named self.old name.now ≡ None }
        requires new_arrays { class_named self.old (array_name name.now) ≡ None }
        ensures { self.new ≡ (if is_ok result then with_class self.old (new_class name.now (Some superclass.number)) else self.old) }
    {
        let alloc = *self.classes.allocator();
        self.classes.reserve(2)?;
        let number = self.classes.len() + 1;
        let arrays = array_name(alloc, name)?;
        let name = Vec::from_slice(alloc, name)?;
        put_in_room(&mut self.classes, name, Entry::plain(alloc, superclass));
        put_in_room(
            &mut self.classes,
            arrays,
            Entry::of_arrays(alloc, ClassKind::ArrayOfObjects(ClassId { number })),
        );
        Ok(())
    }

    /// Puts a field, or a static, after the others of the class at this place, of which none has its name. After a refusal the
    /// classes are what they were.
    pub(crate) fn put_field(
        &mut self,
        place: usize,
        name: &[u8],
        field_type: FieldType,
        is_static: bool,
    ) -> Result<(), AllocError>
        requires there { place < length self.old }
        requires new { list_any (λ f. bytes_eq f.name name.now) (declared_as self.old (place + 1) is_static) ≡ false }
        ensures { self.new ≡ (if is_ok result then with_declared self.old (Some (place + 1))
            (record { name = name.now; type = field_type_view field_type }) is_static else self.old) }
    {
        let entry = &mut self.classes[place];
        if is_static {
            return entry.statics.push(name, field_type);
        }
        entry.fields.push(name, field_type)
    }
}
