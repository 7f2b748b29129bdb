//! Class tables: which classes there are, by number and by name.

ghost use Rattle.std.specs.Prelude.{◌≡◌, ◌≤◌, length, not, IfOk, IsTrue};
ghost use Rattle.std.specs.Option.{option_map};
ghost use Rattle.base.specs.Limits.{most_classes};
ghost use Rattle.class_rules.specs.ClassIds.{number_of};
ghost use Rattle.class_rules.specs.BuiltIns.{built_ins};
ghost use Rattle.classes.specs.BuiltInList.{listed_classes, is_class_list};
ghost use Rattle.class_rules.specs.Class.{class_at, class_named, class_name, class_kind, superclass, is_plain, is_subclass, elements_fit, assignable, array_name};
ghost use Rattle.classes.specs.Views.{class_view, kind_view};

use crate::built_ins::{BUILT_INS, BuiltIn, listed};
use crate::class::{ClassKind, Entry};
use crate::entries::{Entries, array_name};
use class_rules::ClassId;
use std::alloc::{AllocError, Global};
use std::marker::Model;

/// The classes, each at its number, which is its place counted from 1. A class is found by its name or its number in
/// constant time.
pub struct ClassTable {
    pub(crate) classes: Entries,
}

impl Drop for ClassTable {
    fn drop(self) {
        let ClassTable { classes } = self;
        drop(classes);
    }
}

impl Model for ClassTable {
    ghost use Rattle.class_rules.specs.BuiltIns.{built_ins};
    ghost use Rattle.classes.specs.BuiltInList.{listed_classes, is_class_list};
    ghost use Rattle.class_rules.specs.Class.{Classes};

    ghost Value = { Classes };

    ghost use Rattle.classes.specs.Tables.{IsTable};

    ghost view = { λ t. t.classes };

    ghost invariant = { λ t. IsTable t.classes };
}

impl ClassTable {
    /// The table of these classes, the classes of arrays of numbers, and those of arrays of each of these.
    pub fn new(alloc: Global, built_ins: &[BuiltIn]) -> Result<ClassTable, AllocError>
        requires { IsTrue (is_class_list built_ins.now) }
        ensures { IfOk result (λ table. table ≡ listed_classes built_ins.now) }
    {
        let classes = listed(alloc, built_ins)?;
        Ok(ClassTable { classes })
    }

    /// The table of the built-in classes.
    pub fn of_built_ins(alloc: Global) -> Result<ClassTable, AllocError>
        ensures { IfOk result (λ table. table ≡ built_ins) }
    {
        ClassTable::new(alloc, &BUILT_INS)
    }

    /// The number of classes.
    pub fn len(&self) -> usize
        ensures len { result ≡ length self.now }
        ensures few { result ≤ most_classes }
    {
        self.classes.len()
    }

    /// The class of this name.
    pub fn find(&self, name: &[u8]) -> Option<ClassId>
        ensures { number_of result ≡ class_named self.now name.now }
    {
        self.classes.find(name)
    }

    /// The class of arrays whose elements are of the class of this name.
    pub fn find_array_of(&self, name: &[u8]) -> Result<Option<ClassId>, AllocError>
        ensures { IfOk result (λ class. number_of class ≡ class_named self.now (array_name name.now)) }
    {
        let name = array_name(self.classes.allocator(), name)?;
        Ok(self.find(&name))
    }

    /// The class of a number: its name, and what else is kept of it.
    pub(crate) fn entry(&self, class: ClassId) -> Option<(&Vec<u8>, &Entry)>
        ensures { option_map (λ p. class_view (p.0.now, p.1.now)) result ≡ class_at self.now class.number }
    {
        if class.number == 0 {
            return None;
        }
        self.classes.get(class.number - 1)
    }

    /// Its name, which is empty where there is no class of this number.
    pub fn name(&self, class: ClassId) -> &[u8]
        ensures { result.now ≡ class_name self.now class.number }
    {
        match self.entry(class) {
            Some((name, _)) => name,
            None => &[],
        }
    }

    /// Its superclass, where there is one.
    pub fn superclass(&self, class: ClassId) -> Option<ClassId>
        ensures { number_of result ≡ superclass self.now class.number }
    {
        let (_, entry) = self.entry(class)?;
        entry.superclass
    }

    /// Its kind: `Plain` also where there is no class of this number.
    pub fn kind(&self, class: ClassId) -> ClassKind
        ensures { kind_view result ≡ class_kind self.now class.number }
    {
        match self.entry(class) {
            Some((_, entry)) => entry.kind,
            None => ClassKind::Plain,
        }
    }

    /// Whether it is a class of arrays.
    pub fn is_array(&self, class: ClassId) -> bool
        ensures { result ≡ not (is_plain (class_kind self.now class.number)) }
    {
        !matches!(self.kind(class), ClassKind::Plain)
    }

    /// Whether the first is the second or below it. The cost goes by the depth of the first.
    pub(crate) fn is_subclass(&self, class: ClassId, other: ClassId) -> bool
        ensures { result ≡ is_subclass self.now class.number other.number }
    {
        let mut ancestor = class;
        for _ in 0..self.len() {
            if ancestor == other {
                return true;
            }
            match self.superclass(ancestor) {
                Some(above) => ancestor = above,
                None => return false,
            }
        }
        false
    }

    /// Whether both are classes of arrays of objects, and the elements of the first go into arrays of the second.
    fn elements_fit(&self, class: ClassId, other: ClassId) -> bool
        ensures { result ≡ elements_fit self.now (class_kind self.now class.number) (class_kind self.now other.number) }
    {
        match (self.kind(class), self.kind(other)) {
            (ClassKind::ArrayOfObjects(element), ClassKind::ArrayOfObjects(wanted)) => {
                self.is_subclass(element, wanted)
            }
            _ => false,
        }
    }

    /// Whether an object of the first can be used where one of the second is wanted. The cost goes by the depth of the hierarchy.
    pub fn assignable(&self, class: ClassId, other: ClassId) -> bool
        ensures { result ≡ assignable self.now class.number other.number }
    {
        self.is_subclass(class, other) || self.elements_fit(class, other)
    }
}
