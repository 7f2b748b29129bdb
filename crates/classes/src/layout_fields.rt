//! A walk along the layout of a class.

ghost use Rattle.std.specs.Prelude.{◌≡◌, ◌≤◌, ◌∷◌, [], flat_map, length, reverse, slice_get, IfSome, MatchOption, ◌*◌};
ghost use Rattle.std.specs.Option.{option_map};
ghost use Rattle.base.specs.Limits.{most_classes, most_fields};
ghost use Rattle.classes.specs.LayoutsLeft.{rest_from};
ghost use Rattle.class_rules.specs.Fields.{layout, own_fields};
ghost use Rattle.classes.specs.FieldViews.{field_id_view};

use crate::class::FieldHandle;
use crate::fields::FieldId;
use crate::path::Path;
use crate::table::ClassTable;
use base::limits::MOST_CLASSES;
use class_rules::{ClassId, NO_CLASS};
use std::marker::Model;

/// A place in a layout: the class whose own fields come next, how many of these have come, and the classes below it,
/// the next one last.
#[derive(Drop)]
pub(crate) struct Position {
    class: ClassId,
    place: usize,
    below: Path,
}

/// The fields of a class's objects that are still to come, in their order: those of its superclasses first. It never allocates.
///
/// All of them are taken in a time that goes by their number and the depth of the class.
#[derive(Drop)]
pub struct LayoutFields<'t> {
    classes: &'t ClassTable,
    position: Position,
    /// How many fields are still to come.
    left: usize,
}

impl<'t> Model for LayoutFields<'t> {
    ghost use Rattle.std.specs.Prelude.{List, ◌≡◌, ◌+◌, ◌*◌, ◌≤◌, length};
    ghost use Rattle.class_rules.specs.Fields.{FieldId};
    ghost use Rattle.base.specs.Limits.{most_classes, most_fields};
    ghost use Rattle.classes.specs.LayoutsLeft.{rest_from};

    ghost Value = { List FieldId };

    ghost view = { λ w. rest_from w.classes.now w.position };

    ghost invariant = { λ w. (w.left ≡ length (rest_from w.classes.now w.position)) × (w.position.place + w.left ≤ most_classes * most_fields) };
}

/// The path down to a class: the class, its superclass, and so on. A number past those of all classes has no fields.
fn path_to(classes: &ClassTable, class: ClassId) -> Path
    ensures { flat_map (own_fields classes.now) (reverse result) ≡ layout classes.now class.number }
{
    let mut ancestors = Path::new();
    let mut ancestor = class;
    for _ in 0..classes.len() {
        if ancestor.number > MOST_CLASSES {
            return ancestors;
        }
        ancestors.push(ancestor.number as u16);
        match classes.superclass(ancestor) {
            Some(above) => ancestor = above,
            None => return ancestors,
        }
    }
    ancestors
}

/// The field of this place among those that the class declares itself.
fn own_field<'t>(classes: &'t ClassTable, class: ClassId, place: usize) -> Option<FieldId<'t>>
    ensures { option_map field_id_view result ≡ slice_get (own_fields classes.now class.number) place }
{
    classes.field_at(FieldHandle {
        class,
        place,
        is_static: false,
    })
}

/// The first field from a position on, which moves to the class that declares it.
fn first_field<'t>(classes: &'t ClassTable, position: &mut Position) -> Option<FieldId<'t>>
    ensures rest { rest_from classes.now position.new ≡ rest_from classes.now position.old }
    ensures first { option_map field_id_view result ≡ slice_get (rest_from classes.now position.new) 0 }
    ensures place { position.new.place ≤ position.old.place }
    ensures own { IfSome result (λ f. slice_get (own_fields classes.now position.new.class.number) position.new.place ≡ Some (field_id_view f)) }
{
    loop {
        if let Some(field) = own_field(classes, position.class, position.place) {
            return Some(field);
        }
        position.class = ClassId {
            number: usize::from(position.below.pop()?),
        };
        position.place = 0;
    }
}

impl<'t> LayoutFields<'t> {
    /// All fields of the objects of a class.
    pub fn of(classes: &'t ClassTable, class: ClassId) -> LayoutFields<'t>
        ensures { result ≡ layout classes.now class.number }
    {
        LayoutFields {
            classes,
            position: Position {
                class: NO_CLASS,
                place: 0,
                below: path_to(classes, class),
            },
            left: classes.layout_len(class),
        }
    }

    /// How many are still to come.
    pub fn len(&self) -> usize
        ensures len { result ≡ length self.now }
        ensures small { result ≤ most_classes * most_fields }
    {
        self.left
    }

    /// Takes the next field.
    pub fn next(&mut self) -> Option<FieldId<'t>>
        ensures { MatchOption result ((self.old ≡ []) × (self.new ≡ [])) (λ f. self.old ≡ field_id_view f ∷ self.new) }
    {
        let field = first_field(self.classes, &mut self.position)?;
        self.position.place += 1;
        self.left -= 1;
        Some(field)
    }
}
