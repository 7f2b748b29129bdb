//! Fields by field IDs, which may be NULL, and where they are.

ghost use Rattle.std.specs.Prelude.{◌≡◌, IfSome};
ghost use Rattle.classes.specs.FieldViews.{field_id_view};
ghost use Rattle.classes.specs.Views.{field_type_view};
ghost use Rattle.class_rules.specs.Fields.{layout, own_statics, same_field};
ghost use Rattle.class_rules.specs.Grown.{IsGrown};
ghost use Rattle.semantics.specs.Heap.{place_in};
ghost use Rattle.replay_arguments.specs.Actuals.{given_field};

use class_rules::{ClassId, NO_CLASS};
use classes::LayoutFields;
use classes::class::{ElementType, FieldHandle, FieldType};
use classes::fields::FieldId;
use classes::table::ClassTable;

/// Whether the field is a static; NULL is none.
pub fn is_static(field: Option<FieldId<'_>>) -> bool
    ensures { result ≡ (given_field field.entry).is_static }
{
    match field {
        Some(field) => field.is_static,
        None => false,
    }
}

/// The class that declares the field, and 0 for NULL.
pub fn declaring(field: Option<FieldId<'_>>) -> ClassId
    ensures { result.number ≡ (given_field field.entry).class }
{
    match field {
        Some(field) => field.class,
        None => NO_CLASS,
    }
}

/// What the field holds, and numbers for NULL.
pub fn type_of(field: Option<FieldId<'_>>) -> FieldType
    ensures { field_type_view result ≡ (given_field field.entry).field.type }
{
    match field {
        Some(field) => field.field.field_type,
        None => FieldType::Number(ElementType::Int),
    }
}

/// The name of the field, which is empty for NULL.
fn name_of<'a>(field: Option<FieldId<'a>>) -> &'a [u8]
    ensures { result.now ≡ (given_field field.entry).field.name }
{
    match field {
        Some(field) => field.field.name,
        None => &[],
    }
}

/// Whether a field is that of a field ID.
fn is_field(field: Option<FieldId<'_>>, other: FieldId<'_>) -> bool
    ensures { result ≡ same_field (given_field field.entry) (field_id_view other.entry) }
{
    declaring(field) == other.class && name_of(field) == other.field.name
}

/// The place of the field among those of the objects of a class, and 0 where it isn't among them. A field that was found in these
/// classes is known by its place in its own: the cost goes by the depth of the class.
pub fn field_place(classes: &ClassTable, class: ClassId, field: Option<FieldId<'_>>) -> usize
    requires { IsGrown classes.now }
    ensures { result ≡ place_in (given_field field.entry) (layout classes.now class.number) }
{
    match known_field_place(classes, class, field) {
        Some(place) => place,
        None => searched_field_place(classes, class, field),
    }
}

/// The place of a field that was found in these classes, among those of the objects of a class.
fn known_field_place(
    classes: &ClassTable,
    class: ClassId,
    field: Option<FieldId<'_>>,
) -> Option<usize>
    requires { IsGrown classes.now }
    ensures { IfSome result (λ place. place ≡ place_in (given_field field.entry) (layout classes.now class.number)) }
{
    match field {
        Some(field) => classes.place_of_field(class, field),
        None => None,
    }
}

/// The place of a field, by comparing it with all fields: for NULL, and for a field of other classes, as in no accepted
/// program.
fn searched_field_place(classes: &ClassTable, class: ClassId, field: Option<FieldId<'_>>) -> usize
    ensures { result ≡ place_in (given_field field.entry) (layout classes.now class.number) }
{
    let mut fields = LayoutFields::of(classes, class);
    let count = fields.len();
    for place in 0..count {
        let other = fields.next().unwrap();
        if is_field(field, other) {
            return place;
        }
    }
    0
}

/// The place of the static among those of the class that declares it, and 0 where it isn't among them. A static that was found in
/// these classes is known by its place.
pub fn static_place(classes: &ClassTable, field: Option<FieldId<'_>>) -> usize
    ensures { result ≡ place_in (given_field field.entry) (own_statics classes.now (given_field field.entry).class) }
{
    match known_static_place(classes, field) {
        Some(place) => place,
        None => searched_static_place(classes, field),
    }
}

/// The place of a static that was found in these classes, among those of the class that declares it.
fn known_static_place(classes: &ClassTable, field: Option<FieldId<'_>>) -> Option<usize>
    ensures { IfSome result (λ place. place ≡ place_in (given_field field.entry) (own_statics classes.now (given_field field.entry).class)) }
{
    match field {
        Some(field) => classes.place_of_static(field),
        None => None,
    }
}

/// The place of a static, by comparing it with all statics: for NULL, and for a static of other classes, as in no
/// accepted program.
fn searched_static_place(classes: &ClassTable, field: Option<FieldId<'_>>) -> usize
    ensures { result ≡ place_in (given_field field.entry) (own_statics classes.now (given_field field.entry).class) }
{
    let class = declaring(field);
    for place in 0..classes.own_statics(class).len() {
        let handle = FieldHandle {
            class,
            place,
            is_static: true,
        };
        let other = classes.field_at(handle).unwrap();
        if is_field(field, other) {
            return place;
        }
    }
    0
}
