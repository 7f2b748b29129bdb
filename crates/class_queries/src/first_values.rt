//! What objects hold at first.

ghost use Rattle.std.specs.Prelude.{◌≡◌, ◌≤◌, IfOk, length, map, ◌*◌};
ghost use Rattle.base.specs.Limits.{most_classes, most_fields};
ghost use Rattle.class_rules.specs.Fields.{layout};
ghost use Rattle.classes.specs.Views.{field_type_view};
ghost use Rattle.semantics.specs.World.{initial};
ghost use Rattle.world_values.specs.Views.{object_value_view};

use class_rules::ClassId;
use classes::LayoutFields;
use classes::class::FieldType;
use classes::own_fields::OwnFields;
use classes::table::ClassTable;
use std::alloc::{AllocError, Global};
use world_values::ObjectValue;

/// What the statics of a class hold at first: 0, or NULL.
pub fn initial_values(alloc: Global, fields: &OwnFields) -> Result<Vec<ObjectValue>, AllocError>
    ensures { IfOk result (λ values. map object_value_view values.items ≡ map (λ f. initial f.type) fields.now) }
{
    let mut values = Vec::new(alloc);
    for place in 0..fields.len() {
        let field = fields.get(place).unwrap();
        values.push(initial(field.field_type))?;
    }
    Ok(values)
}

/// What the fields of a new object of the class hold: 0, or NULL. It takes a time that goes by their number and the
/// depth of the class.
pub fn fresh_values(
    alloc: Global,
    classes: &ClassTable,
    class: ClassId,
) -> Result<Vec<ObjectValue>, AllocError>
    ensures values { IfOk result (λ values. map object_value_view values.items ≡ map (λ f. initial f.field.type) (layout classes.now class.number)) }
    ensures short { IfOk result (λ values. length values.items ≤ most_classes * most_fields) }
{
    let mut fields = LayoutFields::of(classes, class);
    let mut values = Vec::with_capacity(alloc, fields.len())?;
    while let Some(id) = fields.next() {
        values.push(initial(id.field.field_type))?;
    }
    Ok(values)
}

/// What a new field of this type holds.
fn initial(field_type: FieldType) -> ObjectValue
    ensures { object_value_view result ≡ initial (field_type_view field_type) }
{
    match field_type {
        FieldType::Number(_) => ObjectValue::Number(0),
        FieldType::Reference(_) => ObjectValue::Reference(None),
    }
}
