//! The row of an object.

ghost use Rattle.std.specs.Prelude.{◌≡◌, length, map, codes, ◌++◌, flat_map};
ghost use Rattle.report.specs.ReportText.{object_line, shown_text};
ghost use Rattle.report.specs.Shown.{shown_view};
ghost use Rattle.sinks.specs.Sink.{CanFail, Writes};
ghost use Rattle.semantics.specs.Heap.{values_of};
ghost use Rattle.semantics.specs.ReportOf.{shown_value, shown_row};
ghost use Rattle.report_objects.specs.Names.{IsWithin};
ghost use Rattle.semantics.specs.Views.{object_value_view};

use class_rules::ClassId;
use classes::table::ClassTable;
use report::{Shown, put_row_end, put_row_head, put_value};
use semantics::{ObjectId, ObjectValue, Objects};
use sinks::{Sink, SinkFailed};

/// A value as a row shows it: a class object by its class.
fn shown(classes: &ClassTable, value: ObjectValue) -> Shown<'_>
    ensures { shown_view result ≡ shown_value classes.now (object_value_view value) }
{
    match value {
        ObjectValue::Number(number) => Shown::Number(number),
        ObjectValue::Reference(None) => Shown::Null,
        ObjectValue::Reference(Some(name)) => {
            let number = name.number;
            if number <= classes.len() {
                Shown::Class(classes.name(ClassId { number }))
            } else {
                Shown::Object(number)
            }
        }
    }
}

/// Puts the values of an object.
fn put_values<O: Objects, S: Sink>(
    sink: &mut S,
    classes: &ClassTable,
    objects: &O,
    name: ObjectId,
) -> Result<(), SinkFailed>
    requires can_fail { CanFail (S.written sink.old) }
    requires name { IsWithin (length (O.heap objects.now)) name.number }
    ensures { Writes (S.written sink.old) (S.written sink.new) result
        (flat_map (λ v. codes " " ++ shown_text v) (map (shown_value classes.now)
        (values_of (O.heap objects.now) name.number))) }
{
    for index in 0..objects.count(name) {
        let value = objects.value(name, index);
        put_value(sink, shown(classes, value))?;
    }
    Ok(())
}

/// Puts the row of an object.
pub(crate) fn put_row<O: Objects, S: Sink>(
    sink: &mut S,
    classes: &ClassTable,
    objects: &O,
    name: ObjectId,
) -> Result<(), SinkFailed>
    requires can_fail { CanFail (S.written sink.old) }
    requires name { IsWithin (length (O.heap objects.now)) name.number }
    ensures { Writes (S.written sink.old) (S.written sink.new) result (object_line (shown_row classes.now (O.heap objects.now) name.number)) }
{
    let class = classes.name(objects.class_of(name));
    put_row_head(sink, name.number, class)?;
    put_values(sink, classes, objects, name)?;
    put_row_end(sink)
}
