//! The rows.

ghost use Rattle.std.specs.Prelude.{◌≡◌, ◌+◌, ◌<◌, ◌++◌, length, IfOk};
ghost use Rattle.report.specs.Shown.{row_lines};
ghost use Rattle.sinks.specs.Sink.{CanFail, Writes};
ghost use Rattle.semantics.specs.Reachable.{from_one};
ghost use Rattle.semantics.specs.Views.{names_of};
ghost use Rattle.report_objects.specs.Names.{MarksReached};
ghost use Rattle.report_objects.specs.Rows.{marked_rows, AreReported};

use crate::names::Names;
use crate::roots::marked_roots;
use crate::row::put_row;
use classes::table::ClassTable;
use report::Rows;
use semantics::{ObjectId, Objects};
use sinks::{Sink, SinkFailed};
use std::alloc::{AllocError, Global};
use std::marker::Model;

/// The rows of the objects that can still be reached. Putting them asks for no memory.
#[derive(Drop)]
pub struct ReachedRows<'a, O: Objects> {
    classes: &'a ClassTable,
    objects: &'a O,
    /// Whether an object can be reached, by its name.
    reached: Vec<bool>,
    /// The name of the first object that is shown.
    first: usize,
    /// After the last name.
    end: usize,
}

impl<'a, O: Objects> Model for ReachedRows<'a, O> {
    ghost use Rattle.std.specs.Prelude.{◌≡◌, ◌+◌, ◌<◌, List, length};
    ghost use Rattle.semantics.specs.Report.{ShownRow};
    ghost use Rattle.report_objects.specs.Rows.{marked_rows as rows_marked};

    ghost Value = { List ShownRow };

    ghost view = { λ r. rows_marked r.classes.now (O.heap r.objects.now) r.reached.items r.first r.end };

    ghost invariant = { λ r. (0 < r.first) × (r.end ≡ length (O.heap r.objects.now) + 1) × (length r.reached.items ≡ r.end) };
}

impl<'a, O: Objects> Rows for ReachedRows<'a, O> {
    ghost rows = { λ r. r };

    fn put<S: Sink>(&self, sink: &mut S) -> Result<(), SinkFailed> {
        put_rows(
            sink,
            self.classes,
            self.objects,
            &self.reached,
            self.first,
            self.end,
        )
    }
}

/// The rows of the objects that can be reached from the objects made at load, which have the first names, and from
/// these. A name of no object is no root.
///
/// Its time is proportional to the number of objects and the values of those that are reached.
pub fn reached_rows<'a, O: Objects>(
    alloc: Global,
    classes: &'a ClassTable,
    objects: &'a O,
    loaded: usize,
    names: &[ObjectId],
) -> Result<ReachedRows<'a, O>, AllocError>
    ensures { IfOk result (AreReported classes.now (O.heap objects.now) loaded (names_of names.now)) }
{
    let count = objects.len();
    let roots = marked_roots(alloc, count, loaded, names)?;
    let reached = roots.close(&Names { objects })?;
    Ok(ReachedRows {
        classes,
        objects,
        reached,
        first: classes.len() + 2,
        end: count + 1,
    })
}

/// Of each object whether it is reached from the objects made at load, which have the first names, and from these, by its name. A
/// name of no object is no root.
///
/// Its time is proportional to the number of objects and the values of those that are reached.
pub fn reached_marks<O: Objects>(
    alloc: Global,
    objects: &O,
    loaded: usize,
    names: &[ObjectId],
) -> Result<Vec<bool>, AllocError>
    ensures { IfOk result (λ marks. MarksReached (O.heap objects.now) (from_one loaded ++ names_of names.now) marks.items) }
{
    let roots = marked_roots(alloc, objects.len(), loaded, names)?;
    let reached = roots.close(&Names { objects })?;
    Ok(reached)
}

/// Puts the rows of the marked objects.
fn put_rows<O: Objects, S: Sink>(
    sink: &mut S,
    classes: &ClassTable,
    objects: &O,
    reached: &[bool],
    first: usize,
    end: usize,
) -> Result<(), SinkFailed>
    requires can_fail { CanFail (S.written sink.old) }
    requires first { 0 < first }
    requires end { end ≡ length (O.heap objects.now) + 1 }
    requires marks { length reached.now ≡ end }
    ensures { Writes (S.written sink.old) (S.written sink.new) result (row_lines (marked_rows classes.now (O.heap objects.now) reached.now first end)) }
{
    for number in first..end {
        if reached[number] {
            put_row(sink, classes, objects, ObjectId { number })?;
        }
    }
    Ok(())
}
