//! Roots.

ghost use Rattle.std.specs.Prelude.{◌<◌, ◌^◌, ◌++◌, Contains, IfOk};
ghost use Rattle.semantics.specs.Reachable.{from_one};
ghost use Rattle.semantics.specs.Views.{names_of};
ghost use Rattle.report_objects.specs.Names.{AreRoots};

use crate::names::within;
use reachability::Marks;
use semantics::ObjectId;
use std::alloc::{AllocError, Global};

/// Marks the roots among this number of objects: those made at load, which have the first names, and these.
pub(crate) fn marked_roots(
    alloc: Global,
    count: usize,
    loaded: usize,
    names: &[ObjectId],
) -> Result<Marks, AllocError>
    requires { count < 2 ^ 63 }
    ensures { IfOk result (AreRoots count (Contains (from_one loaded ++ names_of names.now))) }
{
    let mut marks = Marks::new(alloc, count + 1)?;
    for name in 1..loaded.min(count) + 1 {
        marks.add(name)?;
    }
    for name in names {
        if let Some(place) = within(count, *name) {
            marks.add(place)?;
        }
    }
    Ok(marks)
}
