//! What objects refer to.

ghost use Rattle.std.specs.Prelude.{◌≡◌, Some};
ghost use Rattle.report_objects.specs.Names.{within};

use reachability::Graph;
use semantics::{ObjectId, ObjectValue, Objects};

/// The names of objects as the places of a graph. A reference to no object is none.
#[derive(Clone, Copy)]
pub(crate) struct Names<'a, O: Objects> {
    pub objects: &'a O,
}

impl<O: Objects> Graph for Names<'_, O> {
    ghost use Rattle.std.specs.Prelude.{length};
    ghost use Rattle.report_objects.specs.Names.{IsWithin, references_in};

    ghost IsPlace = { λ x. IsWithin (length (O.heap x.objects.now)) };

    ghost references = { λ x. references_in (O.heap x.objects.now) };

    fn count(&self, place: usize) -> usize {
        self.objects.count(ObjectId { number: place })
    }

    fn reference(&self, place: usize, index: usize) -> Option<usize> {
        match self.objects.value(ObjectId { number: place }, index) {
            ObjectValue::Number(_) => None,
            ObjectValue::Reference(None) => None,
            ObjectValue::Reference(Some(name)) => within(self.objects.len(), name),
        }
    }
}

/// The place of a name, where it is that of one of this number of objects.
pub(crate) fn within(count: usize, name: ObjectId) -> Option<usize>
    ensures { result ≡ within count (Some name.number) }
{
    if 0 < name.number && name.number <= count {
        Some(name.number)
    } else {
        None
    }
}
