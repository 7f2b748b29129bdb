//! The order of the fields in objects.

ghost use Rattle.std.specs.Prelude.{◌≡◌, ◌≤◌, length, slice_get, ◌*◌};
ghost use Rattle.std.specs.Option.{option_map};
ghost use Rattle.base.specs.Limits.{most_classes, most_fields};
ghost use Rattle.classes.specs.FieldViews.{field_id_view};
ghost use Rattle.class_rules.specs.Fields.{layout};

use crate::fields::FieldId;
use crate::table::ClassTable;
use class_rules::ClassId;

impl ClassTable {
    /// The number of fields that objects of the class have. The cost goes by the depth of the class.
    pub fn layout_len(&self, class: ClassId) -> usize
        ensures len { result ≡ length (layout self.now class.number) }
        ensures small { result ≤ most_classes * most_fields }
    {
        let _ = &self.classes;
        let mut count = 0;
        let mut ancestor = class;
        for _ in 0..self.len() {
            count += self.declared(ancestor, false).len();
            match self.superclass(ancestor) {
                Some(above) => ancestor = above,
                None => return count,
            }
        }
        count
    }

    /// The field at a place of the objects of the class. The cost goes by the depth of the class.
    pub fn layout_field(&self, class: ClassId, place: usize) -> Option<FieldId<'_>>
        ensures { option_map field_id_view result ≡ slice_get (layout self.now class.number) place }
    {
        let mut count = self.layout_len(class);
        if place >= count {
            return None;
        }
        let mut declarer = class;
        for _ in 0..self.len() {
            let own = self.declared(declarer, false);
            let start = count - own.len();
            if place >= start {
                return match own.get(place - start) {
                    Some(field) => Some(FieldId {
                        class: declarer,
                        place: place - start,
                        is_static: false,
                        field,
                    }),
                    None => None,
                };
            }
            count = start;
            match self.superclass(declarer) {
                Some(above) => declarer = above,
                None => return None,
            }
        }
        None
    }
}
