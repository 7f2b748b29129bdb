//! Fields and statics by handles: what is found once, and then taken without its name.

ghost use Rattle.std.specs.Prelude.{◌≡◌, ◌&&◌, Some, false, true, find, slice_get, IfSome, IsSome, IsTrue};
ghost use Rattle.std.specs.Option.{option_map};
ghost use Rattle.std.specs.Str.{bytes_eq};
ghost use Rattle.classes.specs.FieldViews.{declared_as, field_id_view, find_as, field_of, place_among};
ghost use Rattle.classes.specs.Views.{field_type_view};
ghost use Rattle.class_rules.specs.Fields.{FieldId, signature, layout, own_statics};
ghost use Rattle.class_rules.specs.Grown.{IsGrown};

use crate::class::{FieldHandle, FieldType};
use crate::fields::FieldId as Found;
use crate::own_fields::OwnFields;
use crate::table::ClassTable;
use class_rules::ClassId;

impl ClassTable {
    /// Whether the field at this place has this signature.
    fn has_signature_at(&self, fields: &OwnFields, place: usize, text: &[u8]) -> bool
        ensures { (f : _) → slice_get fields.now place ≡ Some f → result ≡ bytes_eq (signature self.now f.type) text.now }
    {
        match fields.get(place) {
            Some(field) => self.has_signature(field.field_type, text),
            None => false,
        }
    }

    /// The place of the field, or the static, that has this name and signature, among those that the class declares itself.
    fn place_fitting(
        &self,
        class: ClassId,
        name: &[u8],
        text: &[u8],
        is_static: bool,
    ) -> Option<usize>
        ensures { option_map (λ place. slice_get (declared_as self.now class.number is_static) place) result
            ≡ option_map (λ f. Some f) (find (λ f. bytes_eq f.name name.now
            && bytes_eq (signature self.now f.type) text.now) (declared_as self.now class.number is_static)) }
    {
        // That no two of a class have one name is told here.
        let _ = &self.classes;
        let own = self.declared(class, is_static);
        match own.place_of(name) {
            Some(place) => {
                if self.has_signature_at(own, place, text) {
                    Some(place)
                } else {
                    None
                }
            }
            None => None,
        }
    }

    /// The handle of the field, or the static, of this name and signature: of the class itself, or else of the nearest superclass
    /// that has one. The cost goes by the depth of the class.
    pub fn find_handle(
        &self,
        class: ClassId,
        name: &[u8],
        text: &[u8],
        is_static: bool,
    ) -> Option<FieldHandle>
        ensures { option_map (field_of self.now) result ≡ option_map (λ f. Some f) (find_as self.now class.number name.now text.now is_static) }
    {
        let mut declarer = class;
        for _ in 0..self.len() {
            if let Some(place) = self.place_fitting(declarer, name, text, is_static) {
                return Some(FieldHandle {
                    class: declarer,
                    place,
                    is_static,
                });
            }
            match self.superclass(declarer) {
                Some(above) => declarer = above,
                None => return None,
            }
        }
        None
    }

    /// The field or static of a handle; none where there is no such field.
    pub fn field_at(&self, handle: FieldHandle) -> Option<Found<'_>>
        ensures view { option_map field_id_view result ≡ field_of self.now handle }
        ensures class { IfSome result (λ f. f.class ≡ handle.class) }
    {
        let own = self.declared(handle.class, handle.is_static);
        match own.get(handle.place) {
            Some(field) => Some(Found {
                class: handle.class,
                place: handle.place,
                is_static: handle.is_static,
                field,
            }),
            None => None,
        }
    }

    /// What the field of a handle holds; none where there is no such field.
    pub fn handle_type(&self, handle: FieldHandle) -> Option<FieldType>
        ensures { option_map field_type_view result ≡ option_map (λ (f : FieldId). f.field.type) (field_of self.now handle) }
    {
        match self.field_at(handle) {
            Some(found) => Some(found.field.field_type),
            None => None,
        }
    }

    /// The place of the field of a handle among the values of the objects of a class, and 0 where these have no such field. The
    /// cost goes by the depth of the classes.
    pub fn field_place(&self, class: ClassId, handle: FieldHandle) -> usize
        requires grown { IsGrown self.now }
        requires there { IsSome (field_of self.now handle) }
        requires field { handle.is_static ≡ false }
        ensures { (f : FieldId) → field_of self.now handle ≡ Some f → result ≡ place_among f (layout self.now class.number) }
    {
        let _ = &self.classes;
        if !self.is_subclass(class, handle.class) {
            return 0;
        }
        match self.superclass(handle.class) {
            Some(above) => self.layout_len(above) + handle.place,
            None => handle.place,
        }
    }

    /// The place of the static of a handle among the values of the class object of the class that declares it.
    pub fn static_place(&self, handle: FieldHandle) -> usize
        ensures { (f : FieldId) → field_of self.now handle ≡ Some f → handle.is_static ≡ true → result ≡ place_among f (own_statics self.now f.class) }
    {
        let _ = &self.classes;
        handle.place
    }

    /// Whether the field of a handle has the class and the name of this one.
    fn is_at(&self, handle: FieldHandle, field: Found<'_>) -> bool
        ensures { IsTrue result → (g : FieldId) × (field_of self.now handle ≡ Some g) × (g.class ≡ handle.class.number)
            × (g.field.name ≡ (field_id_view field.entry).field.name) }
    {
        match self.field_at(handle) {
            Some(there) => there.field.name == field.field.name,
            None => false,
        }
    }

    /// The place of a field that this table found, among the values of the objects of a class, and 0 where these have no such
    /// field. None where it is no field of this table. The cost goes by the depth of the classes.
    pub fn place_of_field(&self, class: ClassId, field: Found<'_>) -> Option<usize>
        requires { IsGrown self.now }
        ensures { IfSome result (λ place. place ≡ place_among (field_id_view field.entry) (layout self.now class.number)) }
    {
        let handle = FieldHandle {
            class: field.class,
            place: field.place,
            is_static: false,
        };
        if self.is_at(handle, field) {
            Some(self.field_place(class, handle))
        } else {
            None
        }
    }

    /// The place of a static that this table found, among the values of the class object of the class that declares it. None
    /// where it is no static of this table.
    pub fn place_of_static(&self, field: Found<'_>) -> Option<usize>
        ensures { IfSome result (λ place. place ≡ place_among (field_id_view field.entry) (own_statics self.now field.entry.class.number)) }
    {
        let handle = FieldHandle {
            class: field.class,
            place: field.place,
            is_static: true,
        };
        if self.is_at(handle, field) {
            Some(self.static_place(handle))
        } else {
            None
        }
    }
}
