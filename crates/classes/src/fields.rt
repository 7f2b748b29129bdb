//! The fields of classes, and how they are found.

ghost use Rattle.std.specs.Prelude.{◌≡◌, ◌&&◌, ◌++◌, ◌∷◌, [], map, find, codes, true, false, not, MatchOption};
ghost use Rattle.std.specs.Option.{option_map};
ghost use Rattle.std.specs.List.{enumerate_from};
ghost use Rattle.std.specs.Str.{bytes_eq};
ghost use Rattle.base.specs.Options.{option_filter};
ghost use Rattle.class_rules.specs.ClassIds.{number_of};
ghost use Rattle.class_rules.specs.Class.{NumberField, ReferenceField, class_named, class_kind, is_plain};
ghost use Rattle.classes.specs.FieldViews.{field_id_view, declared_as, find_as};
ghost use Rattle.class_rules.specs.Fields.{signature, type_of_signature, own_statics};
ghost use Rattle.classes.specs.Views.{field_type_view};

use crate::class::{ElementType, Field, FieldType};
use crate::own_fields::OwnFields;
use crate::table::ClassTable;
use class_rules::ClassId;

/// A field or static, with the class that declares it, and its place, counted from 0, among the fields, or the statics,
/// that the class declares.
#[derive(Clone, Copy)]
pub struct FieldId<'t> {
    pub class: ClassId,
    pub place: usize,
    pub is_static: bool,
    pub field: Field<'t>,
}

/// Whether the bytes are the name and a semicolon.
fn is_ended_name(name: &[u8], bytes: &[u8]) -> bool
    ensures { result ≡ bytes_eq (name.now ++ 59 ∷ []) bytes.now }
{
    match bytes.split_last() {
        Some((last, front)) => name == front && *last == b';',
        None => false,
    }
}

/// Whether the text is the signature of references to objects of the class of this name, which is no class of arrays.
fn is_reference_to(name: &[u8], text: &[u8]) -> bool
    ensures { result ≡ bytes_eq (codes "L" ++ name.now ++ codes ";") text.now }
{
    match text {
        [b'L', rest @ ..] => is_ended_name(name, rest),
        _ => false,
    }
}

/// What comes before a last semicolon.
fn ended_name(bytes: &[u8]) -> Option<&[u8]>
    ensures { MatchOption result ((name : _) → bytes_eq (name ++ 59 ∷ []) bytes.now ≡ false) (λ name. bytes.now ≡ name.now ++ 59 ∷ []) }
{
    match bytes.split_last() {
        Some((last, name)) => { if *last == b';' { Some(name) } else { None } }
        None => None,
    }
}

/// The name between `L` and a last semicolon.
fn referred_name(text: &[u8]) -> Option<&[u8]>
    ensures { MatchOption result ((name : _) → bytes_eq (76 ∷ (name ++ 59 ∷ [])) text.now ≡ false) (λ name. text.now ≡ 76 ∷ (name.now ++ 59 ∷ [])) }
{
    match text {
        [b'L', rest @ ..] => ended_name(rest),
        _ => None,
    }
}

/// The type of references to objects of the class.
fn reference_to(class: Option<ClassId>) -> Option<FieldType>
    ensures { option_map field_type_view result ≡ option_map ReferenceField (number_of class) }
{
    match class {
        Some(class) => Some(FieldType::Reference(class)),
        None => None,
    }
}

/// Whether the text is the signature of numbers of this type.
fn is_number_signature(element: ElementType, text: &[u8]) -> bool
    ensures { (classes : _) → result ≡ bytes_eq (signature classes (NumberField element)) text.now }
{
    let letter: &[u8] = match element {
        ElementType::Int => b"I",
        ElementType::Short => b"S",
        ElementType::Byte => b"B",
        ElementType::Char => b"C",
    };
    letter == text
}

impl ClassTable {
    /// Whether the text is the signature of fields of this type.
    pub(crate) fn has_signature(&self, field_type: FieldType, text: &[u8]) -> bool
        ensures { result ≡ bytes_eq (signature self.now (field_type_view field_type)) text.now }
    {
        match field_type {
            FieldType::Number(element) => is_number_signature(element, text),
            FieldType::Reference(class) => {
                if self.is_array(class) {
                    self.name(class) == text
                } else {
                    is_reference_to(self.name(class), text)
                }
            }
        }
    }

    /// The fields, or the statics, that a class declares itself.
    pub(crate) fn declared(&self, class: ClassId, is_static: bool) -> &OwnFields
        ensures { result.now ≡ declared_as self.now class.number is_static }
    {
        match self.entry(class) {
            Some((_, entry)) if is_static => &entry.statics,
            Some((_, entry)) => &entry.fields,
            None => self.classes.nothing(),
        }
    }

    /// The statics that a class declares itself.
    pub fn own_statics(&self, class: ClassId) -> &OwnFields
        ensures { map (λ f. record { class = class.number; is_static = true; field = f }) result.now ≡ own_statics self.now class.number }
    {
        self.declared(class, true)
    }

    /// The field, or the static, of this name and signature: of the class itself, or else of the nearest superclass that has one.
    /// The cost goes by the depth of the class.
    pub fn field(
        &self,
        class: ClassId,
        name: &[u8],
        text: &[u8],
        is_static: bool,
    ) -> Option<FieldId<'_>>
        ensures { option_map field_id_view result ≡ find_as self.now class.number name.now text.now is_static }
    {
        let handle = self.find_handle(class, name, text, is_static)?;
        self.field_at(handle)
    }

    /// The type of references that has this signature: of a class by the name between `L` and the semicolon, and of a
    /// class of arrays by its name.
    fn reference_type(&self, text: &[u8]) -> Option<FieldType>
        ensures { option_map field_type_view result
            ≡ find (λ type. bytes_eq (signature self.now type) text.now)
            (map (λ c. ReferenceField c.0) (enumerate_from 1 self.now)) }
    {
        let _ = &self.classes;
        match referred_name(text) {
            Some(name) => reference_to(self.plain_class(name)),
            None => reference_to(self.array_class(text)),
        }
    }

    /// The class of this name, where it is no class of arrays.
    fn plain_class(&self, name: &[u8]) -> Option<ClassId>
        ensures { number_of result ≡ option_filter (λ c. is_plain (class_kind self.now c)) (class_named self.now name.now) }
    {
        match self.find(name) {
            Some(class) if !self.is_array(class) => Some(class),
            _ => None,
        }
    }

    /// The class of arrays of this name.
    fn array_class(&self, name: &[u8]) -> Option<ClassId>
        ensures { number_of result ≡ option_filter (λ c. not (is_plain (class_kind self.now c))) (class_named self.now name.now) }
    {
        match self.find(name) {
            Some(class) if self.is_array(class) => Some(class),
            _ => None,
        }
    }

    /// The type of fields that have this signature.
    pub fn field_type(&self, text: &[u8]) -> Option<FieldType>
        ensures { option_map field_type_view result ≡ type_of_signature self.now text.now }
    {
        match text {
            b"I" => Some(FieldType::Number(ElementType::Int)),
            b"S" => Some(FieldType::Number(ElementType::Short)),
            b"B" => Some(FieldType::Number(ElementType::Byte)),
            b"C" => Some(FieldType::Number(ElementType::Char)),
            _ => self.reference_type(text),
        }
    }
}
