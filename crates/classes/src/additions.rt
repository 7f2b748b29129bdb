//! Classes and fields that are added to a table.

ghost use Rattle.std.specs.Prelude.{◌≡◌, ◌+◌, Some, None, length, nat_lt, is_ok, if◌then◌else◌, IsTrue, MatchResult};
ghost use Rattle.std.specs.List.{list_any};
ghost use Rattle.std.specs.Str.{bytes_eq};
ghost use Rattle.base.specs.Limits.{most_fields};
ghost use Rattle.class_rules.specs.ClassIds.{number_of};
ghost use Rattle.class_rules.specs.Additions.{class_breaks, field_breaks, declared_fields, new_class, with_class};
ghost use Rattle.class_rules.specs.BuiltIns.{has_own_making};
ghost use Rattle.class_rules.specs.Class.{class_named};
ghost use Rattle.classes.specs.FieldViews.{with_declared, declared_field, AnswersField};
ghost use Rattle.class_rules.specs.Fields.{type_of_signature};
ghost use Rattle.classes.specs.Views.{field_type_view};
ghost use Rattle.class_rules.specs.Grown.{IsGrown};
ghost use Rattle.class_rules.specs.Mangling.{is_class_name};
ghost use Rattle.classes.specs.Refusals.{first_broken, Answers};

use crate::built_ins::{CLASS, STRING};
use crate::class::FieldType;
use crate::fault::{ClassError, FieldError};
use crate::table::ClassTable;
use base::limits::{MOST_CLASSES, MOST_FIELDS};
use class_rules::{ClassId, ClassRule, NO_CLASS};
use std::alloc::AllocError;

impl ClassTable {
    /// Whether its objects are made by a function of their own: it has no subclasses then.
    pub fn has_own_making(&self, class: ClassId) -> bool
        ensures { result ≡ has_own_making self.now class.number }
    {
        self.is_array(class) || class == STRING || class == CLASS
    }

    /// The superclass of this name for a new class, or the rule of the least number that the class breaks.
    fn superclass_for(&self, name: &[u8], superclass: &[u8]) -> Result<ClassId, ClassRule>
        ensures { MatchResult result
            (λ above. (first_broken (λ rule. class_breaks rule self.now name.now superclass.now) ≡ None)
            × (class_named self.now superclass.now ≡ Some above.number))
            (λ rule. first_broken (λ rule. class_breaks rule self.now name.now superclass.now) ≡ Some rule) }
    {
        if self.find(name).is_some() {
            return Err(ClassRule::NameTaken);
        }
        match self.find(superclass) {
            Some(above) if !self.has_own_making(above) => {
                if self.len() + 2 > MOST_CLASSES {
                    Err(ClassRule::TooMany)
                } else {
                    Ok(above)
                }
            }
            _ => Err(ClassRule::BadSuperclass),
        }
    }

    /// The rule of the least number that a new class breaks.
    pub fn class_rule(&self, name: &[u8], superclass: &[u8]) -> Option<ClassRule>
        ensures { result ≡ first_broken (λ rule. class_breaks rule self.now name.now superclass.now) }
    {
        match self.superclass_for(name, superclass) {
            Ok(_) => None,
            Err(rule) => Some(rule),
        }
    }

    /// Adds a class with its superclass, and after it the class of its arrays. Its number is answered.
    /// After a refusal the table is what it was.
    pub fn add_class(&mut self, name: &[u8], superclass: &[u8]) -> Result<ClassId, ClassError>
        requires { IsTrue (is_class_name name.now) }
        ensures answer { Answers (first_broken (λ rule. class_breaks rule self.old name.now superclass.now))
            (λ class. class.number ≡ length self.old + 1) result }
        ensures grown { IsGrown self.old → IsGrown self.new }
        ensures table { self.new ≡ (if is_ok result then with_class self.old (new_class name.now (class_named self.old superclass.now)) else self.old) }
    {
        let above = self.superclass_for(name, superclass)?;
        let class = ClassId {
            number: self.classes.len() + 1,
        };
        match self.classes.put_class(name, above) {
            Ok(()) => Ok(class),
            Err(AllocError) => Err(ClassError::Memory),
        }
    }

    /// Whether the class declares a field or static of this name.
    fn declares(&self, class: Option<ClassId>, name: &[u8]) -> bool
        ensures { result ≡ list_any (λ f. bytes_eq f.name name.now) (declared_fields self.now (number_of class)) }
    {
        let class = class.unwrap_or(NO_CLASS);
        self.declared(class, false).has(name) || self.declared(class, true).has(name)
    }

    /// Whether the class declares as many fields and statics as it may.
    fn is_full(&self, class: Option<ClassId>) -> bool
        ensures { result ≡ nat_lt most_fields (length (declared_fields self.now (number_of class)) + 1) }
    {
        let class = class.unwrap_or(NO_CLASS);
        let fields = self.declared(class, false).len();
        let statics = self.declared(class, true).len();
        fields >= MOST_FIELDS || statics >= MOST_FIELDS - fields
    }

    /// The type of a new field or static of a class, or the rule of the least number that it breaks.
    fn type_for(
        &self,
        class: Option<ClassId>,
        name: &[u8],
        signature: &[u8],
    ) -> Result<FieldType, ClassRule>
        ensures { MatchResult result
            (λ field_type. (first_broken (λ rule. field_breaks rule self.now (number_of class) name.now signature.now) ≡ None)
            × (type_of_signature self.now signature.now ≡ Some (field_type_view field_type)))
            (λ rule. first_broken (λ rule. field_breaks rule self.now (number_of class) name.now signature.now) ≡ Some rule) }
    {
        if self.declares(class, name) {
            return Err(ClassRule::NameTaken);
        }
        match self.field_type(signature) {
            None => Err(ClassRule::BadSignature),
            Some(_) if self.is_full(class) => Err(ClassRule::TooMany),
            Some(field_type) => Ok(field_type),
        }
    }

    /// The rule of the least number that a new field or static of the class of this name breaks.
    pub fn field_rule(&self, class_name: &[u8], name: &[u8], signature: &[u8]) -> Option<ClassRule>
        ensures { result ≡ first_broken (λ rule. field_breaks rule self.now (class_named self.now class_name.now) name.now signature.now) }
    {
        match self.type_for(self.find(class_name), name, signature) {
            Ok(_) => None,
            Err(rule) => Some(rule),
        }
    }

    /// Adds a field or a static to the class of this name. After a refusal the table is what it was.
    pub fn add_field(
        &mut self,
        class_name: &[u8],
        name: &[u8],
        signature: &[u8],
        is_static: bool,
    ) -> Result<(), FieldError>
        ensures answer { AnswersField (first_broken (λ rule. field_breaks rule self.old
            (class_named self.old class_name.now) name.now signature.now))
            (class_named self.old class_name.now) result }
        ensures grown { IsGrown self.old → IsGrown self.new }
        ensures table { self.new ≡ (if is_ok result then with_declared self.old (class_named self.old class_name.now)
            (declared_field self.old name.now signature.now) is_static else self.old) }
    {
        let class = self.find(class_name);
        let field_type = self.type_for(class, name, signature)?;
        let Some(class) = class else {
            return Err(FieldError::NoClass);
        };
        match self
            .classes
            .put_field(class.number - 1, name, field_type, is_static)
        {
            Ok(()) => Ok(()),
            Err(AllocError) => Err(FieldError::Memory),
        }
    }
}
