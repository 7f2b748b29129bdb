//! Arrays and the classes of their elements.

ghost use Rattle.std.specs.Prelude.{◌≡◌, ◌++◌, ◌∷◌, []};
ghost use Rattle.std.specs.Str.{bytes_eq};
ghost use Rattle.class_rules.specs.ClassIds.{number_of};
ghost use Rattle.class_rules.specs.Class.{array_class_of, array_name, class_kind, element_class};

use class_rules::{ClassId, NO_CLASS};
use classes::class::ClassKind;
use classes::table::ClassTable;

/// The class of the elements of a class of arrays of objects, and 0 for another class.
pub fn element_class(classes: &ClassTable, class: ClassId) -> ClassId
    ensures { result.number ≡ element_class (class_kind classes.now class.number) }
{
    match classes.kind(class) {
        ClassKind::ArrayOfObjects(element) => element,
        ClassKind::Plain | ClassKind::ArrayOfNumbers(_) => NO_CLASS,
    }
}

/// The class of arrays whose elements are of a class. It takes no host memory. The cost goes by the number of classes.
pub fn array_class_of(classes: &ClassTable, class: ClassId) -> Option<ClassId>
    ensures { number_of result ≡ array_class_of classes.now class.number }
{
    let element = classes.name(class);
    for place in 0..classes.len() {
        let arrays = ClassId { number: place + 1 };
        if is_array_name(classes.name(arrays), element) {
            return Some(arrays);
        }
    }
    None
}

/// Whether a name is that of the class of arrays with elements of the class of another.
fn is_array_name(name: &[u8], element: &[u8]) -> bool
    ensures { result ≡ bytes_eq (array_name element.now) name.now }
{
    match name {
        [b'[', b'L', rest @ ..] => is_ended(rest, element),
        _ => false,
    }
}

/// Whether bytes are a name and a semicolon.
fn is_ended(bytes: &[u8], name: &[u8]) -> bool
    ensures { result ≡ bytes_eq (name.now ++ 59 ∷ []) bytes.now }
{
    match bytes.split_last() {
        Some((last, front)) => name == front && *last == b';',
        None => false,
    }
}
