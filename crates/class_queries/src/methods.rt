//! Static native methods that a unit implements, found by their names and signatures.

ghost use Rattle.std.specs.Prelude.{◌≡◌, ◌∷◌, ◌++◌, [], List, ℕ, MatchOption, IfSome, Some, false, true, not, slice_get, filter, ◌==◌};
ghost use Rattle.std.specs.Option.{option_map};
ghost use Rattle.std.specs.List.{list_all};
ghost use Rattle.std.specs.Str.{bytes_eq};
ghost use Rattle.class_rules.specs.Class.{class_name, class_named};
ghost use Rattle.class_rules.specs.Mangling.{is_class_name, is_unmangled, unescaped};
ghost use Rattle.semantics.specs.Activation.{class_of_function};
ghost use Rattle.semantics.specs.Method.{find_method, is_method_of, method_signature, parameter_signature, reference_signature, result_signature};
ghost use Rattle.syntax.specs.Parts.{functions_of};
ghost use Rattle.syntax.specs.Views.{function_tree, unit_tree};

use class_rules::mangling::is_mangled;
use class_rules::{ClassId, unmangling_inverts_mangling};
use classes::table::ClassTable;
use functions::NumberedFunction;
use syntax::{Function, Item, ParameterType, ReferenceType, ResultType};

/// What comes after a prefix; none where the text doesn't begin with it.
fn after<'a>(text: &'a [u8], prefix: &[u8]) -> Option<&'a [u8]>
    ensures { MatchOption result ((xs : List ℕ) → bytes_eq (prefix.now ++ xs) text.now ≡ false)
        (λ rest. (xs : List ℕ) → bytes_eq (prefix.now ++ xs) text.now ≡ bytes_eq xs rest.now) }
{
    let mut rest = text;
    for wanted in prefix {
        match rest {
            [byte, others @ ..] if *byte == *wanted => rest = others,
            _ => return None,
        }
    }
    Some(rest)
}

// ---- names

/// The byte that an escaped path stands for first, and the path after it.
fn first_unescaped(bytes: &[u8]) -> Option<(u8, &[u8])>
    ensures { MatchOption result (bytes.now ≡ []) (λ first. unescaped bytes.now ≡ first.0 ∷ unescaped first.1.now) }
{
    match bytes {
        [] => None,
        [b'_', b'1', rest @ ..] => Some((b'_', rest)),
        [b'_', rest @ ..] => Some((b'/', rest)),
        [byte, rest @ ..] => Some((*byte, rest)),
    }
}

/// What of an escaped path comes after a part that it stands for; none where it doesn't begin so.
fn after_part<'a>(bytes: &'a [u8], part: &[u8]) -> Option<&'a [u8]>
    ensures { MatchOption result ((xs : List ℕ) → bytes_eq (unescaped bytes.now) (part.now ++ xs) ≡ false)
        (λ rest. (xs : List ℕ) → bytes_eq (unescaped bytes.now) (part.now ++ xs) ≡ bytes_eq (unescaped rest.now) xs) }
{
    let mut rest = bytes;
    for wanted in part {
        match first_unescaped(rest) {
            Some((byte, others)) if byte == *wanted => rest = others,
            _ => return None,
        }
    }
    Some(rest)
}

/// Whether an escaped path stands for that of a method of a class.
fn is_path(bytes: &[u8], class: &[u8], method: &[u8]) -> bool
    ensures { result ≡ bytes_eq (unescaped bytes.now) (class.now ++ 47 ∷ method.now) }
{
    let Some(rest) = after_part(bytes, class) else {
        return false;
    };
    let Some(rest) = after_part(rest, b"/") else {
        return false;
    };
    match after_part(rest, method) {
        Some(rest) => rest.is_empty(),
        None => false,
    }
}

fn has_no_slash(bytes: &[u8]) -> bool
    ensures { result ≡ list_all (λ b. not (b == 47)) bytes.now }
{
    bytes.iter().all(|byte| *byte != b'/')
}

/// Whether a function of this name is the native method of a name in the class of a name.
fn is_unmangled(name: &[u8], class: &[u8], method: &[u8]) -> bool
    ensures { result ≡ is_unmangled name.now (class.now, method.now) }
{
    unmangling_inverts_mangling();
    match after(name, b"Java_") {
        Some(path) => is_path(path, class, method) && has_no_slash(method) && is_mangled(name),
        None => false,
    }
}

// ---- signatures

fn reference_signature(kind: ReferenceType) -> &'static [u8]
    ensures { result.now ≡ reference_signature kind }
{
    match kind {
        ReferenceType::Object | ReferenceType::Array => b"Ljava/lang/Object;",
        ReferenceType::Class => b"Ljava/lang/Class;",
        ReferenceType::String => b"Ljava/lang/String;",
        ReferenceType::Throwable => b"Ljava/lang/Throwable;",
        ReferenceType::IntArray => b"[I",
        ReferenceType::ShortArray => b"[S",
        ReferenceType::ByteArray => b"[B",
        ReferenceType::CharArray => b"[C",
        ReferenceType::ObjectArray => b"[Ljava/lang/Object;",
    }
}

fn parameter_signature(kind: ParameterType) -> &'static [u8]
    ensures { result.now ≡ parameter_signature kind }
{
    match kind {
        ParameterType::Jint => b"I",
        ParameterType::Reference(kind) => reference_signature(kind),
    }
}

fn result_signature(kind: ResultType) -> &'static [u8]
    ensures { result.now ≡ result_signature kind }
{
    match kind {
        ResultType::Void => b"V",
        ResultType::Jint => b"I",
        ResultType::Reference(kind) => reference_signature(kind),
    }
}

/// Whether the text is the signature of the function's method.
fn has_signature(function: &Function, text: &[u8]) -> bool
    ensures { result ≡ bytes_eq (method_signature (function_tree function.now)) text.now }
{
    let Some(mut rest) = after(text, b"(") else {
        return false;
    };
    for parameter in &function.parameters {
        match after(rest, parameter_signature(parameter.kind)) {
            Some(others) => rest = others,
            None => return false,
        }
    }
    match after(rest, b")") {
        Some(rest) => result_signature(function.result) == rest,
        None => false,
    }
}

// ---- methods

/// Whether the function is the native method of this name in the class, and has this signature.
pub fn is_method_of(
    function: &Function,
    classes: &ClassTable,
    class: ClassId,
    name: &[u8],
    text: &[u8],
) -> bool
    ensures { result ≡ is_method_of classes.now class.number name.now text.now (function_tree function.now) }
{
    is_unmangled(function.name.as_bytes(), classes.name(class), name)
        && has_signature(function, text)
}

/// The first of the functions among these items that is such a method of the class itself.
fn find_own<'a>(
    items: &'a [Item],
    classes: &ClassTable,
    class: ClassId,
    name: &[u8],
    text: &[u8],
) -> Option<NumberedFunction<'a>>
    ensures function { option_map (λ found. function_tree found.function.now) result
        ≡ slice_get (filter (is_method_of classes.now class.number name.now text.now) (functions_of (unit_tree items.now))) 0 }
    ensures number { IfSome result (λ found. slice_get (functions_of (unit_tree items.now)) found.number ≡ Some (function_tree found.function.now)) }
    ensures method { IfSome result (λ found. is_method_of classes.now class.number name.now text.now (function_tree found.function.now) ≡ true) }
{
    let mut number = 0;
    for item in items {
        match item {
            Item::Static(_) => {}
            Item::Function(function) => {
                if is_method_of(function, classes, class, name, text) {
                    return Some(NumberedFunction { number, function });
                }
                number += 1;
            }
        }
    }
    None
}

/// The class that is found by the name of a class.
fn namesake(classes: &ClassTable, class: ClassId) -> ClassId
    requires { is_class_name (class_name classes.now class.number) ≡ true }
    ensures { class_named classes.now (class_name classes.now class.number) ≡ Some result.number }
{
    classes.find(classes.name(class)).unwrap()
}

/// A method that was found: its function, with its number among the functions of its unit, and the class that declares it.
#[derive(Clone, Copy)]
pub struct FoundMethod<'a> {
    pub number: usize,
    pub function: &'a Function,
    pub declarer: ClassId,
}

/// The method that GetStaticMethodID finds among these items (JNI Specification, chapter 4, "Calling Static Methods"): the
/// function that is a native method of this name and signature, of the class itself, or else of the nearest superclass that has
/// one. It takes no memory. For each class in turn the cost goes by the number of functions.
pub fn find_method<'a>(
    items: &'a [Item],
    classes: &ClassTable,
    class: ClassId,
    name: &[u8],
    text: &[u8],
) -> Option<FoundMethod<'a>>
    ensures method { option_map (λ found. record { class = class.number; function = function_tree found.function.now }) result
        ≡ find_method (unit_tree items.now) classes.now class.number name.now text.now }
    ensures number { IfSome result (λ found. slice_get (functions_of (unit_tree items.now)) found.number ≡ Some (function_tree found.function.now)) }
    ensures declarer { IfSome result (λ found. class_of_function classes.now (function_tree found.function.now) ≡ Some found.declarer.number) }
{
    unmangling_inverts_mangling();
    let mut declarer = class;
    for _ in 0..classes.len() {
        if let Some(found) = find_own(items, classes, declarer, name, text) {
            return Some(FoundMethod {
                number: found.number,
                function: found.function,
                declarer: namesake(classes, declarer),
            });
        }
        match classes.superclass(declarer) {
            Some(above) => declarer = above,
            None => return None,
        }
    }
    None
}
