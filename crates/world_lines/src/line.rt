//! The lines of a world after that of the heap, by their words.

ghost use Rattle.std.specs.Prelude.{◌≡◌, ◌∷◌, IfOk, map, drop, if◌then◌else◌};
ghost use Rattle.std.specs.Option.{option_map};
ghost use Rattle.std.specs.List.{list_all};
ghost use Rattle.base.specs.Bytes.{is_some_byte};
ghost use Rattle.world_schedules.specs.Split.{parts_of};
ghost use Rattle.world_lines.specs.LineViews.{line_view};
ghost use Rattle.world_lines.specs.LineKinds.{calls_by_kind, objects_by_kind};
ghost use Rattle.world_lines.specs.ReadingLines.{class_by_words, field_by_words, object_by_words, array_by_words, call_by_words, string_by_words, words_by_kind, line_by_words, line_of};
ghost use Rattle.world_values.specs.WorldLines.{FieldLine as DeclaredField, StaticLine, ObjectLine as WrittenObject, ObjectsLine, ThreadLine, CallLine as FurtherCall};

use crate::value::{Value, object_name, read_element, read_values};
use classes::class::ElementType;
use std::alloc::{AllocError, Global};
use world_schedules::Split;

/// A field or static of a class.
#[derive(Clone, Copy)]
pub struct FieldWords<'a> {
    pub class: &'a [u8],
    pub name: &'a [u8],
    pub signature: &'a [u8],
}

/// An object of a class, or an array of references to objects of the class.
#[derive(Drop)]
pub struct ObjectWords<'a> {
    pub name: &'a [u8],
    pub class: &'a [u8],
    pub values: Vec<Value<'a>>,
}

/// An array of numbers.
#[derive(Drop)]
pub struct ArrayWords<'a> {
    pub name: &'a [u8],
    pub element: ElementType,
    pub values: Vec<Value<'a>>,
}

/// A call of a function.
#[derive(Drop)]
pub struct CallWords<'a> {
    pub function: &'a [u8],
    pub arguments: Vec<Value<'a>>,
}

/// A line.
pub enum Line<'a> {
    /// A class, and its superclass where one is named.
    Class(&'a [u8], Option<&'a [u8]>),
    Field(FieldWords<'a>),
    Static(FieldWords<'a>),
    Object(ObjectWords<'a>),
    Objects(ObjectWords<'a>),
    Array(ArrayWords<'a>),
    /// A string's name and its text.
    String(&'a [u8], &'a [u8]),
    /// The first call of a thread.
    Thread(CallWords<'a>),
    /// A further call of the last thread.
    Call(CallWords<'a>),
}

impl Drop for Line<'_> {
    fn drop(self) {
        match self {
            Line::Class(_, _) => {}
            Line::Field(_) => {}
            Line::Static(_) => {}
            Line::Object(object) => drop(object),
            Line::Objects(object) => drop(object),
            Line::Array(array) => drop(array),
            Line::String(_, _) => {}
            Line::Thread(call) => drop(call),
            Line::Call(call) => drop(call),
        }
    }
}

/// `NAME` or `NAME extends SUPERCLASS`
fn class_line<'a>(words: &[&'a [u8]]) -> Option<Line<'a>>
    ensures { option_map line_view result ≡ class_by_words (map (λ w. w.now) words.now) }
{
    match words {
        [name] => Some(Line::Class(*name, None)),
        [name, extends, superclass] => {
            if *extends == b"extends".as_slice() {
                Some(Line::Class(*name, Some(*superclass)))
            } else {
                None
            }
        }
        _ => None,
    }
}

/// `CLASS NAME SIGNATURE`
fn field_line<'a>(words: &[&'a [u8]], is_static: bool) -> Option<Line<'a>>
    ensures { option_map line_view result ≡ field_by_words (if is_static then StaticLine else DeclaredField) (map (λ w. w.now) words.now) }
{
    match words {
        [class, name, signature] => {
            let field = FieldWords {
                class: *class,
                name: *name,
                signature: *signature,
            };
            Some(if is_static {
                Line::Static(field)
            } else {
                Line::Field(field)
            })
        }
        _ => None,
    }
}

/// `@x CLASS VALUE ..`
fn object_line<'a>(
    alloc: Global,
    words: &[&'a [u8]],
    is_array: bool,
) -> Result<Option<Line<'a>>, AllocError>
    ensures { IfOk result (λ line. option_map line_view line ≡ object_by_words (if is_array then ObjectsLine else WrittenObject) (map (λ w. w.now) words.now)) }
{
    let [name, class, values @ ..] = words else {
        return Ok(None);
    };
    let Some(name) = object_name(*name) else {
        return Ok(None);
    };
    let Some(values) = read_values(alloc, values)? else {
        return Ok(None);
    };
    let class = *class;
    let object = ObjectWords {
        name,
        class,
        values,
    };
    Ok(Some(if is_array {
        Line::Objects(object)
    } else {
        Line::Object(object)
    }))
}

/// `@x K VALUE ..`
fn array_line<'a>(alloc: Global, words: &[&'a [u8]]) -> Result<Option<Line<'a>>, AllocError>
    ensures { IfOk result (λ line. option_map line_view line ≡ array_by_words (map (λ w. w.now) words.now)) }
{
    let [name, letter, values @ ..] = words else {
        return Ok(None);
    };
    let Some(name) = object_name(*name) else {
        return Ok(None);
    };
    let Some(element) = read_element(*letter) else {
        return Ok(None);
    };
    let Some(values) = read_values(alloc, values)? else {
        return Ok(None);
    };
    Ok(Some(Line::Array(ArrayWords {
        name,
        element,
        values,
    })))
}

/// `FUNCTION ARGUMENT ..`
fn call_line<'a>(
    alloc: Global,
    words: &[&'a [u8]],
    is_first: bool,
) -> Result<Option<Line<'a>>, AllocError>
    ensures { IfOk result (λ line. option_map line_view line ≡ call_by_words (if is_first then ThreadLine else FurtherCall) (map (λ w. w.now) words.now)) }
{
    let [function, arguments @ ..] = words else {
        return Ok(None);
    };
    let Some(arguments) = read_values(alloc, arguments)? else {
        return Ok(None);
    };
    let function = *function;
    let call = CallWords {
        function,
        arguments,
    };
    Ok(Some(if is_first {
        Line::Thread(call)
    } else {
        Line::Call(call)
    }))
}

/// A call's line of this first word.
fn call_of_kind<'a>(
    alloc: Global,
    word: &[u8],
    words: &[&'a [u8]],
) -> Result<Option<Line<'a>>, AllocError>
    ensures { IfOk result (λ line. option_map line_view line ≡ calls_by_kind word.now (map (λ w. w.now) words.now)) }
{
    if word == b"thread".as_slice() {
        call_line(alloc, words, true)
    } else if word == b"call".as_slice() {
        call_line(alloc, words, false)
    } else {
        Ok(None)
    }
}

/// An object's line of this first word, and no string's, or a call's.
fn object_of_kind<'a>(
    alloc: Global,
    word: &[u8],
    words: &[&'a [u8]],
) -> Result<Option<Line<'a>>, AllocError>
    ensures { IfOk result (λ line. option_map line_view line ≡ objects_by_kind word.now (map (λ w. w.now) words.now)) }
{
    if word == b"object".as_slice() {
        object_line(alloc, words, false)
    } else if word == b"objects".as_slice() {
        object_line(alloc, words, true)
    } else if word == b"array".as_slice() {
        array_line(alloc, words)
    } else {
        call_of_kind(alloc, word, words)
    }
}

/// A line of this first word, and no string's.
fn line_of_kind<'a>(
    alloc: Global,
    word: &[u8],
    words: &[&'a [u8]],
) -> Result<Option<Line<'a>>, AllocError>
    ensures { IfOk result (λ line. option_map line_view line ≡ words_by_kind word.now (map (λ w. w.now) words.now)) }
{
    if word == b"class".as_slice() {
        Ok(class_line(words))
    } else if word == b"field".as_slice() {
        Ok(field_line(words, false))
    } else if word == b"static".as_slice() {
        Ok(field_line(words, true))
    } else {
        object_of_kind(alloc, word, words)
    }
}

/// The bytes after this number of them, and none where there are fewer.
fn bytes_after(bytes: &[u8], count: usize) -> &[u8]
    ensures { result.now ≡ drop count bytes.now }
{
    if count > bytes.len() {
        return &[];
    }
    let (_, after) = bytes.split_at(count);
    after
}

/// `@x TEXT`, where the text may be several words: it ends with the line.
fn string_line<'a>(line: &'a [u8], word: &[u8], words: &[&'a [u8]]) -> Option<Line<'a>>
    requires { parts_of 32 line.now ≡ word.now ∷ map (λ w. w.now) words.now }
    ensures { option_map line_view result ≡ string_by_words (map (λ w. w.now) words.now) }
{
    let [name, ..] = words else {
        return None;
    };
    prove!(word.len() < usize::MAX);
    let name_and_text = bytes_after(line, word.len() + 1);
    prove!(name.len() < usize::MAX);
    let text = bytes_after(name_and_text, name.len() + 1);
    match object_name(*name) {
        Some(name) => Some(Line::String(name, text)),
        None => None,
    }
}

/// The words of a line, with one space between.
pub fn split_words<'a>(alloc: Global, line: &'a [u8]) -> Result<Vec<&'a [u8]>, AllocError>
    ensures { IfOk result (λ words. map (λ w. w.now) words.items ≡ parts_of 32 line.now) }
{
    let mut words = Vec::new(alloc);
    let mut parts = Split::new(line, b' ');
    while let Some(word) = parts.next() {
        words.push(word)?;
    }
    Ok(words)
}

/// Whether a word has a byte.
fn is_nonempty(word: &[u8]) -> bool
    ensures { result ≡ is_some_byte word.now }
{
    match word {
        [] => false,
        [_, ..] => true,
    }
}

/// Whether none of the words is empty.
fn are_nonempty(words: &[&[u8]]) -> bool
    ensures { result ≡ list_all (λ w. is_some_byte w.now) words.now }
{
    words.iter().all(|word| is_nonempty(*word))
}

/// The line that bytes are, by their words.
#[tactic(auto, unfolding(crate::specs::ReadingLines::line_of))]
fn line_by_words<'a>(
    alloc: Global,
    bytes: &'a [u8],
    words: &[&'a [u8]],
) -> Result<Option<Line<'a>>, AllocError>
    requires { map (λ w. w.now) words.now ≡ parts_of 32 bytes.now }
    ensures { IfOk result (λ line. option_map line_view line ≡ line_of bytes.now) }
{
    let [word, words @ ..] = words else {
        return Ok(None);
    };
    if *word == b"string".as_slice() {
        Ok(string_line(bytes, *word, words))
    } else if are_nonempty(words) {
        line_of_kind(alloc, *word, words)
    } else {
        Ok(None)
    }
}

/// The line that bytes are.
pub fn read_line<'a>(alloc: Global, bytes: &'a [u8]) -> Result<Option<Line<'a>>, AllocError>
    ensures { IfOk result (λ line. option_map line_view line ≡ line_of bytes.now) }
{
    let words = split_words(alloc, bytes)?;
    line_by_words(alloc, bytes, &words)
}
