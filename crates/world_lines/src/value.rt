//! Values as a line of a world writes them.

ghost use Rattle.std.specs.Prelude.{◌≡◌, IfOk, map};
ghost use Rattle.std.specs.Option.{option_map};
ghost use Rattle.world_lines.specs.ReadingValues.{object_named, plain_value, value_named, values_named, element_named};
ghost use Rattle.world_lines.specs.LineViews.{value_view};

use classes::class::ElementType;
use std::alloc::{AllocError, Global};
use world_schedules::integer;

/// A value.
#[derive(Clone, Copy)]
pub enum Value<'a> {
    /// A number, or the nearest one of 64 bits.
    Number(i64),
    Null,
    /// The object of this name, written `@x`.
    Object(&'a [u8]),
    /// The class object of the class of this name, written `class:NAME`.
    Class(&'a [u8]),
}

/// What is after the `@` of the name of an object.
pub fn object_name(word: &[u8]) -> Option<&[u8]>
    ensures { option_map (λ x. x.now) result ≡ object_named word.now }
{
    match word {
        [b'@', name @ ..] => Some(name),
        _ => None,
    }
}

/// The number that a word is, or null.
fn plain_value(word: &[u8]) -> Option<Value<'_>>
    ensures { option_map value_view result ≡ plain_value word.now }
{
    if word == b"null".as_slice() {
        return Some(Value::Null);
    }
    match integer(word) {
        Some(number) => Some(Value::Number(number)),
        None => None,
    }
}

/// The value that a word is.
#[tactic(auto, unfolding(crate::specs::ReadingValues::value_named))]
fn read_value(word: &[u8]) -> Option<Value<'_>>
    ensures { option_map value_view result ≡ value_named word.now }
{
    match word {
        [] => None,
        [b'@', name @ ..] => Some(Value::Object(name)),
        _ => match word.strip_prefix(b"class:".as_slice()) {
            Some(name) => Some(Value::Class(name)),
            None => plain_value(word),
        },
    }
}

/// The values that the words are, or `None` where one of them is none.
pub fn read_values<'a>(
    alloc: Global,
    words: &[&'a [u8]],
) -> Result<Option<Vec<Value<'a>>>, AllocError>
    ensures { IfOk result (λ values. option_map (λ v. map value_view v.items) values ≡ values_named (map (λ w. w.now) words.now)) }
{
    let mut values = Vec::new(alloc);
    for word in words {
        match read_value(*word) {
            Some(value) => values.push(value)?,
            None => return Ok(None),
        }
    }
    Ok(Some(values))
}

/// The type of the elements of an array, by its letter.
pub fn read_element(word: &[u8]) -> Option<ElementType>
    ensures { result ≡ element_named word.now }
{
    match word {
        b"I" => Some(ElementType::Int),
        b"S" => Some(ElementType::Short),
        b"B" => Some(ElementType::Byte),
        b"C" => Some(ElementType::Char),
        _ => None,
    }
}
