//! The form of the values and of the string that a line writes.

ghost use Rattle.std.specs.Prelude.{◌≡◌, ◌&&◌};
ghost use Rattle.std.specs.List.{list_all};
ghost use Rattle.base.specs.Bytes.{is_from_to};
ghost use Rattle.class_rules.specs.Mangling.{is_simple_name};
ghost use Rattle.world_lines.specs.LineContents.{written_values};
ghost use Rattle.world_lines.specs.LineViews.{value_view, line_view};
ghost use Rattle.world_values.specs.WorldRules.{is_formed_value};

use crate::contents::values_of;
use crate::line::Line;
use crate::value::Value;
use crate::words::is_simple_name;

fn is_text_byte(byte: u8) -> bool
    ensures { result ≡ is_from_to 32 126 byte }
{
    matches!(byte, 32..=126)
}

fn is_text(text: &[u8]) -> bool
    ensures { result ≡ list_all (is_from_to 32 126) text.now }
{
    text.iter().all(|byte| is_text_byte(*byte))
}

/// Whether a string's name is a simple name and its text is of printing characters.
pub fn is_string_formed(name: &[u8], text: &[u8]) -> bool
    ensures { result ≡ (is_simple_name name.now && list_all (is_from_to 32 126) text.now) }
{
    is_simple_name(name) && is_text(text)
}

fn is_formed_value(value: Value) -> bool
    ensures { result ≡ is_formed_value (value_view value.entry) }
{
    match value {
        Value::Object(name) => is_simple_name(name),
        _ => true,
    }
}

fn are_formed(values: &[Value]) -> bool
    ensures { result ≡ list_all (λ value. is_formed_value (value_view value)) values.now }
{
    values.iter().all(|value| is_formed_value(*value))
}

/// Whether the names of the objects among the values that a line writes are simple names.
pub fn has_formed_values(line: &Line) -> bool
    ensures { result ≡ list_all is_formed_value (written_values (line_view line.now)) }
{
    are_formed(values_of(line))
}
