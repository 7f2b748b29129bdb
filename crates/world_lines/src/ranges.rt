//! Values that are numbers, and the ranges of their types.

ghost use Rattle.std.specs.Prelude.{◌≡◌};
ghost use Rattle.std.specs.List.{list_all};
ghost use Rattle.world_lines.specs.LineContents.{is_number};
ghost use Rattle.world_lines.specs.LineViews.{value_view};
ghost use Rattle.world_values.specs.WorldRules.{is_in_range, value_in_range};

use crate::value::Value;
use classes::class::ElementType;

/// Whether a value is a number.
pub fn is_number(value: Value) -> bool
    ensures { result ≡ is_number (value_view value.entry) }
{
    matches!(value, Value::Number(_))
}

fn is_in_range(element: ElementType, number: i64) -> bool
    ensures { result ≡ is_in_range element number }
{
    match element {
        ElementType::Int => number >= -2_147_483_648 && number <= 2_147_483_647,
        ElementType::Short => number >= -32_768 && number <= 32_767,
        ElementType::Byte => number >= -128 && number <= 127,
        ElementType::Char => number >= 0 && number <= 65_535,
    }
}

/// Whether a value that is a number is in the range of its type; any other value counts as in range.
pub fn is_value_in_range(element: ElementType, value: Value) -> bool
    ensures { result ≡ value_in_range element (value_view value.entry) }
{
    match value {
        Value::Number(number) => is_in_range(element, number),
        _ => true,
    }
}

pub fn are_in_range(element: ElementType, values: &[Value]) -> bool
    ensures { result ≡ list_all (λ value. value_in_range element (value_view value)) values.now }
{
    values
        .iter()
        .all(|value| is_value_in_range(element, *value))
}
