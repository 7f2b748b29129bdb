//! What a line has by itself: its part, its values, the name that it gives, and the cells that it takes.

ghost use Rattle.std.specs.Prelude.{◌≡◌, map};
ghost use Rattle.std.specs.Option.{option_map};
ghost use Rattle.world_lines.specs.LineContents.{written_values, name_given, cells_added};
ghost use Rattle.world_lines.specs.LineViews.{value_view, line_view};
ghost use Rattle.world_values.specs.WorldRules.{part_of, is_call_line};

use crate::line::Line;
use crate::value::Value;
use world_values::Part;

/// The part that a line is of.
pub fn part_of(line: &Line) -> Part
    ensures { result ≡ part_of (line_view line.now) }
{
    match line {
        Line::Class(..) | Line::Field(_) | Line::Static(_) => Part::Classes,
        Line::Thread(_) | Line::Call(_) => Part::Threads,
        _ => Part::Objects,
    }
}

/// Whether a line is a further call of the last thread.
pub fn is_call(line: &Line) -> bool
    ensures { result ≡ is_call_line (line_view line.now) }
{
    matches!(line, Line::Call(_))
}

/// The values that a line writes.
pub fn values_of<'l, 'a>(line: &'l Line<'a>) -> &'l [Value<'a>]
    ensures { map value_view result.now ≡ written_values (line_view line.now) }
{
    match line {
        Line::Object(object) => &object.values,
        Line::Objects(object) => &object.values,
        Line::Array(array) => &array.values,
        Line::Thread(call) => &call.arguments,
        Line::Call(call) => &call.arguments,
        _ => &[],
    }
}

/// The name that a line gives its object.
pub fn name_given<'a>(line: &Line<'a>) -> Option<&'a [u8]>
    ensures { option_map (λ x. x.now) result ≡ name_given (line_view line.now) }
{
    match line {
        Line::Object(object) => Some(object.name),
        Line::Objects(object) => Some(object.name),
        Line::Array(array) => Some(array.name),
        Line::String(name, _) => Some(*name),
        _ => None,
    }
}

/// The cells that a line adds at load.
pub fn cells_added(line: &Line) -> usize
    ensures { result ≡ cells_added (line_view line.now) }
{
    match line {
        Line::Class(..) => 6,
        Line::Static(_) => 1,
        Line::Object(object) => 3 + object.values.len(),
        Line::Objects(object) => 3 + object.values.len(),
        Line::Array(array) => 3 + array.values.len(),
        Line::String(_, text) => 3 + text.len(),
        Line::Field(_) | Line::Thread(_) | Line::Call(_) => 0,
    }
}
