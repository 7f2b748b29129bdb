//! What is told where a unit and a world don't go together, for its reader; no contract says which words these are.

ghost use Rattle.std.specs.Prelude.{◌≡◌};

use nearest::Nearest;
use places::{Detail, Line};
use std::alloc::Global;
use syntax::{Function, Item, Parameter, ParameterType};
use world_values::{Call, ObjectValue, World};

/// The line of the heap of a world that doesn't allow the methods that a unit asks for.
pub fn line_of_heap(world: &World) -> Line
    ensures { result ≡ world.now.heap_line }
{
    let detail = Detail::of(
        b"found no methods, wanted heap N methods: the program calls GetStaticMethodID",
    );
    Line::told(world.heap_line(), detail)
}

/// The line of a call that doesn't go with the unit of these items or the classes.
pub fn line_of_call(alloc: Global, items: &[Item], call: &Call) -> Line
    ensures { result ≡ call.now.line }
{
    Line::told(call.line(), detail_of_call(alloc, items, call))
}

/// What doesn't fit of a call: its function isn't there, or its arguments don't fit, or else its class isn't there.
fn detail_of_call(alloc: Global, items: &[Item], call: &Call) -> Detail {
    let Some(function) = function_of(items, call.function()) else {
        return lacking(alloc, items, call.function());
    };
    let found = call.arguments().len();
    let wanted = function.parameters.len();
    if found != wanted {
        return Detail::of(b"found arguments: ")
            .number(found)
            .words(b", wanted ")
            .number(wanted);
    }
    match misfit(&function.parameters, call.arguments()) {
        Some(detail) => detail,
        None => Detail::of(b"the class of ")
            .words(call.function())
            .words(b" isn't there"),
    }
}

/// That the unit has no function of this name, and which other may be meant.
fn lacking(alloc: Global, items: &[Item], name: &[u8]) -> Detail {
    let mut nearest = Nearest::to(name);
    for item in items {
        if let Item::Function(function) = item {
            nearest.offer(alloc, function.name.as_bytes());
        }
    }
    let detail = Detail::of(b"the program has no function ").words(name);
    nearest.asked_after(detail, b"")
}

/// The function of this name.
fn function_of<'a>(items: &'a [Item], name: &[u8]) -> Option<&'a Function> {
    for item in items {
        if let Item::Function(function) = item {
            if function.name.as_bytes() == name {
                return Some(function);
            }
        }
    }
    None
}

/// The first argument that isn't of its parameter's kind.
fn misfit(parameters: &[Parameter], arguments: &[ObjectValue]) -> Option<Detail> {
    for (parameter, argument) in parameters.iter().zip(arguments) {
        let wanted = wanted_for(parameter.kind, *argument);
        if !wanted.is_empty() {
            return Some(
                with_argument(Detail::of(b"found "), *argument)
                    .words(b" for ")
                    .words(parameter.name.as_bytes())
                    .words(b", wanted ")
                    .words(wanted),
            );
        }
    }
    None
}

/// What a parameter wants that an argument isn't, or no words where the argument is that.
fn wanted_for(kind: ParameterType, argument: ObjectValue) -> &'static [u8] {
    match (kind, argument) {
        (ParameterType::Jint, ObjectValue::Reference(_)) => b"jint",
        (ParameterType::Reference(_), ObjectValue::Number(_)) => b"a reference",
        _ => b"",
    }
}

/// Puts an argument.
fn with_argument(detail: Detail, argument: ObjectValue) -> Detail {
    match argument {
        ObjectValue::Number(number) => detail.integer(i64::from(number)),
        ObjectValue::Reference(Some(_)) => detail.words(b"an object"),
        ObjectValue::Reference(None) => detail.words(b"null"),
    }
}
