//! What is told of a line of a world that is refused, for its reader; no contract says which words these are.

use crate::builder::WorldBuilder;
use crate::rules::is_known;
use class_rules::ClassId;
use classes::table::ClassTable;
use nearest::Nearest;
use places::Detail;
use std::alloc::Global;
use world_lines::{
    FieldWords, Line, ObjectWords, Value, cells_added, is_class_allowed, name_given, values_of,
};
use world_schedules::{Rule, Split};

/// The forms of lines by their first words.
static FORMS: [(&[u8], &[u8]); 9] = [
    (
        b"class",
        b"wanted `class NAME` or `class NAME extends SUPERCLASS`",
    ),
    (b"field", b"wanted `field CLASS NAME SIGNATURE`"),
    (b"static", b"wanted `static CLASS NAME SIGNATURE`"),
    (b"object", b"wanted `object @NAME CLASS VALUE ..`"),
    (b"objects", b"wanted `objects @NAME CLASS VALUE ..`"),
    (
        b"array",
        b"wanted `array @NAME I NUMBER ..`, or S, B or C for I",
    ),
    (b"string", b"wanted `string @NAME TEXT`"),
    (b"thread", b"wanted `thread FUNCTION ARGUMENT ..`"),
    (b"call", b"wanted `call FUNCTION ARGUMENT ..`"),
];

/// A line that has none of the forms.
pub(crate) fn formless(line: &[u8]) -> Detail {
    let word = Split::new(line, b' ').next().unwrap_or(b"");
    for (first, form) in &FORMS {
        if *first == word {
            return Detail::of(form);
        }
    }
    Detail::of(b"found ").quoted(word)
}

/// Puts a value as a line writes it.
fn with_value(detail: Detail, value: Value<'_>) -> Detail {
    match value {
        Value::Number(number) => detail.integer(number),
        Value::Null => detail.words(b"null"),
        Value::Object(name) => detail.words(b"@").words(name),
        Value::Class(name) => detail.words(b"class:").words(name),
    }
}

/// The name that is taken.
fn taken(line: &Line<'_>) -> Detail {
    match line {
        Line::Class(name, _) => Detail::of(*name),
        Line::Field(field) | Line::Static(field) => Detail::of(field.name)
            .words(b" in class ")
            .words(field.class),
        _ => Detail::none(),
    }
}

/// Asks after these words whether another class is meant than the one of this name.
fn with_class_asked(
    alloc: Global,
    detail: Detail,
    classes: &ClassTable,
    name: &[u8],
    mark: &[u8],
) -> Detail {
    let mut nearest = Nearest::to(name);
    for number in 1..classes.len().saturating_add(1) {
        nearest.offer(alloc, classes.name(ClassId { number }));
    }
    nearest.asked_after(detail, mark)
}

/// A superclass that isn't there, or has no subclasses.
fn superclass(alloc: Global, classes: &ClassTable, line: &Line<'_>) -> Detail {
    match line {
        Line::Class(_, Some(name)) => match classes.find(*name) {
            Some(_) => Detail::of(b"class ")
                .words(*name)
                .words(b" has no subclasses"),
            None => {
                let detail = Detail::of(b"class ")
                    .words(*name)
                    .words(b" isn't defined before");
                with_class_asked(alloc, detail, classes, *name, b"")
            }
        },
        _ => Detail::none(),
    }
}

/// A signature that no type has. It may be that of a class that isn't there.
fn signature(alloc: Global, classes: &ClassTable, line: &Line<'_>) -> Detail {
    match line {
        Line::Field(field) | Line::Static(field) => {
            let detail = Detail::of(field.signature);
            match field.signature {
                [b'L', name @ .., b';'] => with_class_asked(alloc, detail, classes, name, b""),
                _ => detail,
            }
        }
        _ => Detail::none(),
    }
}

/// What there is too many of.
fn too_many(line: &Line<'_>) -> Detail {
    match line {
        Line::Field(field) | Line::Static(field) => {
            Detail::of(b"at most 64 fields and statics in class ").words(field.class)
        }
        _ => Detail::of(b"at most 256 classes, with the built-in ones and those of arrays"),
    }
}

/// Whether objects of a class have another number of fields than an object's line has values.
fn miscounted(classes: &ClassTable, object: &ObjectWords<'_>) -> Option<Detail> {
    let class = classes.find(object.class)?;
    let wanted = classes.layout_len(class);
    let found = object.values.len();
    if found == wanted {
        return None;
    }
    Some(
        Detail::of(b"found values: ")
            .number(found)
            .words(b", wanted ")
            .number(wanted),
    )
}

/// A line that comes too late, or whose names or values have no form.
fn misformed(builder: &WorldBuilder, line: &Line<'_>) -> Detail {
    if !builder.comes_in_order(line) {
        return match line {
            Line::Call(_) => Detail::of(b"a call comes after a thread"),
            _ => Detail::of(b"classes and fields come first, then objects, then threads"),
        };
    }
    let counted = match line {
        Line::Object(object) => miscounted(&builder.classes, object),
        _ => None,
    };
    match counted {
        Some(detail) => detail,
        None => Detail::of(b"a name is a letter, and then letters, digits and `_`"),
    }
}

/// The class that a line speaks of.
fn class_of<'a>(line: &Line<'a>) -> Option<&'a [u8]> {
    match line {
        Line::Field(FieldWords { class, .. }) | Line::Static(FieldWords { class, .. }) => {
            Some(*class)
        }
        Line::Object(object) | Line::Objects(object) => Some(object.class),
        _ => None,
    }
}

/// A class that isn't there, or that such a line can't speak of.
fn wrong_class(alloc: Global, classes: &ClassTable, line: &Line<'_>) -> Detail {
    match class_of(line) {
        None => Detail::none(),
        Some(name) => match classes.find(name) {
            None => {
                let detail = Detail::of(b"class ").words(name).words(b" isn't there");
                with_class_asked(alloc, detail, classes, name, b"")
            }
            Some(_) => Detail::of(b"class ")
                .words(name)
                .words(b" can't stand here"),
        },
    }
}

/// A value that isn't known.
fn lacking(alloc: Global, builder: &WorldBuilder, value: Value<'_>) -> Detail {
    let detail = with_value(Detail::none(), value).words(b" isn't there");
    match value {
        Value::Object(name) => {
            let mut nearest = Nearest::to(name);
            builder.names.offer_to(alloc, &mut nearest);
            nearest.asked_after(detail, b"@")
        }
        Value::Class(name) => with_class_asked(alloc, detail, &builder.classes, name, b"class:"),
        Value::Number(_) | Value::Null => detail,
    }
}

/// The first value of a line that isn't known.
fn unknown_value(alloc: Global, builder: &WorldBuilder, line: &Line<'_>) -> Option<Detail> {
    for value in values_of(line) {
        if !is_known(&builder.classes, &builder.names, *value) {
            return Some(lacking(alloc, builder, *value));
        }
    }
    None
}

/// A name that is taken or isn't known, a class that isn't allowed, or a value that doesn't fit its place.
fn misnamed(alloc: Global, builder: &WorldBuilder, line: &Line<'_>) -> Detail {
    if let Some(name) = name_given(line) {
        if builder.names.class_of(name).is_some() {
            return Detail::of(b"@").words(name).words(b" is taken");
        }
    }
    if !is_class_allowed(&builder.classes, builder.methods, line) {
        return wrong_class(alloc, &builder.classes, line);
    }
    match unknown_value(alloc, builder, line) {
        Some(detail) => detail,
        None => Detail::of(b"a value doesn't fit its place"),
    }
}

/// What is out of its limit.
fn limited(builder: &WorldBuilder, line: &Line<'_>) -> Detail {
    if builder.has_place(line) {
        return Detail::of(b"a number is out of the range of its type");
    }
    match line {
        Line::Thread(_) => Detail::of(b"at most 8 threads"),
        Line::Call(_) => Detail::of(b"at most 256 calls of a thread"),
        _ => Detail::of(b"at most 65536 objects"),
    }
}

/// How many cells are wanted and free.
fn roomless(builder: &WorldBuilder, line: &Line<'_>) -> Detail {
    Detail::of(b"wanted cells: ")
        .number(cells_added(line))
        .words(b", free are ")
        .number((builder.cells as usize).saturating_sub(builder.used))
}

/// What is told of a line that breaks a rule after the lines before it.
pub(crate) fn line_detail(
    alloc: Global,
    builder: &WorldBuilder,
    line: &Line<'_>,
    rule: Rule,
) -> Detail {
    match rule {
        Rule::NameTaken => taken(line),
        Rule::Superclass => superclass(alloc, &builder.classes, line),
        Rule::Signature => signature(alloc, &builder.classes, line),
        Rule::Classes => too_many(line),
        Rule::Form => misformed(builder, line),
        Rule::Name => misnamed(alloc, builder, line),
        Rule::Limit => limited(builder, line),
        Rule::Heap => roomless(builder, line),
    }
}
