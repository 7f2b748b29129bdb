//! Each public call that reads, once with success, and what it reads.

use crate::class_tables::id;
use class_rules::ClassId;
use class_rules::mangling::{is_mangled, mangle, unmangle};
use semantics::{Entry, EntryKind, ObjectId, ScheduleWord};
use std::test::Fail;
use world::read_world;
use world_schedules::{Repetition, read_journal, read_schedule};
use world_values::{Call, Object, ObjectValue, World};

#[test]
fn a_schedule(rt: HostRuntime) -> Result<(), Fail> {
    let schedule = read_schedule(rt.alloc(), b"1*3  2\n\n1\n", 2)?;
    let words = [(1, 3), (2, 1), (1, 1)].map(|(thread, times)| Repetition {
        word: ScheduleWord::Turn(thread),
        times,
    });
    assert!(rt; schedule.repetitions() == words.as_slice());
    Ok(())
}

#[test]
fn a_schedule_with_collections_and_slices(rt: HostRuntime) -> Result<(), Fail> {
    let schedule = read_schedule(rt.alloc(), b"s 1 c*2\ns*3 c s*999992\n", 1)?;
    let words = [
        (ScheduleWord::Slice, 1),
        (ScheduleWord::Turn(1), 1),
        (ScheduleWord::Collect, 2),
        (ScheduleWord::Slice, 3),
        (ScheduleWord::Collect, 1),
        (ScheduleWord::Slice, 999992),
    ]
    .map(|(word, times)| Repetition { word, times });
    assert!(rt; schedule.repetitions() == words.as_slice());
    Ok(())
}

/// Whether a schedule for one thread is refused.
fn is_no_schedule(rt: HostRuntime, text: &[u8]) -> bool {
    read_schedule(rt.alloc(), text, 1).is_err()
}

#[test]
fn no_collections_and_slices(rt: HostRuntime) -> Result<(), Fail> {
    let got = [
        is_no_schedule(rt, b"c*0\n"),
        is_no_schedule(rt, b"s*0\n"),
        is_no_schedule(rt, b"s*\n"),
        is_no_schedule(rt, b"s*03\n"),
        is_no_schedule(rt, b"s*1000001\n"),
        is_no_schedule(rt, b"s*1000000 s\n"),
        is_no_schedule(rt, b"s3\n"),
        is_no_schedule(rt, b"ss\n"),
        is_no_schedule(rt, b"S\n"),
        is_no_schedule(rt, b"s!\n"),
        is_refused(rt, b"s\n"),
    ];
    assert!(rt; got == [true; 11]);
    Ok(())
}

#[test]
fn a_journal(rt: HostRuntime) -> Result<(), Fail> {
    let entries = read_journal(rt.alloc(), b"1 1! 2\n", 2)?;
    let got = [
        entries.len() == 3,
        is_step(&entries[0], 1, false),
        is_step(&entries[1], 1, true),
        is_step(&entries[2], 2, false),
    ];
    assert!(rt; got == [true; 4]);
    Ok(())
}

/// Whether an entry is a step of this thread, whose allocation is refused or not.
fn is_step(entry: &Entry, number: u8, is_refused: bool) -> bool {
    match entry.kind() {
        EntryKind::Step { thread, refused } => *thread == number && *refused == is_refused,
        EntryKind::Clearing(_) => false,
    }
}

#[test]
fn a_journal_with_a_clearing(rt: HostRuntime) -> Result<(), Fail> {
    let entries = read_journal(rt.alloc(), b"1 ~46,4294967295 1\n", 1)?;
    let names = [46, 4294967295].map(|number| ObjectId { number });
    let got = [
        entries.len() == 3,
        is_step(&entries[0], 1, false),
        is_clearing(&entries[1], &names),
        is_step(&entries[2], 1, false),
    ];
    assert!(rt; got == [true; 4]);
    Ok(())
}

/// Whether an entry is the clearing of these names.
fn is_clearing(entry: &Entry, names: &[ObjectId]) -> bool {
    match entry.kind() {
        EntryKind::Step { .. } => false,
        EntryKind::Clearing(cleared) => cleared.as_slice() == names,
    }
}

/// Whether a journal for one thread is refused.
fn is_refused(rt: HostRuntime, text: &[u8]) -> bool {
    read_journal(rt.alloc(), text, 1).is_err()
}

#[test]
fn no_clearings(rt: HostRuntime) -> Result<(), Fail> {
    let got = [
        is_refused(rt, b"~\n"),
        is_refused(rt, b"~0\n"),
        is_refused(rt, b"~46,46\n"),
        is_refused(rt, b"~47,46\n"),
        is_refused(rt, b"~46,\n"),
        is_refused(rt, b"~,46\n"),
        is_refused(rt, b"~046\n"),
        is_refused(rt, b"~4294967296\n"),
        is_refused(rt, b"~46!\n"),
    ];
    assert!(rt; got == [true; 9]);
    Ok(())
}

const WORLD: &[u8] =
    b"heap 1024\nclass A\nclass p/B extends A\nfield A n I\nstatic p/B s [I\nobject @o p/B 7\nobjects @r A @o null\n\narray @b I 7 8 -9\nstring @t a b\nthread Java_A_f @b -5 null class:A\ncall Java_A_g @t\n";

#[test]
fn classes_of_a_world(rt: HostRuntime) -> Result<(), Fail> {
    let world = read_world(rt.alloc(), WORLD)?;
    let classes = world.classes();
    let got = [
        world.cells() == 1024,
        classes.len() == 46,
        classes.find(b"p/B") == Some(id(45)),
        classes.superclass(id(45)) == Some(id(43)),
        classes.name(id(44)) == b"[LA;".as_slice(),
        classes.layout_len(id(45)) == 1,
        classes.own_statics(id(45)).len() == 1,
    ];
    assert!(rt; got == [true; 7]);
    Ok(())
}

/// Whether an object has this class and these values.
fn is_object(object: &Object, class: ClassId, values: &[ObjectValue]) -> bool {
    object.class() == class && object.values() == values
}

// Objects are named from 46 on, after those of the classes and the OutOfMemoryError object: here from 48, after two classes more.
#[test]
fn objects_of_a_world(rt: HostRuntime) -> Result<(), Fail> {
    let world = read_world(rt.alloc(), WORLD)?;
    let [o, r, _, _] = world.objects() else {
        return Err(Fail::new("four objects"));
    };
    let elements = [
        ObjectValue::Reference(Some(ObjectId { number: 48 })),
        ObjectValue::Reference(None),
    ];
    assert!(rt; is_object(o, id(45), &[ObjectValue::Number(7)]) && is_object(r, id(44), &elements));
    Ok(())
}

#[test]
fn numbers_and_text_of_a_world(rt: HostRuntime) -> Result<(), Fail> {
    let world = read_world(rt.alloc(), WORLD)?;
    let [_, _, b, t] = world.objects() else {
        return Err(Fail::new("four objects"));
    };
    let numbers = [7, 8, -9].map(ObjectValue::Number);
    let units = [97, 32, 98].map(ObjectValue::Number);
    assert!(rt; is_object(b, id(23), &numbers) && is_object(t, id(3), &units));
    Ok(())
}

/// Whether a call is of this function, from this line, with these arguments.
fn is_call(call: &Call, function: &[u8], line: usize, arguments: &[ObjectValue]) -> bool {
    call.function() == function && call.line() == line && call.arguments() == arguments
}

/// The calls of the only thread of a world.
fn calls_of(world: &World) -> &[Call] {
    match world.threads() {
        [calls] => calls.as_slice(),
        _ => &[],
    }
}

#[test]
fn calls_of_a_world(rt: HostRuntime) -> Result<(), Fail> {
    let world = read_world(rt.alloc(), WORLD)?;
    let [first, second] = calls_of(&world) else {
        return Err(Fail::new("two calls"));
    };
    let arguments = [
        ObjectValue::Reference(Some(ObjectId { number: 50 })),
        ObjectValue::Number(-5),
        ObjectValue::Reference(None),
        ObjectValue::Reference(Some(ObjectId { number: 43 })),
    ];
    let text = [ObjectValue::Reference(Some(ObjectId { number: 51 }))];
    assert!(rt;
        is_call(first, b"Java_A_f", 11, &arguments) && is_call(second, b"Java_A_g", 12, &text)
    );
    Ok(())
}

#[test]
fn names_of_native_methods(rt: HostRuntime) -> Result<(), Fail> {
    let name = mangle(rt.alloc(), b"a_b/C", b"f_g")?;
    assert!(rt; name.as_slice() == b"Java_a_1b_C_f_1g".as_slice() && is_mangled(&name));
    let native = unmangle(rt.alloc(), &name)?.ok_or("it is mangled")?;
    assert!(rt;
        native.class.as_slice() == b"a_b/C".as_slice()
            && native.method.as_slice() == b"f_g".as_slice()
    );
    Ok(())
}
