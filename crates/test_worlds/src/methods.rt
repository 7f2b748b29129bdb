//! Worlds whose first line allows methods.

use crate::class_tables::id;
use std::alloc::Global;
use std::test::Fail;
use world::read_world;
use world_schedules::ReadError;

#[test]
fn a_world_of_methods(rt: HostRuntime) -> Result<(), Fail> {
    let world = read_world(
        rt.alloc(),
        b"\nheap 512 methods\nclass A\nthread Java_A_f\n",
    )?;
    let classes = world.classes();
    let got = [
        world.has_methods() && world.heap_line() == 2,
        classes.len() == 46,
        classes.find(b"java/lang/NoSuchMethodError") == Some(id(43)),
        classes.superclass(id(43)) == Some(id(7)),
        classes.find(b"[Ljava/lang/NoSuchMethodError;") == Some(id(44)),
        classes.find(b"A") == Some(id(45)),
    ];
    assert!(rt; got == [true; 6]);
    Ok(())
}

// There a class of that name is one like others.
#[test]
fn a_world_without(rt: HostRuntime) -> Result<(), Fail> {
    let text =
        b"heap 512\nclass java/lang/NoSuchMethodError\nfield java/lang/NoSuchMethodError n I\nthread Java_A_f\n";
    let world = read_world(rt.alloc(), text)?;
    let classes = world.classes();
    let got = [
        !world.has_methods() && world.heap_line() == 1,
        classes.len() == 44,
        classes.find(b"java/lang/NoSuchMethodError") == Some(id(43)),
        classes.superclass(id(43)) == Some(id(1)),
    ];
    assert!(rt; got == [true; 4]);
    Ok(())
}

/// The number and the line of a fault; zeros where memory was refused.
fn number_and_line(error: ReadError) -> (u32, usize) {
    match error {
        ReadError::Fault(fault) => (fault.rule.number(), fault.line.number()),
        ReadError::Memory => (0, 0),
    }
}

/// The number of the fault of a text, and its line; zeros where it is accepted.
fn fault_of(alloc: Global, text: &[u8]) -> (u32, usize) {
    match read_world(alloc, text) {
        Ok(_world) => (0, 0),
        Err(error) => number_and_line(error),
    }
}

#[test]
fn first_lines_that_are_refused(rt: HostRuntime) {
    let got = [
        fault_of(rt.alloc(), b"heap 512 method\nthread Java_A_f\n"),
        fault_of(rt.alloc(), b"\nheap 512 methods x\nthread Java_A_f\n"),
        fault_of(rt.alloc(), b"heap methods\nthread Java_A_f\n"),
        fault_of(rt.alloc(), b"heap methods 512\nthread Java_A_f\n"),
        fault_of(rt.alloc(), b"heap 511 methods\nthread Java_A_f\n"),
    ];
    assert!(rt; got == [(81, 1), (81, 2), (81, 1), (81, 1), (83, 1)]);
}

// The class is there, and is a built-in one.
#[test]
fn lines_on_the_class(rt: HostRuntime) {
    let got = [
        fault_of(
            rt.alloc(),
            b"heap 512 methods\nclass java/lang/NoSuchMethodError\nthread Java_A_f\n",
        ),
        fault_of(
            rt.alloc(),
            b"heap 512 methods\nfield java/lang/NoSuchMethodError n I\nthread Java_A_f\n",
        ),
        fault_of(
            rt.alloc(),
            b"heap 512 methods\nstatic java/lang/NoSuchMethodError n I\nthread Java_A_f\n",
        ),
    ];
    assert!(rt; got == [(61, 2), (82, 2), (82, 2)]);
}
