//! Class tables: each public call once with success.

use class_rules::{ClassId, ClassRule, NO_CLASS};
use classes::built_ins::{is_after_built_ins, number_array};
use classes::class::{ClassKind, ElementType, FieldType};
use classes::fault::{ClassError, FieldError};
use classes::table::ClassTable;
use std::alloc::Global;
use std::test::Fail;

/// The class of a number.
pub(crate) fn id(number: usize) -> ClassId {
    ClassId { number }
}

/// The built-in classes, and a class A below java/lang/Error.
fn with_a(alloc: Global) -> Result<ClassTable, Fail> {
    let mut table = ClassTable::of_built_ins(alloc)?;
    if table.add_class(b"A", b"java/lang/Error") != Ok(id(43)) {
        return Err(Fail::new("class A"));
    }
    Ok(table)
}

/// Adds a field to A, where it is refused by this rule.
fn refuses_field(table: &mut ClassTable, name: &[u8], field_type: &[u8], rule: ClassRule) -> bool {
    table.add_field(b"A", name, field_type, false) == Err(FieldError::Refused(rule))
}

/// The class that declares the field at a place of a layout, or none.
fn declaring(table: &ClassTable, class: ClassId, place: usize) -> ClassId {
    match table.layout_field(class, place) {
        Some(found) => found.class,
        None => NO_CLASS,
    }
}

/// Whether the field at a place of a layout has this type.
fn has_type(table: &ClassTable, class: ClassId, place: usize, field_type: FieldType) -> bool {
    match table.layout_field(class, place) {
        Some(found) => found.field.field_type == field_type,
        None => false,
    }
}

#[test]
fn built_in_classes(rt: HostRuntime) -> Result<(), Fail> {
    let table = ClassTable::of_built_ins(rt.alloc())?;
    let got = [
        table.len() == 42,
        table.find(b"[I") == Some(id(23)),
        table.find(b"java/lang/Nothing") == None,
        table.name(id(24)) == b"[Ljava/lang/Object;".as_slice(),
        table.superclass(id(1)) == None,
        table.superclass(id(19)) == Some(id(13)),
    ];
    assert!(rt; got == [true; 6]);
    Ok(())
}

#[test]
fn kinds_of_built_in_classes(rt: HostRuntime) -> Result<(), Fail> {
    let table = ClassTable::of_built_ins(rt.alloc())?;
    let got = [
        table.kind(id(20)) == ClassKind::ArrayOfNumbers(ElementType::Byte),
        table.kind(id(42)) == ClassKind::ArrayOfObjects(id(19)),
        table.is_array(id(20)),
        !table.is_array(id(19)),
    ];
    assert!(rt; got == [true; 4]);
    Ok(())
}

// An ArrayIndexOutOfBoundsException is a Throwable, and an array of the one is an array of the other.
#[test]
fn assignable_classes(rt: HostRuntime) -> Result<(), Fail> {
    let table = ClassTable::of_built_ins(rt.alloc())?;
    let got = [
        table.assignable(id(15), id(4)),
        table.assignable(id(38), id(27)),
        table.assignable(id(20), id(1)),
        table.assignable(id(15), id(15)),
        table.assignable(id(4), id(15)),
        table.assignable(id(27), id(38)),
        table.assignable(id(20), id(21)),
    ];
    assert!(rt; got == [true, true, true, true, false, false, false]);
    Ok(())
}

#[test]
fn an_added_class(rt: HostRuntime) -> Result<(), Fail> {
    let table = with_a(rt.alloc())?;
    let got = [
        table.len() == 44,
        table.find(b"[LA;") == Some(id(44)),
        table.assignable(id(43), id(4)),
    ];
    assert!(rt; got == [true; 3]);
    Ok(())
}

#[test]
fn refused_classes(rt: HostRuntime) -> Result<(), Fail> {
    let mut table = with_a(rt.alloc())?;
    let again = table.add_class(b"A", b"java/lang/Error");
    let below = table.add_class(b"B", b"java/lang/String");
    assert!(rt; again == Err(ClassError::Refused(ClassRule::NameTaken)));
    assert!(rt; below == Err(ClassError::Refused(ClassRule::BadSuperclass)));
    Ok(())
}

#[test]
fn added_fields(rt: HostRuntime) -> Result<(), Fail> {
    let mut table = with_a(rt.alloc())?;
    let field = table.add_field(b"A", b"count", b"S", false);
    let global = table.add_field(b"A", b"all", b"[LA;", true);
    assert!(rt; field == Ok(()) && global == Ok(()) && table.own_statics(id(43)).len() == 1);
    Ok(())
}

#[test]
fn refused_fields(rt: HostRuntime) -> Result<(), Fail> {
    let mut table = with_a(rt.alloc())?;
    table.add_field(b"A", b"all", b"[LA;", true)?;
    let again = refuses_field(&mut table, b"all", b"I", ClassRule::NameTaken);
    let shapeless = refuses_field(&mut table, b"none", b"J", ClassRule::BadSignature);
    let nowhere = table.add_field(b"B", b"x", b"I", false);
    assert!(rt; again && shapeless && nowhere == Err(FieldError::NoClass));
    Ok(())
}

#[test]
fn an_inherited_field(rt: HostRuntime) -> Result<(), Fail> {
    let table = with_a(rt.alloc())?;
    let Some(found) = table.field(id(43), b"message", b"Ljava/lang/String;", false) else {
        return Err(Fail::new("an inherited field"));
    };
    assert!(rt; found.class == id(4) && found.field.field_type == FieldType::Reference(id(3)));
    Ok(())
}

#[test]
fn rules_without_an_addition(rt: HostRuntime) -> Result<(), Fail> {
    let table = with_a(rt.alloc())?;
    let got = [
        table.class_rule(b"A", b"java/lang/Object"),
        table.class_rule(b"B", b"[I"),
        table.class_rule(b"B", b"A"),
        table.field_rule(b"A", b"x", b"J"),
        table.field_rule(b"A", b"x", b"[LA;"),
    ];
    let expected = [
        Some(ClassRule::NameTaken),
        Some(ClassRule::BadSuperclass),
        None,
        Some(ClassRule::BadSignature),
        None,
    ];
    assert!(rt; got == expected && table.len() == 44);
    Ok(())
}

#[test]
fn classes_of_arrays(rt: HostRuntime) -> Result<(), Fail> {
    let table = ClassTable::of_built_ins(rt.alloc())?;
    let objects = table.find_array_of(b"java/lang/Object")?;
    let none = table.find_array_of(b"A")?;
    assert!(rt; objects == Some(id(24)) && none == None);
    Ok(())
}

#[test]
fn numbers_of_classes(rt: HostRuntime) {
    let got = [
        is_after_built_ins(id(43), false),
        is_after_built_ins(id(42), false),
        is_after_built_ins(id(45), true),
        is_after_built_ins(id(44), true),
    ];
    assert!(rt; number_array(ElementType::Int) == id(23) && got == [true, false, true, false]);
}

// The superclass's fields come first.
#[test]
fn a_layout(rt: HostRuntime) -> Result<(), Fail> {
    let mut table = with_a(rt.alloc())?;
    table.add_field(b"A", b"count", b"S", false)?;
    let a = id(43);
    let got = [
        declaring(&table, a, 0),
        declaring(&table, a, 1),
        declaring(&table, a, 2),
    ];
    let short = FieldType::Number(ElementType::Short);
    assert!(rt; got == [id(4), a, NO_CLASS]);
    assert!(rt; table.layout_len(a) == 2 && has_type(&table, a, 1, short));
    Ok(())
}
