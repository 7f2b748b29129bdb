//! The built-in classes.

ghost use Rattle.std.specs.Prelude.{◌≡◌, ◌++◌, ◌∷◌, [], length, map, nat_lt, None, true, IfOk, OnOk, IsTrue};
ghost use Rattle.std.specs.List.{list_all};
ghost use Rattle.class_rules.specs.Additions.{built_in_count};
ghost use Rattle.class_rules.specs.BuiltIns.{array_class, built_ins, number_array};
ghost use Rattle.classes.specs.BuiltInList.{listed_field, listed_class, listed_number_array, array_classes, listed_classes, is_class_list};
ghost use Rattle.classes.specs.Tables.{names_differ, field_names_differ, declares_once};
ghost use Rattle.class_rules.specs.Class.{class_named};
ghost use Rattle.classes.specs.Views.{kind_view};

use crate::class::{ClassKind, ElementType, Entry, FieldType};
use crate::entries::{Entries, array_name};
use crate::own_fields::OwnFields;
use class_rules::ClassId;
use std::alloc::{AllocError, Global};

/// A built-in class, with the number of its superclass and without statics.
pub struct BuiltIn {
    pub name: &'static [u8],
    pub superclass: Option<ClassId>,
    pub fields: &'static [BuiltInField],
}

/// A field of a built-in class.
pub struct BuiltInField {
    pub name: &'static [u8],
    pub field_type: FieldType,
}

/// The number of `java/lang/Object`.
pub const OBJECT: ClassId = ClassId { number: 1 };

/// The number of `java/lang/Class`.
pub const CLASS: ClassId = ClassId { number: 2 };

/// The number of `java/lang/String`.
pub const STRING: ClassId = ClassId { number: 3 };

/// The number of `java/lang/Throwable`.
pub const THROWABLE: ClassId = ClassId { number: 4 };

/// The number of `java/lang/Error`.
pub const ERROR: ClassId = ClassId { number: 5 };

/// The number of `java/lang/LinkageError`.
pub const LINKAGE_ERROR: ClassId = ClassId { number: 6 };

/// The number of `java/lang/IncompatibleClassChangeError`.
pub const INCOMPATIBLE_CLASS_CHANGE_ERROR: ClassId = ClassId { number: 7 };

/// The number of `java/lang/NoSuchFieldError`.
pub const NO_SUCH_FIELD_ERROR: ClassId = ClassId { number: 8 };

/// The number of `java/lang/NoClassDefFoundError`.
pub const NO_CLASS_DEF_FOUND_ERROR: ClassId = ClassId { number: 9 };

/// The number of `java/lang/VirtualMachineError`.
pub const VIRTUAL_MACHINE_ERROR: ClassId = ClassId { number: 10 };

/// The number of `java/lang/OutOfMemoryError`.
pub const OUT_OF_MEMORY_ERROR: ClassId = ClassId { number: 11 };

/// The number of `java/lang/Exception`.
pub const EXCEPTION: ClassId = ClassId { number: 12 };

/// The number of `java/lang/RuntimeException`.
pub const RUNTIME_EXCEPTION: ClassId = ClassId { number: 13 };

/// The number of `java/lang/IndexOutOfBoundsException`.
pub const INDEX_OUT_OF_BOUNDS_EXCEPTION: ClassId = ClassId { number: 14 };

/// The number of `java/lang/ArrayIndexOutOfBoundsException`.
pub const ARRAY_INDEX_OUT_OF_BOUNDS_EXCEPTION: ClassId = ClassId { number: 15 };

/// The number of `java/lang/StringIndexOutOfBoundsException`.
pub const STRING_INDEX_OUT_OF_BOUNDS_EXCEPTION: ClassId = ClassId { number: 16 };

/// The number of `java/lang/ArrayStoreException`.
pub const ARRAY_STORE_EXCEPTION: ClassId = ClassId { number: 17 };

/// The number of `java/lang/NegativeArraySizeException`.
pub const NEGATIVE_ARRAY_SIZE_EXCEPTION: ClassId = ClassId { number: 18 };

/// The number of `java/lang/IllegalMonitorStateException`.
pub const ILLEGAL_MONITOR_STATE_EXCEPTION: ClassId = ClassId { number: 19 };

/// The number of `java/lang/NoSuchMethodError`, in a world of methods alone.
pub const NO_SUCH_METHOD_ERROR: ClassId = ClassId { number: 43 };

/// What is told of a throwable.
const MESSAGE: BuiltInField = BuiltInField {
    name: b"message",
    field_type: FieldType::Reference(STRING),
};

/// The plain built-in classes, in the order of their numbers.
pub const BUILT_INS: [BuiltIn; 19] = [
    BuiltIn {
        name: b"java/lang/Object",
        superclass: None,
        fields: &[],
    },
    BuiltIn {
        name: b"java/lang/Class",
        superclass: Some(OBJECT),
        fields: &[],
    },
    BuiltIn {
        name: b"java/lang/String",
        superclass: Some(OBJECT),
        fields: &[],
    },
    BuiltIn {
        name: b"java/lang/Throwable",
        superclass: Some(OBJECT),
        fields: &[MESSAGE],
    },
    BuiltIn {
        name: b"java/lang/Error",
        superclass: Some(THROWABLE),
        fields: &[],
    },
    BuiltIn {
        name: b"java/lang/LinkageError",
        superclass: Some(ERROR),
        fields: &[],
    },
    BuiltIn {
        name: b"java/lang/IncompatibleClassChangeError",
        superclass: Some(LINKAGE_ERROR),
        fields: &[],
    },
    BuiltIn {
        name: b"java/lang/NoSuchFieldError",
        superclass: Some(INCOMPATIBLE_CLASS_CHANGE_ERROR),
        fields: &[],
    },
    BuiltIn {
        name: b"java/lang/NoClassDefFoundError",
        superclass: Some(LINKAGE_ERROR),
        fields: &[],
    },
    BuiltIn {
        name: b"java/lang/VirtualMachineError",
        superclass: Some(ERROR),
        fields: &[],
    },
    BuiltIn {
        name: b"java/lang/OutOfMemoryError",
        superclass: Some(VIRTUAL_MACHINE_ERROR),
        fields: &[],
    },
    BuiltIn {
        name: b"java/lang/Exception",
        superclass: Some(THROWABLE),
        fields: &[],
    },
    BuiltIn {
        name: b"java/lang/RuntimeException",
        superclass: Some(EXCEPTION),
        fields: &[],
    },
    BuiltIn {
        name: b"java/lang/IndexOutOfBoundsException",
        superclass: Some(RUNTIME_EXCEPTION),
        fields: &[],
    },
    BuiltIn {
        name: b"java/lang/ArrayIndexOutOfBoundsException",
        superclass: Some(INDEX_OUT_OF_BOUNDS_EXCEPTION),
        fields: &[],
    },
    BuiltIn {
        name: b"java/lang/StringIndexOutOfBoundsException",
        superclass: Some(INDEX_OUT_OF_BOUNDS_EXCEPTION),
        fields: &[],
    },
    BuiltIn {
        name: b"java/lang/ArrayStoreException",
        superclass: Some(RUNTIME_EXCEPTION),
        fields: &[],
    },
    BuiltIn {
        name: b"java/lang/NegativeArraySizeException",
        superclass: Some(RUNTIME_EXCEPTION),
        fields: &[],
    },
    BuiltIn {
        name: b"java/lang/IllegalMonitorStateException",
        superclass: Some(RUNTIME_EXCEPTION),
        fields: &[],
    },
];

/// The classes of arrays of numbers, which come after the plain built-in classes.
const NUMBER_ARRAYS: [(&[u8], ElementType); 4] = [
    (b"[B", ElementType::Byte),
    (b"[C", ElementType::Char),
    (b"[S", ElementType::Short),
    (b"[I", ElementType::Int),
];

/// Whether a class of this number comes after the built-in ones.
pub fn is_after_built_ins(class: ClassId, methods: bool) -> bool
    ensures { result ≡ nat_lt (built_in_count methods) class.number }
{
    class.number > if methods { 44 } else { 42 }
}

/// The class of arrays of such numbers.
pub fn number_array(element: ElementType) -> ClassId
    ensures { result.number ≡ number_array element }
{
    match element {
        ElementType::Byte => ClassId { number: 20 },
        ElementType::Char => ClassId { number: 21 },
        ElementType::Short => ClassId { number: 22 },
        ElementType::Int => ClassId { number: 23 },
    }
}

fn copied_fields(alloc: Global, fields: &[BuiltInField]) -> Result<OwnFields, AllocError>
    requires { field_names_differ (map listed_field fields.now) ≡ true }
    ensures { IfOk result (λ copies. copies ≡ map listed_field fields.now) }
{
    let mut copies = OwnFields::new(alloc);
    for field in fields {
        copies.push(field.name, field.field_type)?;
    }
    Ok(copies)
}

/// Puts a built-in class after the others.
fn put_built_in(alloc: Global, classes: &mut Entries, built_in: &BuiltIn) -> Result<(), AllocError>
    requires new { class_named classes.old built_in.now.name.now ≡ None }
    requires differ { field_names_differ (map listed_field built_in.now.fields.now) ≡ true }
    ensures { OnOk result (classes.new ≡ classes.old ++ listed_class built_in.now ∷ []) }
{
    let name = Vec::from_slice(alloc, built_in.name)?;
    let fields = copied_fields(alloc, built_in.fields)?;
    classes.put(
        name,
        Entry {
            superclass: built_in.superclass,
            kind: ClassKind::Plain,
            fields,
            statics: OwnFields::new(alloc),
        },
    )
}

/// Puts a class of arrays after the others.
fn put_array(
    alloc: Global,
    classes: &mut Entries,
    name: Vec<u8>,
    kind: ClassKind,
) -> Result<(), AllocError>
    requires { class_named classes.old name.items ≡ None }
    ensures { OnOk result (classes.new ≡ classes.old ++ array_class name.items (kind_view kind) ∷ []) }
{
    classes.put(name, Entry::of_arrays(alloc, kind))
}

/// Puts these built-in classes after the others.
fn put_built_ins(
    alloc: Global,
    classes: &mut Entries,
    built_ins: &[BuiltIn],
) -> Result<(), AllocError>
    requires differ { names_differ (classes.old ++ map listed_class built_ins.now) ≡ true }
    requires once { list_all declares_once (map listed_class built_ins.now) ≡ true }
    ensures { OnOk result (classes.new ≡ classes.old ++ map listed_class built_ins.now) }
{
    for built_in in built_ins {
        put_built_in(alloc, classes, built_in)?;
    }
    Ok(())
}

/// Puts these classes of arrays of numbers after the others.
fn put_number_arrays(
    alloc: Global,
    classes: &mut Entries,
    arrays: &[(&[u8], ElementType)],
) -> Result<(), AllocError>
    requires { names_differ (classes.old ++ map listed_number_array arrays.now) ≡ true }
    ensures { OnOk result (classes.new ≡ classes.old ++ map listed_number_array arrays.now) }
{
    for array in arrays {
        let name = Vec::from_slice(alloc, array.0)?;
        put_array(alloc, classes, name, ClassKind::ArrayOfNumbers(array.1))?;
    }
    Ok(())
}

/// Puts the classes of arrays of these, which are the first classes, after the others.
fn put_object_arrays(
    alloc: Global,
    classes: &mut Entries,
    built_ins: &[BuiltIn],
) -> Result<(), AllocError>
    requires { names_differ (classes.old ++ array_classes (map listed_class built_ins.now)) ≡ true }
    ensures { OnOk result (classes.new ≡ classes.old ++ array_classes (map listed_class built_ins.now)) }
{
    for (place, built_in) in built_ins.iter().enumerate() {
        let name = array_name(alloc, built_in.name)?;
        let elements = ClassId { number: place + 1 };
        put_array(alloc, classes, name, ClassKind::ArrayOfObjects(elements))?;
    }
    Ok(())
}

/// Puts the classes of the list, in order, and the classes of arrays after them.
fn put_listed(alloc: Global, classes: &mut Entries, built_ins: &[BuiltIn]) -> Result<(), AllocError>
    requires empty { classes.old ≡ [] }
    requires list { IsTrue (is_class_list built_ins.now) }
    ensures { OnOk result (classes.new ≡ listed_classes built_ins.now) }
{
    put_built_ins(alloc, classes, built_ins)?;
    put_number_arrays(alloc, classes, &NUMBER_ARRAYS)?;
    put_object_arrays(alloc, classes, built_ins)
}

/// The classes of the list, in order, with the classes of arrays after them.
pub(crate) fn listed(alloc: Global, built_ins: &[BuiltIn]) -> Result<Entries, AllocError>
    requires { IsTrue (is_class_list built_ins.now) }
    ensures { IfOk result (λ classes. classes ≡ listed_classes built_ins.now) }
{
    let mut classes = Entries::new(alloc);
    put_listed(alloc, &mut classes, built_ins)?;
    Ok(classes)
}
