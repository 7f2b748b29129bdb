//! The table of the functions of the JNI (JNI Specification, chapter 4).

ghost use Rattle.std.specs.Prelude.{◌≡◌, ◌<◌, ◌≤◌, ◌-◌, Some, length, map, take, drop, slice_get};
ghost use Rattle.std.specs.Option.{option_map};
ghost use Rattle.jni.specs.JniFunction.{access_functions, all_functions, calls_method, typed_functions};
ghost use Rattle.jni.specs.Table.{all_rows, facts, facts_of, has_name};

use crate::access::Access;
use crate::access::Access::{ArrayView, CharsCopy, CharsView, ElementsCopy};
use crate::function::JniFunction::*;
use crate::kinds::ParameterKind::*;
use crate::kinds::Prototype;
use crate::kinds::ResultKind::*;
use crate::kinds::StateEffect::*;
use base::ElementType;
use base::ElementType::{Byte, Char, Int, Short};

/// A function of the JNI, where one is there for each element type or for each access.
#[derive(Clone, Copy)]
pub enum JniFunction {
    FindClass,
    GetSuperclass,
    GetObjectClass,
    IsInstanceOf,
    IsAssignableFrom,
    AllocObject,
    NewLocalRef,
    NewGlobalRef,
    NewWeakGlobalRef,
    DeleteLocalRef,
    DeleteGlobalRef,
    DeleteWeakGlobalRef,
    IsSameObject,
    EnsureLocalCapacity,
    PushLocalFrame,
    PopLocalFrame,
    GetFieldID,
    GetStaticFieldID,
    /// `GetIntField` and its like.
    GetField(ElementType),
    /// `SetIntField` and its like.
    SetField(ElementType),
    /// `GetStaticIntField` and its like.
    GetStaticField(ElementType),
    /// `SetStaticIntField` and its like.
    SetStaticField(ElementType),
    GetObjectField,
    SetObjectField,
    GetStaticObjectField,
    SetStaticObjectField,
    GetArrayLength,
    NewObjectArray,
    GetObjectArrayElement,
    SetObjectArrayElement,
    /// `NewIntArray` and its like.
    NewArray(ElementType),
    /// `GetIntArrayRegion` and its like.
    GetArrayRegion(ElementType),
    /// `SetIntArrayRegion` and its like.
    SetArrayRegion(ElementType),
    /// `GetIntArrayElements`, `GetPrimitiveArrayCritical`, `GetStringChars` and their like.
    GetBuffer(Access),
    /// `ReleaseIntArrayElements`, `ReleasePrimitiveArrayCritical`, `ReleaseStringChars` and their like.
    ReleaseBuffer(Access),
    NewStringUTF,
    GetStringLength,
    GetStringRegion,
    Throw,
    ThrowNew,
    ExceptionOccurred,
    ExceptionCheck,
    ExceptionClear,
    FatalError,
    MonitorEnter,
    MonitorExit,
    GetStaticMethodID,
    CallStaticVoidMethod,
    CallStaticIntMethod,
    CallStaticObjectMethod,
}

const INTS: Access = ElementsCopy(Int);

const SHORTS: Access = ElementsCopy(Short);

const BYTES: Access = ElementsCopy(Byte);

const CHARS: Access = ElementsCopy(Char);

macro_rules! rows {
    ($($name:literal [$($parameter:expr),*] => $result:expr, $effect:expr, $pending:expr;)*) => {
        [$(Prototype {
            name: $name,
            parameters: &[$($parameter),*],
            result: $result,
            effect: $effect,
            pending: $pending,
        }),*]
    };
}

// The functions in the order of their numbers, in groups. A row has the name, the parameters after `env`, the result,
// what a call does to buffers, references and frames, and whether it may be called while an exception is pending.

/// Those of classes and references.
static REFERENCE_ROWS: [Prototype; 16] = rows! {
    b"FindClass"           [TextBytes]                  => NewLocal,     Other,   false;
    b"GetSuperclass"       [ClassObject]                => NewLocal,     Other,   false;
    b"GetObjectClass"      [NonNull]                    => NewLocal,     Other,   false;
    b"IsInstanceOf"        [Nullable, ClassObject]      => GivesFlag,    Other,   false;
    b"IsAssignableFrom"    [ClassObject, ClassObject]   => GivesFlag,    Other,   false;
    b"AllocObject"         [ClassObject]                => NewLocal,     Other,   false;
    b"NewLocalRef"         [AnyReference]               => NewLocal,     Other,   false;
    b"NewGlobalRef"        [AnyReference]               => NewGlobal,    Other,   false;
    b"NewWeakGlobalRef"    [Nullable]                   => NewWeak,      Other,   false;
    b"DeleteLocalRef"      [LocalVariable]              => GivesNothing, Deletes, true;
    b"DeleteGlobalRef"     [StaticVariable]             => GivesNothing, Other,   true;
    b"DeleteWeakGlobalRef" [WeakVariable]               => GivesNothing, Other,   true;
    b"IsSameObject"        [AnyReference, AnyReference] => GivesFlag,    Other,   false;
    b"EnsureLocalCapacity" [IntNumber]                  => GivesInt,     Other,   false;
    b"PushLocalFrame"      [IntNumber]                  => GivesInt,     Other,   true;
    b"PopLocalFrame"       [Nullable]                   => NewLocal,     Pops,    true;
};

/// Those of fields of references, arrays of objects, and the length of any array.
static OBJECT_ROWS: [Prototype; 10] = rows! {
    b"GetFieldID"            [ClassObject, TextBytes, TextBytes] => GivesField,   Other, false;
    b"GetStaticFieldID"      [ClassObject, TextBytes, TextBytes] => GivesField,   Other, false;
    b"GetObjectField"        [NonNull, FieldID]                  => NewLocal,     Other, false;
    b"SetObjectField"        [NonNull, FieldID, Nullable]        => GivesNothing, Other, false;
    b"GetStaticObjectField"  [ClassObject, FieldID]              => NewLocal,     Other, false;
    b"SetStaticObjectField"  [ClassObject, FieldID, Nullable]    => GivesNothing, Other, false;
    b"GetArrayLength"        [AnyArray]                          => GivesInt,     Other, false;
    b"NewObjectArray"        [IntNumber, ClassObject, Nullable]  => NewLocal,     Other, false;
    b"GetObjectArrayElement" [ObjectArray, IntNumber]            => NewLocal,     Other, false;
    b"SetObjectArrayElement" [ObjectArray, IntNumber, Nullable]  => GivesNothing, Other, false;
};

/// Those of strings, exceptions and monitors.
static STRING_ROWS: [Prototype; 11] = rows! {
    b"NewStringUTF"    [TextBytes]                                               => NewLocal,     Other, false;
    b"GetStringLength" [StringObject]                                            => GivesInt,     Other, false;
    b"GetStringRegion" [StringObject, IntNumber, IntNumber, ArrayVariable(Char)] => GivesNothing, Other, false;
    b"Throw"             [NonNull]                => GivesInt,     Other, false;
    b"ThrowNew"          [ClassObject, TextBytes] => GivesInt,     Other, false;
    b"ExceptionOccurred" []                       => NewLocal,     Other, true;
    b"ExceptionCheck"    []                       => GivesFlag,    Other, true;
    b"ExceptionClear"    []                       => GivesNothing, Other, true;
    b"FatalError"        [TextBytes]              => GivesNothing, Other, false;
    b"MonitorEnter"      [NonNull]                => GivesInt,     Other, false;
    b"MonitorExit"       [NonNull]                => GivesInt,     Other, true;
};

/// Those of elements of `jint`.
static INT_ROWS: [Prototype; 9] = rows! {
    b"GetIntField"             [NonNull, FieldID]                                           => GivesInt,          Other,          false;
    b"SetIntField"             [NonNull, FieldID, IntNumber]                                => GivesNothing,      Other,          false;
    b"GetStaticIntField"       [ClassObject, FieldID]                                       => GivesInt,          Other,          false;
    b"SetStaticIntField"       [ClassObject, FieldID, IntNumber]                            => GivesNothing,      Other,          false;
    b"NewIntArray"             [IntNumber]                                                  => NewLocal,          Other,          false;
    b"GetIntArrayRegion"       [NumberArray(Int), IntNumber, IntNumber, ArrayVariable(Int)] => GivesNothing,      Other,          false;
    b"SetIntArrayRegion"       [NumberArray(Int), IntNumber, IntNumber, ArrayVariable(Int)] => GivesNothing,      Other,          false;
    b"GetIntArrayElements"     [NumberArray(Int), IsCopy]                                   => GivesBuffer(INTS), Gets(INTS),     false;
    b"ReleaseIntArrayElements" [NumberArray(Int), BufferVariable(INTS), Mode]               => GivesNothing,      Releases(INTS), true;
};

/// Those of elements of `jshort`.
static SHORT_ROWS: [Prototype; 9] = rows! {
    b"GetShortField"             [NonNull, FieldID]                                               => GivesInt,            Other,            false;
    b"SetShortField"             [NonNull, FieldID, IntNumber]                                    => GivesNothing,        Other,            false;
    b"GetStaticShortField"       [ClassObject, FieldID]                                           => GivesInt,            Other,            false;
    b"SetStaticShortField"       [ClassObject, FieldID, IntNumber]                                => GivesNothing,        Other,            false;
    b"NewShortArray"             [IntNumber]                                                      => NewLocal,            Other,            false;
    b"GetShortArrayRegion"       [NumberArray(Short), IntNumber, IntNumber, ArrayVariable(Short)] => GivesNothing,        Other,            false;
    b"SetShortArrayRegion"       [NumberArray(Short), IntNumber, IntNumber, ArrayVariable(Short)] => GivesNothing,        Other,            false;
    b"GetShortArrayElements"     [NumberArray(Short), IsCopy]                                     => GivesBuffer(SHORTS), Gets(SHORTS),     false;
    b"ReleaseShortArrayElements" [NumberArray(Short), BufferVariable(SHORTS), Mode]               => GivesNothing,        Releases(SHORTS), true;
};

/// Those of elements of `jbyte`.
static BYTE_ROWS: [Prototype; 9] = rows! {
    b"GetByteField"             [NonNull, FieldID]                                             => GivesInt,           Other,           false;
    b"SetByteField"             [NonNull, FieldID, IntNumber]                                  => GivesNothing,       Other,           false;
    b"GetStaticByteField"       [ClassObject, FieldID]                                         => GivesInt,           Other,           false;
    b"SetStaticByteField"       [ClassObject, FieldID, IntNumber]                              => GivesNothing,       Other,           false;
    b"NewByteArray"             [IntNumber]                                                    => NewLocal,           Other,           false;
    b"GetByteArrayRegion"       [NumberArray(Byte), IntNumber, IntNumber, ArrayVariable(Byte)] => GivesNothing,       Other,           false;
    b"SetByteArrayRegion"       [NumberArray(Byte), IntNumber, IntNumber, ArrayVariable(Byte)] => GivesNothing,       Other,           false;
    b"GetByteArrayElements"     [NumberArray(Byte), IsCopy]                                    => GivesBuffer(BYTES), Gets(BYTES),     false;
    b"ReleaseByteArrayElements" [NumberArray(Byte), BufferVariable(BYTES), Mode]               => GivesNothing,       Releases(BYTES), true;
};

/// Those of elements of `jchar`.
static CHAR_ROWS: [Prototype; 9] = rows! {
    b"GetCharField"             [NonNull, FieldID]                                             => GivesInt,           Other,           false;
    b"SetCharField"             [NonNull, FieldID, IntNumber]                                  => GivesNothing,       Other,           false;
    b"GetStaticCharField"       [ClassObject, FieldID]                                         => GivesInt,           Other,           false;
    b"SetStaticCharField"       [ClassObject, FieldID, IntNumber]                              => GivesNothing,       Other,           false;
    b"NewCharArray"             [IntNumber]                                                    => NewLocal,           Other,           false;
    b"GetCharArrayRegion"       [NumberArray(Char), IntNumber, IntNumber, ArrayVariable(Char)] => GivesNothing,       Other,           false;
    b"SetCharArrayRegion"       [NumberArray(Char), IntNumber, IntNumber, ArrayVariable(Char)] => GivesNothing,       Other,           false;
    b"GetCharArrayElements"     [NumberArray(Char), IsCopy]                                    => GivesBuffer(CHARS), Gets(CHARS),     false;
    b"ReleaseCharArrayElements" [NumberArray(Char), BufferVariable(CHARS), Mode]               => GivesNothing,       Releases(CHARS), true;
};

/// Those of views of arrays and strings, and copies of strings.
static VIEW_ROWS: [Prototype; 6] = rows! {
    b"GetPrimitiveArrayCritical"     [NonNull, IsCopy]                          => GivesBuffer(ArrayView), Gets(ArrayView),     false;
    b"ReleasePrimitiveArrayCritical" [NonNull, BufferVariable(ArrayView), Mode] => GivesNothing,           Releases(ArrayView), true;
    b"GetStringChars"                [StringObject, IsCopy]                     => GivesBuffer(CharsCopy), Gets(CharsCopy),     false;
    b"ReleaseStringChars"            [StringObject, BufferVariable(CharsCopy)]  => GivesNothing,           Releases(CharsCopy), true;
    b"GetStringCritical"             [StringObject, IsCopy]                     => GivesBuffer(CharsView), Gets(CharsView),     false;
    b"ReleaseStringCritical"         [StringObject, BufferVariable(CharsView)]  => GivesNothing,           Releases(CharsView), true;
};

/// Those of methods.
static METHOD_ROWS: [Prototype; 4] = rows! {
    b"GetStaticMethodID"      [ClassObject, TextBytes, TextBytes] => GivesMethod,  Other, false;
    b"CallStaticVoidMethod"   [ClassObject, MethodID]             => GivesNothing, Other, false;
    b"CallStaticIntMethod"    [ClassObject, MethodID]             => GivesInt,     Other, false;
    b"CallStaticObjectMethod" [ClassObject, MethodID]             => NewLocal,     Other, false;
};

/// The number of the first function of an element type in the table, each of which has nine.
fn typed_number(element: ElementType) -> usize
    ensures { take 9 (drop result all_functions) ≡ typed_functions element }
{
    match element {
        ElementType::Int => 37,
        ElementType::Short => 46,
        ElementType::Byte => 55,
        ElementType::Char => 64,
    }
}

/// The number of the function of an access that gets a buffer, after which comes the one that releases it.
fn buffer_number(access: Access) -> usize
    ensures { take 2 (drop result all_functions) ≡ access_functions access }
{
    match access {
        Access::ElementsCopy(element) => typed_number(element) + 7,
        Access::ArrayView => 73,
        Access::CharsCopy => 75,
        Access::CharsView => 77,
    }
}

/// The row of a number among those that begin with a number.
fn row_at(rows: &'static [Prototype], first: usize, number: usize) -> &'static Prototype
    requires begun { first ≤ number }
    requires inside { number - first < length rows.now }
    ensures { slice_get (map facts rows.now) (number - first) ≡ Some (facts result.now) }
{
    &rows[number - first]
}

/// The row of a number of classes and references.
fn reference_row(number: usize) -> &'static Prototype
    requires { number < 16 }
    ensures { slice_get all_rows number ≡ Some (facts result.now) }
{
    row_at(&REFERENCE_ROWS, 0, number)
}

/// The row of a number of fields of references, arrays of objects, and the length of any array.
fn object_row(number: usize) -> &'static Prototype
    requires begun { 16 ≤ number }
    requires inside { number < 26 }
    ensures { slice_get all_rows number ≡ Some (facts result.now) }
{
    row_at(&OBJECT_ROWS, 16, number)
}

/// The row of a number of strings, exceptions and monitors.
fn string_row(number: usize) -> &'static Prototype
    requires begun { 26 ≤ number }
    requires inside { number < 37 }
    ensures { slice_get all_rows number ≡ Some (facts result.now) }
{
    row_at(&STRING_ROWS, 26, number)
}

/// The row of a number of elements of `jint`.
fn int_row(number: usize) -> &'static Prototype
    requires begun { 37 ≤ number }
    requires inside { number < 46 }
    ensures { slice_get all_rows number ≡ Some (facts result.now) }
{
    row_at(&INT_ROWS, 37, number)
}

/// The row of a number of elements of `jshort`.
fn short_row(number: usize) -> &'static Prototype
    requires begun { 46 ≤ number }
    requires inside { number < 55 }
    ensures { slice_get all_rows number ≡ Some (facts result.now) }
{
    row_at(&SHORT_ROWS, 46, number)
}

/// The row of a number of elements of `jbyte`.
fn byte_row(number: usize) -> &'static Prototype
    requires begun { 55 ≤ number }
    requires inside { number < 64 }
    ensures { slice_get all_rows number ≡ Some (facts result.now) }
{
    row_at(&BYTE_ROWS, 55, number)
}

/// The row of a number of elements of `jchar`.
fn char_row(number: usize) -> &'static Prototype
    requires begun { 64 ≤ number }
    requires inside { number < 73 }
    ensures { slice_get all_rows number ≡ Some (facts result.now) }
{
    row_at(&CHAR_ROWS, 64, number)
}

/// The row of a number of views of arrays and strings, and copies of strings.
fn view_row(number: usize) -> &'static Prototype
    requires begun { 73 ≤ number }
    requires inside { number < 79 }
    ensures { slice_get all_rows number ≡ Some (facts result.now) }
{
    row_at(&VIEW_ROWS, 73, number)
}

/// The row of a number of methods.
fn method_row(number: usize) -> &'static Prototype
    requires begun { 79 ≤ number }
    requires inside { number < 83 }
    ensures { slice_get all_rows number ≡ Some (facts result.now) }
{
    row_at(&METHOD_ROWS, 79, number)
}

/// How many functions there are.
pub const FUNCTIONS: usize = 83;

/// The row of a number, in the order of the table.
pub fn prototype_at(number: usize) -> &'static Prototype
    requires { number < 83 }
    ensures { slice_get all_rows number ≡ Some (facts result.now) }
{
    match number {
        ..16 => reference_row(number),
        16..26 => object_row(number),
        26..37 => string_row(number),
        37..46 => int_row(number),
        46..55 => short_row(number),
        55..64 => byte_row(number),
        64..73 => char_row(number),
        73..79 => view_row(number),
        _ => method_row(number),
    }
}

impl JniFunction {
    /// The function's place in the table.
    fn number(self) -> usize
        ensures { slice_get all_functions result ≡ Some self }
    {
        match self {
            JniFunction::FindClass => 0,
            JniFunction::GetSuperclass => 1,
            JniFunction::GetObjectClass => 2,
            JniFunction::IsInstanceOf => 3,
            JniFunction::IsAssignableFrom => 4,
            JniFunction::AllocObject => 5,
            JniFunction::NewLocalRef => 6,
            JniFunction::NewGlobalRef => 7,
            JniFunction::NewWeakGlobalRef => 8,
            JniFunction::DeleteLocalRef => 9,
            JniFunction::DeleteGlobalRef => 10,
            JniFunction::DeleteWeakGlobalRef => 11,
            JniFunction::IsSameObject => 12,
            JniFunction::EnsureLocalCapacity => 13,
            JniFunction::PushLocalFrame => 14,
            JniFunction::PopLocalFrame => 15,
            JniFunction::GetFieldID => 16,
            JniFunction::GetStaticFieldID => 17,
            JniFunction::GetObjectField => 18,
            JniFunction::SetObjectField => 19,
            JniFunction::GetStaticObjectField => 20,
            JniFunction::SetStaticObjectField => 21,
            JniFunction::GetArrayLength => 22,
            JniFunction::NewObjectArray => 23,
            JniFunction::GetObjectArrayElement => 24,
            JniFunction::SetObjectArrayElement => 25,
            JniFunction::NewStringUTF => 26,
            JniFunction::GetStringLength => 27,
            JniFunction::GetStringRegion => 28,
            JniFunction::Throw => 29,
            JniFunction::ThrowNew => 30,
            JniFunction::ExceptionOccurred => 31,
            JniFunction::ExceptionCheck => 32,
            JniFunction::ExceptionClear => 33,
            JniFunction::FatalError => 34,
            JniFunction::MonitorEnter => 35,
            JniFunction::MonitorExit => 36,
            JniFunction::GetField(element) => typed_number(element),
            JniFunction::SetField(element) => typed_number(element) + 1,
            JniFunction::GetStaticField(element) => typed_number(element) + 2,
            JniFunction::SetStaticField(element) => typed_number(element) + 3,
            JniFunction::NewArray(element) => typed_number(element) + 4,
            JniFunction::GetArrayRegion(element) => typed_number(element) + 5,
            JniFunction::SetArrayRegion(element) => typed_number(element) + 6,
            JniFunction::GetBuffer(access) => buffer_number(access),
            JniFunction::ReleaseBuffer(access) => buffer_number(access) + 1,
            JniFunction::GetStaticMethodID => 79,
            JniFunction::CallStaticVoidMethod => 80,
            JniFunction::CallStaticIntMethod => 81,
            JniFunction::CallStaticObjectMethod => 82,
        }
    }

    /// What the table says of the function.
    pub fn prototype(self) -> &'static Prototype
        ensures { facts result.now ≡ facts_of self }
    {
        prototype_at(self.number())
    }

    /// Whether the function calls a method, which is given the arguments after the class and the method ID (JNI
    /// Specification, chapter 4, Calling Static Methods).
    pub fn calls_method(self) -> bool
        ensures { result ≡ calls_method self }
    {
        matches!(
            self,
            JniFunction::CallStaticVoidMethod
                | JniFunction::CallStaticIntMethod
                | JniFunction::CallStaticObjectMethod
        )
    }

    /// Whether this is the function's name.
    pub(crate) fn is_named(self, name: &[u8]) -> bool
        ensures { result ≡ has_name name.now self }
    {
        self.prototype().name == name
    }
}
