//! Which function has a name. The length, the first byte and the last byte of a name leave two functions at most.

ghost use Rattle.std.specs.Prelude.{◌≡◌, ◌<◌, [], IsTrue, Some, find, get_or, length, map, not};
ghost use Rattle.std.specs.Option.{is_none};
ghost use Rattle.jni.specs.JniFunction.{function_named};
ghost use Rattle.jni.specs.Table.{bucket, has_name, listed};

use crate::access::Access;
use crate::access::Access::{ArrayView, CharsCopy, CharsView, ElementsCopy};
use crate::function::JniFunction;
use crate::function::JniFunction::*;
use base::ElementType::{Byte, Char, Int, Short};

const INTS: Access = ElementsCopy(Int);

const SHORTS: Access = ElementsCopy(Short);

const BYTES: Access = ElementsCopy(Byte);

const CHARS: Access = ElementsCopy(Char);

/// How many buckets there are.
const BUCKETS: usize = 128;

/// The functions by the buckets of their names.
static BY_BUCKET: [&[JniFunction]; BUCKETS] = [
    &[GetObjectField],
    &[],
    &[ExceptionCheck],
    &[GetStaticField(Int)],
    &[GetStaticField(Byte), GetStaticField(Char)],
    &[GetStaticField(Short)],
    &[GetStaticObjectField],
    &[],
    &[GetArrayLength],
    &[GetStringLength],
    &[],
    &[],
    &[],
    &[],
    &[IsInstanceOf],
    &[],
    &[ExceptionClear],
    &[],
    &[FatalError],
    &[FindClass, GetBuffer(CharsView)],
    &[],
    &[GetStringRegion],
    &[],
    &[GetArrayRegion(Int)],
    &[GetArrayRegion(Byte), GetArrayRegion(Char)],
    &[GetArrayRegion(Short)],
    &[],
    &[GetBuffer(ArrayView)],
    &[],
    &[GetSuperclass],
    &[GetObjectClass, GetBuffer(CharsCopy)],
    &[],
    &[IsAssignableFrom],
    &[],
    &[],
    &[EnsureLocalCapacity, GetBuffer(INTS)],
    &[GetBuffer(BYTES), GetBuffer(CHARS)],
    &[GetBuffer(SHORTS)],
    &[],
    &[GetObjectArrayElement],
    &[],
    &[],
    &[IsSameObject],
    &[NewLocalRef],
    &[NewGlobalRef],
    &[],
    &[],
    &[],
    &[NewWeakGlobalRef],
    &[],
    &[],
    &[],
    &[],
    &[],
    &[],
    &[PopLocalFrame],
    &[PushLocalFrame],
    &[],
    &[],
    &[],
    &[GetFieldID],
    &[],
    &[MonitorEnter],
    &[],
    &[],
    &[MonitorExit],
    &[GetStaticFieldID],
    &[GetStaticMethodID],
    &[],
    &[SetField(Int)],
    &[SetField(Byte), SetField(Char)],
    &[SetField(Short)],
    &[SetObjectField],
    &[],
    &[],
    &[SetStaticField(Int)],
    &[SetStaticField(Byte), SetStaticField(Char)],
    &[SetStaticField(Short)],
    &[SetStaticObjectField],
    &[],
    &[],
    &[NewArray(Int)],
    &[NewArray(Byte), NewArray(Char)],
    &[NewArray(Short)],
    &[NewObjectArray],
    &[],
    &[],
    &[],
    &[],
    &[ReleaseBuffer(CharsView)],
    &[],
    &[],
    &[],
    &[],
    &[],
    &[SetArrayRegion(Int)],
    &[SetArrayRegion(Byte), SetArrayRegion(Char)],
    &[SetArrayRegion(Short), ReleaseBuffer(ArrayView)],
    &[],
    &[],
    &[ReleaseBuffer(CharsCopy)],
    &[],
    &[],
    &[],
    &[],
    &[ReleaseBuffer(INTS)],
    &[ReleaseBuffer(BYTES), ReleaseBuffer(CHARS)],
    &[Throw, ReleaseBuffer(SHORTS)],
    &[NewStringUTF],
    &[CallStaticIntMethod],
    &[ThrowNew, CallStaticVoidMethod],
    &[SetObjectArrayElement],
    &[CallStaticObjectMethod],
    &[],
    &[DeleteLocalRef],
    &[DeleteGlobalRef],
    &[],
    &[],
    &[],
    &[DeleteWeakGlobalRef, ExceptionOccurred],
    &[],
    &[AllocObject],
    &[],
    &[],
    &[],
    &[GetField(Int)],
    &[GetField(Byte), GetField(Char)],
    &[GetField(Short)],
];

/// The bucket of a name.
#[inline(always)]
fn bucket(name: &[u8]) -> usize
    ensures inside { result < 128 }
    ensures number { result ≡ bucket name.now }
{
    if name.is_empty() {
        return 0;
    }
    let first = usize::from(name[0]);
    let last = usize::from(name[name.len() - 1]);
    (name.len() % BUCKETS + 6 * first + 2 * last) % BUCKETS
}

/// The functions of a bucket.
#[inline(always)]
fn functions_at(table: &'static [&'static [JniFunction]], place: usize) -> &'static [JniFunction]
    requires { place < length table.now }
    ensures { result.now ≡ get_or (map listed table.now) place [] }
{
    table[place]
}

/// The first of the functions that has a name.
fn first_named(functions: &[JniFunction], name: &[u8]) -> Option<JniFunction>
    ensures { result ≡ find (has_name name.now) functions.now }
{
    match functions {
        [] => None,
        [function, rest @ ..] => {
            if function.is_named(name) {
                Some(*function)
            } else {
                first_named(rest, name)
            }
        }
    }
}

/// The first of the functions that has a name, where one has it: the last is it where no other is.
fn first_known(functions: &[JniFunction], name: &[u8]) -> JniFunction
    requires { IsTrue (not (is_none (find (has_name name.now) functions.now))) }
    ensures { find (has_name name.now) functions.now ≡ Some result }
{
    let [function, rest @ ..] = functions else {
        unreachable!()
    };
    if rest.is_empty() || function.is_named(name) {
        *function
    } else {
        first_known(rest, name)
    }
}

/// The function of a name.
pub fn function_named(name: &[u8]) -> Option<JniFunction>
    ensures { result ≡ function_named name.now }
{
    first_named(functions_at(&BY_BUCKET, bucket(name)), name)
}

/// The function of a name that is known to be one's: where its bucket has one function, the name isn't compared.
pub fn known_function(name: &[u8]) -> JniFunction
    requires { IsTrue (not (is_none (function_named name.now))) }
    ensures { function_named name.now ≡ Some result }
{
    first_known(functions_at(&BY_BUCKET, bucket(name)), name)
}
