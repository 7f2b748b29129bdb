//! Reserved words.

ghost use Rattle.std.specs.Prelude.{◌≡◌, ◌<◌, ◌≤◌, ◌%◌, [], length, map, get_or};
ghost use Rattle.base.specs.Bytes.{lookup};
ghost use Rattle.scan.specs.Words.{word_of};
ghost use Rattle.scan.specs.WordTable.{row_value, rows_value};

/// A reserved word.
#[derive(Clone, Copy, PartialEq, Eq)]
pub enum Word {
    /// `static`
    Static,
    /// `const`
    Const,
    /// `void`
    Void,
    /// `if`
    If,
    /// `else`
    Else,
    /// `while`
    While,
    /// `return`
    Return,
    /// `JNIEXPORT`
    JniExport,
    /// `JNICALL`
    JniCall,
    /// `JNIEnv`
    JniEnv,
    /// `env`
    Env,
    /// `put_jint`
    PutJint,
    /// `uint32_t`
    Uint32,
    /// `jint`
    Jint,
    /// `jsize`
    Jsize,
    /// `jboolean`
    Jboolean,
    /// `jshort`
    Jshort,
    /// `jbyte`
    Jbyte,
    /// `jchar`
    Jchar,
    /// `jfieldID`
    JfieldId,
    /// `jmethodID`
    JmethodId,
    /// `jobject`
    Jobject,
    /// `jclass`
    Jclass,
    /// `jstring`
    Jstring,
    /// `jarray`
    Jarray,
    /// `jthrowable`
    Jthrowable,
    /// `jintArray`
    JintArray,
    /// `jshortArray`
    JshortArray,
    /// `jbyteArray`
    JbyteArray,
    /// `jcharArray`
    JcharArray,
    /// `jobjectArray`
    JobjectArray,
    /// `jweak`
    Jweak,
    /// `JNI_TRUE`
    JniTrue,
    /// `JNI_FALSE`
    JniFalse,
    /// `JNI_COMMIT`
    JniCommit,
    /// `JNI_ABORT`
    JniAbort,
    /// `NULL`
    Null,
    /// A keyword of C99 that has no use.
    Unused,
}

/// A word's bytes, and the word.
type Row = (&'static [u8], Word);

// The reserved words by their first letter, small or capital: `a` is 1, `j` is 10, and `_` is 31.

/// Those before `j`.
static EARLY_WORDS: [&[Row]; 10] = [
    &[],
    &[(b"auto", Word::Unused)],
    &[(b"break", Word::Unused)],
    &[
        (b"const", Word::Const),
        (b"char", Word::Unused),
        (b"case", Word::Unused),
        (b"continue", Word::Unused),
    ],
    &[
        (b"double", Word::Unused),
        (b"default", Word::Unused),
        (b"do", Word::Unused),
    ],
    &[
        (b"else", Word::Else),
        (b"env", Word::Env),
        (b"enum", Word::Unused),
        (b"extern", Word::Unused),
    ],
    &[(b"float", Word::Unused), (b"for", Word::Unused)],
    &[(b"goto", Word::Unused)],
    &[],
    &[
        (b"if", Word::If),
        (b"int", Word::Unused),
        (b"inline", Word::Unused),
    ],
];

/// Those of `j`.
static J_WORDS: [Row; 26] = [
    (b"JNIEXPORT", Word::JniExport),
    (b"JNICALL", Word::JniCall),
    (b"JNIEnv", Word::JniEnv),
    (b"jint", Word::Jint),
    (b"jsize", Word::Jsize),
    (b"jboolean", Word::Jboolean),
    (b"jshort", Word::Jshort),
    (b"jbyte", Word::Jbyte),
    (b"jchar", Word::Jchar),
    (b"jfieldID", Word::JfieldId),
    (b"jmethodID", Word::JmethodId),
    (b"jobject", Word::Jobject),
    (b"jclass", Word::Jclass),
    (b"jstring", Word::Jstring),
    (b"jarray", Word::Jarray),
    (b"jthrowable", Word::Jthrowable),
    (b"jintArray", Word::JintArray),
    (b"jshortArray", Word::JshortArray),
    (b"jbyteArray", Word::JbyteArray),
    (b"jcharArray", Word::JcharArray),
    (b"jobjectArray", Word::JobjectArray),
    (b"jweak", Word::Jweak),
    (b"JNI_TRUE", Word::JniTrue),
    (b"JNI_FALSE", Word::JniFalse),
    (b"JNI_COMMIT", Word::JniCommit),
    (b"JNI_ABORT", Word::JniAbort),
];

/// Those after `j`.
static LATE_WORDS: [&[Row]; 21] = [
    &[],
    &[(b"long", Word::Unused)],
    &[],
    &[(b"NULL", Word::Null)],
    &[],
    &[(b"put_jint", Word::PutJint)],
    &[],
    &[
        (b"return", Word::Return),
        (b"register", Word::Unused),
        (b"restrict", Word::Unused),
    ],
    &[
        (b"static", Word::Static),
        (b"short", Word::Unused),
        (b"signed", Word::Unused),
        (b"struct", Word::Unused),
        (b"sizeof", Word::Unused),
        (b"switch", Word::Unused),
    ],
    &[(b"typedef", Word::Unused)],
    &[
        (b"uint32_t", Word::Uint32),
        (b"union", Word::Unused),
        (b"unsigned", Word::Unused),
    ],
    &[(b"void", Word::Void), (b"volatile", Word::Unused)],
    &[(b"while", Word::While)],
    &[],
    &[],
    &[],
    &[],
    &[],
    &[],
    &[],
    &[
        (b"_Bool", Word::Unused),
        (b"_Complex", Word::Unused),
        (b"_Imaginary", Word::Unused),
    ],
];

/// The word of these bytes in the rows.
fn listed_in(mut rows: &[Row], bytes: &[u8]) -> Option<Word>
    ensures { result ≡ lookup bytes.now (map row_value rows.entry.now) }
{
    while let [(of, word), rest @ ..] = rows {
        if bytes == *of {
            return Some(*word);
        }
        rows = rest;
    }
    None
}

/// The word of these bytes in the rows at a letter.
fn listed_at(table: &[&[Row]], letter: usize, bytes: &[u8]) -> Option<Word>
    requires { letter < length table.now }
    ensures { result ≡ lookup bytes.now (get_or (map rows_value table.now) letter []) }
{
    listed_in(table[letter], bytes)
}

/// The reserved word of these bytes, which begin with a letter before `j`.
#[inline]
fn early_word(letter: usize, bytes: &[u8]) -> Option<Word>
    requires early { letter < 10 }
    requires some { 1 ≤ length bytes.now }
    requires first { letter ≡ get_or bytes.now 0 0 % 32 }
    ensures { result ≡ word_of bytes.now }
{
    listed_at(&EARLY_WORDS, letter, bytes)
}

/// The reserved word of these bytes, which begin with `j`.
#[inline]
fn j_word(bytes: &[u8]) -> Option<Word>
    requires some { 1 ≤ length bytes.now }
    requires first { get_or bytes.now 0 0 % 32 ≡ 10 }
    ensures { result ≡ word_of bytes.now }
{
    listed_in(&J_WORDS, bytes)
}

/// The reserved word of these bytes, which begin with a letter after `j`, or with `_`.
#[inline]
fn late_word(letter: usize, bytes: &[u8]) -> Option<Word>
    requires late { 11 ≤ letter }
    requires some { 1 ≤ length bytes.now }
    requires first { letter ≡ get_or bytes.now 0 0 % 32 }
    ensures { result ≡ word_of bytes.now }
{
    listed_at(&LATE_WORDS, letter - 11, bytes)
}

/// The reserved word of these bytes, if they are one.
#[inline(never)]
pub(crate) fn word_of(bytes: &[u8]) -> Option<Word>
    ensures { result ≡ word_of bytes.now }
{
    let [first, ..] = bytes else {
        return None;
    };
    match (*first % 32) as usize {
        10 => j_word(bytes),
        letter if letter < 10 => early_word(letter, bytes),
        letter => late_word(letter, bytes),
    }
}
