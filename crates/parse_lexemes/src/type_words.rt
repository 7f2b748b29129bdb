//! The words of types.

ghost use Rattle.std.specs.Prelude.{◌≡◌};
ghost use Rattle.std.specs.Option.{option_map};
ghost use Rattle.parse_lexemes.specs.Lexemes.{views};
ghost use Rattle.parse_lexemes.specs.Reading.{reference_of_word, static_of_word, result_of_word, element_of_word, parameter_of_word, variable_of_word, static_type_at, result_type_at, element_type_at, parameter_type_at, variable_type_at};

use crate::cursor::Cursor;
use scan::Word;
use syntax::{ElementType, ParameterType, ReferenceType, ResultType, StaticType, VariableType};

/// The reference type of a word (JNI Specification, chapter 3, "Reference Types").
fn reference_of(word: Word) -> Option<ReferenceType>
    ensures { result ≡ reference_of_word word }
{
    match word {
        Word::Jobject => Some(ReferenceType::Object),
        Word::Jclass => Some(ReferenceType::Class),
        Word::Jstring => Some(ReferenceType::String),
        Word::Jarray => Some(ReferenceType::Array),
        Word::Jthrowable => Some(ReferenceType::Throwable),
        Word::JintArray => Some(ReferenceType::IntArray),
        Word::JshortArray => Some(ReferenceType::ShortArray),
        Word::JbyteArray => Some(ReferenceType::ByteArray),
        Word::JcharArray => Some(ReferenceType::CharArray),
        Word::JobjectArray => Some(ReferenceType::ObjectArray),
        _ => None,
    }
}

/// The static's type of a word.
fn static_of(word: Word) -> Option<StaticType>
    ensures { result ≡ static_of_word word }
{
    match word {
        Word::Jweak => Some(StaticType::Weak),
        _ => Some(StaticType::Reference(reference_of(word)?)),
    }
}

/// The result's type of a word.
fn result_of(word: Word) -> Option<ResultType>
    ensures { result ≡ result_of_word word }
{
    match word {
        Word::Void => Some(ResultType::Void),
        Word::Jint => Some(ResultType::Jint),
        _ => Some(ResultType::Reference(reference_of(word)?)),
    }
}

/// The element's type of a word.
fn element_of(word: Word) -> Option<ElementType>
    ensures { result ≡ element_of_word word }
{
    match word {
        Word::Jint => Some(ElementType::Int),
        Word::Jshort => Some(ElementType::Short),
        Word::Jbyte => Some(ElementType::Byte),
        Word::Jchar => Some(ElementType::Char),
        _ => None,
    }
}

/// The parameter's type of a word.
fn parameter_of(word: Word) -> Option<ParameterType>
    ensures { result ≡ parameter_of_word word }
{
    if word == Word::Jint {
        return Some(ParameterType::Jint);
    }
    Some(ParameterType::Reference(reference_of(word)?))
}

/// The variable's type of a word, but for `jint`, which is an element's type too.
fn variable_of(word: Word) -> Option<VariableType>
    ensures { result ≡ variable_of_word word }
{
    match word {
        Word::Uint32 => Some(VariableType::Uint32),
        Word::Jsize => Some(VariableType::Jsize),
        Word::Jboolean => Some(VariableType::Jboolean),
        Word::JfieldId => Some(VariableType::JfieldId),
        Word::JmethodId => Some(VariableType::JmethodId),
        _ => Some(VariableType::Reference(reference_of(word)?)),
    }
}

impl Cursor<'_> {
    /// The type of a static, where one comes next.
    pub fn static_type(self) -> Option<StaticType>
        ensures { result ≡ static_type_at (views self.entry) }
    {
        static_of(self.word()?)
    }

    /// The type of a result, where one comes next.
    pub fn result_type(self) -> Option<ResultType>
        ensures { result ≡ result_type_at (views self.entry) }
    {
        result_of(self.word()?)
    }

    /// The type of an element, where one comes next.
    pub fn element_type(self) -> Option<ElementType>
        ensures { result ≡ element_type_at (views self.entry) }
    {
        element_of(self.word()?)
    }

    /// The type of a parameter, where one comes next.
    pub fn parameter_type(self) -> Option<ParameterType>
        ensures { result ≡ parameter_type_at (views self.entry) }
    {
        parameter_of(self.word()?)
    }

    /// The type of a variable, where one comes next.
    pub fn variable_type(self) -> Option<VariableType>
        ensures { result ≡ variable_type_at (views self.entry) }
    {
        variable_of(self.word()?)
    }
}
