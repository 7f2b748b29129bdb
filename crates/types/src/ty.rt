//! Tests of types.

ghost use Rattle.std.specs.Prelude.{◌≡◌};
ghost use Rattle.std.specs.Option.{option_map};
ghost use Rattle.type_rules.specs.ExprTypes.{is_word, is_jint, is_flag, is_truth, is_ref, is_global, is_weak, is_field, is_method, is_index, is_castable, has_elements, is_nullable, is_array_of, is_buffer_for, is_read_only};

use jni::{Access, is_same_element};
use syntax::ElementType;
use type_rules::ExprType;

pub(crate) fn is_word(ty: Option<ExprType>) -> bool
    ensures { result ≡ is_word ty }
{
    matches!(ty, Some(ExprType::Word))
}

pub(crate) fn is_jint(ty: Option<ExprType>) -> bool
    ensures { result ≡ is_jint ty }
{
    matches!(ty, Some(ExprType::Jint))
}

pub(crate) fn is_flag(ty: Option<ExprType>) -> bool
    ensures { result ≡ is_flag ty }
{
    matches!(ty, Some(ExprType::Flag))
}

pub(crate) fn is_truth(ty: Option<ExprType>) -> bool
    ensures { result ≡ is_truth ty }
{
    matches!(ty, Some(ExprType::Truth))
}

pub(crate) fn is_ref(ty: Option<ExprType>) -> bool
    ensures { result ≡ is_ref ty }
{
    matches!(ty, Some(ExprType::Ref))
}

pub(crate) fn is_global(ty: Option<ExprType>) -> bool
    ensures { result ≡ is_global ty }
{
    matches!(ty, Some(ExprType::Global))
}

pub(crate) fn is_weak(ty: Option<ExprType>) -> bool
    ensures { result ≡ is_weak ty }
{
    matches!(ty, Some(ExprType::Weak))
}

pub(crate) fn is_field(ty: Option<ExprType>) -> bool
    ensures { result ≡ is_field ty }
{
    matches!(ty, Some(ExprType::FieldId))
}

pub(crate) fn is_method(ty: Option<ExprType>) -> bool
    ensures { result ≡ is_method ty }
{
    matches!(ty, Some(ExprType::MethodId))
}

/// What an index may be.
pub(crate) fn is_index(ty: Option<ExprType>) -> bool
    ensures { result ≡ is_index ty }
{
    matches!(ty, Some(ExprType::Word | ExprType::Jint))
}

/// What a cast takes.
pub(crate) fn is_castable(ty: Option<ExprType>) -> bool
    ensures { result ≡ is_castable ty }
{
    matches!(ty, Some(ExprType::Word | ExprType::Jint | ExprType::Flag))
}

/// A buffer or a local array.
pub(crate) fn has_elements(ty: Option<ExprType>) -> bool
    ensures { result ≡ has_elements ty }
{
    matches!(ty, Some(ExprType::Buffer(..) | ExprType::Array(..)))
}

/// What may be compared with NULL.
pub(crate) fn is_nullable(ty: Option<ExprType>) -> bool
    ensures { result ≡ is_nullable ty }
{
    matches!(
        ty,
        Some(
            ExprType::Ref
                | ExprType::Global
                | ExprType::FieldId
                | ExprType::MethodId
                | ExprType::Buffer(..)
        )
    )
}

/// A buffer that may not be written.
pub(crate) fn is_read_only(ty: Option<ExprType>) -> bool
    ensures { result ≡ is_read_only ty }
{
    matches!(ty, Some(ExprType::Buffer(_, false)))
}

/// A local array of this type.
pub(crate) fn is_array_of(element: ElementType, ty: Option<ExprType>) -> bool
    ensures { result ≡ is_array_of element ty }
{
    match ty {
        Some(ExprType::Array(other, _)) => is_same_element(element, other),
        _ => false,
    }
}

/// A buffer that this access may fill.
pub(crate) fn is_buffer_for(access: Access, ty: Option<ExprType>) -> bool
    ensures { result ≡ is_buffer_for access ty }
{
    match ty {
        Some(ExprType::Buffer(element, true)) => match access {
            Access::ElementsCopy(other) => is_same_element(other, element),
            Access::ArrayView => true,
            Access::CharsCopy => false,
            Access::CharsView => false,
        },
        Some(ExprType::Buffer(element, false)) => match access {
            Access::ElementsCopy(_) => false,
            Access::ArrayView => false,
            Access::CharsCopy => is_same_element(ElementType::Char, element),
            Access::CharsView => is_same_element(ElementType::Char, element),
        },
        _ => false,
    }
}
