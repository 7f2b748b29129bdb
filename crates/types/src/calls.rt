//! What fits in a call.

ghost use Rattle.std.specs.Prelude.{◌≡◌, ◌||◌, Some, map, length};
ghost use Rattle.std.specs.List.{list_all};
ghost use Rattle.std.specs.Option.{option_map};
ghost use Rattle.syntax.specs.Parts.{call_expressions};
ghost use Rattle.syntax.specs.Shapes.{ref_tree};
ghost use Rattle.syntax.specs.Views.{argument_tree, call_tree};
ghost use Rattle.base.specs.Options.{some_passes};
ghost use Rattle.type_rules.specs.ExprTypes.{is_unknown, is_null, is_reference, is_any_reference, name_type, value_fits, address_fits, text_fits, argument_fits, arguments_fit, call_arguments_fit};
ghost use Rattle.type_rules.specs.TypeRules.{is_formed, is_mode, modes_fit, has_wrong_count, has_wrong_mode, result_fits, is_droppable, is_push, call_fits, may_be_dropped, may_be_tested};
ghost use Rattle.jni.specs.JniFunction.{takes_count};
ghost use Rattle.jni.specs.declared.kinds.ParameterKind.TheVariants.{Passed};
ghost use Rattle.types.specs.Called.{with_passed};
ghost use Rattle.type_rules.specs.Uses.{argument_uses, call_uses};

use crate::expressions::{has_unknown, is_formed, is_null, name_type, type_of};
use crate::scope::{is_unknown, type_in};
use crate::ty::{
    is_array_of, is_buffer_for, is_field, is_flag, is_global, is_jint, is_method, is_ref, is_weak,
};
use base::limits::MOST_FURTHER;
use jni::{JniFunction, ParameterKind, ResultKind};
use syntax::{Argument, Call, Constant, ExprRef, Name, Shape};
use type_rules::{ExprType, Known};

/// Whether an expression is NULL or the bare name of a reference.
fn is_reference(known: &Known<'_, ExprType>, e: ExprRef<'_>) -> bool
    ensures { result ≡ (is_null (ref_tree e.entry) || is_reference (name_type known.now (ref_tree e.entry))) }
{
    is_null(e) || is_ref(name_type(known, e)) || is_global(name_type(known, e))
}

/// Whether an expression is NULL or the bare name of a reference, which may be weak.
fn is_any_reference(known: &Known<'_, ExprType>, e: ExprRef<'_>) -> bool
    ensures { result ≡ (is_null (ref_tree e.entry) || is_any_reference (name_type known.now (ref_tree e.entry))) }
{
    is_reference(known, e) || is_weak(name_type(known, e))
}

/// Whether an expression fits a parameter; a mode is judged by a rule of its own.
fn value_fits(known: &Known<'_, ExprType>, kind: ParameterKind, e: ExprRef<'_>) -> bool
    ensures { result ≡ value_fits known.now kind (ref_tree e.entry) }
{
    match kind {
        ParameterKind::IntNumber => is_jint(type_of(known, e)),
        ParameterKind::TextBytes => false,
        ParameterKind::IsCopy => is_null(e),
        ParameterKind::Mode => true,
        ParameterKind::LocalVariable => is_ref(name_type(known, e)),
        ParameterKind::StaticVariable => is_global(name_type(known, e)),
        ParameterKind::WeakVariable => is_weak(name_type(known, e)),
        ParameterKind::AnyReference => is_any_reference(known, e),
        ParameterKind::FieldID => is_null(e) || is_field(name_type(known, e)),
        ParameterKind::MethodID => is_null(e) || is_method(name_type(known, e)),
        ParameterKind::Passed => is_jint(type_of(known, e)) || is_reference(known, e),
        ParameterKind::ArrayVariable(element) => is_array_of(element, name_type(known, e)),
        ParameterKind::BufferVariable(access) => is_buffer_for(access, name_type(known, e)),
        _ => is_reference(known, e),
    }
}

/// Whether a string may stand for a parameter.
fn text_fits(kind: ParameterKind) -> bool
    ensures { result ≡ text_fits kind }
{
    matches!(kind, ParameterKind::TextBytes | ParameterKind::Mode)
}

/// Whether the address of a variable may stand for a parameter.
fn address_fits(known: &Known<'_, ExprType>, kind: ParameterKind, name: &Name) -> bool
    ensures { result ≡ address_fits known.now kind name.now }
{
    match kind {
        ParameterKind::IsCopy => is_flag(type_in(known, name)),
        ParameterKind::Mode => true,
        _ => false,
    }
}

/// Whether an argument fits its parameter.
pub(crate) fn argument_fits(
    known: &Known<'_, ExprType>,
    kind: ParameterKind,
    argument: &Argument,
) -> bool
    ensures { result ≡ argument_fits known.now kind (argument_tree argument.now) }
{
    match argument {
        Argument::Value(e) => value_fits(known, kind, e.whole()),
        Argument::Text(_) => text_fits(kind),
        Argument::AddressOf(x) => address_fits(known, kind, x),
    }
}

/// Whether each of these arguments may be passed to a method.
fn all_pass(known: &Known<'_, ExprType>, arguments: &[Argument]) -> bool
    ensures { result ≡ list_all (argument_fits known.now Passed) (map argument_tree arguments.now) }
{
    for argument in arguments {
        if !argument_fits(known, ParameterKind::Passed, argument) {
            return false;
        }
    }
    true
}

/// Whether the arguments fit the parameters, as far as there are both. Those behind the parameters may be passed to a
/// method, where the function calls one.
#[tactic(auto, using(crate::proofs::ArgumentLemmas::argument_rules))]
fn arguments_fit(
    known: &Known<'_, ExprType>,
    kinds: &[ParameterKind],
    passes: bool,
    arguments: &[Argument],
) -> bool
    ensures { result ≡ arguments_fit known.now
        (with_passed kinds.now passes (length (map argument_tree arguments.now)))
        (map argument_tree arguments.now) }
{
    match arguments {
        [] => true,
        [argument, others @ ..] => match kinds {
            [] => !passes || all_pass(known, arguments),
            [kind, kinds @ ..] => argument_fits(known, *kind, argument)
                && arguments_fit(known, kinds, passes, others),
        },
    }
}

/// Whether an argument is a release mode.
fn is_mode(argument: &Argument) -> bool
    ensures { result ≡ is_mode (argument_tree argument.now) }
{
    match argument {
        Argument::Value(e) => match e.whole().shape() {
            Shape::Number { value, unsigned } => value == 0 && !unsigned,
            Shape::Named(Constant::Commit | Constant::Abort) => true,
            _ => false,
        },
        _ => false,
    }
}

/// Whether each mode among the arguments is one, as far as there are parameters too.
#[tactic(auto, using(crate::proofs::ArgumentLemmas::argument_rules))]
fn modes_fit(kinds: &[ParameterKind], arguments: &[Argument]) -> bool
    ensures { result ≡ modes_fit kinds.now (map argument_tree arguments.now) }
{
    match arguments {
        [] => true,
        [argument, arguments @ ..] => match kinds {
            [] => true,
            [ParameterKind::Mode, kinds @ ..] => {
                is_mode(argument) && modes_fit(kinds, arguments)
            }
            [_, kinds @ ..] => modes_fit(kinds, arguments),
        },
    }
}

/// Whether a call's arguments fit its function, as far as that is known.
pub(crate) fn call_arguments_fit(
    known: &Known<'_, ExprType>,
    function: Option<JniFunction>,
    call: &Call,
) -> bool
    ensures { result ≡ call_arguments_fit known.now (call_tree call.now)
        function }
{
    match function {
        None => true,
        Some(f) => arguments_fit(
            known,
            f.prototype().parameters,
            f.calls_method(),
            &call.arguments,
        ),
    }
}

/// Whether a function may have so many arguments after `env`.
fn takes_count(function: JniFunction, count: usize) -> bool
    ensures { result ≡ takes_count function count }
{
    let own = function.prototype().parameters.len();
    count == own || (function.calls_method() && own <= count && count <= own + MOST_FURTHER)
}

/// Whether a call has a number of arguments that its function doesn't take, as far as that is known.
pub(crate) fn has_wrong_count(function: Option<JniFunction>, call: &Call) -> bool
    ensures { result ≡ has_wrong_count (call_tree call.now) function }
{
    match function {
        None => false,
        Some(f) => !takes_count(f, call.arguments.len()),
    }
}

/// Whether a call has a mode that is none, as far as its function is known.
pub(crate) fn has_wrong_mode(function: Option<JniFunction>, call: &Call) -> bool
    ensures { result ≡ has_wrong_mode (call_tree call.now) function }
{
    match function {
        None => false,
        Some(f) => !modes_fit(f.prototype().parameters, &call.arguments),
    }
}

/// Whether a result fits where a variable of a type is set.
fn result_fits(ty: Option<ExprType>, kind: ResultKind) -> bool
    ensures { result ≡ result_fits ty kind }
{
    match kind {
        ResultKind::GivesNothing => false,
        ResultKind::GivesInt => is_jint(ty),
        ResultKind::GivesFlag => is_flag(ty),
        ResultKind::NewLocal => is_ref(ty),
        ResultKind::NewGlobal => is_global(ty),
        ResultKind::NewWeak => is_weak(ty),
        ResultKind::GivesField => is_field(ty),
        ResultKind::GivesMethod => is_method(ty),
        ResultKind::GivesBuffer(access) => is_buffer_for(access, ty),
    }
}

/// Whether a result may be dropped.
fn is_droppable(kind: ResultKind) -> bool
    ensures { result ≡ is_droppable kind }
{
    !matches!(
        kind,
        ResultKind::NewGlobal | ResultKind::NewWeak | ResultKind::GivesBuffer(_)
    )
}

/// Whether a function is `PushLocalFrame`, whose number a test for 0 alone may take.
fn is_push(function: JniFunction) -> bool
    ensures { result ≡ is_push function }
{
    matches!(function, JniFunction::PushLocalFrame)
}

/// Whether a variable of a type may be set to a call of a function, as far as that is known.
pub(crate) fn call_fits(ty: Option<ExprType>, function: Option<JniFunction>) -> bool
    ensures { result ≡ call_fits ty function }
{
    match function {
        None => true,
        Some(f) => !is_push(f) && result_fits(ty, f.prototype().result),
    }
}

/// Whether a call of a function may be a statement, as far as that is known.
pub(crate) fn may_be_dropped(function: Option<JniFunction>) -> bool
    ensures { result ≡ may_be_dropped function }
{
    match function {
        None => true,
        Some(f) => !is_push(f) && is_droppable(f.prototype().result),
    }
}

/// Whether a call of a function may be tested for 0, as far as that is known.
pub(crate) fn may_be_tested(function: Option<JniFunction>) -> bool
    ensures { result ≡ may_be_tested function }
{
    match function {
        None => true,
        Some(f) => is_push(f),
    }
}

/// Whether some name of an argument is not known.
fn argument_unknown(known: &Known<'_, ExprType>, argument: &Argument) -> bool
    ensures { result ≡ argument_uses (is_unknown known.now) (argument_tree argument.now) }
{
    match argument {
        Argument::Value(e) => has_unknown(known, e.whole()),
        Argument::Text(_) => false,
        Argument::AddressOf(x) => is_unknown(known, x),
    }
}

/// Whether some name in a call is not known.
pub(crate) fn call_unknown(known: &Known<'_, ExprType>, call: &Call) -> bool
    ensures { result ≡ call_uses (is_unknown known.now) (call_tree call.now) }
{
    for argument in &call.arguments {
        if argument_unknown(known, argument) {
            return true;
        }
    }
    false
}

/// Whether each expression in a call is a bare name or constant, or has a type.
pub(crate) fn call_formed(known: &Known<'_, ExprType>, call: &Call) -> bool
    ensures { result ≡ list_all (is_formed known.now) (call_expressions (call_tree call.now)) }
{
    for argument in &call.arguments {
        if let Argument::Value(e) = argument {
            if !is_formed(known, e.whole()) {
                return false;
            }
        }
    }
    true
}
