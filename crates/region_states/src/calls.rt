//! What a call does to buffers, references and frames.

ghost use Rattle.std.specs.Prelude.{◌≡◌, ℕ, [], ◌∷◌, map, Some};
ghost use Rattle.std.specs.Option.{option_map};
ghost use Rattle.syntax.specs.Tree.{Plain};
ghost use Rattle.syntax.specs.Views.{argument_tree, call_tree, plain_tree, form_tree};
ghost use Rattle.region_rules.specs.RegionStates.{argument_name, first_name, has_commit, call_of, function_called};
ghost use Rattle.jni.specs.declared.kinds.StateEffect.TheVariants.{Releases};
ghost use Rattle.region_states.specs.StateEffects.{call_state_effect, made_value, release_value, got, released, deleted, popped, is_forbidden};

use jni::{Access, JniFunction, StateEffect, function_named};
use syntax::{Argument, Call, Constant, Form, PlainStmt, Shape};

/// A call: what it does, and its arguments.
#[derive(Clone, Copy)]
pub struct MadeCall<'a> {
    pub effect: StateEffect,
    pub arguments: &'a [Argument],
}

/// A release: its access, the variables of its object and its buffer, and whether its mode is `JNI_COMMIT`.
#[derive(Clone, Copy)]
pub struct Release<'a> {
    pub access: Access,
    pub object: Option<&'a [u8]>,
    pub buffer: Option<&'a [u8]>,
    pub commits: bool,
}

/// A call of a function that is known.
fn made(function: Option<JniFunction>, arguments: &[Argument]) -> Option<MadeCall<'_>>
    ensures { option_map made_value result ≡ option_map call_state_effect
        (option_map (λ f. (f, map argument_tree arguments.now)) function) }
{
    match function {
        Some(f) => Some(MadeCall {
            effect: f.prototype().effect,
            arguments,
        }),
        None => None,
    }
}

/// What is called by a call, where there is one.
fn called_by(call: Option<&Call>) -> Option<MadeCall<'_>>
    ensures { option_map made_value result
        ≡ option_map call_state_effect (call_of (option_map (λ c. call_tree c.now) call.entry)) }
{
    match call {
        Some(call) => made(function_named(call.function.as_bytes()), &call.arguments),
        None => None,
    }
}

/// What a statement calls.
pub fn called(form: &Form) -> Option<MadeCall<'_>>
    ensures { (line : ℕ) → option_map made_value result
        ≡ option_map call_state_effect (function_called (form_tree line form.now)) }
{
    called_by(form.own_call())
}

/// What a plain statement calls.
pub(crate) fn plain_called(plain: &PlainStmt) -> Option<MadeCall<'_>>
    ensures { (line : ℕ) → option_map made_value result
        ≡ option_map call_state_effect (function_called (Plain line (plain_tree plain.now))) }
{
    called_by(plain.own_call())
}

/// The bare name that an argument is.
fn argument_name(argument: &Argument) -> Option<&[u8]>
    ensures { option_map (λ x. x.now) result ≡ argument_name (argument_tree argument.now) }
{
    match argument {
        Argument::Value(e) => match e.whole().shape() {
            Shape::Variable(x) => Some(x.as_bytes()),
            _ => None,
        },
        _ => None,
    }
}

/// The bare name that the first argument is.
fn first_name(arguments: &[Argument]) -> Option<&[u8]>
    ensures { option_map (λ x. x.now) result ≡ first_name (map argument_tree arguments.now) }
{
    match arguments {
        [] => None,
        [argument, ..] => argument_name(argument),
    }
}

/// Whether an argument is `JNI_COMMIT`.
fn is_commit(argument: &Argument) -> bool
    ensures { result ≡ has_commit (argument_tree argument.now ∷ []) }
{
    match argument {
        Argument::Value(e) => matches!(e.whole().shape(), Shape::Named(Constant::Commit)),
        _ => false,
    }
}

/// Whether one of the arguments is `JNI_COMMIT`.
#[tactic(auto, using(crate::proofs::EffectLemmas::commit_first))]
fn has_commit(arguments: &[Argument]) -> bool
    ensures { result ≡ has_commit (map argument_tree arguments.now) }
{
    for argument in arguments {
        if is_commit(argument) {
            return true;
        }
    }
    false
}

/// A Get's access, and the variable of its array or string.
pub fn got<'a>(call: Option<MadeCall<'a>>) -> Option<(Access, Option<&'a [u8]>)>
    ensures { option_map (λ g. (g.0, option_map (λ x. x.now) g.1)) result
        ≡ got (option_map made_value call.entry) }
{
    match call {
        Some(c) => match c.effect {
            StateEffect::Gets(access) => Some((access, first_name(c.arguments))),
            StateEffect::Releases(_) => None,
            StateEffect::Deletes => None,
            StateEffect::Pops => None,
            StateEffect::Other => None,
        },
        None => None,
    }
}

/// What a release of this access with these arguments releases.
#[tactic(auto, using(crate::proofs::EffectLemmas::few_released))]
fn release_with(access: Access, arguments: &[Argument]) -> Option<Release<'_>>
    ensures { option_map release_value result
        ≡ released (Some (Releases access, map argument_tree arguments.now)) }
{
    match arguments {
        [object, buffer, modes @ ..] => Some(Release {
            access,
            object: argument_name(object),
            buffer: argument_name(buffer),
            commits: has_commit(modes),
        }),
        _ => None,
    }
}

/// What a call releases.
pub fn released<'a>(call: Option<MadeCall<'a>>) -> Option<Release<'a>>
    ensures { option_map release_value result ≡ released (option_map made_value call.entry) }
{
    match call {
        Some(c) => match c.effect {
            StateEffect::Releases(access) => release_with(access, c.arguments),
            StateEffect::Gets(_) => None,
            StateEffect::Deletes => None,
            StateEffect::Pops => None,
            StateEffect::Other => None,
        },
        None => None,
    }
}

/// The variable that a call deletes.
pub fn deleted<'a>(call: Option<MadeCall<'a>>) -> Option<&'a [u8]>
    ensures { option_map (λ x. x.now) result ≡ deleted (option_map made_value call.entry) }
{
    match call {
        Some(c) => match c.effect {
            StateEffect::Deletes => first_name(c.arguments),
            StateEffect::Gets(_) => None,
            StateEffect::Releases(_) => None,
            StateEffect::Pops => None,
            StateEffect::Other => None,
        },
        None => None,
    }
}

/// Whether a call pops a frame.
pub fn popped(call: Option<MadeCall>) -> bool
    ensures { result ≡ popped (option_map made_value call.entry) }
{
    match call {
        Some(c) => match c.effect {
            StateEffect::Pops => true,
            StateEffect::Gets(_) => false,
            StateEffect::Releases(_) => false,
            StateEffect::Deletes => false,
            StateEffect::Other => false,
        },
        None => false,
    }
}

/// Whether a call may not be made while a buffer is critical.
pub fn is_forbidden(call: Option<MadeCall>) -> bool
    ensures { result ≡ is_forbidden (option_map made_value call.entry) }
{
    match call {
        Some(c) => match c.effect {
            StateEffect::Gets(access) => !access.is_critical(),
            StateEffect::Releases(access) => !access.is_critical(),
            StateEffect::Deletes => true,
            StateEffect::Pops => true,
            StateEffect::Other => true,
        },
        None => false,
    }
}
