//! The rules on buffers, references and frames that one statement can break.

ghost use Rattle.std.specs.Prelude.{◌≡◌, ℕ, Option, bytes_eq};
ghost use Rattle.std.specs.Option.{option_map, is_some};
ghost use Rattle.base.specs.Options.{some_passes};
ghost use Rattle.syntax.specs.Parts.{assigned_name};
ghost use Rattle.syntax.specs.Tree.{Stmt};
ghost use Rattle.syntax.specs.Views.{form_tree};
ghost use Rattle.region_rules.specs.FirstFaults.{first_broken};
ghost use Rattle.region_rules.specs.declared.rule.RegionRule.TheVariants.{CallWhileCritical, ReturnWithBuffer, HeldBuffer, UntestedBuffer, WrongBuffer, ReturnInFrame, PopLastFrame, DeadReference, ArrayInUse, WrongLevel};
ghost use Rattle.region_rules.specs.RegionRules.{is_return, is_put_jint, is_level, is_mismatched};
ghost use Rattle.region_rules.specs.RegionStates.{state_of};
ghost use Rattle.region_states.specs.StatesInMemory.{variable_state, asks};
ghost use Rattle.region_states.specs.StateEffects.{EffectCall, made_value, release_value, got};
ghost use Rattle.region_states.specs.Judgements.{judged, first_judged, is_wrong_release, is_other_level, frames_after, pops_array, gets_elsewhere};

use region_rules::RegionRule;
use region_states::calls::{
    MadeCall, Release, called, deleted, got, is_forbidden, popped, released,
};
use region_states::names_used::{reads, uses};
use region_states::states::{Condition, FlowState, VariableState, is_level};
use semantics::Level;
use syntax::{Form, PlainStmt};

/// Whether a statement returns.
fn is_return(form: &Form) -> bool
    ensures { (line : ℕ) → result ≡ is_return (form_tree line form.now) }
{
    matches!(form, Form::Return(_))
}

/// Whether a statement prints.
fn is_put_jint(form: &Form) -> bool
    ensures { (line : ℕ) → result ≡ is_put_jint (form_tree line form.now) }
{
    matches!(form, Form::Plain(PlainStmt::PutJint(_)))
}

/// The variable that an assignment sets.
pub(crate) fn assigned_name(form: &Form) -> Option<&[u8]>
    ensures { (line : ℕ) → option_map (λ x. x.now) result ≡ assigned_name (form_tree line form.now) }
{
    match form {
        Form::Plain(PlainStmt::Assign(x, _)) => Some(x.as_bytes()),
        _ => None,
    }
}

fn breaks_critical(state: &FlowState, form: &Form, call: Option<MadeCall>) -> bool
    ensures { (line : ℕ) → result ≡ judged CallWhileCritical state.now (form_tree line form.now)
        (option_map made_value call.entry) }
{
    state.holds_critical() && (is_put_jint(form) || is_forbidden(call))
}

fn breaks_return(state: &FlowState, form: &Form) -> bool
    ensures { (line : ℕ) (call : Option EffectCall)
        → result ≡ judged ReturnWithBuffer state.now (form_tree line form.now) call }
{
    is_return(form) && state.holds_buffer()
}

/// Whether a call is a Get.
fn gets(call: Option<MadeCall>) -> bool
    ensures { result ≡ is_some (got (option_map made_value call.entry)) }
{
    match got(call) {
        Some(_) => true,
        None => false,
    }
}

fn breaks_held(state: &FlowState, form: &Form, call: Option<MadeCall>) -> bool
    ensures { (line : ℕ) → result ≡ judged HeldBuffer state.now (form_tree line form.now)
        (option_map made_value call.entry) }
{
    gets(call) && state.some_meets(Condition::Held, assigned_name(form))
}

/// Whether an untested buffer is released.
fn releases_untested(state: &FlowState, release: Option<Release>) -> bool
    ensures { result ≡ some_passes (λ release. some_passes (asks Condition.Untested state.now) release.buffer)
        (option_map release_value release.entry) }
{
    match release {
        Some(r) => state.some_meets(Condition::Untested, r.buffer),
        None => false,
    }
}

fn breaks_untested(state: &FlowState, form: &Form, call: Option<MadeCall>) -> bool
    ensures { (line : ℕ) → result ≡ judged UntestedBuffer state.now (form_tree line form.now)
        (option_map made_value call.entry) }
{
    reads(state, Condition::Untested, form) || releases_untested(state, released(call))
}

/// Whether a name is spelled so.
fn is_name(name: &[u8], other: Option<&[u8]>) -> bool
    ensures { result ≡ some_passes (bytes_eq name.now) (option_map (λ x. x.now) other.entry) }
{
    match other {
        Some(x) => name == x,
        None => false,
    }
}

/// Whether a release is not the one that a held buffer wants.
fn is_mismatched(release: Release, known: Option<VariableState>) -> bool
    ensures { result ≡ is_mismatched (release_value release.entry) (option_map variable_state known.entry) }
{
    match known {
        Some(VariableState::Untested { access, array }) => {
            !(release.access.is_same(access) && is_name(array, release.object))
        }
        Some(VariableState::Usable { access, array }) => {
            !(release.access.is_same(access) && is_name(array, release.object))
        }
        Some(VariableState::Reference { .. }) => false,
        Some(VariableState::Free) => false,
        None => false,
    }
}

/// Whether the variable that is released wants another release.
pub(crate) fn mismatches(state: &FlowState, release: Release) -> bool
    ensures { result ≡ some_passes (λ x. is_mismatched (release_value release.entry) (state_of state.now x))
        (option_map (λ x. x.now) release.entry.buffer) }
{
    match release.buffer {
        Some(x) => is_mismatched(release, state.known_of(x)),
        None => false,
    }
}

fn is_wrong_release(state: &FlowState, release: Release) -> bool
    ensures { result ≡ is_wrong_release state.now (release_value release.entry) }
{
    (release.commits && release.access.is_critical()) || mismatches(state, release)
}

fn releases_wrongly(state: &FlowState, release: Option<Release>) -> bool
    ensures { result ≡ some_passes (is_wrong_release state.now) (option_map release_value release.entry) }
{
    match release {
        Some(r) => is_wrong_release(state, r),
        None => false,
    }
}

fn breaks_wrong(state: &FlowState, form: &Form, call: Option<MadeCall>) -> bool
    ensures { (line : ℕ) → result ≡ judged WrongBuffer state.now (form_tree line form.now)
        (option_map made_value call.entry) }
{
    uses(state, Condition::Free, form) || releases_wrongly(state, released(call))
}

fn breaks_frame(state: &FlowState, form: &Form) -> bool
    ensures { (line : ℕ) (call : Option EffectCall)
        → result ≡ judged ReturnInFrame state.now (form_tree line form.now) call }
{
    is_return(form) && state.frames() > 1
}

fn breaks_pop(state: &FlowState, call: Option<MadeCall>) -> bool
    ensures { (s : Stmt) → result ≡ judged PopLastFrame state.now s (option_map made_value call.entry) }
{
    popped(call) && state.frames() <= 1
}

fn breaks_dead(state: &FlowState, form: &Form) -> bool
    ensures { (line : ℕ) (call : Option EffectCall)
        → result ≡ judged DeadReference state.now (form_tree line form.now) call }
{
    uses(state, Condition::Dead, form)
}

fn pops_array(state: &FlowState, call: Option<MadeCall>) -> bool
    ensures { result ≡ pops_array state.now (option_map made_value call.entry) }
{
    popped(call) && state.has_young_array()
}

/// Whether a Get is of something else than a local variable.
pub(crate) fn gets_elsewhere(state: &FlowState, call: Option<MadeCall>) -> bool
    ensures { result ≡ gets_elsewhere state.now (option_map made_value call.entry) }
{
    match got(call) {
        Some((_, array)) => !state.some_meets(Condition::Reference, array),
        None => false,
    }
}

fn breaks_array(state: &FlowState, form: &Form, call: Option<MadeCall>) -> bool
    ensures { (line : ℕ) → result ≡ judged ArrayInUse state.now (form_tree line form.now)
        (option_map made_value call.entry) }
{
    state.is_some_in_use(assigned_name(form))
        || state.is_some_in_use(deleted(call))
        || pops_array(state, call)
        || gets_elsewhere(state, call)
}

/// The level of a reference that is declared after a call.
pub(crate) fn level_after(state: &FlowState, call: Option<MadeCall>) -> Level
    ensures { result.number ≡ frames_after state.now (option_map made_value call.entry) }
{
    if popped(call) {
        Level {
            number: state.frames().saturating_sub(1),
        }
    } else {
        state.level()
    }
}

/// Whether a variable is a reference of another level.
fn is_other_level(state: &FlowState, level: Level, name: &[u8]) -> bool
    ensures { result ≡ is_other_level level.number (state_of state.now name.now) }
{
    state.meets(Condition::Reference, name) && !is_level(level, state.known_of(name))
}

fn breaks_level(state: &FlowState, form: &Form, call: Option<MadeCall>) -> bool
    ensures { (line : ℕ) → result ≡ judged WrongLevel state.now (form_tree line form.now)
        (option_map made_value call.entry) }
{
    match assigned_name(form) {
        Some(x) => is_other_level(state, level_after(state, call), x),
        None => false,
    }
}

/// The rule of least number that a statement with this call breaks by itself.
pub(crate) fn first_judged(
    state: &FlowState,
    form: &Form,
    call: Option<MadeCall>,
) -> Option<RegionRule>
    ensures { (line : ℕ) → result
        ≡ first_judged state.now (form_tree line form.now) (option_map made_value call.entry) }
{
    if breaks_critical(state, form, call) {
        return Some(RegionRule::CallWhileCritical);
    }
    if breaks_return(state, form) {
        return Some(RegionRule::ReturnWithBuffer);
    }
    if breaks_held(state, form, call) {
        return Some(RegionRule::HeldBuffer);
    }
    if breaks_untested(state, form, call) {
        return Some(RegionRule::UntestedBuffer);
    }
    if breaks_wrong(state, form, call) {
        return Some(RegionRule::WrongBuffer);
    }
    if breaks_frame(state, form) {
        return Some(RegionRule::ReturnInFrame);
    }
    if breaks_pop(state, call) {
        return Some(RegionRule::PopLastFrame);
    }
    if breaks_dead(state, form) {
        return Some(RegionRule::DeadReference);
    }
    if breaks_array(state, form, call) {
        return Some(RegionRule::ArrayInUse);
    }
    if breaks_level(state, form, call) {
        return Some(RegionRule::WrongLevel);
    }
    None
}

/// The rule of least number that a statement breaks by itself.
pub(crate) fn first_broken(state: &FlowState, form: &Form) -> Option<RegionRule>
    ensures { (line : ℕ) → result ≡ first_broken state.now (form_tree line form.now) }
{
    first_judged(state, form, called(form))
}
