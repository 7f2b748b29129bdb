//! What is told of a broken rule: the variable, and what is known of it.

use crate::rules::{assigned_name, gets_elsewhere, level_after, mismatches};
use jni::JniFunction;
use places::Detail;
use region_rules::RegionRule;
use region_states::calls::{MadeCall, called, deleted, got, released};
use region_states::found::Sought;
use region_states::states::{Condition, Facts, FlowState, VariableState};
use semantics::CALL_LEVEL;
use syntax::{Form, Name};
use type_rules::{Question, first_name};

/// Whether a variable meets a condition; an untested buffer only where an element of it is read or written.
#[derive(Clone, Copy)]
struct Meets<'s, 'a> {
    state: &'s FlowState<'a>,
    condition: Condition,
}

impl Question for Meets<'_, '_> {
    fn holds(&self, name: &Name, has_index: bool) -> bool {
        let is_asked = match self.condition {
            Condition::Untested => has_index,
            _ => true,
        };
        is_asked && self.state.meets(self.condition, name.as_bytes())
    }
}

/// The first variable that a statement uses which meets a condition.
fn used<'f>(state: &FlowState<'_>, condition: Condition, form: &'f Form) -> Option<&'f [u8]> {
    let question = Meets { state, condition };
    match first_name(form, &question) {
        Some(name) => Some(name.as_bytes()),
        None => None,
    }
}

/// A variable, with words on it.
fn of_variable(kind: &[u8], name: Option<&[u8]>, words: &[u8]) -> Detail {
    match name {
        Some(name) => Detail::of(kind).words(name).words(words),
        None => Detail::none(),
    }
}

/// A buffer that isn't released, of those from this number on.
pub(crate) fn held_detail(state: &FlowState<'_>, from: usize) -> Detail {
    let held = state.first_sought(from, Sought::Meeting(Condition::Held));
    of_variable(b"buffer ", held, b" isn't released")
}

/// An untested buffer that is used or released.
fn untested_detail(state: &FlowState<'_>, form: &Form, call: Option<MadeCall<'_>>) -> Detail {
    let name = match used(state, Condition::Untested, form) {
        Some(name) => Some(name),
        None => match released(call) {
            Some(release) => release.buffer,
            None => None,
        },
    };
    of_variable(b"buffer ", name, b" isn't tested against NULL")
}

/// How a held buffer was acquired.
fn acquired(name: &[u8], known: Option<VariableState<'_>>) -> Detail {
    let held = match known {
        Some(known) => known.held(),
        None => None,
    };
    match held {
        Some((access, array)) => Detail::of(b"buffer ")
            .words(name)
            .words(b" was acquired by ")
            .words(JniFunction::GetBuffer(access).prototype().name)
            .words(b" of ")
            .words(array),
        None => Detail::none(),
    }
}

/// A buffer that is released wrongly.
fn released_wrongly(state: &FlowState<'_>, call: Option<MadeCall<'_>>) -> Detail {
    let Some(release) = released(call) else {
        return Detail::none();
    };
    let Some(name) = release.buffer else {
        return Detail::none();
    };
    if mismatches(state, release) {
        return acquired(name, state.known_of(name));
    }
    of_variable(
        b"JNI_COMMIT doesn't release the critical buffer ",
        Some(name),
        b"",
    )
}

/// A buffer that is used without being held, or one that is released wrongly.
fn wrong_detail(state: &FlowState<'_>, form: &Form, call: Option<MadeCall<'_>>) -> Detail {
    match used(state, Condition::Free, form) {
        Some(name) => of_variable(b"buffer ", Some(name), b" isn't acquired"),
        None => released_wrongly(state, call),
    }
}

/// A dead reference that is used.
fn dead_detail(state: &FlowState<'_>, form: &Form) -> Detail {
    let name = used(state, Condition::Dead, form);
    let known = match name {
        Some(name) => state.known_of(name),
        None => None,
    };
    match known {
        Some(VariableState::Reference { level, .. }) if level == CALL_LEVEL => {
            of_variable(b"reference ", name, b" was deleted")
        }
        _ => of_variable(
            b"reference ",
            name,
            b" was deleted, or its frame was popped",
        ),
    }
}

/// The variable of the array of a held buffer, if this is one.
fn in_use<'n>(state: &FlowState<'_>, name: Option<&'n [u8]>) -> Option<&'n [u8]> {
    let array = name?;
    if state.is_array_in_use(array) {
        Some(array)
    } else {
        None
    }
}

/// An array of a held buffer that would change.
fn array_of(state: &FlowState<'_>, array: &[u8]) -> Detail {
    let holder = state.first_sought(0, Sought::HoldingOf(array));
    of_variable(b"buffer ", holder, b" isn't released, and its array is ").words(array)
}

/// What is told of a Get that isn't of a local variable.
fn elsewhere_detail(call: Option<MadeCall<'_>>) -> Detail {
    match got(call) {
        Some((_, Some(name))) => Detail::of(b"found the static ")
            .words(name)
            .words(b", wanted a local variable"),
        _ => Detail::of(b"wanted a local variable"),
    }
}

/// What is told where the array of a held buffer would change, or isn't a local variable.
fn array_detail(state: &FlowState<'_>, form: &Form, call: Option<MadeCall<'_>>) -> Detail {
    if let Some(array) = in_use(state, assigned_name(form)) {
        return array_of(state, array);
    }
    if let Some(array) = in_use(state, deleted(call)) {
        return array_of(state, array);
    }
    if gets_elsewhere(state, call) {
        return elsewhere_detail(call);
    }
    let young = state.first_sought(0, Sought::OfYoungArray);
    of_variable(
        b"buffer ",
        young,
        b" isn't released, and its array is of the frame",
    )
}

/// A reference that is set in another frame than its own.
fn level_detail(state: &FlowState<'_>, form: &Form, call: Option<MadeCall<'_>>) -> Detail {
    let Some(name) = assigned_name(form) else {
        return Detail::none();
    };
    match state.known_of(name) {
        Some(VariableState::Reference { level: own, .. }) => Detail::of(b"reference ")
            .words(name)
            .words(b" is of frame ")
            .number(own.number)
            .words(b", and is set in frame ")
            .number(level_after(state, call).number),
        _ => Detail::none(),
    }
}

/// What is told of a rule that a statement breaks by itself.
pub(crate) fn statement_detail(state: &FlowState<'_>, form: &Form, rule: RegionRule) -> Detail {
    let call = called(form);
    match rule {
        RegionRule::CallWhileCritical => {
            let critical = state.first_sought(0, Sought::Critical);
            of_variable(b"buffer ", critical, b" is critical")
        }
        RegionRule::ReturnWithBuffer => held_detail(state, 0),
        RegionRule::HeldBuffer => {
            of_variable(b"buffer ", assigned_name(form), b" isn't released")
        }
        RegionRule::UntestedBuffer => untested_detail(state, form, call),
        RegionRule::WrongBuffer => wrong_detail(state, form, call),
        RegionRule::ReturnInFrame => Detail::of(b"frames that aren't popped: ").number(
            state.frames().saturating_sub(1),
        ),
        RegionRule::PopLastFrame => Detail::of(b"no frame is pushed here"),
        RegionRule::DeadReference => dead_detail(state, form),
        RegionRule::ArrayInUse => array_detail(state, form, call),
        RegionRule::WrongLevel => level_detail(state, form, call),
        RegionRule::PathsDiffer | RegionRule::NoReturn => Detail::none(),
    }
}

/// A statement after one that returns.
pub(crate) fn unreached_detail() -> Detail {
    Detail::of(b"this statement is never reached")
}

/// The end of a function that is reached without a return.
pub(crate) fn end_detail(function: &Name) -> Detail {
    Detail::of(function.as_bytes()).words(b" ends without `return`")
}

/// Puts what is known of a variable.
fn with_known(detail: Detail, known: VariableState<'_>) -> Detail {
    match known {
        VariableState::Reference { live: true, .. } => detail.words(b"live"),
        VariableState::Reference { live: false, .. } => detail.words(b"deleted"),
        VariableState::Free => detail.words(b"not acquired"),
        VariableState::Untested { .. } => detail.words(b"not tested"),
        VariableState::Usable { .. } => detail.words(b"acquired"),
    }
}

/// Whether a variable is a reference or a buffer.
fn kind_of(known: VariableState<'_>) -> &'static [u8] {
    match known {
        VariableState::Reference { .. } => b"reference ",
        VariableState::Free | VariableState::Untested { .. } | VariableState::Usable { .. } =>
            b"buffer ",
    }
}

/// What is known otherwise after the first of two paths, which these facts are of, than after the second.
pub(crate) fn paths_detail(first: &Facts<'_>, state: &FlowState<'_>) -> Detail {
    match state.first_difference(first) {
        Some(difference) => {
            let detail = Detail::of(kind_of(difference.first))
                .words(difference.name)
                .words(b" is ");
            let detail = with_known(detail, difference.first).words(b" on one path, ");
            with_known(detail, difference.second).words(b" on the other")
        }
        None => Detail::of(b"frames: ")
            .number(first.frames)
            .words(b" on one path, ")
            .number(state.frames())
            .words(b" on the other"),
    }
}
