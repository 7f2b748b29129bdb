//! The known name that may be meant where a name or a function of the JNI isn't known, for the reader of a fault; no contract says
//! which words these are.

use crate::taken::Taken;
use jni::{FUNCTIONS, prototype_at};
use nearest::Nearest;
use places::Detail;
use std::alloc::Global;
use syntax::Name;
use type_rules::{ExprType, Known, TypeRule};

/// The most faults of a unit of which it is sought which name may be meant, since each is compared with all that are known.
const MOST_ASKED: usize = 64;

/// The constants with a name.
static CONSTANTS: [&[u8]; 5] = [
    b"NULL",
    b"JNI_TRUE",
    b"JNI_FALSE",
    b"JNI_COMMIT",
    b"JNI_ABORT",
];

/// Whether it is asked which name may be meant, where this many faults come before: of the first 64, where all are told.
pub(crate) fn is_asked(all: bool, before: usize) -> bool {
    if all {
        before < MOST_ASKED
    } else {
        before == 0
    }
}

/// What was found where this rule is broken, and, where that is a name or a function that isn't known, which one may be meant.
pub(crate) fn asked(
    alloc: Global,
    known: &Known<'_, ExprType>,
    taken: &Taken<'_>,
    rule: TypeRule,
    found: Detail,
) -> Detail {
    match rule {
        TypeRule::UnknownName => name_asked(alloc, known, taken, found),
        TypeRule::UnknownFunction => function_asked(alloc, found),
        _ => found,
    }
}

/// Which of the known names may be meant, if memory suffices to ask.
fn name_asked(
    alloc: Global,
    known: &Known<'_, ExprType>,
    taken: &Taken<'_>,
    found: Detail,
) -> Detail {
    let Ok(names) = known.names(alloc) else {
        return found;
    };
    let name = found.as_bytes();
    let mut nearest = Nearest::to(name);
    offer_known(alloc, &mut nearest, taken, &names);
    let told = Detail::of(name);
    nearest.asked_after(told, b"")
}

/// Offers the known names of a function, of which the latest is given first: the statics, what the function is given, and its
/// own, each from the earliest on, and the constants.
fn offer_known<'a>(
    alloc: Global,
    nearest: &mut Nearest<'_, 'a>,
    taken: &Taken<'_>,
    names: &'a [Name],
) {
    let (own, entered) = names.split_at(names.len().saturating_sub(taken.entered()));
    let (given, statics) = entered.split_at(taken.given().min(entered.len()));
    offer_back(alloc, nearest, statics);
    // The first parameter is known as the latest.
    for name in given {
        nearest.offer(alloc, name.as_bytes());
    }
    offer_back(alloc, nearest, own);
    for name in &CONSTANTS {
        nearest.offer(alloc, name);
    }
}

/// Offers names from the last on.
fn offer_back<'a>(alloc: Global, nearest: &mut Nearest<'_, 'a>, names: &'a [Name]) {
    for name in names.iter().rev() {
        nearest.offer(alloc, name.as_bytes());
    }
}

/// Which function of the JNI may be meant.
fn function_asked(alloc: Global, found: Detail) -> Detail {
    let name = found.as_bytes();
    let mut nearest = Nearest::to(name);
    for number in 0..FUNCTIONS {
        nearest.offer(alloc, prototype_at(number).name);
    }
    let told = Detail::of(name);
    nearest.asked_after(told, b"")
}
