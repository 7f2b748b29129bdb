//! How many places roots have. That takes time for the calls in progress, and none for their references.

ghost use Rattle.std.specs.Prelude.{◌≡◌, ◌+◌, IfOk, flat_map, length};
ghost use Rattle.machine_collections.specs.Roots.{argument_places, call_places, root_places, slots_of, thread_places};

use machine_scenes::store::Store;
use machine_threads::boxed_activation::BoxedActivation;
use machine_threads::thread::{Entering, Thread};
use std::alloc::AllocError;

/// The number of the places of all roots. Fails where no host could have so much memory.
pub(crate) fn count_roots(store: &Store, threads: &[Thread]) -> Result<usize, AllocError>
    ensures { IfOk result (λ n. n ≡ length (root_places store.now threads.now)) }
{
    let shared = plus(store.loaded.len(), store.globals.len())?;
    let owned = plus(count_threads(threads)?, store.monitors.len())?;
    plus(shared, owned)
}

/// The number of the places of what threads refer to.
fn count_threads(threads: &[Thread]) -> Result<usize, AllocError>
    ensures { IfOk result (λ n. n ≡ length (flat_map thread_places threads.now)) }
{
    let mut count = 0;
    for thread in threads {
        count = plus(count, count_thread(thread)?)?;
    }
    Ok(count)
}

/// The number of the places of what a thread refers to.
fn count_thread(thread: &Thread) -> Result<usize, AllocError>
    ensures { IfOk result (λ n. n ≡ length (thread_places thread.now)) }
{
    let below = plus(count_callers(&thread.callers)?, 1)?;
    let given = plus(below, count_entering(&thread.entering))?;
    plus(given, count_call(&thread.call))
}

/// The number of the local references of the calls from which others were made.
fn count_callers(callers: &[BoxedActivation]) -> Result<usize, AllocError>
    ensures { IfOk result (λ n. n ≡ length (flat_map call_places callers.now)) }
{
    let mut count = 0;
    for caller in callers {
        count = plus(count, caller.get().locals.len())?;
    }
    Ok(count)
}

/// How much a call is given that isn't entered yet.
fn count_entering(entering: &Option<Entering>) -> usize
    ensures { result ≡ length (argument_places entering.now) }
{
    match entering {
        None => 0,
        Some(entering) => entering.arguments.len(),
    }
}

/// The number of the local references of a call in progress.
fn count_call(call: &Option<BoxedActivation>) -> usize
    ensures { result ≡ length (slots_of call.now) }
{
    match call {
        None => 0,
        Some(boxed) => boxed.get().locals.len(),
    }
}

/// A sum. `Err` where it can't be counted, as no list is that long.
fn plus(count: usize, more: usize) -> Result<usize, AllocError>
    ensures { IfOk result (λ n. n ≡ count + more) }
{
    match count.checked_add(more) {
        Some(sum) => Ok(sum),
        None => Err(AllocError),
    }
}
