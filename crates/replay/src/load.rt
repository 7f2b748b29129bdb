//! The state in which a replay begins.

ghost use Rattle.std.specs.Prelude.{◌≡◌, ◌≤◌, IfOk, IfErr, flat_map, length, map, [], None};
ghost use Rattle.syntax.specs.Views.{unit_tree, function_tree};
ghost use Rattle.type_rules.specs.TypeRules.{IsWellTyped};
ghost use Rattle.world_values.specs.Views.{object_value_view};
ghost use Rattle.semantics.specs.Load.{call_loads, is_callable, first_load_fault, refused_calls};
ghost use Rattle.semantics.specs.Start.{start};
ghost use Rattle.replay_arguments.specs.Shares.{shared_view};
ghost use Rattle.replay_threads.specs.States.{AreInRange, Stands};
ghost use Rattle.replay.specs.Loading.{first_line, AddsWaiting, AreWaiting, IsWaiting};
ghost use Rattle.replay.specs.Replays.{IsLoadFault};

use crate::fault::ReplayError;
use class_queries::{arguments_fit, line_of_call, line_of_heap, methods_load};
use functions::Functions;
use places::Line;
use replay_arguments::Shared;
use replay_objects::{Monitors, Names, loaded_store};
use replay_terms::null_statics;
use replay_threads::{State, Thread, class_of};
use semantics::Ending;
use std::alloc::{AllocError, Global};
use syntax::{Function, Item};
use world_values::{Call, ObjectValue, World};

/// Whether the function can be called with these arguments: its class is there, and they fit.
fn is_callable(
    alloc: Global,
    world: &World,
    function: &Function,
    arguments: &[ObjectValue],
) -> Result<bool, AllocError>
    ensures { IfOk result (λ fits. fits ≡ is_callable world.now.classes (map object_value_view arguments.now)
        (function_tree function.now)) }
{
    let class = class_of(alloc, world, function)?;
    Ok(class.is_some() && arguments_fit(&function.parameters, arguments))
}

/// Whether a call's function is there, and can be called.
fn fits(
    alloc: Global,
    functions: &Functions<'_>,
    world: &World,
    call: &Call,
) -> Result<bool, AllocError>
    ensures { IfOk result (λ fits. fits ≡ call_loads (unit_tree functions.now) world.now.classes call.now) }
{
    match functions.find(call.function()) {
        Some(found) => is_callable(alloc, world, found.function, call.arguments()),
        None => Ok(false),
    }
}

/// The line of the first of these calls that doesn't fit.
fn first_unfit(
    alloc: Global,
    functions: &Functions<'_>,
    world: &World,
    calls: &[Call],
) -> Result<Option<Line>, AllocError>
    ensures { IfOk result (λ line. line ≡ first_line
        (refused_calls (unit_tree functions.now) world.now.classes calls.now)) }
{
    for call in calls {
        if !fits(alloc, functions, world, call)? {
            return Ok(Some(line_of_call(alloc, functions.items(), call)));
        }
    }
    Ok(None)
}

/// The line of the first call of a thread that doesn't fit.
fn first_misfit(
    alloc: Global,
    functions: &Functions<'_>,
    world: &World,
) -> Result<Option<Line>, AllocError>
    ensures { IfOk result (λ line. line ≡ first_line
        (flat_map (refused_calls (unit_tree functions.now) world.now.classes) world.now.threads)) }
{
    for calls in world.threads() {
        let line = first_unfit(alloc, functions, world, calls)?;
        if line.is_some() {
            return Ok(line);
        }
    }
    Ok(None)
}

/// The line of the heap, where the world doesn't allow the methods that the unit asks for, or else of the first call of a
/// thread that doesn't fit.
fn first_fault(
    alloc: Global,
    functions: &Functions<'_>,
    world: &World,
) -> Result<Option<Line>, AllocError>
    ensures { IfOk result (λ line. line ≡ first_load_fault (unit_tree functions.now) world.now) }
{
    if !methods_load(functions.items(), world) {
        return Ok(Some(line_of_heap(world)));
    }
    first_misfit(alloc, functions, world)
}

/// A thread before its first call.
fn waiting<'a>(alloc: Global, calls: &'a [Call]) -> Thread<'a>
    ensures { IsWaiting result calls.entry.now }
{
    Thread {
        entering: None,
        calls,
        activation: None,
        callers: Vec::new(alloc),
        pending: None,
        ending: Ending::Unfinished,
    }
}

/// Adds a thread before its first call.
fn push_waiting<'a>(
    alloc: Global,
    threads: &mut Vec<Thread<'a>>,
    calls: &'a [Call],
) -> Result<(), AllocError>
    ensures { IfOk result (λ _. AddsWaiting threads.old.items calls.entry.now threads.new.items) }
{
    threads.push(waiting(alloc, calls))?;
    Ok(())
}

/// Puts the threads before their first calls into an empty list.
#[inline]
fn add_waiting<'a>(
    alloc: Global,
    threads: &mut Vec<Thread<'a>>,
    world: &'a World,
) -> Result<(), AllocError>
    requires { threads.old.items ≡ [] }
    ensures waiting { IfOk result (λ _. AreWaiting threads.new.items world.entry.now.threads) }
    ensures few { IfOk result (λ _. length threads.new.items ≤ 8) }
{
    for calls in world.threads() {
        push_waiting(alloc, threads, calls)?;
    }
    Ok(())
}

/// The threads before their first calls.
fn waiting_threads<'a>(alloc: Global, world: &'a World) -> Result<Vec<Thread<'a>>, AllocError>
    ensures waiting { IfOk result (λ threads. AreWaiting threads.items world.now.threads) }
    ensures few { IfOk result (λ threads. length threads.items ≤ 8) }
{
    let mut threads = Vec::new(alloc);
    add_waiting(alloc, &mut threads, world)?;
    Ok(threads)
}

/// What all threads share before the first entry: the objects that are made at load, statics that are all NULL, no
/// global reference, and no monitor.
fn loaded<'a>(alloc: Global, items: &'a [Item], world: &World) -> Result<Shared<'a>, AllocError>
    requires { IsWellTyped (unit_tree items.now) }
    ensures { IfOk result (λ shared. shared_view shared ≡ (start (unit_tree items.entry.now) world.now).shared) }
{
    Ok(Shared {
        store: loaded_store(alloc, world)?,
        statics: null_statics(alloc, items)?,
        globals: Names::new(alloc),
        monitors: Monitors::new(alloc),
    })
}

/// The state before the first entry, where the unit and the world go together.
fn begun<'a>(
    alloc: Global,
    functions: &Functions<'a>,
    world: &'a World,
) -> Result<State<'a>, AllocError>
    requires well_typed { IsWellTyped (unit_tree functions.now) }
    requires fits { first_load_fault (unit_tree functions.now) world.now ≡ None }
    ensures stands { IfOk result (λ m. Stands (unit_tree functions.now) world.now m
        (start (unit_tree functions.now) world.now)) }
    ensures range { IfOk result (λ m. AreInRange m.threads.items) }
{
    let threads = waiting_threads(alloc, world)?;
    let shared = loaded(alloc, functions.items(), world)?;
    Ok(State {
        threads,
        world,
        shared,
        printed: Vec::new(alloc),
        stop: None,
    })
}

/// The state before the first entry.
pub fn start<'a>(
    alloc: Global,
    functions: &Functions<'a>,
    world: &'a World,
) -> Result<State<'a>, ReplayError>
    requires { IsWellTyped (unit_tree functions.now) }
    ensures stands { IfOk result (λ m. Stands (unit_tree functions.now) world.now m
        (start (unit_tree functions.now) world.now)) }
    ensures range { IfOk result (λ m. AreInRange m.threads.items) }
    ensures fits { IfOk result (λ _. first_load_fault (unit_tree functions.now) world.now ≡ None) }
    ensures fault { IfErr result (IsLoadFault (unit_tree functions.now) world.now) }
{
    if let Some(line) = first_fault(alloc, functions, world)? {
        return Err(ReplayError::DoesNotFit(line));
    }
    Ok(begun(alloc, functions, world)?)
}
