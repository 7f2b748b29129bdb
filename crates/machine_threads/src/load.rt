//! The threads of a machine before its first step.

ghost use Rattle.std.specs.Prelude.{◌≡◌, ℕ, List, Option, IfOk, IfErr, OnOk, IfSome, IfNone, IsTrue, [], None, length};
ghost use Rattle.std.specs.List.{list_all};
ghost use Rattle.syntax.specs.Limits.{IsTree};
ghost use Rattle.syntax.specs.Views.{unit_tree};
ghost use Rattle.heap.specs.Heap.{Space};
ghost use Rattle.world_values.specs.CallArguments.{are_arguments};
ghost use Rattle.world_values.specs.SoundWorlds.{has_call};
ghost use Rattle.semantics.specs.World.{loaded_objects};
ghost use Rattle.semantics.specs.Activation.{function_at};
ghost use Rattle.semantics.specs.Load.{methods_load, refused_calls};
ghost use Rattle.semantics.specs.Start.{waiting_thread};
ghost use Rattle.semantics.specs.Thread.{Shared};
ghost use Rattle.semantics_safety.specs.Owners.{no_owners};
ghost use Rattle.tables.specs.Elements.{OwnedNumbers};
ghost use Rattle.machine_threads.specs.ThreadAgrees.{ThreadAgrees};
ghost use Rattle.machine_threads.specs.Loading.{AreWaiting, IsCallOf, IsFirstOf, IsLoadFault, IsNumberOf, all_refused};

use crate::fault::LoadFault;
use crate::thread::{PendingCall, Thread};
use class_queries::{arguments_fit, line_of_call, line_of_heap, methods_load, native_class};
use code_meaning::Program;
use functions::{Functions, NumberedFunction};
use semantics::Ending;
use std::alloc::{AllocError, Global};
use std::collections::VecDeque;
use world_values::{Call, World};

/// The world's threads before their first calls.
pub fn load_threads(
    alloc: Global,
    program: &Program<'_>,
    world: &World,
) -> Result<Vec<Thread>, LoadFault>
    ensures agree { IfOk result (λ threads. AreWaiting program.now world.now threads.items) }
    ensures methods { OnOk result (IsTrue (methods_load (unit_tree program.now.unit) world.now)) }
    ensures all { OnOk result (all_refused (unit_tree program.now.unit) world.now ≡ []) }
    ensures refused { IfErr result (IsLoadFault (unit_tree program.now.unit) world.now) }
{
    if !methods_load(program.items(), world) {
        return Err(LoadFault::DoesNotFit(line_of_heap(world)));
    }
    let functions = Functions::of(alloc, program.items())?;
    load_all(alloc, program, &functions, world)
}

/// The world's threads before their first calls, by the unit's functions.
#[inline]
fn load_all(
    alloc: Global,
    program: &Program<'_>,
    functions: &Functions<'_>,
    world: &World,
) -> Result<Vec<Thread>, LoadFault>
    requires { functions.now ≡ program.now.unit }
    ensures agree { IfOk result (λ threads. AreWaiting program.now world.now threads.items) }
    ensures all { OnOk result (all_refused (unit_tree program.now.unit) world.now ≡ []) }
    ensures refused { IfErr result (IsFirstOf (all_refused (unit_tree program.now.unit) world.now)) }
{
    let mut threads = Vec::new(alloc);
    for calls in world.threads() {
        let thread = load_thread(alloc, program, functions, world, calls)?;
        threads.push(thread)?;
    }
    Ok(threads)
}

/// A thread before its first call.
fn load_thread(
    alloc: Global,
    program: &Program<'_>,
    functions: &Functions<'_>,
    world: &World,
    calls: &[Call],
) -> Result<Thread, LoadFault>
    requires functions { functions.now ≡ program.now.unit }
    requires some { IsTrue (has_call calls.now) }
    requires given { IsTrue (list_all (are_arguments (length (loaded_objects world.now))) calls.now) }
    ensures agrees { IfOk result (λ thread. (space : Space) (copies : List (Option OwnedNumbers)) (k : ℕ)
        (shared : Shared) → ThreadAgrees program.now world.now.classes space copies
        (length (loaded_objects world.now)) k no_owners shared thread
        (waiting_thread calls.now)) }
    ensures all { OnOk result (refused_calls (unit_tree program.now.unit) world.now.classes calls.now ≡ []) }
    ensures refused { IfErr result (IsFirstOf (refused_calls (unit_tree program.now.unit) world.now.classes calls.now)) }
{
    let mut nexts = VecDeque::new(alloc);
    for call in calls {
        match load_call(alloc, program, functions, world, call)? {
            Some(next) => nexts.push_back(next)?,
            None => {
                let line = line_of_call(alloc, program.items(), call);
                return Err(LoadFault::DoesNotFit(line));
            }
        }
    }
    Ok(Thread {
        calls: nexts,
        entering: None,
        call: None,
        callers: Vec::new(alloc),
        spare: None,
        spare_arguments: Vec::new(alloc),
        pending: None,
        ending: Ending::Unfinished,
    })
}

/// A call to come, if the world's call fits its function.
fn load_call(
    alloc: Global,
    program: &Program<'_>,
    functions: &Functions<'_>,
    world: &World,
    call: &Call,
) -> Result<Option<PendingCall>, AllocError>
    requires functions { functions.now ≡ program.now.unit }
    requires given { IsTrue (are_arguments (length (loaded_objects world.now)) call.now) }
    ensures { IfOk result (IsCallOf program.now world.now.classes (length (loaded_objects world.now)) call.now) }
{
    let Some(found) = function_named(program, functions, call.function()) else {
        return Ok(None);
    };
    let Some(class) = native_class(alloc, world.classes(), call.function())? else {
        return Ok(None);
    };
    if !arguments_fit(&found.function.parameters, call.arguments()) {
        return Ok(None);
    }
    Ok(Some(PendingCall {
        function: found.number,
        class,
        arguments: Vec::from_slice(alloc, call.arguments())?,
    }))
}

/// The function of a name.
fn function_named<'a>(
    program: &Program<'_>,
    functions: &Functions<'a>,
    name: &[u8],
) -> Option<NumberedFunction<'a>>
    requires { functions.now ≡ program.now.unit }
    ensures found { IfSome result (λ found. IsNumberOf program.now name.now found.number found.function.now) }
    ensures unknown { IfNone result (function_at (unit_tree program.now.unit) name.now ≡ None) }
    ensures tree { IsTree (unit_tree program.now.unit) }
{
    // Here the proof takes up that the unit is a tree.
    let _ = program.items();
    functions.find(name)
}
