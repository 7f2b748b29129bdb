//! Whether a thread waits for a monitor.

ghost use Rattle.std.specs.Prelude.{◌≡◌, ℕ, List, length};
ghost use Rattle.code.specs.Call.{IsPrepared};
ghost use Rattle.syntax.specs.Views.{unit_tree};
ghost use Rattle.jni.specs.declared.function.JniFunction.TheVariants.{MonitorEnter};
ghost use Rattle.semantics.specs.CallStep.{waits_with};
ghost use Rattle.semantics.specs.Effect.{effect_of};
ghost use Rattle.semantics.specs.Task.{Task};
ghost use Rattle.semantics.specs.Thread.{Shared, Thread as SourceThread, sight_of};
ghost use Rattle.semantics.specs.ThreadStep.{waits};
ghost use Rattle.semantics.specs.World.{loaded_objects};
ghost use Rattle.semantics_safety.specs.Owners.{Owners, ThreadOwners};
ghost use Rattle.code_meaning.specs.Lowered.{IsLowered};
ghost use Rattle.machine_scenes.specs.Buffers.{Acquired, acquired_by, beside};
ghost use Rattle.machine_scenes.specs.StoreAgrees.{StoreAgrees};
ghost use Rattle.machine_steps.specs.Executes.{IsSteady};
ghost use Rattle.machine_threads.specs.Callers.{beside_callers};
ghost use Rattle.machine_threads.specs.ThreadAgrees.{ThreadAgrees};
ghost use Rattle.machine_steps.specs.Waiting.{MayWait, is_busy};
ghost use Rattle.machine_steps.specs.Advances.{Stands};

use crate::context::StepContext;
use crate::scene::scene_of;
use code::instr::{Call, Instr};
use code_meaning::Program;
use heap::Addr;
use jni::JniFunction;
use machine_answers::answer::argument;
use machine_answers::check::check;
use machine_scenes::activation::Activation;
use machine_scenes::store::Store;
use machine_threads::thread::Thread;
use monitors::Enter;
use world_values::World;

/// Whether a thread, which has this number, waits for a monitor.
///
/// Its next step is a call of `MonitorEnter` then that no check stops, for an object whose monitor another thread owns
/// (JNI Specification, chapter 4, "MonitorEnter"). It takes no host memory.
#[inline(always)]
pub fn waits(
    program: &Program<'_>,
    world: &World,
    store: &Store,
    thread: &Thread,
    number: u8,
) -> bool
    requires lowered { IsLowered program.now }
    requires agrees { (others : Acquired) × (own : ThreadOwners) × (shared : Shared) × (s : SourceThread)
        × Stands program.now world.now store.now others number own shared s thread.now }
    ensures { (others : Acquired) (own : ThreadOwners) (shared : Shared) (s : SourceThread)
        → StoreAgrees program.now world.now store.now shared (beside (beside_callers others s) (acquired_by s))
        → ThreadAgrees program.now world.now.classes store.now.heap store.now.elements
        (length (loaded_objects world.now)) number own shared thread.now s
        → IsSteady (unit_tree program.now.unit) world.now.classes own.current shared s → result ≡ waits world.now.classes number shared s }
{
    if store.monitors.len() == 0 {
        return false;
    }
    // The proof reads off this call that no object has as many elements as a `jint` can say.
    let _ = store.heap.cells();
    match &thread.call {
        None => false,
        Some(activation) => {
            let activation = activation.get();
            let code = program.code_at(activation.function);
            let instr = code.instr_at(activation.place);
            match instr {
                Instr::Call(boxed) => {
                    let call = boxed.call();
                    match call.function {
                        JniFunction::MonitorEnter => {
                            let context = StepContext {
                                program,
                                world,
                                thread: number,
                                may_refuse: false,
                            };
                            waits_to_enter(context, store, thread.pending, activation, call)
                        }
                        _ => false,
                    }
                }
                _ => false,
            }
        }
    }
}

/// Whether a call of `MonitorEnter` waits.
/// It is checked only where another thread owns the monitor.
#[inline(never)]
fn waits_to_enter(
    context: StepContext<'_, '_>,
    store: &Store,
    pending: Option<Addr>,
    activation: &Activation,
    call: &Call,
) -> bool
    requires may_wait { (others : Acquired) × (owner : ℕ) × (own : Owners) × (shared : Shared) × (s : SourceThread)
        × (task : Task) × (rest : List Task)
        × MayWait context.program.now context.world.now store.now pending activation.now call.now others context.thread owner own
        shared s task rest }
    requires enters { call.now.function ≡ MonitorEnter }
    requires prepared { IsPrepared call.now }
    ensures { (others : Acquired) (owner : ℕ) (own : Owners) (shared : Shared) (s : SourceThread)
        (task : Task) (rest : List Task)
        → MayWait context.entry.program.now context.entry.world.now store.now pending activation.now call.now others context.entry.thread owner own
        shared s task rest
        → result ≡ waits_with context.entry.world.now.classes context.entry.thread shared s (effect_of (sight_of shared s) task) }
{
    let scene = scene_of(context, store, pending, activation);
    match argument(&scene, call, 0) {
        Some(addr) => {
            is_busy(
                store
                    .monitors
                    .entering(store.heap.birth_of(addr), context.thread),
            ) && check(&scene, &activation.locals, call).is_none()
        }
        None => false,
    }
}

/// Whether another thread owns the monitor.
fn is_busy(came: Enter) -> bool
    ensures { result ≡ is_busy came }
{
    matches!(came, Enter::Busy)
}
