//! Steps that change which call is in progress, where that is seen at once and takes no host memory.

ghost use Rattle.std.specs.Prelude.{◌≡◌, true, false};
ghost use Rattle.code_meaning.specs.Lowered.{IsLowered};
ghost use Rattle.machine_steps.specs.Advances.{StandsForSome, StepsFreely};
ghost use Rattle.semantics.specs.declared.event.Event.TheVariants.{Quiet};

use crate::advance::resume;
use crate::context::StepContext;
use crate::enter::enter_again;
use crate::execute::given_by;
use crate::invoke::method_seen;
use crate::monitor::is_of_methods;
use crate::push::push_method;
use base::limits::MOST_ACTIVATIONS;
use code::instr::Instr;
use code_meaning::Program;
use machine_scenes::store::Store;
use machine_threads::thread::Thread;
use world_values::World;

/// Enters the call that the last caller has made, where the memory of one that has ended serves, and answers whether it did. Else all is as
/// before. It stands apart from the loop over steps, which is faster without its variables.
#[inline(never)]
pub fn enter_at_once(
    program: &Program<'_>,
    world: &World,
    store: &Store,
    thread: &mut Thread,
    number: u8,
) -> bool
    requires lowered { IsLowered program.now }
    requires stands { StandsForSome program.now world.now number store.now thread.old }
    ensures steps { result ≡ true
        → StepsFreely program.now world.now number store.now store.now thread.old thread.new Quiet }
    ensures kept { result ≡ false → thread.new ≡ thread.old }
    ensures ending { thread.new.ending ≡ thread.old.ending }
{
    if thread.call.is_some() {
        return false;
    }
    enter_again(program, &store.loaded, thread)
}

/// Calls the method that the call in progress is to call next, where it is seen at once that no check stops it, and answers whether it did.
/// Else all is as before. It stands apart likewise.
#[inline(never)]
pub fn call_method(
    program: &Program<'_>,
    world: &World,
    store: &Store,
    thread: &mut Thread,
    number: u8,
) -> bool
    requires lowered { IsLowered program.now }
    requires stands { StandsForSome program.now world.now number store.now thread.old }
    ensures steps { result ≡ true
        → StepsFreely program.now world.now number store.now store.now thread.old thread.new Quiet }
    ensures kept { result ≡ false → thread.new ≡ thread.old }
    ensures ending { thread.new.ending ≡ thread.old.ending }
{
    // The proof reads off this call that no object has as many elements as a `jint` can say.
    let _ = store.heap.cells();
    if thread.callers.len() + 1 >= MOST_ACTIVATIONS {
        return false;
    }
    match &thread.call {
        Some(activation) => {
            let activation = activation.get();
            let code = program.code_at(activation.function);
            match code.instr_at(activation.place) {
                Instr::Call(boxed) => {
                    let call = boxed.call();
                    if !is_of_methods(call.function) {
                        return false;
                    }
                    let context = StepContext {
                        program,
                        world,
                        thread: number,
                        may_refuse: false,
                    };
                    match method_seen(context, store, thread.pending, activation, call) {
                        Some(method) => match push_method(store, thread, call, method) {
                            Ok(()) => true,
                            Err(_) => false,
                        },
                        None => false,
                    }
                }
                _ => false,
            }
        }
        None => false,
    }
}

/// Returns from the call in progress to its caller, where there is one and a return comes next, and answers whether it did. Else all is as before.
/// It stands apart likewise.
#[inline(never)]
pub fn return_to_caller(
    program: &Program<'_>,
    world: &World,
    store: &mut Store,
    thread: &mut Thread,
    number: u8,
) -> bool
    requires lowered { IsLowered program.now }
    requires stands { StandsForSome program.now world.now number store.old thread.old }
    ensures steps { result ≡ true
        → StepsFreely program.now world.now number store.old store.new thread.old thread.new Quiet }
    ensures store { result ≡ false → store.new ≡ store.old }
    ensures kept { result ≡ false → thread.new ≡ thread.old }
    ensures ending { thread.new.ending ≡ thread.old.ending }
{
    // The proof reads off this call that no object has as many elements as a `jint` can say.
    let _ = store.heap.cells();
    if thread.callers.is_empty() {
        return false;
    }
    match &thread.call {
        Some(activation) => {
            let activation = activation.get();
            let code = program.code_at(activation.function);
            let instr = code.instr_at(activation.place);
            match instr {
                Instr::ReturnJint => {
                    let value = given_by(instr, activation);
                    resume(program, store, thread, value);
                    true
                }
                Instr::Return | Instr::ReturnReference(_) => {
                    let value = given_by(instr, activation);
                    resume(program, store, thread, value);
                    true
                }
                _ => false,
            }
        }
        None => false,
    }
}
