//! What a call does to the store, and which exception is pending then.

ghost use Rattle.std.specs.Prelude.{◌≡◌, ◌+◌, ◌-◌, ◌<◌, ◌≤◌, ◌^◌, length, nat_le, slice_get, true, false, IfOk, OnOk, OnErr};
ghost use Rattle.base.specs.Limits.{most_references};
ghost use Rattle.heap.specs.Heap.{left_of};
ghost use Rattle.tables.specs.Locals.{capacities, ensured, popped};
ghost use Rattle.machine_answers.specs.Answers.{is_carried};
ghost use Rattle.machine_calls.specs.Barrier.{IsNoted, written_by};
ghost use Rattle.machine_calls.specs.CallState.{ChangesBuffers, ChangesSlots, IsAsBefore, state_of};
ghost use Rattle.machine_calls.specs.CarriedOut.{CarriesOutAnswer, CarriesOutBuffers, CarriesOutMonitors, CarriesOutReferences, CopiesStay, HasAnswer, HasAnswerOfBuffers, HasAnswerOfMonitors, HasAnswerOfReferences, IsNewCopy, IsNoCopy, buffers_after, failed, is_of_buffers, is_of_frames, is_of_monitors, is_of_references, slots_after, takes_memory};
ghost use Rattle.machine_calls.specs.Made.{cells_of};
ghost use Rattle.machine_scenes.specs.NewObjects.{texts_in};
ghost use Rattle.machine_answers.specs.declared.answer.Given.TheVariants.{Number};

use crate::barrier::{note, note_given, note_pending};
use crate::make::{can_raise, make, raise};
use classes::table::ClassTable;
use code::instr::Call;
use heap::{Addr, Heap};
use jni::ResultKind;
use machine_answers::answer::{Answer, Given};
use machine_answers::buffers::{acquire_copy, acquire_view, release};
use machine_answers::copies::{copy_in, copy_out};
use machine_scenes::activation::Activation;
use machine_scenes::buffer::Buffer;
use machine_scenes::new_object::New;
use machine_scenes::statics::{
    StaticReference, delete_global, delete_weak, make_global, make_weak,
};
use machine_scenes::store::Store;
use std::alloc::AllocError;
use tables::{Locals, TableFault};
use world_values::World;

/// A call that is made.
#[derive(Clone, Copy)]
pub struct Calling<'a> {
    pub world: &'a World,
    pub call: &'a Call,
    /// The number of the thread that makes it, from 1.
    pub thread: u8,
    /// The owner of what it copies.
    pub owner: u16,
}

/// What a call gives, and whether its allocation was refused.
#[derive(Clone, Copy)]
pub struct Carried {
    pub given: Given,
    pub refused: bool,
}

/// Whether what an answer makes, of a call with these texts, has room in the heap.
pub fn has_room(classes: &ClassTable, texts: &[Vec<u8>], heap: &Heap, answer: &Answer) -> bool
    ensures { result ≡ nat_le (cells_of classes.now (texts_in texts.now) answer.now) (left_of heap.now) }
{
    match *answer {
        Answer::Makes(new) => new.cells(classes, texts) <= heap.left(),
        Answer::Throws(class) => New::Fresh(class).cells(classes, texts) <= heap.left(),
        Answer::Raises { class, text: place } => can_raise(classes, texts, heap, class, place),
        _ => true,
    }
}

/// Does to the store and to an activation's frames and slots what a call answers. An object or an exception is refused
/// exactly where it has no room in the heap: then the OutOfMemoryError object is pending, and the call fails. Local arrays are
/// in the number slots.
///
/// An error says that host memory for a frame, a global reference, weak or not, or a copy of elements was refused; then all is as
/// before.
#[inline(always)]
pub fn carry_out(
    calling: Calling<'_>,
    store: &mut Store,
    pending: &mut Option<Addr>,
    activation: &mut Activation,
    answer: Answer,
) -> Result<Carried, AllocError>
    requires possible { HasAnswer calling (state_of store.old pending.old activation.old) answer }
    requires few { store.old.births + 2 < 2 ^ 32 }
    requires runs { is_carried answer ≡ true }
    ensures carried { IfOk result (CarriesOutAnswer calling.entry (state_of store.old pending.old activation.old)
        (state_of store.new pending.new activation.new) answer) }
    ensures barrier { OnOk result (IsNoted (written_by answer) store.old.heap store.new.heap) }
    ensures numbers { OnOk result (activation.new.slots.numbers.items
        ≡ slots_after store.old.heap answer activation.old.slots.numbers.items) }
    ensures buffers { OnOk result (activation.new.slots.buffers.items
        ≡ buffers_after answer activation.old.slots.buffers.items) }
    ensures stays { OnOk result (ChangesSlots activation.old activation.new) }
    ensures copies { OnOk result (CopiesStay answer store.old.elements store.new.elements) }
    ensures new_copy { IfOk result (λ carried. IsNewCopy store.old.elements carried.given) }
    ensures kept { OnErr result (IsAsBefore (state_of store.old pending.old activation.old)
        (state_of store.new pending.new activation.new)) }
    ensures memory { OnErr result (takes_memory answer ≡ true) }
{
    // Here the proof takes up what is known of a world.
    let _ = calling.world.threads();
    let world = calling.world;
    let kind = calling.call.result;
    let texts: &[Vec<u8>] = &calling.call.texts;
    match answer {
        Answer::Gives(given) => {
            note_given(&mut store.heap, &given);
            Ok(Carried {
                given,
                refused: false,
            })
        }
        Answer::Writes {
            object: addr,
            place,
            value,
        } => {
            store.heap.set(addr, place, value);
            Ok(Carried {
                given: Given::Nothing,
                refused: false,
            })
        }
        Answer::Makes(new) => match make(world.classes(), texts, store, new) {
            Some(addr) => Ok(Carried {
                given: Given::Reference(Some(addr)),
                refused: false,
            }),
            None => Ok(refuse(world, store, pending, kind)),
        },
        Answer::Throws(class) => match make(world.classes(), texts, store, New::Fresh(class)) {
            Some(addr) => {
                *pending = Some(addr);
                Ok(Carried {
                    given: failed(kind),
                    refused: false,
                })
            }
            None => Ok(refuse(world, store, pending, kind)),
        },
        Answer::Raises { class, text: place } => {
            match raise(world.classes(), texts, store, class, place) {
                Some(exception) => {
                    *pending = Some(exception);
                    Ok(Carried {
                        given: Given::Number(0),
                        refused: false,
                    })
                }
                None => Ok(refuse(world, store, pending, kind)),
            }
        }
        Answer::CopiesOut(region) => {
            copy_out(&store.heap, &mut activation.slots.numbers, &region);
            Ok(Carried {
                given: Given::Nothing,
                refused: false,
            })
        }
        Answer::CopiesIn(region) => {
            copy_in(&mut store.heap, &activation.slots.numbers, &region);
            Ok(Carried {
                given: Given::Nothing,
                refused: false,
            })
        }
        Answer::Pends { exception, given } => {
            note_pending(&mut store.heap, &exception, &given);
            *pending = exception;
            Ok(Carried {
                given,
                refused: false,
            })
        }
        _ => match carry_out_buffers(calling, store, pending, activation, answer) {
            Ok(given) => Ok(Carried {
                given,
                refused: false,
            }),
            Err(fault) => Err(fault),
        },
    }
}

/// Does what an answer of buffers, of monitors, of references or of frames says, and gives what the call does.
#[inline(always)]
fn carry_out_buffers(
    calling: Calling<'_>,
    store: &mut Store,
    pending: &mut Option<Addr>,
    activation: &mut Activation,
    answer: Answer,
) -> Result<Given, AllocError>
    requires of_buffers { is_of_buffers answer ≡ true }
    requires possible { HasAnswerOfBuffers calling (state_of store.old pending.old activation.old) answer }
    ensures carried { IfOk result (CarriesOutBuffers calling.entry (state_of store.old pending.old activation.old)
        (state_of store.new pending.new activation.new) answer) }
    ensures barrier { OnOk result (IsNoted (written_by answer) store.old.heap store.new.heap) }
    ensures buffers { OnOk result (activation.new.slots.buffers.items ≡ buffers_after answer activation.old.slots.buffers.items) }
    ensures stays { ChangesBuffers activation.old activation.new }
    ensures copies { OnOk result (CopiesStay answer store.old.elements store.new.elements) }
    ensures new_copy { IfOk result (IsNewCopy store.old.elements) }
    ensures kept { OnErr result (IsAsBefore (state_of store.old pending.old activation.old)
        (state_of store.new pending.new activation.new)) }
    ensures memory { OnErr result (takes_memory answer ≡ true) }
{
    match answer {
        Answer::AcquiresCopy(object) => {
            let alloc = *store.loaded.allocator();
            let buffer = acquire_copy(
                alloc,
                &store.heap,
                &mut store.elements,
                calling.owner,
                object,
            )?;
            Ok(Given::Buffer(buffer))
        }
        Answer::AcquiresView(object) => {
            let buffer = acquire_view(&mut store.heap, &mut store.views, object);
            Ok(Given::Buffer(buffer))
        }
        Answer::Releases(released) => {
            release(
                &mut store.heap,
                &mut store.elements,
                &mut store.views,
                &mut activation.slots.buffers,
                &released,
            );
            Ok(Given::Nothing)
        }
        _ => carry_out_monitors(calling, store, pending, &mut activation.locals, answer),
    }
}

/// Does what an answer of monitors, of references or of frames says, and gives what the call does.
#[inline(always)]
fn carry_out_monitors(
    calling: Calling<'_>,
    store: &mut Store,
    pending: &mut Option<Addr>,
    locals: &mut Locals,
    answer: Answer,
) -> Result<Given, AllocError>
    requires of_monitors { is_of_monitors answer ≡ true }
    requires possible { HasAnswerOfMonitors calling store.old pending.old locals.old answer }
    ensures carried { IfOk result (CarriesOutMonitors calling.entry store.old store.new pending.old pending.new
        locals.old locals.new answer) }
    ensures barrier { OnOk result (IsNoted (written_by answer) store.old.heap store.new.heap) }
    ensures elements { store.new.elements ≡ store.old.elements }
    ensures no_copy { IfOk result IsNoCopy }
    ensures kept { OnErr result ((store.new ≡ store.old) × (pending.new ≡ pending.old) × (locals.new ≡ locals.old)) }
    ensures memory { OnErr result (takes_memory answer ≡ true) }
{
    match answer {
        Answer::Enters(object) => {
            store.monitors.enter(object, calling.thread)?;
            Ok(Given::Number(0))
        }
        Answer::Exits(name) => {
            store.monitors.exit(name, calling.thread);
            Ok(Given::Number(0))
        }
        _ => carry_out_references(calling.world, store, pending, locals, answer),
    }
}

/// Does to the references of the store and of a call what an answer of references or of frames says, and gives what the call
/// does.
#[inline(always)]
fn carry_out_references(
    world: &World,
    store: &mut Store,
    pending: &mut Option<Addr>,
    locals: &mut Locals,
    answer: Answer,
) -> Result<Given, AllocError>
    requires of_references { is_of_references answer ≡ true }
    requires possible { HasAnswerOfReferences world.now store.old pending.old locals.old answer }
    ensures carried { IfOk result (CarriesOutReferences world.now store.old store.new pending.old pending.new
        locals.old locals.new answer) }
    ensures barrier { OnOk result (IsNoted (written_by answer) store.old.heap store.new.heap) }
    ensures elements { store.new.elements ≡ store.old.elements }
    ensures no_copy { IfOk result IsNoCopy }
    ensures kept { OnErr result ((store.new ≡ store.old) × (pending.new ≡ pending.old) × (locals.new ≡ locals.old)) }
{
    match answer {
        Answer::Deletes(key) => {
            locals.delete(key).unwrap();
            Ok(Given::Nothing)
        }
        Answer::MakesGlobal(reference) => {
            let written = reference;
            let held = make_global(&mut store.globals, reference)?;
            note(&mut store.heap, &written);
            Ok(Given::Global(held))
        }
        Answer::DeletesGlobal(slot) => {
            delete_global(&mut store.statics, &mut store.globals, slot);
            Ok(Given::Nothing)
        }
        Answer::MakesWeak(reference) => {
            let written = reference;
            let held = make_weak(&mut store.weaks, reference)?;
            note(&mut store.heap, &written);
            Ok(Given::Global(held))
        }
        Answer::DeletesWeak(slot) => {
            delete_weak(&mut store.statics, &mut store.weaks, slot);
            Ok(Given::Nothing)
        }
        _ => carry_out_frames(world, store, pending, locals, answer),
    }
}

/// Does to a call's frames what an answer of frames says, and gives what the call does. Of the store only a marking that is under
/// way changes.
#[inline(always)]
fn carry_out_frames(
    world: &World,
    store: &mut Store,
    pending: &mut Option<Addr>,
    locals: &mut Locals,
    answer: Answer,
) -> Result<Given, AllocError>
    requires of_frames { is_of_frames answer ≡ true }
    requires possible { HasAnswerOfReferences world.now store.old pending.old locals.old answer }
    ensures carried { IfOk result (CarriesOutReferences world.now store.old store.new pending.old pending.new
        locals.old locals.new answer) }
    ensures barrier { OnOk result (IsNoted (written_by answer) store.old.heap store.new.heap) }
    ensures elements { store.new.elements ≡ store.old.elements }
    ensures no_copy { IfOk result IsNoCopy }
    ensures kept { OnErr result ((store.new ≡ store.old) × (pending.new ≡ pending.old) × (locals.new ≡ locals.old)) }
{
    match answer {
        Answer::Ensures(more) => {
            if ensure_room(locals, more) {
                Ok(Given::Number(0))
            } else {
                Ok(refuse_frames(world, store, pending))
            }
        }
        Answer::Pushes(capacity) => {
            match locals.push(capacity) {
                Ok(()) => Ok(Given::Number(0)),
                Err(TableFault::Full) => Ok(refuse_frames(world, store, pending)),
                Err(_) => Err(AllocError),
            }
        }
        Answer::RefusesFrames => Ok(refuse_frames(world, store, pending)),
        Answer::Pops(reference) => {
            pop_frame(locals);
            note(&mut store.heap, &reference);
            Ok(Given::Reference(reference))
        }
        _ => unreachable!(),
    }
}

/// Gives the current frame, if there is one, room for this many further references. Says whether it has it.
fn ensure_room(locals: &mut Locals, more: u32) -> bool
    ensures none { length locals.old.frames ≡ 0 → (result ≡ true) × (locals.new ≡ locals.old) }
    ensures had { 0 < length locals.old.frames → result ≡ true
        → (locals.new ≡ ensured locals.old more) × (capacities (ensured locals.old more) ≤ most_references) }
    ensures refused { result ≡ false → (0 < length locals.old.frames) × (locals.new ≡ locals.old)
        × (most_references < capacities (ensured locals.old more)) }
{
    if locals.frames() == 0 {
        return true;
    }
    match locals.ensure(more) {
        Ok(()) => true,
        Err(_) => false,
    }
}

/// Ends the current frame, if there is one.
fn pop_frame(locals: &mut Locals)
    ensures none { length locals.old.frames ≡ 0 → locals.new ≡ locals.old }
    ensures some { 0 < length locals.old.frames → locals.new ≡ popped locals.old }
{
    if locals.frames() > 0 {
        locals.pop();
    }
}

/// The OutOfMemoryError object, which is made right after the class objects.
fn out_of_memory(world: &World, store: &Store) -> Option<Addr>
    ensures { result ≡ slice_get store.now.loaded.items (length world.now.classes) }
{
    store.loaded.get(world.classes().len()).copied()
}

/// The current frame gets no more room: -4, which is `JNI_ENOMEM`, is given, and the OutOfMemoryError object is pending.
fn refuse_frames(world: &World, store: &Store, pending: &mut Option<Addr>) -> Given
    ensures given { result ≡ Number (2 ^ 32 - 4) }
    ensures pending { pending.new ≡ slice_get store.now.loaded.items (length world.now.classes) }
{
    *pending = out_of_memory(world, store);
    Given::Number(u32::MAX - 3)
}

/// The OutOfMemoryError object is pending, and the call fails.
fn refuse(world: &World, store: &Store, pending: &mut Option<Addr>, kind: ResultKind) -> Carried
    ensures carried { result ≡ record { given = failed kind; refused = true } }
    ensures pending { pending.new ≡ slice_get store.now.loaded.items (length world.now.classes) }
{
    *pending = out_of_memory(world, store);
    Carried {
        given: failed(kind),
        refused: true,
    }
}

/// What a call of this kind of result gives where it fails: NULL, -1 or nothing
/// (JNI Specification, chapter 2, "Exceptions and Error Codes").
fn failed(kind: ResultKind) -> Given
    ensures { result ≡ failed kind }
{
    match kind {
        ResultKind::NewLocal => Given::Reference(None),
        ResultKind::NewGlobal | ResultKind::NewWeak => Given::Global(StaticReference::Empty),
        ResultKind::GivesField => Given::FieldId(None),
        ResultKind::GivesMethod => Given::MethodId(None),
        ResultKind::GivesInt => Given::Number(u32::MAX),
        ResultKind::GivesFlag => Given::Number(0),
        ResultKind::GivesBuffer(_) => Given::Buffer(Buffer::Null),
        ResultKind::GivesNothing => Given::Nothing,
    }
}
