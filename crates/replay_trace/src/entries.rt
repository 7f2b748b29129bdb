//! Traces of journals.

ghost use Rattle.std.specs.Prelude.{◌≡◌, IfOk};
ghost use Rattle.sinks.specs.Sink.{CanFail};
ghost use Rattle.syntax.specs.Limits.{IsTree};
ghost use Rattle.syntax.specs.Views.{unit_tree};
ghost use Rattle.type_rules.specs.TypeRules.{IsWellTyped};
ghost use Rattle.replay_threads.specs.States.{AreInRange};
ghost use Rattle.replay_trace.specs.Tellings.{CanTell};
ghost use Rattle.replay_trace.specs.Traces.{WritesSome};

use crate::line::Line;
use crate::step::{Before, Doing, put_after, put_before, put_clearing};
use crate::tracker::{Lines, begun_by, calling_line, entered, next_line};
use functions::Functions;
use region_rules::Checked;
use replay::{ReplayError, start};
use replay_threads::{State, take_entry};
use semantics::{Entry, EntryKind, ObjectId};
use sinks::{Sink, SinkFailed, put_all};
use std::alloc::{AllocError, Global};
use world_values::World;

/// Which entries are told.
#[derive(Clone, Copy, PartialEq, Eq)]
pub enum Told {
    /// Each.
    Entries,
    /// Calls of functions of the JNI and of methods, entries into calls, and returns.
    Calls,
}

/// What a trace is of, beside a journal.
#[derive(Clone, Copy)]
pub struct Traced<'t> {
    pub checked: &'t Checked,
    pub world: &'t World,
    pub told: Told,
}

/// What became of an entry.
#[derive(Clone, Copy, PartialEq, Eq)]
enum Taken {
    /// Its line is to be written.
    Told,
    /// It isn't told.
    Untold,
    /// It isn't possible.
    Impossible,
}

/// Puts together what comes before the words on a step: its thread and its line.
fn put_head(line: &mut Line, thread: u8, number: usize) -> Result<(), AllocError> {
    line.text(b" T")?;
    line.number(thread)?;
    line.text(b" line ")?;
    line.number(number)?;
    line.text(b": ")
}

/// A trace under way.
#[derive(Drop)]
pub(crate) struct Telling<'t, 'a> {
    alloc: Global,
    functions: &'t Functions<'a>,
    told: Told,
    /// The state after the entries that were taken.
    state: State<'a>,
    /// The lines of the threads' next steps.
    lines: Lines,
    /// The line of the entry that was taken last.
    line: Line,
}

impl<'t, 'a> Telling<'t, 'a> {
    /// One that begins in this state.
    fn new(
        alloc: Global,
        functions: &'t Functions<'a>,
        told: Told,
        state: State<'a>,
    ) -> Telling<'t, 'a>
        requires tree { IsTree (unit_tree functions.now) }
        requires well_typed { IsWellTyped (unit_tree functions.now) }
        requires range { AreInRange state.threads.items }
        ensures { CanTell result }
    {
        Telling {
            alloc,
            functions,
            told,
            state,
            lines: Lines::new(),
            line: Line::new(alloc),
        }
    }

    /// Puts together what a step of thread `k`, at this place, is about to do.
    fn tell_before(&mut self, k: u8, place: usize) -> Result<Option<Before<'a>>, AllocError>
        requires { CanTell self.old }
        ensures { IfOk result (λ _. CanTell self.new) }
    {
        let state = &self.state;
        let Some(thread) = state.threads.get(place) else {
            return Ok(None);
        };
        let here = match thread.activation {
            Some(_) => self.lines.at(place),
            None => match entered(self.functions, thread) {
                Some(function) => function.line,
                None => 0,
            },
        };
        put_head(&mut self.line, k, here)?;
        let doing = put_before(&mut self.line, self.functions, state, thread)?;
        let ended = match doing {
            Doing::Returns(Some(_)) => calling_line(&thread.callers),
            _ => here,
        };
        Ok(Some(Before {
            doing,
            pending: thread.pending,
            begun: begun_by(self.functions, thread),
            ended,
        }))
    }

    /// Puts together what a step of the thread at this place did.
    fn tell_after(
        &mut self,
        place: usize,
        refused: bool,
        before: Before<'a>,
    ) -> Result<(), AllocError>
        requires { CanTell self.old }
        ensures { IfOk result (λ _. CanTell self.new) }
    {
        let state = &self.state;
        let Some(thread) = state.threads.get(place) else {
            return Ok(());
        };
        self.lines
            .set(place, next_line(thread, before.begun, before.ended));
        put_after(&mut self.line, state, thread, before, refused)
    }

    /// Takes the step of thread `k`, and puts its line together.
    fn tell_step(&mut self, entry: &Entry, k: u8, refused: bool) -> Result<Taken, AllocError>
        requires { CanTell self.old }
        ensures { IfOk result (λ _. CanTell self.new) }
    {
        let place = usize::from(k).saturating_sub(1);
        let Some(before) = self.tell_before(k, place)? else {
            return Ok(Taken::Impossible);
        };
        if !take_entry(self.alloc, self.functions, &mut self.state, entry)? {
            return Ok(Taken::Impossible);
        }
        self.tell_after(place, refused, before)?;
        if self.told == Told::Calls && !before.doing.is_call() {
            return Ok(Taken::Untold);
        }
        Ok(Taken::Told)
    }

    /// Clears weak references, and puts the line together.
    fn tell_clearing(&mut self, entry: &Entry, names: &[ObjectId]) -> Result<Taken, AllocError>
        requires { CanTell self.old }
        ensures { IfOk result (λ _. CanTell self.new) }
    {
        put_clearing(&mut self.line, names)?;
        if !take_entry(self.alloc, self.functions, &mut self.state, entry)? {
            return Ok(Taken::Impossible);
        }
        match self.told {
            Told::Entries => Ok(Taken::Told),
            Told::Calls => Ok(Taken::Untold),
        }
    }

    /// Takes the entry of this number, and puts its line together.
    fn tell_entry(&mut self, number: usize, entry: &Entry) -> Result<Taken, AllocError>
        requires { CanTell self.old }
        ensures { IfOk result (λ _. CanTell self.new) }
    {
        self.line.clear();
        self.line.number(number)?;
        let taken = match entry.kind() {
            EntryKind::Step { thread, refused } => self.tell_step(entry, *thread, *refused)?,
            EntryKind::Clearing(names) => self.tell_clearing(entry, names)?,
        };
        self.line.text(b"\n")?;
        Ok(taken)
    }

    /// Takes the entries, and writes their lines.
    #[tactic(auto, using(crate::proofs::TraceLemmas::starts, crate::proofs::TraceLemmas::behind, crate::proofs::TraceLemmas::written, crate::proofs::TraceLemmas::ends))]
    fn tell_entries<W: Sink>(&mut self, journal: &[Entry], out: &mut W) -> Result<(), SinkFailed>
        requires sink { CanFail (W.written out.old) }
        requires can { CanTell self.old }
        ensures { WritesSome (W.written out.old) (W.written out.new) result }
    {
        for (done, entry) in journal.iter().enumerate() {
            let Ok(taken) = self.tell_entry(done + 1, entry) else {
                return put_some(out, b"memory\n");
            };
            if taken == Taken::Impossible {
                return Ok(());
            }
            put_taken(out, &self.line, taken)?;
        }
        Ok(())
    }
}

/// Writes a text.
#[tactic(auto, using(crate::proofs::TraceLemmas::some))]
pub(crate) fn put_some<W: Sink>(out: &mut W, text: &[u8]) -> Result<(), SinkFailed>
    requires { CanFail (W.written out.old) }
    ensures { WritesSome (W.written out.old) (W.written out.new) result }
{
    put_all(out, text)
}

/// Writes the line of an entry that was taken, if it is told.
fn put_taken<W: Sink>(out: &mut W, line: &Line, taken: Taken) -> Result<(), SinkFailed>
    requires { CanFail (W.written out.old) }
    ensures { WritesSome (W.written out.old) (W.written out.new) result }
{
    match taken {
        Taken::Told => put_some(out, line.as_bytes()),
        Taken::Untold | Taken::Impossible => put_some(out, b""),
    }
}

/// Writes a line for each entry of a journal, or for those that are calls: its number, from 1, its thread, the line of its statement in
/// the program's text, and what it did. It ends at the first entry that isn't possible, and where memory is refused, with the line
/// `memory`. Nothing is written where the world doesn't go with the program.
///
/// The lines are for the reader's eye. A line is written before the next is put together, and the room of one is all that it takes
/// beside the replay's state.
pub fn trace<W: Sink>(
    alloc: Global,
    traced: Traced<'_>,
    journal: &[Entry],
    out: &mut W,
) -> Result<(), SinkFailed>
    requires { CanFail (W.written out.old) }
    ensures { WritesSome (W.written out.old) (W.written out.new) result }
{
    let Ok(functions) = Functions::of(alloc, traced.checked.items()) else {
        return put_some(out, b"memory\n");
    };
    match start(alloc, &functions, traced.world) {
        Ok(state) => {
            let mut telling = Telling::new(alloc, &functions, traced.told, state);
            telling.tell_entries(journal, out)
        }
        Err(ReplayError::Memory) => put_some(out, b"memory\n"),
        Err(_) => put_some(out, b""),
    }
}
