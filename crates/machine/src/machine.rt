//! The machine.

ghost use Rattle.std.specs.Prelude.{◌≡◌, ◌-◌, ◌*◌, ◌<◌, ◌≤◌, [], length, map, IfOk, IfErr, OnOk, OnErr, IfSome, IfNone, IsSome, None, nat_le};
ghost use Rattle.std.specs.Option.{option_map};
ghost use Rattle.base.specs.Limits.{most_entries};
ghost use Rattle.compact.specs.Slices.{slice_size};
ghost use Rattle.syntax.specs.Views.{unit_tree};
ghost use Rattle.sinks.specs.Sink.{CanFail};
ghost use Rattle.report.specs.ThreadStatus.{standing_view};
ghost use Rattle.heap.specs.Layout.{layout_of};
ghost use Rattle.semantics.specs.Load.{first_load_fault};
ghost use Rattle.semantics.specs.Object.{sizes};
ghost use Rattle.semantics.specs.Run.{MarkedAreFair, UnmarkedFit};
ghost use Rattle.semantics.specs.Views.{names_of};
ghost use Rattle.semantics.specs.World.{loaded_objects};
ghost use Rattle.machine_scenes.specs.Layouts.{laid_from};
ghost use Rattle.machine_threads.specs.Loading.{IsLoadFault};
ghost use Rattle.semantics.specs.Journal.{steps_in};
ghost use Rattle.machine.specs.Run.{replay_of, CollectionsHaveOneOutcome, Corresponds, IsCollected, IsOrderly, IsSliced, IsUnstarted, CouldStep, TurnHolds, PrintedBy, IsFinished, AllRest, Waits, ReportsRun, AreShown, ShowsObjects, ShowsStandings, StoppedBy, cells_left};

use crate::fault::ReportFault;
use crate::journal::Journal;
use crate::rows::{NamedBlocks, named_blocks};
use crate::step::turn_at_rest;
use crate::turn::Turn;
use arrayvec::ArrayVec;
use code_meaning::Program;
use compact::SLICE;
use machine_collections::collecting::collect_blocks;
use machine_collections::roots::{gather, push_viewed, root_names};
use machine_collections::slicing::slice_blocks;
use machine_scenes::store::Store;
use machine_steps::wait::waits;
use machine_threads::fault::LoadFault;
use machine_threads::load::load_threads;
use machine_threads::objects::load_store;
use machine_threads::thread::Thread;
use report::{Rows, ThreadStatus, write_run};
use report_objects::{reached_rows, standing_of};
use semantics::{ObjectId, Printed, Stop};
use semantics_safety::accepted_is_safe;
use semantics_typing::objects_are_typed;
use sinks::Sink;
use std::alloc::{AllocError, Global};
use std::marker::Model;
use world_values::World;

/// A lowered program on a world, with its journal. Its state is always the one to which the journal leads.
pub struct Machine<'a> {
    pub(crate) alloc: Global,
    pub(crate) program: Program<'a>,
    pub(crate) world: World,
    pub(crate) store: Store,
    pub(crate) threads: Vec<Thread>,
    pub(crate) printed: Vec<Printed>,
    pub(crate) stop: Option<Stop>,
    pub(crate) journal: Journal,
}

impl Drop for Machine<'_> {
    fn drop(self) {
        let Machine {
            alloc: _,
            program,
            world,
            store,
            threads,
            printed,
            stop: _,
            journal,
        } = self;
        drop(program);
        drop(world);
        drop(store);
        drop(threads);
        drop(printed);
        drop(journal);
    }
}

impl<'a> Model for Machine<'a> {
    ghost use Rattle.std.specs.Coded.{codes as all_codes};
    ghost use Rattle.syntax.specs.contracts.unit.Item as item;
    ghost use Rattle.heap.specs.Layout.{layout_of};
    ghost use Rattle.machine.specs.Run.{Run, Corresponds, slices_of};

    ghost Value = { Run };

    ghost coded = { Prim.hlevel (all_codes, item.the_row.coded) };

    ghost view = { λ m. record { unit = m.program.unit; world = m.world; journal = m.journal.entries; layout = layout_of m.store.heap; slices = slices_of m.store.heap.marking } };

    ghost invariant = { λ m. Corresponds m.program m.world m.store m.threads.items m.printed.items m.stop m.journal.entries };
}

impl<'a> Machine<'a> {
    /// A machine before its first step, which keeps the allocator for what it does later.
    ///
    /// Fault 82 exactly where the program asks for methods that the world doesn't allow, or a call of the world doesn't
    /// fit the program: its function or the function's class is unknown, or the arguments don't fit the parameters in
    /// number and kind. The objects that the world begins with lie in its heap.
    pub fn load(alloc: Global, program: Program<'a>, world: World) -> Result<Machine<'a>, LoadFault>
        ensures ok { IfOk result (IsUnstarted program.entry.unit world) }
        ensures fits { OnOk result (first_load_fault (unit_tree program.entry.unit) world ≡ None) }
        ensures left { IfOk result (λ m. cells_left m ≡ world.cells - sizes (loaded_objects world)) }
        ensures fault { IfErr result (IsLoadFault (unit_tree program.entry.unit) world) }
    {
        let (store, threads) = load_parts(alloc, &program, &world)?;
        Ok(Machine {
            alloc,
            program,
            world,
            store,
            threads,
            printed: Vec::new(alloc),
            stop: None,
            journal: Journal::new(alloc),
        })
    }

    /// What was done so far: steps, and clearings of weak global references.
    pub fn journal(&self) -> &Journal
        ensures entries { result.now.entries ≡ self.now.journal }
        ensures runs { IsSome (replay_of self.now) }
        ensures fits { UnmarkedFit (unit_tree self.now.unit) self.now.world self.now.journal }
        ensures fair { MarkedAreFair (unit_tree self.now.unit) self.now.world self.now.journal }
    {
        &self.journal
    }

    /// Whether the journal has no room for another step. Clearings don't count.
    #[inline(always)]
    pub fn is_full(&self) -> bool
        ensures { result ≡ nat_le most_entries (steps_in self.now.journal) }
    {
        self.journal.is_full()
    }

    /// How many cells of the heap are left after its highest block.
    pub fn left(&self) -> usize
        ensures left { result ≡ cells_left self.now }
        ensures orderly { IsOrderly self.now }
    {
        self.store.heap.left()
    }

    /// How many threads there are, 8 at most.
    pub fn threads(&self) -> u8
        ensures { result ≡ length self.now.world.threads }
    {
        self.threads.len() as u8
    }

    /// The numbers printed so far.
    pub fn lines(&self) -> &[Printed]
        ensures { PrintedBy self.now result.now }
    {
        &self.printed
    }

    /// Moves the objects that can still be reached together; the others are gone, and a marking that is under way is given
    /// up.
    /// What is viewed can be reached, and stays where it is, so that a view shows the present elements of its array
    /// through any collection. Weak global references to what is gone are cleared, by one entry of the journal, and
    /// there is no entry where none is.
    ///
    /// An `Err` says that host memory was refused. Nothing has moved then, and nothing is cleared.
    pub fn collect(&mut self) -> Result<(), AllocError>
        ensures ok { OnOk result (IsCollected self.old self.new) }
        ensures err { OnErr result (self.new ≡ self.old) }
        ensures runs { IsSome (replay_of self.new) }
    {
        self.journal.reserve_clearing()?;
        let cleared = collect_blocks(self.alloc, &mut self.store, &mut self.threads)?;
        self.journal.push_clearing(cleared);
        Ok(())
    }

    /// Takes one slice of a marking, and begins one where none is under way: the objects that roots name are listed then.
    /// A slice marks 64 objects of the list, or all where it runs empty before; to mark one is to list what it refers to,
    /// each object once at most. Between slices the threads step: what they write a reference to is listed, and what they
    /// make counts as marked.
    ///
    /// The slice that leaves the list empty ends the marking: it moves together what the marking keeps, and all else is
    /// gone. No object that can be reached is lost; one that can't be reached any more may be kept. Weak global references
    /// to what is gone are cleared, by one entry of the journal. A marking that no collection gives up ends with its
    /// `n / 64 + 1`st slice at the latest, where `n` objects are kept.
    ///
    /// An `Err` says that host memory was refused. Nothing has changed then, and the same slice can be asked again.
    pub fn slice(&mut self) -> Result<(), AllocError>
        ensures ok { OnOk result (IsSliced self.old self.new) }
        ensures err { OnErr result (self.new ≡ self.old) }
        ensures runs { IsSome (replay_of self.new) }
    {
        self.journal.reserve_clearing()?;
        let gone = slice_blocks(self.alloc, &mut self.store, &mut self.threads)?;
        self.journal.push_clearing(gone);
        Ok(())
    }

    /// Of the marking that is under way how many slices it has had, and how many objects they marked, 64 each; none where
    /// none is under way.
    pub fn marking(&self) -> Option<(usize, usize)>
        ensures { result ≡ option_map (λ n. (n, slice_size * n)) self.now.slices }
    {
        match self.store.heap.marked() {
            Some(marked) => Some((marked / SLICE as usize, marked)),
            None => None,
        }
    }

    /// The turn of thread `k`, counted from 1, where it has no step to take: a trap has stopped the machine, the thread
    /// has ended or waits for a monitor, or the journal is full.
    #[inline(always)]
    pub fn turn_without_step(&self, k: u8) -> Option<Turn>
        requires counted { 0 < k }
        requires is_thread { k ≤ length self.now.world.threads }
        ensures some { IfSome result (TurnHolds self.now k self.now) }
        ensures none { IfNone result (CouldStep self.now k) }
    {
        let index = usize::from(k) - 1;
        if let Some(turn) = turn_at_rest(&self.stop, &self.threads[index]) {
            return Some(turn);
        }
        if self.waits(k) {
            return Some(Turn::Blocked(self.finished()));
        }
        if self.is_full() {
            return Some(Turn::Full);
        }
        None
    }

    /// Lets thread `k`, counted from 1, take one step.
    /// Where the objects that it makes have no room, the machine collects first, and the allocation is refused where
    /// they have none then.
    ///
    /// An `Err` says that the thread could step and the journal has room, but host memory was refused, to the step or
    /// to its collection. Nothing has changed then, and the same turn can be asked again.
    #[inline(always)]
    pub fn step(&mut self, k: u8) -> Result<Turn, AllocError>
        requires counted { 0 < k }
        requires is_thread { k ≤ length self.old.world.threads }
        ensures turn { IfOk result (TurnHolds self.old k self.new) }
        ensures err { OnErr result ((self.new ≡ self.old) × CouldStep self.old k) }
        ensures runs { IsSome (replay_of self.new) }
    {
        // Here the proof takes up the machine's invariant.
        let _ = &self.world;
        if let Some(turn) = self.turn_without_step(k) {
            return Ok(turn);
        }
        self.step_now(k)
    }

    /// The trap that stopped the machine, if one did.
    pub fn stop(&self) -> Option<Stop>
        ensures { StoppedBy self.now result }
    {
        self.stop
    }

    /// Whether no thread can take a step any more. It takes no host memory.
    pub fn finished(&self) -> bool
        ensures { IsFinished self.now result }
    {
        self.stop.is_some() || self.all_rest()
    }

    /// Whether a thread, counted from 1, waits for a monitor that another one owns.
    #[inline(always)]
    pub(crate) fn waits(&self, k: u8) -> bool
        requires counted { 0 < k }
        requires is_thread { k ≤ length self.now.world.threads }
        ensures { Waits self.now k result }
    {
        let thread = &self.threads[usize::from(k) - 1];
        waits(&self.program, &self.world, &self.store, thread, k)
    }

    /// Whether each thread has ended or waits for a monitor.
    fn all_rest(&self) -> bool
        ensures { AllRest self.now result }
    {
        let mut k = 0;
        for thread in &self.threads {
            k += 1;
            if thread.ending.is_unfinished() && !self.waits(k) {
                return false;
            }
        }
        true
    }

    /// The status of each thread.
    fn standings(&self) -> ArrayVec<ThreadStatus<'_>, 8>
        ensures { ShowsStandings self.now (map standing_view result.items) }
    {
        let mut standings = ArrayVec::new();
        let mut k = 0;
        for thread in &self.threads {
            k += 1;
            let waits = self.waits(k);
            standings.push(standing_of(
                self.world.classes(),
                waits,
                self.stop,
                usize::from(k),
                thread.ending,
            ));
        }
        standings
    }

    /// Writes the report of the run and the line of its journal, and flushes the sink.
    /// The report has the objects that can still be reached. Where memory is refused, nothing is written.
    pub fn report<S: Sink>(&self, alloc: Global, sink: &mut S) -> Result<(), ReportFault>
        requires can_fail { CanFail (S.written sink.old) }
        ensures run { ReportsRun self.now (S.written sink.old) (S.written sink.new) result }
        ensures none_waits { OnOk result ((S.written sink.new).waiting ≡ 0) }
    {
        let (objects, names) = self.shown(alloc)?;
        let loaded = self.store.loaded.len();
        let rows = reached_rows(alloc, self.world.classes(), &objects, loaded, &names)?;
        self.write_rows(&rows, sink)
    }

    /// The objects by their names, and the names of those that references lead to.
    fn shown(&self, alloc: Global) -> Result<(NamedBlocks<'_>, Vec<ObjectId>), AllocError>
        ensures { IfOk result (λ parts. AreShown self.now parts.0 (names_of parts.1.items)) }
    {
        let heap = &self.store.heap;
        let objects = named_blocks(alloc, heap, self.store.births)?;
        let roots = gather(alloc, &self.store, &self.threads)?;
        let mut names = root_names(alloc, heap, &roots)?;
        push_viewed(&mut names, heap)?;
        Ok((objects, names))
    }

    /// Writes the report with these rows.
    fn write_rows<S: Sink, R: Rows>(&self, rows: &R, sink: &mut S) -> Result<(), ReportFault>
        requires can_fail { CanFail (S.written sink.old) }
        requires rows { ShowsObjects self.now (R.rows rows.now) }
        ensures run { ReportsRun self.now (S.written sink.old) (S.written sink.new) result }
        ensures none_waits { OnOk result ((S.written sink.new).waiting ≡ 0) }
    {
        let standings = self.standings();
        match write_run(
            sink,
            &self.printed,
            standings.as_slice(),
            rows,
            &self.journal,
        ) {
            Ok(()) => Ok(()),
            Err(_) => Err(ReportFault::Sink),
        }
    }
}

/// What a collection leaves is determined by what was there: a law, which computes nothing.
pub fn collections_have_one_outcome()
    ensures { CollectionsHaveOneOutcome }
{}

/// The store and the threads before the first step.
fn load_parts(
    alloc: Global,
    program: &Program<'_>,
    world: &World,
) -> Result<(Store, Vec<Thread>), LoadFault>
    ensures begins { IfOk result (λ parts. Corresponds program.now world.now parts.0 parts.1.items [] None []) }
    ensures fits { OnOk result (first_load_fault (unit_tree program.now.unit) world.now ≡ None) }
    ensures laid { IfOk result (λ parts. layout_of parts.0.heap ≡ laid_from 1 0 (loaded_objects world.now)) }
    ensures unmarked { IfOk result (λ parts. parts.0.heap.marking ≡ None) }
    ensures fault { IfErr result (IsLoadFault (unit_tree program.now.unit) world.now) }
{
    // The proof reads off this call what is known of a world.
    let _ = world.threads();
    accepted_is_safe();
    objects_are_typed();
    let store = load_store(alloc, program.items(), world)?;
    let threads = load_threads(alloc, program, world)?;
    Ok((store, threads))
}
