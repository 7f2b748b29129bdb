// One worker thread a seat.
ghost use Rattle.std.specs.Prelude.{◌≡◌, ◌<◌, ◌≤◌, true, false, IfOk, IsSome, length};
ghost use Rattle.machine.specs.Run.{replay_of};
ghost use Rattle.crossbeam_utils.specs.Seq.{cell_view};
ghost use Rattle.shared_accounts.specs.Accounts.{is_one_each};
ghost use Rattle.shared_passes.specs.Tokens.{knower, unknown};
ghost use Rattle.shared.specs.Work.{VerdictHolds};

use crate::lock::Shared;
use crate::seat::Seat;
use machine::{Machine, Turn};
use shared_passes::tokens::{Cell, Naming, Pass, new_cell};
use std::alloc::{AllocError, Global};
use std::marker::Brand;
use std::sync::Wait;
use std::sync::atomic::{AtomicBool, Ordering};
use std::thread;
use std::thread::Threads;

/// Asked before each turn of a worker.
pub trait Gate {
    /// Whether the worker of this seat, counted from 1, may go on. It may wait.
    fn pass(&self, seat: usize) -> bool;
}

/// How the workers' runs ended: the first of these that applies.
#[derive(Clone, Copy, PartialEq, Eq, Debug)]
pub enum Verdict {
    /// A worker was refused memory.
    NoMemory,
    /// No thread can take a step any more.
    Done,
    /// The journal has no room for another step.
    Full,
    /// A gate answered false.
    Stalled,
}

/// What workers tell one another.
#[derive(Drop)]
struct Signs {
    /// A worker was refused memory.
    no_memory: AtomicBool,
    /// A worker has ended though its thread may own a monitor.
    left: AtomicBool,
}

impl Signs {
    fn new() -> Signs {
        Signs {
            no_memory: AtomicBool::new(false),
            left: AtomicBool::new(false),
        }
    }

    fn leave(&self) {
        self.left.store(true, Ordering::SeqCst);
    }

    fn has_left(&self) -> bool {
        self.left.load(Ordering::SeqCst)
    }
}

/// Whether a worker that was given this answer takes another turn.
fn goes_on(signs: &Signs, answer: Result<Turn, AllocError>) -> bool {
    match answer {
        Ok(Turn::Stepped | Turn::Short) => true,
        Ok(Turn::Blocked(false)) => {
            thread::yield_now();
            !signs.has_left()
        }
        Ok(Turn::Full) => {
            signs.leave();
            false
        }
        Ok(Turn::Stopped | Turn::Ended | Turn::Blocked(true)) => false,
        Err(_) => {
            signs.no_memory.store(true, Ordering::SeqCst);
            signs.leave();
            false
        }
    }
}

/// Takes the turns of a seat.
fn serve<J: Naming, G: Gate, R: Wait>(
    rt: &R,
    shared: &Shared<'_, J>,
    mut seat: Seat<J>,
    gate: &G,
    signs: &Signs,
) {
    for _ in rt.forever() {
        if !gate.pass(usize::from(seat.thread())) {
            signs.leave();
            return;
        }
        let answer = shared.turn(rt, &mut seat);
        if !goes_on(signs, answer) {
            return;
        }
    }
}

/// Runs a worker for each seat, at once. Whether each could be started.
fn serve_all<J: Naming + Send + Sync, G: Gate + Sync, R: Threads + Wait + Sync>(
    rt: &R,
    shared: &Shared<'_, J>,
    seats: Vec<Seat<J>>,
    gate: &G,
    signs: &Signs,
) -> bool {
    thread::scope(thread::scope_env(), rt, |scope| {
        let mut started = true;
        for seat in seats {
            if scope
                .spawn(move || serve(rt, shared, seat, gate, signs))
                .is_err()
            {
                signs.leave();
                started = false;
            }
        }
        started
    })
}

/// The verdict, by whether a worker was refused memory.
fn judge(machine: &Machine<'_>, no_memory: bool) -> Verdict
    ensures { VerdictHolds machine.now result }
{
    if no_memory {
        Verdict::NoMemory
    } else if machine.finished() {
        Verdict::Done
    } else if machine.is_full() {
        Verdict::Full
    } else {
        Verdict::Stalled
    }
}

impl<'a, J: Naming + Send + Sync> Shared<'a, J> {
    /// Runs a worker thread for each seat, and hands the machine back. `Err` says that a worker couldn't be started.
    pub fn work<G: Gate + Sync, R: Threads + Wait + Sync>(
        self,
        rt: &R,
        seats: Vec<Seat<J>>,
        gate: &G,
    ) -> Result<(Machine<'a>, Verdict), AllocError>
        requires one_each { is_one_each (length J.world.threads) seats.items ≡ true }
        ensures unit { IfOk result (λ r. r.0.unit ≡ J.unit) }
        ensures world { IfOk result (λ r. r.0.world ≡ J.world) }
        ensures runs { IfOk result (λ r. IsSome (replay_of r.0)) }
        ensures verdict { IfOk result (λ r. VerdictHolds r.0 r.1) }
    {
        let signs = Signs::new();
        if !serve_all(rt, &self, seats, gate, &signs) {
            return Err(AllocError);
        }
        let machine = self.into_machine();
        let verdict = judge(&machine, signs.no_memory.load(Ordering::SeqCst));
        Ok((machine, verdict))
    }
}

/// Lets workers run a machine, with a name for what is shared.
/// The machine is dropped where there is no memory for the seats, too.
fn run_named<'a, J: Naming + Send + Sync, G: Gate + Sync, R: Threads + Wait + Sync>(
    rt: &R,
    alloc: Global,
    cell: Cell,
    keeper: Pass,
    machine: Machine<'a>,
    gate: &G,
) -> Result<(Machine<'a>, Verdict), AllocError>
    requires cell { cell.table.shared.table_id ≡ J.cell }
    requires keeper { (keeper.table_id ≡ J.cell) × (cell_view keeper ≡ knower unknown 0) }
    requires unit { machine.unit ≡ J.unit }
    requires world { machine.world ≡ J.world }
    ensures unit { IfOk result (λ r. r.0.unit ≡ J.unit) }
    ensures world { IfOk result (λ r. r.0.world ≡ J.world) }
    ensures runs { IfOk result (λ r. IsSome (replay_of r.0)) }
    ensures verdict { IfOk result (λ r. VerdictHolds r.0 r.1) }
{
    match Shared::<'a, J>::new(alloc, cell, keeper, machine) {
        Ok((shared, seats)) => shared.work(rt, seats, gate),
        Err(_) => Err(AllocError),
    }
}

/// Runs a worker thread for each thread of the machine, and hands it back.
/// `Err` says that a worker couldn't be started, or that there was no memory for the seats.
pub fn run_workers<'a, G: Gate + Sync, R: Threads + Wait + Sync>(
    rt: &R,
    alloc: Global,
    machine: Machine<'a>,
    gate: &G,
) -> Result<(Machine<'a>, Verdict), AllocError>
    ensures unit { IfOk result (λ r. r.0.unit ≡ machine.entry.unit) }
    ensures world { IfOk result (λ r. r.0.world ≡ machine.entry.world) }
    ensures runs { IfOk result (λ r. IsSome (replay_of r.0)) }
    ensures verdict { IfOk result (λ r. VerdictHolds r.0 r.1) }
{
    let (cell, keeper) = new_cell(alloc)?;
    run_named::<Brand, G, R>(rt, alloc, cell, keeper, machine, gate)
}
