// The machine behind its lock.
ghost use Rattle.std.specs.Prelude.{◌≡◌, [], true, false, length, IfOk, IfErr, IsSome, All};
ghost use Rattle.crossbeam_utils.specs.Seq.{cell_view};
ghost use Rattle.machine.specs.Run.{replay_of};
ghost use Rattle.shared_passes.specs.Tokens.{knower, unknown};
ghost use Rattle.shared_accounts.specs.Accounts.{Agrees, is_one_each, seats_of, SeatTurn, SharedCollection, SharedSlice};

use crate::desk::Desk;
use crate::seat::{Seat, give_all, one_each};
use machine::{Machine, Turn};
use shared_passes::tokens::{Cell, Naming, Pass, open};
use std::alloc::{AllocError, Global};
use std::marker::{Brand, PhantomData};
use std::sync::{Mutex, Wait};

/// A machine behind a lock, with the cell that its seats are tied by.
#[derive(Drop)]
pub struct Shared<'a, J: Naming> {
    cell: Cell,
    desk: Mutex<Desk<'a, J>>,
    threads: u8,
    ghost counted: { threads ≡ length J.world.threads },
    ghost named: { cell.table.shared.table_id ≡ J.cell },
}

impl<'a, J: Naming> Shared<'a, J> {
    /// Puts a machine behind a lock, with a seat for each thread. `cell` is a new cell, and `keeper` its first pass.
    pub fn new(
        alloc: Global,
        cell: Cell,
        mut keeper: Pass,
        machine: Machine<'a>,
    ) -> Result<(Shared<'a, J>, Vec<Seat<J>>), Machine<'a>>
        requires cell { cell.table.shared.table_id ≡ J.cell }
        requires keeper { (keeper.table_id ≡ J.cell) × (cell_view keeper ≡ knower unknown 0) }
        requires unit { machine.unit ≡ J.unit }
        requires world { machine.world ≡ J.world }
        ensures seats { IfOk result (λ r. r.1.items ≡ seats_of machine.entry (length J.world.threads)) }
        ensures complete { IfOk result (λ r. is_one_each (length J.world.threads) r.1.items ≡ true) }
        ensures err { IfErr result (λ m. m ≡ machine.entry) }
    {
        let threads = machine.threads();
        open::<Brand, Machine<'a>>(&cell, &mut keeper, &machine);
        match give_all(alloc, &cell, &mut keeper, threads, machine.lines()) {
            Ok(seats) => {
                let desk = Mutex::new(Desk {
                    machine,
                    keeper,
                    of: PhantomData,
                });
                let shared = Shared {
                    cell,
                    desk,
                    threads,
                };
                Ok((shared, seats))
            }
            Err(_) => Err(machine),
        }
    }

    /// Lets the thread of a seat take one step. The seat's account counts the steps of its thread. Where the machine
    /// collects before the step, the journal may have a clearing of weak references before it, which is no thread's.
    pub fn turn<R: Wait>(&self, rt: &R, seat: &mut Seat<J>) -> Result<Turn, AllocError>
        ensures { SeatTurn J.unit J.world seat.old seat.new result }
    {
        self.desk.lock(rt).turn(rt, &self.cell, seat)
    }

    /// Lets the machine collect. The journal may go on with one entry, a clearing of weak references, which is no
    /// thread's step: no seat's account changes.
    /// An `Err` says that host memory was refused; then nothing has moved, and nothing is cleared.
    pub fn collect<R: Wait>(&self, rt: &R) -> Result<(), AllocError>
        ensures { SharedCollection J.unit J.world result }
    {
        self.desk.lock(rt).collect()
    }

    /// Lets the machine take a slice of a marking, and waits for the lock as a turn does. The journal may go on with one
    /// entry, a clearing of weak references, which is no thread's step: no seat's account changes.
    /// An `Err` says that host memory was refused; then nothing has changed.
    pub fn slice<R: Wait>(&self, rt: &R) -> Result<(), AllocError>
        ensures { SharedSlice J.unit J.world result }
    {
        self.desk.lock(rt).slice()
    }

    /// The numbers that the seat's thread has printed.
    pub fn lines(&self, seat: &Seat<J>) -> Result<Vec<i32>, AllocError>
        ensures { IfOk result (λ lines. lines.items ≡ seat.now.account.printed) }
    {
        seat.lines()
    }

    /// The machine, where the seats are one for each thread.
    pub fn finish<R: Wait>(
        self,
        rt: &R,
        seats: Vec<Seat<J>>,
    ) -> Result<Machine<'a>, (Shared<'a, J>, Vec<Seat<J>>)>
        ensures unit { IfOk result (λ m. m.unit ≡ J.unit) }
        ensures world { IfOk result (λ m. m.world ≡ J.world) }
        ensures runs { IfOk result (λ m. IsSome (replay_of m)) }
        ensures agree { IfOk result (λ m. All (Agrees m) seats.items) }
        ensures complete { IfOk result (λ m. is_one_each (length J.world.threads) seats.items ≡ true) }
        ensures refused { IfErr result (λ r. (r.0 ≡ self.entry) × (r.1 ≡ seats)
            × (is_one_each (length J.world.threads) seats.items ≡ false)) }
    {
        if !one_each(self.threads, seats.as_slice()) {
            return Err((self, seats));
        }
        let Shared {
            cell,
            desk,
            threads: _,
        } = self;
        Ok(desk.into_inner().close(rt, &cell, seats))
    }

    /// The machine, whatever its seats know.
    pub(crate) fn into_machine(self) -> Machine<'a>
        ensures unit { result.unit ≡ J.unit }
        ensures world { result.world ≡ J.world }
        ensures runs { IsSome (replay_of result) }
    {
        let Shared {
            cell: _,
            desk,
            threads: _,
        } = self;
        desk.into_inner().into_machine()
    }
}
