// The state that the lock protects.
ghost use Rattle.std.specs.Prelude.{◌≡◌, ℕ, ◌+◌, IfOk, OnOk, OnErr, IsSome, All};
ghost use Rattle.machine.specs.Run.{CouldStep, IsCollected, IsSliced, TurnHolds, replay_of};
ghost use Rattle.shared_accounts.specs.Accounts.{account_of, kept_after, Agrees, taken, EndsSo};

use crate::seat::Seat;
use machine::{Machine, Turn};
use shared_accounts::kept::kept_after;
use shared_accounts::lines::step_with_lines;
use shared_passes::tokens::{Cell, Naming, Pass, settle};
use std::alloc::AllocError;
use std::marker::{Brand, Model, PhantomData};
use std::sync::Wait;

/// The machine, with the pass that knows the account of each thread. To a contract it is the machine.
#[derive(Drop)]
pub struct Desk<'a, J: Naming> {
    pub(crate) machine: Machine<'a>,
    pub(crate) keeper: Pass,
    pub(crate) of: PhantomData<J>,
}

impl<'a, J: Naming> Model for Desk<'a, J> {
    ghost use Rattle.std.specs.Prelude.{◌≡◌, ◌+◌, length};
    ghost use Rattle.std.specs.Coded.{codes as all_codes};
    ghost use Rattle.syntax.specs.contracts.unit.Item as item;
    ghost use Rattle.machine.specs.Run.{Run};
    ghost use Rattle.crossbeam_utils.specs.Seq.{cell_view};
    ghost use Rattle.shared_accounts.specs.Accounts.{known_of};
    ghost use Rattle.shared_passes.specs.Tokens.{knower};

    ghost Value = { Run };

    ghost coded = { Prim.hlevel (all_codes, item.the_row.coded) };

    ghost view = { λ d. d.machine };

    ghost invariant = { λ d. (d.machine.world ≡ J.world) × (d.keeper.table_id ≡ J.cell)
        × (cell_view d.keeper ≡ knower (known_of d.machine) (length J.world.threads + 1)) × (d.machine.unit ≡ J.unit) };
}

impl<'a, J: Naming> Desk<'a, J> {
    /// Lets the thread of a seat take one step.
    pub fn turn<R: Wait>(
        &mut self,
        rt: &R,
        cell: &Cell,
        seat: &mut Seat<J>,
    ) -> Result<Turn, AllocError>
        requires { cell.now.table.shared.table_id ≡ J.cell }
        ensures unit { self.old.unit ≡ J.unit }
        ensures world { self.old.world ≡ J.world }
        ensures was { seat.old.account ≡ account_of self.old seat.old.thread }
        ensures thread { seat.new.thread ≡ seat.old.thread }
        ensures is { seat.new.account ≡ account_of self.new seat.old.thread }
        ensures turn { IfOk result (TurnHolds self.old seat.old.thread self.new) }
        ensures err { OnErr result ((self.new ≡ self.old) × CouldStep self.old seat.old.thread) }
        ensures runs { IsSome (replay_of self.new) }
        ensures kept { seat.new.kept ≡ kept_after seat.old.kept result }
        ensures counted { seat.new.account.entries ≡ seat.old.account.entries + taken result }
        ensures ended { IfOk result (EndsSo seat.new.account) }
    {
        let answer = step_with_lines(&mut self.machine, &mut seat.lines, seat.thread);
        let kept = kept_after(seat.kept, &answer);
        settle::<Brand, Machine<'a>, R>(
            rt,
            cell,
            &mut self.keeper,
            &mut seat.pass,
            &self.machine,
            seat.thread,
            kept,
        );
        seat.kept = kept;
        answer
    }

    /// Lets the machine collect. The journal may go on with a clearing of weak references; no account changes.
    pub fn collect(&mut self) -> Result<(), AllocError>
        ensures unit { self.old.unit ≡ J.unit }
        ensures world { self.old.world ≡ J.world }
        ensures accounts { (k : ℕ) → account_of self.new k ≡ account_of self.old k }
        ensures ok { OnOk result (IsCollected self.old self.new) }
        ensures err { OnErr result (self.new ≡ self.old) }
        ensures runs { IsSome (replay_of self.new) }
    {
        self.machine.collect()
    }

    /// Lets the machine take a slice of a marking. The journal may go on with a clearing of weak references; no account
    /// changes.
    pub fn slice(&mut self) -> Result<(), AllocError>
        ensures unit { self.old.unit ≡ J.unit }
        ensures world { self.old.world ≡ J.world }
        ensures accounts { (k : ℕ) → account_of self.new k ≡ account_of self.old k }
        ensures ok { OnOk result (IsSliced self.old self.new) }
        ensures err { OnErr result (self.new ≡ self.old) }
        ensures runs { IsSome (replay_of self.new) }
    {
        self.machine.slice()
    }

    /// The machine that the lock protects; the seats agree with it.
    pub fn close<R: Wait>(self, rt: &R, cell: &Cell, seats: Vec<Seat<J>>) -> Machine<'a>
        requires { cell.now.table.shared.table_id ≡ J.cell }
        ensures same { result ≡ self.entry }
        ensures unit { result.unit ≡ J.unit }
        ensures world { result.world ≡ J.world }
        ensures runs { IsSome (replay_of result) }
        ensures agree { All (Agrees result) seats.items }
    {
        let Desk {
            machine,
            mut keeper,
            of: _,
        } = self;
        let mut seats = seats;
        let _ = machine.journal();
        while let Some(seat) = seats.pop() {
            seat.agree(rt, cell, &mut keeper);
        }
        machine
    }

    /// The machine that the lock protects.
    pub fn into_machine(self) -> Machine<'a>
        ensures unit { result.unit ≡ J.unit }
        ensures world { result.world ≡ J.world }
        ensures runs { IsSome (replay_of result) }
    {
        let _ = self.machine.journal();
        self.machine
    }
}
