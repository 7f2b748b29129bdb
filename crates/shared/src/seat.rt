// The seat of a thread.
ghost use Rattle.std.specs.Prelude.{◌≡◌, ◌==◌, ◌+◌, ◌<◌, ◌≤◌, ℕ, length, Some, slice_get, IfOk, OnOk};
ghost use Rattle.std.specs.List.{list_any};
ghost use Rattle.std.specs.Option.{unwrap_or};
ghost use Rattle.crossbeam_utils.specs.Seq.{cell_view};
ghost use Rattle.shared_passes.specs.Tokens.{knower, Right, nothing};
ghost use Rattle.shared_accounts.specs.Accounts.{is_one_each, seat_in, seats_in, numbers_of};

use semantics::Printed;
use shared_accounts::lines::numbers_of;
use shared_passes::tokens::{Cell, Gives, Naming, Pass, check};
use shared_passes::view::Fate;
use std::alloc::{AllocError, Global};
use std::marker::{Model, PhantomData};
use std::sync::Wait;

const NOTHING: Fate = Fate {
    stopped: false,
    waits: false,
    full: false,
};

/// The seat of a thread. It knows the thread's account in the journal of the machine that is shared.
#[derive(Drop)]
pub struct Seat<J: Naming> {
    pub(crate) thread: u8,
    pub(crate) lines: Vec<i32>,
    pub(crate) pass: Pass,
    pub(crate) kept: Fate,
    pub(crate) of: PhantomData<J>,
}

impl<J: Naming> Model for Seat<J> {
    ghost use Rattle.std.specs.Prelude.{◌≡◌, ◌<◌, ◌≤◌, length};
    ghost use Rattle.crossbeam_utils.specs.Seq.{cell_view};
    ghost use Rattle.shared_accounts.specs.Accounts.{Sat};
    ghost use Rattle.shared_passes.specs.Tokens.{sitting};

    ghost Value = { Sat };

    ghost view = { λ s. record { thread = s.thread; account = (cell_view s.pass).account.account; kept = s.kept } };

    ghost invariant = { λ s. (0 < s.thread) × (s.thread ≤ length J.world.threads) × (s.pass.table_id ≡ J.cell)
        × (cell_view s.pass ≡ sitting s.thread (record { account = (cell_view s.pass).account.account; kept = s.kept }))
        × ((cell_view s.pass).account.account.printed ≡ s.lines.items) };
}

impl<J: Naming> Seat<J> {
    /// The number of the thread, from 1.
    pub fn thread(&self) -> u8
        ensures { result ≡ self.now.thread }
    {
        self.thread
    }

    fn is_of(&self, k: u8) -> bool
        ensures { result ≡ (self.now.thread == k) }
    {
        self.thread == k
    }

    /// The numbers that the thread has printed.
    pub(crate) fn lines(&self) -> Result<Vec<i32>, AllocError>
        ensures { IfOk result (λ lines. lines.items ≡ self.now.account.printed) }
    {
        self.lines.clone()
    }

    /// The account is the one that the keeper knows.
    pub(crate) fn agree<R: Wait>(mut self, rt: &R, cell: &Cell, keeper: &mut Pass)
        requires own { (keeper.old.table_id ≡ J.cell) × (cell.now.table.shared.table_id ≡ J.cell) }
        requires keeper { cell_view keeper.old ≡ knower (cell_view keeper.old).table (cell_view keeper.old).next }
        ensures keeper { (keeper.new.table_id ≡ J.cell) × (cell_view keeper.new ≡ cell_view keeper.old) }
        ensures thread { self.thread ≤ length J.world.threads }
        ensures is { Right (cell_view keeper.old).table self.thread (record { account = self.account; kept = self.kept }) }
    {
        check(rt, cell, keeper, &mut self.pass);
    }
}

/// Gives the seat of the next thread, which has printed these lines.
fn give<J: Naming>(cell: &Cell, keeper: &mut Pass, thread: u8, lines: Vec<i32>) -> Seat<J>
    requires own { (keeper.old.table_id ≡ J.cell) × (cell.now.table.shared.table_id ≡ J.cell) }
    requires keeper { cell_view keeper.old ≡ knower (cell_view keeper.old).table thread }
    requires fits { (0 < thread) × (thread ≤ length J.world.threads) }
    requires known { length (cell_view keeper.old).table.table ≡ length J.world.threads + 1 }
    requires lines { (unwrap_or (slice_get (cell_view keeper.old).table.table thread) nothing).printed ≡ lines.items }
    ensures keeper { (keeper.new.table_id ≡ J.cell)
        × (cell_view keeper.new ≡ knower (cell_view keeper.old).table (thread + 1)) }
    ensures seat { result ≡ seat_in (cell_view keeper.old).table.table thread }
{
    let pass = cell.split_pass::<Gives>(keeper);
    Seat {
        thread,
        lines,
        pass,
        kept: NOTHING,
        of: PhantomData,
    }
}

/// Gives the seats of all threads.
pub(crate) fn give_all<J: Naming>(
    alloc: Global,
    cell: &Cell,
    keeper: &mut Pass,
    threads: u8,
    printed: &[Printed],
) -> Result<Vec<Seat<J>>, AllocError>
    requires own { (keeper.old.table_id ≡ J.cell) × (cell.now.table.shared.table_id ≡ J.cell) }
    requires keeper { cell_view keeper.old ≡ knower (cell_view keeper.old).table 1 }
    requires fits { threads ≡ length J.world.threads }
    requires known { length (cell_view keeper.old).table.table ≡ length J.world.threads + 1 }
    requires printed { (k : ℕ) → k < length J.world.threads
        → (unwrap_or (slice_get (cell_view keeper.old).table.table (k + 1)) nothing).printed
        ≡ numbers_of printed.now (k + 1) }
    ensures keeper { OnOk result ((keeper.new.table_id ≡ J.cell)
        × (cell_view keeper.new ≡ knower (cell_view keeper.old).table (length J.world.threads + 1))) }
    ensures seats { IfOk result (λ seats. seats.items
        ≡ seats_in (cell_view keeper.old).table.table (length J.world.threads)) }
{
    let mut seats = Vec::new(alloc);
    for k in 0..threads {
        let lines = numbers_of(alloc, printed, k + 1)?;
        seats.push(give(cell, keeper, k + 1, lines))?;
    }
    Ok(seats)
}

fn sits<J: Naming>(seats: &[Seat<J>], k: u8) -> bool
    ensures { result ≡ list_any (λ s. s.thread == k) seats.now }
{
    seats.iter().any(|seat| seat.is_of(k))
}

/// Whether there is one seat for each thread, and no other.
pub(crate) fn one_each<J: Naming>(threads: u8, seats: &[Seat<J>]) -> bool
    ensures { result ≡ is_one_each threads seats.now }
{
    if seats.len() != usize::from(threads) {
        return false;
    }
    for k in 0..threads {
        if !sits(seats, k + 1) {
            return false;
        }
    }
    true
}
