// The cell that ties the seats to what lies under the lock.
ghost use Rattle.std.specs.Prelude.{◌≡◌, ◌≢◌, ℕ, List, IfOk};
ghost use Rattle.crossbeam_utils.specs.Seq.{IsSamePass, cell_view};
ghost use Rattle.shared_passes.specs.Tokens.{hosting, knower, unknown, sitting, Right};
ghost use Rattle.shared_passes.specs.declared.view.Claim.{Claim};

use crate::view::{Fate, View};
use atomic_table::{Join, Split};
use crossbeam_utils::atomic::seq_cell::{Pass as CellPass, RuledSeqCell};
use crossbeam_utils::rule::{Outcome, Protocol};
use std::alloc::{AllocError, Global};
use std::marker::Brand;
use std::sync::Wait;

/// Names what is shared: its cell, and the program and the world of the machine. A call of a program picks it.
pub trait Naming {
    ghost use Rattle.atomic_table.specs.Seated.{TableId};
    ghost use Rattle.std.specs.Prelude.{List};
    ghost use Rattle.syntax.specs.declared.unit.Item.{Item};
    ghost use Rattle.semantics.specs.World.{World};

    ghost cell: { TableId };

    ghost unit: { List Item };

    ghost world: { World };
}

impl Naming for Brand {
    ghost use Rattle.std.specs.Prelude.{[], false};
    ghost use Rattle.shared_passes.specs.Tokens.{no_cell};

    ghost cell = { no_cell };

    ghost unit = { [] };

    ghost world = { record { heap_line = 0; methods = false; cells = 0; classes = []; objects = []; threads = [] } };
}

/// What the accounts become.
pub trait Becomes {
    ghost use Rattle.shared_passes.specs.declared.view.Known.{Known};
    ghost use Rattle.shared_passes.specs.declared.view.Claim.{Claim};

    ghost table: { Known };

    ghost account: { Claim };
}

impl Becomes for Brand {
    ghost use Rattle.shared_passes.specs.Tokens.{unknown, no_claim};

    ghost table = { unknown };

    ghost account = { no_claim };
}

// The words mean nothing.
pub struct Law;

impl Protocol<[u64; 1], View> for Law {
    ghost use Rattle.shared_passes.specs.Tokens.{knower, unknown, Kept};

    ghost holds = { Kept };

    ghost first = { knower unknown 0 };
}

pub struct Opens<E: Becomes> {
    of: std::marker::PhantomData<E>,
}

impl<E: Becomes> Split<View> for Opens<E> {
    ghost use Rattle.shared_passes.specs.Tokens.{knower, nobody};

    ghost left = { λ v. knower E.table 1 };

    ghost right = { λ v. nobody };
}

pub struct Gives;

impl Split<View> for Gives {
    ghost use Rattle.shared_passes.specs.Tokens.{kept_after, seat_after};

    ghost left = { kept_after };

    ghost right = { seat_after };
}

pub struct LetsGo;

impl Split<View> for LetsGo {
    ghost use Rattle.shared_passes.specs.Tokens.{knower, unknown, sitting, Right};
    ghost use Rattle.shared_passes.specs.declared.view.Claim.{Claim};

    ghost left = { λ v. knower v.table v.next };

    ghost right = { λ v. sitting v.thread v.account };
}

pub struct Leaves;

impl Split<View> for Leaves {
    ghost use Rattle.shared_passes.specs.Tokens.{nobody, sitting};

    ghost left = { λ v. nobody };

    ghost right = { λ v. sitting v.thread v.account };
}

pub struct Takes;

impl Join<View> for Takes {
    ghost use Rattle.shared_passes.specs.Tokens.{both_of, nobody};

    ghost both = { both_of };

    ghost spent = { nobody };
}

pub struct Settles<E: Becomes> {
    of: std::marker::PhantomData<E>,
}

impl<E: Becomes> Outcome<[u64; 1], View> for Settles<E> {
    ghost use Rattle.shared_passes.specs.Tokens.{Settled};

    ghost then = { Settled E.table E.account };
}

pub struct Checks;

impl Outcome<[u64; 1], View> for Checks {
    ghost use Rattle.shared_passes.specs.Tokens.{Checked};

    ghost then = { Checked };
}

pub type Cell = RuledSeqCell<[u64; 1], View, Law, 1>;

/// A pass of the cell: the keeper's, or a seat's.
pub type Pass = CellPass<[u64; 1], View>;

/// A new cell, with its first pass.
pub fn new_cell(alloc: Global) -> Result<(Cell, Pass), AllocError>
    ensures { IfOk result (λ r. (r.1.table_id ≡ r.0.table.shared.table_id) × (cell_view r.1 ≡ knower unknown 0)) }
{
    Cell::ruled(alloc, [0])
}

/// The keeper takes in what the pass of a seat knows.
fn take_in(cell: &Cell, keeper: &mut Pass, seat: &mut Pass)
    requires own { (keeper.old.table_id ≡ cell.now.table.shared.table_id)
        × (seat.old.table_id ≡ cell.now.table.shared.table_id) }
    requires keeper { cell_view keeper.old ≡ knower (cell_view keeper.old).table (cell_view keeper.old).next }
    requires seat { cell_view seat.old ≡ sitting (cell_view seat.old).thread (cell_view seat.old).account }
    ensures own { keeper.new.table_id ≡ keeper.old.table_id }
    ensures hosts { cell_view keeper.new
        ≡ hosting (cell_view keeper.old).table (cell_view keeper.old).next
        (cell_view seat.old).thread (cell_view seat.old).account }
{
    let pass = cell.split_pass::<Leaves>(seat);
    cell.join_pass::<Takes>(keeper, pass);
}

/// The keeper learns that the account of the seat that it has taken in is right, and what it is now.
fn hear<E: Becomes, R: Wait>(rt: &R, cell: &Cell, keeper: &mut Pass)
    requires own { keeper.old.table_id ≡ cell.now.table.shared.table_id }
    requires hosts { cell_view keeper.old
        ≡ hosting (cell_view keeper.old).table (cell_view keeper.old).next
        (cell_view keeper.old).thread (cell_view keeper.old).account }
    requires here { Right (cell_view keeper.old).table (cell_view keeper.old).thread (cell_view keeper.old).account
        → Right E.table (cell_view keeper.old).thread E.account }
    requires others { (j : ℕ) (c : Claim) → j ≢ (cell_view keeper.old).thread → Right (cell_view keeper.old).table j c
        → Right E.table j c }
    ensures own { keeper.new.table_id ≡ keeper.old.table_id }
    ensures was { Right (cell_view keeper.old).table (cell_view keeper.old).thread (cell_view keeper.old).account }
    ensures hosts { cell_view keeper.new
        ≡ hosting E.table (cell_view keeper.old).next (cell_view keeper.old).thread E.account }
{
    cell.load_as::<Settles<E>, R>(rt, keeper);
}

/// The pass of the seat that the keeper has taken in.
fn let_go(cell: &Cell, keeper: &mut Pass) -> Pass
    requires own { keeper.old.table_id ≡ cell.now.table.shared.table_id }
    requires hosts { cell_view keeper.old
        ≡ hosting (cell_view keeper.old).table (cell_view keeper.old).next
        (cell_view keeper.old).thread (cell_view keeper.old).account }
    ensures keeper { (keeper.new.table_id ≡ keeper.old.table_id)
        × (cell_view keeper.new ≡ knower (cell_view keeper.old).table (cell_view keeper.old).next) }
    ensures seat { (result.table_id ≡ keeper.old.table_id)
        × (cell_view result ≡ sitting (cell_view keeper.old).thread (cell_view keeper.old).account) }
{
    cell.split_pass::<LetsGo>(keeper)
}

/// The keeper takes in a seat's pass, learns that its account is right, and gives it back with the new one.
pub fn settle<E: Becomes, M, R: Wait>(
    rt: &R,
    cell: &Cell,
    keeper: &mut Pass,
    seat: &mut Pass,
    _machine: &M,
    _thread: u8,
    _kept: Fate,
)
    requires own { (keeper.old.table_id ≡ cell.now.table.shared.table_id)
        × (seat.old.table_id ≡ cell.now.table.shared.table_id) }
    requires keeper { cell_view keeper.old ≡ knower (cell_view keeper.old).table (cell_view keeper.old).next }
    requires seat { cell_view seat.old ≡ sitting (cell_view seat.old).thread (cell_view seat.old).account }
    requires here { Right (cell_view keeper.old).table (cell_view seat.old).thread (cell_view seat.old).account
        → Right E.table (cell_view seat.old).thread E.account }
    requires others { (j : ℕ) (c : Claim) → j ≢ (cell_view seat.old).thread → Right (cell_view keeper.old).table j c
        → Right E.table j c }
    ensures was { Right (cell_view keeper.old).table (cell_view seat.old).thread (cell_view seat.old).account }
    ensures keeper { (keeper.new.table_id ≡ keeper.old.table_id)
        × (cell_view keeper.new ≡ knower E.table (cell_view keeper.old).next) }
    ensures seat { (seat.new.table_id ≡ cell.now.table.shared.table_id)
        × (cell_view seat.new ≡ sitting (cell_view seat.old).thread E.account) }
{
    take_in(cell, keeper, seat);
    hear::<E, R>(rt, cell, keeper);
    *seat = let_go(cell, keeper);
}

/// The keeper learns the accounts, before a seat is given.
pub fn open<E: Becomes, M>(cell: &Cell, keeper: &mut Pass, _machine: &M)
    requires own { keeper.old.table_id ≡ cell.now.table.shared.table_id }
    requires first { cell_view keeper.old ≡ knower unknown 0 }
    ensures { (keeper.new.table_id ≡ keeper.old.table_id) × (cell_view keeper.new ≡ knower E.table 1) }
{
    let _nobody = cell.split_pass::<Opens<E>>(keeper);
}

/// The keeper takes in a seat's pass, and learns that its account is right.
pub fn check<R: Wait>(rt: &R, cell: &Cell, keeper: &mut Pass, seat: &mut Pass)
    requires own { (keeper.old.table_id ≡ cell.now.table.shared.table_id)
        × (seat.old.table_id ≡ cell.now.table.shared.table_id) }
    requires keeper { cell_view keeper.old ≡ knower (cell_view keeper.old).table (cell_view keeper.old).next }
    requires seat { cell_view seat.old ≡ sitting (cell_view seat.old).thread (cell_view seat.old).account }
    ensures is { Right (cell_view keeper.old).table (cell_view seat.old).thread (cell_view seat.old).account }
    ensures keeper { (keeper.new.table_id ≡ keeper.old.table_id) × (cell_view keeper.new ≡ cell_view keeper.old) }
{
    take_in(cell, keeper, seat);
    cell.load_as::<Checks, R>(rt, keeper);
}
