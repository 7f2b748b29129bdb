//! The paths through a function.

ghost use Rattle.std.specs.Prelude.{◌≡◌, ◌≤◌, ◌++◌, ℕ, List, Option, Err, map, length, OnOk, IfOk};
ghost use Rattle.std.specs.Option.{option_to_list};
ghost use Rattle.base.specs.Bytes.{Identifier};
ghost use Rattle.std.specs.List.{AllByRecursion};
ghost use Rattle.syntax.specs.Tree.{End, Plain};
ghost use Rattle.syntax.specs.Views.{block_tree, stmt_tree, test_tree, plain_tree, form_tree, function_tree, item_tree};
ghost use Rattle.region_rules.specs.RegionStates.{RegionState, state_at_entry};
ghost use Rattle.region_rules.specs.Regions.{where_true, where_false};
ghost use Rattle.regions.specs.Paths.{Found, join_paths, path_of, path_of_block};
ghost use Rattle.region_states.specs.StatesInMemory.{names_of, Grows};
ghost use Rattle.region_states.specs.NewNames.{plain_names, own_names, AreNew, DeclaresNew, DeclareNew, DeclaresOnce, ItemOnce};
ghost use Rattle.regions.specs.Findings.{Finds, fault_of, function_fault, item_fault, items_fault, items_faults};
ghost use Rattle.regions.specs.Walks.{PathOrFault, path_value, Goes, Branches, Awaits, go_on, inner_path};

use crate::fault::{CheckError, RegionFault};
use crate::joins::{Branch, Path, join, no_turn, one_path, refuse, take_else, take_then};
use crate::rules::first_broken;
use crate::telling::{end_detail, held_detail, statement_detail, unreached_detail};
use places::{Fault, Line};
use region_rules::RegionRule;
use region_states::states::{FlowState, VariableState};
use semantics::CALL_LEVEL;
use std::alloc::{AllocError, Global};
use syntax::{Block, Else, Form, Function, Item, ParameterType, PlainStmt, Stmt, Test};

/// A block's end on this line, where the block began with this many variables and its path so far is this one.
fn end(state: &mut FlowState, count: usize, path: Path, line: usize) -> Result<Path, CheckError>
    requires { count ≤ length (names_of state.old) }
    ensures goes { (outer : RegionState) → count ≡ length (names_of outer) → Grows outer state.old
        → Goes result state.new (go_on outer (path_value path state.old) (End line)) }
    ensures names { (outer : RegionState) → count ≡ length (names_of outer) → Grows outer state.old
        → IfOk result (λ _. names_of state.new ≡ names_of outer) }
{
    match path {
        Path::On => {
            if state.holds_own(count) {
                return refuse(RegionRule::HeldBuffer, line, held_detail(state, count));
            }
            state.truncate(count);
            Ok(Path::On)
        }
        Path::Returned => {
            state.truncate(count);
            Ok(Path::Returned)
        }
    }
}

/// The path after a plain statement.
#[inline(always)]
fn plain_path<'a>(state: &mut FlowState<'a>, plain: &'a PlainStmt) -> Result<Path, CheckError>
    requires { AreNew (names_of state.old) (plain_names (plain_tree plain.now)) }
    ensures goes { (line : ℕ) → Goes result state.new (inner_path state.old (Plain line (plain_tree plain.now))) }
    ensures names { IfOk result (λ _. names_of state.new ≡ names_of state.old ++ plain_names (plain_tree plain.now)) }
{
    state.pass(plain)?;
    Ok(Path::On)
}

/// The path through the block after a test that holds. The state is then that where it does not.
#[cycle(walk)]
fn then_path<'a>(
    alloc: Global,
    state: &mut FlowState<'a>,
    test: &'a Test,
    then: &'a Block,
) -> Result<Branch<'a>, CheckError>
    requires { DeclareNew (names_of state.old) (block_tree then.now) }
    ensures { Branches result state.new (path_of_block state.old (where_true state.old (test_tree test.now))
        (block_tree then.now)) (where_false state.old (test_tree test.now)) }
{
    match take_then(alloc, state, test) {
        Ok(before) => {
            let first = block_path(alloc, state, then);
            take_else(state, test, first, before)
        }
        Err(e) => Err(e),
    }
}

/// The path after this first branch and a block, which is the second.
#[cycle(walk)]
fn other_path<'a>(
    alloc: Global,
    state: &mut FlowState<'a>,
    line: usize,
    first: Result<Branch<'a>, CheckError>,
    block: &'a Block,
) -> Result<Path, CheckError>
    requires saved { Awaits first state.old }
    requires new { IfOk first (λ _. DeclareNew (names_of state.old) (block_tree block.now)) }
    ensures goes { (outer : RegionState) (expected : PathOrFault) (other : RegionState) → names_of outer ≡ names_of other
        → Branches first.entry state.old expected other
        → Goes result state.new (join_paths line expected (path_of_block outer other (block_tree block.now))) }
    ensures names { (names : List Identifier) → IfOk first.entry (λ _. names_of state.old ≡ names)
        → IfOk result (λ _. names_of state.new ≡ names) }
{
    match first {
        Ok(first) => {
            let second = block_path(alloc, state, block);
            join(state, line, first, second)
        }
        Err(e) => Err(e),
    }
}

/// The path after a statement on this line that keeps the rules itself.
#[cycle(walk)]
#[inline(never)]
fn inner_path<'a>(
    alloc: Global,
    state: &mut FlowState<'a>,
    line: usize,
    form: &'a Form,
) -> Result<Path, CheckError>
    requires { DeclaresNew (names_of state.old) (form_tree line form.now) }
    ensures goes { Goes result state.new (inner_path state.old (form_tree line form.now)) }
    ensures names { IfOk result (λ _. names_of state.new ≡ names_of state.old ++ own_names (form_tree line form.now)) }
{
    match form {
        Form::Plain(plain) => plain_path(state, plain),
        Form::If(test, b, other) => {
            let first = then_path(alloc, state, test, b);
            match other {
                Else::Nothing => one_path(state, line, first),
                Else::Block(d) => other_path(alloc, state, line, first, d),
            }
        }
        Form::While(_, b) => {
            let before = no_turn(alloc, state);
            other_path(alloc, state, line, before, b)
        }
        Form::Return(_) => Ok(Path::Returned),
    }
}

/// The fault of a statement that breaks a rule itself.
#[cold]
fn refuse_statement(state: &FlowState, stmt: &Stmt, rule: RegionRule) -> Result<Path, CheckError>
    ensures fault { (after : RegionState) → Goes result after (Err (stmt.now.line, rule)) }
    ensures never { IfOk result (λ _. ⊥) }
{
    refuse(rule, stmt.line, statement_detail(state, &stmt.form, rule))
}

/// The path after a statement.
#[cycle(walk)]
fn stmt_path<'a>(
    alloc: Global,
    state: &mut FlowState<'a>,
    stmt: &'a Stmt,
) -> Result<Path, CheckError>
    requires { DeclaresNew (names_of state.old) (stmt_tree stmt.now) }
    ensures goes { Goes result state.new (path_of state.old (stmt_tree stmt.now)) }
    ensures names { IfOk result (λ _. names_of state.new ≡ names_of state.old ++ own_names (stmt_tree stmt.now)) }
{
    match first_broken(state, &stmt.form) {
        Some(rule) => refuse_statement(state, stmt, rule),
        None => match &stmt.form {
            Form::Plain(plain) => plain_path(state, plain),
            Form::If(..) | Form::While(..) | Form::Return(_) => {
                inner_path(alloc, state, stmt.line, &stmt.form)
            }
        },
    }
}

/// The path through a block, where the variables that were there before it are not its own. After a return there is nothing.
#[cycle(walk)]
fn block_path<'a>(
    alloc: Global,
    state: &mut FlowState<'a>,
    block: &'a Block,
) -> Result<Path, CheckError>
    requires { DeclareNew (names_of state.old) (block_tree block.now) }
    ensures goes { (outer : RegionState) → names_of outer ≡ names_of state.old
        → Goes result state.new (path_of_block outer state.old (block_tree block.now)) }
    ensures names { IfOk result (λ _. names_of state.new ≡ names_of state.old) }
{
    let count = state.len();
    let mut path = Path::On;
    for stmt in &block.statements {
        match path {
            Path::On => path = stmt_path(alloc, state, stmt)?,
            Path::Returned => return refuse(RegionRule::NoReturn, stmt.line, unreached_detail()),
        }
    }
    end(state, count, path, block.end_line)
}

/// What is known at a function's beginning: the class and its references are live, in one frame.
fn enter<'a>(state: &mut FlowState<'a>, f: &'a Function) -> Result<(), AllocError>
    requires { DeclaresOnce (function_tree f.now) }
    ensures { OnOk result (state.new ≡ state_at_entry (function_tree f.now)) }
{
    state.clear();
    let known = VariableState::Reference {
        level: CALL_LEVEL,
        live: true,
    };
    let mut left = f.parameters.len();
    while left > 0 {
        left -= 1;
        let p = &f.parameters[left];
        if let ParameterType::Reference(_) = p.kind {
            state.add(p.name.as_bytes(), known)?;
        }
    }
    state.add(f.class_name.as_bytes(), known)
}

/// The paths through a function. What the state was before is forgotten.
fn check_function<'a>(
    alloc: Global,
    state: &mut FlowState<'a>,
    f: &'a Function,
) -> Result<(), CheckError>
    requires { DeclaresOnce (function_tree f.now) }
    ensures { Finds result (function_fault (function_tree f.now)) }
{
    enter(state, f)?;
    match block_path(alloc, state, &f.body)? {
        Path::On => Err(CheckError::Fault(Fault {
            rule: RegionRule::NoReturn,
            line: Line::told(f.body.end_line, end_detail(&f.name)),
        })),
        Path::Returned => Ok(()),
    }
}

/// The paths through an item.
fn check_item<'a>(
    alloc: Global,
    state: &mut FlowState<'a>,
    item: &'a Item,
) -> Result<(), CheckError>
    requires { ItemOnce (item_tree item.now) }
    ensures { Finds result (item_fault (item_tree item.now)) }
{
    match item {
        Item::Static(_) => Ok(()),
        Item::Function(f) => check_function(alloc, state, f),
    }
}

/// The paths through the functions of a unit, one after another in the same state.
#[tactic(auto, using(crate::proofs::UnitLemmas::finds_rules))]
fn check_each<'a>(
    alloc: Global,
    state: &mut FlowState<'a>,
    items: &'a [Item],
) -> Result<(), CheckError>
    requires { AllByRecursion ItemOnce (map item_tree items.now) }
    ensures { Finds result (items_fault (map item_tree items.now)) }
{
    for item in items {
        check_item(alloc, state, item)?;
    }
    Ok(())
}

/// The paths through the functions of a unit. All share one state, so the memory is taken once.
pub(crate) fn check_items<'a>(alloc: Global, items: &'a [Item]) -> Result<(), CheckError>
    requires { AllByRecursion ItemOnce (map item_tree items.now) }
    ensures { Finds result (items_fault (map item_tree items.now)) }
{
    let mut state = FlowState::new(alloc);
    check_each(alloc, &mut state, items)
}

/// Keeps what was found at an item behind what was found before it.
fn keep(faults: &mut Vec<RegionFault>, found: Result<(), CheckError>) -> Result<(), AllocError>
    ensures { (fault : Option Found) → Finds found fault
        → OnOk result (map fault_of faults.new.items ≡ map fault_of faults.old.items ++ option_to_list fault) }
{
    match found {
        Ok(()) => Ok(()),
        Err(CheckError::Memory) => Err(AllocError),
        Err(CheckError::Fault(fault)) => {
            faults.push(fault)?;
            Ok(())
        }
    }
}

/// The first fault of each function of a unit, behind those before it. The paths of all go through the same state.
fn gather_each<'a>(
    alloc: Global,
    state: &mut FlowState<'a>,
    items: &'a [Item],
    faults: &mut Vec<RegionFault>,
) -> Result<(), AllocError>
    requires { AllByRecursion ItemOnce (map item_tree items.now) }
    ensures { OnOk result (map fault_of faults.new.items ≡ map fault_of faults.old.items ++ items_faults (map item_tree items.now)) }
{
    for item in items {
        let found: Result<(), CheckError> = check_item(alloc, state, item);
        keep(faults, found)?;
    }
    Ok(())
}

/// The first fault of each function of a unit.
pub(crate) fn faults_of_items<'a>(
    alloc: Global,
    items: &'a [Item],
) -> Result<Vec<RegionFault>, AllocError>
    requires { AllByRecursion ItemOnce (map item_tree items.now) }
    ensures { IfOk result (λ faults. map fault_of faults.items ≡ items_faults (map item_tree items.now)) }
{
    let mut state = FlowState::new(alloc);
    let mut faults: Vec<RegionFault> = Vec::new(alloc);
    gather_each(alloc, &mut state, items, &mut faults)?;
    Ok(faults)
}
