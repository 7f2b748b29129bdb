//! The check of blocks.

ghost use Rattle.std.specs.Prelude.{◌≡◌, ℕ, [], ◌∷◌, ◌++◌, OnOk};
ghost use Rattle.syntax.specs.Parts.{statements_of, statements_within, names_declared};
ghost use Rattle.syntax.specs.Views.{form_tree, block_tree};
ghost use Rattle.type_rules.specs.TypeRules.{places_inside, places_of, with_declared};
ghost use Rattle.types.specs.Faults.{Tells, IsAbove, found};

use crate::fault::KeptFaults;
use crate::statements::{check_statement, declared};
use crate::taken::Taken;
use std::alloc::AllocError;
use syntax::{Block, Else, Form, ResultType};
use type_rules::{ExprType, Known};

/// The name that a statement declares is known and taken.
fn declare<'a: 'n, 'n>(
    known: &mut Known<'a, ExprType>,
    taken: &mut Taken<'n>,
    form: &'a Form,
) -> Result<(), AllocError>
    ensures scope { OnOk result ((line : ℕ) → known.new
        ≡ with_declared known.old (form_tree line form.now)) }
    ensures above { OnOk result (IsAbove known.new known.old) }
    ensures taken { OnOk result ((line : ℕ) → taken.new
        ≡ taken.old ++ names_declared (form_tree line form.now ∷ [])) }
{
    match declared(form) {
        Some((name, ty)) => {
            known.declare(name, ty)?;
            taken.add(name)?;
            Ok(())
        }
        None => Ok(()),
    }
}

/// The blocks inside a statement, and the name that it declares.
#[tactic(auto, using(crate::proofs::PlaceLemmas::place_rules))]
#[cycle(blocks)]
fn check_inside<'a: 'n, 'n>(
    known: &mut Known<'a, ExprType>,
    taken: &mut Taken<'n>,
    returns: ResultType,
    form: &'a Form,
    faults: &mut KeptFaults,
) -> Result<(), AllocError>
    ensures tells { OnOk result ((line : ℕ) → Tells faults.old faults.new
        (found (places_inside returns known.old taken.old (form_tree line form.now)))) }
    ensures scope { OnOk result ((line : ℕ) → known.new
        ≡ with_declared known.old (form_tree line form.now)) }
    ensures above { OnOk result (IsAbove known.new known.old) }
    ensures taken { OnOk result ((line : ℕ) → taken.new
        ≡ taken.old ++ names_declared (statements_within (form_tree line form.now))) }
{
    match form {
        Form::Plain(_) => declare(known, taken, form),
        Form::If(_, b, other) => {
            check_block(known, taken, returns, b, faults)?;
            match other {
                Else::Nothing => Ok(()),
                Else::Block(d) => check_block(known, taken, returns, d, faults),
            }
        }
        Form::While(_, b) => check_block(known, taken, returns, b, faults),
        Form::Return(_) => Ok(()),
    }
}

/// A block of a function with this result, where these names are known and these are taken. After it the names that it
/// declares are known no more, and stay taken. Of each statement that breaks a rule the fault is kept behind those before it,
/// or of all the first alone; what a statement declares is known after it, whether or not it keeps the rules.
#[cycle(blocks)]
pub(crate) fn check_block<'a: 'n, 'n>(
    known: &mut Known<'a, ExprType>,
    taken: &mut Taken<'n>,
    returns: ResultType,
    block: &'a Block,
    faults: &mut KeptFaults,
) -> Result<(), AllocError>
    ensures tells { OnOk result (Tells faults.old faults.new
        (found (places_of returns known.old taken.old (block_tree block.now)))) }
    ensures restored { OnOk result (known.new ≡ known.old) }
    ensures taken { OnOk result (taken.new
        ≡ taken.old ++ names_declared (statements_of (block_tree block.now))) }
{
    let outside = known.len();
    for stmt in &block.statements {
        check_statement(known, taken, returns, stmt, faults)?;
        check_inside(known, taken, returns, &stmt.form, faults)?;
    }
    known.leave(outside);
    Ok(())
}
