//! From checked programs to code.

ghost use Rattle.std.specs.Prelude.{◌≡◌, ◌<◌, [], Err, IfOk, OnOk, IsTrue};
ghost use Rattle.base.specs.Limits.{most_steps};
ghost use Rattle.syntax.specs.Tree.{FunctionItem};
ghost use Rattle.syntax.specs.Views.{function_tree, item_tree, unit_tree};
ghost use Rattle.code.specs.Depth.{IsValid};
ghost use Rattle.code_meaning.specs.Layout.{entry_layout, function_slots};
ghost use Rattle.code_meaning.specs.Coding.{block_code};
ghost use Rattle.lower.specs.Items.{ItemFits, IsItemDone};
ghost use Rattle.lower.specs.Listings.{listing_of, listings_of};
ghost use Rattle.code_meaning.specs.Length.{function_steps, is_long, IsTooLong};
ghost use Rattle.code_meaning.specs.Lowered.{IsCodeOf};

use crate::fault::LowerError;
use base::limits::MOST_STEPS;
use code::code::Code;
use code::instr::Instr;
use code::slots::SlotCounts;
use code_meaning::Program;
use lower_statements::{Names, emit, emit_block};
use region_rules::Checked;
use std::alloc::{AllocError, Global};
use syntax::{Function, Item};

/// The program's code, of which each instruction is one step of the source.
///
/// `TooLong` exactly where a function has more than 65,535 steps, counted on its tree. Instructions count with 32 bits, so
/// `Memory` is also answered where a statement is past line 4,294,967,295, where a function takes more slots, as none of an
/// accepted program does, and where a jump leads over more instructions, as it can in a function alone that is too long.
pub fn lower<'a>(alloc: Global, checked: &'a Checked) -> Result<Program<'a>, LowerError>
    ensures ok { IfOk result (λ p. p.unit ≡ checked.now) }
    ensures codes { IfOk result (λ p. p.codes ≡ listings_of [] (unit_tree checked.now).items) }
    ensures short { IfOk result (λ _. IsTooLong (unit_tree checked.now) → ⊥) }
    ensures too_long { result ≡ Err LowerError.TooLong → IsTooLong (unit_tree checked.now) }
{
    let mut names = Names::new(alloc);
    let mut codes = Vec::new(alloc);
    for item in checked.items() {
        lower_item(alloc, &mut names, &mut codes, item)?;
    }
    Ok(Program::of(checked, codes))
}

/// One static more, or the code of one function more.
fn lower_item<'a>(
    alloc: Global,
    names: &mut Names<'a>,
    codes: &mut Vec<Code>,
    item: &'a Item,
) -> Result<(), LowerError>
    requires { ItemFits names.old.known (item_tree item.now) }
    ensures done { OnOk result (IsItemDone names.old.known codes.old.items (item_tree item.now) names.new.known
        codes.new.items) }
    ensures too_long { result ≡ Err LowerError.TooLong → IsTrue (is_long (item_tree item.now)) }
{
    match item {
        Item::Static(named) => names.declare_static(named)?,
        Item::Function(function) => codes.push(lower_function(alloc, names, function)?)?,
    }
    Ok(())
}

/// The code of a function, where the statics before it are known. After it they alone are known again. Errors are those
/// of `lower`.
pub fn lower_function<'a>(
    alloc: Global,
    names: &mut Names<'a>,
    function: &'a Function,
) -> Result<Code, LowerError>
    requires { ItemFits names.old.known (FunctionItem (function_tree function.now)) }
    ensures ok { IfOk result (IsCodeOf names.old.known (function_tree function.now)) }
    ensures code { IfOk result (λ code. code ≡ listing_of names.old.known (function_tree function.now)) }
    ensures statics { OnOk result (names.new.known ≡ names.old.known) }
    ensures too_long { result ≡ Err LowerError.TooLong → most_steps < function_steps (function_tree function.now) }
{
    let mut instrs = body_instrs(alloc, names, function)?;
    if instrs.len() > MOST_STEPS {
        return Err(LowerError::TooLong);
    }
    emit(&mut instrs, Instr::Return)?;
    Ok(valid_code(instrs, names.slots())?)
}

/// The instructions of a function's body. After it the statics alone are known again.
fn body_instrs<'a>(
    alloc: Global,
    names: &mut Names<'a>,
    function: &'a Function,
) -> Result<Vec<Instr>, AllocError>
    ensures instrs { IfOk result (λ instrs. instrs.items
        ≡ block_code (entry_layout names.old.known (function_tree function.now)) (function_tree function.now).body) }
    ensures slots { OnOk result (names.new.slots ≡ function_slots names.old.known (function_tree function.now)) }
    ensures statics { OnOk result (names.new.known ≡ names.old.known) }
{
    let statics = names.len();
    names.enter(function)?;
    let mut instrs = Vec::new(alloc);
    emit_block(&mut instrs, names, &function.body)?;
    names.leave(statics);
    Ok(instrs)
}

/// The code of instructions that are as code has to be.
fn valid_code(instrs: Vec<Instr>, slots: SlotCounts) -> Result<Code, AllocError>
    requires { IsValid (record { instrs = instrs.items; slots = slots }) }
    ensures { IfOk result (λ code. code ≡ record { instrs = instrs.items; slots = slots }) }
{
    match Code::of(instrs, slots)? {
        Some(code) => Ok(code),
        None => unreachable!(),
    }
}
