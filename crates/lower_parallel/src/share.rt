//! What one worker lowers.

ghost use Rattle.std.specs.Prelude.{◌≡◌, ◌<◌, [], Err, IfOk, OnOk, IsTrue};
ghost use Rattle.syntax.specs.Tree.{FunctionItem};
ghost use Rattle.syntax.specs.Views.{function_tree, unit_tree};
ghost use Rattle.code_meaning.specs.Length.{is_long, IsTooLong};
ghost use Rattle.lower.specs.Items.{ItemFits, IsItemDone};
ghost use Rattle.lower.specs.Listings.{listings_of};
ghost use Rattle.lower_parallel.specs.Shares.{IsShare};

use code::code::Code;
use lower::{LowerError, lower_function};
use lower_statements::Names;
use region_rules::Checked;
use std::alloc::Global;
use std::collections::VecDeque;
use syntax::{Function, Item};

/// Told of each function before it is lowered.
pub trait Watch {
    /// Called by the worker that lowers the function of this number, counted from 0. It may wait.
    fn begin(&self, function: usize);
}

/// The codes of the functions whose number leaves the remainder `worker` by `workers`, in their order.
pub(crate) fn lower_share<K: Watch>(
    alloc: Global,
    checked: &Checked,
    workers: usize,
    worker: usize,
    watch: &K,
) -> Result<VecDeque<Code>, LowerError>
    requires { 0 < workers }
    ensures share { IfOk result (λ codes. IsShare workers worker (listings_of [] (unit_tree checked.now).items)
        codes.items) }
    ensures too_long { result ≡ Err LowerError.TooLong → IsTooLong (unit_tree checked.now) }
{
    let mut names = Names::new(alloc);
    let mut codes = VecDeque::new(alloc);
    let mut number = 0;
    for item in checked.items() {
        match item {
            Item::Static(named) => names.declare_static(named)?,
            Item::Function(function) => {
                if number % workers == worker {
                    watch.begin(number);
                    push_code(alloc, &mut names, &mut codes, function)?;
                }
                number += 1;
            }
        }
    }
    Ok(codes)
}

/// The code of one function more, where the statics before it are known.
fn push_code<'a>(
    alloc: Global,
    names: &mut Names<'a>,
    codes: &mut VecDeque<Code>,
    function: &'a Function,
) -> Result<(), LowerError>
    requires { ItemFits names.old.known (FunctionItem (function_tree function.now)) }
    ensures done { OnOk result (IsItemDone names.old.known codes.old.items (FunctionItem (function_tree function.now))
        names.new.known codes.new.items) }
    ensures too_long { result ≡ Err LowerError.TooLong → IsTrue (is_long (FunctionItem (function_tree function.now))) }
{
    codes.push_back(lower_function(alloc, names, function)?)?;
    Ok(())
}
