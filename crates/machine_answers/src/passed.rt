//! What a call of a method passes to it.

ghost use Rattle.std.specs.Prelude.{◌≡◌, ◌≤◌, ◌∷◌, true, [], List, drop, length, reverse, vec_capacity};
ghost use Rattle.code.specs.declared.instr.Operand.{Operand};
ghost use Rattle.machine_answers.specs.Asked.{references_of};
ghost use Rattle.machine_answers.specs.Passed.{passed_in};
ghost use Rattle.machine_scenes.specs.declared.references.Held.{Held};

use crate::answer::held_reference;
use code::instr::Operand;
use heap::Value;
use machine_scenes::activation::Activation;
use machine_scenes::operands::reference_in;
use machine_scenes::references::{References, local_of};
use machine_scenes::store::Store;

/// The operands of what is passed: those after the class and the method ID.
#[inline(always)]
pub(crate) fn passed_operands(operands: &[Operand]) -> &[Operand]
    ensures { result.now ≡ drop 2 operands.now }
{
    match operands {
        [_, _, passed @ ..] => passed,
        _ => &[],
    }
}

/// What an operand gives, and the words that are left: a number takes the first.
#[inline(always)]
fn value_of<'a>(
    references: &References<'_>,
    operand: Operand,
    words: &'a [u32],
) -> (Value, &'a [u32])
    ensures { (more : List Operand) → passed_in references.now (operand ∷ more) words.now
        ≡ result.0 ∷ passed_in references.now more result.1.now }
{
    match operand {
        Operand::Number => match words {
            [word, words @ ..] => (Value::Number(*word), words),
            [] => (Value::Number(0), words),
        },
        _ => (held_reference(reference_in(references, operand)), words),
    }
}

/// Adds what operands give, of which numbers take these words in order, to an empty vector that has room for it.
#[inline(always)]
fn push_values(
    values: &mut Vec<Value>,
    references: &References<'_>,
    operands: &[Operand],
    words: &[u32],
)
    requires none { values.old.items ≡ [] }
    requires room { length operands.now ≤ vec_capacity values.old }
    ensures { values.new.items ≡ passed_in references.now operands.now words.now }
{
    let mut left = words;
    for operand in operands {
        let (value, rest) = value_of(references, *operand, left);
        values.push_reserved(value);
        left = rest;
    }
}

/// The same where all operands are numbers, which have words, and local references of this call; and whether they are. Its loop calls nothing,
/// so it is faster.
#[inline(always)]
fn push_local_values(
    values: &mut Vec<Value>,
    activation: &Activation,
    operands: &[Operand],
    words: &[u32],
) -> bool
    requires none { values.old.items ≡ [] }
    requires room { length operands.now ≤ vec_capacity values.old }
    ensures capacity { vec_capacity values.new ≡ vec_capacity values.old }
    ensures values { result ≡ true → (statics : List Held) → values.new.items ≡ passed_in (record {
      keys = activation.now.slots.references.items;
      locals = activation.now.locals;
      statics = statics;
    }) operands.now words.now }
{
    let mut left = words;
    for operand in operands {
        match operand {
            Operand::Number => match left {
                [word, words @ ..] => {
                    values.push_reserved(Value::Number(*word));
                    left = words;
                }
                [] => return false,
            },
            Operand::Local(slot) => {
                let reference = local_of(&activation.slots.references, &activation.locals, *slot);
                values.push_reserved(held_reference(reference));
            }
            _ => return false,
        }
    }
    true
}

/// What operands give, in a vector that has room for it, and whose items are gone then. It stands apart from calls that pass numbers and local
/// references alone, which need no statics.
#[inline(never)]
fn all_values(
    values: Vec<Value>,
    store: &Store,
    activation: &Activation,
    operands: &[Operand],
) -> Vec<Value>
    requires room { length operands.now ≤ vec_capacity values }
    ensures { result.items ≡ passed_in (references_of store.now activation.now) operands.now (reverse activation.now.stack) }
{
    let references = References::new(
        &activation.slots.references,
        &activation.locals,
        &store.statics,
        &store.globals,
        &store.weaks,
    );
    let mut listed = values;
    listed.clear();
    push_values(&mut listed, &references, operands, activation.stack.words());
    listed
}

/// What a call of a method with these operands passes to it, in order: a number by its word, which is on the stack, NULL, or the address of an
/// object. It is listed in this vector, which has room for it, and whose items are gone then. It takes no host memory.
#[inline(always)]
pub fn pass(
    values: Vec<Value>,
    store: &Store,
    activation: &Activation,
    operands: &[Operand],
) -> Vec<Value>
    requires room { length operands.now ≤ vec_capacity values }
    ensures { result.items ≡ passed_in (references_of store.now activation.now) (drop 2 operands.now) (reverse activation.now.stack) }
{
    let mut listed = values;
    listed.clear();
    match operands {
        [_, _, passed @ ..] => {
            if push_local_values(&mut listed, activation, passed, activation.stack.words()) {
                listed
            } else {
                all_values(listed, store, activation, passed)
            }
        }
        _ => listed,
    }
}
