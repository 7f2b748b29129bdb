//! Methods that a unit asks for.

ghost use Rattle.std.specs.Prelude.{◌≡◌, ℕ};
ghost use Rattle.std.specs.List.{list_any};
ghost use Rattle.syntax.specs.Parts.{statements_of, statements_within};
ghost use Rattle.syntax.specs.Views.{call_tree, form_tree, block_tree, function_tree, unit_tree};
ghost use Rattle.semantics.specs.Load.{asks_methods, methods_load};
ghost use Rattle.class_queries.specs.Asking.{is_asking, asks_itself};

use jni::JniFunction;
use syntax::{Block, Call, Else, Form, Function, Item};
use world_values::World;

/// Whether it is a call of GetStaticMethodID.
fn is_asking(call: &Call) -> bool
    ensures { result ≡ is_asking (call_tree call.now) }
{
    call.function.as_bytes() == JniFunction::GetStaticMethodID.prototype().name
}

/// Whether a statement makes such a call itself.
fn asks_itself(form: &Form) -> bool
    ensures { (line : ℕ) → result ≡ asks_itself (form_tree line form.now) }
{
    match form.own_call() {
        Some(call) => is_asking(call),
        None => false,
    }
}

/// Whether a statement or one inside it makes such a call.
#[cycle(statements)]
fn form_asks(form: &Form) -> bool
    ensures { (line : ℕ) → result ≡ list_any asks_itself (statements_within (form_tree line form.now)) }
{
    match form {
        Form::Plain(_) => asks_itself(form),
        Form::If(_, then, Else::Nothing) => asks_itself(form) || block_asks(then),
        Form::If(_, then, Else::Block(other)) => {
            asks_itself(form) || block_asks(then) || block_asks(other)
        }
        Form::While(_, body) => block_asks(body),
        Form::Return(_) => false,
    }
}

/// Whether a statement of a block makes such a call.
#[cycle(statements)]
fn block_asks(block: &Block) -> bool
    ensures { result ≡ list_any asks_itself (statements_of (block_tree block.now)) }
{
    for stmt in &block.statements {
        if form_asks(&stmt.form) {
            return true;
        }
    }
    false
}

fn function_asks(function: &Function) -> bool
    ensures { result ≡ list_any asks_itself (statements_of (function_tree function.now).body) }
{
    block_asks(&function.body)
}

/// Whether GetStaticMethodID is called somewhere in a unit. Its time grows with the number of the unit's statements.
pub fn asks_methods(items: &[Item]) -> bool
    ensures { result ≡ asks_methods (unit_tree items.now) }
{
    for item in items {
        if let Item::Function(function) = item {
            if function_asks(function) {
                return true;
            }
        }
    }
    false
}

/// Whether a world allows methods where a unit asks for them. Where it doesn't, the fault is on the line of the heap.
pub fn methods_load(items: &[Item], world: &World) -> bool
    ensures { result ≡ methods_load (unit_tree items.now) world.now }
{
    world.has_methods() || !asks_methods(items)
}
