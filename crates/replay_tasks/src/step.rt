//! Steps of tasks that are no call.

ghost use Rattle.std.specs.Prelude.{◌≡◌};
ghost use Rattle.syntax.specs.Views.{expr_tree, block_tree};
ghost use Rattle.semantics.specs.Sight.{seen};
ghost use Rattle.semantics.specs.Variable.{Statics as StaticsOfUnit};
ghost use Rattle.replay_tasks.specs.declared.task.Task.TheVariants as task;
ghost use Rattle.replay_terms.specs.declared.term.Term.TheVariants as term;
ghost use Rattle.replay_tasks.specs.Effects.{HasEffect, HasBranches, IsAssignment, IsEvaluation, reduced};
ghost use Rattle.replay_tasks.specs.Tasks.{element_task, ExprInRange, BlockInRange, ElseInRange, TaskInRange, OutcomeInRange, IsPlain};
ghost use Rattle.replay_terms.specs.Views.{NumbersInRange, variables_view};

use crate::outcome::{CallResult, End, Outcome};
use crate::task::{Assignment, Choice, ElementAssignment, Evaluation, Iteration, Task};
use replay_terms::{
    Evaluated, Indexed, Reduction, Statics, Term, Variables, as_reference, constant,
    held_reference, number_in, place_in, put_term, reduce,
};
use semantics::{Objects, Value};

/// What a step does that reduces a term, which has no value yet.
pub fn reduced<'a>(line: usize, reduction: Reduction) -> Outcome<'a>
    ensures view { result ≡ reduced line reduction }
    ensures range { OutcomeInRange result }
{
    match reduction {
        Reduction::Reduced => Outcome::Stays,
        Reduction::Trapped(trap) => Outcome::Trapped { trap, line },
        Reduction::Stuck => Outcome::Impossible,
    }
}

/// Evaluates a number by one step, or prints it.
fn print<'a, O: Objects>(
    objects: &O,
    statics: &Statics<'_>,
    variables: &Variables<'_>,
    e: &mut Evaluation<'_>,
) -> Outcome<'a>
    requires { NumbersInRange e.old.term }
    ensures step { HasEffect (seen (variables_view variables.now) statics.now (O.heap objects.now)) (task.Print e.old) result (task.Print e.new) }
    ensures numbers { NumbersInRange e.new.term }
    ensures range { OutcomeInRange result }
{
    match &mut e.term {
        Term::Done(v) => match v {
            Value::Int(z) => Outcome::Printed(*z),
            Value::Word(_) | Value::Flag(_) | Value::Truth(_) => Outcome::Impossible,
        },
        t => reduced(e.line, reduce(objects, statics, variables, t)),
    }
}

/// Evaluates an expression by one step, or sets a variable to its value.
fn set<'a, O: Objects>(
    objects: &O,
    statics: &Statics<'_>,
    variables: &Variables<'_>,
    a: &mut Assignment<'a>,
) -> Outcome<'a>
    requires { NumbersInRange a.old.term }
    ensures step { HasEffect (seen (variables_view variables.now) statics.now (O.heap objects.now)) (task.Set a.old) result (task.Set a.new) }
    ensures numbers { NumbersInRange a.new.term }
    ensures range { OutcomeInRange result }
{
    match &mut a.term {
        Term::Done(v) => Outcome::Sets(a.name, *v),
        t => reduced(a.line, reduce(objects, statics, variables, t)),
    }
}

/// Sets an element whose index and number have these values.
fn write<'a, O: Objects>(
    objects: &O,
    variables: &Variables<'_>,
    a: &ElementAssignment<'a>,
    index: Value,
    number: Value,
) -> Outcome<'a>
    ensures step { (statics : StaticsOfUnit) → HasEffect (seen (variables_view variables.now) statics
        (O.heap objects.now)) (element_task a.now.line a.now.name (term.Done index) (term.Done number)) result
        (element_task a.now.line a.now.name (term.Done index) (term.Done number)) }
    ensures range { OutcomeInRange result }
{
    let name = a.name;
    let line = a.line;
    match number {
        Value::Int(z) => match place_in(objects, variables, name, index) {
            Indexed::At(i) => Outcome::SetsElement {
                name,
                index: i,
                number: z,
            },
            Indexed::Traps(trap) => Outcome::Trapped { trap, line },
            Indexed::Stuck => Outcome::Impossible,
        },
        Value::Word(_) | Value::Flag(_) | Value::Truth(_) => Outcome::Impossible,
    }
}

/// Evaluates the index or the number of an element by one step, or sets it.
fn set_element<'a, O: Objects>(
    objects: &O,
    statics: &Statics<'_>,
    variables: &Variables<'_>,
    a: &mut ElementAssignment<'a>,
) -> Outcome<'a>
    requires index { NumbersInRange a.old.index }
    requires number { NumbersInRange a.old.number }
    ensures step { HasEffect (seen (variables_view variables.now) statics.now (O.heap objects.now)) (task.SetElement a.old) result (task.SetElement a.new) }
    ensures index { NumbersInRange a.new.index }
    ensures number { NumbersInRange a.new.number }
    ensures range { OutcomeInRange result }
{
    match &mut a.index {
        Term::Done(index) => match &mut a.number {
            Term::Done(number) => {
                let index = *index;
                let number = *number;
                write(objects, variables, a, index, number)
            }
            t => reduced(a.line, reduce(objects, statics, variables, t)),
        },
        i => reduced(a.line, reduce(objects, statics, variables, i)),
    }
}

/// Evaluates the test of an `if` by one step, or takes a branch.
fn branch<'a, O: Objects>(
    objects: &O,
    statics: &Statics<'_>,
    variables: &Variables<'_>,
    choice: &mut Choice<'a>,
) -> Outcome<'a>
    requires numbers { NumbersInRange choice.old.test }
    requires block { BlockInRange (block_tree choice.old.block.now) }
    requires otherwise { ElseInRange choice.old.otherwise }
    ensures step { HasEffect (seen (variables_view variables.now) statics.now (O.heap objects.now)) (task.Branch choice.old) result (task.Branch choice.new) }
    ensures task { TaskInRange (task.Branch choice.new) }
    ensures range { OutcomeInRange result }
{
    match &mut choice.test {
        Term::Done(v) => match v {
            Value::Truth(true) => Outcome::Enters(Some(choice.block), End::If),
            Value::Truth(false) => Outcome::Enters(choice.otherwise, End::If),
            Value::Word(_) | Value::Int(_) | Value::Flag(_) => Outcome::Impossible,
        },
        t => reduced(choice.line, reduce(objects, statics, variables, t)),
    }
}

/// Evaluates the test of a loop by one step, or takes a turn, or goes on after it.
fn turn<'a, O: Objects>(
    objects: &O,
    statics: &Statics<'_>,
    variables: &Variables<'_>,
    i: &mut Iteration<'a>,
) -> Outcome<'a>
    requires test { ExprInRange (expr_tree i.old.test.now) }
    requires numbers { NumbersInRange i.old.term }
    requires body { BlockInRange (block_tree i.old.body.now) }
    ensures step { HasEffect (seen (variables_view variables.now) statics.now (O.heap objects.now)) (task.Loop i.old) result (task.Loop i.new) }
    ensures task { TaskInRange (task.Loop i.new) }
    ensures range { OutcomeInRange result }
{
    match &mut i.term {
        Term::Done(v) => match v {
            Value::Truth(true) => Outcome::Enters(
                Some(i.body),
                End::Turn {
                    line: i.line,
                    test: i.test,
                    body: i.body,
                },
            ),
            Value::Truth(false) => Outcome::Ends,
            Value::Word(_) | Value::Int(_) | Value::Flag(_) => Outcome::Impossible,
        },
        t => reduced(i.line, reduce(objects, statics, variables, t)),
    }
}

/// Evaluates a result by one step, or returns it. A name of a number is evaluated; NULL or a reference is returned as it is.
#[tactic(auto, using(crate::proofs::EffectLemmas::return_rules))]
fn return_value<'a, O: Objects>(
    objects: &O,
    statics: &Statics<'_>,
    variables: &Variables<'_>,
    e: &mut Evaluation<'_>,
) -> Outcome<'a>
    requires { NumbersInRange e.old.term }
    ensures step { HasEffect (seen (variables_view variables.now) statics.now (O.heap objects.now)) (task.ReturnValue e.old) result (task.ReturnValue e.new) }
    ensures numbers { NumbersInRange e.new.term }
    ensures range { OutcomeInRange result }
{
    match &mut e.term {
        Term::Done(value) => Outcome::Returned(CallResult::Number(*value)),
        Term::Named(c) => match constant(*c) {
            Evaluated::Gives(value) => {
                put_term(&mut e.term, Term::Done(value));
                Outcome::Stays
            }
            Evaluated::Traps(_) | Evaluated::Stuck => {
                Outcome::Returned(CallResult::Reference(None))
            }
        },
        Term::Read(name) => match number_in(variables, name) {
            Evaluated::Gives(value) => {
                put_term(&mut e.term, Term::Done(value));
                Outcome::Stays
            }
            Evaluated::Traps(_) | Evaluated::Stuck => {
                let held = held_reference(statics, variables, name);
                Outcome::Returned(CallResult::Reference(as_reference(held)))
            }
        },
        t => reduced(e.line, reduce(objects, statics, variables, t)),
    }
}

/// Lets a task that prints or returns a value take its next step.
#[inline]
fn evaluate<'a, O: Objects>(
    objects: &O,
    statics: &Statics<'_>,
    variables: &Variables<'a>,
    task: &mut Task<'a>,
) -> Outcome<'a>
    requires range { TaskInRange task.old }
    requires kind { IsEvaluation task.old }
    ensures step { HasEffect (seen (variables_view variables.now) statics.now (O.heap objects.now)) task.old result task.new }
    ensures task { TaskInRange task.new }
    ensures range { OutcomeInRange result }
{
    match task {
        Task::Print(e) => print(objects, statics, variables, e),
        Task::ReturnValue(e) => return_value(objects, statics, variables, e),
        _ => unreachable!(),
    }
}

/// Lets a task that sets a variable or an element to a value take its next step.
#[inline]
fn assign<'a, O: Objects>(
    objects: &O,
    statics: &Statics<'_>,
    variables: &Variables<'a>,
    task: &mut Task<'a>,
) -> Outcome<'a>
    requires range { TaskInRange task.old }
    requires kind { IsAssignment task.old }
    ensures step { HasEffect (seen (variables_view variables.now) statics.now (O.heap objects.now)) task.old result task.new }
    ensures task { TaskInRange task.new }
    ensures range { OutcomeInRange result }
{
    match task {
        Task::Set(a) => set(objects, statics, variables, a),
        Task::SetElement(a) => set_element(objects, statics, variables, a),
        _ => unreachable!(),
    }
}

/// Lets an `if` or a loop take its next step.
#[inline]
fn take_branch<'a, O: Objects>(
    objects: &O,
    statics: &Statics<'_>,
    variables: &Variables<'a>,
    task: &mut Task<'a>,
) -> Outcome<'a>
    requires range { TaskInRange task.old }
    requires kind { HasBranches task.old }
    ensures step { HasEffect (seen (variables_view variables.now) statics.now (O.heap objects.now)) task.old result task.new }
    ensures task { TaskInRange task.new }
    ensures range { OutcomeInRange result }
{
    match task {
        Task::Branch(choice) => branch(objects, statics, variables, choice),
        Task::Loop(i) => turn(objects, statics, variables, i),
        _ => unreachable!(),
    }
}

/// Lets a task that is no call take its next step.
pub fn plain_step<'a, O: Objects>(
    objects: &O,
    statics: &Statics<'_>,
    variables: &Variables<'a>,
    task: &mut Task<'a>,
) -> Outcome<'a>
    requires range { TaskInRange task.old }
    requires plain { IsPlain task.old }
    ensures step { HasEffect (seen (variables_view variables.now) statics.now (O.heap objects.now)) task.old result task.new }
    ensures task { TaskInRange task.new }
    ensures range { OutcomeInRange result }
{
    match task {
        Task::Print(_) | Task::ReturnValue(_) => evaluate(objects, statics, variables, task),
        Task::Set(_) | Task::SetElement(_) => assign(objects, statics, variables, task),
        Task::SetNull(target) => Outcome::SetsNull(*target),
        Task::MakeArray(kind, name, size) => Outcome::Makes {
            element: *kind,
            name,
            len: *size,
        },
        Task::Branch(_) | Task::Loop(_) => take_branch(objects, statics, variables, task),
        Task::Return => Outcome::Returned(CallResult::Nothing),
        Task::Invoke(_) => unreachable!(),
    }
}
