//! Calls that read or write a number of an object, as most calls do that threads make again and again.

ghost use Rattle.std.specs.Prelude.{◌≡◌, ◌∷◌, [], IfOk, IfSome, Some, true};
ghost use Rattle.base.specs.Bytes.{lookup};
ghost use Rattle.class_rules.specs.Grown.{IsGrown};
ghost use Rattle.classes.specs.FieldViews.{field_id_view};
ghost use Rattle.jni.specs.declared.function.JniFunction.TheVariants as function;
ghost use Rattle.semantics.specs.Task.{Given, NumberOperand};
ghost use Rattle.semantics.specs.Term.{Done};
ghost use Rattle.syntax.specs.Views.{argument_tree};
ghost use Rattle.semantics.specs.declared.value.Value.TheVariants.{Int};
ghost use Rattle.semantics.specs.Sight.{held_field};
ghost use Rattle.semantics.specs.Variable.{Live};
ghost use Rattle.replay_arguments.specs.Shares.{shared_view, sight_in};
ghost use Rattle.replay_steps.specs.Activations.{IsAtStatement};
ghost use Rattle.replay_steps.specs.FieldCalls.{AttemptsField, HasNumber, NamesNumber, PutsNumber, TriesCall, named};
ghost use Rattle.replay_terms.specs.Views.{operands_view, term_view, variables_view};

use crate::activation::{Activation, begin_next};
use class_queries::holds_number;
use class_rules::ClassId;
use classes::fields::FieldId;
use classes::table::ClassTable;
use jni::JniFunction;
use replay_arguments::Shared;
use replay_tasks::{Invocation, Purpose, Target, Task};
use replay_terms::{
    Content, Operands, StaticReference, Term, Variables, convert, held_number, held_reference,
};
use semantics::{ObjectId, ObjectValue, Value, VariableKind};
use std::alloc::{AllocError, Global};
use syntax::{Argument, ElementType, Name, Shape};

/// The names of an object and of a field ID.
#[derive(Clone, Copy)]
struct Names<'a> {
    object: &'a Name,
    field: &'a Name,
}

/// A value of an object, by the object's name and its place in it.
#[derive(Clone, Copy)]
struct Place {
    object: ObjectId,
    place: usize,
}

/// The name that an argument is, if it is one.
#[inline(always)]
fn name_in(argument: &Argument) -> Option<&Name>
    ensures { IfSome result (λ x. Given (argument_tree argument.now) ≡ named x.now) }
{
    let Argument::Value(e) = argument else {
        return None;
    };
    match e.whole().shape() {
        Shape::Variable(name) => Some(name),
        _ => None,
    }
}

/// The names that two arguments are, if they are.
#[inline(always)]
fn names_of<'a>(object: &'a Argument, field: &'a Argument) -> Option<Names<'a>>
    ensures { IfSome result (λ names. (Given (argument_tree object.entry.now) ≡ named names.object.now)
        × (Given (argument_tree field.entry.now) ≡ named names.field.now)) }
{
    let object = name_in(object)?;
    let field = name_in(field)?;
    Some(Names { object, field })
}

/// The names that the two arguments of a call are, if they are.
#[inline(always)]
fn names_read<'a>(i: &Invocation<'a>) -> Option<Names<'a>>
    ensures { IfSome result (λ names. operands_view i.entry.now.operands ≡ named names.object.now ∷ named names.field.now ∷ []) }
{
    let Operands::Given(arguments) = &i.operands else {
        return None;
    };
    match arguments {
        [object, field] => names_of(object, field),
        _ => None,
    }
}

/// The number that is worked out, if it is.
#[inline(always)]
fn number_in(t: &Term<'_>) -> Option<i32>
    ensures { IfSome result (λ z. term_view t.now ≡ Done (Int z)) }
{
    match t {
        Term::Done(Value::Int(number)) => Some(*number),
        _ => None,
    }
}

/// The same of the first two of three, with the number that is the third, if it is worked out.
#[inline(always)]
fn names_written<'a>(i: &Invocation<'a>) -> Option<(Names<'a>, i32)>
    ensures { IfSome result (λ written. operands_view i.entry.now.operands
        ≡ named written.0.object.now ∷ named written.0.field.now ∷ NumberOperand (Done (Int written.1)) ∷ []) }
{
    let Operands::Last(arguments, number) = &i.operands else {
        return None;
    };
    match arguments {
        [object, field] => {
            let names = names_of(object, field)?;
            let number = number_in(number)?;
            Some((names, number))
        }
        _ => None,
    }
}

/// The object that a reference of this name refers to, if there is one. Most are local references.
#[inline(always)]
fn object_in(shared: &Shared<'_>, variables: &Variables<'_>, name: &Name) -> Option<ObjectId>
    ensures { IfSome result (λ n. (sight_in (shared_view shared.now) variables.now).reference name.now ≡ Live n.number) }
{
    if let Some(Content::Reference { object, .. }) = variables.content_of(name) {
        return *object;
    }
    match held_reference(&shared.statics, variables, name) {
        StaticReference::Live(object) => Some(object),
        _ => None,
    }
}

/// The field that a field ID of this name holds, if there is one.
#[inline(always)]
fn field_in<'v, 'a>(variables: &'v Variables<'a>, name: &Name) -> Option<&'v FieldId<'a>>
    ensures { IfSome result (λ f. held_field (lookup name.now (variables_view variables.now)) ≡ Some (field_id_view f.now)) }
{
    match variables.content_of(name) {
        Some(Content::Field(Some(field))) => Some(field),
        _ => None,
    }
}

/// Whether the objects of a class have this field, and it is a number of this type.
#[inline(always)]
fn has_number(
    classes: &ClassTable,
    class: ClassId,
    field: &FieldId<'_>,
    element: ElementType,
) -> bool
    ensures { (result ≡ true) → HasNumber classes.now class.number (field_id_view field.now) element }
{
    !field.is_static
        && holds_number(element, field.field.field_type)
        && classes.assignable(class, field.class)
}

/// Where the number lies that these names tell, if they tell one: the first is of an object, and the second of a field of it that is a number
/// of this type.
#[inline(always)]
fn named_place(
    classes: &ClassTable,
    shared: &Shared<'_>,
    variables: &Variables<'_>,
    element: ElementType,
    names: Names<'_>,
) -> Option<Place>
    requires { IsGrown classes.now }
    ensures { IfSome result (λ at. NamesNumber classes.now (shared_view shared.now) variables.now element
        names.entry.object.now names.entry.field.now at.object.number at.place) }
{
    let object = object_in(shared, variables, names.object)?;
    let found = field_in(variables, names.field)?;
    let class = shared.store.class_of(object);
    if !has_number(classes, class, found, element) {
        return None;
    }
    let place = classes.place_of_field(class, *found)?;
    Some(Place { object, place })
}

/// Puts the number that a call gives into a number variable; false where it goes elsewhere, and then all is as it was.
#[inline(always)]
fn put_number<'a>(
    variables: &mut Variables<'a>,
    purpose: Purpose<'a>,
    number: i32,
) -> Result<bool, AllocError>
    ensures { IfOk result (λ took. PutsNumber variables.old purpose.entry number took variables.new) }
{
    match purpose {
        Purpose::Put(Target::Declared(VariableKind::Number, name)) => {
            variables.set_number(name, Value::Int(number))?;
            Ok(true)
        }
        Purpose::Put(Target::Assigned(name)) => match variables.content_of(name) {
            Some(Content::Number(_)) => {
                variables.set_number(name, Value::Int(number))?;
                Ok(true)
            }
            _ => Ok(false),
        },
        _ => Ok(false),
    }
}

/// Lets a call read a number of an object; false where its arguments tell none, or the number goes elsewhere than into a variable, and then
/// all is as it was.
#[inline(always)]
fn read<'a>(
    classes: &ClassTable,
    shared: &Shared<'a>,
    variables: &mut Variables<'a>,
    element: ElementType,
    i: &Invocation<'a>,
) -> Result<bool, AllocError>
    requires grown { IsGrown classes.now }
    requires reads { i.now.function ≡ function.GetField element }
    ensures { IfOk result (λ took. TriesCall classes.now (shared_view shared.now) variables.old i.entry.now took
        (shared_view shared.now) variables.new) }
{
    let Some(names) = names_read(i) else {
        return Ok(false);
    };
    let Some(at) = named_place(classes, shared, variables, element, names) else {
        return Ok(false);
    };
    let number = held_number(shared.store.value_at(at.object, at.place));
    put_number(variables, i.purpose, number)
}

/// Lets a call write a number of an object, converted to its type; false where its arguments tell none, and then all is as it was.
#[inline(always)]
fn write<'a>(
    classes: &ClassTable,
    shared: &mut Shared<'a>,
    variables: &Variables<'a>,
    element: ElementType,
    i: &Invocation<'a>,
) -> bool
    requires grown { IsGrown classes.now }
    requires writes { i.now.function ≡ function.SetField element }
    ensures { TriesCall classes.now (shared_view shared.old) variables.now i.entry.now result
        (shared_view shared.new) variables.now }
{
    let Some((names, number)) = names_written(i) else {
        return false;
    };
    let Some(at) = named_place(classes, shared, variables, element, names) else {
        return false;
    };
    let Purpose::Put(Target::Dropped) = i.purpose else {
        return false;
    };
    let number = convert(element, number);
    shared
        .store
        .set(at.object, at.place, ObjectValue::Number(number));
    true
}

/// Lets a call with no exception pending read or write a number of an object; false where it does something else or has to be checked, and
/// then all is as it was.
#[inline(always)]
fn try_call<'a>(
    classes: &ClassTable,
    shared: &mut Shared<'a>,
    variables: &mut Variables<'a>,
    i: &Invocation<'a>,
) -> Result<bool, AllocError>
    requires { IsGrown classes.now }
    ensures { IfOk result (λ took. TriesCall classes.now (shared_view shared.old) variables.old i.entry.now took
        (shared_view shared.new) variables.new) }
{
    match i.function {
        JniFunction::GetField(element) => read(classes, shared, variables, element, i),
        JniFunction::SetField(element) => Ok(write(classes, shared, variables, element, i)),
        _ => Ok(false),
    }
}

/// Lets a call in progress with no exception pending take its next step, where that reads or writes a number of an object, and begins what
/// comes next; false where there is more to do, and then all is as it was.
#[inline(never)]
pub fn attempt_field<'a>(
    alloc: Global,
    classes: &ClassTable,
    shared: &mut Shared<'a>,
    activation: &mut Activation<'a>,
) -> Result<bool, AllocError>
    requires range { IsAtStatement activation.old.work }
    requires grown { IsGrown classes.now }
    ensures step { IfOk result (λ took. AttemptsField classes.now (shared_view shared.old) activation.old took
        (shared_view shared.new) activation.new) }
    ensures range { IfOk result (λ _. IsAtStatement activation.new.work) }
{
    let Some(Task::Invoke(i)) = &activation.work.task else {
        return Ok(false);
    };
    if !try_call(classes, shared, &mut activation.locals.variables, i)? {
        return Ok(false);
    }
    begin_next(alloc, &mut activation.work)?;
    Ok(true)
}
