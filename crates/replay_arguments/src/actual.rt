//! The arguments of a call, looked up in its own step.

ghost use Rattle.std.specs.Prelude.{◌≡◌, ◌++◌, IfOk, IfSome, drop, map, slice_get, zip};
ghost use Rattle.std.specs.Option.{option_map};
ghost use Rattle.base.specs.Bytes.{lookup};
ghost use Rattle.syntax.specs.Shapes.{ref_tree};
ghost use Rattle.syntax.specs.Views.{argument_tree};
ghost use Rattle.classes.specs.FieldViews.{field_id_view};
ghost use Rattle.jni.specs.declared.kinds.ParameterKind.{ParameterKind as Kind};
ghost use Rattle.jni.specs.declared.kinds.ParameterKind.TheVariants.{Passed};
ghost use Rattle.semantics.specs.Arguments.{actuals, address_given, field_argument, field_given, look_up, look_up_expression, method_argument, method_given, mode_given, mode_of, named_variable, number_given, object_given, passed_value, reference_argument, reference_given, text_given, variable_given};
ghost use Rattle.semantics.specs.CallEffects.{level_of};
ghost use Rattle.semantics.specs.Sight.{Sight, held_field, held_method};
ghost use Rattle.semantics.specs.Task.{Given, NumberOperand, PassedName};
ghost use Rattle.semantics.specs.Thread.{Shared as SharedOfThreads};
ghost use Rattle.semantics.specs.Views.{name_of, object_value_view};
ghost use Rattle.replay_arguments.specs.Actuals.{IsReadyAt, actual_view, name_view, given_field};
ghost use Rattle.replay_terms.specs.Views.{operand_ref_view, operands_view, held_view, method_view, term_view, variables_view};
ghost use Rattle.replay_arguments.specs.Shares.{shared_view, sight_in};

use crate::shared::Shared;
use class_rules::ClassId;
use classes::fields::FieldId;
pub use jni::ReleaseMode;
use jni::{JniFunction, ParameterKind};
use replay_terms::{
    Content, MethodId, OperandRef, Operands, StaticReference, Term, Variables, as_reference,
    held_reference, passed,
};
use semantics::{Level, NO_OBJECT, ObjectId, ObjectValue, Value};
use std::alloc::{AllocError, Global};
use syntax::{Argument, Constant, ExprRef, Name, Shape};

/// An argument of a call, looked up.
#[derive(Clone, Copy)]
pub enum Actual<'a> {
    /// What a variable or a static holds, and its name.
    Reference(Option<&'a Name>, StaticReference),
    Field(Option<FieldId<'a>>),
    Method(Option<MethodId<'a>>),
    Number(i32),
    Text(&'a [u8]),
    /// The variable itself, not its value.
    Variable(Option<&'a Name>),
    Mode(ReleaseMode),
    Nothing,
}

// ---- looking up

/// The argument at a place of a call that is to be looked up in the call's own step, or is worked out already; none where there is no such
/// argument for one of these parameters.
#[inline(always)]
pub fn ready_actual<'a>(
    shared: &Shared<'_>,
    variables: &Variables<'a>,
    parameters: &[ParameterKind],
    operands: &Operands<'a>,
    place: usize,
) -> Option<Actual<'a>>
    ensures { IfSome result (λ a. IsReadyAt (sight_in (shared_view shared.now) variables.now) parameters.now
        (operands_view operands.now) place (actual_view a)) }
{
    let parameter = parameters.get(place)?;
    match operands.get(place)? {
        OperandRef::Given(argument) => {
            Some(given_argument(shared, variables, *parameter, argument))
        }
        OperandRef::Number(Term::Done(Value::Int(z))) => Some(Actual::Number(*z)),
        _ => None,
    }
}

/// The arguments of a call, its numbers being worked out.
pub fn actuals<'a>(
    alloc: Global,
    shared: &Shared<'_>,
    variables: &Variables<'a>,
    function: JniFunction,
    operands: &Operands<'a>,
) -> Result<Vec<Actual<'a>>, AllocError>
    ensures { IfOk result (λ args. map actual_view args.items
        ≡ actuals (sight_in (shared_view shared.now) variables.now) function
        (operands_view operands.now)) }
{
    let mut actuals = Vec::new(alloc);
    push_actuals(
        &mut actuals,
        shared,
        variables,
        function.prototype().parameters,
        operands,
        0,
    )?;
    if !function.calls_method() {
        return Ok(actuals);
    }
    push_passed(&mut actuals, shared, variables, operands, 2)?;
    Ok(actuals)
}

/// Looks up the arguments for these parameters, from a place on.
fn push_actuals<'a>(
    actuals: &mut Vec<Actual<'a>>,
    shared: &Shared<'_>,
    variables: &Variables<'a>,
    parameters: &[ParameterKind],
    operands: &Operands<'a>,
    place: usize,
) -> Result<(), AllocError>
    ensures { IfOk result (λ _. map actual_view actuals.new.items
        ≡ map actual_view actuals.old.items ++ map (look_up (sight_in (shared_view shared.now) variables.now))
        (zip parameters.entry.now (drop place (operands_view operands.entry.now)))) }
{
    if place >= operands.count() {
        return Ok(());
    }
    match parameters {
        [] => Ok(()),
        [parameter, parameters @ ..] => match operands.get(place) {
            None => Ok(()),
            Some(operand) => {
                actuals.push(look_up(shared, variables, *parameter, operand))?;
                push_actuals(actuals, shared, variables, parameters, operands, place + 1)
            }
        },
    }
}

/// Looks up what a method is given, from a place on.
fn push_passed<'a>(
    actuals: &mut Vec<Actual<'a>>,
    shared: &Shared<'_>,
    variables: &Variables<'a>,
    operands: &Operands<'a>,
    place: usize,
) -> Result<(), AllocError>
    ensures { IfOk result (λ _. map actual_view actuals.new.items
        ≡ map actual_view actuals.old.items ++ map (λ o. look_up (sight_in (shared_view shared.now) variables.now) (Passed, o))
        (drop place (operands_view operands.entry.now))) }
{
    if place >= operands.count() {
        return Ok(());
    }
    match operands.get(place) {
        None => Ok(()),
        Some(operand) => {
            actuals.push(look_up(shared, variables, ParameterKind::Passed, operand))?;
            push_passed(actuals, shared, variables, operands, place + 1)
        }
    }
}

/// What an argument for this parameter is.
pub fn look_up<'a>(
    shared: &Shared<'_>,
    variables: &Variables<'a>,
    parameter: ParameterKind,
    operand: OperandRef<'_, 'a>,
) -> Actual<'a>
    ensures { actual_view result ≡ look_up (sight_in (shared_view shared.now) variables.now) (parameter, operand_ref_view operand.entry) }
{
    match operand {
        OperandRef::Number(t) => number_argument(t),
        OperandRef::Passed(name) => named_reference(shared, variables, name),
        OperandRef::Given(argument) => given_argument(shared, variables, parameter, argument),
    }
}

/// A number that is worked out.
fn number_argument<'a>(t: &Term<'_>) -> Actual<'a>
    ensures { (sight : Sight) (p : Kind) → actual_view result ≡ look_up sight (p, NumberOperand (term_view t.now)) }
{
    match t {
        Term::Done(Value::Int(z)) => Actual::Number(*z),
        _ => Actual::Nothing,
    }
}

/// An argument that is given as it is written.
#[inline(always)]
fn given_argument<'a>(
    shared: &Shared<'_>,
    variables: &Variables<'a>,
    parameter: ParameterKind,
    argument: &'a Argument,
) -> Actual<'a>
    ensures { actual_view result ≡ look_up (sight_in (shared_view shared.now) variables.now) (parameter, Given (argument_tree argument.now)) }
{
    match argument {
        Argument::Text(bytes) => Actual::Text(bytes),
        Argument::AddressOf(name) => Actual::Variable(Some(name)),
        Argument::Value(e) => look_up_expression(shared, variables, parameter, e.whole()),
    }
}

/// An argument that is neither number nor text.
fn look_up_expression<'a>(
    shared: &Shared<'_>,
    variables: &Variables<'a>,
    parameter: ParameterKind,
    e: ExprRef<'a>,
) -> Actual<'a>
    ensures { actual_view result ≡ look_up_expression (sight_in (shared_view shared.now) variables.now) parameter (ref_tree e.entry) }
{
    match parameter {
        ParameterKind::FieldID => field_argument(variables, e),
        ParameterKind::MethodID => method_argument(variables, e),
        ParameterKind::ArrayVariable(_) => Actual::Variable(named_variable(e)),
        ParameterKind::BufferVariable(_) => Actual::Variable(named_variable(e)),
        ParameterKind::Mode => Actual::Mode(mode_of(e)),
        ParameterKind::IsCopy => Actual::Nothing,
        _ => reference_argument(shared, variables, e),
    }
}

/// The variable that is named.
fn named_variable(e: ExprRef<'_>) -> Option<&Name>
    ensures { name_view result ≡ named_variable (ref_tree e.entry) }
{
    match e.shape() {
        Shape::Variable(name) => Some(name),
        _ => None,
    }
}

/// The mode that stands for `JNI_COMMIT`, `JNI_ABORT` or 0.
fn mode_of(e: ExprRef<'_>) -> ReleaseMode
    ensures { result ≡ mode_of (ref_tree e.entry) }
{
    match e.shape() {
        Shape::Named(Constant::Commit) => ReleaseMode::CopyBack,
        Shape::Named(Constant::Abort) => ReleaseMode::FreeUncopied,
        _ => ReleaseMode::CopyBackAndFree,
    }
}

/// A name or NULL where a field ID is asked for.
fn field_argument<'a>(variables: &Variables<'a>, e: ExprRef<'a>) -> Actual<'a>
    ensures { (shared : SharedOfThreads) → actual_view result ≡ field_argument (sight_in shared variables.now) (ref_tree e.entry) }
{
    match e.shape() {
        Shape::Variable(name) => Actual::Field(field_of(variables, name)),
        _ => Actual::Field(None),
    }
}

/// What a field ID holds.
fn field_of<'a>(variables: &Variables<'a>, name: &Name) -> Option<FieldId<'a>>
    ensures { option_map field_id_view result ≡ held_field (lookup name.now (variables_view variables.now)) }
{
    match variables.content_of(name) {
        None => None,
        Some(content) => match content {
            Content::Field(field) => *field,
            Content::Number(_) | Content::Reference { .. } => None,
            Content::Method(_) | Content::Array(_, _) => None,
            Content::Buffer(_) | Content::Copy { .. } | Content::View { .. } => None,
        },
    }
}

/// A name or NULL where a method ID is asked for.
fn method_argument<'a>(variables: &Variables<'a>, e: ExprRef<'a>) -> Actual<'a>
    ensures { (shared : SharedOfThreads) → actual_view result ≡ method_argument (sight_in shared variables.now) (ref_tree e.entry) }
{
    match e.shape() {
        Shape::Variable(name) => Actual::Method(method_of(variables, name)),
        _ => Actual::Method(None),
    }
}

/// What a method ID holds.
fn method_of<'a>(variables: &Variables<'a>, name: &Name) -> Option<MethodId<'a>>
    ensures { option_map method_view result ≡ held_method (lookup name.now (variables_view variables.now)) }
{
    match variables.content_of(name) {
        None => None,
        Some(content) => match content {
            Content::Method(method) => *method,
            Content::Number(_) | Content::Reference { .. } => None,
            Content::Field(_) | Content::Array(_, _) => None,
            Content::Buffer(_) | Content::Copy { .. } | Content::View { .. } => None,
        },
    }
}

/// The reference of a name.
fn named_reference<'a>(shared: &Shared<'_>, variables: &Variables<'a>, name: &'a Name) -> Actual<'a>
    ensures { (p : Kind) → actual_view result ≡ look_up (sight_in (shared_view shared.now) variables.now) (p, PassedName name.entry.now) }
{
    let held = held_reference(&shared.statics, variables, name);
    Actual::Reference(Some(name), held)
}

/// A name or NULL where a reference is asked for.
fn reference_argument<'a>(
    shared: &Shared<'_>,
    variables: &Variables<'a>,
    e: ExprRef<'a>,
) -> Actual<'a>
    ensures { actual_view result ≡ reference_argument (sight_in (shared_view shared.now) variables.now) (ref_tree e.entry) }
{
    match e.shape() {
        Shape::Variable(name) => named_reference(shared, variables, name),
        _ => Actual::Reference(None, StaticReference::Empty),
    }
}

/// The level of the local reference of this name; 0 where there is none.
pub fn level_of(variables: &Variables<'_>, name: &[u8]) -> Level
    ensures { result.number ≡ level_of (lookup name.now (variables_view variables.now)) }
{
    match variables.content_named(name) {
        Some(Content::Reference { level, .. }) => *level,
        _ => Level { number: 0 },
    }
}

// ---- an argument by its place after `env`, from 0

/// The argument at a place.
fn actual_at<'a>(actuals: &[Actual<'a>], place: usize) -> Option<Actual<'a>>
    ensures { option_map actual_view result ≡ slice_get (map actual_view actuals.now) place }
{
    actuals.get(place).copied()
}

/// The reference at a place.
pub fn reference_given(actuals: &[Actual<'_>], place: usize) -> Option<ObjectId>
    ensures { name_of result ≡ reference_given (map actual_view actuals.now) place }
{
    match actual_at(actuals, place) {
        Some(Actual::Reference(_, StaticReference::Live(name))) => Some(name),
        _ => None,
    }
}

/// The bytes of a name, and none where there is none.
fn bytes_of<'a>(name: Option<&'a Name>) -> &'a [u8]
    ensures { result.now ≡ name_view name.entry }
{
    match name {
        Some(name) => name.as_bytes(),
        None => &[],
    }
}

/// The name of the variable or static at a place, which is empty where there is none.
pub fn variable_given<'a>(actuals: &[Actual<'a>], place: usize) -> &'a [u8]
    ensures { result.now ≡ variable_given (map actual_view actuals.now) place }
{
    match actual_at(actuals, place) {
        Some(Actual::Reference(name, _) | Actual::Variable(name)) => bytes_of(name),
        _ => &[],
    }
}

/// The name of the variable whose address is at a place.
pub fn address_given<'a>(actuals: &[Actual<'a>], place: usize) -> Option<&'a [u8]>
    ensures { option_map (λ x. x.now) result ≡ address_given (map actual_view actuals.now) place }
{
    match actual_at(actuals, place) {
        Some(Actual::Variable(name)) => Some(bytes_of(name)),
        _ => None,
    }
}

/// The object at a place, and `NO_OBJECT` for NULL.
pub fn object_given(actuals: &[Actual<'_>], place: usize) -> ObjectId
    ensures { result.number ≡ object_given (map actual_view actuals.now) place }
{
    match reference_given(actuals, place) {
        Some(name) => name,
        None => NO_OBJECT,
    }
}

/// The class whose object is at a place, which has the class's number, and `NO_CLASS` for NULL.
pub fn class_given(actuals: &[Actual<'_>], place: usize) -> ClassId
    ensures { result.number ≡ object_given (map actual_view actuals.now) place }
{
    ClassId {
        number: object_given(actuals, place).number,
    }
}

/// The number at a place.
pub fn number_given(actuals: &[Actual<'_>], place: usize) -> i32
    ensures { result ≡ number_given (map actual_view actuals.now) place }
{
    match actual_at(actuals, place) {
        Some(Actual::Number(z)) => z,
        _ => 0,
    }
}

/// The text at a place.
pub fn text_given<'a>(actuals: &[Actual<'a>], place: usize) -> &'a [u8]
    ensures { result.now ≡ text_given (map actual_view actuals.now) place }
{
    match actual_at(actuals, place) {
        Some(Actual::Text(bytes)) => bytes,
        _ => &[],
    }
}

/// The mode at a place.
pub fn mode_given(actuals: &[Actual<'_>], place: usize) -> ReleaseMode
    ensures { result ≡ mode_given (map actual_view actuals.now) place }
{
    match actual_at(actuals, place) {
        Some(Actual::Mode(mode)) => mode,
        _ => ReleaseMode::CopyBackAndFree,
    }
}

/// The field ID at a place.
pub fn field_given<'a>(actuals: &[Actual<'a>], place: usize) -> Option<FieldId<'a>>
    ensures { given_field result ≡ field_given (map actual_view actuals.now) place }
{
    match actual_at(actuals, place) {
        Some(Actual::Field(field)) => field,
        _ => None,
    }
}

/// The method ID at a place.
pub fn method_given<'a>(actuals: &[Actual<'a>], place: usize) -> Option<MethodId<'a>>
    ensures { option_map method_view result ≡ method_given (map actual_view actuals.now) place }
{
    match actual_at(actuals, place) {
        Some(Actual::Method(method)) => method,
        _ => None,
    }
}

// ---- what a method is given

/// What a method is given, of the arguments of the call of it.
pub fn passed_values(alloc: Global, actuals: &[Actual<'_>]) -> Result<Vec<ObjectValue>, AllocError>
    ensures { IfOk result (λ values. map object_value_view values.items ≡ map passed_value (drop 2 (map actual_view actuals.now))) }
{
    let mut values = Vec::new(alloc);
    push_values(&mut values, passed(actuals))?;
    Ok(values)
}

/// Adds what is passed.
fn push_values(values: &mut Vec<ObjectValue>, actuals: &[Actual<'_>]) -> Result<(), AllocError>
    ensures { IfOk result (λ _. map object_value_view values.new.items
        ≡ map object_value_view values.old.items ++ map passed_value (map actual_view actuals.entry.now)) }
{
    match actuals {
        [] => Ok(()),
        [actual, actuals @ ..] => {
            values.push(passed_value(*actual))?;
            push_values(values, actuals)
        }
    }
}

/// What a method is given that is passed this.
fn passed_value(actual: Actual<'_>) -> ObjectValue
    ensures { object_value_view result ≡ passed_value (actual_view actual.entry) }
{
    match actual {
        Actual::Number(z) => ObjectValue::Number(z),
        Actual::Reference(_, held) => ObjectValue::Reference(as_reference(held)),
        _ => ObjectValue::Reference(None),
    }
}
