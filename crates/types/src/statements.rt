//! The rules at a statement.

ghost use Rattle.std.specs.Prelude.{◌≡◌, ℕ, List, [], ◌∷◌, not, ◌&&◌, ◌||◌, Some, OnOk, take};
ghost use Rattle.std.specs.List.{list_all};
ghost use Rattle.std.specs.Option.{option_map};
ghost use Rattle.base.specs.Options.{some_passes};
ghost use Rattle.syntax.specs.Parts.{own_call, assigned_name, call_expressions};
ghost use Rattle.base.specs.Bytes.{Identifier};
ghost use Rattle.syntax.specs.declared.unit.ResultType.{ResultType as ReturnType};
ghost use Rattle.syntax.specs.declared.unit.ResultType.TheVariants.{Void};
ghost use Rattle.syntax.specs.Shapes.{ref_tree};
ghost use Rattle.syntax.specs.Tree.{Plain};
ghost use Rattle.syntax.specs.Views.{right_side_tree, test_tree, plain_tree, form_tree, stmt_tree};
ghost use Rattle.jni.specs.JniFunction.{function_named};
ghost use Rattle.type_rules.specs.ExprTypes.{type_in, is_unknown, type_of, has_elements, is_index, is_jint, call_arguments_fit};
ghost use Rattle.type_rules.specs.declared.rule.TypeRule.TheVariants.{UnknownName, DeclaredTwice, TypeMisfit, UnknownFunction, ArgumentCount, ReferenceCopied, BadMode, ReadOnlyWrite};
ghost use Rattle.type_rules.specs.TypeRules.{is_formed, value_sets, right_side_sets, buffer_begins, declaration_fits, test_fits, return_fits, plain_fits, statement_fits, copies_reference, typing_rules, breaks_type_rule, statement_place};
ghost use Rattle.types.specs.Called.{IsCalled, IsCalledBy, function_in, call_of_test, declared};
ghost use Rattle.types.specs.AllFaults.{told_at};
ghost use Rattle.types.specs.Faults.{Faults, Judges, Tells, refused_of};
ghost use Rattle.type_rules.specs.Uses.{right_uses, test_uses, plain_uses, uses};

use crate::calls::{
    call_arguments_fit, call_fits, call_formed, call_unknown, has_wrong_count, has_wrong_mode,
    may_be_dropped, may_be_tested,
};
use crate::expressions::{has_unknown, is_null, name_type, type_of};
use crate::fault::{KeptFaults, TypeError};
use crate::meant::asked;
use crate::scope::{is_unknown, type_in};
use crate::taken::Taken;
use crate::telling::statement_detail;
use crate::ty::{
    has_elements, is_flag, is_index, is_jint, is_read_only, is_ref, is_truth, is_word,
};
use jni::{JniFunction, function_named};
use places::{Fault, Line};
use std::alloc::AllocError;
use syntax::{
    Call, DeclaredType, ExprRef, Form, Name, PlainStmt, ResultType, RightSide, Stmt, Test,
};
use type_rules::{ExprType, Known, TypeRule, declared_type, variable_type};

/// The function that a statement calls, if it is known.
pub(crate) fn function_called(form: &Form) -> Option<JniFunction>
    ensures { IsCalled result form.now }
{
    match form.own_call() {
        Some(call) => function_named(call.function.as_bytes()),
        None => None,
    }
}

/// Whether some name of a right side is not known.
fn right_unknown(known: &Known<'_, ExprType>, right: &RightSide) -> bool
    ensures { result ≡ right_uses (is_unknown known.now) (right_side_tree right.now) }
{
    match right {
        RightSide::Expr(e) => has_unknown(known, e.whole()),
        RightSide::Call(c) => call_unknown(known, c),
    }
}

/// Whether some name of a test is not known.
fn test_unknown(known: &Known<'_, ExprType>, test: &Test) -> bool
    ensures { result ≡ test_uses (is_unknown known.now) (test_tree test.now) }
{
    match test {
        Test::Expr(e) => has_unknown(known, e.whole()),
        Test::Call(c) => call_unknown(known, c),
    }
}

/// Whether some name that a plain statement uses is not known.
fn plain_unknown(known: &Known<'_, ExprType>, plain: &PlainStmt) -> bool
    ensures { result ≡ plain_uses (is_unknown known.now) (plain_tree plain.now) }
{
    match plain {
        PlainStmt::Declare(_, _, r) | PlainStmt::Assign(_, r) => right_unknown(known, r),
        PlainStmt::DeclareArray(..) => false,
        PlainStmt::AssignElement(x, i, e) => {
            is_unknown(known, x) || has_unknown(known, i.whole()) || has_unknown(known, e.whole())
        }
        PlainStmt::Perform(c) => call_unknown(known, c),
        PlainStmt::PutJint(e) => has_unknown(known, e.whole()),
    }
}

/// Whether some name that a statement uses is not known.
fn uses_unknown(known: &Known<'_, ExprType>, form: &Form) -> bool
    ensures { (line : ℕ) → result ≡ uses (is_unknown known.now) (form_tree line form.now) }
{
    match form {
        Form::Plain(plain) => plain_unknown(known, plain),
        Form::If(test, _, _) => test_unknown(known, test),
        Form::While(e, _) | Form::Return(Some(e)) => has_unknown(known, e.whole()),
        Form::Return(None) => false,
    }
}

/// Whether a statement sets a name that is not known.
fn assigns_unknown(known: &Known<'_, ExprType>, form: &Form) -> bool
    ensures { (line : ℕ) → result ≡ some_passes (is_unknown known.now)
        (assigned_name (form_tree line form.now)) }
{
    match form {
        Form::Plain(PlainStmt::Assign(x, _)) => is_unknown(known, x),
        _ => false,
    }
}

/// Whether some name that a statement uses or sets is not known. A statement that fits and calls nothing has types for
/// all of them, so it isn't looked at again.
#[tactic(auto, using(crate::proofs::StatementLemmas::unknown_names, crate::proofs::KnownLemmas::none_unknown))]
fn names_unknown(known: &Known<'_, ExprType>, form: &Form, misfits: bool) -> bool
    requires { (returns : ReturnType) × ((line : ℕ) → misfits ≡ breaks_type_rule TypeMisfit known.now []
        returns (form_tree line form.now)) }
    ensures { (line : ℕ) → result ≡ breaks_type_rule UnknownName known.now [] Void
        (form_tree line form.now) }
{
    if !misfits && form.own_call().is_none() {
        return false;
    }
    uses_unknown(known, form) || assigns_unknown(known, form)
}

/// The name that a statement declares, and its type.
pub(crate) fn declared(form: &Form) -> Option<(&Name, ExprType)>
    ensures { (line : ℕ) → option_map (λ d. (d.0.now, d.1)) result ≡ declared (form_tree line form.now) }
{
    match form {
        Form::Plain(PlainStmt::Declare(t, x, _)) => Some((x, declared_type(*t))),
        Form::Plain(PlainStmt::DeclareArray(t, x, size)) => Some((x, ExprType::Array(*t, *size))),
        _ => None,
    }
}

/// Whether a statement declares a name that is taken.
fn declares_taken(taken: &Taken<'_>, form: &Form) -> bool
    ensures { (line : ℕ) → result ≡ breaks_type_rule DeclaredTwice [] taken.now Void (form_tree line form.now) }
{
    match declared(form) {
        Some((x, _)) => taken.has(x),
        None => false,
    }
}

/// Whether a variable of a type may be set to an expression. Of a known name in a local reference another rule speaks.
fn value_sets(known: &Known<'_, ExprType>, ty: Option<ExprType>, e: ExprRef<'_>) -> bool
    ensures { result ≡ value_sets known.now ty (ref_tree e.entry) }
{
    match ty {
        Some(ExprType::Word) => is_word(type_of(known, e)),
        Some(ExprType::Jint) => is_jint(type_of(known, e)),
        Some(ExprType::Flag) => is_flag(type_of(known, e)),
        Some(ExprType::Ref) => is_null(e) || name_type(known, e).is_some(),
        Some(ExprType::Global | ExprType::Weak | ExprType::FieldId | ExprType::MethodId) => is_null(
            e,
        ),
        _ => false,
    }
}

/// Whether a variable of a type may be set to a right side.
fn right_side_sets(
    known: &Known<'_, ExprType>,
    ty: Option<ExprType>,
    right: &RightSide,
    function: Option<JniFunction>,
) -> bool
    requires { IsCalledBy function right.now }
    ensures { result ≡ right_side_sets known.now ty (right_side_tree right.now) }
{
    match right {
        RightSide::Expr(e) => value_sets(known, ty, e.whole()),
        RightSide::Call(_) => call_fits(ty, function),
    }
}

/// Whether a buffer may begin as a right side.
fn buffer_begins(ty: ExprType, right: &RightSide, function: Option<JniFunction>) -> bool
    requires { IsCalledBy function right.now }
    ensures { result ≡ buffer_begins [] ty (right_side_tree right.now) }
{
    match right {
        RightSide::Expr(e) => is_null(e.whole()),
        RightSide::Call(_) => call_fits(Some(ty), function),
    }
}

/// Whether a variable may be declared with this type and this right side.
fn declaration_fits(
    known: &Known<'_, ExprType>,
    kind: DeclaredType,
    right: &RightSide,
    function: Option<JniFunction>,
) -> bool
    requires { IsCalledBy function right.now }
    ensures { result ≡ declaration_fits known.now kind (right_side_tree right.now) }
{
    match kind {
        DeclaredType::Simple(t) => right_side_sets(known, Some(variable_type(t)), right, function),
        DeclaredType::Pointer(_) => buffer_begins(declared_type(kind), right, function),
        DeclaredType::ConstChars => buffer_begins(declared_type(kind), right, function),
    }
}

/// Whether an `if` may test this.
fn test_fits(known: &Known<'_, ExprType>, test: &Test, function: Option<JniFunction>) -> bool
    requires { function ≡ function_in (call_of_test (test_tree test.now)) }
    ensures { result ≡ test_fits known.now (test_tree test.now) }
{
    match test {
        Test::Expr(e) => is_truth(type_of(known, e.whole())),
        Test::Call(_) => may_be_tested(function),
    }
}

/// Whether a function may return this.
fn return_fits(known: &Known<'_, ExprType>, returns: ResultType, e: ExprRef<'_>) -> bool
    ensures { result ≡ return_fits known.now returns (ref_tree e.entry) }
{
    match returns {
        ResultType::Void => false,
        ResultType::Jint => is_jint(type_of(known, e)),
        ResultType::Reference(_) => is_null(e) || is_ref(name_type(known, e)),
    }
}

/// Whether an element of a named buffer or array may be set.
fn element_fits(
    known: &Known<'_, ExprType>,
    name: &Name,
    index: ExprRef<'_>,
    value: ExprRef<'_>,
) -> bool
    ensures { result ≡ (has_elements (type_in known.now name.now)
        && is_index (type_of known.now (ref_tree index.entry))
        && is_jint (type_of known.now (ref_tree value.entry))) }
{
    has_elements(type_in(known, name))
        && is_index(type_of(known, index))
        && is_jint(type_of(known, value))
}

/// Whether the parts of a plain statement fit one another, its call's arguments aside.
fn plain_fits(known: &Known<'_, ExprType>, plain: &PlainStmt, function: Option<JniFunction>) -> bool
    requires { (line : ℕ) → function ≡ function_in (own_call (Plain line (plain_tree plain.now))) }
    ensures { result ≡ plain_fits known.now (plain_tree plain.now) }
{
    match plain {
        PlainStmt::Declare(t, _, r) => declaration_fits(known, *t, r, function),
        PlainStmt::DeclareArray(..) => true,
        PlainStmt::Assign(x, r) => right_side_sets(known, type_in(known, x), r, function),
        PlainStmt::AssignElement(x, i, e) => element_fits(known, x, i.whole(), e.whole()),
        PlainStmt::Perform(_) => may_be_dropped(function),
        PlainStmt::PutJint(e) => is_jint(type_of(known, e.whole())),
    }
}

/// Whether the parts of a statement fit one another, its call's arguments aside.
pub(crate) fn statement_fits(
    known: &Known<'_, ExprType>,
    returns: ResultType,
    form: &Form,
    function: Option<JniFunction>,
) -> bool
    requires { IsCalled function form.now }
    ensures { (line : ℕ) → result ≡ statement_fits known.now returns
        (form_tree line form.now) }
{
    match form {
        Form::Plain(plain) => plain_fits(known, plain, function),
        Form::If(test, _, _) => test_fits(known, test, function),
        Form::While(e, _) => is_truth(type_of(known, e.whole())),
        Form::Return(None) => matches!(returns, ResultType::Void),
        Form::Return(Some(e)) => return_fits(known, returns, e.whole()),
    }
}

/// Whether the arguments of a statement's call do not fit, or one of them is neither bare nor has a type.
fn call_misfits(known: &Known<'_, ExprType>, form: &Form, function: Option<JniFunction>) -> bool
    requires { IsCalled function form.now }
    ensures { (line : ℕ) → result ≡ some_passes (λ c. not (list_all (is_formed known.now)
        (call_expressions c)) || not (call_arguments_fit known.now c (function_named c.function)))
        (own_call (form_tree line form.now)) }
{
    match form.own_call() {
        Some(call) => !call_formed(known, call) || !call_arguments_fit(known, function, call),
        None => false,
    }
}

/// Whether a statement does not fit. Where it fits, each of its expressions beside a call's arguments is bare or has a
/// type.
fn misfits(
    known: &Known<'_, ExprType>,
    returns: ResultType,
    form: &Form,
    function: Option<JniFunction>,
) -> bool
    requires { IsCalled function form.now }
    ensures { (line : ℕ) → result ≡ breaks_type_rule TypeMisfit known.now [] returns
        (form_tree line form.now) }
{
    !statement_fits(known, returns, form, function) || call_misfits(known, form, function)
}

/// Whether a statement calls a function that is not known.
fn calls_unknown(form: &Form, function: Option<JniFunction>) -> bool
    requires { IsCalled function form.now }
    ensures { (line : ℕ) → result ≡ breaks_type_rule UnknownFunction [] [] Void (form_tree line form.now) }
{
    match form.own_call() {
        Some(_) => function.is_none(),
        None => false,
    }
}

/// Whether a statement's call has a wrong number of arguments.
fn miscounts(form: &Form, function: Option<JniFunction>) -> bool
    requires { IsCalled function form.now }
    ensures { (line : ℕ) → result ≡ breaks_type_rule ArgumentCount [] [] Void (form_tree line form.now) }
{
    match form.own_call() {
        Some(call) => has_wrong_count(function, call),
        None => false,
    }
}

/// Whether a statement's call has a mode that is none.
fn has_bad_mode(form: &Form, function: Option<JniFunction>) -> bool
    requires { IsCalled function form.now }
    ensures { (line : ℕ) → result ≡ breaks_type_rule BadMode [] [] Void (form_tree line form.now) }
{
    match form.own_call() {
        Some(call) => has_wrong_mode(function, call),
        None => false,
    }
}

/// Whether a known name is copied into a variable of a type that is a local reference.
fn copies(known: &Known<'_, ExprType>, ty: Option<ExprType>, right: &RightSide) -> bool
    ensures { result ≡ copies_reference known.now ty
        (Some (right_side_tree right.now)) }
{
    match right {
        RightSide::Expr(e) => is_ref(ty) && name_type(known, e.whole()).is_some(),
        RightSide::Call(_) => false,
    }
}

/// Whether a statement copies a known name into a local reference.
fn copies_reference(known: &Known<'_, ExprType>, form: &Form) -> bool
    ensures { (line : ℕ) → result ≡ breaks_type_rule ReferenceCopied known.now [] Void
        (form_tree line form.now) }
{
    match form {
        Form::Plain(PlainStmt::Declare(DeclaredType::Simple(t), _, r)) => {
            copies(known, Some(variable_type(*t)), r)
        }
        Form::Plain(PlainStmt::Assign(x, r)) => copies(known, type_in(known, x), r),
        _ => false,
    }
}

/// Whether a statement writes to a buffer that may not be written.
fn writes_read_only(known: &Known<'_, ExprType>, form: &Form) -> bool
    ensures { (line : ℕ) → result ≡ breaks_type_rule ReadOnlyWrite known.now [] Void
        (form_tree line form.now) }
{
    match form {
        Form::Plain(PlainStmt::AssignElement(x, _, _)) => is_read_only(type_in(known, x)),
        _ => false,
    }
}

/// The first rule that a statement breaks although its types fit.
fn misused(
    known: &Known<'_, ExprType>,
    form: &Form,
    function: Option<JniFunction>,
) -> Option<TypeRule>
    requires { IsCalled function form.now }
    ensures { (returns : ReturnType) (taken : List Identifier) (line : ℕ) → Judges result line (refused_of returns
        known.now taken (form_tree line form.now) line (ReferenceCopied ∷ BadMode ∷ ReadOnlyWrite ∷ [])) }
{
    if copies_reference(known, form) {
        return Some(TypeRule::ReferenceCopied);
    }
    if has_bad_mode(form, function) {
        return Some(TypeRule::BadMode);
    }
    if writes_read_only(known, form) {
        return Some(TypeRule::ReadOnlyWrite);
    }
    None
}

/// The first rule that a statement breaks of those on the function that it calls, the number of its arguments, and the rules
/// after these.
fn miscalled(
    known: &Known<'_, ExprType>,
    form: &Form,
    function: Option<JniFunction>,
) -> Option<TypeRule>
    requires { IsCalled function form.now }
    ensures { (returns : ReturnType) (taken : List Identifier) (line : ℕ) → Judges result line (refused_of returns
        known.now taken (form_tree line form.now) line
        (UnknownFunction ∷ ArgumentCount ∷ ReferenceCopied ∷ BadMode ∷ ReadOnlyWrite ∷ [])) }
{
    if calls_unknown(form, function) {
        return Some(TypeRule::UnknownFunction);
    }
    if miscounts(form, function) {
        return Some(TypeRule::ArgumentCount);
    }
    misused(known, form, function)
}

/// The first rule that a statement breaks, without the blocks inside it. All rules are judged, in the order of their
/// numbers.
fn first_broken(
    known: &Known<'_, ExprType>,
    taken: &Taken<'_>,
    returns: ResultType,
    form: &Form,
) -> Option<TypeRule>
    ensures { (line : ℕ) → Judges result line (refused_of returns known.now taken.now
        (form_tree line form.now) line typing_rules) }
{
    let function = function_called(form);
    let misfits = misfits(known, returns, form, function);
    if names_unknown(known, form, misfits) {
        return Some(TypeRule::UnknownName);
    }
    if declares_taken(taken, form) {
        return Some(TypeRule::DeclaredTwice);
    }
    if misfits {
        return Some(TypeRule::TypeMisfit);
    }
    miscalled(known, form, function)
}

/// What stands around a statement that breaks a rule.
#[derive(Clone, Copy)]
struct Surroundings<'s, 'a, 'n> {
    /// The names that are known there.
    known: &'s Known<'a, ExprType>,
    /// The names that are taken in its function.
    taken: &'s Taken<'n>,
    /// What its function returns.
    returns: ResultType,
}

impl Surroundings<'_, '_, '_> {
    /// Keeps the fault of a statement that breaks a rule, with what is told of it. Its place is there before the words are
    /// sought.
    #[cold]
    fn keep_broken(
        self,
        stmt: &Stmt,
        rule: TypeRule,
        faults: &mut KeptFaults,
    ) -> Result<(), AllocError>
        ensures { (broken : Faults) → Judges (Some rule) stmt.now.line broken
            → OnOk result (Tells faults.old faults.new (take 1 broken)) }
    {
        faults.reserve()?;
        let found = statement_detail(self.known, self.returns, &stmt.form, rule);
        let detail = if faults.asks() {
            asked(faults.allocator(), self.known, self.taken, rule, found)
        } else {
            found
        };
        let line = Line::told(stmt.line, detail);
        faults.keep(Err(TypeError::Fault(Fault { rule, line })))
    }
}

/// Keeps what is found at a statement of a function with this result, where these names are known and these are taken.
pub(crate) fn check_statement(
    known: &Known<'_, ExprType>,
    taken: &Taken<'_>,
    returns: ResultType,
    stmt: &Stmt,
    faults: &mut KeptFaults,
) -> Result<(), AllocError>
    ensures { OnOk result (Tells faults.old faults.new (told_at (statement_place returns
        known.now taken.now (stmt_tree stmt.now)))) }
{
    match first_broken(known, taken, returns, &stmt.form) {
        Some(rule) => {
            let around = Surroundings {
                known,
                taken,
                returns,
            };
            around.keep_broken(stmt, rule, faults)
        }
        None => Ok(()),
    }
}
