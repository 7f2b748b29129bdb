//! What is told of a broken rule: what was found, and what was wanted.

use crate::calls::argument_fits;
use crate::expressions::{is_null, type_of};
use crate::scope::{has_name, is_unknown, type_in};
use crate::statements::{declared, function_called, statement_fits};
use crate::ty::{has_elements, is_index};
use base::limits::MOST_FURTHER;
use jni::{Access, JniFunction, ParameterKind, ResultKind};
use places::Detail;
use syntax::{
    Argument, BinaryOp, Call, Constant, DeclaredType, ElementType, ExprRef, Form, Function, Name,
    PlainStmt, PrefixOp, ResultType, RightSide, Shape, Test,
};
use type_rules::{ExprType, Known, Question, TypeRule, declared_type, first_name};

/// An element type in C's words.
fn element_words(element: ElementType) -> &'static [u8] {
    match element {
        ElementType::Int => b"jint",
        ElementType::Short => b"jshort",
        ElementType::Byte => b"jbyte",
        ElementType::Char => b"jchar",
    }
}

/// An operator in C's words.
fn operator_words(op: BinaryOp) -> &'static [u8] {
    match op {
        BinaryOp::LogicalOr => b" || ",
        BinaryOp::LogicalAnd => b" && ",
        BinaryOp::BitOr => b" | ",
        BinaryOp::BitXor => b" ^ ",
        BinaryOp::BitAnd => b" & ",
        BinaryOp::Equal => b" == ",
        BinaryOp::NotEqual => b" != ",
        BinaryOp::Less => b" < ",
        BinaryOp::LessEqual => b" <= ",
        BinaryOp::Greater => b" > ",
        BinaryOp::GreaterEqual => b" >= ",
        BinaryOp::ShiftLeft => b" << ",
        BinaryOp::ShiftRight => b" >> ",
        BinaryOp::Add => b" + ",
        BinaryOp::Subtract => b" - ",
        BinaryOp::Multiply => b" * ",
        BinaryOp::Divide => b" / ",
        BinaryOp::Remainder => b" % ",
    }
}

/// A named constant in C's words.
fn constant_words(constant: Constant) -> &'static [u8] {
    match constant {
        Constant::True => b"JNI_TRUE",
        Constant::False => b"JNI_FALSE",
        Constant::Commit => b"JNI_COMMIT",
        Constant::Abort => b"JNI_ABORT",
        Constant::Null => b"NULL",
    }
}

/// Puts a type in C's words.
fn with_type(detail: Detail, ty: Option<ExprType>) -> Detail {
    match ty {
        Some(ExprType::Word) => detail.words(b"uint32_t"),
        Some(ExprType::Jint) => detail.words(b"jint"),
        Some(ExprType::Flag) => detail.words(b"jboolean"),
        Some(ExprType::Truth) => detail.words(b"a truth value"),
        Some(ExprType::Ref) => detail.words(b"a local reference"),
        Some(ExprType::Global) => detail.words(b"a static reference"),
        Some(ExprType::Weak) => detail.words(b"jweak"),
        Some(ExprType::FieldId) => detail.words(b"jfieldID"),
        Some(ExprType::MethodId) => detail.words(b"jmethodID"),
        Some(ExprType::Buffer(element, true)) => detail.words(element_words(element)).words(b" *"),
        Some(ExprType::Buffer(_, false)) => detail.words(b"const jchar *"),
        Some(ExprType::Array(element, _)) => {
            detail.words(b"an array of ").words(element_words(element))
        }
        None => detail.words(b"no value"),
    }
}

/// Puts what an expression is.
fn with_expression(detail: Detail, known: &Known<'_, ExprType>, e: ExprRef<'_>) -> Detail {
    match e.shape() {
        Shape::Named(constant) => match type_of(known, e) {
            Some(ty) => with_type(detail, Some(ty)),
            None => detail.words(constant_words(constant)),
        },
        _ => with_type(detail, type_of(known, e)),
    }
}

/// An expression is found, where this is wanted.
fn instead(known: &Known<'_, ExprType>, e: ExprRef<'_>, wanted: &[u8]) -> Detail {
    with_expression(Detail::of(b"found "), known, e)
        .words(b", wanted ")
        .words(wanted)
}

/// What the operand of a prefix has to be.
fn wanted_after(op: PrefixOp) -> &'static [u8] {
    match op {
        PrefixOp::LogicalNot => b"a truth value",
        PrefixOp::Complement => b"uint32_t",
        PrefixOp::ToWord | PrefixOp::ToInt => b"uint32_t, jint or jboolean",
    }
}

/// What the operands of an operator have to be.
fn wanted_beside(op: BinaryOp, right: ExprRef<'_>) -> &'static [u8] {
    match op {
        BinaryOp::LogicalOr | BinaryOp::LogicalAnd => b"two truth values",
        BinaryOp::Equal | BinaryOp::NotEqual => {
            if is_null(right) {
                b"the name of a reference, a jfieldID, a jmethodID or a buffer"
            } else {
                b"two uint32_t, two jint or two jboolean"
            }
        }
        BinaryOp::Less | BinaryOp::LessEqual | BinaryOp::Greater | BinaryOp::GreaterEqual => {
            b"two uint32_t or two jint"
        }
        _ => b"two uint32_t",
    }
}

/// The innermost part of an expression whose own parts don't fit each other.
fn unformed(known: &Known<'_, ExprType>, e: ExprRef<'_>) -> Option<Detail> {
    match e.shape() {
        Shape::Number { .. } | Shape::Named(_) | Shape::Variable(_) => None,
        Shape::Paren(a) => unformed(known, a),
        Shape::Element(x, i) => match unformed(known, i) {
            Some(detail) => Some(detail),
            None => unindexed(known, x, i),
        },
        Shape::Prefix(op, a) => match unformed(known, a) {
            Some(detail) => Some(detail),
            None => match type_of(known, e) {
                Some(_) => None,
                None => Some(instead(known, a, wanted_after(op))),
            },
        },
        Shape::Binary(op, left, right) => match unformed(known, left) {
            Some(detail) => Some(detail),
            None => match unformed(known, right) {
                Some(detail) => Some(detail),
                None => match type_of(known, e) {
                    Some(_) => None,
                    None => Some(unjoined(known, op, left, right)),
                },
            },
        },
    }
}

/// What is wrong with an element and its index.
fn unindexed(known: &Known<'_, ExprType>, name: &Name, index: ExprRef<'_>) -> Option<Detail> {
    let ty = type_in(known, name);
    if !has_elements(ty) {
        let detail = with_type(Detail::of(b"found "), ty);
        return Some(
            detail
                .words(b" ")
                .words(name.as_bytes())
                .words(b", wanted an array or a buffer"),
        );
    }
    if !is_index(type_of(known, index)) {
        return Some(instead(known, index, b"an index: uint32_t or jint"));
    }
    None
}

/// Two operands that don't fit their operator.
fn unjoined(
    known: &Known<'_, ExprType>,
    op: BinaryOp,
    left: ExprRef<'_>,
    right: ExprRef<'_>,
) -> Detail {
    let detail = with_expression(Detail::of(b"found "), known, left).words(operator_words(op));
    with_expression(detail, known, right)
        .words(b", wanted ")
        .words(wanted_beside(op, right))
}

/// An expression doesn't fit where this is wanted.
fn misfit(known: &Known<'_, ExprType>, e: ExprRef<'_>, wanted: &[u8]) -> Detail {
    match unformed(known, e) {
        Some(detail) => detail,
        None => instead(known, e, wanted),
    }
}

/// Puts what a variable of a type may be set to.
fn with_right_sides(detail: Detail, ty: Option<ExprType>) -> Detail {
    match ty {
        Some(ExprType::Ref) => detail.words(b"NULL or a call that gives a local reference"),
        Some(ExprType::Global) => detail.words(b"NULL or a call of NewGlobalRef"),
        Some(ExprType::Weak) => detail.words(b"NULL or a call of NewWeakGlobalRef"),
        Some(ExprType::FieldId) => detail.words(b"NULL or a call that gives a jfieldID"),
        Some(ExprType::MethodId) => detail.words(b"NULL or a call that gives a jmethodID"),
        Some(ExprType::Buffer(..)) => with_type(detail.words(b"a call that gives "), ty),
        Some(ExprType::Array(..)) => detail.words(b"an element of the array"),
        _ => with_type(detail, ty),
    }
}

/// Puts what a call gives.
fn with_result(detail: Detail, kind: ResultKind) -> Detail {
    match kind {
        ResultKind::GivesNothing => detail.words(b"nothing"),
        ResultKind::GivesInt => detail.words(b"jint"),
        ResultKind::GivesFlag => detail.words(b"jboolean"),
        ResultKind::NewLocal => detail.words(b"a local reference"),
        ResultKind::NewGlobal => detail.words(b"a global reference"),
        ResultKind::NewWeak => detail.words(b"a weak global reference"),
        ResultKind::GivesField => detail.words(b"jfieldID"),
        ResultKind::GivesMethod => detail.words(b"jmethodID"),
        ResultKind::GivesBuffer(access) => with_access(detail, access),
    }
}

/// Puts the type of the buffers of an access.
fn with_access(detail: Detail, access: Access) -> Detail {
    match access {
        Access::ElementsCopy(element) => detail.words(element_words(element)).words(b" *"),
        Access::ArrayView => detail.words(b"jint *, jshort *, jbyte * or jchar *"),
        Access::CharsCopy | Access::CharsView => detail.words(b"const jchar *"),
    }
}

/// Where alone a frame is pushed.
const PUSHES: &[u8] =
    b"PushLocalFrame is called only in `if ((*env)->PushLocalFrame(env, n) == 0)`";

/// A call's result doesn't fit a variable of this type.
fn misfit_result(ty: Option<ExprType>, function: Option<JniFunction>) -> Detail {
    match function {
        None => Detail::none(),
        Some(JniFunction::PushLocalFrame) => Detail::of(PUSHES),
        Some(f) => with_type(
            with_result(Detail::of(b"found "), f.prototype().result).words(b", wanted "),
            ty,
        ),
    }
}

/// A right side doesn't fit a variable of this type.
fn misfit_right(
    known: &Known<'_, ExprType>,
    ty: Option<ExprType>,
    right: &RightSide,
    function: Option<JniFunction>,
) -> Detail {
    match right {
        RightSide::Call(_) => misfit_result(ty, function),
        RightSide::Expr(e) => match unformed(known, e.whole()) {
            Some(detail) => detail,
            None => {
                let detail = with_expression(Detail::of(b"found "), known, e.whole()).words(
                    b", wanted ",
                );
                with_right_sides(detail, ty)
            }
        },
    }
}

/// A buffer doesn't begin as a right side.
fn misfit_buffer(
    known: &Known<'_, ExprType>,
    ty: ExprType,
    right: &RightSide,
    function: Option<JniFunction>,
) -> Detail {
    match right {
        RightSide::Call(_) => misfit_result(Some(ty), function),
        RightSide::Expr(e) => {
            let detail = with_expression(Detail::of(b"found "), known, e.whole());
            with_right_sides(detail.words(b", wanted NULL or "), Some(ty))
        }
    }
}

/// An element isn't set to such a value.
fn misfit_element(
    known: &Known<'_, ExprType>,
    name: &Name,
    index: ExprRef<'_>,
    value: ExprRef<'_>,
) -> Detail {
    match unformed(known, index) {
        Some(detail) => detail,
        None => match unindexed(known, name, index) {
            Some(detail) => detail,
            None => misfit(known, value, b"jint"),
        },
    }
}

/// A test of an `if` doesn't fit.
fn misfit_test(known: &Known<'_, ExprType>, test: &Test) -> Detail {
    match test {
        Test::Expr(e) => misfit(known, e.whole(), b"a truth value"),
        Test::Call(call) => Detail::of(b"found a test of ")
            .words(call.function.as_bytes())
            .words(b" for 0, wanted one of PushLocalFrame"),
    }
}

/// A returned value doesn't fit the function's result.
fn misfit_return(known: &Known<'_, ExprType>, returns: ResultType, e: ExprRef<'_>) -> Detail {
    match returns {
        ResultType::Void => Detail::of(b"found a value, wanted `return;`"),
        ResultType::Jint => misfit(known, e, b"jint"),
        ResultType::Reference(_) => misfit(known, e, b"NULL or the name of a local reference"),
    }
}

/// A call's result can't be dropped.
fn undroppable(call: &Call, function: Option<JniFunction>) -> Detail {
    match function {
        Some(JniFunction::PushLocalFrame) => Detail::of(PUSHES),
        _ => Detail::of(b"found a call of ")
            .words(call.function.as_bytes())
            .words(b" alone, wanted a variable that keeps its result"),
    }
}

/// A right side doesn't fit the type of its declaration.
fn misfit_declaration(
    known: &Known<'_, ExprType>,
    kind: DeclaredType,
    right: &RightSide,
    function: Option<JniFunction>,
) -> Detail {
    let ty = declared_type(kind);
    match kind {
        DeclaredType::Simple(_) => misfit_right(known, Some(ty), right, function),
        DeclaredType::Pointer(_) | DeclaredType::ConstChars => {
            misfit_buffer(known, ty, right, function)
        }
    }
}

/// The parts of a plain statement don't fit each other, its call's arguments aside.
fn misfit_plain(
    known: &Known<'_, ExprType>,
    plain: &PlainStmt,
    function: Option<JniFunction>,
) -> Detail {
    match plain {
        PlainStmt::Declare(t, _, r) => misfit_declaration(known, *t, r, function),
        PlainStmt::DeclareArray(..) => Detail::none(),
        PlainStmt::Assign(x, r) => misfit_right(known, type_in(known, x), r, function),
        PlainStmt::AssignElement(x, i, e) => misfit_element(known, x, i.whole(), e.whole()),
        PlainStmt::Perform(call) => undroppable(call, function),
        PlainStmt::PutJint(e) => misfit(known, e.whole(), b"jint"),
    }
}

/// The parts of a statement don't fit each other, its call's arguments aside.
fn misfit_statement(
    known: &Known<'_, ExprType>,
    returns: ResultType,
    form: &Form,
    function: Option<JniFunction>,
) -> Detail {
    match form {
        Form::Plain(plain) => misfit_plain(known, plain, function),
        Form::If(test, _, _) => misfit_test(known, test),
        Form::While(e, _) => misfit(known, e.whole(), b"a truth value"),
        Form::Return(None) => Detail::of(b"found `return;`, wanted a value"),
        Form::Return(Some(e)) => misfit_return(known, returns, e.whole()),
    }
}

/// Puts what an argument is.
fn with_argument(detail: Detail, known: &Known<'_, ExprType>, argument: &Argument) -> Detail {
    match argument {
        Argument::Value(e) => with_expression(detail, known, e.whole()),
        Argument::Text(_) => detail.words(b"a string"),
        Argument::AddressOf(x) => with_type(detail.words(b"the address of "), type_in(known, x)),
    }
}

/// Puts what a parameter takes.
fn with_parameter(detail: Detail, kind: ParameterKind) -> Detail {
    match kind {
        ParameterKind::Nullable
        | ParameterKind::NonNull
        | ParameterKind::ClassObject
        | ParameterKind::AnyArray
        | ParameterKind::ObjectArray
        | ParameterKind::StringObject
        | ParameterKind::NumberArray(_) => detail.words(b"the name of a reference"),
        ParameterKind::AnyReference => detail.words(b"the name of a reference, weak or not"),
        ParameterKind::LocalVariable => detail.words(b"the name of a local reference"),
        ParameterKind::StaticVariable => detail.words(b"the name of a static"),
        ParameterKind::WeakVariable => detail.words(b"the name of a jweak"),
        ParameterKind::FieldID => detail.words(b"the name of a jfieldID"),
        ParameterKind::MethodID => detail.words(b"the name of a jmethodID"),
        ParameterKind::IntNumber => detail.words(b"jint"),
        ParameterKind::TextBytes => detail.words(b"a string"),
        ParameterKind::ArrayVariable(element) => detail
            .words(b"the name of an array of ")
            .words(element_words(element)),
        ParameterKind::BufferVariable(access) => with_access(detail, access),
        ParameterKind::Mode => detail.words(b"a release mode"),
        ParameterKind::IsCopy => detail.words(b"NULL or the address of a jboolean"),
        ParameterKind::Passed => detail.words(b"jint, NULL or the name of a reference"),
    }
}

/// An argument whose own parts don't fit each other.
fn unformed_argument(known: &Known<'_, ExprType>, argument: &Argument) -> Option<Detail> {
    match argument {
        Argument::Value(e) => unformed(known, e.whole()),
        Argument::Text(_) | Argument::AddressOf(_) => None,
    }
}

/// What an argument of a function has to be, by its number from 0 on.
fn parameter(function: JniFunction, number: usize) -> Option<ParameterKind> {
    match function.prototype().parameters.get(number) {
        Some(kind) => Some(*kind),
        None if function.calls_method() => Some(ParameterKind::Passed),
        None => None,
    }
}

/// The first argument of a call that doesn't fit, by its number after `env`.
fn misfit_call(known: &Known<'_, ExprType>, call: &Call, function: Option<JniFunction>) -> Detail {
    for (number, argument) in call.arguments.iter().enumerate() {
        if let Some(detail) = unformed_argument(known, argument) {
            return detail;
        }
        let kind = match function {
            Some(f) => parameter(f, number),
            None => None,
        };
        if let Some(kind) = kind {
            if !argument_fits(known, kind, argument) {
                let detail = Detail::of(call.function.as_bytes())
                    .words(b", argument ")
                    .number(number.saturating_add(1))
                    .words(b" after env: found ");
                let detail = with_argument(detail, known, argument).words(b", wanted ");
                return with_parameter(detail, kind);
            }
        }
    }
    Detail::none()
}

/// What doesn't fit in a statement.
fn misfit_form(known: &Known<'_, ExprType>, returns: ResultType, form: &Form) -> Detail {
    let function = function_called(form);
    if !statement_fits(known, returns, form, function) {
        return misfit_statement(known, returns, form, function);
    }
    match form.own_call() {
        None => Detail::none(),
        Some(call) => misfit_call(known, call, function),
    }
}

/// Whether a name isn't known.
#[derive(Clone, Copy)]
struct Unknown<'k, 'a> {
    known: &'k Known<'a, ExprType>,
}

impl Question for Unknown<'_, '_> {
    fn holds(&self, name: &Name, _has_index: bool) -> bool {
        is_unknown(self.known, name)
    }
}

/// The first name that a statement sets or uses and that isn't known.
fn unknown_name<'f>(known: &Known<'_, ExprType>, form: &'f Form) -> Option<&'f Name> {
    match form {
        Form::Plain(PlainStmt::Assign(x, _)) if is_unknown(known, x) => Some(x),
        _ => first_name(form, &Unknown { known }),
    }
}

/// A name alone.
fn named(name: Option<&Name>) -> Detail {
    match name {
        Some(name) => Detail::of(name.as_bytes()),
        None => Detail::none(),
    }
}

/// The name that a statement declares.
fn declared_name(form: &Form) -> Option<&Name> {
    match declared(form) {
        Some((name, _)) => Some(name),
        None => None,
    }
}

/// Puts how many arguments a function takes after `env`.
fn with_count(detail: Detail, function: JniFunction) -> Detail {
    let own = function.prototype().parameters.len();
    let detail = detail.number(own);
    if function.calls_method() {
        return detail
            .words(b" to ")
            .number(own.saturating_add(MOST_FURTHER));
    }
    detail
}

/// How many arguments a call has, and how many its function takes.
fn miscounted(call: &Call) -> Detail {
    let detail = Detail::of(call.function.as_bytes());
    match jni::function_named(call.function.as_bytes()) {
        None => detail,
        Some(f) => with_count(
            detail
                .words(b": found ")
                .number(call.arguments.len())
                .words(b" after env, wanted "),
            f,
        ),
    }
}

/// The name that a reference is set to.
fn copied(form: &Form) -> Detail {
    match form {
        Form::Plain(
            PlainStmt::Declare(_, _, RightSide::Expr(e)) | PlainStmt::Assign(_, RightSide::Expr(e)),
        ) => {
            match e.whole().shape() {
                Shape::Variable(x) => Detail::of(x.as_bytes()),
                _ => Detail::none(),
            }
        }
        _ => Detail::none(),
    }
}

/// What is told of a rule that a statement breaks.
pub(crate) fn statement_detail(
    known: &Known<'_, ExprType>,
    returns: ResultType,
    form: &Form,
    rule: TypeRule,
) -> Detail {
    match rule {
        TypeRule::UnknownName => named(unknown_name(known, form)),
        TypeRule::DeclaredTwice => named(declared_name(form)),
        TypeRule::TypeMisfit => misfit_form(known, returns, form),
        TypeRule::ReferenceCopied => copied(form),
        TypeRule::ReadOnlyWrite => match form {
            Form::Plain(PlainStmt::AssignElement(x, _, _)) => named(Some(x)),
            _ => Detail::none(),
        },
        TypeRule::UnknownFunction | TypeRule::ArgumentCount | TypeRule::BadMode => {
            match form.own_call() {
                Some(call) => call_detail(call, rule),
                None => Detail::none(),
            }
        }
    }
}

/// What is told of a rule that a call breaks.
fn call_detail(call: &Call, rule: TypeRule) -> Detail {
    match rule {
        TypeRule::ArgumentCount => miscounted(call),
        TypeRule::BadMode => Detail::of(call.function.as_bytes()).words(
            b": wanted 0, JNI_COMMIT or JNI_ABORT",
        ),
        _ => Detail::of(call.function.as_bytes()),
    }
}

/// The first of these names that another one is spelled like.
fn repeated(names: &[Name]) -> Option<&Name> {
    for (i, name) in names.iter().enumerate() {
        if has_name(&names[i + 1..], name) {
            return Some(name);
        }
    }
    None
}

/// What is told of a rule that a function's head breaks after items of these names, where its parameters and the statics have
/// those of `entry`.
pub(crate) fn head_detail(names: &[Name], entry: &[Name], f: &Function, rule: TypeRule) -> Detail {
    match rule {
        TypeRule::UnknownName => Detail::of(f.name.as_bytes()).words(
            b" is no native method's name: wanted Java_CLASS_METHOD",
        ),
        _ => {
            if has_name(names, &f.name) {
                return Detail::of(f.name.as_bytes());
            }
            named(repeated(entry))
        }
    }
}
