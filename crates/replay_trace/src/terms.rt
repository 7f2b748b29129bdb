//! The parts of expressions that steps work out.

use crate::held::put_value;
use crate::line::Line;
use replay_terms::{Part, Term};
use semantics::Value;
use std::alloc::AllocError;
use syntax::{BinaryOp, Constant, Name, PrefixOp};

/// The spelling of an operator, with spaces.
fn mark_of(op: BinaryOp) -> &'static [u8] {
    match op {
        BinaryOp::LogicalOr => b" || ",
        BinaryOp::LogicalAnd => b" && ",
        BinaryOp::BitOr => b" | ",
        BinaryOp::BitXor => b" ^ ",
        BinaryOp::BitAnd => b" & ",
        BinaryOp::Equal => b" == ",
        BinaryOp::NotEqual => b" != ",
        BinaryOp::Less => b" < ",
        BinaryOp::LessEqual => b" <= ",
        BinaryOp::Greater => b" > ",
        BinaryOp::GreaterEqual => b" >= ",
        BinaryOp::ShiftLeft => b" << ",
        BinaryOp::ShiftRight => b" >> ",
        BinaryOp::Add => b" + ",
        BinaryOp::Subtract => b" - ",
        BinaryOp::Multiply => b" * ",
        BinaryOp::Divide => b" / ",
        BinaryOp::Remainder => b" % ",
    }
}

/// The spelling of a prefix.
fn prefix_of(op: PrefixOp) -> &'static [u8] {
    match op {
        PrefixOp::LogicalNot => b"!",
        PrefixOp::Complement => b"~",
        PrefixOp::ToWord => b"(uint32_t)",
        PrefixOp::ToInt => b"(jint)",
    }
}

/// The spelling of a constant.
pub(crate) fn constant_of(constant: Constant) -> &'static [u8] {
    match constant {
        Constant::True => b"JNI_TRUE",
        Constant::False => b"JNI_FALSE",
        Constant::Commit => b"JNI_COMMIT",
        Constant::Abort => b"JNI_ABORT",
        Constant::Null => b"NULL",
    }
}

/// The value of a term that has one.
pub(crate) fn value_of(term: &Term<'_>) -> Option<Value> {
    match term {
        Term::Done(value) => Some(*value),
        _ => None,
    }
}

/// The value of a part that has one.
fn value_in(part: &Part<'_>) -> Option<Value> {
    match part {
        Part::Done(value) => Some(*value),
        Part::Number { .. } | Part::Read(_) => None,
        Part::Whole(term) => value_of(term),
    }
}

/// The value of the part of a term that was worked out last: parts are, from left to right.
#[cycle(latest)]
pub(crate) fn latest_value(term: &Term<'_>) -> Option<Value> {
    match term {
        Term::Done(value) => Some(*value),
        Term::Number { .. } | Term::Named(_) | Term::Read(_) | Term::IsNull(_, _) => None,
        Term::Element(_, part) | Term::Prefix(_, part) => latest_in(part),
        Term::And(part, _) | Term::Or(part, _) => latest_value(part),
        Term::Binary(_, left, right) => match latest_in(right) {
            Some(value) => Some(value),
            None => latest_in(left),
        },
    }
}

/// The same of a part.
#[cycle(latest)]
fn latest_in(part: &Part<'_>) -> Option<Value> {
    match part {
        Part::Done(value) => Some(*value),
        Part::Number { .. } | Part::Read(_) => None,
        Part::Whole(term) => latest_value(term),
    }
}

/// Adds an element's name and place.
fn put_element(line: &mut Line, name: &Name, place: Value) -> Result<(), AllocError> {
    line.text(name.as_bytes())?;
    line.text(b"[")?;
    put_value(line, place)?;
    line.text(b"]")
}

/// Adds a comparison with NULL.
fn put_null_test(line: &mut Line, equal: bool, name: &Name) -> Result<(), AllocError> {
    line.text(name.as_bytes())?;
    line.text(if equal { b" == NULL" } else { b" != NULL" })
}

/// Adds what the left side of `&&` or `||` decides.
fn put_decision(
    line: &mut Line,
    left: Value,
    mark: &[u8],
    decisive: bool,
) -> Result<(), AllocError> {
    put_value(line, left)?;
    line.text(mark)?;
    match left {
        Value::Truth(truth) if truth == decisive => {
            line.text(b".. is ")?;
            put_value(line, left)
        }
        _ => line.text(b".. goes to its right side"),
    }
}

/// Adds a number as it is written.
fn put_literal(line: &mut Line, value: u32, unsigned: bool) -> Result<(), AllocError> {
    line.number(value)?;
    line.text(if unsigned { b"u" } else { b"" })
}

/// Adds the part of a term that is worked out next. Whether its value is still to be told.
#[cycle(put_part)]
pub(crate) fn put_part(line: &mut Line, term: &Term<'_>) -> Result<bool, AllocError> {
    match term {
        Term::Done(value) => put_value(line, *value)?,
        Term::Number { value, unsigned } => put_literal(line, *value, *unsigned)?,
        Term::Named(constant) => line.text(constant_of(*constant))?,
        Term::Read(name) => line.text(name.as_bytes())?,
        Term::IsNull(equal, name) => put_null_test(line, *equal, name)?,
        Term::Element(name, part) => match value_in(part) {
            Some(place) => put_element(line, name, place)?,
            None => return put_inner(line, part),
        },
        Term::Prefix(op, part) => match value_in(part) {
            Some(value) => {
                line.text(prefix_of(*op))?;
                put_value(line, value)?;
            }
            None => return put_inner(line, part),
        },
        Term::And(part, _) => match value_of(part) {
            Some(left) => {
                put_decision(line, left, b" && ", false)?;
                return Ok(false);
            }
            None => return put_part(line, part),
        },
        Term::Or(part, _) => match value_of(part) {
            Some(left) => {
                put_decision(line, left, b" || ", true)?;
                return Ok(false);
            }
            None => return put_part(line, part),
        },
        Term::Binary(op, left, right) => match value_in(left) {
            Some(value) => match value_in(right) {
                Some(other) => {
                    put_value(line, value)?;
                    line.text(mark_of(*op))?;
                    put_value(line, other)?;
                }
                None => return put_inner(line, right),
            },
            None => return put_inner(line, left),
        },
    }
    Ok(true)
}

/// Adds what is worked out next of a part. Whether its value is still to be told.
#[cycle(put_part)]
fn put_inner(line: &mut Line, part: &Part<'_>) -> Result<bool, AllocError> {
    match part {
        Part::Done(value) => put_value(line, *value)?,
        Part::Number { value, unsigned } => put_literal(line, *value, *unsigned)?,
        Part::Read(name) => line.text(name.as_bytes())?,
        Part::Whole(term) => return put_part(line, term),
    }
    Ok(true)
}
