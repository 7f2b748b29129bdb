//! Comparisons of a bare name with NULL.

ghost use Rattle.std.specs.Prelude.{◌≡◌, true, false};
ghost use Rattle.std.specs.Option.{option_map};
ghost use Rattle.syntax.specs.NullTests.{null_test_of, null_test_value};
ghost use Rattle.syntax.specs.Parts.{null_tested};
ghost use Rattle.syntax.specs.Shapes.{ref_tree};
ghost use Rattle.syntax.specs.declared.expr.BinaryOp.TheVariants.{Equal, NotEqual};
ghost use Rattle.syntax.specs.Tree.{Binary};

use crate::expr::{BinaryOp, Constant};
use crate::expr_ref::{ExprRef, Shape};
use crate::name::Name;

/// A comparison of a bare name with NULL.
#[derive(Clone, Copy)]
pub struct NullTest<'a> {
    pub name: &'a Name,
    /// Whether by `==`, else by `!=`.
    pub equal: bool,
}

/// The comparison of these operands, where a bare name is on the left and NULL on the right.
fn with_null<'a>(left: ExprRef<'a>, right: ExprRef<'_>, equal: bool) -> Option<NullTest<'a>>
    ensures equal { equal ≡ true → option_map null_test_value result ≡ null_test_of (Binary Equal (ref_tree left.entry) (ref_tree right.entry)) }
    ensures unequal { equal ≡ false → option_map null_test_value result ≡ null_test_of (Binary NotEqual (ref_tree left.entry) (ref_tree right.entry)) }
{
    match left.shape() {
        Shape::Variable(name) => match right.shape() {
            Shape::Named(Constant::Null) => Some(NullTest { name, equal }),
            _ => None,
        },
        _ => None,
    }
}

/// The test of a name against NULL that this operator makes of its operands, if it makes one.
fn comparison<'a>(op: BinaryOp, left: ExprRef<'a>, right: ExprRef<'_>) -> Option<NullTest<'a>>
    ensures { option_map null_test_value result ≡ null_test_of (Binary op (ref_tree left.entry) (ref_tree right.entry)) }
{
    match op {
        BinaryOp::Equal => with_null(left, right, true),
        BinaryOp::NotEqual => with_null(left, right, false),
        BinaryOp::LogicalOr
        | BinaryOp::LogicalAnd
        | BinaryOp::BitOr
        | BinaryOp::BitXor
        | BinaryOp::BitAnd
        | BinaryOp::Less
        | BinaryOp::LessEqual
        | BinaryOp::Greater
        | BinaryOp::GreaterEqual
        | BinaryOp::ShiftLeft
        | BinaryOp::ShiftRight
        | BinaryOp::Add
        | BinaryOp::Subtract
        | BinaryOp::Multiply
        | BinaryOp::Divide
        | BinaryOp::Remainder => None,
    }
}

impl<'a> ExprRef<'a> {
    /// The comparison of a bare name with NULL that this is as a whole: `x == NULL` or `x != NULL`.
    #[tactic(auto, using(crate::proofs::NullTests::name_tested))]
    pub fn null_test(self) -> Option<NullTest<'a>>
        ensures test { option_map null_test_value result ≡ null_test_of (ref_tree self.entry) }
        ensures name { option_map (λ t. t.name.now) result ≡ null_tested (ref_tree self.entry) }
    {
        match self.shape() {
            Shape::Binary(op, left, right) => comparison(op, left, right),
            Shape::Number { .. } => None,
            Shape::Named(_) => None,
            Shape::Variable(_) => None,
            Shape::Element(..) => None,
            Shape::Prefix(..) => None,
            Shape::Paren(_) => None,
        }
    }
}
