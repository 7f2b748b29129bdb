//! The syntax tree of a program text, and what contracts see of it.
#![tactic(auto)]

mod call;
mod declared_type;
mod expr;
mod expr_ref;
mod expr_stack;
mod name;
mod node;
mod null_test;
mod own_call;
mod stmt;
mod unit;

pub use base::ElementType;
pub use call::{Argument, Call, RightSide, Test};
pub use declared_type::{DeclaredType, ParameterType, ReferenceType, StaticType, VariableType};
pub use expr::{BinaryOp, Constant, Expr, PrefixOp};
pub use expr_ref::{ExprRef, Shape};
pub use expr_stack::ExprStack;
pub use name::Name;
pub use null_test::NullTest;
pub use stmt::{Block, Else, Form, PlainStmt, Stmt};
pub use unit::{Function, Item, Parameter, ResultType, Static, Unit};
