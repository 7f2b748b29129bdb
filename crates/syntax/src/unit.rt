//! Units and functions.

ghost use Rattle.std.specs.Prelude.{◌≡◌};
ghost use Rattle.syntax.specs.Limits.{IsTree};
ghost use Rattle.syntax.specs.Views.{unit_tree};

use crate::declared_type::{ParameterType, ReferenceType, StaticType};
use crate::name::Name;
use crate::stmt::Block;
use std::marker::Model;

/// An item of a program's text.
#[derive(Drop)]
pub enum Item {
    Static(Static),
    Function(Function),
}

/// A reference that all functions share, `static jobject x = NULL;`.
#[derive(Drop)]
pub struct Static {
    /// The line of its `static`, counted from 1.
    pub line: usize,
    pub kind: StaticType,
    pub name: Name,
}

/// The function of a native method (JNI Specification, chapter 2, "Native Method Arguments").
#[derive(Drop)]
pub struct Function {
    /// The line of its `JNIEXPORT`, counted from 1.
    pub line: usize,
    pub result: ResultType,
    pub name: Name,
    /// The name of its parameter for the class.
    pub class_name: Name,
    /// The parameters after that for the class.
    pub parameters: Vec<Parameter>,
    pub body: Block,
}

/// A parameter of a function.
#[derive(Drop)]
pub struct Parameter {
    pub kind: ParameterType,
    pub name: Name,
}

/// What a function returns.
#[derive(Clone, Copy)]
pub enum ResultType {
    /// `void`
    Void,
    /// `jint`
    Jint,
    Reference(ReferenceType),
}

/// A program's items, in the order of the text. Its tree follows the operators' precedence and keeps the limits.
pub struct Unit {
    items: Vec<Item>,
}

impl Drop for Unit {
    fn drop(self) {
        let Unit { items } = self;
        drop(items);
    }
}

impl Model for Unit {
    ghost use Rattle.std.specs.Prelude.{List};
    ghost use Rattle.std.specs.Coded.{codes};
    ghost use Rattle.syntax.specs.declared.unit.Item.{Item};
    ghost use Rattle.syntax.specs.contracts.unit.Item as item;
    ghost use Rattle.syntax.specs.Limits.{IsTree};
    ghost use Rattle.syntax.specs.Views.{unit_tree};

    ghost Value = { List Item };

    ghost coded = { Prim.hlevel (codes, item.the_row.coded) };

    ghost view = { λ u. u.items.items };

    ghost invariant = { λ u. IsTree (unit_tree u.items.items) };
}

impl Unit {
    pub fn new(items: Vec<Item>) -> Unit
        requires { IsTree (unit_tree items.items) }
        ensures { result ≡ items.items }
    {
        Unit { items }
    }

    /// The items, in the order of the text.
    pub fn items(&self) -> &[Item]
        ensures same { result.now ≡ self.now }
        ensures tree { IsTree (unit_tree self.now) }
    {
        &self.items
    }
}
