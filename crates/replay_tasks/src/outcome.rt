//! What a step of a task does.

ghost use Rattle.std.specs.Prelude.{◌≡◌};
ghost use Rattle.semantics.specs.Task.{kind_of, variable_kind};
ghost use Rattle.replay_tasks.specs.Outcomes.{IsNamed, target_name};

use replay_terms::{Given, Lent};
use semantics::{ObjectId, Trap, Value, VariableKind};
use syntax::{Block, DeclaredType, ElementType, Expr, Name, VariableType};

/// Where the result of a call or NULL goes.
#[derive(Clone, Copy)]
pub enum Target<'a> {
    /// A new variable.
    Declared(VariableKind, &'a Name),
    /// A variable that is there, or a static.
    Assigned(&'a Name),
    Dropped,
}

impl<'a> Target<'a> {
    /// The name of the variable or the static.
    #[inline(always)]
    pub(crate) fn name(self) -> &'a Name
        requires { IsNamed self }
        ensures { result.now ≡ target_name self.entry }
    {
        match self {
            Target::Declared(_, name) | Target::Assigned(name) => name,
            Target::Dropped => unreachable!(),
        }
    }
}

/// What the result of a call is for.
#[derive(Clone, Copy)]
pub enum Purpose<'a> {
    /// It goes there.
    Put(Target<'a>),
    /// It is the test of an `if`, with its two branches.
    Test(&'a Block, Option<&'a Block>),
}

/// What comes at the end of a block, after its statements.
#[derive(Clone, Copy)]
pub enum End<'a> {
    /// The end of an `if`.
    If,
    /// The end of a turn, with the loop's line, test and body.
    Turn {
        line: usize,
        test: &'a Expr,
        body: &'a Block,
    },
}

/// What a call gives that returns.
#[derive(Clone, Copy)]
pub enum CallResult {
    Nothing,
    Number(Value),
    /// NULL or an object, by its name.
    Reference(Option<ObjectId>),
}

/// What a step of a task did.
#[derive(Clone, Copy)]
pub enum Outcome<'a> {
    /// A part of it was reduced.
    Stays,
    /// It is over, and this number was printed.
    Printed(i32),
    /// It is over, and the variable has this value.
    Sets(&'a Name, Value),
    /// It is over, and NULL goes there.
    SetsNull(Target<'a>),
    /// It is over, and what a call gave goes there.
    Gives(Target<'a>, Given<'a>),
    /// It is over, and the buffer that a call gave goes there.
    Lends(Target<'a>, Lent),
    /// It is over, and the `if` of this line has its test, whether a call gave 0, and its two branches.
    Tests {
        line: usize,
        zero: bool,
        block: &'a Block,
        otherwise: Option<&'a Block>,
    },
    /// It is over, and the element has this number, converted to its type.
    SetsElement {
        name: &'a Name,
        index: usize,
        number: i32,
    },
    /// It is over, and there is an array of this many zeros.
    Makes {
        element: ElementType,
        name: &'a Name,
        len: u32,
    },
    /// It is over, and the statements of this block are to do, up to this end; none where an `else` is missing.
    Enters(Option<&'a Block>, End<'a>),
    /// It is over: a branch of an `if` has ended, or a loop.
    Ends,
    /// The call is over, and gives this.
    Returned(CallResult),
    /// It waits, a call in a statement of this line, for that of the method whose function has this name, if few enough calls wait.
    Calls {
        line: usize,
        function: &'a [u8],
    },
    /// The machine stops, by a statement of this line.
    Trapped {
        trap: Trap,
        line: usize,
    },
    /// It can take no step.
    Impossible,
}

/// What a declaration of this type makes.
pub(crate) fn kind_of(t: DeclaredType) -> VariableKind
    ensures { result ≡ kind_of t }
{
    match t {
        DeclaredType::Simple(t) => variable_kind(t),
        DeclaredType::Pointer(element) => VariableKind::Buffer(element),
        DeclaredType::ConstChars => VariableKind::Buffer(ElementType::Char),
    }
}

/// The same of a type that is a name alone.
fn variable_kind(t: VariableType) -> VariableKind
    ensures { result ≡ variable_kind t }
{
    match t {
        VariableType::Uint32 | VariableType::Jint => VariableKind::Number,
        VariableType::Jsize | VariableType::Jboolean => VariableKind::Number,
        VariableType::JfieldId => VariableKind::Field,
        VariableType::JmethodId => VariableKind::Method,
        VariableType::Reference(_) => VariableKind::Reference,
    }
}
