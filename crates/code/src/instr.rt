//! The instructions. Sections in brackets are those of ISO/IEC 9899:1999.

ghost use Rattle.std.specs.Prelude.{◌≡◌, IfOk, map};
ghost use Rattle.std.specs.List.{list_all, list_any};
ghost use Rattle.code.specs.Call.{call_view, is_static, takes_any, IsPrepared};

pub use base::ElementType;
pub use jni::ReleaseMode;
use jni::{JniFunction, ParameterKind, ResultKind};
use std::alloc::{AllocError, Global};
use std::marker::Model;

/// An operator on two words that has a result for all of them, at `uint32_t`, or at `jint` where it says so. A comparison
/// gives a truth, which is the word 1 or 0; the words of two `jint`s, or of two flags, are equal where these are.
#[derive(Clone, Copy)]
pub enum Operator {
    /// `*` (6.5.5)
    Multiply,
    /// `+` (6.5.6)
    Add,
    /// `-` (6.5.6)
    Subtract,
    /// `&` (6.5.10)
    And,
    /// `^` (6.5.11)
    Xor,
    /// `|` (6.5.12)
    Or,
    /// `==` (6.5.9)
    Equal,
    /// `!=` (6.5.9)
    NotEqual,
    /// `<` (6.5.8)
    Less,
    /// `<=` (6.5.8)
    LessEqual,
    /// `>` (6.5.8)
    Greater,
    /// `>=` (6.5.8)
    GreaterEqual,
    /// `<` of two `jint`s (6.5.8)
    SignedLess,
    /// `<=` of two `jint`s (6.5.8)
    SignedLessEqual,
    /// `>` of two `jint`s (6.5.8)
    SignedGreater,
    /// `>=` of two `jint`s (6.5.8)
    SignedGreaterEqual,
}

/// An operator on two words at `uint32_t` that has no result for some of them.
#[derive(Clone, Copy)]
pub enum TrappingOperator {
    /// `/`, a trap by 0 (6.5.5)
    Divide,
    /// `%`, a trap by 0 (6.5.5)
    Remainder,
    /// `<<`, a trap by 32 or more (6.5.7)
    ShiftLeft,
    /// `>>`, a trap by 32 or more (6.5.7)
    ShiftRight,
}

/// An array of a function: number slots one after another, each with an element as a `jint` (6.2.5).
#[derive(Clone, Copy)]
pub struct LocalArray {
    /// The slot of the first element.
    pub start: u32,
    /// The number of elements, from 1 to 1,024.
    pub len: u32,
}

/// Where an instruction finds a reference. Slots of references are counted from 0.
#[derive(Clone, Copy)]
pub enum ReferenceOperand {
    /// `NULL`
    Null,
    /// The local reference in this slot.
    Local(u32),
}

/// A variable that can be NULL. Slots of each kind, and statics, are counted from 0.
#[derive(Clone, Copy)]
pub enum NullableVariable {
    /// The local reference in this slot.
    Local(u32),
    /// The global reference of this static.
    Static(u32),
    /// The field ID or the method ID in this slot, as both share the slots.
    FieldId(u32),
    /// The buffer in this slot.
    Buffer(u32),
}

/// Where a call finds an argument, by its kind. Slots of each kind, and statics, are counted from 0.
#[derive(Clone, Copy)]
pub enum Operand {
    /// `NULL` for a reference, a field ID, a method ID or `isCopy`.
    Null,
    /// The local reference in this slot.
    Local(u32),
    /// The global reference of this static.
    Static(u32),
    /// The topmost word of the stack that no later operand takes: a `jint`.
    Number,
    /// The field ID in this slot of field IDs and method IDs.
    FieldId(u32),
    /// The method ID in this slot of field IDs and method IDs.
    MethodId(u32),
    /// The first text of the call that no earlier operand takes.
    Text,
    /// The local array in these number slots.
    Array(LocalArray),
    /// The buffer in this slot.
    Buffer(u32),
    /// This release mode.
    Mode(ReleaseMode),
    /// The address of the flag in this number slot, for `isCopy`.
    IsCopy(u32),
}

/// Where a call's result goes. Slots of each kind, and statics, are counted from 0.
#[derive(Clone, Copy)]
pub enum Target {
    /// Nowhere.
    Dropped,
    /// Into this number slot.
    Number(u32),
    /// Into this slot of local references.
    Local(u32),
    /// Into this slot of field IDs and method IDs, a field ID.
    FieldId(u32),
    /// Into this slot of field IDs and method IDs, a method ID.
    MethodId(u32),
    /// Into the global reference of this static.
    Static(u32),
    /// Into this slot of buffers, where its variable's elements are of this type.
    Buffer(ElementType, u32),
    /// Onto the stack: the truth whether the result, a `jint`, is 0, which is the test of an `if` (6.8.4.1).
    Test,
}

/// A call of a function of the JNI, in a statement on this line (JNI Specification, chapter 4), and what its step would
/// else find in the table each time.
#[derive(Drop)]
pub struct Call {
    /// Counted from 1; a trap of the call is reported there.
    pub line: u32,
    pub target: Target,
    pub function: JniFunction,
    /// The arguments after `env`, in order.
    pub operands: Vec<Operand>,
    /// The texts among them, in order.
    pub texts: Vec<Vec<u8>>,
    /// What the function gives.
    pub result: ResultKind,
    /// Whether something has to be checked of the arguments.
    pub asks: bool,
}

/// Whether a parameter takes each local reference, and NULL.
fn takes_any(parameter: ParameterKind) -> bool
    ensures { result ≡ takes_any parameter }
{
    matches!(
        parameter,
        ParameterKind::Nullable | ParameterKind::LocalVariable
    )
}

/// Whether an argument is the global reference of a static, which may be deleted.
fn is_static(operand: Operand) -> bool
    ensures { result ≡ is_static operand }
{
    matches!(operand, Operand::Static(_))
}

/// Whether all parameters do.
fn all_take_any(parameters: &[ParameterKind]) -> bool
    ensures { result ≡ list_all takes_any parameters.now }
{
    match parameters {
        [parameter, parameters @ ..] => takes_any(*parameter) && all_take_any(parameters),
        [] => true,
    }
}

/// Whether some argument is the global reference of a static.
fn has_static(operands: &[Operand]) -> bool
    ensures { result ≡ list_any is_static operands.now }
{
    operands.iter().any(|operand| is_static(*operand))
}

impl Call {
    /// A call of a function with these operands and texts.
    pub fn new(
        line: u32,
        target: Target,
        function: JniFunction,
        operands: Vec<Operand>,
        texts: Vec<Vec<u8>>,
    ) -> Call
        ensures view { call_view result ≡ record {
          line = line;
          target = target;
          function = function;
          operands = operands.items;
          texts = map (λ text. text.items) texts.items;
        } }
        ensures prepared { IsPrepared result }
    {
        let prototype = function.prototype();
        let asks = !all_take_any(prototype.parameters) || has_static(&operands);
        Call {
            line,
            target,
            function,
            operands,
            texts,
            result: prototype.result,
            asks,
        }
    }
}

/// A call in host memory of its own, so that an instruction stays small however many arguments there are.
#[derive(Drop)]
pub struct BoxedCall {
    call: Box<Call>,
}

impl Model for BoxedCall {
    ghost use Rattle.code.specs.Call.{Call, call_view};

    ghost Value = { Call };

    ghost view = { λ b. call_view b.call.value };

    ghost use Rattle.code.specs.Call.{IsPrepared};

    ghost invariant = { λ b. IsPrepared b.call.value };
}

impl BoxedCall {
    /// Puts a call into memory of its own.
    pub fn of(alloc: Global, call: Call) -> Result<BoxedCall, AllocError>
        requires { IsPrepared call }
        ensures { IfOk result (λ boxed. boxed ≡ call_view call) }
    {
        Ok(BoxedCall {
            call: Box::new(alloc, call)?,
        })
    }

    /// The call.
    pub fn call(&self) -> &Call
        ensures view { call_view result.now ≡ self.now }
        ensures prepared { IsPrepared result.now }
    {
        &self.call
    }
}

/// One instruction, which is one step of the source, in at most 16 bytes. Slots of each kind are counted from 0. The line of an
/// instruction that can trap is its statement's, counted from 1; the trap is reported there. The number of a jump is how many
/// instructions after it are skipped, or how many places it leads back.
#[derive(Drop)]
pub enum Instr {
    /// Puts a constant onto the stack (6.4.4.1).
    Push(u32),
    /// Puts the word of a number slot onto the stack (6.5.1).
    Load(u32),
    /// Takes a word into a number slot (6.5.16.1).
    Store(u32),
    /// The bitwise complement of the topmost word (6.5.3.3).
    Complement,
    /// The other truth than the topmost word (6.5.3.3).
    Not,
    /// A conversion between `jint`, `uint32_t` and `jboolean`, which keeps the word (6.3.1.3, in two's complement).
    Convert,
    /// Takes the right operand, then the left, and puts the result.
    Operate(Operator),
    /// Takes the right operand, then the left, and puts the result, or traps on this line.
    OperateOrTrap(TrappingOperator, u32),
    /// The truth 0 stays and the jump is made; the truth 1 is taken (`&&`, 6.5.13).
    JumpIfFalseOrPop(u32),
    /// The truth 1 stays and the jump is made; the truth 0 is taken (`||`, 6.5.14).
    JumpIfTrueOrPop(u32),
    /// Takes a truth and jumps where it is 0 (6.8.4.1 and 6.8.5.1).
    JumpIfFalse(u32),
    /// Jumps over instructions (the end of an `if`'s branch, 6.8.4.1).
    Jump(u32),
    /// Jumps back (the end of a loop's turn, 6.8.5.1).
    JumpBack(u32),
    /// Takes an index and puts the element there, or traps on this line where there is none (6.5.2.1).
    LoadElement(LocalArray, u32),
    /// Takes a `jint`, then an index, and writes the element there, converted to its type, or traps on this line where there
    /// is none (6.5.16.1 and 6.3.1.3, where the signed types wrap).
    StoreElement(ElementType, LocalArray, u32),
    /// Takes an index and puts the element there of the buffer in this slot, or traps on this line where there is none
    /// (6.5.2.1). A buffer that is NULL has none.
    LoadBuffer {
        slot: u32,
        line: u32,
    },
    /// Takes a `jint`, then an index, and writes the element there of the buffer in this slot, converted to its type, or traps
    /// on this line where there is none (6.5.16.1 and 6.3.1.3, where the signed types wrap).
    StoreBuffer {
        element: ElementType,
        slot: u32,
        line: u32,
    },
    /// Writes zeros into an array (6.7.8).
    ClearArray(LocalArray),
    /// Puts the truth whether a variable is NULL, or whether it isn't (6.5.9).
    TestNull {
        variable: NullableVariable,
        equal: bool,
    },
    /// Makes a variable NULL (6.5.16.1).
    StoreNull(NullableVariable),
    /// Takes a word and prints it as a `jint`.
    PutJint,
    /// Calls a function of the JNI.
    Call(BoxedCall),
    /// Leaves the function without a result (6.8.6.4).
    Return,
    /// Takes a word and leaves the function with it (6.8.6.4).
    ReturnJint,
    /// Leaves the function with a reference (6.8.6.4).
    ReturnReference(ReferenceOperand),
}

// Code is read an instruction a step, so that its size is part of how fast a step is.
const _: () = prove!(size_of::<Instr>() <= 16);

/// Why an instruction that works on the stack and the number slots alone has no result.
#[derive(Clone, Copy, PartialEq, Eq)]
pub enum PlainTrap {
    /// A division or a remainder by zero.
    DivisionByZero,
    /// A shift by 32 or more.
    ShiftTooFar,
    /// An index at which an array has no element.
    OutOfRange,
}

/// Where an instruction leads: to the next, over a number of instructions after it, a number of places back, or to a
/// trap on a line.
#[derive(Clone, Copy, PartialEq, Eq)]
pub enum Plain {
    Next,
    Skip(u32),
    Back(u32),
    Trap(PlainTrap, u32),
}
