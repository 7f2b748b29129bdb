//! Traps.

ghost use Rattle.std.specs.Prelude.{◌≡◌};
ghost use Rattle.semantics.specs.Value.{trap_number};

/// Why a run stops: C or the JNI leaves undefined what would follow (ISO/IEC 9899:1999, 6.5.5 to 6.5.7; JNI
/// Specification, chapter 2, "Reporting Programming Errors"), or the program ended the run itself.
#[derive(Clone, Copy)]
pub enum Trap {
    /// Division by zero (C99, 6.5.5).
    DivisionByZero,
    /// A shift by 32 or more (C99, 6.5.7).
    ShiftTooFar,
    /// An element that isn't there.
    OutOfRange,
    /// NULL where an object, a field ID or a method ID is asked for.
    NullReference,
    /// A call that isn't allowed while an exception is pending (JNI Specification, chapter 2, "Exception Handling").
    ExceptionPending,
    /// An object of another kind than is asked for.
    WrongObject,
    /// A global reference that was deleted.
    DeletedReference,
    /// A frame with no room for a further local reference.
    NoCapacity,
    /// `FatalError` was called.
    Fatal,
    /// A call of a method from the last of 64 calls that are in progress.
    CallsTooDeep,
}

impl Trap {
    /// The number under which the trap is reported.
    pub fn number(self) -> u8
        ensures { result ≡ trap_number self }
    {
        match self {
            Trap::DivisionByZero => 1,
            Trap::ShiftTooFar => 2,
            Trap::OutOfRange => 3,
            Trap::NullReference => 4,
            Trap::ExceptionPending => 5,
            Trap::WrongObject => 6,
            Trap::DeletedReference => 7,
            Trap::NoCapacity => 8,
            Trap::Fatal => 9,
            Trap::CallsTooDeep => 10,
        }
    }
}
