//! Traps of instructions.

ghost use Rattle.std.specs.Prelude.{◌≡◌};
ghost use Rattle.code_meaning.specs.Does.{trap_of};

use code::instr::PlainTrap;
use semantics::Trap;

/// The trap of an instruction that works on the stack and the number slots alone.
pub fn trap_of(trap: PlainTrap) -> Trap
    ensures { result ≡ trap_of trap }
{
    match trap {
        PlainTrap::DivisionByZero => Trap::DivisionByZero,
        PlainTrap::ShiftTooFar => Trap::ShiftTooFar,
        PlainTrap::OutOfRange => Trap::OutOfRange,
    }
}
