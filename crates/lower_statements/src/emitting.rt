//! One instruction after another, and the numbers in them.

ghost use Rattle.std.specs.Prelude.{◌≡◌, ◌<◌, [], ◌∷◌, ◌++◌, IfOk, OnOk, vec_len, slice_set};

use code::instr::Instr;
use std::alloc::AllocError;

/// One more instruction.
pub fn emit(code: &mut Vec<Instr>, instr: Instr) -> Result<(), AllocError>
    ensures { OnOk result (code.new.items ≡ code.old.items ++ instr ∷ []) }
{
    code.push(instr)?;
    Ok(())
}

/// Another instruction at a place: a jump, once it is known how far it leads.
pub fn replace(code: &mut Vec<Instr>, place: usize, instr: Instr)
    requires { place < vec_len code.old }
    ensures { code.new.items ≡ slice_set code.old.items place instr }
{
    code[place] = instr;
}

/// Narrows a number to the 32 bits that instructions have, or reports out of memory.
pub fn counted(number: usize) -> Result<u32, AllocError>
    ensures { IfOk result (λ n. n ≡ number) }
{
    match u32::try_from(number) {
        Ok(counted) => Ok(counted),
        Err(_) => Err(AllocError),
    }
}
