//! Variables that can be NULL.

ghost use Rattle.std.specs.Prelude.{◌≡◌, length};
ghost use Rattle.machine_answers.specs.WorkedOut.{buffer_there};
ghost use Rattle.machine_steps.specs.Variables.{is_null, HasSlot, nulled_references, nulled_fields, nulled_buffers, nulled_statics};

use code::instr::NullableVariable;
use machine_scenes::buffer::Buffer;
use machine_scenes::handle::Handle;
use machine_scenes::references::{Held, References};
use machine_scenes::statics::StaticReference;
use tables::Local;

/// Whether a variable is NULL.
pub fn is_null(
    references: &References<'_>,
    fields: &[Option<Handle>],
    buffers: &[Buffer],
    variable: NullableVariable,
) -> bool
    ensures { result ≡ is_null references.now fields.now buffers.now variable }
{
    match variable {
        NullableVariable::Local(slot) => references.key(slot).is_none(),
        NullableVariable::Static(slot) => matches!(references.held(slot), Held::Empty),
        NullableVariable::FieldId(slot) => {
            fields.get(slot as usize).copied().unwrap_or(None).is_none()
        }
        NullableVariable::Buffer(slot) => {
            matches!(buffer_there(buffers, slot as usize), Buffer::Null)
        }
    }
}

/// What the slot of a buffer holds, and NULL where there is none.
#[inline(always)]
pub(crate) fn buffer_there(buffers: &[Buffer], slot: usize) -> Buffer
    ensures { result ≡ buffer_there buffers.now slot }
{
    buffers.get(slot).copied().unwrap_or(Buffer::Null)
}

/// Makes a variable NULL. A global reference that a static held stays.
pub fn set_null(
    references: &mut [Option<Local>],
    fields: &mut [Option<Handle>],
    buffers: &mut [Buffer],
    statics: &mut [StaticReference],
    variable: NullableVariable,
)
    requires { HasSlot (length references.old) (length fields.old) (length buffers.old) (length statics.old) variable }
    ensures references { references.new ≡ nulled_references variable references.old }
    ensures fields { fields.new ≡ nulled_fields variable fields.old }
    ensures buffers { buffers.new ≡ nulled_buffers variable buffers.old }
    ensures statics { statics.new ≡ nulled_statics variable statics.old }
{
    match variable {
        NullableVariable::Local(slot) => references[slot as usize] = None,
        NullableVariable::Static(slot) => statics[slot as usize] = StaticReference::Empty,
        NullableVariable::FieldId(slot) => fields[slot as usize] = None,
        NullableVariable::Buffer(slot) => buffers[slot as usize] = Buffer::Null
    }
}
