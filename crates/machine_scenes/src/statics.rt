//! Statics, which hold global references, weak or not.

ghost use Rattle.std.specs.Prelude.{◌≡◌, ◌<◌, ℕ, Some, IsSome, length, slice_get, slice_set, IfOk, OnErr};
ghost use Rattle.machine_scenes.specs.Statics.{MakesGlobal, MakesWeak, without_weak};
ghost use Rattle.semantics.specs.declared.static_reference.StaticReference.TheVariants.{Live, Deleted};
ghost use Rattle.tables.specs.Globals.{without};
ghost use Rattle.tables.specs.References.{address_at};

use heap::Addr;
use std::alloc::AllocError;
use tables::{Global, Globals, Weak, Weaks};

/// What a static holds: a global reference is known by its key, and a weak one by a key of its own. Whether a weak one is cleared
/// is said by its table alone.
pub type StaticReference = semantics::StaticReference<Global, Weak>;

/// Makes a global reference to the object at this address, and none for NULL.
///
/// An error says that host memory for it was refused; then all is as before.
pub fn make_global(
    globals: &mut Globals,
    reference: Option<Addr>,
) -> Result<StaticReference, AllocError>
    ensures made { IfOk result (λ held. MakesGlobal globals.old reference globals.new held) }
    ensures err { OnErr result (globals.new ≡ globals.old) }
{
    match reference {
        None => Ok(StaticReference::Empty),
        Some(addr) => match globals.make(addr) {
            Ok(key) => Ok(StaticReference::Live(key)),
            Err(_) => Err(AllocError),
        },
    }
}

/// Ends the global reference of a static that has one, and marks the static.
pub fn delete_global(statics: &mut [StaticReference], globals: &mut Globals, slot: u32)
    requires { (key : ℕ) × (slice_get statics.old slot ≡ Some (Live key)) × IsSome (address_at globals.old key) }
    ensures statics { statics.new ≡ slice_set statics.old slot Deleted }
    ensures globals { (key : ℕ) → slice_get statics.old slot ≡ Some (Live key) → globals.new ≡ without globals.old key }
{
    let place = slot as usize;
    let held = statics[place];
    match held {
        StaticReference::Live(key) => globals.delete(key).unwrap(),
        _ => unreachable!(),
    }
    statics[place] = StaticReference::Deleted;
}

/// Makes a weak global reference to the object at this address, and none for NULL.
///
/// An error says that host memory for it was refused; then all is as before.
pub fn make_weak(weaks: &mut Weaks, reference: Option<Addr>) -> Result<StaticReference, AllocError>
    ensures made { IfOk result (λ held. MakesWeak weaks.old reference weaks.new held) }
    ensures err { OnErr result (weaks.new ≡ weaks.old) }
{
    match reference {
        None => Ok(StaticReference::Empty),
        Some(addr) => match weaks.make(addr) {
            Ok(key) => Ok(StaticReference::Weakly(key)),
            Err(_) => Err(AllocError),
        },
    }
}

/// Ends the weak global reference of a static, cleared or not, where it has one, and marks the static.
pub fn delete_weak(statics: &mut [StaticReference], weaks: &mut Weaks, slot: u32)
    requires { slot < length statics.old }
    ensures statics { statics.new ≡ slice_set statics.old slot Deleted }
    ensures weaks { weaks.new ≡ without_weak weaks.old (slice_get statics.old slot) }
{
    let place = slot as usize;
    let held = statics[place];
    if let StaticReference::Weakly(key) = held {
        let _ended = weaks.delete(key).is_ok();
    }
    statics[place] = StaticReference::Deleted;
}
