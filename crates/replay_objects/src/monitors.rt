//! The monitors of objects, which threads own (JNI Specification, chapter 4, "MonitorEnter" and "MonitorExit").

ghost use Rattle.std.specs.Prelude.{◌≡◌, ◌++◌, ◌∷◌, [], ◌==◌, IfOk, find, length};
ghost use Rattle.std.specs.Option.{option_map};
ghost use Rattle.semantics.specs.CallEffects.{monitor};
ghost use Rattle.semantics.specs.Thread.{monitor_of, without_monitor, without_owner};
ghost use Rattle.semantics.specs.Views.{names_of};
ghost use Rattle.replay_objects.specs.Monitors.{monitor_view, owned_objects};

use semantics::ObjectId;
use std::alloc::{AllocError, Global};
use std::marker::Model;

/// An object that a thread owns, and how many times.
#[derive(Clone, Copy)]
pub struct Monitor {
    /// The object's name.
    pub object: ObjectId,
    /// The thread's number, from 1.
    pub owner: u8,
    pub count: u8,
}

/// The monitors that threads own, seen as a list that begins with the one that changed last. Each call takes time for
/// all of them.
#[derive(Drop)]
pub struct Monitors {
    monitors: Vec<Monitor>,
}

impl Model for Monitors {
    ghost use Rattle.std.specs.Prelude.{List, map};
    ghost use Rattle.semantics.specs.Thread.{Monitor};
    ghost use Rattle.replay_objects.specs.Monitors.{monitor_view};

    ghost Value = { List Monitor };

    ghost view = { λ m. map monitor_view m.monitors.items };
}

/// The first of these monitors that is of an object.
fn monitor_in(monitors: &[Monitor], object: ObjectId) -> Option<Monitor>
    ensures { result ≡ find (λ m. m.object.number == object.number) monitors.now }
{
    monitors
        .iter()
        .copied()
        .find(|monitor| monitor.object == object)
}

impl Monitors {
    /// No monitor.
    pub fn new(alloc: Global) -> Monitors
        ensures { result ≡ [] }
    {
        Monitors {
            monitors: Vec::new(alloc),
        }
    }

    /// Whether no thread owns a monitor.
    #[inline]
    pub fn is_empty(&self) -> bool
        ensures { result ≡ (length self.now == 0) }
    {
        self.monitors.is_empty()
    }

    /// The monitor of an object.
    pub fn of(&self, object: ObjectId) -> Option<Monitor>
        ensures { option_map monitor_view result ≡ monitor_of self.now object.number }
    {
        monitor_in(&self.monitors, object)
    }

    /// Lets a thread own an object so many times, whatever its monitor was before. Memory can only be refused where it had none,
    /// and nothing changes then.
    pub fn put(&mut self, object: ObjectId, owner: u8, count: u8) -> Result<(), AllocError>
        ensures { IfOk result (λ _. self.new ≡ monitor object.number owner count ∷ without_monitor self.old object.number) }
    {
        self.remove(object);
        self.monitors.insert(
            0,
            Monitor {
                object,
                owner,
                count,
            },
        )?;
        Ok(())
    }

    /// Lets nobody own an object.
    pub fn remove(&mut self, object: ObjectId)
        ensures { self.new ≡ without_monitor self.old object.number }
    {
        self.monitors.retain(|monitor| monitor.object != object);
    }

    /// Ends what a thread owns.
    pub fn drop_owner(&mut self, owner: u8)
        ensures { self.new ≡ without_owner self.old owner }
    {
        self.monitors.retain(|monitor| monitor.owner != owner);
    }

    /// Adds the names of the objects to others.
    pub fn add_to(&self, names: &mut Vec<ObjectId>) -> Result<(), AllocError>
        ensures { IfOk result (λ _. names_of names.new.items ≡ names_of names.old.items ++ owned_objects self.now) }
    {
        for monitor in &self.monitors {
            names.push(monitor.object)?;
        }
        Ok(())
    }
}
