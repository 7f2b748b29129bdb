//! What is known of a variable, changed, and the frames.

ghost use Rattle.std.specs.Prelude.{◌≡◌, ◌+◌, map, OnOk};
ghost use Rattle.std.specs.Option.{option_map};
ghost use Rattle.region_rules.specs.Regions.{made_usable};
ghost use Rattle.region_rules.specs.RegionStates.{BufferIn, with_changed, after_pop, made_free, killed, killed_from, buffer_from};
ghost use Rattle.region_states.specs.StatesInMemory.{variable_state};
ghost use Rattle.region_states.specs.VariableChanges.{get_value, change_value, set_from};

use crate::states::{FlowState, VariableState};
use crate::tally::Tally;
use jni::Access;
use semantics::Level;
use std::alloc::AllocError;

/// A change of what is known of a variable, which holds afterwards what it held.
#[derive(Clone, Copy)]
pub enum Change {
    /// An untested buffer becomes usable.
    Usable,
    /// A reference dies.
    Kill,
}

impl<'a> VariableState<'a> {
    /// A buffer after a Get, or after NULL.
    pub(crate) fn buffer_after(get: Option<(Access, Option<&'a [u8]>)>) -> VariableState<'a>
        ensures { variable_state result ≡ BufferIn (buffer_from (option_map get_value get.entry)) }
    {
        match get {
            Some((access, Some(array))) => VariableState::Untested { access, array },
            Some((access, None)) => VariableState::Untested { access, array: &[] },
            None => VariableState::Free,
        }
    }

    fn freed(self) -> VariableState<'a>
        ensures { variable_state result ≡ made_free (variable_state self.entry) }
    {
        match self {
            VariableState::Reference { level, live } => VariableState::Reference { level, live },
            VariableState::Free => VariableState::Free,
            VariableState::Untested { .. } => VariableState::Free,
            VariableState::Usable { .. } => VariableState::Free,
        }
    }

    fn made_usable(self) -> VariableState<'a>
        ensures { variable_state result ≡ made_usable (variable_state self.entry) }
    {
        match self {
            VariableState::Reference { level, live } => VariableState::Reference { level, live },
            VariableState::Free => VariableState::Free,
            VariableState::Untested { access, array } => VariableState::Usable { access, array },
            VariableState::Usable { access, array } => VariableState::Usable { access, array },
        }
    }

    fn killed(self) -> VariableState<'a>
        ensures { variable_state result ≡ killed (variable_state self.entry) }
    {
        match self {
            VariableState::Reference { level, .. } => VariableState::Reference {
                level,
                live: false,
            },
            VariableState::Free => VariableState::Free,
            VariableState::Untested { access, array } => VariableState::Untested { access, array },
            VariableState::Usable { access, array } => VariableState::Usable { access, array },
        }
    }

    fn killed_from(self, level: Level) -> VariableState<'a>
        ensures { variable_state result ≡ killed_from level.number (variable_state self.entry) }
    {
        match self {
            VariableState::Reference { level: own, live } => VariableState::Reference {
                level: own,
                live: live && own.number < level.number,
            },
            VariableState::Free => VariableState::Free,
            VariableState::Untested { access, array } => VariableState::Untested { access, array },
            VariableState::Usable { access, array } => VariableState::Usable { access, array },
        }
    }

    fn set_to(self, get: Option<(Access, Option<&'a [u8]>)>) -> VariableState<'a>
        ensures { variable_state result ≡ set_from (option_map get_value get.entry) (variable_state self.entry) }
    {
        match self {
            VariableState::Reference { level, .. } => VariableState::Reference {
                level,
                live: true,
            },
            VariableState::Free => VariableState::buffer_after(get),
            VariableState::Untested { .. } => VariableState::buffer_after(get),
            VariableState::Usable { .. } => VariableState::buffer_after(get),
        }
    }

    /// What is known of a variable after a change.
    fn changed(self, change: Change) -> VariableState<'a>
        ensures { variable_state result ≡ change_value change (variable_state self.entry) }
    {
        match change {
            Change::Usable => self.made_usable(),
            Change::Kill => self.killed(),
        }
    }
}

/// The references of this level and of higher ones die.
fn kill_from(variables: &mut Vec<VariableState>, level: Level)
    ensures { map variable_state variables.new.items
        ≡ map (killed_from level.number) (map variable_state variables.old.items) }
{
    for i in 0..variables.len() {
        variables[i] = variables[i].killed_from(level);
    }
}

impl<'a> FlowState<'a> {
    /// A change of one variable, if it is one.
    pub(crate) fn change(&mut self, name: &[u8], change: Change)
        ensures { self.new ≡ with_changed self.old name.now (change_value change) }
    {
        match self.names.number_of(name) {
            Some(number) => {
                let old = self.facts.variables[number];
                let known = old.changed(change);
                self.facts.tally.replace(old, known);
                self.facts.variables[number] = known;
            }
            None => {}
        }
    }

    /// A buffer becomes free, if it is one.
    pub(crate) fn free(&mut self, name: &[u8])
        ensures { self.new ≡ with_changed self.old name.now made_free }
    {
        match self.names.number_of(name) {
            Some(number) => {
                let old = self.facts.variables[number];
                let known = old.freed();
                self.facts.holders.forget(old);
                self.facts.tally.replace(old, known);
                self.facts.variables[number] = known;
            }
            None => {}
        }
    }

    /// A variable is set; a buffer to what a Get with this access and array gives, or else to NULL.
    pub(crate) fn set(
        &mut self,
        name: &[u8],
        get: Option<(Access, Option<&'a [u8]>)>,
    ) -> Result<(), AllocError>
        ensures { OnOk result (self.new ≡ with_changed self.old name.now (set_from (option_map get_value get.entry))) }
    {
        match self.names.number_of(name) {
            Some(number) => {
                let old = self.facts.variables[number];
                let known = old.set_to(get);
                self.facts.holders.note(known)?;
                self.facts.holders.forget(old);
                self.facts.tally.replace(old, known);
                self.facts.variables[number] = known;
                Ok(())
            }
            None => Ok(()),
        }
    }

    /// A frame ends, with its references.
    pub(crate) fn pop_frame(&mut self)
        ensures { self.new ≡ after_pop self.old }
    {
        let frames = self.facts.frames;
        kill_from(&mut self.facts.variables, Level { number: frames });
        self.facts.tally = Tally::counted(&self.facts.variables);
        self.facts.frames = frames.saturating_sub(1);
    }

    /// A frame more. More frames than can be counted are a want of memory.
    pub(crate) fn push_frame(&mut self) -> Result<(), AllocError>
        ensures { OnOk result (self.new ≡ record self.old { frames = self.old.frames + 1 }) }
    {
        if self.facts.frames == usize::MAX {
            return Err(AllocError);
        }
        self.facts.frames += 1;
        Ok(())
    }
}
