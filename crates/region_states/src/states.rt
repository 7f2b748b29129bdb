//! What is known of buffers, references and frames at a point of a function.

ghost use Rattle.std.specs.Prelude.{◌≡◌, ◌≤◌, false, [], ◌∷◌, ◌++◌, bytes_eq, map, drop, take, length, Some, OnOk, OnErr, IfOk};
ghost use Rattle.std.specs.List.{list_any, IsDistinct};
ghost use Rattle.std.specs.Option.{option_map};
ghost use Rattle.base.specs.Options.{some_passes};
ghost use Rattle.jni.specs.Access.{is_critical};
ghost use Rattle.region_rules.specs.RegionStates.{RegionState, state_of, with_new};
ghost use Rattle.region_rules.specs.Regions.{left};
ghost use Rattle.region_rules.specs.RegionRules.{holds_buffer, is_level};
ghost use lib.Pointwise.{pointwise};
ghost use Rattle.region_states.specs.SameStates.{same_variable, same_state};
ghost use Rattle.region_states.specs.StatesInMemory.{any_asked, holds_other, variable_state, names_of, Grows, IsSaved, HasCounts, condition_holds, asks, held_in, is_holder, holds_critical, holds_of, has_young_array};

use crate::holders::Holders;
use crate::scope::Names;
use crate::tally::Tally;
use jni::Access;
use semantics::Level;
use std::alloc::{AllocError, Global};
use std::marker::Model;
use std::mem::swap;

/// What is known of a reference or a buffer. A buffer that is not free has an access, and the variable of its array or
/// string.
#[derive(Clone, Copy)]
pub enum VariableState<'a> {
    /// A reference: its level, and whether it is live.
    Reference { level: Level, live: bool },
    Free,
    Untested { access: Access, array: &'a [u8] },
    Usable { access: Access, array: &'a [u8] },
}

/// What is known of the variables, by their numbers, with the numbers of held buffers and of the variables that meet each
/// condition, and the number of frames.
#[derive(Drop)]
pub struct Facts<'a> {
    pub variables: Vec<VariableState<'a>>,
    pub holders: Holders<'a>,
    pub tally: Tally,
    pub frames: usize,
}

/// What data-flow analysis knows at a point of a function: the references and buffers in scope, what is known of each, and the
/// number of frames. What is known of a name is found, and changed, in constant time.
#[derive(Drop)]
pub struct FlowState<'a> {
    pub(crate) names: Names<'a>,
    pub(crate) facts: Facts<'a>,
}

impl<'a> Model for FlowState<'a> {
    ghost use Rattle.std.specs.Prelude.{◌≡◌, bytes_eq, length};
    ghost use Rattle.std.specs.List.{IsDistinct};
    ghost use Rattle.region_rules.specs.RegionStates.{RegionState};

    ghost Value = { RegionState };

    ghost use Rattle.region_states.specs.StatesInMemory.{state_value, HasCounts};

    ghost view = { λ s. state_value s.names s.facts };

    ghost invariant = { λ s. (length s.facts.variables.items ≡ length s.names) × IsDistinct bytes_eq s.names × HasCounts s.facts };
}

/// A question about a variable.
#[derive(Clone, Copy)]
pub enum Condition {
    /// Is it a dead reference?
    Dead,
    /// Is it a reference?
    Reference,
    /// Is it an untested buffer?
    Untested,
    /// Is it a free buffer?
    Free,
    /// Is it a buffer that is not free?
    Held,
    /// Is it a critical buffer that is not free?
    Critical,
}

impl<'a> VariableState<'a> {
    /// A held buffer's access, and the variable of its array or string.
    pub fn held(self) -> Option<(Access, &'a [u8])>
        ensures { option_map (λ held. (held.0, held.1.now)) result ≡ held_in (variable_state self.entry) }
    {
        match self {
            VariableState::Reference { .. } => None,
            VariableState::Free => None,
            VariableState::Untested { access, array } => Some((access, array)),
            VariableState::Usable { access, array } => Some((access, array)),
        }
    }

    /// Whether a variable is a critical buffer.
    pub(crate) fn is_held_critical(self) -> bool
        ensures { result ≡ is_holder (λ held. is_critical held.0) (variable_state self.entry) }
    {
        match self.held() {
            Some((access, _)) => access.is_critical(),
            None => false,
        }
    }

    /// Whether the same is known of two variables.
    pub(crate) fn is_same(self, other: VariableState) -> bool
        ensures { result ≡ same_variable (variable_state self.entry) (variable_state other.entry) }
    {
        match self {
            VariableState::Reference { level, live } => match other {
                VariableState::Reference {
                    level: other,
                    live: is_live,
                } => level == other && live == is_live,
                VariableState::Free => false,
                VariableState::Untested { .. } => false,
                VariableState::Usable { .. } => false,
            },
            VariableState::Free => matches!(other, VariableState::Free),
            VariableState::Untested { access, array } => match other {
                VariableState::Untested {
                    access: other,
                    array: name,
                } => access.is_same(other) && array == name,
                VariableState::Reference { .. } => false,
                VariableState::Free => false,
                VariableState::Usable { .. } => false,
            },
            VariableState::Usable { access, array } => match other {
                VariableState::Usable {
                    access: other,
                    array: name,
                } => access.is_same(other) && array == name,
                VariableState::Reference { .. } => false,
                VariableState::Free => false,
                VariableState::Untested { .. } => false,
            },
        }
    }
}

impl Condition {
    /// The answer to a question.
    pub(crate) fn holds(self, known: Option<VariableState>) -> bool
        ensures { result ≡ condition_holds self (option_map variable_state known.entry) }
    {
        match known {
            None => false,
            Some(VariableState::Reference { live, .. }) => match self {
                Condition::Dead => !live,
                Condition::Reference => true,
                Condition::Untested => false,
                Condition::Free => false,
                Condition::Held => false,
                Condition::Critical => false,
            },
            Some(VariableState::Free) => matches!(self, Condition::Free),
            Some(VariableState::Untested { access, .. }) => match self {
                Condition::Dead => false,
                Condition::Reference => false,
                Condition::Untested => true,
                Condition::Free => false,
                Condition::Held => true,
                Condition::Critical => access.is_critical(),
            },
            Some(VariableState::Usable { access, .. }) => match self {
                Condition::Dead => false,
                Condition::Reference => false,
                Condition::Untested => false,
                Condition::Free => false,
                Condition::Held => true,
                Condition::Critical => access.is_critical(),
            },
        }
    }
}

/// Whether a reference is of a level.
pub fn is_level(level: Level, known: Option<VariableState>) -> bool
    ensures { result ≡ is_level level.number (option_map variable_state known.entry) }
{
    match known {
        Some(VariableState::Reference { level: own, .. }) => own == level,
        Some(VariableState::Free) => false,
        Some(VariableState::Untested { .. }) => false,
        Some(VariableState::Usable { .. }) => false,
        None => false,
    }
}

/// Whether the answer to a question is yes about one of these.
fn is_one(variables: &[VariableState], condition: Condition) -> bool
    ensures { result ≡ list_any (λ v. condition_holds condition (Some v)) (map variable_state variables.now) }
{
    for v in variables {
        if condition.holds(Some(*v)) {
            return true;
        }
    }
    false
}

/// Whether the answer to a question is yes about some variable after the first `count`.
fn is_one_after(variables: &[VariableState], count: usize, condition: Condition) -> bool
    requires { count ≤ length variables.now }
    ensures { result ≡ list_any (λ v. condition_holds condition (Some v))
        (map variable_state (drop count variables.now)) }
{
    is_one(&variables[count..], condition)
}

/// Whether the same is known of these variables, in the same order.
fn are_same(a: &[VariableState], b: &[VariableState]) -> bool
    ensures { result ≡ pointwise same_variable (map variable_state a.now) (map variable_state b.now) }
{
    match a {
        [] => b.is_empty(),
        [first, rest @ ..] => match b {
            [] => false,
            [other, others @ ..] => first.is_same(*other) && are_same(rest, others),
        },
    }
}

/// One name more, and what is known of it. After a want of memory both are as before.
fn push<'a>(
    names: &mut Names<'a>,
    variables: &mut Vec<VariableState<'a>>,
    name: &'a [u8],
    known: VariableState<'a>,
) -> Result<(), AllocError>
    requires { list_any (bytes_eq name.now) names.old ≡ false }
    ensures distinct { OnOk result (IsDistinct bytes_eq names.new) }
    ensures name { OnOk result (names.new ≡ names.old ++ name.now ∷ []) }
    ensures known { OnOk result (variables.new.items ≡ variables.old.items ++ known.entry ∷ []) }
    ensures no_name { OnErr result (names.new ≡ names.old) }
    ensures none_known { OnErr result (variables.new.items ≡ variables.old.items) }
{
    variables.push(known)?;
    match names.add(name) {
        Ok(()) => Ok(()),
        Err(_) => {
            variables.pop();
            Err(AllocError)
        }
    }
}

impl Facts<'_> {
    /// What is known of the first `count` variables alone is left.
    fn truncate(&mut self, count: usize)
        requires { HasCounts self.old }
        ensures known { self.new.variables.items ≡ take count self.old.variables.items }
        ensures frames { self.new.frames ≡ self.old.frames }
        ensures counted { HasCounts self.new }
    {
        if count >= self.variables.len() {
            return;
        }
        self.holders.forget_all(&self.variables[count..]);
        self.tally.forget_all(&self.variables[count..]);
        self.variables.truncate(count);
    }
}

impl<'a> FlowState<'a> {
    /// Nothing is in scope, and there is one frame.
    pub fn new(alloc: Global) -> FlowState<'a>
        ensures { result ≡ record { variables = []; frames = 1 } }
    {
        FlowState {
            names: Names::new(alloc),
            facts: Facts {
                variables: Vec::new(alloc),
                holders: Holders::new(alloc),
                tally: Tally::new(),
                frames: 1,
            },
        }
    }

    /// Nothing is in scope any more. The memory stays, for another function.
    pub fn clear(&mut self)
        ensures { self.new ≡ record { variables = []; frames = 1 } }
    {
        self.names.truncate(0);
        self.facts.variables.truncate(0);
        self.facts.holders.clear();
        self.facts.tally = Tally::new();
        self.facts.frames = 1;
    }

    /// The number of frames.
    pub fn frames(&self) -> usize
        ensures { result ≡ self.now.frames }
    {
        self.facts.frames
    }

    /// The level of a reference that is declared now.
    pub fn level(&self) -> Level
        ensures { result.number ≡ self.now.frames }
    {
        Level {
            number: self.frames(),
        }
    }

    /// The number of variables.
    pub fn len(&self) -> usize
        ensures { result ≡ length (names_of self.now) }
    {
        self.names.len()
    }

    /// What is known of a variable.
    pub fn known_of(&self, name: &[u8]) -> Option<VariableState<'a>>
        ensures { option_map variable_state result ≡ state_of self.now name.now }
    {
        match self.names.number_of(name) {
            Some(number) => Some(self.facts.variables[number]),
            None => None,
        }
    }

    /// Whether the answer to a question is yes about some variable.
    pub fn is_any(&self, condition: Condition) -> bool
        ensures { result ≡ any_asked condition self.now }
    {
        self.facts.tally.is_any(condition)
    }

    /// The answer to a question about a variable.
    pub fn meets(&self, condition: Condition, name: &[u8]) -> bool
        ensures { result ≡ asks condition self.now name.now }
    {
        condition.holds(self.known_of(name))
    }

    /// The answer to a question about a variable, where there is one.
    pub fn some_meets(&self, condition: Condition, name: Option<&[u8]>) -> bool
        ensures { result ≡ some_passes (asks condition self.now) (option_map (λ x. x.now) name.entry) }
    {
        match name {
            Some(x) => self.meets(condition, x),
            None => false,
        }
    }

    /// Whether a buffer is held.
    pub fn holds_buffer(&self) -> bool
        ensures { result ≡ holds_buffer self.now }
    {
        self.is_any(Condition::Held)
    }

    /// Whether a buffer of a block itself is held, where the block began with this many variables.
    pub fn holds_own(&self, count: usize) -> bool
        requires { count ≤ length (names_of self.now) }
        ensures { (outer : RegionState) → count ≡ length (names_of outer) → Grows outer self.now
            → result ≡ holds_other outer self.now }
    {
        is_one_after(&self.facts.variables, count, Condition::Held)
    }

    /// Whether a critical buffer is held.
    pub fn holds_critical(&self) -> bool
        ensures { result ≡ holds_critical self.now }
    {
        self.is_any(Condition::Critical)
    }

    /// Whether a variable is the array of a held buffer.
    pub fn is_array_in_use(&self, name: &[u8]) -> bool
        ensures { result ≡ holds_of name.now self.now }
    {
        self.facts.holders.count(name) > 0
    }

    /// Whether there is a variable, and it is the array variable of a held buffer.
    pub fn is_some_in_use(&self, name: Option<&[u8]>) -> bool
        ensures { result ≡ some_passes (λ x. holds_of x self.now) (option_map (λ x. x.now) name.entry) }
    {
        match name {
            Some(x) => self.is_array_in_use(x),
            None => false,
        }
    }

    /// Whether the array variable of a held buffer is of the level of the youngest frame.
    pub(crate) fn is_array_young(&self, known: VariableState) -> bool
        ensures { result ≡ is_holder (λ held. is_level self.now.frames (state_of self.now held.1))
            (variable_state known.entry) }
    {
        match known.held() {
            Some((_, array)) => is_level(self.level(), self.known_of(array)),
            None => false,
        }
    }

    /// Whether the array variable of some held buffer is.
    pub fn has_young_array(&self) -> bool
        ensures { result ≡ has_young_array self.now }
    {
        for v in &self.facts.variables {
            if self.is_array_young(*v) {
                return true;
            }
        }
        false
    }

    /// One variable more, of a name that no other has.
    pub fn add(&mut self, name: &'a [u8], known: VariableState<'a>) -> Result<(), AllocError>
        requires { list_any (bytes_eq name.now) (names_of self.old) ≡ false }
        ensures { OnOk result (self.new ≡ with_new self.old name.now (variable_state known.entry)) }
    {
        self.facts.holders.note(known)?;
        match push(&mut self.names, &mut self.facts.variables, name, known) {
            Ok(()) => {
                self.facts.tally.note(known);
                Ok(())
            }
            Err(_) => {
                self.facts.holders.forget(known);
                Err(AllocError)
            }
        }
    }

    /// The first `count` variables alone are left.
    pub fn truncate(&mut self, count: usize)
        ensures left { (outer : RegionState) → count ≡ length (names_of outer) → Grows outer self.old
            → self.new ≡ left outer self.old }
        ensures names { (outer : RegionState) → count ≡ length (names_of outer) → Grows outer self.old
            → names_of self.new ≡ names_of outer }
    {
        self.names.truncate(count);
        self.facts.truncate(count);
    }

    /// What is known now, to come back to.
    pub fn save(&self, alloc: Global) -> Result<Facts<'a>, AllocError>
        ensures { IfOk result (λ facts. IsSaved facts self.now) }
    {
        let variables = Vec::from_slice(alloc, &self.facts.variables)?;
        let holders = Holders::counted(alloc, &self.facts.variables)?;
        Ok(Facts {
            variables,
            holders,
            tally: self.facts.tally,
            frames: self.facts.frames,
        })
    }

    /// Other facts on the same variables take the place of those that are known now.
    pub fn exchange(&mut self, facts: &mut Facts<'a>)
        requires long { length facts.old.variables.items ≡ length (names_of self.old) }
        requires counted { HasCounts facts.old }
        ensures after { (other : RegionState) → IsSaved facts.old other → names_of other ≡ names_of self.old
            → self.new ≡ other }
        ensures before { IsSaved facts.new self.old }
    {
        swap(&mut self.facts, facts);
    }

    /// Whether a state is the same as the one that was saved.
    pub fn is_as_saved(&self, saved: &Facts) -> bool
        ensures { (other : RegionState) → IsSaved saved.now other → names_of other ≡ names_of self.now
            → result ≡ same_state other self.now }
    {
        are_same(&saved.variables, &self.facts.variables) && saved.frames == self.facts.frames
    }
}
