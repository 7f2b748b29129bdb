//! How many variables meet each condition.

ghost use Rattle.std.specs.Prelude.{◌≡◌, ◌+◌, ◌<◌, ◌≤◌, ◌^◌, [], map, length, nat_lt};
ghost use Rattle.region_states.specs.StatesInMemory.{variable_state, one_if, how_many, meets, number_of, IsTallied};

use crate::states::{Condition, VariableState};

/// How many of some variables meet each condition, so that whether one does is known without a look at them.
#[derive(Clone, Copy)]
pub struct Tally {
    pub(crate) dead: usize,
    pub(crate) references: usize,
    pub(crate) untested: usize,
    pub(crate) free: usize,
    pub(crate) held: usize,
    pub(crate) critical: usize,
}

/// One, where this is known of a variable that meets the condition, and else none.
fn one(condition: Condition, known: VariableState) -> usize
    ensures number { result ≡ one_if (meets condition) (variable_state known.entry) }
    ensures few { result ≤ 1 }
{
    if condition.holds(Some(known)) { 1 } else { 0 }
}

impl Tally {
    /// There is no variable.
    pub(crate) fn new() -> Tally
        ensures { IsTallied result [] }
    {
        Tally {
            dead: 0,
            references: 0,
            untested: 0,
            free: 0,
            held: 0,
            critical: 0,
        }
    }

    /// Whether some variable meets the condition.
    pub(crate) fn is_any(self, condition: Condition) -> bool
        ensures { result ≡ nat_lt 0 (number_of self condition) }
    {
        match condition {
            Condition::Dead => self.dead > 0,
            Condition::Reference => self.references > 0,
            Condition::Untested => self.untested > 0,
            Condition::Free => self.free > 0,
            Condition::Held => self.held > 0,
            Condition::Critical => self.critical > 0,
        }
    }

    /// One variable more, of which this is known.
    pub(crate) fn note(&mut self, known: VariableState)
        requires { (q : Condition) → number_of self.old q < 2 ^ 63 }
        ensures { (q : Condition) → number_of self.new q
            ≡ one_if (meets q) (variable_state known.entry) + number_of self.old q }
    {
        self.dead += one(Condition::Dead, known);
        self.references += one(Condition::Reference, known);
        self.untested += one(Condition::Untested, known);
        self.free += one(Condition::Free, known);
        self.held += one(Condition::Held, known);
        self.critical += one(Condition::Critical, known);
    }

    /// One variable less, of which this was known.
    fn forget(&mut self, known: VariableState)
        requires { (q : Condition) → one_if (meets q) (variable_state known) ≤ number_of self.old q }
        ensures { (q : Condition) → number_of self.old q
            ≡ one_if (meets q) (variable_state known.entry) + number_of self.new q }
    {
        self.dead -= one(Condition::Dead, known);
        self.references -= one(Condition::Reference, known);
        self.untested -= one(Condition::Untested, known);
        self.free -= one(Condition::Free, known);
        self.held -= one(Condition::Held, known);
        self.critical -= one(Condition::Critical, known);
    }

    /// Of a variable of which the one was known the other is known.
    pub(crate) fn replace(&mut self, old: VariableState, known: VariableState)
        requires among { (q : Condition) → one_if (meets q) (variable_state old) ≤ number_of self.old q }
        requires few { (q : Condition) → number_of self.old q < 2 ^ 63 }
        ensures { (q : Condition) → one_if (meets q) (variable_state old.entry) + number_of self.new q
            ≡ one_if (meets q) (variable_state known.entry) + number_of self.old q }
    {
        self.forget(old);
        self.note(known);
    }

    /// One variable less for each of these.
    pub(crate) fn forget_all(&mut self, variables: &[VariableState])
        requires { (q : Condition) → how_many (meets q) (map variable_state variables.now) ≤ number_of self.old q }
        ensures { (q : Condition) → number_of self.old q
            ≡ how_many (meets q) (map variable_state variables.now) + number_of self.new q }
    {
        for v in variables {
            self.forget(*v);
        }
    }

    /// The numbers of these variables.
    pub(crate) fn counted(variables: &[VariableState]) -> Tally
        requires { length variables.now < 2 ^ 63 }
        ensures { IsTallied result (map variable_state variables.now) }
    {
        let mut tally = Tally::new();
        for v in variables {
            tally.note(*v);
        }
        tally
    }
}
