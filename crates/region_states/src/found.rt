//! Variables that are found for the reader of a fault; no contract says which they are.

use crate::states::{Condition, Facts, FlowState, VariableState};

/// What is looked for among the variables.
#[derive(Clone, Copy)]
pub enum Sought<'n> {
    /// A variable that meets this condition.
    Meeting(Condition),
    /// A critical buffer.
    Critical,
    /// A buffer whose array variable is of the youngest frame.
    OfYoungArray,
    /// A buffer whose array has this variable.
    HoldingOf(&'n [u8]),
}

/// Whether a buffer's array has this variable.
fn is_holding_of(known: VariableState, name: &[u8]) -> bool {
    match known.held() {
        Some((_, array)) => array == name,
        None => false,
    }
}

/// Whether a variable is what is looked for.
fn is_sought(state: &FlowState, known: VariableState, sought: Sought) -> bool {
    match sought {
        Sought::Meeting(condition) => condition.holds(Some(known)),
        Sought::Critical => known.is_held_critical(),
        Sought::OfYoungArray => state.is_array_young(known),
        Sought::HoldingOf(name) => is_holding_of(known, name),
    }
}

/// A variable of which something else is known on two paths, and what.
#[derive(Clone, Copy)]
pub struct Difference<'a> {
    pub name: &'a [u8],
    pub first: VariableState<'a>,
    pub second: VariableState<'a>,
}

impl<'a> FlowState<'a> {
    /// The first variable that is what is looked for, of those from this number on.
    pub fn first_sought(&self, from: usize, sought: Sought) -> Option<&'a [u8]> {
        let variables = &self.facts.variables;
        for number in from..variables.len() {
            if is_sought(self, variables[number], sought) {
                return self.names.name_of(number);
            }
        }
        None
    }

    /// The first variable of which something else was known when these facts were saved.
    pub fn first_difference(&self, saved: &Facts<'a>) -> Option<Difference<'a>> {
        let variables = &self.facts.variables;
        for number in 0..variables.len() {
            let first = *saved.variables.get(number)?;
            let second = variables[number];
            if !first.is_same(second) {
                let name = self.names.name_of(number)?;
                return Some(Difference {
                    name,
                    first,
                    second,
                });
            }
        }
        None
    }
}
