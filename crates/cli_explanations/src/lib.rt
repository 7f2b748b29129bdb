//! What each fault and trap means, in plain words, with a minimal example and the fix.
#![tactic(auto)]

ghost use Rattle.std.specs.Prelude.{◌≡◌, IfSome, map};
ghost use Rattle.std.specs.Option.{option_map};
ghost use Rattle.cli_explanations.specs.Numbered.{titled, title_in};
ghost use Rattle.cli_explanations.specs.Titles.{fault_title, trap_title};

mod table;

use crate::table::{faults_near, traps_near};

/// What is said of a fault or a trap.
#[derive(Clone, Copy)]
pub struct Explanation {
    pub number: u32,
    /// In a few words.
    pub title: &'static [u8],
    /// All of it: some lines, each with its line feed.
    pub text: &'static [u8],
}

/// What is said of the number.
fn find(explanations: &[Explanation], number: u32) -> Option<Explanation>
    ensures number { IfSome result (λ e. e.number ≡ number) }
    ensures title { option_map (λ e. e.title.now) result ≡ title_in number (map titled explanations.now) }
{
    for explanation in explanations {
        if explanation.number == number {
            return Some(*explanation);
        }
    }
    None
}

/// What is said of a fault.
pub fn fault(number: u32) -> Option<Explanation>
    ensures number { IfSome result (λ e. e.number ≡ number) }
    ensures title { option_map (λ e. e.title.now) result ≡ fault_title number }
{
    find(faults_near(number), number)
}

/// What is said of a trap.
pub fn trap(number: u32) -> Option<Explanation>
    ensures number { IfSome result (λ e. e.number ≡ number) }
    ensures title { option_map (λ e. e.title.now) result ≡ trap_title number }
{
    find(traps_near(number), number)
}
