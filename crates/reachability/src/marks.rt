//! Marking.

ghost use Rattle.std.specs.Prelude.{◌≡◌, ℕ, ◌<◌, false, true, Some, length, replicate, slice_set, Contains, IfOk, OnOk, OnErr};
ghost use Rattle.reachability.specs.Reach.{IsClosed};
ghost use Rattle.reachability.specs.Marks.{is_marked, Adds, IsFollowed, AreReached};

use crate::graph::Graph;
use std::alloc::{AllocError, Global};
use std::marker::Model;

/// Marked places, seen as a list that says of each place whether it is marked: the roots of a marking to come.
#[derive(Drop)]
pub struct Marks {
    marked: Vec<bool>,
    /// The marked places.
    waiting: Vec<usize>,
}

impl Model for Marks {
    ghost use Rattle.std.specs.Prelude.{Bool, List};
    ghost use Rattle.reachability.specs.Marks.{WaitsFor as AreWaiting};

    ghost Value = { List Bool };

    ghost view = { λ m. m.marked.items };

    ghost invariant = { λ m. AreWaiting m.marked.items m.waiting.items };
}

impl Marks {
    /// No marks on this number of places.
    pub fn new(alloc: Global, places: usize) -> Result<Marks, AllocError>
        ensures { IfOk result (λ m. m ≡ replicate places false) }
    {
        Ok(Marks {
            marked: vec![in alloc; false; places]?,
            waiting: Vec::new(alloc),
        })
    }

    /// Marks a root. After an `Err` nothing has changed.
    pub fn add(&mut self, place: usize) -> Result<(), AllocError>
        requires { place < length self.old }
        ensures ok { OnOk result (self.new ≡ slice_set self.old place true) }
        ensures err { OnErr result (self.new ≡ self.old) }
    {
        note(place, &mut self.marked, &mut self.waiting)
    }

    /// Marks what can be reached from the roots. It says of each place whether it is reached.
    ///
    /// Its time is proportional to the values of the places that are reached. It asks for room for their numbers.
    pub fn close<G: Graph>(self, graph: &G) -> Result<Vec<bool>, AllocError>
        requires within { (p : ℕ) → G.IsPlace graph.now p → p < length self }
        requires roots { (p : ℕ) → is_marked self p ≡ true → G.IsPlace graph.now p }
        requires closed { IsClosed (G.IsPlace graph.now) (G.references graph.now) }
        ensures { IfOk result (λ marks. AreReached (G.references graph.now) self marks.items) }
    {
        let mut marked = self.marked;
        let mut waiting = self.waiting;
        while let Some(place) = waiting.pop() {
            follow(graph, place, &mut marked, &mut waiting)?;
        }
        Ok(marked)
    }
}

/// Marks what a place refers to.
fn follow<G: Graph>(
    graph: &G,
    place: usize,
    marked: &mut Vec<bool>,
    waiting: &mut Vec<usize>,
) -> Result<(), AllocError>
    requires place { G.IsPlace graph.now place }
    requires within { (q : ℕ) → Contains (G.references graph.now place) (Some q) → q < length marked.old.items }
    ensures adds { OnOk result (Adds (λ q. Contains (G.references graph.now place)
        (Some q)) marked.old.items waiting.old.items marked.new.items waiting.new.items) }
    ensures followed { OnOk result (IsFollowed (G.references graph.now) marked.new.items place) }
{
    for index in 0..graph.count(place) {
        if let Some(target) = graph.reference(place, index) {
            note(target, marked, waiting)?;
        }
    }
    Ok(())
}

/// Marks a place, and lets it wait where it wasn't marked. After an `Err` nothing has changed.
fn note(place: usize, marked: &mut Vec<bool>, waiting: &mut Vec<usize>) -> Result<(), AllocError>
    requires { place < length marked.old.items }
    ensures adds { OnOk result (Adds (λ q. q ≡ place) marked.old.items waiting.old.items marked.new.items waiting.new.items) }
    ensures here { OnOk result (is_marked marked.new.items place ≡ true) }
    ensures marked { OnOk result (marked.new.items ≡ slice_set marked.old.items place true) }
    ensures err { OnErr result (marked.new.items ≡ marked.old.items) }
    ensures waiting { OnErr result (waiting.new.items ≡ waiting.old.items) }
{
    if !marked[place] {
        waiting.push(place)?;
        marked[place] = true;
    }
    Ok(())
}
