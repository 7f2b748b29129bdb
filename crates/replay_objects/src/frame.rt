//! Frames of local references.

ghost use Rattle.std.specs.Prelude.{◌≡◌, ◌++◌, ◌∷◌, [], IfOk, IsTrue, OnErr, drop, length, nat_le, slice_get};
ghost use Rattle.base.specs.Limits.{most_references};
ghost use Rattle.semantics.specs.CallEffects.{with_capacity, with_local, without_local};
ghost use Rattle.semantics.specs.CallSight.{is_full};
ghost use Rattle.semantics.specs.Thread.{capacities};
ghost use Rattle.semantics.specs.Views.{names_of};
ghost use Rattle.replay_objects.specs.Frames.{frame_view, frames_view, new_frame, references_in, without_in};

use crate::names::Names;
use base::limits::MOST_REFERENCES;
use semantics::{Level, ObjectId};
use std::alloc::{AllocError, Global};
use std::marker::Model;

/// Local references, of which there may be at most `capacity` (JNI Specification, chapter 2, "Local and Global References").
#[derive(Drop)]
pub(crate) struct Frame {
    pub(crate) capacity: usize,
    pub(crate) references: Names,
}

/// The frames of a call in progress, seen as a list that begins with the current one.
#[derive(Drop)]
pub struct Frames {
    /// The current one is the last.
    frames: Vec<Frame>,
    /// The capacities of all together.
    total: usize,
}

impl Model for Frames {
    ghost use Rattle.std.specs.Prelude.{◌≡◌, List};
    ghost use Rattle.semantics.specs.Thread.{Frame, capacities};
    ghost use Rattle.replay_objects.specs.Frames.{frames_view};

    ghost Value = { List Frame };

    ghost view = { λ f. frames_view f.frames.items };

    ghost invariant = { λ f. f.total ≡ capacities (frames_view f.frames.items) };
}

impl Frames {
    /// One frame, with these references.
    pub fn new(alloc: Global, capacity: usize, references: Names) -> Result<Frames, AllocError>
        ensures { IfOk result (λ frames. frames ≡ record { capacity = capacity; references = references } ∷ []) }
    {
        let mut frames = Vec::new(alloc);
        frames.push(Frame {
            capacity,
            references,
        })?;
        Ok(Frames {
            frames,
            total: capacity,
        })
    }

    /// How many there are.
    pub fn len(&self) -> usize
        ensures { result ≡ length self.now }
    {
        self.frames.len()
    }

    /// Whether the current frame holds as many references as it may, or there is none.
    pub fn is_full(&self) -> bool
        ensures { result ≡ is_full (slice_get self.now 0) }
    {
        match self.frames.last() {
            Some(frame) => frame.capacity <= frame.references.len(),
            None => true,
        }
    }

    /// Whether the frame right below the current one holds as many as it may, or there is none.
    pub fn is_full_below(&self) -> bool
        ensures { result ≡ is_full (slice_get (drop 1 self.now) 0) }
    {
        let count = self.frames.len();
        if count < 2 {
            return true;
        }
        let frame = &self.frames[count - 2];
        frame.capacity <= frame.references.len()
    }

    /// Whether the capacities together stay within the limit with room for this number of references more in the current frame.
    pub fn has_room(&self, more: usize) -> bool
        ensures { result ≡ nat_le (capacities (with_capacity more self.now)) most_references }
    {
        let count = self.frames.len();
        if count == 0 {
            return true;
        }
        let frame = &self.frames[count - 1];
        let held = frame.references.len();
        if more > MOST_REFERENCES as usize || held > MOST_REFERENCES as usize {
            return false;
        }
        let capacity = frame.capacity.max(held + more);
        let others = self.total - frame.capacity;
        capacity <= MOST_REFERENCES as usize && others <= MOST_REFERENCES as usize - capacity
    }

    /// Gives the current frame room for this number of references more.
    pub fn reserve(&mut self, more: usize)
        requires { IsTrue (nat_le (capacities (with_capacity more self.old)) most_references) }
        ensures { self.new ≡ with_capacity more self.old }
    {
        let count = self.frames.len();
        if count == 0 {
            return;
        }
        let frame = &self.frames[count - 1];
        let old = frame.capacity;
        let needed = frame.references.len() + more;
        if needed > old {
            self.total = self.total - old + needed;
            set_capacity(&mut self.frames[count - 1], needed);
        }
    }

    /// Whether the capacities together stay within the limit with a frame of this capacity more.
    pub fn has_room_for(&self, capacity: usize) -> bool
        ensures { result ≡ nat_le (capacities (new_frame capacity ∷ self.now)) most_references }
    {
        capacity <= MOST_REFERENCES as usize && self.total <= MOST_REFERENCES as usize - capacity
    }

    /// Makes a frame, which is then the current one.
    pub fn push(&mut self, alloc: Global, capacity: usize) -> Result<(), AllocError>
        requires { IsTrue (nat_le (capacities (new_frame capacity ∷ self.old)) most_references) }
        ensures ok { IfOk result (λ _. self.new ≡ new_frame capacity ∷ self.old) }
        ensures err { OnErr result (self.new ≡ self.old) }
    {
        self.frames.push(Frame {
            capacity,
            references: Names::new(alloc),
        })?;
        self.total += capacity;
        Ok(())
    }

    /// Drops the current frame, if there is one.
    pub fn pop(&mut self)
        ensures { self.new ≡ drop 1 self.old }
    {
        if let Some(frame) = self.frames.pop() {
            self.total -= frame.capacity;
        }
    }

    /// Puts a reference into the current frame, if there is one.
    pub fn receive(&mut self, name: ObjectId) -> Result<(), AllocError>
        ensures { IfOk result (λ _. self.new ≡ with_local name.number self.old) }
    {
        let count = self.frames.len();
        if count == 0 {
            return Ok(());
        }
        receive_in(&mut self.frames[count - 1], name)
    }

    /// Takes a reference away once from the frame of a level, counted from the lowest, which is 1; past the last it is the
    /// current one.
    pub fn remove(&mut self, level: Level, name: ObjectId)
        ensures { self.new ≡ without_local level.number name.number self.old }
    {
        let place = level.number.min(self.frames.len());
        if place > 0 {
            remove_from(&mut self.frames[place - 1], name);
        }
    }

    /// Adds the names in all frames to others, those in the current one first. The cost goes by the number of frames and
    /// names.
    pub fn add_to(&self, names: &mut Vec<ObjectId>) -> Result<(), AllocError>
        ensures { IfOk result (λ _. names_of names.new.items ≡ names_of names.old.items ++ references_in self.now) }
    {
        add_references(names, &self.frames)
    }
}

/// Lets a frame hold this number of references.
fn set_capacity(frame: &mut Frame, capacity: usize)
    ensures capacity { frame.new.capacity ≡ capacity }
    ensures references { frame.new.references ≡ frame.old.references }
{
    frame.capacity = capacity;
}

/// Puts a reference into a frame.
fn receive_in(frame: &mut Frame, name: ObjectId) -> Result<(), AllocError>
    ensures references { IfOk result (λ _. frame.new.references ≡ name.number ∷ frame.old.references) }
    ensures capacity { frame.new.capacity ≡ frame.old.capacity }
{
    frame.references.push(name)
}

/// Takes a reference away from a frame.
fn remove_from(frame: &mut Frame, name: ObjectId)
    ensures view { frame_view frame.new ≡ without_in name.number (frame_view frame.old) }
    ensures capacity { frame.new.capacity ≡ frame.old.capacity }
{
    frame.references.remove(name);
}

/// Adds the names in frames to others, those in the last frame first.
fn add_references(names: &mut Vec<ObjectId>, frames: &[Frame]) -> Result<(), AllocError>
    ensures { IfOk result (λ _. names_of names.new.items ≡ names_of names.old.items ++ references_in (frames_view frames.now)) }
{
    for done in 0..frames.len() {
        frames[frames.len() - 1 - done].references.add_to(names)?;
    }
    Ok(())
}
