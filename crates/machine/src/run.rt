//! The run of a schedule, word by word.

ghost use Rattle.std.specs.Prelude.{◌≡◌, ◌-◌, ◌<◌, ◌≤◌, true, false, [], ◌∷◌, length, replicate, IfErr, OnOk, IsSome};
ghost use Rattle.machine.specs.Run.{replay_of, IsReady, EndsAt, RunsAlong, RunsInto, GivesNoStep};

use crate::fault::RunFault;
use crate::machine::Machine;
use crate::plain_steps::{Ran, Turns, take_plainly};
use crate::step::turn_at_rest;
use crate::turn::Turn;
use machine_steps::context::StepContext;
use semantics::ScheduleWord;
use world_schedules::Schedule;

impl Machine<'_> {
    /// Lets the threads take steps in the order of the schedule, with its collections and slices between them.
    /// A collection, a slice and a turn of a thread that the world lacks give none.
    ///
    /// After an `Err` the steps of a beginning of the schedule stay, and the next word is the turn of a thread that
    /// could step, where the journal was full, or had room and host memory was refused, or it is a collection or a slice
    /// that host memory was refused to.
    pub fn run(&mut self, schedule: &Schedule) -> Result<(), RunFault>
        ensures ok { OnOk result (RunsAlong self.old self.new schedule.now) }
        ensures err { IfErr result (RunsInto self.old self.new schedule.now) }
        ensures runs { IsSome (replay_of self.new) }
    {
        // Here the proof takes up the machine's invariant.
        let _ = &self.world;
        for repetition in schedule.repetitions() {
            self.repeat(repetition.word, repetition.times)?;
        }
        Ok(())
    }

    /// Takes a word this many times.
    #[inline(always)]
    fn repeat(&mut self, word: ScheduleWord, times: u32) -> Result<(), RunFault>
        ensures ok { OnOk result (RunsAlong self.old self.new (replicate times word)) }
        ensures err { IfErr result (RunsInto self.old self.new (replicate times word)) }
        ensures runs { IsSome (replay_of self.new) }
    {
        match word {
            ScheduleWord::Turn(k) => self.turn_for(k, times),
            ScheduleWord::Collect => self.collect_for(times),
            ScheduleWord::Slice => self.slice_for(times),
        }
    }

    /// Takes the word for a turn of thread `k` this many times. The turns of a thread that the world lacks give no step.
    fn turn_for(&mut self, k: u8, times: u32) -> Result<(), RunFault>
        ensures ok { OnOk result (RunsAlong self.old self.new (replicate times (ScheduleWord.Turn k))) }
        ensures err { IfErr result (RunsInto self.old self.new (replicate times (ScheduleWord.Turn k))) }
        ensures runs { IsSome (replay_of self.new) }
    {
        // Here the proof takes up the machine's invariant.
        let _ = &self.world;
        if !self.has_thread(k) {
            return Ok(());
        }
        let mut left = self.left_at_once(k, times);
        while left > 0 {
            let ran = self.run_plainly(k, left, false);
            left -= ran.taken;
            if ran.ready {
                self.take_ready(k)?;
                left -= 1;
                continue;
            }
            if left == 0 {
                return Ok(());
            }
            self.take_turn(k)?;
            left -= 1;
        }
        Ok(())
    }

    /// Takes the word for a turn of thread `k` where it is to be taken once and its step is a plain one, and answers how many
    /// times are left: so a word without a number needs no loop.
    #[inline(always)]
    fn left_at_once(&mut self, k: u8, times: u32) -> u32
        requires counted { 0 < k }
        requires is_thread { k ≤ length self.old.world.threads }
        ensures most { result ≤ times }
        ensures along { RunsAlong self.old self.new (replicate (times - result) (ScheduleWord.Turn k)) }
        ensures runs { IsSome (replay_of self.new) }
    {
        // Here the proof takes up the machine's invariant.
        let _ = &self.world;
        if times == 1 {
            let ran = self.run_plainly(k, 1, true);
            return 1 - ran.taken;
        }
        times
    }

    /// Lets thread `k` take steps one after another, no more than this many, and answers how many it took, and whether it goes on
    /// with an instruction of another kind.
    /// They go on as long as its next instruction works on the stack and the number slots alone, or reads beside them whether
    /// a variable is NULL or an element of a buffer, or calls a function of the JNI whose answer is seen at once, or, unless it is to stay
    /// within the call in progress, enters, calls or leaves a method likewise, and the journal has memory for its entry.
    #[inline(always)]
    fn run_plainly(&mut self, k: u8, most: u32, stays: bool) -> Ran
        requires counted { 0 < k }
        requires is_thread { k ≤ length self.old.world.threads }
        ensures most { result.taken ≤ most }
        ensures along { RunsAlong self.old self.new (replicate result.taken (ScheduleWord.Turn k)) }
        ensures ready { result.ready ≡ true → (result.taken < most) × IsReady self.new k }
        ensures runs { IsSome (replay_of self.new) }
    {
        let index = usize::from(k) - 1;
        let thread = &mut self.threads[index];
        if turn_at_rest(&self.stop, thread).is_some() {
            return Ran {
                taken: 0,
                ready: false,
            };
        }
        let most = self.journal.most_steps(most);
        let step = StepContext {
            program: &self.program,
            world: &self.world,
            thread: k,
            may_refuse: false,
        };
        let turns = Turns { step, most, stays };
        take_plainly(
            turns,
            &mut self.store,
            thread,
            &mut self.stop,
            &mut self.journal,
        )
    }

    /// Lets thread `k` take a turn of a schedule. It stands apart, since few turns are taken so.
    #[inline(never)]
    fn take_turn(&mut self, k: u8) -> Result<(), RunFault>
        requires counted { 0 < k }
        requires is_thread { k ≤ length self.old.world.threads }
        ensures ok { OnOk result (RunsAlong self.old self.new (ScheduleWord.Turn k ∷ [])) }
        ensures err { IfErr result (λ fault. (self.new ≡ self.old) × EndsAt self.old fault (ScheduleWord.Turn k)) }
        ensures runs { IsSome (replay_of self.new) }
    {
        match self.step(k)? {
            Turn::Full => Err(RunFault::Full),
            _ => Ok(()),
        }
    }

    /// The same of a thread that isn't at rest, where the journal isn't full.
    #[inline(always)]
    fn take_ready(&mut self, k: u8) -> Result<(), RunFault>
        requires counted { 0 < k }
        requires is_thread { k ≤ length self.old.world.threads }
        requires ready { IsReady self.old k }
        ensures ok { OnOk result (RunsAlong self.old self.new (ScheduleWord.Turn k ∷ [])) }
        ensures err { IfErr result (λ fault. (self.new ≡ self.old) × EndsAt self.old fault (ScheduleWord.Turn k)) }
        ensures runs { IsSome (replay_of self.new) }
    {
        self.step_ready(k)?;
        Ok(())
    }

    /// Whether the world has a thread of this number, counted from 1.
    fn has_thread(&self, k: u8) -> bool
        ensures there { result ≡ true → (0 < k) × (k ≤ length self.now.world.threads) }
        ensures none { result ≡ false → GivesNoStep self.now (ScheduleWord.Turn k) }
    {
        k > 0 && usize::from(k) <= self.threads.len()
    }

    /// Takes the word for a collection this many times.
    /// A second one right after the first would change nothing that is seen, so one serves for all.
    fn collect_for(&mut self, times: u32) -> Result<(), RunFault>
        ensures ok { OnOk result (RunsAlong self.old self.new (replicate times ScheduleWord.Collect)) }
        ensures err { IfErr result (RunsInto self.old self.new (replicate times ScheduleWord.Collect)) }
        ensures runs { IsSome (replay_of self.new) }
    {
        // Here the proof takes up the machine's invariant.
        let _ = &self.world;
        if times == 0 {
            return Ok(());
        }
        Ok(self.collect()?)
    }

    /// Takes the word for a slice this many times.
    fn slice_for(&mut self, times: u32) -> Result<(), RunFault>
        ensures ok { OnOk result (RunsAlong self.old self.new (replicate times ScheduleWord.Slice)) }
        ensures err { IfErr result (RunsInto self.old self.new (replicate times ScheduleWord.Slice)) }
        ensures runs { IsSome (replay_of self.new) }
    {
        // Here the proof takes up the machine's invariant.
        let _ = &self.world;
        let mut left = times;
        while left > 0 {
            self.slice()?;
            left -= 1;
        }
        Ok(())
    }
}
