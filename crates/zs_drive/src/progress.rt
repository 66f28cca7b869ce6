//! The steps of a task, over its fields.
ghost use Rattle.std.specs.Prelude.{◌≡◌, ◌+◌, ◌≤◌, [], ◌∷◌, None, OnOk, OnErr, IfOk};
ghost use Rattle.futures.specs.Poll.{IfReady, OnPending};
ghost use Rattle.futures.specs.Task.{IsArmed, Keeps};
ghost use Rattle.zs_effect.specs.Scripts.{IsScript};
ghost use Rattle.zs_drive.specs.Timeline.{ending_by_outcome, ending_by_schedule, number_of};
ghost use Rattle.zs_step.specs.Compiled.{compiled_term, last_seen};
ghost use Rattle.zs_drive.specs.Values.{step_of};
ghost use Rattle.zs_drive.specs.Recorded.{runs};
ghost use Rattle.zs_drive.specs.Progress.{IsProgress, HasState, due_of, ending_of};
ghost use Rattle.zs_drive.specs.Turns.{Advances, HasDecided, HasEnded, HasRunTo, IsDecided, IsDuePhase, IsEarly, IsFull, IsOver, IsSame, IsTurn, IsWaitingTo, StandsAfter, StandsStill, TakesMemory, WasAsked, next_entry, started, turned};

use crate::fault::DriveFault;
use crate::job::Mode;
use crate::record::{Attempted, Ended, Ending, add, set_end};
use futures::task::{Context, Poll};
use futures::{Future, ready};
use zs_effect::{Attempt, Beat, Outcome, Script};
use zs_step::{Compiled, Decision, Stepped};
use zs_term::Out;

/// What a task waits for.
#[derive(Drop)]
pub(crate) enum Phase {
    /// An attempt begins at this moment.
    Waiting(u64),
    /// The last attempt ends.
    Running(Attempt),
    /// Nothing more.
    Over(Ending),
}

/// How far a job is. What each poll reads comes first, so that it is in few cache lines.
#[derive(Drop)]
pub(crate) struct Progress {
    /// What is waited for.
    pub(crate) phase: Phase,
    /// The last moment seen, in milliseconds.
    pub(crate) seen: u64,
    /// The number of polls that were due.
    pub(crate) polls: u64,
    /// The job's mode.
    pub(crate) mode: Mode,
    /// The job's script.
    pub(crate) script: Script,
    /// The attempts so far.
    pub(crate) records: Vec<Attempted>,
    /// Its schedule.
    pub(crate) schedule: Compiled,
    /// The job's name.
    pub(crate) name: String,
    /// The job's start, in milliseconds.
    pub(crate) start: u64,
}

impl Phase {
    /// The moment waited for.
    pub(crate) fn due(&self) -> Option<u64>
        ensures value { result ≡ due_of self.now }
    {
        match self {
            Phase::Waiting(due) => Some(*due),
            Phase::Running(attempt) => Some(attempt.end()),
            Phase::Over(_) => None,
        }
    }

    /// How the job ended, if it has.
    pub(crate) fn ending(&self) -> Option<Ending>
        ensures value { result ≡ ending_of self.now }
    {
        match self {
            Phase::Waiting(_) | Phase::Running(_) => None,
            Phase::Over(ending) => Some(*ending),
        }
    }
}

// The input that an outcome is to a schedule.
fn number(outcome: Outcome) -> u64
    ensures value { result ≡ number_of outcome }
{
    match outcome {
        Outcome::Good(value) => value,
        Outcome::Bad(code) => code,
    }
}

// How the outcome itself ends the job.
fn end_by_outcome(mode: Mode, outcome: Outcome) -> Option<Ending>
    ensures value { result ≡ ending_by_outcome mode outcome }
{
    match (mode, outcome) {
        (Mode::Retry, Outcome::Good(value)) => Some(Ending::Succeeded(value)),
        (Mode::Repeat, Outcome::Bad(code)) => Some(Ending::Failed(code)),
        (Mode::Retry, Outcome::Bad(_)) | (Mode::Repeat, Outcome::Good(_)) => None,
    }
}

// How the job ends if its schedule is done.
fn end_by_schedule(mode: Mode, outcome: Outcome) -> Ending
    ensures value { result ≡ ending_by_schedule mode outcome }
{
    match mode {
        Mode::Retry => Ending::Failed(number(outcome)),
        Mode::Repeat => Ending::Finished,
    }
}

impl Progress {
    // The entry of the script for the next attempt.
    #[tactic(auto, using(crate::proofs::Advancing::counts))]
    fn next_beat(&self) -> Beat
        requires progress { IsProgress self.now }
        ensures value { result ≡ next_entry self.now }
    {
        self.script.beat(self.records.len() as u64 + 1)
    }

    // Begins the attempt that was waited for.
    #[tactic(auto, using(crate::proofs::Advancing::counts))]
    fn begin(&mut self) -> Result<(), DriveFault>
        requires progress { IsProgress self.old }
        requires state { HasState self.old }
        requires waits { IsWaitingTo self.old.seen self.old.phase }
        requires script { IsScript self.old.script }
        ensures ok { OnOk result (Advances self.old self.new) }
        ensures err { OnErr result (StandsStill self.old self.new) }
        ensures full { OnErr result (IsFull self.old.records) }
    {
        let begun = self.seen;
        let beat = self.next_beat();
        add(&mut self.records, begun)?;
        self.phase = Phase::Running(Attempt::start(beat, begun));
        self.polls += 1;
        Ok(())
    }

    // Steps the schedule after an outcome. If that fails, only the schedule's state may be lost.
    fn step(&mut self, outcome: Outcome) -> Result<(Out, Decision), DriveFault>
        requires past { last_seen self.old.schedule ≤ self.old.seen }
        ensures rest { self.new ≡ record self.old { schedule = self.new.schedule } }
        ensures term { compiled_term self.new.schedule ≡ compiled_term self.old.schedule }
        ensures stands { OnOk result
            (StandsAfter self.old.schedule self.new.schedule self.old.seen outcome) }
        ensures answered { IfOk result (HasDecided self.old.schedule self.old.seen outcome) }
    {
        let Stepped { out, decision, .. } = self.schedule.step(self.seen, number(outcome))?;
        Ok((out, decision))
    }

    // The attempt that ran has ended, with this outcome.
    fn finish(&mut self, outcome: Outcome) -> Result<(), DriveFault>
        requires progress { IsProgress self.old }
        requires state { HasState self.old }
        requires running { HasRunTo self.old.seen outcome self.old.phase }
        requires script { IsScript self.old.script }
        ensures ok { OnOk result (Advances self.old self.new) }
        ensures err { OnErr result (StandsStill self.old self.new) }
        ensures asked { OnErr result (ending_by_outcome self.old.mode outcome ≡ None) }
    {
        match end_by_outcome(self.mode, outcome) {
            Some(ending) => {
                self.end(outcome, None, Phase::Over(ending));
                Ok(())
            }
            None => {
                let (out, decision) = self.step(outcome)?;
                self.follow(outcome, out, decision)
            }
        }
    }

    // The schedule has returned this.
    fn follow(&mut self, outcome: Outcome, out: Out, decision: Decision) -> Result<(), DriveFault>
        requires progress { IsProgress self.old }
        requires state { WasAsked self.old outcome }
        requires running { HasRunTo self.old.seen outcome self.old.phase }
        requires goes_on { ending_by_outcome self.old.mode outcome ≡ None }
        requires answer { IsDecided self.old outcome out decision }
        requires script { IsScript self.old.script }
        ensures ok { OnOk result (Advances self.old self.new) }
        ensures err { OnErr result (StandsStill self.old self.new) }
    {
        let step = Some((out, decision));
        match decision {
            Decision::Stop => {
                let ending = end_by_schedule(self.mode, outcome);
                self.end(outcome, step, Phase::Over(ending));
                Ok(())
            }
            Decision::Next(due) if due > self.seen => {
                self.end(outcome, step, Phase::Waiting(due));
                Ok(())
            }
            Decision::Next(_) => self.restart(outcome, step),
        }
    }

    // The last attempt ends, and none begins.
    #[tactic(auto, using(crate::proofs::Advancing::counts))]
    fn end(&mut self, outcome: Outcome, step: Option<(Out, Decision)>, phase: Phase)
        requires progress { IsProgress self.old }
        requires running { HasRunTo self.old.seen outcome self.old.phase }
        ensures rest { self.new ≡ turned self.old self.new phase }
        ensures ended { HasEnded self.old self.new outcome (step_of step) [] }
    {
        let at = self.seen;
        let last = self.records.len() - 1;
        set_end(&mut self.records, last, Ended { at, outcome, step });
        self.phase = phase;
        self.polls += 1;
    }

    // The last attempt ends, and the next one begins.
    #[tactic(auto, using(crate::proofs::Advancing::counts))]
    fn restart(&mut self, outcome: Outcome, step: Option<(Out, Decision)>) -> Result<(), DriveFault>
        requires progress { IsProgress self.old }
        requires running { HasRunTo self.old.seen outcome self.old.phase }
        ensures rest { OnOk result (self.new ≡ turned self.old self.new
            (Phase.Running (started (next_entry self.old) self.old.seen))) }
        ensures ended { OnOk result
            (HasEnded self.old self.new outcome (step_of step) (runs self.old.seen ∷ [])) }
        ensures err { OnErr result (StandsStill self.old self.new) }
    {
        let at = self.seen;
        let next = self.next_beat();
        let last = self.records.len() - 1;
        add(&mut self.records, at)?;
        set_end(&mut self.records, last, Ended { at, outcome, step });
        self.phase = Phase::Running(Attempt::start(next, at));
        self.polls += 1;
        Ok(())
    }

    /// Does the due poll, if there is one. It is ready if that was done, or if the job has ended.
    pub(crate) fn advance(&mut self, cx: &mut Context<'_>) -> Poll<Result<(), DriveFault>>
        requires progress { IsProgress self.old }
        requires state { HasState self.old }
        requires script { IsScript self.old.script }
        ensures over { IsOver self.old.phase
            → (result ≡ Poll.Ready (Ok tt)) × IsSame self.old self.new }
        ensures early { IsEarly self.old.seen self.old.phase
            → (result ≡ Poll.Pending) × IsSame self.old self.new }
        ensures due { IsDuePhase self.old.seen self.old.phase
            → IfReady result (IsTurn self.old self.new) }
        ensures answers { IsDuePhase self.old.seen self.old.phase → OnPending result ⊥ }
        ensures refused { IfReady result (λ done.
            OnErr done (TakesMemory self.old.mode self.old.phase)) }
        ensures armed { OnPending result (IsArmed cx.new) }
        ensures kept { Keeps cx.old cx.new }
    {
        let seen = self.seen;
        match &mut self.phase {
            Phase::Over(_) => Poll::Ready(Ok(())),
            Phase::Waiting(due) if seen < *due => cx.yield_now(),
            Phase::Waiting(_) => Poll::Ready(self.begin()),
            Phase::Running(attempt) => {
                attempt.see(seen);
                let outcome = ready!(attempt.poll(cx));
                Poll::Ready(self.finish(outcome))
            }
        }
    }
}
