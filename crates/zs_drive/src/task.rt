//! A job as a future that its caller polls at moments that the caller chooses.
ghost use Rattle.std.specs.Prelude.{◌≡◌, ◌+◌, ◌≤◌, ◌<◌, map, length, false, true, Ok, IfOk, IfErr, IfSome, ⊤};
ghost use Rattle.futures.specs.Poll.{OnPending};
ghost use Rattle.futures.specs.Task.{IsArmed, Keeps};
ghost use Rattle.zs_effect.specs.Scripts.{IsScript};
ghost use Rattle.zs_drive.specs.Clocks.{AreTicks, max_tick};
ghost use Rattle.zs_drive.specs.Values.{job_record, attempted_of};
ghost use Rattle.zs_drive.specs.Timeline.{poll_moments};
ghost use Rattle.zs_drive.specs.Tasks.{Breaks, EndsByOutcome, IsNotYetDue, MatchMemory, WasPolled, current_timeline, new_task};

use crate::fault::DriveFault;
use crate::job::{Job, Mode};
use crate::progress::{Phase, Progress};
use crate::record::{Attempted, Ending};
use futures::task::{Context, Poll};
use futures::{Future, ready};
use std::alloc::Global;
use std::marker::Model;
use zs_step::Compiled;

/// A numbered job with the attempts so far. A poll that runs out of memory breaks it.
pub struct Task {
    number: u64,
    // In a box, so that a task is moved as three words.
    progress: Box<Progress>,
    broken: bool,
}

// Written by hand: crates that drop one need no proof of what is in it.
impl Drop for Task {
    fn drop(self) {
        let Task {
            number: _,
            progress: _,
            broken: _,
        } = self;
    }
}

impl Model for Task {
    ghost use Rattle.zs_drive.specs.Tasks.{TaskValue};
    ghost use Rattle.zs_term.specs.ScheduleCode.{schedule_code};
    ghost use Rattle.std.specs.Coded.{codes};

    ghost Value = { TaskValue };

    ghost coded = { Prim.hlevel (codes, schedule_code) };

    ghost use Rattle.zs_drive.specs.Fields.{task_of, IsTask};

    ghost view = { task_of };

    ghost invariant = { IsTask };
}

impl Task {
    /// Makes the task of a job, which has seen moment 0. If memory runs out, it returns `Memory`,
    /// and the job is dropped.
    pub fn new(alloc: Global, number: u64, job: Job) -> Result<Task, DriveFault>
        ensures made { IfOk result (λ task. task ≡ new_task number (job_record job)) }
        ensures script { IfOk result (λ task. IsScript task.job.script) }
        ensures memory { IfErr result (λ fault. fault ≡ DriveFault.Memory) }
    {
        let Job {
            name,
            mode,
            schedule,
            start,
            script,
        } = job;
        let schedule = Compiled::new(alloc, schedule)?;
        let progress = Progress {
            name,
            mode,
            start,
            script,
            schedule,
            records: Vec::new(alloc),
            phase: Phase::Waiting(start),
            polls: 0,
            seen: 0,
        };
        let progress = Box::new(alloc, progress)?;
        Ok(Task {
            number,
            progress,
            broken: false,
        })
    }

    /// The number that it was made with.
    pub fn number(&self) -> u64
        ensures value { result ≡ self.now.number }
    {
        self.number
    }

    /// The name of its job.
    pub fn name(&self) -> &str
        ensures value { result.now ≡ self.now.job.name }
    {
        self.progress.name.as_str()
    }

    /// What ends its job besides the schedule.
    pub fn mode(&self) -> Mode
        ensures value { result ≡ self.now.job.mode }
    {
        self.progress.mode
    }

    /// The number of moments at which it was polled while it was due.
    #[tactic(auto, using(crate::proofs::Standing::standing))]
    pub fn polls(&self) -> u64
        ensures value { result ≡ length self.now.moments }
        // Each moment at which an attempt began or ended, once.
        ensures moments { self.now.moments ≡ poll_moments (current_timeline self.now).attempts }
    {
        self.progress.polls
    }

    /// The records of its attempts so far, in order.
    #[tactic(auto, using(crate::proofs::Standing::standing))]
    pub fn records(&self) -> &[Attempted]
        ensures attempts { map attempted_of result.now ≡ (current_timeline self.now).attempts }
        ensures moments { self.now.moments ≡ poll_moments (current_timeline self.now).attempts }
        ensures clock { AreTicks self.now.moments }
        ensures script { IsScript self.now.job.script }
        // At each tick at most one attempt begins.
        ensures few { length result.now ≤ max_tick + 1 }
    {
        self.progress.records.as_slice()
    }

    /// How the job ended, if it has. That of a broken task has not.
    #[tactic(auto, using(crate::proofs::Standing::standing))]
    pub fn ending(&self) -> Option<Ending>
        ensures value { result ≡ (current_timeline self.now).ending }
        ensures unbroken { IfSome result (λ _. self.now.broken ≡ false) }
    {
        self.progress.phase.ending()
    }

    /// Whether a poll ran out of memory. Each later poll then returns `Memory`.
    pub fn broken(&self) -> bool
        ensures value { result ≡ self.now.broken }
    {
        self.broken
    }

    /// The moment that it waits for, in milliseconds: its start, the end of its attempt, or what
    /// its schedule decided.
    #[tactic(auto, using(crate::proofs::Standing::standing))]
    pub fn due(&self) -> Option<u64>
        ensures value { result ≡ (current_timeline self.now).due }
    {
        self.progress.phase.due()
    }

    /// Sets the moment of the next poll, in milliseconds: not before the last one seen, and at most
    /// 999,999,999,999,999.
    pub fn see(&mut self, now: u64)
        requires later { self.old.seen ≤ now }
        requires bounded { now ≤ max_tick }
        ensures value { self.new ≡ record self.old { seen = now } }
    {
        self.progress.seen = now;
    }
}

impl Future for Task {
    type Output = Result<Ending, DriveFault>;

    /// At or past the moment waited for: ends the attempt, steps the schedule, and begins the next
    /// attempt if that is due too. If memory runs out, it returns `Memory`, and the task is broken.
    fn poll(&mut self, cx: &mut Context<'_>) -> Poll<Result<Ending, DriveFault>>
        ensures answered { MatchMemory result ⊤ (WasPolled self.old self.new result) }
        // Only due polls and broken tasks return `Memory`.
        ensures memory { MatchMemory result (Breaks self.old self.new) ⊤ }
        ensures early { self.old.broken ≡ false → IsNotYetDue self.old
            → (result ≡ Poll.Pending) × (self.new ≡ self.old) }
        // After the ending a poll returns it, and changes nothing.
        ensures over { IfSome (current_timeline self.old).ending (λ ending.
            (result ≡ Poll.Ready (Ok ending)) × (self.new ≡ self.old)) }
        // A success of a retry and a failure of a repeat take no memory, so they are never lost.
        ensures outcome { self.old.broken ≡ false → (ending : Ending)
            → EndsByOutcome self.old ending → result ≡ Poll.Ready (Ok ending) }
        ensures same { (self.new.number ≡ self.old.number) × (self.new.job ≡ self.old.job)
            × (self.new.seen ≡ self.old.seen) }
        // For executors: a pending poll arranges the next one, and nothing that was arranged is
        // lost.
        ensures armed { OnPending result (IsArmed cx.new) }
        ensures kept { Keeps cx.old cx.new }
    {
        if self.broken {
            return Poll::Ready(Err(DriveFault::Memory));
        }
        match ready!(self.progress.advance(cx)) {
            Ok(()) => match self.progress.phase.ending() {
                Some(ending) => Poll::Ready(Ok(ending)),
                None => cx.yield_now(),
            },
            Err(fault) => {
                self.broken = true;
                Poll::Ready(Err(fault))
            }
        }
    }
}
