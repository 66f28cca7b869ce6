//! A run of jobs: rounds of due polls, at rising moments, up to the horizon.
ghost use Rattle.std.specs.Prelude.{◌≡◌, ℕ, ◌≤◌, ◌<◌, List, [], ◌∷◌, ◌++◌, length, map, Some, None, slice_set, OnOk, IfOk};
ghost use Rattle.std.specs.FinMap.{empty, get};
ghost use Rattle.zs_term.specs.Saturating.{max_moment};
ghost use Rattle.zs_drive.specs.Tasks.{TaskValue};
ghost use Rattle.zs_drive.specs.Values.{job_record};
ghost use Rattle.zs_pool.specs.Limits.{max_tasks};
ghost use Rattle.zs_engine.specs.Times.{IsLater};
ghost use Rattle.zs_engine.specs.Rounds.{jobs_in, next_tick_of, set_next};
ghost use Rattle.zs_engine.specs.Answers.{IsAnswer};

use crate::answer::Answer;
use crate::fault::{EngineFault, round_fault};
use crate::slots::take_tasks;
use std::alloc::Global;
use std::mem::drop;
use std::sync::Wait;
use std::thread::Threads;
use zs_agenda::{Agenda, Clock};
use zs_drive::{Job, Task};
use zs_pool::{Cut, Gate, Poller, Polling, Tally, TallySeat, round_in};

// A run of jobs: a slot with the task of each job, a timer for each task that waits for a tick, and
// the tally of the polls.
#[derive(Drop)]
pub(crate) struct Engine {
    alloc: Global,
    clock: Clock,
    horizon: u64,
    slots: Vec<Option<Task>>,
    agenda: Agenda,
    tally: Tally,
    seat: TallySeat,
}

// A tally of no polls, with its only seat. Its only error is `Memory`.
fn new_tally(alloc: Global) -> Result<(Tally, TallySeat), EngineFault>
    ensures ok { IfOk result (λ t.
        t.1 ≡ record { tally = t.0; count = 0; allowance = max_moment; seen = 0 }) }
{
    match Tally::new(alloc) {
        Ok(made) => Ok(made),
        Err(_refused) => Err(EngineFault::Memory),
    }
}

// Returns the tick at which the task is due, if there is one.
fn next_tick(clock: &Clock, task: &Task) -> Option<u64>
    ensures value { result ≡ next_tick_of clock.now task.now }
{
    clock.tick(task.due()?)
}

// Arms the timer of a task that has none, if there is a tick for it.
fn set_timer(clock: &Clock, agenda: &mut Agenda, task: &Task) -> Result<(), EngineFault>
    requires unset { get agenda.old.moments task.now.number ≡ None }
    requires later { IsLater agenda.old.last_taken (next_tick_of clock.now task.now) }
    ensures ok { OnOk result
        (agenda.new ≡ set_next agenda.old task.now.number (next_tick_of clock.now task.now)) }
{
    if let Some(moment) = next_tick(clock, task) {
        agenda.set(task.number(), moment)?;
    }
    Ok(())
}

// Returns the tasks of slots, none of which is empty.
fn into_tasks(alloc: Global, slots: Vec<Option<Task>>) -> Result<Vec<Task>, EngineFault>
    requires filled { (tasks : List TaskValue) × (slots.items ≡ map (λ t. Some t) tasks) }
    ensures same { IfOk result (λ tasks. slots.items ≡ map (λ t. Some t) tasks.items) }
{
    let mut tasks = Vec::with_capacity(alloc, slots.len())?;
    for slot in slots {
        let Some(task) = slot else {
            unreachable!();
        };
        tasks.push(task)?;
    }
    Ok(tasks)
}

impl Engine {
    ghost use Rattle.zs_engine.specs.Engine.{IsNew, IsResting, IsDueAt, IsSameRun, HasRunRound};

    // An engine of no jobs.
    pub(crate) fn new(alloc: Global, clock: Clock) -> Result<Engine, EngineFault>
        ensures new { IfOk result IsNew }
        ensures empty { IfOk result (λ engine. (engine.clock ≡ clock) × (engine.slots.items ≡ [])) }
    {
        let horizon = clock.horizon();
        let agenda = Agenda::new(alloc)?;
        let (tally, seat) = new_tally(alloc)?;
        Ok(Engine {
            alloc,
            clock,
            horizon,
            slots: Vec::new(alloc),
            agenda,
            tally,
            seat,
        })
    }

    // Adds a job.
    fn add(&mut self, job: Job) -> Result<(), EngineFault>
        requires few { length (jobs_in self.old.slots.items) < max_tasks }
        requires new { IsNew self.old }
        ensures new { OnOk result (IsNew self.new) }
        ensures clock { OnOk result (self.new.clock ≡ self.old.clock) }
        ensures jobs { OnOk result (jobs_in self.new.slots.items
            ≡ jobs_in self.old.slots.items ++ job_record job ∷ []) }
    {
        let task = Task::new(self.alloc, self.slots.len() as u64, job)?;
        set_timer(&self.clock, &mut self.agenda, &task)?;
        self.slots.push(Some(task))?;
        Ok(())
    }

    // Puts a polled task back into its slot, and sets its timer again.
    fn put_back(&mut self, task: Task) -> Result<(), EngineFault>
        requires slot { task.number < length self.old.slots.items }
        requires unset { get self.old.agenda.moments task.number ≡ None }
        requires later { IsLater self.old.agenda.last_taken (next_tick_of self.old.clock task) }
        ensures slots { OnOk result
            (self.new.slots.items ≡ slice_set self.old.slots.items task.number (Some task)) }
        ensures agenda { OnOk result (self.new.agenda
            ≡ set_next self.old.agenda task.number (next_tick_of self.old.clock task)) }
        ensures clock { OnOk result
            ((self.new.clock ≡ self.old.clock) × (self.new.horizon ≡ self.old.horizon)) }
        ensures tally { OnOk result
            ((self.new.tally ≡ self.old.tally) × (self.new.seat ≡ self.old.seat)) }
    {
        set_timer(&self.clock, &mut self.agenda, &task)?;
        let number = task.number() as usize;
        drop(self.slots[number].replace(task));
        Ok(())
    }

    // One round: the tasks that are due at `now` are taken out, polled, and put back. The list that
    // they are taken to serves each round.
    fn run_round<G: Gate, R: Threads + Wait + Sync>(
        &mut self,
        rt: &R,
        cut: Cut,
        polling: &mut Polling<'_, G>,
        now: u64,
        numbers: &[u64],
        room: Vec<Task>,
    ) -> Result<Vec<Task>, EngineFault>
        requires due { IsDueAt now numbers.now self.old }
        ensures round { OnOk result (HasRunRound now self.old self.new) }
    {
        let due = take_tasks(&mut self.slots, numbers, room)?;
        let mut polled = match round_in(rt, cut, polling, &self.tally, &mut self.seat, now, due) {
            Ok(polled) => polled,
            Err(fault) => return Err(round_fault(fault)),
        };
        for task in polled.drain(..) {
            self.put_back(task)?;
        }
        Ok(polled)
    }

    // The rounds, under one context.
    fn run_all<G: Gate, R: Threads + Wait + Sync>(
        &mut self,
        rt: &R,
        cut: Cut,
        polling: &mut Polling<'_, G>,
    ) -> Result<(), EngineFault>
        requires rests { IsResting self.old }
        ensures rests { OnOk result (IsResting self.new) }
        ensures same { OnOk result (IsSameRun self.old self.new) }
        ensures over { OnOk result (self.new.agenda.moments ≡ empty) }
    {
        let mut room = Vec::new(self.alloc);
        while let Some((now, numbers)) = self.agenda.take()? {
            room = self.run_round(rt, cut, polling, now, &numbers, room)?;
        }
        Ok(())
    }

    // Adds the jobs, in order, and runs them until no task waits for a tick.
    pub(crate) fn run<G: Gate, R: Threads + Wait + Sync>(
        &mut self,
        rt: &R,
        cut: Cut,
        gate: &G,
        jobs: Vec<Job>,
    ) -> Result<(), EngineFault>
        requires few { length jobs.items ≤ max_tasks }
        requires new { IsNew self.old }
        requires empty { self.old.slots.items ≡ [] }
        ensures rests { OnOk result (IsResting self.new) }
        ensures clock { OnOk result (self.new.clock ≡ self.old.clock) }
        ensures jobs { OnOk result (jobs_in self.new.slots.items ≡ map job_record jobs.items) }
        ensures over { OnOk result (self.new.agenda.moments ≡ empty) }
    {
        for job in jobs {
            self.add(job)?;
        }
        let poller = match Poller::new(self.alloc) {
            Ok(poller) => poller,
            Err(fault) => return Err(round_fault(fault)),
        };
        let mut polling = poller.begin(gate);
        self.run_all(rt, cut, &mut polling)
    }

    // The tasks in job order, with the closed tally.
    pub(crate) fn finish(self) -> Result<Answer, EngineFault>
        requires rests { IsResting self }
        requires over { self.agenda.moments ≡ empty }
        ensures answer { IfOk result (IsAnswer self.clock (jobs_in self.slots.items)) }
    {
        let tasks = into_tasks(self.alloc, self.slots)?;
        Ok(Answer {
            tasks,
            polls: self.tally.close(self.seat),
            horizon: self.horizon,
        })
    }
}
