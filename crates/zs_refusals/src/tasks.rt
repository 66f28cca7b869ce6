//! Jobs, and their tasks polled by hand.
ghost use Rattle.std.specs.Prelude.{◌≡◌, ◌≤◌, OnOk};
ghost use Rattle.zs_drive.specs.Clocks.{max_tick};

use crate::ended::{Answer, CallFault, Case, right_if};
use futures::Future;
use futures::task::{Doorbell, Poll, Solo};
use std::alloc::{Alloc, Global};
use std::random::RandomSource;
use zs_drive::{DriveFault, Job, Task};
use zs_run::read_plan;

/// Returns the last job of a plan.
pub fn job_of(alloc: Global, plan: &str) -> Result<Job, CallFault> {
    let mut plan = read_plan(alloc, plan.as_bytes())?;
    plan.jobs.pop().ok_or(CallFault::Wrong("no job"))
}

/// Polls a new task of a plan's job at 0, 5, 10, 15 and 20.
pub fn poll_in_turn<R: Alloc<A = Global> + RandomSource>(rt: &R, case: &mut Case<'_>) -> Answer {
    let solo = Solo::new(rt, Doorbell::spinning())?;
    let job = job_of(case.alloc, case.input)?;
    case.call = "Task::new";
    let mut task = Task::new(case.alloc, 4, job)?;
    case.call = "poll";
    let polled = poll_five_times(&solo, &mut task);
    drop(task);
    polled?;
    Ok(String::new(case.alloc))
}

fn poll_five_times(solo: &Solo, task: &mut Task) -> Result<(), CallFault>
    requires seen { task.old.seen ≡ 0 }
{
    poll_well(solo, task, 0)?;
    poll_well(solo, task, 5)?;
    poll_well(solo, task, 10)?;
    poll_well(solo, task, 15)?;
    poll_well(solo, task, 20)?;
    let is_right = task.polls() == 5 && task.number() == 4 && has_first(task);
    right_if(is_right, "other records")
}

// Makes one due poll. If it fails, the task stays broken, with unchanged records.
fn poll_well(solo: &Solo, task: &mut Task, now: u64) -> Result<(), CallFault>
    requires seen { task.old.seen ≤ now }
    requires bounded { now ≤ max_tick }
    ensures seen { OnOk result (task.new.seen ≡ now) }
{
    let (polls, records) = (task.polls(), task.records().len());
    if task.due() != Some(now) {
        return Err(CallFault::Wrong("due at another moment"));
    }
    task.see(now);
    let Some(fault) = poll(solo, task) else {
        return right_if(task.polls() > polls, "a due poll that isn't counted");
    };
    is_as_before(task, polls, records, now)?;
    let is_refused = poll(solo, task).is_some();
    right_if(is_refused, "another answer of a broken task")?;
    is_as_before(task, polls, records, now)?;
    Err(CallFault::from(fault))
}

// A failed poll broke the task, and didn't change its records and its due moment.
fn is_as_before(task: &Task, polls: u64, records: usize, now: u64) -> Result<(), CallFault> {
    let stands = task.polls() == polls && task.records().len() == records;
    let is_right = stands && has_first(task) && task.due() == Some(now);
    right_if(task.broken() && is_right, "not broken, or changed")
}

// Returns the fault of a poll, or `None` if the job continues or has ended.
fn poll(solo: &Solo, task: &mut Task) -> Option<DriveFault>
    ensures seen { task.new.seen ≡ task.old.seen }
{
    let mut cx = solo.begin();
    let polled = task.poll(&mut cx);
    cx.cancel();
    match polled {
        Poll::Ready(Err(fault)) => Some(fault),
        Poll::Ready(Ok(_)) | Poll::Pending => None,
    }
}

// Whether the records of a task are those of its first attempts.
fn has_first(task: &Task) -> bool {
    let records = task.records();
    for (record, begun) in records.iter().zip(&[0, 5, 15]) {
        if record.begun != *begun {
            return false;
        }
    }
    records.len() <= 3
}
