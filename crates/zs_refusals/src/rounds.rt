//! Polls batches, singly and on several workers.
ghost use Rattle.std.specs.Prelude.{◌≡◌, All, IfOk, length, map};
ghost use Rattle.std.specs.List.Sorted.{IsStrictlyIncreasing};
ghost use Rattle.zs_pool.specs.Rounds.{IsPollable};

use crate::ended::{Answer, CallFault, Case, SET_UP, right_if};
use crate::tasks::job_of;
use std::alloc::Global;
use std::sync::Wait;
use std::thread::Threads;
use zs_drive::Task;
use zs_pool::{Batch, Cut, OpenGate, Tally, poll_batch, round};

const TASKS: u64 = 2;

// Makes two tasks of the plan's job, due at 0.
fn due_tasks(alloc: Global, plan: &str) -> Result<Vec<Task>, CallFault>
    ensures few { IfOk result (λ tasks. length tasks.items ≡ 2) }
    ensures rising { IfOk result (λ tasks.
        IsStrictlyIncreasing (map (λ task. task.number) tasks.items)) }
    ensures pollable { IfOk result (λ tasks. All (IsPollable 0) tasks.items) }
{
    let first = due_task(alloc, plan, 0)?;
    let second = due_task(alloc, plan, 1)?;
    Ok(Vec::from_array(alloc, [first, second])?)
}

fn due_task(alloc: Global, plan: &str, number: u64) -> Result<Task, CallFault>
    ensures number { IfOk result (λ task. task.number ≡ number) }
    ensures pollable { IfOk result (IsPollable 0) }
{
    let job = job_of(alloc, plan)?;
    let task = Task::new(alloc, number, job)?;
    match task.due() {
        Some(0) if !task.broken() => Ok(task),
        _ => Err(CallFault::Wrong("a new task that isn't due")),
    }
}

/// Polls one batch. If a poll runs out of memory, its task is broken, and so is the message.
pub fn poll_one_batch<R>(rt: &R, case: &mut Case<'_>) -> Answer {
    case.call = "Tally::new";
    let (tally, mut seat) = Tally::new(case.alloc)?;
    case.call = SET_UP;
    let tasks = due_tasks(case.alloc, case.input)?;
    let batch = Batch { number: 3, tasks };
    case.call = "poll_batch";
    let polled = poll_batch(rt, case.alloc, &OpenGate, &tally, &mut seat, 0, batch)?;
    let is_counted = Tally::left(&seat) == u64::MAX - TASKS;
    let is_right = polled.number == 3 && polled.now == 0 && is_counted;
    right_if(is_right, "another message")?;
    are_polled(&polled.tasks, polled.broken())?;
    Ok(String::new(case.alloc))
}

// Each of two tasks was polled once or is broken, and the message says whether one is broken.
fn are_polled(tasks: &[Task], is_told_broken: bool) -> Result<(), CallFault> {
    let mut is_broken = false;
    for (place, task) in tasks.iter().enumerate() {
        let wanted = if task.broken() { 0 } else { 1 };
        let is_right = task.polls() == wanted && task.number() == place as u64;
        right_if(is_right, "other tasks")?;
        is_broken = is_broken || task.broken();
    }
    let is_right = tasks.len() == 2 && is_broken == is_told_broken;
    right_if(is_right, "other tasks")?;
    if is_broken {
        Err(CallFault::Broken)
    } else {
        Ok(())
    }
}

/// Polls a round on two workers.
pub fn one_round<R: Threads + Wait + Sync>(rt: &R, case: &mut Case<'_>) -> Answer {
    let Some(cut) = Cut::new(2, 1) else {
        return Err(CallFault::Wrong("no cut"));
    };
    let (tally, mut seat) = Tally::new(case.alloc)?;
    let tasks = due_tasks(case.alloc, case.input)?;
    case.call = "round";
    let tasks = round(rt, case.alloc, cut, &OpenGate, &tally, &mut seat, 0, tasks)?;
    let is_counted = tally.close(seat) == TASKS;
    let polled = are_polled(&tasks, false);
    drop(tasks);
    right_if(is_counted, "another count")?;
    polled?;
    Ok(String::new(case.alloc))
}
