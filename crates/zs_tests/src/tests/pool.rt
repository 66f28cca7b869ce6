//! The tasks that the tests of boards, shelves, tallies and rounds poll.
ghost use Rattle.std.specs.Prelude.{◌≡◌, ◌≤◌, [], false, All, IfOk, map, length};
ghost use Rattle.std.specs.List.Sorted.{IsStrictlyIncreasing};
ghost use Rattle.zs_drive.specs.Clocks.{max_tick};
ghost use Rattle.zs_pool.specs.Rounds.{IsPollable};

use super::support::jobs::{job_of, retried};
use std::alloc::Global;
use std::test::Fail;
use zs_drive::Task;
use zs_pool::{
    Batch, Board, BoardPass, Cut, Gate, OpenGate, Polled, PoolFault, Shelf, ShelfPass, Tally,
    TallySeat, poll_batch, round,
};

mod board;
mod polling;
mod rounds;
mod shelf;
mod tally;

// Makes a retry that fails after 5 ms, and succeeds 5 ms later.
fn new_task(alloc: Global, number: u64) -> Result<Task, Fail>
    ensures new { IfOk result (λ task.
        (task.number ≡ number) × (task.moments ≡ []) × (task.seen ≡ 0) × (task.broken ≡ false)
        × (task.job.start ≡ 0)) }
{
    let job = job_of(alloc, retried("a", 0))?;
    Ok(Task::new(alloc, number, job)?)
}

// Makes such tasks, with the numbers from 0 on, to be polled at this moment.
pub fn new_tasks(alloc: Global, count: u64, now: u64) -> Result<Vec<Task>, Fail>
    requires now { now ≤ max_tick }
    ensures count { IfOk result (λ tasks. length tasks.items ≡ count) }
    ensures rising { IfOk result (λ tasks.
        IsStrictlyIncreasing (map (λ task. task.number) tasks.items)) }
    ensures pollable { IfOk result (λ tasks. All (IsPollable now) tasks.items) }
{
    let mut tasks = Vec::new(alloc);
    for number in 0..count {
        tasks.push(new_task(alloc, number)?)?;
    }
    Ok(tasks)
}
