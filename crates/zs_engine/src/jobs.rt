//! Runs a list of jobs up to a clock's horizon.

ghost use Rattle.std.specs.Prelude.{◌≤◌, length, map, IfOk};
ghost use Rattle.zs_drive.specs.Values.{job_record};
ghost use Rattle.zs_pool.specs.Limits.{max_tasks};
ghost use Rattle.zs_engine.specs.Answers.{IsAnswer};

use crate::answer::Answer;
use crate::engine::Engine;
use crate::fault::EngineFault;
use std::alloc::Global;
use std::sync::Wait;
use std::thread::Threads;
use zs_agenda::Clock;
use zs_drive::Job;
use zs_pool::{Cut, Gate};

/// Runs the jobs up to the clock's horizon. A job's number is its place in the list, from 0. If
/// the run fails, it drops the jobs.
pub fn run_jobs<G: Gate, R: Threads + Wait + Sync>(
    rt: &R,
    alloc: Global,
    cut: Cut,
    gate: &G,
    clock: Clock,
    jobs: Vec<Job>,
) -> Result<Answer, EngineFault>
    requires few { length jobs.items ≤ max_tasks }
    // The tasks are those of the jobs in order, none broken. Each has the timeline of its job
    // alone, and each due poll was counted once, for every cut and gate.
    ensures answer { IfOk result (IsAnswer clock (map job_record jobs.items)) }
{
    let mut engine = Engine::new(alloc, clock)?;
    engine.run(rt, cut, gate, jobs)?;
    engine.finish()
}
