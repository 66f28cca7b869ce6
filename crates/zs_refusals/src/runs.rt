//! Plans, reports, and whole runs.
use crate::ended::{Answer, Case, right_if};
use std::sync::Wait;
use std::thread::Threads;
use zs_engine::run_jobs;
use zs_pool::OpenGate;
use zs_run::{Marked, Plan, read_plan, report, run};

// The capacity for a report. No report of the tests is longer.
const ROOM: usize = 16384;

/// Reads a plan from its bytes, runs its jobs, and makes the report of the result.
pub fn run_jobs_of<R: Threads + Wait + Sync>(rt: &R, case: &mut Case<'_>) -> Answer {
    case.call = "read_plan";
    let Plan { clock, cut, jobs } = read_plan(case.alloc, case.input.as_bytes())?;
    case.call = "run_jobs";
    let answer = run_jobs(rt, case.alloc, cut, &OpenGate, clock, jobs)?;
    case.call = "report";
    let text = report(case.alloc, &answer);
    drop(answer);
    Ok(text?)
}

/// Makes a whole run, and returns what it wrote. A run that fails writes nothing.
pub fn run_plan<R: Threads + Wait + Sync>(rt: &R, case: &mut Case<'_>) -> Answer {
    let mut written: Vec<u8> = Vec::with_capacity(case.alloc, ROOM)?;
    let mut reader = Marked::new(case.input.as_bytes());
    let mut writer = Marked::new(&mut written);
    case.call = "run";
    let ended = run(rt, case.alloc, &OpenGate, &mut reader, &mut writer);
    right_if(ended.is_ok() || written.is_empty(), "refused and written")?;
    ended?;
    Ok(String::from_utf8(written)?)
}
