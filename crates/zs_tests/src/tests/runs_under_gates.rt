//! Runs on several workers, under gates that hold a thread until others have come. A run on fewer
//! threads, or one that holds a lock over both the gate and the poll, stops waiting, and a flag
//! shows it.
use super::gates::{Apart, Crowd, Held, Meeting, OneByOne, Record, Rounds, Slow};
use super::support::expect_each;
use super::support::plans::{PLAN, plan_of, report_of, written};
use std::alloc::Global;
use std::process::Abort;
use std::sync::Wait;
use std::test::Fail;
use std::thread::Threads;
use zs_pool::Gate;

// A run of jobs with these names, under the gate, writes their report, with three polls for each
// job.
fn expect_report<G: Gate, R: Abort + Threads + Wait + Sync>(
    rt: &R,
    alloc: Global,
    gate: &G,
    names: &str,
    workers: u64,
) -> Result<(), Fail> {
    expect_report_of(rt, alloc, gate, names, workers, 1)
}

// The same, with this number of jobs in a batch.
fn expect_report_of<G: Gate, R: Abort + Threads + Wait + Sync>(
    rt: &R,
    alloc: Global,
    gate: &G,
    names: &str,
    workers: u64,
    grain: u64,
) -> Result<(), Fail> {
    let plan = plan_of(alloc, names, workers, grain)?;
    let report = report_of(alloc, names, (names.len() as u64).wrapping_mul(3))?;
    let written = written(rt, alloc, gate, &plan)?;
    assert!(rt; written.as_slice() == report.as_bytes());
    Ok(())
}

#[test]
fn two_jobs_meet_at_the_gate_of_each_moment(rt: HostRuntime) -> Result<(), Fail> {
    let gate = Meeting::of(2);
    expect_report(&rt, rt.alloc(), &gate, "ab", 2)?;
    assert!(rt; gate.alone() == 0);
    Ok(())
}

#[test]
fn one_worker_takes_the_batches_of_both_other_jobs(rt: HostRuntime) -> Result<(), Fail> {
    for job in 0..3u64 {
        let gate = Held::job(job);
        expect_report(&rt, rt.alloc(), &gate, "abc", 2)?;
        expect_each(&rt, &[gate.alone() == 0], job);
    }
    Ok(())
}

#[test]
fn each_pass_is_told_of_the_polls_before(rt: HostRuntime) -> Result<(), Fail> {
    let gate = OneByOne::of(1);
    let _ = written(&rt, rt.alloc(), &gate, PLAN)?;
    assert!(rt; gate.passes() == 3 && gate.wrong() == 0);
    Ok(())
}

#[test]
fn a_slow_job_changes_nothing(rt: HostRuntime) -> Result<(), Fail> {
    for job in 0..7u64 {
        expect_report(&rt, rt.alloc(), &Slow { job }, "abcdefg", 3)?;
    }
    Ok(())
}

// One name for each of the most workers that a plan may have.
const NAMES: &str = "abcdefghijklmnopqrstuvwxyzABCDEFGHIJKLMNOPQRSTUVWXYZ0123456789-_";

// While the first job of a batch is held, the other thread takes all batches but this one: those of
// three of ten jobs, and of twenty of 64.
#[test]
fn a_thread_takes_the_plans_grain_of_jobs(rt: HostRuntime) -> Result<(), Fail> {
    for (job, others) in [(0u64, 0x3f9u64), (3, 0x3cf), (6, 0x27f), (9, 0x3ff)] {
        let gate = Apart::of(job, others);
        expect_report_of(&rt, rt.alloc(), &gate, "abcdefghij", 2, 3)?;
        expect_each(&rt, &[gate.by_then() == others], job);
    }
    for (job, others) in [(0u64, 0xfffffffffff00001u64), (20, 0xffffff00001fffff)] {
        let gate = Apart::of(job, others);
        expect_report_of(&rt, rt.alloc(), &gate, NAMES, 2, 20)?;
        expect_each(&rt, &[gate.by_then() == others], job);
    }
    Ok(())
}

#[test]
fn as_many_threads_poll_at_once_as_the_plan_has_workers(rt: HostRuntime) -> Result<(), Fail> {
    for workers in [1u64, 3, 8, 64] {
        let gate = Crowd::of(workers);
        expect_report(&rt, rt.alloc(), &gate, NAMES, workers)?;
        expect_each(&rt, &[gate.alone() == 0, gate.most() == workers], workers);
    }
    Ok(())
}

#[test]
fn each_pass_is_told_the_moment_of_its_round(rt: HostRuntime) -> Result<(), Fail> {
    for workers in [1u64, 3] {
        let gate = Rounds::of(4);
        expect_report(&rt, rt.alloc(), &gate, "abcd", workers)?;
        expect_each(&rt, &[gate.passes() == 12, gate.wrong() == 0], workers);
    }
    Ok(())
}

// The passes of 64 jobs, polled three times each, by one thread and by several.
#[test]
fn each_job_is_polled_at_rising_moments(rt: HostRuntime) -> Result<(), Fail> {
    for (workers, grain) in [(1u64, 1u64), (2, 20), (7, 3), (64, 1), (64, 10_000)] {
        let gate = Record::of(rt.alloc(), 192)?;
        expect_report_of(&rt, rt.alloc(), &gate, NAMES, workers, grain)?;
        expect_each(&rt, &[gate.passes() == 192, gate.wrong() == 0], workers);
    }
    Ok(())
}

// The number of threads that poll at once is the number of batches, if that is less than the
// workers.
#[test]
fn no_more_threads_poll_than_there_are_batches(rt: HostRuntime) -> Result<(), Fail> {
    for (grain, batches) in [(64u64, 1u64), (63, 2), (20, 4), (9, 8)] {
        let gate = Crowd::of(batches);
        expect_report_of(&rt, rt.alloc(), &gate, NAMES, 64, grain)?;
        expect_each(&rt, &[gate.alone() == 0, gate.most() == batches], grain);
    }
    Ok(())
}
