//! Rounds on one thread and on several, under gates that hold them.
ghost use Rattle.std.specs.Prelude.{◌≡◌, ◌≤◌, IfOk};
ghost use Rattle.zs_drive.specs.Clocks.{max_tick};
ghost use Rattle.zs_term.specs.Saturating.{max_moment};

use super::super::gates::{Chained, Held, LastFirst, Meeting, OneByOne, Slow};
use super::*;
use std::process::Abort;
use std::sync::Wait;
use std::thread::Threads;

// Polls new tasks in a round, on a new tally: returns the tasks and what was counted.
fn one_round<G: Gate, R: Threads + Wait + Sync>(
    rt: &R,
    alloc: Global,
    cut: Cut,
    gate: &G,
    now: u64,
    count: u64,
) -> Result<(Vec<Task>, u64), Fail>
    requires count { count ≤ 10000 }
    requires now { now ≤ max_tick }
    ensures count { IfOk result (λ r. r.1 ≡ count) }
{
    let tasks = new_tasks(alloc, count, now)?;
    let (tally, mut seat) = Tally::new(alloc)?;
    let polled = round(rt, alloc, cut, gate, &tally, &mut seat, now, tasks)?;
    Ok((polled, tally.close(seat)))
}

// The tasks of a round at moment 0 are back in order, each polled once.
fn expect_polled<R: Abort>(rt: &R, tasks: &[Task], count: usize) {
    assert!(rt; tasks.len() == count);
    for (place, task) in tasks.iter().enumerate() {
        let found = (task.number(), task.polls(), task.due());
        assert!(rt; found == (place as u64, 1, Some(5)));
    }
}

fn within<R: Abort>(rt: &R, workers: u64, grain: u64) -> Cut {
    Cut::new(workers, grain).expect(rt, "within the limits")
}

// A round of new tasks at moment 0, under the gate, polls and counts each task once.
fn expect_round<G: Gate, R: Abort + Threads + Wait + Sync>(
    rt: &R,
    alloc: Global,
    cut: Cut,
    gate: &G,
    count: u64,
) -> Result<(), Fail>
    requires count { count ≤ 10000 }
{
    let (polled, counted) = one_round(rt, alloc, cut, gate, 0, count)?;
    expect_polled(rt, &polled, count as usize);
    assert!(rt; counted == count);
    Ok(())
}

#[test]
fn every_cut_gives_the_same_tasks_and_the_same_count(rt: HostRuntime) -> Result<(), Fail> {
    for (workers, grain) in [(1u64, 1u64), (2, 1), (3, 7), (64, 1), (64, 10000)] {
        let cut = within(&rt, workers, grain);
        expect_round(&rt, rt.alloc(), cut, &OpenGate, 2)?;
        expect_round(&rt, rt.alloc(), cut, &OpenGate, 100)?;
    }
    Ok(())
}

#[test]
fn an_empty_round_counts_nothing(rt: HostRuntime) -> Result<(), Fail> {
    let alloc = rt.alloc();
    let tasks = new_tasks(alloc, 0, 0)?;
    let (tally, mut seat) = Tally::new(alloc)?;
    let cut = within(&rt, 2, 1);
    let polled = round(&rt, alloc, cut, &OpenGate, &tally, &mut seat, 0, tasks)?;
    assert!(rt; polled.is_empty());
    assert!(rt; tally.seen(&mut seat) == 0);
    Ok(())
}

#[test]
fn one_worker_passes_each_gate_between_two_polls(rt: HostRuntime) -> Result<(), Fail> {
    let gate = OneByOne::of(3);
    expect_round(&rt, rt.alloc(), within(&rt, 1, 1), &gate, 3)?;
    assert!(rt; (gate.passes(), gate.wrong()) == (3, 0));
    Ok(())
}

#[test]
fn two_threads_meet_at_the_gate(rt: HostRuntime) -> Result<(), Fail> {
    let gate = Meeting::of(2);
    expect_round(&rt, rt.alloc(), within(&rt, 2, 1), &gate, 2)?;
    assert!(rt; gate.alone() == 0);
    Ok(())
}

// Polls two new tasks in each of a hundred rounds, in which two threads meet. Returns the seat that
// counted.
fn hundred_rounds<R: Threads + Wait + Sync + Abort>(
    rt: &R,
    alloc: Global,
    cut: Cut,
    tally: &Tally,
    mut seat: TallySeat,
) -> Result<TallySeat, Fail>
    requires tally { seat.tally ≡ tally.now }
    requires left { seat.allowance ≡ max_moment }
    ensures tally { IfOk result (λ s. s.tally ≡ tally.now) }
{
    for _k in 0..100u64 {
        let gate = Meeting::of(2);
        let tasks = new_tasks(alloc, 2, 0)?;
        let polled = round(rt, alloc, cut, &gate, tally, &mut seat, 0, tasks)?;
        assert!(rt; gate.alone() == 0);
        expect_polled(rt, &polled, 2);
    }
    Ok(seat)
}

#[test]
fn two_threads_meet_in_each_of_a_hundred_rounds(rt: HostRuntime) -> Result<(), Fail> {
    let cut = within(&rt, 64, 1);
    let (tally, seat) = Tally::new(rt.alloc())?;
    let seat = hundred_rounds(&rt, rt.alloc(), cut, &tally, seat)?;
    assert!(rt; tally.close(seat) == 200);
    Ok(())
}

// While one thread is held, the other claims the two remaining batches, and at the second its first
// poll is counted.
#[test]
fn batches_are_claimed_and_not_dealt_out(rt: HostRuntime) -> Result<(), Fail> {
    let cut = within(&rt, 2, 1);
    for job in 0..3u64 {
        let gate = Held::job(job);
        expect_round(&rt, rt.alloc(), cut, &gate, 3)?;
        assert!(rt; gate.alone() == 0, "job {job}");
        assert!(rt; gate.done() == 1 || gate.done() == 2, "job {job}");
    }
    Ok(())
}

#[test]
fn the_last_job_may_be_polled_first(rt: HostRuntime) -> Result<(), Fail> {
    let gate = LastFirst::of(4);
    expect_round(&rt, rt.alloc(), within(&rt, 4, 1), &gate, 4)?;
    assert!(rt; gate.alone() == 0);
    Ok(())
}

// The held thread is still at the gate long after the other is done.
#[test]
fn a_slow_job_changes_nothing(rt: HostRuntime) -> Result<(), Fail> {
    expect_round(&rt, rt.alloc(), within(&rt, 2, 1), &Slow { job: 1 }, 3)
}

#[test]
fn a_gate_is_passed_before_its_poll_is_counted(rt: HostRuntime) -> Result<(), Fail> {
    let gate = Chained::new();
    let (polled, _) = one_round(&rt, rt.alloc(), within(&rt, 2, 1), &gate, 0, 3)?;
    assert!(rt; (gate.alone(), gate.done()) == (0, 1));
    expect_polled(&rt, &polled, 3);
    Ok(())
}
