//! Whole runs: the attempts of each job, its ending, and the polls in all.
use super::gates::{Crowd, Meeting, OneByOne, Record};
use super::support::expect_text;
use super::support::jobs::{Listed, TWICE, jobs_of, retried};
use std::alloc::{AllocError, Global};
use std::fmt::Write;
use std::process::Abort;
use std::sync::Wait;
use std::test::Fail;
use std::thread::Threads;
use zs_agenda::{AgendaFault, Clock};
use zs_drive::{Attempted, DriveFault, Job, Mode, Task};
use zs_effect::{Beat, Outcome};
use zs_engine::{Answer, EngineFault, run_jobs};
use zs_pool::{Cut, Gate, OpenGate};
use zs_step::Decision;

// Workers and grains, from one worker and batches of one task to more of both than there are jobs.
const CUTS: [(u64, u64); 12] = [
    (1, 1),
    (1, 3),
    (1, 10_000),
    (2, 1),
    (2, 3),
    (2, 10_000),
    (7, 1),
    (7, 3),
    (7, 10_000),
    (64, 1),
    (64, 3),
    (64, 10_000),
];

// The ticks of a run: each millisecond up to a horizon, or a list.
#[derive(Clone, Copy)]
enum Ticks<'a> {
    Every(u64),
    List(&'a [u64]),
}

// Appends when an attempt began and ended, and the moment at which the schedule continues.
fn push_attempt(text: &mut String, attempted: &Attempted) -> Result<(), AllocError> {
    let begun = attempted.begun;
    let Some(ended) = &attempted.ended else {
        return write!(text, "{begun}.. running, ");
    };
    let at = ended.at;
    match &ended.step {
        Some((_, Decision::Next(next))) => write!(text, "{begun}..{at} next {next}, "),
        Some((_, Decision::Stop)) | None => write!(text, "{begun}..{at} last, "),
    }
}

// Appends what became of a job: its attempts, its ending, and its due polls.
fn push_fate(text: &mut String, task: &Task) -> Result<(), AllocError> {
    let (number, name) = (task.number(), task.name());
    write!(text, "{number} {name}: ")?;
    for attempted in task.records() {
        push_attempt(text, attempted)?;
    }
    let (ending, polls) = (task.ending(), task.polls());
    write!(text, "{ending:?}, {polls} polls\n")
}

// Appends what became of all jobs, and the polls in all.
fn push_answer(text: &mut String, answer: &Answer) -> Result<(), AllocError> {
    for task in &answer.tasks {
        push_fate(text, task)?;
    }
    let (horizon, polls) = (answer.horizon, answer.polls);
    write!(text, "horizon {horizon}, {polls} polls\n")
}

fn clock_of(rt: &impl Abort, alloc: Global, ticks: Ticks<'_>) -> Result<Clock, AllocError> {
    match ticks {
        Ticks::Every(horizon) => Ok(Clock::every_ms(horizon).expect(rt, "within the limit")),
        Ticks::List(ticks) => {
            let ticks = Vec::from_slice(alloc, ticks)?;
            Ok(Clock::of_ticks(ticks).expect(rt, "a rising list"))
        }
    }
}

// Runs jobs with this cut, under the gate.
fn ran<G: Gate, R: Abort + Threads + Wait + Sync>(
    rt: &R,
    alloc: Global,
    cut: (u64, u64),
    gate: &G,
    ticks: Ticks<'_>,
    jobs: Vec<Job>,
) -> Result<Answer, Fail> {
    assert!(rt; jobs.len() <= 10_000);
    let cut = Cut::new(cut.0, cut.1).expect(rt, "within the limits");
    let clock = clock_of(rt, alloc, ticks)?;
    Ok(run_jobs(rt, alloc, cut, gate, clock, jobs)?)
}

// Runs jobs with this cut, and describes the result.
fn told<R: Abort + Threads + Wait + Sync>(
    rt: &R,
    alloc: Global,
    cut: (u64, u64),
    ticks: Ticks<'_>,
    jobs: Vec<Job>,
) -> Result<String, Fail> {
    let mut text = String::new(alloc);
    let answer = ran(rt, alloc, cut, &OpenGate, ticks, jobs)?;
    push_answer(&mut text, &answer)?;
    Ok(text)
}

// The jobs take this number of polls with this cut, under the gate.
fn expect_polls<G: Gate, R: Abort + Threads + Wait + Sync>(
    rt: &R,
    alloc: Global,
    cut: (u64, u64),
    gate: &G,
    ticks: Ticks<'_>,
    jobs: Vec<Job>,
    polls: u64,
) -> Result<(), Fail> {
    let found = ran(rt, alloc, cut, gate, ticks, jobs)?.polls;
    assert!(rt; found == polls, "{found}");
    Ok(())
}

// The jobs have this result under each of these cuts.
fn expect<R: Abort + Threads + Wait + Sync>(
    rt: &R,
    alloc: Global,
    of: &str,
    cuts: &[(u64, u64)],
    ticks: Ticks<'_>,
    jobs: &[Listed<'_>],
    wanted: &str,
) -> Result<(), Fail> {
    for cut in cuts {
        let found = told(rt, alloc, *cut, ticks, jobs_of(alloc, jobs)?)?;
        expect_text(rt, &found, wanted, of);
    }
    Ok(())
}

// A retry that succeeds, one that fails, a repeat that finishes, one that is running at the
// horizon, and one that never begins.
const FIVE: [Listed<'static>; 5] = [
    ("succeeds", Mode::Retry, "recurs(3)", 0, &TWICE),
    (
        "fails",
        Mode::Retry,
        "recurs(0)",
        1,
        &[Beat {
            ms: 1,
            outcome: Outcome::Bad(4),
        }],
    ),
    (
        "finishes",
        Mode::Repeat,
        "recurs(1)",
        0,
        &[Beat {
            ms: 4,
            outcome: Outcome::Good(9),
        }],
    ),
    (
        "runs",
        Mode::Repeat,
        "spaced(10)",
        20,
        &[Beat {
            ms: 7,
            outcome: Outcome::Good(1),
        }],
    ),
    ("waits", Mode::Retry, "recurs(3)", 41, &TWICE),
];

// A name, the cuts, the ticks, the jobs, and the result under each cut. Other runs are plans of
// tests/plans.
type Run<'a> = (
    &'a str,
    &'a [(u64, u64)],
    Ticks<'a>,
    &'a [Listed<'a>],
    &'a str,
);

static RUNS: [Run<'static>; 4] = [
    (
        "jobs_end_run_and_never_begin_side_by_side",
        &CUTS,
        Ticks::Every(40),
        &FIVE,
        "0 succeeds: 0..5 next 5, 5..10 last, Some(Succeeded(1)), 3 polls
1 fails: 1..2 last, Some(Failed(4)), 2 polls
2 finishes: 0..4 next 4, 4..8 last, Some(Finished), 3 polls
3 runs: 20..27 next 37, 37.. running, None, 3 polls
4 waits: None, 0 polls
horizon 40, 11 polls
",
    ),
    (
        "attempts_wait_for_listed_ticks_under_each_cut",
        &CUTS,
        Ticks::List(&[0, 8, 20, 40]),
        &FIVE,
        "0 succeeds: 0..8 next 8, 8..20 last, Some(Succeeded(1)), 3 polls
1 fails: 8..20 last, Some(Failed(4)), 2 polls
2 finishes: 0..8 next 8, 8..20 last, Some(Finished), 3 polls
3 runs: 20..40 next 50, None, 2 polls
4 waits: None, 0 polls
horizon 40, 10 polls
",
    ),
    (
        "an_attempt_that_begins_at_the_last_tick_runs",
        &[(1, 1)],
        Ticks::List(&[3, 10]),
        &[("a", Mode::Retry, "recurs(3)", 0, &TWICE)],
        "0 a: 3..10 next 10, 10.. running, None, 2 polls\nhorizon 10, 2 polls\n",
    ),
    (
        "a_moment_between_ticks_waits_for_the_next",
        &[(1, 1)],
        Ticks::List(&[0, 5, 16, 30]),
        &[(
            "a",
            Mode::Repeat,
            "spaced(10)",
            0,
            &[Beat {
                ms: 4,
                outcome: Outcome::Good(1),
            }],
        )],
        "0 a: 0..5 next 15, 16..30 next 40, None, 4 polls\nhorizon 30, 4 polls\n",
    ),
];

// Each run has the listed result under each of its cuts. A table without rows or cuts fails.
fn expect_runs<R: Abort + Threads + Wait + Sync>(
    rt: &R,
    alloc: Global,
    rows: &[Run<'_>],
) -> Result<(), Fail> {
    assert!(rt; !rows.is_empty(), "no rows");
    for (name, cuts, ticks, jobs, wanted) in rows {
        assert!(rt; !cuts.is_empty(), "{name}: no cuts");
        expect(rt, alloc, name, cuts, *ticks, jobs, wanted)?;
    }
    Ok(())
}

#[test]
fn each_run_has_the_listed_result(rt: HostRuntime) -> Result<(), Fail> {
    expect_runs(&rt, rt.alloc(), &RUNS)
}

// This number of equal jobs has this result under each of these cuts: a line for each job after
// its number, and the last line.
fn expect_equal<R: Abort + Threads + Wait + Sync>(
    rt: &R,
    alloc: Global,
    cuts: &[(u64, u64)],
    ticks: Ticks<'_>,
    job: Listed<'_>,
    count: u64,
    lines: (&str, &str),
) -> Result<(), Fail> {
    let jobs = Vec::from_elem(alloc, job, count as usize)?;
    let mut wanted = String::new(alloc);
    for number in 0..count {
        write!(wanted, "{number} {}", lines.0)?;
    }
    wanted.push_str(lines.1)?;
    expect(rt, alloc, job.0, cuts, ticks, &jobs, &wanted)
}

// One attempt of 1 ms, and one of 5 ms.
const SHORT: &[Beat] = &[Beat {
    ms: 1,
    outcome: Outcome::Good(0),
}];

const LONG: &[Beat] = &[Beat {
    ms: 5,
    outcome: Outcome::Good(0),
}];

// The greatest number of jobs of a run, each with one attempt of 1 ms.
#[test]
fn ten_thousand_jobs_in_batches_of_one_of_seven_and_of_all(rt: HostRuntime) -> Result<(), Fail> {
    let job = ("j", Mode::Repeat, "recurs(0)", 0, SHORT);
    let cuts = [(64, 1), (3, 7), (64, 10_000)];
    let lines = (
        "j: 0..1 last, Some(Finished), 2 polls\n",
        "horizon 1, 20000 polls\n",
    );
    expect_equal(&rt, rt.alloc(), &cuts, Ticks::Every(1), job, 10_000, lines)
}

// Makes a schedule of 2^(doublings + 1) - 1 nodes.
fn heavy(alloc: Global, doublings: u64) -> Result<String, AllocError> {
    let mut schedule = String::from_str(alloc, "recurs(0)")?;
    for _ in 0..doublings {
        schedule = "(# && #)".replace(alloc, '#', &schedule)?;
    }
    Ok(schedule)
}

// Two hundred jobs whose schedules have 511 nodes have the same result on one thread and on
// several.
#[test]
fn jobs_of_511_nodes_come_to_the_same_under_each_cut(rt: HostRuntime) -> Result<(), Fail> {
    let schedule = heavy(rt.alloc(), 8)?;
    let job = ("j", Mode::Repeat, schedule.as_str(), 0, LONG);
    let cuts = [(1, 1), (2, 3), (64, 1)];
    let lines = (
        "j: 0..5 last, Some(Finished), 2 polls\n",
        "horizon 5, 400 polls\n",
    );
    expect_equal(&rt, rt.alloc(), &cuts, Ticks::Every(5), job, 200, lines)
}

// A job of one node between two of 127 has the same result under each cut.
#[test]
fn jobs_of_one_node_and_of_127_come_to_the_same(rt: HostRuntime) -> Result<(), Fail> {
    let schedule = heavy(rt.alloc(), 6)?;
    let large = ("j", Mode::Repeat, schedule.as_str(), 0, LONG);
    let small = ("j", Mode::Repeat, "recurs(0)", 0, LONG);
    let wanted =
        "0 j: 0..5 last, Some(Finished), 2 polls\n1 j: 0..5 last, Some(Finished), 2 polls\n2 j: 0..5 last, Some(Finished), 2 polls\nhorizon 5, 6 polls\n";
    let jobs = [large, small, large];
    expect(&rt, rt.alloc(), "j", &CUTS, Ticks::Every(5), &jobs, wanted)
}

#[test]
fn a_fault_below_is_a_fault_of_the_run(rt: HostRuntime) {
    let memory = EngineFault::Memory;
    assert!(rt; EngineFault::from(AllocError) == memory);
    assert!(rt; EngineFault::from(AgendaFault::Memory) == memory);
    assert!(rt; EngineFault::from(DriveFault::Memory) == memory);
}

// This number of jobs with one attempt of 5 ms take two polls each with the cut, under the gate.
fn expect_light<G: Gate, R: Abort + Threads + Wait + Sync>(
    rt: &R,
    alloc: Global,
    cut: (u64, u64),
    gate: &G,
    count: u64,
) -> Result<(), Fail> {
    let job = ("j", Mode::Repeat, "recurs(0)", 0, LONG);
    let jobs = jobs_of(alloc, &Vec::from_elem(alloc, job, count as usize)?)?;
    let polls = count.wrapping_mul(2);
    expect_polls(rt, alloc, cut, gate, Ticks::Every(5), jobs, polls)
}

// Two threads meet at both moments of this number of such jobs.
fn expect_meeting<R: Abort + Threads + Wait + Sync>(
    rt: &R,
    alloc: Global,
    cut: (u64, u64),
    count: u64,
) -> Result<(), Fail> {
    let gate = Meeting::of(2);
    expect_light(rt, alloc, cut, &gate, count)?;
    assert!(rt; gate.alone() == 0, "{count} jobs");
    Ok(())
}

#[test]
fn two_threads_meet_in_a_run_of_ten_thousand_jobs(rt: HostRuntime) -> Result<(), Fail> {
    expect_meeting(&rt, rt.alloc(), (2, 1), 10_000)
}

// Two batches of jobs are due at each moment, of one job each or of three and one.
#[test]
fn two_threads_meet_where_two_batches_are_due(rt: HostRuntime) -> Result<(), Fail> {
    for (cut, jobs) in [((2, 1), 2u64), ((64, 1), 2), ((2, 3), 4), ((64, 3), 4)] {
        expect_meeting(&rt, rt.alloc(), cut, jobs)?;
    }
    Ok(())
}

// The number of threads that poll at once is the number of workers, or of batches if that is less.
// The calling thread is one of them.
#[test]
fn a_moment_has_as_many_threads_as_workers_or_batches(rt: HostRuntime) -> Result<(), Fail> {
    for (cut, jobs, threads) in [
        ((1, 1), 10u64, 1u64),
        ((64, 10), 10, 1),
        ((64, 9), 10, 2),
        ((7, 3), 10, 4),
        ((3, 3), 10, 3),
        ((2, 1), 10, 2),
        ((64, 1), 10, 10),
    ] {
        let gate = Crowd::of(threads);
        expect_light(&rt, rt.alloc(), cut, &gate, jobs)?;
        assert!(rt; (gate.alone(), gate.most()) == (0, threads), "{threads}");
    }
    Ok(())
}

// With one worker, or one batch, the calling thread polls the due jobs of a moment in order, and
// then those of the next.
#[test]
fn one_thread_polls_the_jobs_of_a_moment_in_order(rt: HostRuntime) -> Result<(), Fail> {
    for cut in [(1, 1), (1, 3), (64, 80), (64, 10_000)] {
        let gate = OneByOne::of(80);
        expect_light(&rt, rt.alloc(), cut, &gate, 80)?;
        assert!(rt; (gate.passes(), gate.wrong()) == (160, 0));
    }
    Ok(())
}

// The jobs take this number of polls with this cut, each recorded, and the moments never fall.
fn expect_recorded<R: Abort + Threads + Wait + Sync>(
    rt: &R,
    alloc: Global,
    cut: (u64, u64),
    gate: &Record,
    jobs: Vec<Job>,
    polls: u64,
) -> Result<(), Fail> {
    expect_polls(rt, alloc, cut, gate, Ticks::Every(1000), jobs, polls)?;
    let found = (gate.passes(), gate.wrong());
    assert!(rt; found == (polls, 0), "{cut:?}");
    Ok(())
}

// Jobs that begin at 0 and 3, each polled at its begin, 5 ms later and 10 ms later, by one thread.
#[test]
fn a_moment_is_over_before_the_next(rt: HostRuntime) -> Result<(), Fail> {
    let alloc = rt.alloc();
    let rows = [retried("a", 0), retried("b", 3), retried("c", 0)];
    let gate = Record::of(alloc, 9)?;
    expect_recorded(&rt, alloc, (1, 1), &gate, jobs_of(alloc, &rows)?, 9)?;
    let wanted = [
        (0, 0, 0),
        (2, 0, 1),
        (1, 3, 2),
        (0, 5, 3),
        (2, 5, 4),
        (1, 8, 5),
        (0, 10, 6),
        (2, 10, 7),
        (1, 13, 8),
    ];
    assert!(rt; gate.told(alloc)?.as_slice() == wanted.as_slice());
    Ok(())
}

// A hundred jobs that begin at each of ten moments, under each cut.
#[test]
fn the_moments_of_a_run_of_jobs_never_fall(rt: HostRuntime) -> Result<(), Fail> {
    let alloc = rt.alloc();
    let mut rows = Vec::new(alloc);
    for place in 0..100u64 {
        rows.push(retried("j", place % 10))?;
    }
    for cut in CUTS {
        let gate = Record::of(alloc, 300)?;
        expect_recorded(&rt, alloc, cut, &gate, jobs_of(alloc, &rows)?, 300)?;
    }
    Ok(())
}
