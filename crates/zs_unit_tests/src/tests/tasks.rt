//! Jobs that are polled by hand, at each millisecond at which they are due, and at other moments.
ghost use Rattle.std.specs.Prelude.{◌≡◌, ◌≤◌, ◌<◌, IfOk};

use super::support::{expect_text, push_record};
use futures::Future;
use futures::task::{Doorbell, Poll, Solo};
use std::alloc::{Alloc, AllocError, Global};
use std::fmt::Write;
use std::process::Abort;
use std::random::RandomSource;
use std::test::Fail;
use zs_drive::{DriveFault, Ending, Job, Mode, Task};
use zs_effect::{Beat, Outcome, Script};
use zs_term::read;

// A task's number, and the mode, schedule, start and entries of its job, which has the name `a`.
type Given<'a> = (u64, Mode, &'a str, u64, &'a [Beat]);

// When a task is polled, and what is said of it.
enum PollPlan<'a> {
    // At each due millisecond up to this horizon: its state in the end.
    Due(u64),
    // At these moments, due or not: the result of each poll.
    Results(&'a [u64]),
    // At these moments, due or not: its records, before and after each poll.
    Records(&'a [u64]),
}

// A name, a task, its polls, and what is said of it.
type Row<'a> = (&'a str, Given<'a>, PollPlan<'a>, &'a str);

// Makes a script.
fn script_of(alloc: Global, beats: &[Beat]) -> Result<Script, Fail> {
    Ok(Script::new(Vec::from_slice(alloc, beats)?)?)
}

// Makes the job of a task.
fn job_of(alloc: Global, given: &Given<'_>) -> Result<Job, Fail> {
    let (_, mode, schedule, start, entries) = given;
    let script = script_of(alloc, entries)?;
    let schedule = read(alloc, schedule)?;
    Ok(Job {
        name: String::from_str(alloc, "a")?,
        mode: *mode,
        schedule,
        start: *start,
        script,
    })
}

// Makes a task.
fn task_of(alloc: Global, given: &Given<'_>) -> Result<Task, Fail>
    ensures seen { IfOk result (λ task. task.seen ≡ 0) }
{
    let job = job_of(alloc, given)?;
    Ok(Task::new(alloc, given.0, job)?)
}

// Polls a task. Callers know nothing about a mock but this contract.
fn poll(solo: &Solo, task: &mut Task) -> Poll<Result<Ending, DriveFault>>
    ensures seen { task.new.seen ≡ task.old.seen }
{
    let mut cx = solo.begin();
    let polled = task.poll(&mut cx);
    let _: Poll<()> = cx.yield_now();
    cx.park();
    polled
}

// Polls a task at each millisecond up to the horizon at which it is due.
fn run(solo: &Solo, task: &mut Task, horizon: u64)
    requires seen { task.old.seen ≡ 0 }
    requires bounded { horizon < 10000 }
{
    for now in 0..horizon + 1 {
        if task.due() == Some(now) {
            task.see(now);
            let _ = poll(solo, task);
        }
    }
}

// Returns when the last attempt began and ended.
fn last_of(task: &Task) -> Option<(u64, Option<u64>)> {
    let attempted = task.records().last()?;
    match &attempted.ended {
        None => Some((attempted.begun, None)),
        Some(ended) => Some((attempted.begun, Some(ended.at))),
    }
}

// Appends the state of a task: its due polls, the moment that it waits for, its ending, and its
// last attempt.
fn push_standing(text: &mut String, task: &Task) -> Result<(), AllocError> {
    let (polls, due, ending, last) = (task.polls(), task.due(), task.ending(), last_of(task));
    write!(
        text,
        "{polls} polls, due {due:?}, ending {ending:?}, last {last:?}"
    )
}

// Appends what is known of a task that wasn't polled: its number, name and mode, and its due
// moment.
fn push_known(text: &mut String, task: &Task) -> Result<(), AllocError> {
    let (number, name, mode) = (task.number(), task.name(), task.mode());
    let (broken, due) = (task.broken(), task.due());
    write!(
        text,
        "{number} {name} {mode:?}, broken {broken}, due {due:?}\n"
    )
}

// Appends the number of due polls, the ending, and the records of a task.
fn push_records(text: &mut String, task: &Task) -> Result<(), AllocError> {
    let (polls, ending) = (task.polls(), task.ending());
    write!(text, "{polls} polls, ending {ending:?}\n")?;
    for record in task.records() {
        push_record(text, record)?;
    }
    Ok(())
}

// Polls a task at this moment, due or not.
fn poll_next<R: Abort>(
    rt: &R,
    solo: &Solo,
    task: &mut Task,
    last: u64,
    now: u64,
) -> Poll<Result<Ending, DriveFault>>
    requires seen { task.old.seen ≡ last }
    ensures seen { task.new.seen ≡ now }
{
    assert!(rt;
        last <= now && now <= 999_999_999_999_999,
        "a moment before an earlier one, or past the last"
    );
    task.see(now);
    poll(solo, task)
}

// Appends the result of a poll, the due polls, and the moment that the task waits for.
fn push_result(
    text: &mut String,
    task: &Task,
    polled: Poll<Result<Ending, DriveFault>>,
) -> Result<(), AllocError> {
    let (polls, due) = (task.polls(), task.due());
    write!(text, "{polled:?}, {polls} polls, due {due:?}\n")
}

// Polls a new task at these moments, due or not. Appends what is known of it before, and the
// result of each poll, or its records before and after each poll.
fn poll_at_each<R: Abort>(
    rt: &R,
    solo: &Solo,
    task: &mut Task,
    moments: &[u64],
    has_records: bool,
    text: &mut String,
) -> Result<(), AllocError>
    requires seen { task.old.seen ≡ 0 }
{
    push_known(text, task)?;
    if has_records {
        push_records(text, task)?;
    }
    let mut last = 0;
    for moment in moments {
        let now = *moment;
        let polled = poll_next(rt, solo, task, last, now);
        last = now;
        if has_records {
            push_records(text, task)?;
        } else {
            push_result(text, task, polled)?;
        }
    }
    Ok(())
}

// Polls a new task as its row says, and appends what is said of it.
fn push_polls<R: Abort>(
    rt: &R,
    solo: &Solo,
    task: &mut Task,
    polls: &PollPlan<'_>,
    text: &mut String,
) -> Result<(), AllocError>
    requires seen { task.old.seen ≡ 0 }
{
    match polls {
        PollPlan::Due(horizon) => {
            assert!(rt; *horizon < 10000);
            run(solo, task, *horizon);
            push_standing(text, task)
        }
        PollPlan::Results(moments) => poll_at_each(rt, solo, task, moments, false, text),
        PollPlan::Records(moments) => poll_at_each(rt, solo, task, moments, true, text),
    }
}

// Makes a task, polls it, and returns what is said of it.
fn described<R: Abort + Alloc<A = Global> + RandomSource>(
    rt: &R,
    given: &Given<'_>,
    polls: &PollPlan<'_>,
) -> Result<String, Fail> {
    let solo = Solo::new(rt, Doorbell::spinning())?;
    let mut task = task_of(rt.alloc(), given)?;
    let mut text = String::new(rt.alloc());
    let polled = push_polls(rt, &solo, &mut task, polls, &mut text);
    drop(task);
    drop(solo);
    polled?;
    Ok(text)
}

// Each task is described as listed. A table without rows fails.
fn expect_tasks<R: Abort + Alloc<A = Global> + RandomSource>(
    rt: &R,
    rows: &[Row<'_>],
) -> Result<(), Fail> {
    assert!(rt; !rows.is_empty(), "no rows");
    for (name, given, polls, wanted) in rows {
        let found = described(rt, given, polls)?;
        expect_text(rt, &found, wanted, name);
    }
    Ok(())
}

// Other runs are plans of tests/plans.
static RUNS: [Row<'static>; 5] = [
    (
        "inputs_are_collected_while_they_pass",
        (
            7,
            Mode::Repeat,
            "identity.whileInput(< 3).collectAll",
            0,
            &[good!(1, 1), good!(1, 2), good!(1, 3)],
        ),
        PollPlan::Due(1000),
        "4 polls, due None, ending Some(Finished), last Some((2, Some(3)))",
    ),
    (
        "a_retry_goes_past_the_last_entry",
        (
            7,
            Mode::Retry,
            "recurs(3)",
            0,
            &[bad!(1, 11), bad!(2, 12), bad!(3, 13)],
        ),
        PollPlan::Due(1000),
        "5 polls, due None, ending Some(Failed(13)), last Some((6, Some(9)))",
    ),
    (
        "an_end_saturates",
        (
            7,
            Mode::Repeat,
            "spaced(0)",
            3,
            &[good!(2, 4), good!(u64::MAX, 9)],
        ),
        PollPlan::Due(20),
        "2 polls, due Some(18446744073709551615), ending None, last Some((5, None))",
    ),
    (
        "a_job_may_make_1002_attempts",
        (7, Mode::Repeat, "forever", 0, &[good!(1, 5)]),
        PollPlan::Due(1001),
        "1002 polls, due Some(1002), ending None, last Some((1001, None))",
    ),
    (
        "a_job_may_wait_for_the_greatest_moment",
        (
            7,
            Mode::Repeat,
            "spaced(18446744073709551615)",
            0,
            &[good!(4, 1)],
        ),
        PollPlan::Due(1000),
        "2 polls, due Some(18446744073709551615), ending None, last Some((0, Some(4)))",
    ),
];

#[test]
fn each_job_ends_as_its_run_says(rt: HostRuntime) -> Result<(), Fail> {
    expect_tasks(&rt, &RUNS)
}

static POLLS: [Row<'static>; 5] = [
    (
        "a_task_is_known_by_its_job_and_polled_by_hand",
        (7, Mode::Retry, "recurs(3)", 0, &[bad!(5, 7), good!(5, 1)]),
        PollPlan::Results(&[0, 5, 10, 10]),
        "7 a Retry, broken false, due Some(0)
Pending, 1 polls, due Some(5)
Pending, 2 polls, due Some(10)
Ready(Ok(Succeeded(1))), 3 polls, due None
Ready(Ok(Succeeded(1))), 3 polls, due None
",
    ),
    (
        "an_early_poll_changes_nothing",
        (7, Mode::Retry, "recurs(3)", 5, &[bad!(5, 7)]),
        PollPlan::Results(&[4]),
        "7 a Retry, broken false, due Some(5)
Pending, 0 polls, due Some(5)
",
    ),
    (
        "an_ended_task_answers_again",
        (7, Mode::Retry, "recurs(3)", 0, &[good!(5, 1)]),
        PollPlan::Results(&[0, 5, 5]),
        "7 a Retry, broken false, due Some(0)
Pending, 1 polls, due Some(5)
Ready(Ok(Succeeded(1))), 2 polls, due None
Ready(Ok(Succeeded(1))), 2 polls, due None
",
    ),
    (
        "a_job_may_begin_at_the_last_moment_of_a_clock",
        (
            7,
            Mode::Retry,
            "recurs(3)",
            999_999_999_999_999,
            &[bad!(5, 7)],
        ),
        PollPlan::Results(&[999_999_999_999_999]),
        "7 a Retry, broken false, due Some(999999999999999)
Pending, 1 polls, due Some(1000000000000004)
",
    ),
    (
        "a_task_may_have_any_number",
        (u64::MAX, Mode::Retry, "recurs(3)", 0, &[bad!(5, 7)]),
        PollPlan::Results(&[]),
        "18446744073709551615 a Retry, broken false, due Some(0)
",
    ),
];

#[test]
fn each_poll_returns_what_is_listed(rt: HostRuntime) -> Result<(), Fail> {
    expect_tasks(&rt, &POLLS)
}

static RECORDS: [Row<'static>; 4] = [
    (
        "an_attempt_is_a_record_while_it_runs_and_after_its_end",
        (
            7,
            Mode::Retry,
            "spaced(10)",
            2,
            &[bad!(5, 7), bad!(3, 8), good!(4, 1)],
        ),
        PollPlan::Records(&[2, 7, 17, 20, 30, 34]),
        "7 a Retry, broken false, due Some(2)
0 polls, ending None
1 polls, ending None
2..
2 polls, ending None
2..7 Bad(7) 0 Next(17)
3 polls, ending None
2..7 Bad(7) 0 Next(17)
17..
4 polls, ending None
2..7 Bad(7) 0 Next(17)
17..20 Bad(8) 1 Next(30)
5 polls, ending None
2..7 Bad(7) 0 Next(17)
17..20 Bad(8) 1 Next(30)
30..
6 polls, ending Some(Succeeded(1))
2..7 Bad(7) 0 Next(17)
17..20 Bad(8) 1 Next(30)
30..34 Good(1)
",
    ),
    (
        "one_poll_ends_an_attempt_and_begins_the_next",
        (7, Mode::Repeat, "recurs(5)", 0, &[good!(2, 1), bad!(3, 4)]),
        PollPlan::Records(&[0, 2, 5]),
        "7 a Repeat, broken false, due Some(0)
0 polls, ending None
1 polls, ending None
0..
2 polls, ending None
0..2 Good(1) 0 Next(2)
2..
3 polls, ending Some(Failed(4))
0..2 Good(1) 0 Next(2)
2..5 Bad(4)
",
    ),
    (
        "the_last_record_has_the_step_that_is_done",
        (7, Mode::Repeat, "recurs(1)", 0, &[good!(3, 9)]),
        PollPlan::Records(&[0, 3, 6]),
        "7 a Repeat, broken false, due Some(0)
0 polls, ending None
1 polls, ending None
0..
2 polls, ending None
0..3 Good(9) 0 Next(3)
3..
3 polls, ending Some(Finished)
0..3 Good(9) 0 Next(3)
3..6 Good(9) 1 Stop
",
    ),
    (
        "an_early_poll_and_one_of_an_ended_task_record_nothing",
        (7, Mode::Retry, "recurs(0)", 1, &[bad!(4, 7)]),
        PollPlan::Records(&[0, 2, 5, 8, 9]),
        "7 a Retry, broken false, due Some(1)
0 polls, ending None
0 polls, ending None
1 polls, ending None
2..
1 polls, ending None
2..
2 polls, ending Some(Failed(7))
2..8 Bad(7) 0 Stop
2 polls, ending Some(Failed(7))
2..8 Bad(7) 0 Stop
",
    ),
];

#[test]
fn each_task_has_the_records_that_are_listed(rt: HostRuntime) -> Result<(), Fail> {
    expect_tasks(&rt, &RECORDS)
}
