//! The lines of a report.
use super::support::expect_text;
use super::support::plans::{PLAN, REPORT};
use super::surface::reported;
use std::alloc::Global;
use std::process::Abort;
use std::sync::Wait;
use std::test::Fail;
use std::thread::Threads;

// A name, a plan, and its report.
type Row<'a> = (&'a str, &'a str, &'a str);

static REPORTS: [Row<'static>; 6] = [
    (
        "no_jobs_are_one_line",
        r#"{"horizon":0,"jobs":[]}"#,
        "polls 0\n",
    ),
    ("a_plan_is_read_run_and_reported", PLAN, REPORT),
    (
        "a_retry_that_gives_up",
        r#"{"horizon":1000,"jobs":[{"name":"a","mode":"retry","schedule":"(recurs(1) && spaced(10))","script":[{"ms":5,"err":7}]}]}"#,
        "job a retry\nattempt 1 0..5 err 7\nstep 1 out (0,0) next 15\nattempt 2 15..20 err 7\nstep 2 out (1,1) done\nend failed 7 at 20 polls 4\npolls 4\n",
    ),
    (
        "a_repeat_that_finishes_with_a_list",
        r#"{"horizon":1000,"jobs":[{"name":"a","mode":"repeat","schedule":"identity.whileInput(< 3).collectAll","script":[{"ms":1,"ok":1},{"ms":1,"ok":2},{"ms":1,"ok":3}]}]}"#,
        "job a repeat\nattempt 1 0..1 ok 1\nstep 1 out [] next 1\nattempt 2 1..2 ok 2\nstep 2 out [1] next 2\nattempt 3 2..3 ok 3\nstep 3 out [1,2] done\nend finished [1,2] at 3 polls 4\npolls 4\n",
    ),
    (
        "a_repeat_that_fails",
        r#"{"horizon":1000,"jobs":[{"name":"a","mode":"repeat","schedule":"recurs(5)","script":[{"ms":2,"ok":1},{"ms":2,"err":4}]}]}"#,
        "job a repeat\nattempt 1 0..2 ok 1\nstep 1 out 0 next 2\nattempt 2 2..4 err 4\nend failed 4 at 4 polls 3\npolls 3\n",
    ),
    (
        "an_attempt_that_runs_at_the_horizon",
        r#"{"horizon":16,"jobs":[{"name":"a","mode":"repeat","schedule":"spaced(10)","script":[{"ms":4,"ok":1}]}]}"#,
        "job a repeat\nattempt 1 0..4 ok 1\nstep 1 out 0 next 14\nattempt 2 14.. running\nend unfinished at 16 polls 3\npolls 3\n",
    ),
];

// The jobs of each plan are reported as listed. A table without rows fails.
fn expect_reports<R: Abort + Threads + Wait + Sync>(
    rt: &R,
    alloc: Global,
    rows: &[Row<'_>],
) -> Result<(), Fail> {
    assert!(rt; !rows.is_empty(), "no rows");
    for (name, plan, lines) in rows {
        let found = reported(rt, alloc, plan.as_bytes())?;
        expect_text(rt, &found, lines, name);
    }
    Ok(())
}

#[test]
fn each_plan_has_the_report_that_is_listed(rt: HostRuntime) -> Result<(), Fail> {
    expect_reports(&rt, rt.alloc(), &REPORTS)
}
