//! What a plan represents once it is read.
use super::support::expect_text;
use super::support::plans::PLAN;
use std::alloc::{Alloc, Global};
use std::fmt::Write;
use std::process::Abort;
use std::test::Fail;
use zs_drive::Job;
use zs_run::{Plan, read_plan};

// Appends a job: its name, mode, schedule and start, and the first three entries of its script.
fn push_job(text: &mut String, alloc: Global, job: &Job) -> Result<(), Fail> {
    let (name, mode, start) = (job.name.as_str(), job.mode, job.start);
    let schedule = zs_term::write(alloc, &job.schedule)?;
    write!(text, "{name} {mode:?} {schedule} from {start}:")?;
    for entry in 1..4u64 {
        let beat = job.script.beat(entry);
        write!(text, " {} {:?}", beat.ms, beat.outcome)?;
    }
    Ok(text.push('\n')?)
}

// Appends a plan: its horizon, the ticks at or after 1, 9 and 999, its cut and its jobs.
fn push_plan(text: &mut String, alloc: Global, plan: &Plan) -> Result<(), Fail> {
    let (one, nine, last) = (plan.clock.tick(1), plan.clock.tick(9), plan.clock.tick(999));
    let horizon = plan.clock.horizon();
    write!(text, "horizon {horizon}: {one:?} {nine:?} {last:?}\n")?;
    let (workers, grain) = (plan.cut.workers(), plan.cut.grain());
    write!(text, "{workers} workers, grain {grain}\n")?;
    for job in &plan.jobs {
        push_job(text, alloc, job)?;
    }
    Ok(())
}

// A name, the text of a plan, and what it represents.
type Row<'a> = (&'a str, &'a str, &'a str);

static PLANS: [Row<'static>; 4] = [
    (
        "a_plan_of_one_job_has_its_parts",
        PLAN,
        "horizon 1000: Some(1) Some(9) Some(999)
1 workers, grain 1
a Retry recurs(3) from 0: 5 Bad(7) 5 Good(1) 5 Good(1)
",
    ),
    (
        "every_key_has_its_place",
        r#" { "jobs" : [ { "script" : [ { "ok" : 18446744073709551615, "ms" : 2 } ], "start" : 18446744073709551615, "schedule" : "( exponential(10) && recurs(3) )", "mode" : "repeat", "name" : "nightly-1_b.c" } ], "grain" : 10000, "workers" : 64, "ticks" : [ 0, 8, 999999999999999 ] } "#,
        "horizon 999999999999999: Some(8) Some(999999999999999) Some(999999999999999)
64 workers, grain 10000
nightly-1_b.c Repeat (exponential(10, 2) && recurs(3)) from 18446744073709551615: 2 Good(18446744073709551615) 2 Good(18446744073709551615) 2 Good(18446744073709551615)
",
    ),
    (
        "a_plan_may_have_no_jobs",
        r#"{"jobs":[],"horizon":0}"#,
        "horizon 0: None None None\n1 workers, grain 1\n",
    ),
    (
        "jobs_stand_in_the_order_of_the_plan",
        r#"{"horizon":1,"jobs":[{"name":"b","mode":"retry","schedule":"forever","script":[{"ms":1,"ok":0}]},{"name":"a","mode":"repeat","schedule":"identity","script":[{"ms":1,"ok":0}]},{"name":"B","mode":"retry","schedule":"elapsed","script":[{"ms":1,"ok":0}]}]}"#,
        "horizon 1: Some(1) None None
1 workers, grain 1
b Retry forever from 0: 1 Good(0) 1 Good(0) 1 Good(0)
a Repeat identity from 0: 1 Good(0) 1 Good(0) 1 Good(0)
B Retry elapsed from 0: 1 Good(0) 1 Good(0) 1 Good(0)
",
    ),
];

// Reads a plan from a text.
fn plan_read(alloc: Global, bytes: &str) -> Result<String, Fail> {
    let mut text = String::new(alloc);
    let plan = read_plan(alloc, bytes.as_bytes())?;
    push_plan(&mut text, alloc, &plan)?;
    Ok(text)
}

// Each text is the plan that is listed. A table without rows fails.
fn expect_plans<R: Abort + Alloc<A = Global>>(rt: &R, rows: &[Row<'_>]) -> Result<(), Fail> {
    assert!(rt; !rows.is_empty(), "no rows");
    for (name, bytes, wanted) in rows {
        expect_text(rt, &plan_read(rt.alloc(), bytes)?, wanted, name);
    }
    Ok(())
}

#[test]
fn each_text_is_the_plan_that_is_listed(rt: HostRuntime) -> Result<(), Fail> {
    expect_plans(&rt, &PLANS)
}
