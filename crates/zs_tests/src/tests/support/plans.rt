//! Plans, their reports, and runs over memory.
use std::alloc::{AllocError, Global};
use std::process::Abort;
use std::sync::Wait;
use std::test::Fail;
use std::thread::Threads;
use zs_pool::Gate;
use zs_run::{Marked, PlanFault, read_plan, run};

/// A plan of one job, which fails once and then succeeds: polled at 0, 5 and 10.
pub const PLAN: &str =
    r#"{"horizon":1000,"jobs":[{"name":"a","mode":"retry","schedule":"recurs(3)","script":[{"ms":5,"err":7},{"ms":5,"ok":1}]}]}"#;

/// The report of that plan.
pub const REPORT: &str =
    "job a retry\nattempt 1 0..5 err 7\nstep 1 out 0 next 5\nattempt 2 5..10 ok 1\nend succeeded 1 at 10 polls 3\npolls 3\n";

const JOB: &str =
    r#""mode":"retry","schedule":"recurs(3)","script":[{"ms":5,"err":7},{"ms":5,"ok":1}]}"#;

const BLOCK: &str =
    " retry\nattempt 1 0..5 err 7\nstep 1 out 0 next 5\nattempt 2 5..10 ok 1\nend succeeded 1 at 10 polls 3\n";

/// Makes a plan of such jobs with these names, one letter each.
pub fn plan_of(alloc: Global, names: &str, workers: u64, grain: u64) -> Result<String, AllocError> {
    let mut text = format!(in alloc;
        "{{\"horizon\":1000,\"workers\":{workers},\"grain\":{grain},\"jobs\":["
    )?;
    for name in names.chars() {
        if !text.ends_with('[') {
            text.push(',')?;
        }
        text.push_str("{\"name\":\"")?;
        text.push(name)?;
        text.push_str("\",")?;
        text.push_str(JOB)?;
    }
    text.push_str("]}")?;
    Ok(text)
}

/// Makes the report of that plan.
pub fn report_of(alloc: Global, names: &str, polls: u64) -> Result<String, AllocError> {
    let mut text = String::new(alloc);
    for name in names.chars() {
        text.push_str("job ")?;
        text.push(name)?;
        text.push_str(BLOCK)?;
    }
    let last = format!(in alloc; "polls {polls}\n")?;
    text.push_str(&last)?;
    Ok(text)
}

/// Runs the plan, and returns what is written.
pub fn written<G: Gate, R: Threads + Wait + Sync>(
    rt: &R,
    alloc: Global,
    gate: &G,
    plan: &str,
) -> Result<Vec<u8>, Fail> {
    let mut written: Vec<u8> = Vec::new(alloc);
    let mut reader = Marked::new(plan.as_bytes());
    let mut writer = Marked::new(&mut written);
    run(rt, alloc, gate, &mut reader, &mut writer)?;
    Ok(written)
}

/// A text is a plan, or has this fault.
pub fn expect_fault(rt: &impl Abort, alloc: Global, text: &str, wanted: Option<PlanFault>) {
    let found = match read_plan(alloc, text.as_bytes()) {
        Ok(_plan) => None,
        Err(fault) => Some(fault),
    };
    assert!(rt; found == wanted, "{text}: {found:?}");
}
