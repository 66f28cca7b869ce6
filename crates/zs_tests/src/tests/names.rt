//! Which texts are names of jobs, and which names were used before.
use super::support::plans::expect_fault;
use std::alloc::{Alloc, AllocError, Global};
use std::process::Abort;
use zs_run::PlanFault;

const REST: &str = r#""mode":"retry","schedule":"recurs(0)","script":[{"ms":1,"ok":0}]}"#;

// Appends a job with this name, as JSON spells it, and what follows it.
fn push_job(text: &mut String, name: &str, end: &str) -> Result<(), AllocError> {
    for piece in ["{\"name\":\"", name, "\",", REST, end] {
        text.push_str(piece)?;
    }
    Ok(())
}

// Makes a plan of jobs with these names, and of one more.
fn plan_of_names(alloc: Global, names: &[&str], last: &str) -> Result<String, AllocError> {
    let mut text = String::from_str(alloc, r#"{"horizon":1,"jobs":["#)?;
    for name in names {
        push_job(&mut text, name, ",")?;
    }
    push_job(&mut text, last, "]}")?;
    Ok(text)
}

// The row's name, the names of earlier jobs, names for a job after those, and the fault of each
// such plan.
type Row<'a> = (&'a str, &'a [&'a str], &'a [&'a str], Option<PlanFault>);

const LONGEST: &str = "abcdefghijklmnopqrstuvwxyz-0123456789-ABCDEFGHIJKLMNOPQRSTUVWXYZ";

const LONGER: &str = "abcdefghijklmnopqrstuvwxyz-0123456789-ABCDEFGHIJKLMNOPQRSTUVWXYZ_";

static NAMES: [Row<'static>; 6] = [
    (
        "a_name_has_letters_digits_and_three_marks",
        &[],
        &["a", "Z", "0", "-", "_", ".", "job-1_of.10", "AZaz09"],
        None,
    ),
    (
        "a_name_has_no_other_characters",
        &[],
        &[
            "", " ", "a b", "a/b", "a,b", "@", "[", "`", "{", "/", ":", "\u{e9}", "a\\n",
        ],
        Some(PlanFault::Name { job: 0 }),
    ),
    ("a_name_may_have_64_bytes", &[], &[LONGEST], None),
    (
        "a_name_has_64_bytes_at_most",
        &[],
        &[LONGER],
        Some(PlanFault::Name { job: 0 }),
    ),
    (
        "a_name_is_told_from_those_like_it",
        &["b", "a", "ab"],
        &["c", "A", "aba", "ba"],
        None,
    ),
    (
        "a_name_was_used_before",
        &["b", "a", "ab"],
        &["b", "a", "ab"],
        Some(PlanFault::SameName { job: 3 }),
    ),
];

// A plan in which one of the row's names follows the earlier ones has the row's fault.
fn expect_last<R: Abort + Alloc<A = Global>>(rt: &R, row: &Row<'_>) {
    let (of, others, names, fault) = row;
    assert!(rt; !names.is_empty(), "{of}: no names");
    for name in *names {
        let text = plan_of_names(rt.alloc(), others, name).expect(rt, "memory");
        expect_fault(rt, rt.alloc(), &text, *fault);
    }
}

// The same for each row. A table without rows fails.
fn expect_rows<R: Abort + Alloc<A = Global>>(rt: &R, rows: &[Row<'_>]) {
    assert!(rt; !rows.is_empty(), "no rows");
    for row in rows {
        expect_last(rt, row);
    }
}

#[test]
fn each_name_is_read_or_fails_as_listed(rt: HostRuntime) {
    assert!(rt; LONGEST.len() == 64 && LONGER.len() == 65);
    expect_rows(&rt, &NAMES);
}

// Makes a plan of jobs named by the numbers below `count`, and one more job.
fn numbered_plan(alloc: Global, count: u64, name: &str) -> Result<String, AllocError> {
    let mut text = String::from_str(alloc, r#"{"horizon":1,"jobs":["#)?;
    for number in 0..count {
        push_numbered_job(&mut text, alloc, number)?;
    }
    push_job(&mut text, name, "]}")?;
    Ok(text)
}

fn push_numbered_job(text: &mut String, alloc: Global, number: u64) -> Result<(), AllocError> {
    let name = format!(in alloc; "{number}")?;
    push_job(text, &name, ",")
}

// A plan with this name after those of 9,999 jobs has this fault.
fn expect_among_thousands<R: Abort + Alloc<A = Global>>(
    rt: &R,
    name: &str,
    fault: Option<PlanFault>,
) {
    let text = numbered_plan(rt.alloc(), 9999, name).expect(rt, "memory");
    expect_fault(rt, rt.alloc(), &text, fault);
}

#[test]
fn a_name_is_found_among_thousands(rt: HostRuntime) {
    let fault = Some(PlanFault::SameName { job: 9999 });
    expect_among_thousands(&rt, "9999", None);
    expect_among_thousands(&rt, "0", fault);
    expect_among_thousands(&rt, "9998", fault);
}
