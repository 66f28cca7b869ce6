//! Bytes that are no plan. Each text has a fault and the next one in the order, and the first is
//! reported.
use super::support::plans::expect_fault;
use std::alloc::{AllocError, Global};
use std::process::Abort;
use zs_effect::ScriptFault;
use zs_run::{PlanFault, read_plan};
use zs_term::TermFault;

// Faults of a document, and of its first job.
const SHAPE: PlanFault = PlanFault::Shape { job: None };

const RANGE: PlanFault = PlanFault::Range { job: None };

const KEY: PlanFault = PlanFault::UnknownKey { job: None };

const JOB_SHAPE: PlanFault = PlanFault::Shape { job: Some(0) };

// The fault of the first job's schedule.
macro_rules! schedule {
    ($fault:expr) => {
        PlanFault::Schedule {
            job: 0,
            fault: $fault,
        }
    };
}

// A name, the text before and after each row, and texts with the fault of the whole.
type Group<'a> = (&'a str, &'a str, &'a str, &'a [(&'a str, PlanFault)]);

static FAULTS: [Group<'static>; 6] = [
    (
        "a_document_has_its_first_fault",
        "",
        "",
        &[
            // Neither JSON nor an object with every required key.
            (r#""#, PlanFault::Json),
            (r#"{"jobs":[]"#, PlanFault::Json),
            (r#"{"jobs":[]}}"#, PlanFault::Json),
            // A key is missing, and another is unknown.
            (r#"{"horizon":1,"x":1}"#, SHAPE),
            (r#"{"jobs":[],"x":1}"#, SHAPE),
            (r#"{"horizon":1,"ticks":[1],"jobs":[],"x":1}"#, SHAPE),
            // A key is unknown, and a number is out of range.
            (r#"{"horizon":1,"workers":65,"jobs":[],"x":1}"#, KEY),
            (r#"{"ticks":[],"jobs":[],"start":1}"#, KEY),
            // A number is out of range, and the first job has another shape.
            (r#"{"horizon":1,"workers":65,"jobs":[1]}"#, RANGE),
            (r#"{"ticks":[5,5],"jobs":[1]}"#, RANGE),
        ],
    ),
    (
        "a_document_has_its_shape",
        "",
        "",
        &[
            (r#"[]"#, SHAPE),
            (r#"null"#, SHAPE),
            (r#""plan""#, SHAPE),
            (r#"{}"#, SHAPE),
            (r#"{"horizon":1,"jobs":{}}"#, SHAPE),
            (r#"{"horizon":"1","jobs":[]}"#, SHAPE),
            (r#"{"horizon":1.5,"jobs":[]}"#, SHAPE),
            (r#"{"horizon":1e3,"jobs":[]}"#, SHAPE),
            (r#"{"horizon":-1,"jobs":[]}"#, SHAPE),
            (r#"{"horizon":18446744073709551616,"jobs":[]}"#, SHAPE),
            (r#"{"horizon":null,"jobs":[]}"#, SHAPE),
            (r#"{"ticks":5,"jobs":[]}"#, SHAPE),
            (r#"{"ticks":[1,2.5],"jobs":[]}"#, SHAPE),
            (r#"{"horizon":1,"workers":"2","jobs":[]}"#, SHAPE),
            (r#"{"horizon":1,"grain":0.5,"jobs":[]}"#, SHAPE),
        ],
    ),
    (
        "a_document_is_in_range",
        "",
        "",
        &[
            (r#"{"horizon":1000000000000000,"jobs":[]}"#, RANGE),
            (r#"{"horizon":1,"workers":0,"jobs":[]}"#, RANGE),
            (r#"{"horizon":1,"workers":65,"jobs":[]}"#, RANGE),
            (r#"{"horizon":1,"grain":0,"jobs":[]}"#, RANGE),
            (r#"{"horizon":1,"grain":10001,"jobs":[]}"#, RANGE),
            (r#"{"ticks":[],"jobs":[]}"#, RANGE),
            (r#"{"ticks":[5,4],"jobs":[]}"#, RANGE),
            (r#"{"ticks":[1000000000000000],"jobs":[]}"#, RANGE),
        ],
    ),
    (
        "a_job_has_its_first_fault",
        r#"{"horizon":1000,"jobs":["#,
        "]}",
        &[
            // Something is missing, and a key is unknown.
            (
                r#"{"mode":"retry","schedule":"forever","script":[],"x":1}"#,
                JOB_SHAPE,
            ),
            // A key is unknown, and the mode is invalid.
            (
                r#"{"name":"a","mode":"loop","schedule":"forever","script":[],"x":1}"#,
                PlanFault::UnknownKey { job: Some(0) },
            ),
            (
                r#"{"name":"a","mode":"loop","schedule":"forever","script":[{"ms":1,"ok":1,"x":1}]}"#,
                PlanFault::UnknownKey { job: Some(0) },
            ),
            // The mode is invalid, and so is the name.
            (
                r#"{"name":"","mode":"loop","schedule":"forever","script":[]}"#,
                PlanFault::Range { job: Some(0) },
            ),
            // The name is invalid, and so is the schedule.
            (
                r#"{"name":"","mode":"retry","schedule":"recurs(1).map(_1)","script":[]}"#,
                PlanFault::Name { job: 0 },
            ),
            // The schedule is invalid, and so is the script.
            (
                r#"{"name":"a","mode":"retry","schedule":"recurs(1).map(_1)","script":[]}"#,
                schedule!(TermFault::NoKind),
            ),
            // The script is invalid, and the next job has another shape.
            (
                r#"{"name":"a","mode":"retry","schedule":"forever","script":[]},1"#,
                PlanFault::Script {
                    job: 0,
                    fault: ScriptFault::Empty,
                },
            ),
        ],
    ),
    (
        "a_later_job_has_its_first_fault",
        r#"{"horizon":1000,"jobs":[{"name":"a","mode":"retry","schedule":"forever","script":[{"ms":1,"ok":1}]},"#,
        "]}",
        &[
            (r#"{"name":"b"}"#, PlanFault::Shape { job: Some(1) }),
            // A mode is invalid, and an earlier job has the name.
            (
                r#"{"name":"a","mode":"Retry","schedule":"forever","script":[]}"#,
                PlanFault::Range { job: Some(1) },
            ),
            // An earlier job has the name, and the schedule is invalid.
            (
                r#"{"name":"a","mode":"retry","schedule":"","script":[]}"#,
                PlanFault::SameName { job: 1 },
            ),
            (
                r#"{"name":"b","mode":"retry","schedule":"","script":[]}"#,
                PlanFault::Schedule {
                    job: 1,
                    fault: TermFault::NoTerm { at: 0 },
                },
            ),
            (
                r#"{"name":"b","mode":"retry","schedule":"forever","script":[{"ms":1,"ok":1},{"ms":0,"ok":1}]}"#,
                PlanFault::Script {
                    job: 1,
                    fault: ScriptFault::ZeroMs,
                },
            ),
        ],
    ),
    (
        "each_fault_of_a_schedule_is_told",
        r#"{"horizon":1,"jobs":[{"name":"a","mode":"retry","schedule":""#,
        r#"","script":[]}]}"#,
        &[
            ("recurs(01)", schedule!(TermFault::NoTerm { at: 7 })),
            (
                "forever.resetWhen(= 0).resetWhen(= 0).resetWhen(= 0).resetWhen(= 0).resetWhen(= 0).resetWhen(= 0).resetWhen(= 0).resetWhen(= 0).resetWhen(= 0)",
                schedule!(TermFault::TooBig),
            ),
            (
                "recurs(18446744073709551616)",
                schedule!(TermFault::BadNumber { at: 7 }),
            ),
            ("exponential(1, 0)", schedule!(TermFault::BadFactor)),
            ("recurs(1).map(_1)", schedule!(TermFault::NoKind)),
            ("windowed(0)", schedule!(TermFault::BadWindow)),
        ],
    ),
];

// Each text has the fault that is listed. A table without rows fails.
fn expect_faults(rt: &impl Abort, alloc: Global, group: &Group<'_>) {
    let (name, before, after, rows) = group;
    assert!(rt; !rows.is_empty(), "{name}: no rows");
    for (text, fault) in *rows {
        let text = format!(in alloc; "{before}{text}{after}").expect(rt, "memory");
        expect_fault(rt, alloc, &text, Some(*fault));
    }
}

// The same for each group.
fn expect_groups(rt: &impl Abort, alloc: Global, groups: &[Group<'_>]) {
    assert!(rt; !groups.is_empty(), "no groups");
    for group in groups {
        expect_faults(rt, alloc, group);
    }
}

#[test]
fn each_text_has_the_fault_that_is_listed(rt: HostRuntime) {
    expect_groups(&rt, rt.alloc(), &FAULTS);
}

static SHAPES: [&'static str; 17] = [
    r#"1"#,
    r#"null"#,
    r#"[]"#,
    r#"{"name":"a","schedule":"forever","script":[]}"#,
    r#"{"name":"a","mode":"retry","script":[]}"#,
    r#"{"name":"a","mode":"retry","schedule":"forever"}"#,
    r#"{"name":1,"mode":"retry","schedule":"forever","script":[]}"#,
    r#"{"name":"a","mode":null,"schedule":"forever","script":[]}"#,
    r#"{"name":"a","mode":"retry","schedule":[],"script":[]}"#,
    r#"{"name":"a","mode":"retry","schedule":"forever","script":{}}"#,
    r#"{"name":"a","mode":"retry","schedule":"forever","start":-1,"script":[]}"#,
    r#"{"name":"a","mode":"retry","schedule":"forever","script":[5]}"#,
    r#"{"name":"a","mode":"retry","schedule":"forever","script":[{"ok":1}]}"#,
    r#"{"name":"a","mode":"retry","schedule":"forever","script":[{"ms":1}]}"#,
    r#"{"name":"a","mode":"retry","schedule":"forever","script":[{"ms":1,"ok":1,"err":1}]}"#,
    r#"{"name":"a","mode":"retry","schedule":"forever","script":[{"ms":1.5,"ok":1}]}"#,
    r#"{"name":"a","mode":"retry","schedule":"forever","script":[{"ms":1,"err":"no"}]}"#,
];

#[test]
fn a_job_has_its_shape(rt: HostRuntime) {
    for job in &SHAPES {
        let text = format!(in rt.alloc(); "{{\"horizon\":1000,\"jobs\":[{job}]}}");
        let text = text.expect(&rt, "memory");
        expect_fault(&rt, rt.alloc(), &text, Some(JOB_SHAPE));
    }
}

#[test]
fn length_is_looked_at_before_json(rt: HostRuntime) {
    let most = " ".repeat(rt.alloc(), 16_777_216).expect(&rt, "memory");
    expect_fault(&rt, rt.alloc(), &most, Some(PlanFault::Json));
    let more = " ".repeat(rt.alloc(), 16_777_217).expect(&rt, "memory");
    expect_fault(&rt, rt.alloc(), &more, Some(PlanFault::TooLong));
}

#[test]
fn bytes_that_are_no_text_are_not_json(rt: HostRuntime) {
    let bytes = [b'"', 255u8, b'"'];
    let plan = read_plan(rt.alloc(), &bytes);
    assert!(rt; matches!(&plan, Err(PlanFault::Json)));
}

// Makes a list of jobs, each of which is 0.
fn plan_of_zeros(alloc: Global, count: usize) -> Result<String, AllocError> {
    let zeros = ",0".repeat(alloc, count.saturating_sub(1))?;
    format!(in alloc; "{{\"horizon\":1,\"jobs\":[0{zeros}]}}")
}

#[test]
fn a_plan_has_ten_thousand_jobs_at_most(rt: HostRuntime) {
    let most = plan_of_zeros(rt.alloc(), 10_000).expect(&rt, "memory");
    expect_fault(&rt, rt.alloc(), &most, Some(JOB_SHAPE));
    let more = plan_of_zeros(rt.alloc(), 10_001).expect(&rt, "memory");
    expect_fault(&rt, rt.alloc(), &more, Some(RANGE));
}

// Makes a plan of one job with this number of entries, each of 0 ms.
fn plan_of_entries(alloc: Global, count: usize) -> Result<String, AllocError> {
    let more = r#",{"ms":0,"ok":1}"#.repeat(alloc, count.saturating_sub(1))?;
    let first = r#"{"ms":0,"ok":1}"#;
    format!(in alloc;
        "{{\"horizon\":1,\"jobs\":[{{\"name\":\"a\",\"mode\":\"retry\",\"schedule\":\"forever\",\"script\":[{first}{more}]}}]}}"
    )
}

#[test]
fn a_script_is_counted_before_its_entries_are_looked_at(rt: HostRuntime) {
    for (count, fault) in [(1000, ScriptFault::ZeroMs), (1001, ScriptFault::TooLong)] {
        let text = plan_of_entries(rt.alloc(), count).expect(&rt, "memory");
        let wanted = PlanFault::Script { job: 0, fault };
        expect_fault(&rt, rt.alloc(), &text, Some(wanted));
    }
}
