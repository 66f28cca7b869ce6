//! Whole runs over readers and writers that aren't of `std`.
use super::support::expect_each;
use super::support::streams::{Halting, Limited};
use std::alloc::Global;
use std::process::Abort;
use std::sync::Wait;
use std::test::Fail;
use std::thread::Threads;
use zs_pool::OpenGate;
use zs_run::{PlanFault, RunFault, run};

// Jobs that fail, are running at the horizon, finish with a list, never begin, are ended by a
// failure, succeed, and finish with a side.
const JOBS: &str = r#""jobs":[
{"name":"gives-up","mode":"retry","schedule":"(exponential(10) && recurs(2))","script":[{"ms":1,"err":1}]},
{"name":"runs","mode":"retry","schedule":"recurs(3)","start":95,"script":[{"ms":5,"err":7},{"ms":5,"ok":1}]},
{"name":"collects","mode":"repeat","schedule":"identity.whileInput(< 3).collectAll","script":[{"ms":1,"ok":1},{"ms":1,"ok":2},{"ms":1,"ok":3}]},
{"name":"waits","mode":"retry","schedule":"recurs(3)","start":101,"script":[{"ms":5,"err":7}]},
{"name":"fails","mode":"repeat","schedule":"recurs(5)","script":[{"ms":2,"ok":1},{"ms":2,"err":4}]},
{"name":"succeeds","mode":"retry","schedule":"recurs(3)","script":[{"ms":5,"err":7},{"ms":5,"ok":1}]},
{"name":"turns","mode":"repeat","schedule":"(recurs(2) andThenEither recurs(1))","script":[{"ms":1,"ok":5}]}
]}"#;

const REPORT: &str = "job gives-up retry
attempt 1 0..1 err 1
step 1 out (10,0) next 11
attempt 2 11..12 err 1
step 2 out (20,1) next 32
attempt 3 32..33 err 1
step 3 out (40,2) done
end failed 1 at 33 polls 6
job runs retry
attempt 1 95..100 err 7
step 1 out 0 next 100
attempt 2 100.. running
end unfinished at 100 polls 2
job collects repeat
attempt 1 0..1 ok 1
step 1 out [] next 1
attempt 2 1..2 ok 2
step 2 out [1] next 2
attempt 3 2..3 ok 3
step 3 out [1,2] done
end finished [1,2] at 3 polls 4
job waits retry
end unfinished at 100 polls 0
job fails repeat
attempt 1 0..2 ok 1
step 1 out 0 next 2
attempt 2 2..4 err 4
end failed 4 at 4 polls 3
job succeeds retry
attempt 1 0..5 err 7
step 1 out 0 next 5
attempt 2 5..10 ok 1
end succeeded 1 at 10 polls 3
job turns repeat
attempt 1 0..1 ok 5
step 1 out Left(0) next 1
attempt 2 1..2 ok 5
step 2 out Left(1) next 2
attempt 3 2..3 ok 5
step 3 out Right(0) next 3
attempt 4 3..4 ok 5
step 4 out Right(1) done
end finished Right(1) at 4 polls 5
polls 23
";

// Makes a plan of those jobs.
fn plan_of(alloc: Global, workers: u64, grain: u64) -> Result<String, Fail> {
    Ok(format!(in alloc; "{{\"horizon\":100,\"workers\":{workers},\"grain\":{grain},{JOBS}")?)
}

// How a reader and a writer of a run go: the bytes of a read and the bytes before the reader fails,
// the bytes of a write and the room of the writer, and whether it flushes.
type Streams = (usize, usize, usize, usize, bool);

const ALL: usize = usize::MAX;

// A run of the plan ends with this fault or none. The marks agree: a reader's mark for a failed
// read, a writer's for a failed write, and a flush on success. The writer has the front of the
// report, of this length.
fn expect_run<R: Abort + Threads + Wait + Sync>(
    rt: &R,
    alloc: Global,
    plan: &str,
    streams: Streams,
    wanted: Result<(), RunFault>,
    length: usize,
) {
    let mut reader = Halting::of(plan, streams.0, streams.1);
    let mut writer = Limited::of(alloc, streams.2, streams.3, streams.4);
    assert!(rt; !reader.failed && !writer.failed);
    let ended = run(rt, alloc, &OpenGate, &mut reader, &mut writer);
    let facts = [
        ended == wanted,
        reader.failed == (ended == Err(RunFault::Read)),
        writer.failed == matches!(ended, Err(RunFault::Write { .. })),
        writer.flushed == ended.is_ok(),
        writer.taken.len() == length,
        REPORT.as_bytes().starts_with(&writer.taken),
    ];
    expect_each(rt, &facts, length as u64);
}

#[test]
fn every_cut_writes_the_same_bytes(rt: HostRuntime) -> Result<(), Fail> {
    for workers in [1, 2, 7, 64] {
        for grain in [1, 3, 10_000] {
            let plan = plan_of(rt.alloc(), workers, grain)?;
            let streams = (4096, ALL, 4096, ALL, true);
            expect_run(&rt, rt.alloc(), &plan, streams, Ok(()), REPORT.len());
        }
    }
    Ok(())
}

#[test]
fn pieces_of_any_size_make_the_same_bytes(rt: HostRuntime) -> Result<(), Fail> {
    let plan = plan_of(rt.alloc(), 2, 1)?;
    for (read, write) in [(1, 1), (1, 4096), (4096, 1), (3, 7), (100, 64)] {
        let streams = (read, ALL, write, ALL, true);
        expect_run(&rt, rt.alloc(), &plan, streams, Ok(()), REPORT.len());
    }
    Ok(())
}

#[test]
fn a_failed_reader_has_nothing_written(rt: HostRuntime) -> Result<(), Fail> {
    let plan = plan_of(rt.alloc(), 1, 1)?;
    let all = plan.len();
    for (step, left) in [(1, 0), (1, 1), (7, 500), (4096, 500), (1, all), (4096, all)] {
        let streams = (step, left, 4096, ALL, true);
        expect_run(&rt, rt.alloc(), &plan, streams, Err(RunFault::Read), 0);
    }
    Ok(())
}

#[test]
fn a_failed_writer_has_the_first_bytes(rt: HostRuntime) -> Result<(), Fail> {
    let plan = plan_of(rt.alloc(), 1, 1)?;
    let nearly = REPORT.len().saturating_sub(1);
    for (step, room) in [(1, 0), (1, 1), (7, 20), (20, 20), (4096, 500), (1, nearly)] {
        let wanted = Err(RunFault::Write { sent: room as u64 });
        let streams = (4096, ALL, step, room, true);
        expect_run(&rt, rt.alloc(), &plan, streams, wanted, room);
    }
    Ok(())
}

#[test]
fn a_failed_flush_comes_after_all_bytes(rt: HostRuntime) -> Result<(), Fail> {
    let plan = plan_of(rt.alloc(), 1, 1)?;
    let length = REPORT.len();
    let wanted = Err(RunFault::Write {
        sent: length as u64,
    });
    let streams = (4096, ALL, 100, ALL, false);
    expect_run(&rt, rt.alloc(), &plan, streams, wanted, length);
    Ok(())
}

#[test]
fn a_refused_plan_has_nothing_written(rt: HostRuntime) {
    for (text, fault) in [
        ("", PlanFault::Json),
        ("{}", PlanFault::Shape { job: None }),
        (
            r#"{"horizon":1,"jobs":[{}]}"#,
            PlanFault::Shape { job: Some(0) },
        ),
    ] {
        let wanted = Err(RunFault::Plan(fault));
        let streams = (4096, ALL, 4096, ALL, true);
        expect_run(&rt, rt.alloc(), text, streams, wanted, 0);
    }
}
