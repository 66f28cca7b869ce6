//! Readers and writers of `std` that fail, transfer few bytes at a time, or never end.
use super::support::expect_each;
use super::support::plans::{PLAN, REPORT};
use super::support::streams::{CallCounter, Halting, KINDS, Limited, Spaces, Stumbling};
use std::alloc::{Alloc, Global};
use std::io;
use std::io::Read;
use std::process::Abort;
use std::sync::Wait;
use std::thread::Threads;
use zs_pool::OpenGate;
use zs_run::{Drain, Marked, PlanFault, RunFault, Source, run};

// A run on what the reader gives ends with this fault, and writes nothing. Returns the reader.
fn expect_refusal<S: Read + Drop, R: Abort + Threads + Wait + Sync>(
    rt: &R,
    alloc: Global,
    reader: S,
    wanted: RunFault,
    at: u64,
) {
    let mut reader = Marked::new(reader);
    let mut written: Vec<u8> = Vec::new(alloc);
    let mut writer = Marked::new(&mut written);
    let ended = run(rt, alloc, &OpenGate, &mut reader, &mut writer);
    let facts = [
        ended == Err(wanted),
        Source::failed(&reader) == (wanted == RunFault::Read),
        written.is_empty(),
    ];
    expect_each(rt, &facts, at);
}

#[test]
fn a_reader_fails_after_each_number_of_bytes(rt: HostRuntime) {
    for left in 0..121usize {
        let reader = Halting::of(PLAN, 1, left);
        expect_refusal(&rt, rt.alloc(), reader, RunFault::Read, left as u64);
    }
}

#[test]
fn an_interrupted_read_is_a_failed_read(rt: HostRuntime) {
    let mut reader = Halting::of(PLAN, 50, 60);
    reader.error = io::ErrorKind::Interrupted;
    expect_refusal(&rt, rt.alloc(), reader, RunFault::Read, 60);
}

// After this number of good reads one fails with an error of this kind, and no other follows.
fn expect_last_read<R: Abort + Threads + Wait + Sync>(
    rt: &R,
    alloc: Global,
    kind: io::ErrorKind,
    before: u64,
) {
    let mut reader = Stumbling::of(Halting::of(PLAN, 50, 1000), kind, before);
    expect_refusal(rt, alloc, &mut reader, RunFault::Read, before);
    assert!(rt; reader.after == 0);
}

// The plan comes in three pieces, and the fourth call finds the end.
#[test]
fn a_failed_read_is_not_tried_again(rt: HostRuntime) {
    for kind in KINDS {
        for before in 0..4u64 {
            expect_last_read(&rt, rt.alloc(), kind, before);
        }
    }
}

#[test]
fn a_cut_plan_is_not_json(rt: HostRuntime) {
    let bytes = PLAN.as_bytes();
    for end in 0..120usize {
        let reader = &bytes[..end.min(bytes.len())];
        let wanted = RunFault::Plan(PlanFault::Json);
        expect_refusal(&rt, rt.alloc(), reader, wanted, end as u64);
    }
}

#[test]
fn reading_stops_just_past_the_greatest_length(rt: HostRuntime) {
    let mut spaces = Spaces { given: 0 };
    let wanted = RunFault::Plan(PlanFault::TooLong);
    expect_refusal(&rt, rt.alloc(), &mut spaces, wanted, 0);
    assert!(rt; spaces.given == 16_777_217);
}

// A run that reads pieces of `step` bytes, and writes to a writer of this step and room, which may
// fail to flush, ends like this, and has written the front of the report, of this length.
fn expect_written<R: Abort + Threads + Wait + Sync>(
    rt: &R,
    alloc: Global,
    step: usize,
    writes: (usize, usize, bool),
    wanted: Result<(), RunFault>,
    length: usize,
) {
    let mut inner = Limited::of(alloc, writes.0, writes.1, writes.2);
    let mut reader = Marked::new(Halting::of(PLAN, step, 1000));
    let mut writer = Marked::new(&mut inner);
    let ended = run(rt, alloc, &OpenGate, &mut reader, &mut writer);
    let facts = [
        ended == wanted,
        Drain::failed(&writer) == ended.is_err(),
        inner.flushed == ended.is_ok(),
        inner.taken.len() == length,
        REPORT.as_bytes().starts_with(&inner.taken),
    ];
    expect_each(rt, &facts, length as u64);
}

#[test]
fn a_writer_fails_after_each_number_of_bytes(rt: HostRuntime) {
    for room in 0..112usize {
        let wanted = Err(RunFault::Write { sent: room as u64 });
        expect_written(&rt, rt.alloc(), 1000, (7, room, true), wanted, room);
    }
}

#[test]
fn a_flush_fails(rt: HostRuntime) {
    let wanted = Err(RunFault::Write { sent: 112 });
    expect_written(&rt, rt.alloc(), 1000, (200, 200, false), wanted, 112);
}

// After this number of good calls one fails with an error of this kind. Then this number of bytes
// was written, and no other call follows.
fn expect_last_write<R: Abort + Threads + Wait + Sync>(
    rt: &R,
    alloc: Global,
    kind: io::ErrorKind,
    before: u64,
    sent: usize,
) {
    let mut reader = Marked::new(PLAN.as_bytes());
    let mut stumbling = Stumbling::of(Limited::of(alloc, 50, 1000, true), kind, before);
    let mut writer = Marked::new(&mut stumbling);
    let ended = run(rt, alloc, &OpenGate, &mut reader, &mut writer);
    let facts = [
        ended == Err(RunFault::Write { sent: sent as u64 }),
        Drain::failed(&writer),
        stumbling.after == 0,
        stumbling.inner.taken.len() == sent,
        REPORT.as_bytes().starts_with(&stumbling.inner.taken),
    ];
    expect_each(rt, &facts, sent as u64);
}

// The report goes out in three pieces, and the fourth call is the flush.
#[test]
fn a_failed_write_or_flush_is_not_tried_again(rt: HostRuntime) {
    for kind in KINDS {
        for (before, sent) in [(0u64, 0usize), (1, 50), (2, 100), (3, 112)] {
            expect_last_write(&rt, rt.alloc(), kind, before, sent);
        }
    }
}

#[test]
fn bytes_come_and_go_in_small_pieces(rt: HostRuntime) {
    expect_written(&rt, rt.alloc(), 1, (3, 1000, true), Ok(()), 112);
}

// A run over a writer that takes 50 bytes a call, and nothing at one call, ends like this, after
// these numbers of reads and of other calls.
fn expect_calls<R: Abort + Threads + Wait + Sync>(
    rt: &R,
    alloc: Global,
    idle: Option<u64>,
    wanted: Result<(), RunFault>,
    calls: (u64, u64),
) {
    let mut inner = CallCounter {
        inner: PLAN.as_bytes(),
        calls: 0,
        idle: None,
    };
    let mut taking = CallCounter {
        inner: Limited::of(alloc, 50, 1000, true),
        calls: 0,
        idle,
    };
    let mut reader = Marked::new(&mut inner);
    let mut writer = Marked::new(&mut taking);
    let ended = run(rt, alloc, &OpenGate, &mut reader, &mut writer);
    let facts = [ended == wanted, (inner.calls, taking.calls) == calls];
    expect_each(rt, &facts, calls.1);
}

#[test]
fn a_plan_comes_and_its_report_goes_in_few_calls(rt: HostRuntime) {
    expect_calls(&rt, rt.alloc(), None, Ok(()), (2, 4));
}

#[test]
fn a_write_of_nothing_is_not_tried_again(rt: HostRuntime) {
    for idle in 0..3u64 {
        let sent = idle.wrapping_mul(50);
        let wanted = Err(RunFault::Write { sent });
        let calls = (2, idle.wrapping_add(1));
        expect_calls(&rt, rt.alloc(), Some(idle), wanted, calls);
    }
}
