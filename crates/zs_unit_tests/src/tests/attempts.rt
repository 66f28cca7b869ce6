//! Scripts, and attempts that are polled by hand.
ghost use Rattle.std.specs.Prelude.{◌≡◌, ◌≤◌};

use super::support::expect_text;
use futures::Future;
use futures::task::{Doorbell, Poll, Solo};
use std::alloc::{Alloc, AllocError, Global};
use std::process::Abort;
use std::random::RandomSource;
use std::test::Fail;
use zs_effect::{Attempt, Beat, Outcome, Script};

// Polls an attempt. Callers know nothing about a mock but this contract.
fn poll(solo: &Solo, attempt: &mut Attempt) -> Poll<Outcome>
    ensures same { attempt.new ≡ attempt.old }
{
    let mut cx = solo.begin();
    let polled = attempt.poll(&mut cx);
    let _: Poll<()> = cx.yield_now();
    cx.park();
    polled
}

// An attempt of 5 ms.
const FIVE: Beat = bad!(5, 7);

// Polls an attempt of 5 ms that began at 10 twice at a moment.
fn poll_twice(solo: &Solo, now: u64) -> (Poll<Outcome>, Poll<Outcome>)
    requires later { 10 ≤ now }
{
    let mut attempt = Attempt::start(FIVE, 10);
    attempt.see(now);
    let first = poll(solo, &mut attempt);
    (first, poll(solo, &mut attempt))
}

// The results as text.
fn polled_at<R: Alloc<A = Global> + RandomSource>(rt: &R, now: u64) -> Result<String, Fail>
    requires later { 10 ≤ now }
{
    let solo = Solo::new(rt, Doorbell::spinning())?;
    let (first, again) = poll_twice(&solo, now);
    drop(solo);
    Ok(format!(in rt.alloc(); "{now}: {first:?} {again:?}")?)
}

#[test]
fn an_attempt_is_ready_from_its_end_on_and_answers_again(rt: HostRuntime) -> Result<(), Fail> {
    for (now, wanted) in [
        (14u64, "14: Pending Pending"),
        (15, "15: Ready(Bad(7)) Ready(Bad(7))"),
        (20, "20: Ready(Bad(7)) Ready(Bad(7))"),
    ] {
        expect_text(&rt, &polled_at(&rt, now.max(10))?, wanted, "an attempt");
    }
    Ok(())
}

// The text of two entries.
fn both(alloc: Global, first: Beat, last: Beat) -> Result<String, AllocError> {
    format!(in alloc;
        "{} {:?}, {} {:?}",
        first.ms, first.outcome, last.ms, last.outcome
    )
}

// Returns the first and the thousandth entry of a script, or the text of its fault.
fn entries_of(alloc: Global, beats: &[Beat]) -> Result<String, AllocError> {
    match Script::new(Vec::from_slice(alloc, beats)?) {
        Ok(script) => both(alloc, script.beat(1), script.beat(1000)),
        Err(fault) => format!(in alloc; "{fault}"),
    }
}

// A script has the entries or the fault that is listed.
fn expect_entries<R: Abort + Alloc<A = Global>>(
    rt: &R,
    entries: &[Beat],
    wanted: &str,
) -> Result<(), Fail> {
    expect_text(rt, &entries_of(rt.alloc(), entries)?, wanted, "a script");
    Ok(())
}

static SCRIPTS: [(&[Beat], &str); 4] = [
    (&[bad!(5, 7)], "5 Bad(7), 5 Bad(7)"),
    (&[bad!(5, 7), good!(6, 1)], "5 Bad(7), 6 Good(1)"),
    (&[], "empty"),
    (&[bad!(5, 7), good!(0, 1)], "an entry takes 0 ms"),
];

#[test]
fn a_script_goes_on_with_its_last_entry_and_each_takes_time(rt: HostRuntime) -> Result<(), Fail> {
    for (entries, wanted) in &SCRIPTS {
        expect_entries(&rt, entries, wanted)?;
    }
    Ok(())
}

#[test]
fn a_script_has_at_most_1000_entries(rt: HostRuntime) -> Result<(), Fail> {
    let many = Vec::from_elem(rt.alloc(), bad!(5, 7), 1001)?;
    expect_entries(&rt, &many, "more than 1000 entries")?;
    expect_entries(&rt, &many[1..], "5 Bad(7), 5 Bad(7)")
}
