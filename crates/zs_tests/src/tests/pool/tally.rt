//! Tallies that one seat counts on, two seats of one thread, and two threads.
ghost use Rattle.std.specs.Prelude.{◌≡◌, ◌+◌, ◌≤◌};

use super::*;
use std::process::Abort;
use std::thread;
use std::thread::Threads;

// Counts n times, and returns what was seen last.
fn count_to(tally: &Tally, mut seat: TallySeat, n: u64) -> (TallySeat, u64)
    requires tally { seat.tally ≡ tally.now }
    requires left { n ≤ seat.allowance }
    ensures tally { result.0.tally ≡ tally.now }
    ensures count { result.0.count ≡ seat.count + n }
    ensures left { result.0.allowance + n ≡ seat.allowance }
{
    for _i in 0..n {
        tally.count(&mut seat);
    }
    let seen = tally.seen(&mut seat);
    (seat, seen)
}

#[test]
fn a_seat_sees_what_another_counted(rt: HostRuntime) -> Result<(), Fail> {
    let (tally, seat) = Tally::new(rt.alloc())?;
    let (first, mut second) = tally.split(seat, 1);
    let (first, seen) = count_to(&tally, first, 3);
    assert!(rt; seen == 3);
    assert!(rt; tally.seen(&mut second) == 3);
    let seat = tally.join(first, second);
    assert!(rt; tally.close(seat) == 3);
    Ok(())
}

// Counts if the allowance isn't used up. It was `left` before.
fn expect_count(rt: &impl Abort, tally: &Tally, seat: &mut TallySeat, left: u64)
    requires tally { seat.old.tally ≡ tally.now }
    ensures tally { seat.new.tally ≡ tally.now }
{
    assert!(rt; Tally::left(seat) == left);
    if Tally::left(seat) > 0 {
        tally.count(seat);
    }
}

#[test]
fn a_seat_whose_allowance_is_used_up_may_not_count(rt: HostRuntime) -> Result<(), Fail> {
    let (tally, seat) = Tally::new(rt.alloc())?;
    let (mut first, mut second) = tally.split(seat, 2);
    expect_count(&rt, &tally, &mut second, 2);
    expect_count(&rt, &tally, &mut second, 1);
    expect_count(&rt, &tally, &mut second, 0);
    expect_count(&rt, &tally, &mut first, u64::MAX - 2);
    let seat = tally.join(first, second);
    assert!(rt; (Tally::left(&seat), tally.close(seat)) == (u64::MAX - 3, 3));
    Ok(())
}

// The other seat is dropped with its remaining allowance.
#[test]
fn a_tally_closed_by_one_of_two_seats_has_the_counts_of_both(rt: HostRuntime) -> Result<(), Fail> {
    let (tally, seat) = Tally::new(rt.alloc())?;
    let (first, mut second) = tally.split(seat, 5);
    expect_count(&rt, &tally, &mut second, 5);
    assert!(rt; Tally::left(&first) == u64::MAX - 5);
    assert!(rt; tally.close(first) == 1);
    let (tally, seat) = Tally::new(rt.alloc())?;
    let (mut first, mut second) = tally.split(seat, 5);
    expect_count(&rt, &tally, &mut first, u64::MAX - 5);
    expect_count(&rt, &tally, &mut first, u64::MAX - 6);
    expect_count(&rt, &tally, &mut second, 5);
    assert!(rt; tally.close(second) == 3);
    Ok(())
}

// Two threads count n times each on a new tally.
fn expect_together<R: Abort + Threads + Sync>(rt: &R, alloc: Global, n: u64) -> Result<(), Fail>
    requires few { n ≤ 10000000 }
{
    let (tally, seat) = Tally::new(alloc)?;
    let (first, second) = tally.split(seat, n);
    let lent = &tally;
    let ((first, a), (second, b)) = thread::join(
        rt,
        move || -> (TallySeat, u64)
            requires seat { (first.tally ≡ lent.now) × (n ≤ first.allowance) }
            ensures tally { result.0.tally ≡ lent.entry.now }
        { count_to(lent, first, n) },
        move || -> (TallySeat, u64)
            requires seat { (second.tally ≡ lent.now) × (n ≤ second.allowance) }
            ensures tally { result.0.tally ≡ lent.entry.now }
        { count_to(lent, second, n) },
    );
    let both = n + n;
    assert!(rt; a >= n && b >= n);
    assert!(rt; a == both || b == both);
    let seat = tally.join(first, second);
    assert!(rt; tally.close(seat) == both);
    Ok(())
}

// A thread counts a thousand times in less time than the other takes to start.
#[test]
fn two_threads_count_together(rt: HostRuntime) -> Result<(), Fail> {
    expect_together(&rt, rt.alloc(), 1000)?;
    expect_together(&rt, rt.alloc(), 10_000_000)
}
