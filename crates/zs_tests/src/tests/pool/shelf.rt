//! Shelves of polled batches with no tasks, used by one pass, by two, and by two threads.
ghost use Rattle.std.specs.Prelude.{◌≡◌, ◌≤◌};
ghost use Rattle.zs_term.specs.Saturating.{max_moment};

use super::super::gates::TURNS;
use super::*;
use std::process::Abort;
use std::sync::Wait;
use std::thread;

// Puts a polled batch with this number, or returns the number of the one that came back.
fn put<R: Wait>(
    rt: &R,
    alloc: Global,
    shelf: &Shelf,
    pass: &mut ShelfPass,
    number: u64,
) -> Result<(), (u64, PoolFault)>
    requires shelf { pass.old.shelf ≡ shelf.now }
    ensures shelf { pass.new.shelf ≡ shelf.now }
    ensures share { pass.new.share ≡ pass.old.share }
{
    let message = Polled {
        number,
        now: 0,
        tasks: Vec::new(alloc),
    };
    match shelf.put(rt, pass, message) {
        Ok(()) => Ok(()),
        Err((back, fault)) => Err((back.number, fault)),
    }
}

// Takes a polled batch, and returns its number.
fn take<R: Wait>(rt: &R, shelf: &Shelf, pass: &mut ShelfPass) -> Option<u64>
    requires shelf { pass.old.shelf ≡ shelf.now }
    ensures shelf { pass.new.shelf ≡ shelf.now }
    ensures share { pass.new.share ≡ pass.old.share }
{
    match shelf.take(rt, pass) {
        Some(message) => Some(message.number),
        None => None,
    }
}

// Puts four batches by two passes in turn, takes the first, and joins the passes.
fn put_by_turns<R: Wait + Abort>(rt: &R, alloc: Global, shelf: &Shelf, pass: ShelfPass) -> ShelfPass
    requires shelf { pass.shelf ≡ shelf.now }
    requires whole { pass.share ≡ max_moment }
    ensures shelf { result.shelf ≡ shelf.now }
    ensures whole { result.share ≡ max_moment }
{
    let Ok((mut first, mut second)) = shelf.split(rt, alloc, pass) else {
        unreachable!()
    };
    assert!(rt; put(rt, alloc, shelf, &mut second, 0).is_ok());
    assert!(rt; put(rt, alloc, shelf, &mut first, 1).is_ok());
    assert!(rt; put(rt, alloc, shelf, &mut second, 2).is_ok());
    assert!(rt; put(rt, alloc, shelf, &mut first, 3).is_ok());
    assert!(rt; take(rt, shelf, &mut first) == Some(0));
    shelf.join(rt, first, second)
}

#[test]
fn a_shelf_of_one_is_full_after_a_put_and_empty_after_a_take(rt: HostRuntime) -> Result<(), Fail> {
    let alloc = rt.alloc();
    let (shelf, mut pass) = Shelf::new(&rt, alloc, 1)?;
    assert!(rt; put(&rt, alloc, &shelf, &mut pass, 0).is_ok());
    assert!(rt; put(&rt, alloc, &shelf, &mut pass, 1) == Err((1, PoolFault::Full)));
    assert!(rt; take(&rt, &shelf, &mut pass) == Some(0));
    assert!(rt; take(&rt, &shelf, &mut pass).is_none());
    expect_left(&rt, &shelf.close(&rt, alloc, pass)?, &[]);
    Ok(())
}

#[test]
fn what_two_passes_put_is_taken_in_order_after_their_join(rt: HostRuntime) -> Result<(), Fail> {
    let alloc = rt.alloc();
    let (shelf, pass) = Shelf::new(&rt, alloc, 4)?;
    let mut pass = put_by_turns(&rt, alloc, &shelf, pass);
    assert!(rt; take(&rt, &shelf, &mut pass) == Some(1));
    expect_left(&rt, &shelf.close(&rt, alloc, pass)?, &[2, 3]);
    Ok(())
}

// The messages have these numbers.
fn expect_left(rt: &impl Abort, left: &[Polled], numbers: &[u64]) {
    assert!(rt; left.len() == numbers.len());
    for (message, number) in left.iter().zip(numbers) {
        assert!(rt; message.number == *number);
    }
}

// Puts a polled batch as soon as there is room for it, and returns whether that happened.
fn put_at_last<R: Wait>(
    rt: &R,
    alloc: Global,
    shelf: &Shelf,
    pass: &mut ShelfPass,
    number: u64,
) -> bool
    requires shelf { pass.old.shelf ≡ shelf.now }
    ensures shelf { pass.new.shelf ≡ shelf.now }
    ensures share { pass.new.share ≡ pass.old.share }
{
    for _ in 0..TURNS {
        if put(rt, alloc, shelf, pass, number).is_ok() {
            return true;
        }
        thread::yield_now();
    }
    false
}

// Takes a polled batch as soon as there is one.
fn take_at_last<R: Wait>(rt: &R, shelf: &Shelf, pass: &mut ShelfPass) -> Option<u64>
    requires shelf { pass.old.shelf ≡ shelf.now }
    ensures shelf { pass.new.shelf ≡ shelf.now }
    ensures share { pass.new.share ≡ pass.old.share }
{
    for _ in 0..TURNS {
        if let Some(number) = take(rt, shelf, pass) {
            return Some(number);
        }
        thread::yield_now();
    }
    None
}

// Puts polled batches with the numbers below `count`.
fn put_all<R: Wait>(
    rt: &R,
    alloc: Global,
    shelf: &Shelf,
    mut pass: ShelfPass,
    count: u64,
) -> ShelfPass
    requires shelf { pass.shelf ≡ shelf.now }
    ensures shelf { result.shelf ≡ shelf.now }
    ensures share { result.share ≡ pass.share }
{
    for number in 0..count {
        if !put_at_last(rt, alloc, shelf, &mut pass, number) {
            break;
        }
    }
    pass
}

// Takes polled batches while they come in the order of their numbers, and returns how many did.
fn take_all<R: Wait>(rt: &R, shelf: &Shelf, mut pass: ShelfPass, count: u64) -> (ShelfPass, u64)
    requires shelf { pass.shelf ≡ shelf.now }
    ensures shelf { result.0.shelf ≡ shelf.now }
    ensures share { result.0.share ≡ pass.share }
{
    let mut in_order = 0;
    for number in 0..count {
        if take_at_last(rt, shelf, &mut pass) != Some(number) {
            break;
        }
        in_order = number + 1;
    }
    (pass, in_order)
}

#[test]
fn one_thread_takes_in_order_what_another_puts(rt: HostRuntime) -> Result<(), Fail> {
    let alloc = rt.alloc();
    let (shelf, pass) = Shelf::new(&rt, alloc, 3)?;
    let Ok((first, second)) = shelf.split(&rt, alloc, pass) else {
        unreachable!()
    };
    let lent = &shelf;
    let handle = &rt;
    let (first, (second, in_order)) = thread::join(
        &rt,
        move || -> ShelfPass
            requires shelf { first.shelf ≡ lent.now }
            ensures same { (result.shelf ≡ lent.entry.now) × (result.share ≡ first.share) }
        { put_all(handle, alloc, lent, first, 1000) },
        move || -> (ShelfPass, u64)
            requires shelf { second.shelf ≡ lent.now }
            ensures same { (result.0.shelf ≡ lent.entry.now) × (result.0.share ≡ second.share) }
        { take_all(handle, lent, second, 1000) },
    );
    assert!(rt; in_order == 1000);
    let pass = shelf.join(&rt, first, second);
    assert!(rt; shelf.close(&rt, alloc, pass)?.is_empty());
    Ok(())
}

// Puts polled batches with the numbers below `count`, and returns the first number without room.
fn put_until_full<R: Wait>(
    rt: &R,
    alloc: Global,
    shelf: &Shelf,
    mut pass: ShelfPass,
    count: u64,
) -> Option<u64>
    requires shelf { pass.shelf ≡ shelf.now }
{
    for number in 0..count {
        if put(rt, alloc, shelf, &mut pass, number).is_err() {
            return Some(number);
        }
    }
    None
}

// Returns the number of polled batches that a shelf of this capacity takes.
fn room_of<R: Wait>(rt: &R, alloc: Global, capacity: u64) -> Result<Option<u64>, Fail>
    requires capacity { (1 ≤ capacity) × (capacity ≤ 10000) }
{
    let (shelf, pass) = Shelf::new(rt, alloc, capacity)?;
    Ok(put_until_full(rt, alloc, &shelf, pass, 10_001))
}

#[test]
fn a_shelf_has_room_for_as_many_as_it_was_made_for(rt: HostRuntime) -> Result<(), Fail> {
    assert!(rt; room_of(&rt, rt.alloc(), 9)? == Some(9));
    assert!(rt; room_of(&rt, rt.alloc(), 10_000)? == Some(10_000));
    Ok(())
}

#[test]
fn a_shelf_takes_a_batch_of_many_tasks(rt: HostRuntime) -> Result<(), Fail> {
    let alloc = rt.alloc();
    let tasks = new_tasks(alloc, 1000, 0)?;
    let (tally, mut seat) = Tally::new(alloc)?;
    let batch = Batch { number: 0, tasks };
    let polled = poll_batch(&rt, alloc, &OpenGate, &tally, &mut seat, 0, batch)?;
    let (shelf, mut pass) = Shelf::new(&rt, alloc, 1)?;
    let is_put = shelf.put(&rt, &mut pass, polled).is_ok();
    assert!(rt; is_put);
    Ok(())
}
