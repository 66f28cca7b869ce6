//! Batches that are polled by the thread of the test.
ghost use Rattle.std.specs.Prelude.{◌≤◌};
ghost use Rattle.zs_drive.specs.Clocks.{max_tick};

use super::super::gates::OneByOne;
use super::*;
use std::process::Abort;

// The result of polling a batch of new tasks: the message, the polls that were counted, and the
// number that may still be.
#[derive(Drop)]
struct Came {
    message: Polled,
    counted: u64,
    left: u64,
}

// Polls a batch of new tasks with this number, on a new tally.
fn poll_new<G: Gate, R>(
    rt: &R,
    alloc: Global,
    gate: &G,
    number: u64,
    now: u64,
    count: u64,
) -> Result<Came, Fail>
    requires now { now ≤ max_tick }
    requires count { count ≤ 10000 }
{
    let tasks = new_tasks(alloc, count, now)?;
    let (tally, mut seat) = Tally::new(alloc)?;
    let batch = Batch { number, tasks };
    let message = poll_batch(rt, alloc, gate, &tally, &mut seat, now, batch)?;
    let left = Tally::left(&seat);
    let counted = tally.seen(&mut seat);
    Ok(Came {
        message,
        counted,
        left,
    })
}

// The message has this number, moment and number of tasks, and each of its polls was counted.
fn expect_came(rt: &impl Abort, came: &Came, number: u64, now: u64, count: u64) {
    let message = &came.message;
    let found = (message.number, message.now, message.tasks.len() as u64);
    assert!(rt; found == (number, now, count));
    let left = u64::MAX.wrapping_sub(count);
    assert!(rt; (came.counted, came.left) == (count, left));
}

#[test]
fn a_batch_is_polled_in_order_and_each_poll_counted(rt: HostRuntime) -> Result<(), Fail> {
    let gate = OneByOne::of(3);
    let came = poll_new(&rt, rt.alloc(), &gate, 4, 2, 3)?;
    expect_came(&rt, &came, 4, 2, 3);
    assert!(rt; (gate.passes(), gate.wrong()) == (3, 0));
    Ok(())
}

// If a poll runs out of memory, only its task is broken: the others were polled once. Returns
// whether one is broken.
fn expect_each(rt: &impl Abort, tasks: &[Task]) -> bool {
    let mut broken = false;
    for (place, task) in tasks.iter().enumerate() {
        let (polls, due) = if task.broken() { (0, 0) } else { (1, 5) };
        let found = (task.number(), task.polls(), task.due());
        assert!(rt; found == (place as u64, polls, Some(due)));
        broken = broken || task.broken();
    }
    broken
}

// The message says whether a task is broken.
#[test]
fn a_message_is_broken_where_one_of_its_tasks_is(rt: HostRuntime) -> Result<(), Fail> {
    let came = poll_new(&rt, rt.alloc(), &OpenGate, 0, 0, 2)?;
    expect_came(&rt, &came, 0, 0, 2);
    assert!(rt; came.message.broken() == expect_each(&rt, &came.message.tasks));
    Ok(())
}

// A batch of this number and number of tasks is polled at this moment, and none is broken.
fn expect_whole<R: Abort>(
    rt: &R,
    alloc: Global,
    number: u64,
    now: u64,
    count: u64,
) -> Result<(), Fail>
    requires now { now ≤ max_tick }
    requires count { count ≤ 10000 }
{
    let came = poll_new(rt, alloc, &OpenGate, number, now, count)?;
    expect_came(rt, &came, number, now, count);
    assert!(rt; !came.message.broken());
    Ok(())
}

#[test]
fn a_batch_whose_tasks_found_memory_is_not_broken(rt: HostRuntime) -> Result<(), Fail> {
    expect_whole(&rt, rt.alloc(), 0, 0, 2)?;
    expect_whole(&rt, rt.alloc(), 9, 3, 0)
}
