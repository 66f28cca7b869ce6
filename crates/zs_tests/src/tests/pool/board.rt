//! Boards whose batches are claimed by one pass, and by two threads.
ghost use Rattle.std.specs.Prelude.{◌≡◌, IfOk};
ghost use Rattle.zs_pool.specs.Batches.{AreNumbered};
ghost use Rattle.zs_term.specs.Saturating.{max_moment};

use super::*;
use std::process::Abort;
use std::sync::Wait;
use std::thread;
use std::thread::Threads;

// Makes numbered batches of new tasks, `each` tasks in every batch.
fn batches_of(alloc: Global, count: u64, each: u64) -> Result<Vec<Batch>, Fail>
    ensures numbered { IfOk result (λ batches. AreNumbered batches.items) }
{
    let mut batches = Vec::new(alloc);
    for number in 0..count {
        let tasks = new_tasks(alloc, each, 0)?;
        batches.push(Batch { number, tasks })?;
    }
    Ok(batches)
}

// Claims a batch. Callers know only the pass and its share afterwards.
fn claim<R: Wait>(rt: &R, board: &Board, pass: &mut BoardPass) -> Option<Batch>
    requires board { pass.old.board ≡ board.now }
    ensures board { pass.new.board ≡ board.now }
    ensures share { pass.new.share ≡ pass.old.share }
{
    match board.claim(rt, pass) {
        Some(batch) => Some(batch),
        None => None,
    }
}

// A claim returns the batch of this number, or none.
fn expect_claim<R: Wait + Abort>(rt: &R, board: &Board, pass: &mut BoardPass, wanted: Option<u64>)
    requires board { pass.old.board ≡ board.now }
    ensures board { pass.new.board ≡ board.now }
    ensures share { pass.new.share ≡ pass.old.share }
{
    let found = match claim(rt, board, pass) {
        Some(batch) => Some(batch.number),
        None => None,
    };
    assert!(rt; found == wanted);
}

// This number of batches remains on the board.
fn expect_left<R: Wait + Abort>(
    rt: &R,
    alloc: Global,
    board: Board,
    pass: BoardPass,
    count: usize,
) -> Result<(), Fail>
    requires board { pass.board ≡ board }
    requires whole { pass.share ≡ max_moment }
{
    let left = board.close(rt, alloc, pass)?;
    assert!(rt; left.len() == count);
    Ok(())
}

// Claims batches until none remains, at most ten times, and returns their numbers.
fn claim_all<R: Wait>(
    rt: &R,
    alloc: Global,
    board: &Board,
    mut pass: BoardPass,
) -> (BoardPass, Vec<u64>)
    requires board { pass.board ≡ board.now }
    ensures board { result.0.board ≡ board.now }
    ensures share { result.0.share ≡ pass.share }
{
    let mut numbers = Vec::new(alloc);
    for _ in 0..10u64 {
        let Some(batch) = claim(rt, board, &mut pass) else {
            break;
        };
        let _ = numbers.push(batch.number);
    }
    (pass, numbers)
}

#[test]
fn a_board_of_no_batches_is_empty(rt: HostRuntime) -> Result<(), Fail> {
    let alloc = rt.alloc();
    let (board, mut pass) = Board::new(&rt, alloc, batches_of(alloc, 0, 0)?)?;
    expect_claim(&rt, &board, &mut pass, None);
    expect_left(&rt, alloc, board, pass, 0)
}

#[test]
fn batches_are_claimed_one_after_another_and_then_none_for_good(
    rt: HostRuntime,
) -> Result<(), Fail> {
    let alloc = rt.alloc();
    let (board, mut pass) = Board::new(&rt, alloc, batches_of(alloc, 3, 0)?)?;
    expect_claim(&rt, &board, &mut pass, Some(0));
    expect_claim(&rt, &board, &mut pass, Some(1));
    expect_claim(&rt, &board, &mut pass, Some(2));
    expect_claim(&rt, &board, &mut pass, None);
    expect_claim(&rt, &board, &mut pass, None);
    let pass = expect_none_after_a_split(&rt, alloc, &board, pass);
    expect_left(&rt, alloc, board, pass, 0)
}

// After a split, neither pass gets a batch, nor does the pass that both are joined to.
fn expect_none_after_a_split<R: Wait + Abort>(
    rt: &R,
    alloc: Global,
    board: &Board,
    pass: BoardPass,
) -> BoardPass
    requires board { pass.board ≡ board.now }
    requires whole { pass.share ≡ max_moment }
    ensures board { result.board ≡ board.now }
    ensures whole { result.share ≡ max_moment }
{
    let Ok((mut first, mut second)) = board.split(rt, alloc, pass) else {
        unreachable!()
    };
    expect_claim(rt, board, &mut first, None);
    expect_claim(rt, board, &mut second, None);
    let mut pass = board.join(rt, first, second);
    expect_claim(rt, board, &mut pass, None);
    pass
}

// The batch has this number, and three tasks in order.
fn expect_batch(rt: &impl Abort, batch: Option<Batch>, number: u64) {
    let batch = batch.expect(rt, "a batch");
    assert!(rt; (batch.number, batch.tasks.len()) == (number, 3));
    for (place, task) in batch.tasks.iter().enumerate() {
        assert!(rt; task.number() == place as u64);
    }
}

#[test]
fn a_claimed_batch_is_whole(rt: HostRuntime) -> Result<(), Fail> {
    let alloc = rt.alloc();
    let (board, mut pass) = Board::new(&rt, alloc, batches_of(alloc, 2, 3)?)?;
    expect_batch(&rt, claim(&rt, &board, &mut pass), 0);
    expect_batch(&rt, claim(&rt, &board, &mut pass), 1);
    Ok(())
}

// Claims the first batch by one of two passes and the second by the other, and joins these.
fn claim_by_turns<R: Wait + Abort>(
    rt: &R,
    alloc: Global,
    board: &Board,
    pass: BoardPass,
) -> BoardPass
    requires board { pass.board ≡ board.now }
    requires whole { pass.share ≡ max_moment }
    ensures board { result.board ≡ board.now }
    ensures whole { result.share ≡ max_moment }
{
    let Ok((mut first, mut second)) = board.split(rt, alloc, pass) else {
        unreachable!()
    };
    expect_claim(rt, board, &mut second, Some(0));
    expect_claim(rt, board, &mut first, Some(1));
    board.join(rt, first, second)
}

// The batches have these numbers.
fn expect_numbers(rt: &impl Abort, batches: &[Batch], numbers: &[u64]) {
    assert!(rt; batches.len() == numbers.len());
    for (batch, number) in batches.iter().zip(numbers) {
        assert!(rt; batch.number == *number);
    }
}

#[test]
fn what_is_left_on_a_board_comes_back_in_order(rt: HostRuntime) -> Result<(), Fail> {
    let alloc = rt.alloc();
    let (board, pass) = Board::new(&rt, alloc, batches_of(alloc, 5, 0)?)?;
    let pass = claim_by_turns(&rt, alloc, &board, pass);
    expect_numbers(&rt, &board.close(&rt, alloc, pass)?, &[2, 3, 4]);
    Ok(())
}

// Claims batches by two threads until none remains, and returns what each got.
fn claim_by_two<R: Threads + Wait + Sync>(
    rt: &R,
    alloc: Global,
    board: &Board,
    pass: BoardPass,
) -> (BoardPass, Vec<u64>, Vec<u64>)
    requires board { pass.board ≡ board.now }
    requires whole { pass.share ≡ max_moment }
    ensures board { result.0.board ≡ board.now }
    ensures whole { result.0.share ≡ max_moment }
{
    let Ok((first, second)) = board.split(rt, alloc, pass) else {
        unreachable!()
    };
    let ((first, a), (second, b)) = thread::join(
        rt,
        move || -> (BoardPass, Vec<u64>)
            requires board { first.board ≡ board.now }
            ensures same { (result.0.board ≡ board.entry.now) × (result.0.share ≡ first.share) }
        { claim_all(rt, alloc, board, first) },
        move || -> (BoardPass, Vec<u64>)
            requires board { second.board ≡ board.now }
            ensures same { (result.0.board ≡ board.entry.now) × (result.0.share ≡ second.share) }
        { claim_all(rt, alloc, board, second) },
    );
    (board.join(rt, first, second), a, b)
}

// Both lists rise, and together they have each of these numbers once.
fn expect_shared(rt: &impl Abort, mut a: Vec<u64>, b: Vec<u64>, all: &[u64]) -> Result<(), Fail> {
    assert!(rt; a.is_sorted() && b.is_sorted());
    for number in b {
        a.push(number)?;
    }
    a.sort()?;
    assert!(rt; a.as_slice() == all);
    Ok(())
}

#[test]
fn two_threads_claim_each_batch_once(rt: HostRuntime) -> Result<(), Fail> {
    let alloc = rt.alloc();
    let (board, pass) = Board::new(&rt, alloc, batches_of(alloc, 5, 0)?)?;
    let (mut pass, a, b) = claim_by_two(&rt, alloc, &board, pass);
    expect_claim(&rt, &board, &mut pass, None);
    expect_left(&rt, alloc, board, pass, 0)?;
    expect_shared(&rt, a, b, &[0, 1, 2, 3, 4])
}
