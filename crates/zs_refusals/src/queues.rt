//! The work queue and the result queue, each with two handles.
ghost use Rattle.std.specs.Prelude.{◌≡◌, IfOk};
ghost use Rattle.zs_pool.specs.Batches.{AreNumbered};

use crate::ended::{Answer, Case, right_if};
use std::alloc::{AllocError, Global};
use std::sync::Wait;
use zs_pool::{Batch, Board, BoardPass, Polled, Shelf, ShelfPass};

// Three empty batches.
fn three(alloc: Global) -> Result<Vec<Batch>, AllocError>
    ensures numbered { IfOk result (λ batches. AreNumbered batches.items) }
{
    Ok(Vec::from_array(alloc, [empty(alloc, 0), empty(alloc, 1), empty(alloc, 2)])?)
}

fn empty(alloc: Global, number: u64) -> Batch
    ensures number { result.number ≡ number }
{
    Batch {
        number,
        tasks: Vec::new(alloc),
    }
}

// Returns the number of the next batch.
fn claim<R: Wait>(rt: &R, board: &Board, pass: &mut BoardPass) -> Option<u64>
    requires board { pass.old.board ≡ board.now }
    ensures board { pass.new.board ≡ board.now }
    ensures share { pass.new.share ≡ pass.old.share }
{
    match board.claim(rt, pass) {
        Some(batch) => Some(batch.number),
        None => None,
    }
}

/// A work queue of three batches: one for each handle, and one that remains.
pub fn use_board<R: Wait>(rt: &R, case: &mut Case<'_>) -> Answer {
    let batches = three(case.alloc)?;
    case.call = "Board::new";
    let (board, pass) = Board::new(rt, case.alloc, batches)?;
    case.call = "split of a board";
    let Ok((mut first, mut second)) = board.split(rt, case.alloc, pass) else {
        unreachable!()
    };
    let zero = claim(rt, &board, &mut second);
    let one = claim(rt, &board, &mut first);
    let joined = board.join(rt, first, second);
    case.call = "close of a board";
    let left = board.close(rt, case.alloc, joined)?;
    let is_left = matches!(left.as_slice(), [two] if two.number == 2);
    let is_right = zero == Some(0) && one == Some(1) && is_left;
    right_if(is_right, "other batches")?;
    Ok(String::new(case.alloc))
}

// Puts a message without tasks, and returns whether there was room for it.
fn put<R: Wait>(rt: &R, alloc: Global, shelf: &Shelf, pass: &mut ShelfPass, number: u64) -> bool
    requires shelf { pass.old.shelf ≡ shelf.now }
    ensures shelf { pass.new.shelf ≡ shelf.now }
    ensures share { pass.new.share ≡ pass.old.share }
{
    let message = Polled {
        number,
        now: 0,
        tasks: Vec::new(alloc),
    };
    shelf.put(rt, pass, message).is_ok()
}

// Returns the number of the next message.
fn take<R: Wait>(rt: &R, shelf: &Shelf, pass: &mut ShelfPass) -> Option<u64>
    requires shelf { pass.old.shelf ≡ shelf.now }
    ensures shelf { pass.new.shelf ≡ shelf.now }
    ensures share { pass.new.share ≡ pass.old.share }
{
    match shelf.take(rt, pass) {
        Some(message) => Some(message.number),
        None => None,
    }
}

/// A result queue of capacity 2: a third message is rejected, one is taken, and one remains.
pub fn use_shelf<R: Wait>(rt: &R, case: &mut Case<'_>) -> Answer {
    case.call = "Shelf::new";
    let (shelf, pass) = Shelf::new(rt, case.alloc, 2)?;
    case.call = "split of a shelf";
    let Ok((mut first, mut second)) = shelf.split(rt, case.alloc, pass) else {
        unreachable!()
    };
    let has_room = put(rt, case.alloc, &shelf, &mut second, 0)
        && put(rt, case.alloc, &shelf, &mut first, 1);
    let is_full = !put(rt, case.alloc, &shelf, &mut second, 2);
    let zero = take(rt, &shelf, &mut first);
    let joined = shelf.join(rt, first, second);
    case.call = "close of a shelf";
    let left = shelf.close(rt, case.alloc, joined)?;
    let is_left = matches!(left.as_slice(), [one] if one.number == 1);
    let is_right = has_room && is_full && zero == Some(0) && is_left;
    right_if(is_right, "other messages")?;
    Ok(String::new(case.alloc))
}
