//! What the threads of a round share, and the rights of each.
ghost use Rattle.std.specs.Prelude.{◌≡◌, ◌≤◌, []};
ghost use Rattle.zs_pool.specs.Board.{split_claimer, new_claimer, joined_claimer};
ghost use Rattle.zs_pool.specs.Shelf.{shelver, split_shelver, joined_shelver};
ghost use Rattle.zs_pool.specs.Tally.{seating, split_seating, joined_seating};
ghost use Rattle.zs_pool.specs.Shares.{IsOf};

use crate::board::{Board, BoardPass};
use crate::shelf::{Shelf, ShelfPass};
use crate::tally::{Tally, TallySeat};
use std::alloc::Global;

// What the threads of a round share: the batches, the polled ones, the count of polls, the moment.
#[derive_where(Clone, Copy)]
pub(crate) struct Shared<'s, G> {
    pub(crate) gate: &'s G,
    pub(crate) board: &'s Board,
    pub(crate) shelf: &'s Shelf,
    pub(crate) tally: &'s Tally,
    // The moment of the round, in milliseconds.
    pub(crate) moment: u64,
    // The number of tasks in all batches, and the number of batches.
    pub(crate) tasks: u64,
    pub(crate) batches: usize,
}

// One thread's right to claim, to hand in and to count.
#[derive(Drop)]
pub(crate) struct Rights {
    pub(crate) board_pass: BoardPass,
    pub(crate) shelf_pass: ShelfPass,
    pub(crate) seat: TallySeat,
}

impl<'s, G> Shared<'s, G> {
    // Splits off the rights of a worker, which may count all tasks.
    pub(crate) fn split<R>(self, rt: &R, alloc: Global, rights: Rights) -> (Rights, Rights)
        requires of { IsOf self rights }
        requires shares { (2 ≤ rights.board_pass.share) × (2 ≤ rights.shelf_pass.share) }
        requires tasks { self.tasks ≤ rights.seat.allowance }
        ensures board_pass { result.0.board_pass
            ≡ split_claimer self.entry.board.now rights.board_pass }
        ensures shelf_pass { result.0.shelf_pass
            ≡ split_shelver self.entry.shelf.now rights.shelf_pass }
        ensures seat { result.0.seat
            ≡ split_seating self.entry.tally.now rights.seat self.entry.tasks }
        ensures own_board_pass { result.1.board_pass
            ≡ new_claimer self.entry.board.now rights.board_pass }
        ensures own_shelf_pass { result.1.shelf_pass ≡ shelver self.entry.shelf.now 1 [] [] }
        ensures own_seat { result.1.seat
            ≡ seating self.entry.tally.now 0 self.entry.tasks rights.seat.seen }
    {
        let Ok((board_pass, own_board_pass)) = self.board.split(rt, alloc, rights.board_pass) else {
            unreachable!()
        };
        let Ok((shelf_pass, own_shelf_pass)) = self.shelf.split(rt, alloc, rights.shelf_pass) else {
            unreachable!()
        };
        let (seat, own_seat) = self.tally.split(rights.seat, self.tasks);
        let own = Rights {
            board_pass: own_board_pass,
            shelf_pass: own_shelf_pass,
            seat: own_seat,
        };
        let rest = Rights {
            board_pass,
            shelf_pass,
            seat,
        };
        (rest, own)
    }

    // Joins the rights of a worker into those of the calling thread.
    pub(crate) fn join<R>(self, rt: &R, rights: Rights, other: Rights) -> Rights
        requires of { IsOf self rights }
        requires other { IsOf self other }
        ensures board_pass { result.board_pass
            ≡ joined_claimer self.entry.board.now rights.board_pass other.board_pass }
        ensures shelf_pass { result.shelf_pass
            ≡ joined_shelver self.entry.shelf.now rights.shelf_pass other.shelf_pass }
        ensures seat { result.seat ≡ joined_seating self.entry.tally.now rights.seat other.seat }
    {
        Rights {
            board_pass: self.board.join(rt, rights.board_pass, other.board_pass),
            shelf_pass: self.shelf.join(rt, rights.shelf_pass, other.shelf_pass),
            seat: self.tally.join(rights.seat, other.seat),
        }
    }
}
