//! A word beside the board's queue that counts the batches that were claimed.
//!
//! Its atomic steps: `add` is one `fetch_add`, `look` one `load`, `split` splits a seat and `join`
//! joins two.
ghost use Rattle.std.specs.Prelude.{◌≡◌, ◌+◌, ◌≤◌, ◌<◌, max, IfOk};
ghost use Rattle.zs_term.specs.Saturating.{max_moment};
ghost use Rattle.zs_pool.specs.Counter.{counting, split_counting, joined_counting};

use crate::board::counter_rule::{Adds, Count, CountSharing, Looks, Summed};
use atomic_table::{Seat, Table};
use std::alloc::{AllocError, Global};
use std::marker::Model;

/// The count of claimed batches. Contracts know its identity.
#[derive(Drop)]
pub(crate) struct Counter {
    table: Table<(), Count, (), Summed, Global>,
}

impl Model for Counter {
    ghost use Rattle.std.specs.Prelude.{◌≡◌};
    ghost use Rattle.atomic_table.specs.Seated.{TableId};

    ghost Value = { TableId };

    ghost view = { λ t. t.table.shared.table_id };

    ghost invariant = { λ t. t.table.shared.table_id.words ≡ 1 };
}

/// One pass's right to count.
#[derive(Drop)]
pub(crate) struct CounterSeat {
    seat: Seat<(), Count>,
}

impl Model for CounterSeat {
    ghost use Rattle.std.specs.Prelude.{◌≡◌, []};
    ghost use Rattle.zs_pool.specs.Counter.{Counting, counting};

    ghost Value = { Counting };

    ghost view = { λ s.
        let v = s.seat.me.0 in counting s.seat.table_id v.share v.count v.seen };

    ghost invariant = { λ s. s.seat.me.1 ≡ [] };
}

impl Counter {
    /// Makes a count of 0, and its first seat.
    pub(crate) fn new(alloc: Global) -> Result<(Counter, CounterSeat), AllocError>
        ensures ok { IfOk result (λ t. t.1 ≡ counting t.0 max_moment 0 0) }
    {
        let (table, seat) = Table::of_words(alloc, &[0], &())?;
        Ok((Counter { table }, CounterSeat { seat }))
    }

    /// Counts one claimed batch.
    pub(crate) fn add(&self, seat: &mut CounterSeat)
        requires counter { seat.old.counter ≡ self.now }
        requires share { 0 < seat.old.share }
        ensures added { seat.new
            ≡ counting self.now seat.old.share (seat.old.count + 1) seat.old.seen }
    {
        self.table.shared.fetch_add::<Adds>(&mut seat.seat, 0, 1);
    }

    /// Returns how many were counted so far. A seat with exclusive access has counted everything
    /// that it saw.
    pub(crate) fn look(&self, seat: &mut CounterSeat) -> u64
        requires counter { seat.old.counter ≡ self.now }
        ensures seen { seat.new
            ≡ counting self.now seat.old.share seat.old.count (max seat.old.seen result) }
        ensures settled { seat.old.share ≡ max_moment → seat.old.seen ≤ seat.old.count }
    {
        self.table.shared.load::<Looks>(&mut seat.seat, 0)
    }

    /// Splits off a seat with a share of 1.
    pub(crate) fn split(&self, seat: &mut CounterSeat) -> CounterSeat
        requires counter { seat.old.counter ≡ self.now }
        requires share { 2 ≤ seat.old.share }
        ensures first { seat.new ≡ split_counting self.now seat.old }
        ensures second { result ≡ counting self.now 1 0 seat.old.seen }
    {
        CounterSeat {
            seat: self.table.shared.split_seat::<CountSharing>(&mut seat.seat),
        }
    }

    /// Joins two seats into one.
    pub(crate) fn join(&self, seat: &mut CounterSeat, other: CounterSeat)
        requires counter { (seat.old.counter ≡ self.now) × (other.counter ≡ self.now) }
        requires share { 0 < seat.old.share }
        ensures joined { seat.new ≡ joined_counting self.now seat.old other }
    {
        let CounterSeat { seat: more } = other;
        self.table
            .shared
            .join_seat::<CountSharing>(&mut seat.seat, more);
    }
}
