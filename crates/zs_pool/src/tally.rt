//! A counter of polls that threads share.
//!
//! Atomic steps, each under the rule of its word (`tally/rule.rt`):
//! - `count` is one `fetch_add`, and `seen` one `load`.
//! - `split` notes the amount by a `compare_exchange` of n by n, which changes nothing, and then
//!   splits the seat.
//! - `join` joins two seats, and then loads.

ghost use Rattle.std.specs.Prelude.{◌≡◌, ◌+◌, ◌-◌, ◌≤◌, IfOk, IfErr};
ghost use Rattle.zs_term.specs.Saturating.{max_moment};
ghost use Rattle.zs_pool.specs.Tally.{seating, split_seating, joined_seating};
ghost use Rattle.zs_pool.specs.declared.fault.PoolFault.TheVariants.{Memory};

mod rule;

use crate::fault::PoolFault;
use crate::tally::rule::{Counts, Exact, Fits, Notes, Sees, Tallied, TallySharing};
use atomic_table::{Seat, Table};
use std::alloc::Global;
use std::marker::Model;

/// A counter that threads share. Contracts know its identity.
#[derive(Drop)]
pub struct Tally {
    table: Table<(), Tallied, (), Exact, Global>,
}

impl Model for Tally {
    ghost use Rattle.std.specs.Prelude.{◌≡◌};
    ghost use Rattle.atomic_table.specs.Seated.{TableId};

    ghost Value = { TableId };

    ghost view = { λ t. t.table.shared.table_id };

    ghost invariant = { λ t.
        (t.table.shared.table_id.words ≡ 1) × (t.table.shared.table_id.slots ≡ 0) };
}

/// One thread's handle of a tally: the right to count, at most `left` times.
#[derive(Drop)]
pub struct TallySeat {
    seat: Seat<(), Tallied>,
    left: u64,
}

impl Model for TallySeat {
    ghost use Rattle.std.specs.Prelude.{◌≡◌, []};
    ghost use Rattle.zs_pool.specs.Tally.{Seating, seating};

    ghost Value = { Seating };

    ghost view = { λ s.
        let v = s.seat.me.0 in seating s.seat.table_id v.count v.allowance v.seen };

    ghost invariant = { λ s. (s.seat.me.1 ≡ []) × (s.left ≡ s.seat.me.0.allowance) };
}

impl Tally {
    /// Makes a count of 0, and its first seat, which may count 18,446,744,073,709,551,615 times.
    /// Fails only with `Memory`.
    pub fn new(alloc: Global) -> Result<(Tally, TallySeat), PoolFault>
        ensures ok { IfOk result (λ t. t.1 ≡ seating t.0 0 max_moment 0) }
        ensures memory { IfErr result (λ e. e ≡ Memory) }
    {
        let (table, seat) = Table::of_words(alloc, &[0], &())?;
        let seat = TallySeat {
            seat,
            left: u64::MAX,
        };
        Ok((Tally { table }, seat))
    }

    /// Counts one more.
    pub fn count(&self, seat: &mut TallySeat)
        requires tally { seat.old.tally ≡ self.now }
        requires left { 1 ≤ seat.old.allowance }
        ensures counted { seat.new
            ≡ seating self.now (seat.old.count + 1) (seat.old.allowance - 1) seat.old.seen }
    {
        self.table.shared.fetch_add::<Counts>(&mut seat.seat, 0, 1);
        seat.left -= 1;
    }

    /// Returns what all seats have counted so far.
    pub fn seen(&self, seat: &mut TallySeat) -> u64
        requires tally { seat.old.tally ≡ self.now }
        // At least what the seat counted, and at least what it saw before.
        ensures own { seat.old.count ≤ result }
        ensures rising { seat.old.seen ≤ result }
        // There is room for all counts that the seat may still make.
        ensures within { result + seat.old.allowance ≤ max_moment }
        ensures kept { seat.new ≡ seating self.now seat.old.count seat.old.allowance result }
    {
        self.table.shared.load::<Sees>(&mut seat.seat, 0)
    }

    /// Returns how often the seat may still count.
    pub fn left(seat: &TallySeat) -> u64
        ensures value { result ≡ seat.now.allowance }
    {
        seat.left
    }

    /// Splits off a seat with an allowance of `n`.
    pub(crate) fn split_off(&self, seat: &mut TallySeat, n: u64) -> TallySeat
        requires tally { seat.old.tally ≡ self.now }
        requires left { n ≤ seat.old.allowance }
        ensures first { seat.new ≡ split_seating self.now seat.old n }
        ensures second { result ≡ seating self.now 0 n seat.old.seen }
    {
        let words = &self.table.shared;
        // The split takes no argument, so the amount is noted in the seat's view: a word that is
        // `n` becomes `n`.
        words.compare_exchange::<Notes>(&mut seat.seat, 0, n, n);
        seat.left -= n;
        let seat = words.split_seat::<TallySharing>(&mut seat.seat);
        TallySeat { seat, left: n }
    }

    /// Joins another seat into this one: its count and its allowance are added.
    pub(crate) fn absorb(&self, seat: &mut TallySeat, other: TallySeat)
        requires seat { seat.old.tally ≡ self.now }
        requires other { other.tally ≡ self.now }
        ensures joined { seat.new ≡ joined_seating self.now seat.old other }
    {
        let TallySeat { seat: theirs, left } = other;
        let words = &self.table.shared;
        words.join_seat::<TallySharing>(&mut seat.seat, theirs);
        // The sum of both allowances fits. The rule says so at every step, and this load is one.
        words.load::<Fits>(&mut seat.seat, 0);
        seat.left += left;
    }

    /// Splits off a seat with an allowance of `n`, which counted nothing. The first has the rest.
    pub fn split(&self, mut seat: TallySeat, n: u64) -> (TallySeat, TallySeat)
        requires tally { seat.tally ≡ self.now }
        requires left { n ≤ seat.allowance }
        ensures first { result.0 ≡ split_seating self.now seat n }
        ensures second { result.1 ≡ seating self.now 0 n seat.seen }
    {
        let other = self.split_off(&mut seat, n);
        (seat, other)
    }

    /// Joins two seats into one: their counts and allowances are added. It saw the greater value.
    pub fn join(&self, mut seat: TallySeat, other: TallySeat) -> TallySeat
        requires seat { seat.tally ≡ self.now }
        requires other { other.tally ≡ self.now }
        ensures joined { result ≡ joined_seating self.now seat other }
    {
        self.absorb(&mut seat, other);
        seat
    }

    /// Returns what was counted in all. If all seats were joined into this one, that is its count.
    pub fn close(self, seat: TallySeat) -> u64
        requires tally { seat.tally ≡ self }
        ensures own { seat.count ≤ result }
        ensures seen { seat.seen ≤ result }
        ensures within { result + seat.allowance ≤ max_moment }
        // Count and allowance add up to 2^64 - 1 only if no other seat counted or may count.
        ensures whole { seat.count + seat.allowance ≡ max_moment → result ≡ seat.count }
    {
        let TallySeat { seat, left: _ } = seat;
        let closed = self.table.close_with(seat);
        let all = closed.word(0);
        closed.free();
        all
    }
}
