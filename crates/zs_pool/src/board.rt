//! A work queue of batches.
//!
//! Atomic steps, each under the rule of the queue (`board/rule.rt`) or of the counter beside it
//! (`board/counter_rule.rt`):
//! - `new` pushes each batch.
//! - `claim` pops. After a batch it adds 1 to the counter. After an empty pop it loads the counter
//!   until all claims have counted, and then looks at the queue and loads once more. A pass that
//!   has returned `None` doesn't pop again.
//! - `split` splits both handles. `join` joins both, looks at the queue and loads the counter.
//! - `close` loads the counter, looks at the queue, and pops until it is empty.

ghost use Rattle.std.specs.Prelude.{◌≡◌, [], ◌≤◌, true, length, drop, IsOk, IfOk, IfErr, IfSome, IfNone};
ghost use Rattle.crossbeam_queue.specs.Passes.{view, IsPassOf};
ghost use Rattle.zs_term.specs.Saturating.{max_moment};
ghost use Rattle.zs_pool.specs.Batches.{AreNumbered, IsEachOnce};
ghost use Rattle.zs_pool.specs.Board.{claimer, fresh_claimer, split_claimer, new_claimer, joined_claimer, HasClaimed, HasTakenAll};
ghost use Rattle.zs_pool.specs.declared.fault.PoolFault.TheVariants.{Memory};

mod counter;
mod counter_rule;
mod rule;

use crate::batch::Batch;
use crate::board::counter::{Counter, CounterSeat};
use crate::board::rule::{ClaimSharing, Claims, InTurn, PutsBatch, TakesBatch};
use crate::fault::PoolFault;
use crossbeam_queue::{Pass, RuledArrayQueue};
use std::alloc::Global;
use std::marker::Model;
use std::sync::Wait;
use std::thread;

type BatchQueue = RuledArrayQueue<Batch, Claims<Batch>, InTurn>;

type BatchQueuePass = Pass<Batch, Claims<Batch>>;

/// A work queue: batches in order, each claimed by one pass. Contracts know its identity.
#[derive(Drop)]
pub struct Board {
    queue: BatchQueue,
    counter: Counter,
    size: u64,
}

impl Model for Board {
    ghost use Rattle.zs_pool.specs.Board.{BoardId};

    ghost Value = { BoardId };

    ghost view = { λ b.
        record { queue = b.queue.table.shared.table_id; counter = b.counter; size = b.size } };
}

/// One thread's handle of a board: the right to claim batches.
#[derive(Drop)]
pub struct BoardPass {
    queue: BatchQueuePass,
    seat: CounterSeat,
    none: bool,
}

impl Model for BoardPass {
    ghost use Rattle.std.specs.Prelude.{◌≡◌, [], length};
    ghost use Rattle.zs_pool.specs.Board.{Claimer, claimer, IsFit};
    ghost use Rattle.zs_term.specs.ScheduleCode.{schedule_code};
    ghost use Rattle.std.specs.Coded.{codes};

    ghost Value = { Claimer };

    ghost coded = { Prim.hlevel (codes, schedule_code) };

    ghost view = { λ p.
        let v = p.queue.me.0.client in
        claimer
        (record { queue = p.queue.table_id; counter = p.seat.counter; size = length v.batches })
        v.share v.batches v.taken p.none };

    ghost invariant = { λ p. (p.queue.me.1 ≡ []) × IsFit p.queue.me.0.client p.seat p.none };
}

impl Board {
    /// Makes a board of these batches, and its first pass. Fails only with `Memory`.
    pub fn new<R: Wait>(
        rt: &R,
        alloc: Global,
        batches: Vec<Batch>,
    ) -> Result<(Board, BoardPass), PoolFault>
        requires numbered { AreNumbered batches.items }
        ensures ok { IfOk result (λ r. r.1 ≡ fresh_claimer r.0 max_moment batches.items) }
        ensures memory { IfErr result (λ e. e ≡ Memory) }
    {
        let size = batches.len();
        let (counter, seat) = Counter::new(alloc)?;
        let (queue, mut queue_pass) = BatchQueue::ruled(alloc, size.max(1))?;
        for batch in batches {
            let Ok(()) = queue.push_as::<PutsBatch, R>(rt, &mut queue_pass, batch) else {
                unreachable!()
            };
        }
        let board = Board {
            queue,
            counter,
            size: size as u64,
        };
        let pass = BoardPass {
            queue: queue_pass,
            seat,
            none: false,
        };
        Ok((board, pass))
    }

    // Waits until the other claims have counted their batches.
    fn wait_for_all<R: Wait>(&self, rt: &R, seat: &mut CounterSeat)
        requires counter { seat.old.counter ≡ self.now.counter }
        ensures same { (seat.new.counter ≡ seat.old.counter) × (seat.new.share ≡ seat.old.share)
            × (seat.new.count ≡ seat.old.count) }
        ensures all { self.now.size ≤ seat.new.seen }
    {
        for _ in rt.forever() {
            if self.counter.look(seat) >= self.size {
                return;
            }
            thread::yield_now();
        }
        unreachable!()
    }

    // A pass with exclusive access that saw the board empty has taken each batch once.
    fn learn_all_taken(&self, pass: &mut BoardPass)
        requires board { pass.old.board ≡ self.now }
        ensures same { pass.new ≡ pass.old }
        ensures whole { pass.old.share ≡ max_moment → pass.old.none ≡ true → HasTakenAll pass.old }
    {
        self.queue.learn_as::<TakesBatch>(&mut pass.queue);
        self.counter.look(&mut pass.seat);
    }

    /// Takes the front batch. Returns `None` only if all batches were claimed, and from then on
    /// always. It may wait for claims of other passes.
    pub fn claim<R: Wait>(&self, rt: &R, pass: &mut BoardPass) -> Option<Batch>
        requires board { pass.old.board ≡ self.now }

        // The batch is unchanged, and later than everything that the pass took. After a `None`
        // there is no other.
        ensures taken { IfSome result (λ b. HasClaimed self.now pass.old b pass.new) }

        // A pass with exclusive access takes the very next one.
        ensures front { IfSome result (λ b.
            pass.old.share ≡ max_moment → b.number ≡ length pass.old.taken) }

        // A `None` is noted, and changes nothing else.
        ensures none { IfNone result
            (pass.new ≡ claimer self.now pass.old.share pass.old.batches pass.old.taken true) }
        // A pass with exclusive access has then taken each batch once.
        ensures whole { IfNone result (pass.old.share ≡ max_moment → HasTakenAll pass.old) }
    {
        if !pass.none {
            if let Some(batch) = self.queue.pop_as::<TakesBatch, R>(rt, &mut pass.queue) {
                self.counter.add(&mut pass.seat);
                return Some(batch);
            }
            self.wait_for_all(rt, &mut pass.seat);
            pass.none = true;
        }
        self.learn_all_taken(pass);
        None
    }

    /// Splits off a pass with a share of 1. The first pass retains the list of batches taken. After
    /// a `None`, both return `None`.
    pub fn split<R>(
        &self,
        _rt: &R,
        _alloc: Global,
        mut pass: BoardPass,
    ) -> Result<(BoardPass, BoardPass), (BoardPass, PoolFault)>
        requires board { pass.board ≡ self.now }
        requires share { 2 ≤ pass.share }
        ensures first { IfOk result (λ r. r.0 ≡ split_claimer self.now pass) }
        ensures second { IfOk result (λ r. r.1 ≡ new_claimer self.now pass) }
        ensures memory { IfErr result (λ e. (e.0 ≡ pass) × (e.1 ≡ Memory)) }

        // `new` has allocated the room, so this allocates nothing.
        ensures succeeds { IsOk result }
    {
        let queue = self.queue.another::<ClaimSharing>(&mut pass.queue);
        let seat = self.counter.split(&mut pass.seat);
        let none = pass.none;
        Ok((pass, BoardPass { queue, seat, none }))
    }

    /// Joins two passes into one, which took what both took. Their shares are added.
    pub fn join<R>(&self, _rt: &R, mut pass: BoardPass, other: BoardPass) -> BoardPass
        requires pass { pass.board ≡ self.now }
        requires other { other.board ≡ self.now }
        ensures joined { result ≡ joined_claimer self.now pass other }
        ensures whole { result.share ≡ max_moment → result.none ≡ true → HasTakenAll result }
    {
        let BoardPass { queue, seat, none } = other;
        self.queue.absorb::<ClaimSharing>(&mut pass.queue, queue);
        self.counter.join(&mut pass.seat, seat);
        pass.none = pass.none || none;
        self.learn_all_taken(&mut pass);
        pass
    }

    /// Returns the batches that were not claimed, front first. If it runs out of memory, it drops
    /// them.
    pub fn close<R: Wait>(
        self,
        rt: &R,
        alloc: Global,
        mut pass: BoardPass,
    ) -> Result<Vec<Batch>, PoolFault>
        requires board { pass.board ≡ self }
        requires whole { pass.share ≡ max_moment }
        // The pass took the first batches, each once, and after a `None` all of them.
        ensures taken { IsEachOnce (length pass.taken) pass.taken
            × (length pass.taken ≤ length pass.batches) }
        ensures all { pass.none ≡ true → length pass.taken ≡ length pass.batches }
        // The others are returned in order.
        ensures left { IfOk result (λ v. v.items ≡ drop (length pass.taken) pass.batches) }
        ensures memory { IfErr result (λ e. e ≡ Memory) }
    {
        self.counter.look(&mut pass.seat);
        self.queue.learn_as::<TakesBatch>(&mut pass.queue);
        drain(rt, alloc, &self.queue, &mut pass.queue)
    }
}

// Pops until the queue is empty.
fn drain<R: Wait>(
    rt: &R,
    alloc: Global,
    queue: &BatchQueue,
    pass: &mut BatchQueuePass,
) -> Result<Vec<Batch>, PoolFault>
    requires pass { IsPassOf queue.now pass.old }
    requires whole { (view pass.old).share ≡ max_moment }
    ensures left { let v = view pass.old in IfOk result (λ left.
        left.items ≡ drop (length v.taken) v.batches) }
    ensures memory { IfErr result (λ e. e ≡ Memory) }
{
    let mut left = Vec::new(alloc);
    for _ in rt.forever() {
        match queue.pop_as::<TakesBatch, R>(rt, pass) {
            Some(batch) => left.push(batch)?,
            None => return Ok(left),
        }
    }
    unreachable!()
}
