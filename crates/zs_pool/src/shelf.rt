//! A bounded queue of polled batches.
//!
//! Atomic steps, each under the rule of the queue (`shelf/rule.rt`): `put` pushes, `take` pops,
//! `split` splits a handle, `join` joins two, and `close` pops until the queue is empty.

ghost use Rattle.std.specs.Prelude.{◌≡◌, ◌∷◌, [], ◌++◌, ◌≤◌, IsOk, IfOk, IfErr, OnOk, IfSome, IfNone, IsPermutation};
ghost use Rattle.crossbeam_queue.specs.Passes.{view, IsPassOf};
ghost use Rattle.zs_term.specs.Saturating.{max_moment};
ghost use Rattle.zs_pool.specs.declared.fault.PoolFault.TheVariants.{Memory, Full};
ghost use Rattle.zs_pool.specs.Limits.{max_tasks};
ghost use Rattle.zs_pool.specs.Shelf.{shelver, split_shelver, joined_shelver, FillsShelf};

mod rule;

use crate::fault::PoolFault;
use crate::polled::Polled;
use crate::shelf::rule::{EachOnce, HandSharing, Hands, Puts, Takes};
use crossbeam_queue::{Pass, RuledArrayQueue};
use std::alloc::Global;
use std::marker::Model;
use std::sync::Wait;

type PolledQueue = RuledArrayQueue<Polled, Hands<Polled>, EachOnce>;

type PolledQueuePass = Pass<Polled, Hands<Polled>>;

/// A bounded queue of polled batches. Contracts know its identity.
#[derive(Drop)]
pub struct Shelf {
    queue: PolledQueue,
}

impl Model for Shelf {
    ghost use Rattle.atomic_table.specs.Seated.{TableId};

    ghost Value = { TableId };

    ghost view = { λ s. s.queue.table.shared.table_id };
}

/// One thread's handle of a shelf: the right to put and to take.
#[derive(Drop)]
pub struct ShelfPass {
    queue: PolledQueuePass,
}

impl Model for ShelfPass {
    ghost use Rattle.std.specs.Prelude.{◌≡◌, ◌<◌, []};
    ghost use Rattle.zs_pool.specs.Shelf.{Shelver, shelver};
    ghost use Rattle.zs_term.specs.ScheduleCode.{schedule_code};
    ghost use Rattle.std.specs.Coded.{codes};

    ghost Value = { Shelver };

    ghost coded = { Prim.hlevel (codes, schedule_code) };

    ghost view = { λ p.
        let v = p.queue.me.0.client in
        shelver p.queue.table_id v.share v.put v.taken };

    ghost invariant = { λ p. (p.queue.me.1 ≡ []) × (0 < p.queue.me.0.client.share) };
}

impl Shelf {
    /// Makes a shelf for 1 to 10,000 batches, and its first pass. Fails only with `Memory`.
    pub fn new<R>(_rt: &R, alloc: Global, capacity: u64) -> Result<(Shelf, ShelfPass), PoolFault>
        requires capacity { (1 ≤ capacity) × (capacity ≤ max_tasks) }
        ensures ok { IfOk result (λ r. r.1 ≡ shelver r.0 max_moment [] []) }
        ensures room { IfOk result (λ r. r.0.slots ≡ capacity) }
        ensures memory { IfErr result (λ e. e ≡ Memory) }
    {
        let (queue, pass) = PolledQueue::ruled(alloc, capacity as usize)?;
        Ok((Shelf { queue }, ShelfPass { queue: pass }))
    }

    /// Appends a polled batch. If the shelf is full, it returns the batch with `Full`.
    pub fn put<R: Wait>(
        &self,
        rt: &R,
        pass: &mut ShelfPass,
        message: Polled,
    ) -> Result<(), (Polled, PoolFault)>
        requires shelf { pass.old.shelf ≡ self.now }
        ensures ok { OnOk result (pass.new
            ≡ shelver self.now pass.old.share (pass.old.put ++ message ∷ []) pass.old.taken) }
        ensures full { IfErr result (λ e. (e.0 ≡ message) × (e.1 ≡ Full) × (pass.new ≡ pass.old)) }

        // With exclusive access, the shelf is full only if `capacity` batches are queued.
        ensures no_room { IfErr result (λ _.
            pass.old.share ≡ max_moment → FillsShelf self.now pass.old) }
    {
        let Err(message) = self.queue.push_as::<Puts, R>(rt, &mut pass.queue, message) else {
            return Ok(());
        };
        Err((message, PoolFault::Full))
    }

    /// Takes the front batch, or returns `None` if the shelf was empty.
    pub fn take<R: Wait>(&self, rt: &R, pass: &mut ShelfPass) -> Option<Polled>
        requires shelf { pass.old.shelf ≡ self.now }
        ensures taken { IfSome result (λ p.
            pass.new ≡ shelver self.now pass.old.share pass.old.put (pass.old.taken ++ p ∷ [])) }
        ensures none { IfNone result (pass.new ≡ pass.old) }

        // With exclusive access, it is empty only if the pass took everything that it put.
        ensures empty { IfNone result
            (pass.old.share ≡ max_moment → IsPermutation pass.old.put pass.old.taken) }
    {
        self.queue.pop_as::<Takes, R>(rt, &mut pass.queue)
    }

    /// Splits off a pass with a share of 1. The first pass retains what it put and took.
    pub fn split<R>(
        &self,
        _rt: &R,
        _alloc: Global,
        mut pass: ShelfPass,
    ) -> Result<(ShelfPass, ShelfPass), (ShelfPass, PoolFault)>
        requires shelf { pass.shelf ≡ self.now }
        requires share { 2 ≤ pass.share }
        ensures first { IfOk result (λ r. r.0 ≡ split_shelver self.now pass) }
        ensures second { IfOk result (λ r. r.1 ≡ shelver self.now 1 [] []) }
        ensures memory { IfErr result (λ e. (e.0 ≡ pass) × (e.1 ≡ Memory)) }

        // `new` has allocated the room, so this allocates nothing.
        ensures succeeds { IsOk result }
    {
        let queue = self.queue.another::<HandSharing>(&mut pass.queue);
        Ok((pass, ShelfPass { queue }))
    }

    /// Joins two passes into one, which put and took what both did. Their shares are added.
    pub fn join<R>(&self, _rt: &R, mut pass: ShelfPass, other: ShelfPass) -> ShelfPass
        requires pass { pass.shelf ≡ self.now }
        requires other { other.shelf ≡ self.now }
        ensures joined { result ≡ joined_shelver self.now pass other }
    {
        let ShelfPass { queue } = other;
        self.queue.absorb::<HandSharing>(&mut pass.queue, queue);
        pass
    }

    /// Returns the batches that were not taken, front first. If it runs out of memory, it drops
    /// them.
    pub fn close<R: Wait>(
        self,
        rt: &R,
        alloc: Global,
        mut pass: ShelfPass,
    ) -> Result<Vec<Polled>, PoolFault>
        requires shelf { pass.shelf ≡ self }
        requires whole { pass.share ≡ max_moment }
        // What all passes took, with what remains, is a rearrangement of what was put.
        ensures left { IfOk result (λ left. IsPermutation pass.put (pass.taken ++ left.items)) }
        ensures memory { IfErr result (λ e. e ≡ Memory) }
    {
        drain(rt, alloc, &self.queue, &mut pass.queue)
    }
}

// Pops until the queue is empty.
fn drain<R: Wait>(
    rt: &R,
    alloc: Global,
    queue: &PolledQueue,
    pass: &mut PolledQueuePass,
) -> Result<Vec<Polled>, PoolFault>
    requires pass { IsPassOf queue.now pass.old }
    requires whole { (view pass.old).share ≡ max_moment }
    ensures left { let v = view pass.old in IfOk result (λ left.
        IsPermutation v.put (v.taken ++ left.items)) }
    ensures memory { IfErr result (λ e. e ≡ Memory) }
{
    let mut left = Vec::new(alloc);
    for _ in rt.forever() {
        match queue.pop_as::<Takes, R>(rt, pass) {
            Some(message) => left.push(message)?,
            None => return Ok(left),
        }
    }
    unreachable!()
}
