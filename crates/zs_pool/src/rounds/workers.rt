//! What each thread of a round does: it claims, polls and puts. The calling thread also starts the
//! helpers, takes what they put, and joins them.
ghost use Rattle.std.specs.Prelude.{◌≡◌, ◌≢◌, ◌-◌, ◌≤◌, All, IfOk, IfErr, [], length};
ghost use Rattle.std.specs.Vec.{vec_capacity};
ghost use Rattle.zs_term.specs.Saturating.{max_moment};
ghost use Rattle.zs_pool.specs.Board.{fresh_claimer};
ghost use Rattle.zs_pool.specs.Shelf.{shelver};
ghost use Rattle.zs_pool.specs.Shares.{IsOf, IsReady, IsFirst, IsSame, HasServed, HasLent, sharing, rooms};
ghost use Rattle.zs_pool.specs.Joined.{Promised, AreBoth, HaveGrown, IsPartOfAll, allowed};
ghost use Rattle.zs_pool.specs.declared.fault.PoolFault.TheVariants.{Full, Memory, NoThread};

use crate::fault::PoolFault;
use crate::gate::Gate;
use crate::polled::Polled;
use crate::poller::Poller;
use crate::polling::poll_in;
use crate::rounds::shared::{Rights, Shared};
use crate::shelf::ShelfPass;
use std::alloc::{AllocError, Global};
use std::snapshot::Snapshot;
use std::sync::Wait;
use std::thread;
use std::thread::{Promise, PromisedHandle, Scope, Threads};

// How often the calling thread may find the shelf empty before it waits for the helpers.
const TRIES: u64 = 1000;

// The messages for which the shelf had no room.
pub(crate) type Overflow = Result<Vec<Polled>, AllocError>;

// What a thread returns once the board is empty.
#[derive(Drop)]
pub(crate) struct Served {
    pub(crate) rights: Rights,
    pub(crate) overflow: Overflow,
}

// What a worker promises: it claimed until the board was empty, and each batch that it claimed is
// polled, and was put on the shelf or is returned.
#[derive(Drop)]
pub(crate) struct WorkerPromise {
    pub(crate) moment: u64,
    pub(crate) rights: Snapshot<Rights>,
}

impl Promise<Served> for WorkerPromise {
    ghost use Rattle.zs_pool.specs.Shares.{IsSame, HasServed};

    ghost kept_by = { λ p s.
        IsSame p.rights.value s.rights × HasServed p.moment p.rights.value s.rights s.overflow };
}

// A started worker.
pub(crate) type Worker = PromisedHandle<Served, WorkerPromise>;

// Adds what one more worker returned to what the others did.
fn both(overflow: Overflow, more: Overflow) -> Overflow
    ensures both { IfOk result (AreBoth overflow more) }
{
    let mut kept = overflow?;
    kept.append(&mut more?)?;
    Ok(kept)
}

// Waits for the workers, up to one that ran out of memory: the scope waits for the others.
fn wait_for<R: Threads>(rt: &R, workers: Vec<Worker>) -> Result<(), PoolFault>
    ensures fault { IfErr result (λ e. e ≡ Memory) }
{
    for worker in workers {
        worker.join(rt).overflow?;
    }
    Ok(())
}

impl<'s, G: Gate> Shared<'s, G> {
    // Claims, polls and puts until the board is empty.
    fn serve_in<R: Wait>(self, rt: &R, alloc: Global, rights: &mut Rights) -> Overflow
        requires ready { IsReady self rights.old }
        ensures same { IsSame rights.old rights.new }
        ensures served { HasServed self.entry.moment rights.old rights.new result }
    {
        let Ok(poller) = Poller::new(alloc) else {
            return Err(AllocError);
        };
        let mut polls = poller.begin(self.gate);
        let mut kept = Vec::new(alloc);
        for _ in rt.forever() {
            let Some(batch) = self.board.claim(rt, &mut rights.board_pass) else {
                return Ok(kept);
            };
            let message = poll_in(&mut polls, self.tally, &mut rights.seat, self.moment, batch);
            if let Err((back, _full)) = self.shelf.put(rt, &mut rights.shelf_pass, message) {
                kept.push(back)?;
            }
        }
        unreachable!()
    }

    // Claims, polls and puts until the board is empty. A message for which the shelf has no room is
    // returned.
    pub(crate) fn serve<R: Wait>(self, rt: &R, alloc: Global, mut rights: Rights) -> Served
        requires ready { IsReady self rights }
        ensures same { IsSame rights result.rights }
        ensures served { HasServed self.entry.moment rights result.rights result.overflow }
    {
        let overflow = self.serve_in(rt, alloc, &mut rights);
        Served { rights, overflow }
    }

    // Starts one worker.
    fn start<E, R: Wait + Sync>(
        self,
        rt: &'s R,
        scope: &Scope<'s, E>,
        alloc: Global,
        rights: Rights,
    ) -> Result<Worker, PoolFault>
        requires ready { IsReady self rights }
        ensures started { IfOk result (λ w.
            (w.promise.moment ≡ self.entry.moment) × (w.promise.rights.value ≡ rights)) }
        ensures fault { IfErr result (λ e. e ≡ NoThread) }
    {
        let promise = WorkerPromise {
            moment: self.moment,
            rights: Snapshot::of(&rights),
        };
        let shared = self;
        let moment = self.moment;
        let run = move || -> Served
            requires ready { IsReady (sharing shared.gate shared.board shared.shelf shared.tally
                moment shared.tasks shared.batches) rights }
            ensures served { IsSame rights result.rights
                × HasServed moment rights result.rights result.overflow }
        { Shared { moment, ..shared }.serve(rt, alloc, rights) };
        Ok(scope.spawn_with(promise, run)?)
    }

    // Starts this number of workers. If one can't be started, it waits for the others.
    pub(crate) fn start_all<E, R: Threads + Wait + Sync>(
        self,
        rt: &'s R,
        scope: &Scope<'s, E>,
        alloc: Global,
        count: usize,
        mut rights: Rights,
    ) -> Result<(Rights, Vec<Worker>), PoolFault>
        requires first { IsFirst self count rights }
        ensures board_pass { IfOk result (λ s. s.0.board_pass
            ≡ fresh_claimer self.entry.board.now (max_moment - count) rights.board_pass.batches) }
        ensures shelf_pass { IfOk result (λ s.
            s.0.shelf_pass ≡ shelver self.entry.shelf.now (max_moment - count) [] []) }
        ensures seat { IfOk result (λ s.
            HasLent self.entry.tally.now rights.seat (rooms count self.entry.tasks) s.0.seat) }
        ensures count { IfOk result (λ s.
            (length s.1.items ≡ count) × (allowed s.1.items ≡ rooms count self.entry.tasks)) }
        ensures each { IfOk result (λ s.
            All (Promised self.entry rights.board_pass.batches) s.1.items) }
        ensures fault { IfErr result (λ e. e ≢ Full) }
    {
        let mut workers = Vec::with_capacity(alloc, count)?;
        for _i in 0..count {
            let (rest, own) = self.split(rt, alloc, rights);
            rights = rest;
            match self.start(rt, scope, alloc, own) {
                Ok(worker) => workers.push(worker)?,
                Err(refused) => {
                    wait_for(rt, workers)?;
                    return Err(refused);
                }
            }
        }
        Ok((rights, workers))
    }

    // Takes messages from the shelf while the helpers work, until all are there or `TRIES` tries
    // found it empty.
    pub(crate) fn collect<R: Wait>(self, rt: &R, pass: &mut ShelfPass, messages: &mut Vec<Polled>)
        requires shelf { pass.old.shelf ≡ self.shelf.now }
        requires messages { pass.old.taken ≡ messages.old.items }
        requires room { (length messages.old.items ≤ self.batches)
            × (self.batches ≤ vec_capacity messages.old) }
        ensures pass { (pass.new.shelf ≡ self.entry.shelf.now) × (pass.new.share ≡ pass.old.share)
            × (pass.new.put ≡ pass.old.put) }
        ensures messages { pass.new.taken ≡ messages.new.items }
    {
        let mut empty = 0;
        while empty < TRIES && messages.len() < self.batches {
            let Some(message) = self.shelf.take(rt, pass) else {
                empty += 1;
                thread::yield_now();
                continue;
            };
            let Ok(()) = messages.push(message) else {
                unreachable!()
            };
        }
    }

    // Joins all workers and their rights.
    pub(crate) fn join_all<R: Threads>(
        self,
        rt: &R,
        mut served: Served,
        workers: Vec<Worker>,
    ) -> Served
        requires of { IsOf self served.rights }
        requires each { All (Promised self served.rights.board_pass.batches) workers.items }
        ensures of { IsOf self.entry result.rights }
        ensures batches { result.rights.board_pass.batches ≡ served.rights.board_pass.batches }
        ensures shares { HaveGrown served.rights (length workers.items) result.rights }
        ensures taken { result.rights.shelf_pass.taken ≡ served.rights.shelf_pass.taken }
        ensures part { IsPartOfAll self.entry.moment (allowed workers.items) served result }
    {
        for worker in workers {
            let more = worker.join(rt);
            served.rights = self.join(rt, served.rights, more.rights);
            served.overflow = both(served.overflow, more.overflow);
        }
        served
    }
}
