//! Polls batches on several threads.
ghost use Rattle.std.specs.Prelude.{◌≡◌, ◌≢◌, ◌+◌, ◌≤◌, All, IfOk, IfErr, length};
ghost use Rattle.zs_pool.specs.Limits.{max_workers, max_tasks};
ghost use Rattle.zs_pool.specs.Batches.{AllPollable, AreNumbered, IsEachOnce, tasks_in};
ghost use Rattle.zs_pool.specs.Messages.{IsPollAmong, numbers_of};
ghost use Rattle.zs_pool.specs.Shares.{HasCounted, IsFirst, rooms, sharing};
ghost use Rattle.zs_pool.specs.Joined.{IsWhole};
ghost use Rattle.zs_pool.specs.declared.fault.PoolFault.TheVariants.{Full};

use crate::batch::Batch;
use crate::board::Board;
use crate::fault::PoolFault;
use crate::gate::Gate;
use crate::polled::Polled;
use crate::rounds::shared::{Rights, Shared};
use crate::rounds::workers::Served;
use crate::shelf::Shelf;
use crate::tally::{Tally, TallySeat};
use std::alloc::Global;
use std::sync::Wait;
use std::thread;
use std::thread::{Scope, Threads};

// The result of a round whose helpers are joined, and the messages that were taken from the shelf
// before that.
#[derive(Drop)]
struct Gathered {
    served: Served,
    messages: Vec<Polled>,
}

impl<'s, G: Gate> Shared<'s, G> {
    // Starts the helpers, works beside them, collects what they hand in, and joins them.
    fn run<E, R: Threads + Wait + Sync>(
        self,
        rt: &'s R,
        scope: &Scope<'s, E>,
        alloc: Global,
        helpers: usize,
        rights: Rights,
    ) -> Result<Gathered, PoolFault>
        requires first { IsFirst self helpers rights }
        ensures whole { IfOk result (λ c.
            IsWhole self.entry.moment rights c.served.rights c.served.overflow c.messages.items) }
        ensures fault { IfErr result (λ e. e ≢ Full) }
    {
        let mut messages = Vec::with_capacity(alloc, self.batches)?;
        let (rights, workers) = self.start_all(rt, scope, alloc, helpers, rights)?;
        let mut served = self.serve(rt, alloc, rights);
        self.collect(rt, &mut served.rights.shelf_pass, &mut messages);
        let served = self.join_all(rt, served, workers);
        Ok(Gathered { served, messages })
    }
}

// Runs in a scope, at whose end every started thread has ended.
fn run_scoped<G: Gate, R: Threads + Wait + Sync>(
    rt: &R,
    alloc: Global,
    shared: Shared<'_, G>,
    helpers: usize,
    rights: Rights,
) -> Result<Gathered, PoolFault>
    requires first { IsFirst shared helpers rights }
    ensures whole { IfOk result (λ c.
        IsWhole shared.entry.moment rights c.served.rights c.served.overflow c.messages.items) }
    ensures fault { IfErr result (λ e. e ≢ Full) }
{
    let moment = shared.moment;
    thread::scope(
        thread::scope_env(),
        rt,
        move |scope| -> Result<Gathered, PoolFault>
            requires first { IsFirst (sharing shared.gate shared.board shared.shelf shared.tally
                moment shared.tasks shared.batches) helpers rights }
            ensures whole { IfOk result (λ c.
                IsWhole moment rights c.served.rights c.served.overflow c.messages.items) }
            ensures fault { IfErr result (λ e. e ≢ Full) }
        { Shared { moment, ..shared }.run(rt, scope, alloc, helpers, rights) },
    )
}

// The batches, the number of their tasks, and the number of threads that help: each has a batch.
#[derive(Drop)]
pub(crate) struct Work {
    pub(crate) batches: Vec<Batch>,
    pub(crate) tasks: u64,
    pub(crate) helpers: usize,
}

// Polls the batches on the calling thread and its helpers, each of which claims until the board is
// empty.
pub(crate) fn poll_shared<'s, G: Gate, R: Threads + Wait + Sync>(
    rt: &R,
    alloc: Global,
    gate: &'s G,
    tally: &'s Tally,
    seat: &mut TallySeat,
    now: u64,
    work: Work,
) -> Result<Vec<Polled>, PoolFault>
    requires tally { seat.old.tally ≡ tally.now }
    requires room { work.tasks + rooms work.helpers work.tasks ≤ seat.old.allowance }
    requires tasks { tasks_in work.batches.items ≤ work.tasks }
    requires helpers { work.helpers ≤ max_workers }
    requires few { work.helpers + 1 ≤ length work.batches.items }
    requires size { (1 ≤ length work.batches.items) × (length work.batches.items ≤ max_tasks) }
    requires numbered { AreNumbered work.batches.items }
    requires pollable { AllPollable now work.batches.items }
    ensures each { IfOk result (λ v. All (IsPollAmong now work.batches.items) v.items) }
    ensures whole { IfOk result (λ v. IsEachOnce (length work.batches.items) (numbers_of v.items)) }
    ensures counted { IfOk result (λ _. HasCounted seat.old (tasks_in work.batches.items) seat.new) }
    ensures fault { IfErr result (λ e. e ≢ Full) }
{
    let size = work.batches.len();
    let (board, board_pass) = Board::new(rt, alloc, work.batches)?;
    let (shelf, shelf_pass) = Shelf::new(rt, alloc, size as u64)?;
    let all = Tally::left(seat);
    let rights = Rights {
        board_pass,
        shelf_pass,
        seat: tally.split_off(seat, all),
    };
    let shared = Shared {
        gate,
        board: &board,
        shelf: &shelf,
        tally,
        moment: now,
        tasks: work.tasks,
        batches: size,
    };
    let collected = run_scoped(rt, alloc, shared, work.helpers, rights)?;
    let Served { rights, overflow } = collected.served;
    let (mut messages, mut kept) = (collected.messages, overflow?);
    tally.absorb(seat, rights.seat);
    board.close(rt, alloc, rights.board_pass)?;
    let mut left = shelf.close(rt, alloc, rights.shelf_pass)?;
    messages.append(&mut left)?;
    messages.append(&mut kept)?;
    Ok(messages)
}
