//! One moment's due tasks, shared among workers.
ghost use Rattle.std.specs.Prelude.{◌≡◌, ◌≢◌, ◌+◌, ◌*◌, ◌≤◌, All, IfOk, IfErr, OnOk, map, length};
ghost use Rattle.std.specs.List.Sorted.{IsStrictlyIncreasing};
ghost use Rattle.zs_pool.specs.Batches.{AreCut, AreNumbered, tasks_of};
ghost use Rattle.zs_pool.specs.Limits.{max_tasks};
ghost use Rattle.zs_pool.specs.Rounds.{polled_at, IsPollable};
ghost use Rattle.zs_pool.specs.declared.fault.PoolFault.TheVariants.{Full, Memory};

mod batches;
pub(crate) mod cut;
mod shared;
mod sharing;
mod workers;

use crate::batch::Batch;
use crate::fault::PoolFault;
use crate::gate::Gate;
use crate::poller::{Poller, Polling};
use crate::polling::poll_in;
use crate::rounds::batches::in_order;
use crate::rounds::cut::Cut;
use crate::rounds::sharing::{Work, poll_shared};
use crate::tally::{Tally, TallySeat};
use std::alloc::Global;
use std::snapshot::Snapshot;
use std::sync::Wait;
use std::thread::Threads;
use zs_drive::Task;

// Cuts the tasks into batches of `grain`, from the last on. The last batch may be shorter.
fn cut_into(alloc: Global, grain: u64, mut tasks: Vec<Task>) -> Result<Vec<Batch>, PoolFault>
    requires grain { 1 ≤ grain }
    ensures numbered { IfOk result (λ v. AreNumbered v.items) }
    ensures cutting { IfOk result (λ v. tasks_of v.items ≡ tasks.items) }
    ensures cut { IfOk result (λ v. AreCut grain v.items) }
    ensures memory { IfErr result (λ e. e ≡ Memory) }
{
    let count = (tasks.len() as u64).div_ceil(grain);
    let mut batches = Vec::with_capacity(alloc, count as usize)?;
    for number in (0..count).rev() {
        let own = tasks.split_off((number * grain) as usize)?;
        batches.push(Batch { number, tasks: own })?;
    }
    batches.reverse();
    Ok(batches)
}

/// Like `round`, under a gate and a context that serve several rounds.
pub fn round_in<G: Gate, R: Threads + Wait + Sync>(
    rt: &R,
    cut: Cut,
    polling: &mut Polling<'_, G>,
    tally: &Tally,
    seat: &mut TallySeat,
    now: u64,
    tasks: Vec<Task>,
) -> Result<Vec<Task>, PoolFault>
    requires few { length tasks.items ≤ max_tasks }
    requires rising { IsStrictlyIncreasing (map (λ task. task.number) tasks.items) }
    requires pollable { All (IsPollable now) tasks.items }
    requires tally { seat.old.tally ≡ tally.now }
    // Each worker may have to count all tasks.
    requires allowance { cut.workers * length tasks.items ≤ seat.old.allowance }
    // The same tasks in order, none of them broken.
    ensures tasks { IfOk result (λ after. after.items ≡ map (polled_at now) tasks.items) }
    ensures tally { OnOk result (seat.new.tally ≡ tally.now) }
    // Each poll was counted once.
    ensures count { OnOk result (seat.new.count ≡ seat.old.count + length tasks.items) }
    ensures allowance { OnOk result (seat.new.allowance + length tasks.items ≡ seat.old.allowance) }
    // `Memory` or `NoThread`.
    ensures fault { IfErr result (λ e. e ≢ Full) }
{
    let due = tasks.len() as u64;
    // One worker has the whole round, so nothing is shared.
    if cut.workers() == 1 || due <= cut.grain() {
        let all = Batch { number: 0, tasks };
        return poll_in(polling, tally, seat, now, all).into_tasks();
    }
    let alloc = polling.alloc;
    let batches = cut_into(alloc, cut.grain(), tasks)?;
    let size = batches.len();
    let known = Snapshot::of(&batches);
    let work = Work {
        batches,
        tasks: due,
        helpers: size.min(cut.workers() as usize) - 1,
    };
    let messages = poll_shared(rt, alloc, polling.gate, tally, seat, now, work)?;
    in_order(alloc, now, &known, size, messages)
}

/// Polls each task once at `now`, in milliseconds, and counts it. Each worker claims batches of
/// `grain` tasks until the board is empty.
///
/// The calling thread is one of the workers; the others are threads that are started for the round.
/// With one worker or one batch no thread is started. Every thread has ended when `round` returns.
/// If `round` fails, it drops the tasks, and promises nothing about the seat.
pub fn round<G: Gate, R: Threads + Wait + Sync>(
    rt: &R,
    alloc: Global,
    cut: Cut,
    gate: &G,
    tally: &Tally,
    seat: &mut TallySeat,
    now: u64,
    tasks: Vec<Task>,
) -> Result<Vec<Task>, PoolFault>
    requires few { length tasks.items ≤ max_tasks }
    requires rising { IsStrictlyIncreasing (map (λ task. task.number) tasks.items) }
    requires pollable { All (IsPollable now) tasks.items }
    requires tally { seat.old.tally ≡ tally.now }
    // Each worker may have to count all tasks.
    requires allowance { cut.workers * length tasks.items ≤ seat.old.allowance }
    // The same tasks in order, none of them broken.
    ensures tasks { IfOk result (λ after. after.items ≡ map (polled_at now) tasks.items) }
    ensures tally { OnOk result (seat.new.tally ≡ tally.now) }
    // Each poll was counted once.
    ensures count { OnOk result (seat.new.count ≡ seat.old.count + length tasks.items) }
    ensures allowance { OnOk result (seat.new.allowance + length tasks.items ≡ seat.old.allowance) }
    // `Memory` or `NoThread`.
    ensures fault { IfErr result (λ e. e ≢ Full) }
{
    let poller = Poller::new(alloc)?;
    let mut polling = poller.begin(gate);
    round_in(rt, cut, &mut polling, tally, seat, now, tasks)
}
