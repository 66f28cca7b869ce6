//! Polls batches, and counts each poll.
ghost use Rattle.std.specs.Prelude.{◌≡◌, ◌+◌, ◌≤◌, All, IfOk, IfErr, OnOk, OnErr, length};
ghost use Rattle.std.specs.List.{AllZip};
ghost use Rattle.zs_pool.specs.Rounds.{IsPollable, IsPolled};
ghost use Rattle.zs_pool.specs.Messages.{AllSaw, IsPollOf};
ghost use Rattle.zs_pool.specs.Shares.{HasCounted};
ghost use Rattle.zs_pool.specs.declared.fault.PoolFault.TheVariants.{Memory};

use crate::batch::Batch;
use crate::fault::PoolFault;
use crate::gate::Gate;
use crate::polled::Polled;
use crate::poller::{Poller, Polling, poll_one};
use crate::tally::{Tally, TallySeat};
use std::alloc::Global;
use zs_drive::Task;

// Polls each task in order.
fn poll_each<G: Gate>(
    polling: &mut Polling<'_, G>,
    tally: &Tally,
    seat: &mut TallySeat,
    now: u64,
    tasks: &mut [Task],
)
    requires tally { seat.old.tally ≡ tally.now }
    requires allowance { length tasks.old ≤ seat.old.allowance }
    requires pollable { All (IsPollable now) tasks.old }
    ensures counted { HasCounted seat.old (length tasks.old) seat.new }
    ensures polled { AllZip (IsPolled now) tasks.old tasks.new }
    ensures saw { AllSaw now tasks.new }
{
    for place in 0..tasks.len() {
        poll_one(polling, tally, seat, now, &mut tasks[place]);
    }
}

// Polls each task of the batch in order.
pub(crate) fn poll_in<G: Gate>(
    polling: &mut Polling<'_, G>,
    tally: &Tally,
    seat: &mut TallySeat,
    now: u64,
    batch: Batch,
) -> Polled
    requires tally { seat.old.tally ≡ tally.now }
    requires allowance { length batch.tasks ≤ seat.old.allowance }
    requires pollable { All (IsPollable now) batch.tasks }
    ensures counted { HasCounted seat.old (length batch.tasks) seat.new }
    ensures polled { IsPollOf now batch result }
{
    let Batch { number, mut tasks } = batch;
    poll_each(polling, tally, seat, now, tasks.as_mut_slice());
    Polled { number, now, tasks }
}

/// Polls each task of the batch once, in order, and counts it. After `Memory` nothing was polled,
/// and the batch is dropped.
pub fn poll_batch<G: Gate, R>(
    _rt: &R,
    alloc: Global,
    gate: &G,
    tally: &Tally,
    seat: &mut TallySeat,
    now: u64,
    batch: Batch,
) -> Result<Polled, PoolFault>
    requires tally { seat.old.tally ≡ tally.now }
    requires allowance { length batch.tasks ≤ seat.old.allowance }
    requires pollable { All (IsPollable now) batch.tasks }
    ensures polled { IfOk result (IsPollOf now batch) }
    ensures counted { OnOk result (HasCounted seat.old (length batch.tasks) seat.new) }
    ensures kept { OnErr result (seat.new ≡ seat.old) }
    ensures memory { IfErr result (λ e. e ≡ Memory) }
{
    let poller = Poller::new(alloc)?;
    let mut polling = poller.begin(gate);
    Ok(poll_in(&mut polling, tally, seat, now, batch))
}
