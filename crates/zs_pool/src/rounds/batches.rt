//! Merges the polled batches of one moment in order.
ghost use Rattle.std.specs.Prelude.{◌≡◌, ◌≤◌, map, length, All, IfOk, IfErr};
ghost use Rattle.std.specs.List.{AllZip};
ghost use Rattle.zs_pool.specs.Rounds.{polled_at};
ghost use Rattle.zs_pool.specs.Batches.{IsEachOnce, tasks_of};
ghost use Rattle.zs_pool.specs.Messages.{HasPoll, IsPollAmong, numbers_of};
ghost use Rattle.zs_pool.specs.declared.fault.PoolFault.TheVariants.{Memory};

use crate::batch::Batch;
use crate::fault::PoolFault;
use crate::polled::Polled;
use std::alloc::Global;
use std::mem::drop;
use std::snapshot::Snapshot;
use zs_drive::Task;

// Puts each message into the slot of its number.
fn place_batches(
    alloc: Global,
    now: u64,
    batches: &Snapshot<Vec<Batch>>,
    count: usize,
    messages: Vec<Polled>,
) -> Result<Vec<Option<Polled>>, PoolFault>
    requires count { count ≡ length batches.now.value.items }
    requires each { All (IsPollAmong now batches.now.value.items) messages.items }
    requires whole { IsEachOnce count (numbers_of messages.items) }
    ensures placed { IfOk result (λ v. AllZip (HasPoll now) batches.now.value.items v.items) }
    ensures memory { IfErr result (λ e. e ≡ Memory) }
{
    let mut slots = Vec::new(alloc);
    slots.resize_with(count, || None)?;
    for message in messages {
        let at = message.number as usize;
        drop(slots[at].replace(message));
    }
    Ok(slots)
}

// Returns the tasks of the messages, in the order of the batches.
pub(crate) fn in_order(
    alloc: Global,
    now: u64,
    batches: &Snapshot<Vec<Batch>>,
    count: usize,
    messages: Vec<Polled>,
) -> Result<Vec<Task>, PoolFault>
    requires count { count ≡ length batches.now.value.items }
    requires each { All (IsPollAmong now batches.now.value.items) messages.items }
    requires whole { IsEachOnce count (numbers_of messages.items) }
    ensures tasks { IfOk result (λ v.
        v.items ≡ map (polled_at now) (tasks_of batches.now.value.items)) }
    ensures memory { IfErr result (λ e. e ≡ Memory) }
{
    let slots = place_batches(alloc, now, batches, count, messages)?;
    let mut all = Vec::with_capacity(alloc, count)?;
    for slot in slots {
        let Some(message) = slot else { unreachable!() };
        all.append(&mut message.into_tasks()?)?;
    }
    Ok(all)
}
