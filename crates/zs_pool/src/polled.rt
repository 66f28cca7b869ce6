//! A batch after its polls.

ghost use Rattle.std.specs.Prelude.{◌≡◌, ◌↔◌, IsTrue, IfOk, IfErr};
ghost use Rattle.zs_pool.specs.Messages.{AllSaw, AreWhole, HasBroken};
ghost use Rattle.zs_pool.specs.declared.fault.PoolFault.TheVariants.{Memory};

use crate::fault::PoolFault;
use std::marker::Model;
use zs_drive::Task;

/// A batch that was polled: each of its tasks has seen `now`, and was polled then or is broken.
#[derive(Drop)]
pub struct Polled {
    /// The number of the batch.
    pub number: u64,
    /// The moment of the polls, in milliseconds.
    pub now: u64,
    /// The tasks, in the order of the batch.
    pub tasks: Vec<Task>,
}

impl Model for Polled {
    ghost use Rattle.zs_pool.specs.Messages.{PolledValue, AllSaw};
    ghost use Rattle.zs_term.specs.ScheduleCode.{schedule_code};
    ghost use Rattle.std.specs.Coded.{codes};

    ghost Value = { PolledValue };

    ghost coded = { Prim.hlevel (codes, schedule_code) };

    ghost view = { λ p. record { number = p.number; now = p.now; tasks = p.tasks.items } };

    ghost invariant = { λ p. AllSaw p.now p.tasks.items };
}

impl Polled {
    /// Whether the poll of a task ran out of memory, and broke the task.
    pub fn broken(&self) -> bool
        ensures value { IsTrue result ↔ HasBroken self.entry.now.tasks }
        // Each task has seen the moment, and was polled then or is broken.
        ensures saw { AllSaw self.entry.now.now self.entry.now.tasks }
    {
        self.tasks.iter().any(|task| task.broken())
    }

    // Returns the tasks, or `Memory` if one is broken.
    pub(crate) fn into_tasks(self) -> Result<Vec<Task>, PoolFault>
        ensures tasks { IfOk result (λ v. AreWhole self.tasks v.items) }
        ensures memory { IfErr result (λ e. e ≡ Memory) }
    {
        if self.broken() {
            return Err(PoolFault::Memory);
        }
        Ok(self.tasks)
    }
}
