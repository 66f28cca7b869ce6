//! Some due tasks, which one worker polls.

use std::marker::Model;
use zs_drive::Task;

/// Tasks that one worker polls, in order. A batch may be empty.
#[derive(Drop)]
pub struct Batch {
    /// The place of the batch among those of its round, from 0.
    pub number: u64,
    /// The tasks, in the order of their polls.
    pub tasks: Vec<Task>,
}

impl Model for Batch {
    ghost use Rattle.zs_pool.specs.Batches.{BatchValue};
    ghost use Rattle.zs_term.specs.ScheduleCode.{schedule_code};
    ghost use Rattle.std.specs.Coded.{codes};

    ghost Value = { BatchValue };

    ghost coded = { Prim.hlevel (codes, schedule_code) };

    ghost view = { λ b. record { number = b.number; tasks = b.tasks.items } };
}
