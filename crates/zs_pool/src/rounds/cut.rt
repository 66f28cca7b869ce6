//! How the tasks of a round are shared out, and the limits.
ghost use Rattle.std.specs.Prelude.{◌≡◌, ◌≤◌, ◌↔◌, IsSome, IfSome};
ghost use Rattle.zs_pool.specs.Limits.{max_workers, max_tasks};
ghost use Rattle.zs_pool.specs.Batches.{IsCut};

// The greatest number of threads that poll at once.
const MAX_WORKERS: u64 = 64;

/// The greatest number of tasks of a round, and so of tasks in a batch and of batches.
pub const MAX_TASKS: u64 = 10_000;

/// How the tasks of a round are shared out: the number of workers, and of tasks in a batch.
#[derive(Clone, Copy, Debug)]
pub struct Cut {
    workers: u64,
    grain: u64,
    ghost within: { (1 ≤ workers) × (workers ≤ max_workers) × (1 ≤ grain) × (grain ≤ max_tasks) },
}

impl Cut {
    /// Makes a cut of 1 to 64 workers and batches of 1 to 10,000 tasks, or `None` outside these
    /// limits.
    pub fn new(workers: u64, grain: u64) -> Option<Cut>
        ensures some { IsSome result ↔ IsCut workers grain }
        ensures kept { IfSome result (λ c. (c.workers ≡ workers) × (c.grain ≡ grain)) }
    {
        if workers < 1 || workers > MAX_WORKERS || grain < 1 || grain > MAX_TASKS {
            return None;
        }
        Some(Cut { workers, grain })
    }

    /// Returns the greatest number of threads that a round uses.
    pub fn workers(&self) -> u64
        ensures value { result ≡ self.now.workers }
    {
        self.workers
    }

    /// Returns the number of tasks in a batch. The last batch of a round may have fewer.
    pub fn grain(&self) -> u64
        ensures value { result ≡ self.now.grain }
    {
        self.grain
    }
}
