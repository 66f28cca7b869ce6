//! A plan: what to run, and how.
use zs_agenda::Clock;
use zs_drive::Job;
use zs_pool::Cut;

/// A plan: jobs, the clock that they run on, and how their polls are shared out.
#[derive(Drop)]
pub struct Plan {
    /// The moments at which something can happen.
    pub clock: Clock,
    /// The number of workers, and of tasks in a batch.
    pub cut: Cut,
    /// The jobs. No two have the same name.
    pub jobs: Vec<Job>,
}
