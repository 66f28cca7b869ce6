//! The result of a run.

use zs_drive::Task;

/// The result of a run of jobs.
#[derive(Drop)]
pub struct Answer {
    /// The tasks at the horizon, in the order of their jobs.
    pub tasks: Vec<Task>,
    /// The number of due polls, over all jobs.
    pub polls: u64,
    /// The last tick of the clock, in milliseconds.
    pub horizon: u64,
}
