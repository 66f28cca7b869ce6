//! A job: an effect, its schedule, and when it starts.
use zs_effect::Script;
use zs_term::Checked;

/// What ends a job besides its schedule.
#[derive(Clone, Copy, Debug, PartialEq, Eq)]
pub enum Mode {
    /// Runs until a success, as ZIO's `retry` does. The schedule's inputs are the error codes.
    Retry,
    /// Runs until a failure, as ZIO's `repeat` does. The schedule's inputs are the values.
    Repeat,
}

/// An effect with the schedule that decides when it runs again.
#[derive(Drop)]
pub struct Job {
    /// The name, for reports.
    pub name: String,
    /// What ends it besides its schedule.
    pub mode: Mode,
    /// Decides after each attempt when the next one begins, if any.
    pub schedule: Checked,
    /// The earliest moment at which the first attempt may begin, in milliseconds.
    pub start: u64,
    /// What its attempts do.
    pub script: Script,
}
