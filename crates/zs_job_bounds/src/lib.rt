//! What the bounds of a schedule say about the jobs that have this schedule.
//!
//! Every history of a job's timeline is one that a driver can make. So what `zs_bounds::bounds`
//! promises holds for the job, on every clock and for every script. On a coarse clock the driver is
//! late by as much as ticks are apart. There is nothing to call: the functions are laws, and their
//! contracts are what they say.
//!
//! Begin with `specs/JobBounds.antt`.
#![tactic(auto)]

mod laws;

pub use laws::{
    histories_are_driven, jobs_are_within_bounds, jobs_end_in_time, plans_are_within_bounds,
    plans_end_in_time,
};
