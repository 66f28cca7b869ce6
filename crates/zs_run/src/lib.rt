//! Jobs from the bytes of a plan to the bytes of their report.
//!
//! At success the bytes that `run` writes are `report_of` the plan that was read
//! (`specs/PlanReport.antt`): each job has there what its schedule alone gives, for any number of
//! workers, batches and gate. Each error says what was read and what was written. Begin with
//! `specs/Plan.antt`, `specs/Report.antt` and the contract of `run`.
//!
//! ```rust
//! let mut reader = Marked::new(bytes);
//! let mut writer = Marked::new(&mut text);
//! run(&rt, rt.alloc(), &OpenGate, &mut reader, &mut writer)?;
//! ```
#![tactic(auto)]

mod attempt_lines;
mod entry;
mod head;
mod job_reading;
mod laws;
mod marked;
mod names;
mod plan;
mod plan_fault;
mod reading;
mod reporting;
mod run_fault;
mod running;
mod shapes;
mod streams;
mod transfer;
mod tree;

pub use head::{Head, read_head};
pub use job_reading::{add_job, read_job};
pub use laws::{
    accepted_plans_are_lawful, no_default_is_told, reports_join, reports_tell_apart,
    the_cut_changes_nothing,
};
pub use marked::Marked;
pub use plan::Plan;
pub use plan_fault::PlanFault;
pub use reading::read_plan;
pub use reporting::{append_jobs, append_total, report};
pub use run_fault::{RunFault, exit_code, status};
pub use running::run;
pub use streams::{Drain, Failed, Source};
pub use transfer::write_all;
pub use tree::MAX_BYTES;
