//! Why a plan is invalid.
ghost use Rattle.std.specs.Prelude.{◌≡◌};
ghost use Rattle.zs_run.specs.declared.plan_fault.PlanFault.TheVariants.{Memory};

use std::alloc::{AllocError, AllocFailed};
use std::fmt;
use thiserror::Error;
use zs_effect::ScriptFault;
use zs_term::TermFault;

// The document, or a job of it.
#[derive(Drop)]
struct PlanPlace(Option<u64>);

impl fmt::Display for PlanPlace {
    fn fmt<W: fmt::Write>(&self, f: &mut fmt::Formatter<W>) -> fmt::Result {
        match self.0 {
            None => write!(f, "plan"),
            Some(job) => write!(f, "job {job}"),
        }
    }
}

/// Why a plan is invalid. The causes are checked in this order, first in the document, then job by
/// job. `job` is the place of a job in the plan, from 0, or `None` for the document itself.
#[derive(Clone, Copy, Debug, PartialEq, Eq, Error)]
pub enum PlanFault {
    /// More than 16,777,216 bytes.
    #[error("plan is longer than 16777216 bytes")]
    TooLong,
    /// The bytes are no JSON document in UTF-8, or it is nested deeper than 127.
    #[error("plan is not JSON")]
    Json,
    /// A required part is missing, or has another type.
    #[error("{place}: wrong shape", place = PlanPlace(*.job))]
    Shape {
        /// The job, or the document.
        job: Option<u64>,
    },
    /// A key is unknown at its place.
    #[error("{place}: unknown key", place = PlanPlace(*.job))]
    UnknownKey {
        /// The job, or the document.
        job: Option<u64>,
    },
    /// A number, a list or a mode outside its range.
    #[error("{place}: out of range", place = PlanPlace(*.job))]
    Range {
        /// The job, or the document.
        job: Option<u64>,
    },
    /// The name isn't 1 to 64 letters, digits, `-`, `_` or `.`.
    #[error("job {job}: bad name")]
    Name {
        /// The job.
        job: u64,
    },
    /// An earlier job has this name.
    #[error("job {job}: name used before")]
    SameName {
        /// The later job.
        job: u64,
    },
    /// The schedule's text is invalid.
    #[error("job {job}: schedule: {fault}")]
    Schedule {
        /// The job.
        job: u64,
        /// What is wrong with the text.
        fault: TermFault,
    },
    /// The script is invalid.
    #[error("job {job}: script: {fault}")]
    Script {
        /// The job.
        job: u64,
        /// What is wrong with the entries.
        fault: ScriptFault,
    },
    /// A memory allocation failed.
    #[error("out of memory")]
    Memory,
}

impl From<AllocError> for PlanFault {
    ghost from_gives = { λ _ e. e ≡ Memory };

    fn from(_refused: AllocError) -> PlanFault {
        PlanFault::Memory
    }
}

impl<T: Drop> From<AllocFailed<T>> for PlanFault {
    ghost from_gives = { λ _ e. e ≡ Memory };

    fn from(_refused: AllocFailed<T>) -> PlanFault {
        PlanFault::Memory
    }
}
