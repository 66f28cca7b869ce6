//! Why a run fails, and the exit status for it.
ghost use Rattle.std.specs.Prelude.{◌≡◌};
ghost use Rattle.std.specs.Process.{exit_status};
ghost use Rattle.zs_run.specs.Status.{exit_status_of, plan_status_of, status_of};

use crate::plan_fault::PlanFault;
use std::process::ExitCode;
use thiserror::Error;
use zs_engine::EngineFault;

/// Why a run fails.
#[derive(Clone, Copy, Debug, PartialEq, Eq, Error)]
pub enum RunFault {
    /// The reader failed. Nothing was written.
    #[error("read failed")]
    Read,
    /// The plan is invalid, or memory ran out before it was validated. Nothing was written.
    #[error(transparent)]
    Plan(PlanFault),
    /// The jobs of the plan could not be run, or memory ran out for their report. Nothing was
    /// written.
    #[error(transparent)]
    Engine(EngineFault),
    /// The writer failed. It took the first `sent` bytes of the report, and no others.
    #[error("write failed after {sent} bytes")]
    Write {
        /// The number of bytes that the writer took.
        sent: u64,
    },
}

// Returns the exit status for a fault of a plan.
fn plan_status(fault: &PlanFault) -> u8
    ensures value { result ≡ plan_status_of fault.now }
{
    match fault {
        PlanFault::TooLong
        | PlanFault::Json
        | PlanFault::Shape { .. }
        | PlanFault::UnknownKey { .. }
        | PlanFault::Range { .. }
        | PlanFault::Name { .. }
        | PlanFault::SameName { .. }
        | PlanFault::Schedule { .. }
        | PlanFault::Script { .. } => 2,
        PlanFault::Memory => 4,
    }
}

/// Returns the exit status of a program that ended with this fault: 2 for an invalid plan, 3 if
/// reading or writing failed, 4 if memory ran out or a thread couldn't start.
pub fn status(fault: &RunFault) -> u8
    ensures value { result ≡ status_of fault.now }
{
    match fault {
        RunFault::Read => 3,
        RunFault::Plan(fault) => plan_status(fault),
        RunFault::Engine(_) => 4,
        RunFault::Write { .. } => 3,
    }
}

/// Returns the exit code of a program whose run had this result: 0 if the report was written, else
/// the status of the fault.
pub fn exit_code(ended: &Result<(), RunFault>) -> ExitCode
    ensures value { exit_status result ≡ exit_status_of ended.now }
{
    match ended {
        Ok(()) => ExitCode::SUCCESS,
        Err(fault) => ExitCode::from(status(fault)),
    }
}
