//! Why the run of a population stopped, and the exit status for it.
ghost use Rattle.std.specs.Prelude.{◌≡◌};
ghost use Rattle.std.specs.Process.{exit_status};
ghost use Rattle.zs_population.specs.Status.{exit_status_of, report_status_of, status_of};

use std::alloc::AllocError;
use std::process::ExitCode;
use thiserror::Error;
use zs_engine::EngineFault;
use zs_run::{PlanFault, RunFault};

/// Why the words of a command line are wrong.
#[derive(Clone, Copy, Debug, PartialEq, Eq, Error)]
pub enum OptionFault {
    /// There is no such option, or a word too many.
    #[error("unknown option; see --help")]
    Unknown,
    /// The value of `--jobs` is missing, or isn't a range of numbers up to 10^15.
    #[error("--jobs needs a range of jobs, as 0..5000")]
    Jobs,
    /// No report follows `--check`.
    #[error("--check needs the reports of all ranges, in order")]
    Check,
}

/// Why the report of a range can't be joined.
#[derive(Clone, Copy, Debug, PartialEq, Eq, Error)]
pub enum ReportFault {
    /// It can't be read.
    #[error("read failed")]
    Read,
    /// Memory ran out.
    #[error("out of memory")]
    Memory,
    /// It doesn't end with a trailer, or has no report before it.
    #[error("incomplete, or no report of --jobs")]
    Incomplete,
    /// It is the report of another population.
    #[error("report of another population")]
    Population,
    /// It doesn't begin with the job that comes next.
    #[error("begins with job {first}, and job {next} comes next")]
    Order {
        /// The job that it begins with.
        first: u64,
        /// The job that comes next.
        next: u64,
    },
    /// Its bytes have another digest.
    #[error("changed since it was written")]
    Changed,
}

impl From<AllocError> for ReportFault {
    ghost use Rattle.zs_population.specs.declared.fault.ReportFault.TheVariants.{Memory};

    ghost from_gives = { λ _ e. e ≡ Memory };

    fn from(_refused: AllocError) -> ReportFault {
        ReportFault::Memory
    }
}

impl From<AllocError> for PopulationFault {
    ghost use Rattle.zs_engine.specs.declared.fault.EngineFault.TheVariants.{Memory};
    ghost use Rattle.zs_population.specs.declared.fault.PopulationFault.TheVariants.{Engine};

    ghost from_gives = { λ _ e. e ≡ Engine Memory };

    fn from(_refused: AllocError) -> PopulationFault {
        PopulationFault::Engine(EngineFault::Memory)
    }
}

/// Why the run of a population stopped. Only whole blocks were written, unless the writer failed.
#[derive(Clone, Copy, Debug, PartialEq, Eq, Error)]
pub enum PopulationFault {
    /// The reader failed.
    #[error("read failed")]
    Read,
    /// The first line is no document without jobs, another line is no job, or memory ran out at
    /// it.
    #[error("line {line}: {fault}")]
    Line {
        /// The line, from 1.
        line: u64,
        /// What is wrong with it. A job's number is its place in the population, from 0.
        fault: PlanFault,
    },
    /// A block of jobs could not be run, or memory ran out for its report.
    #[error(transparent)]
    Engine(EngineFault),
    /// The writer failed. The first `sent` bytes of the report went out, and no others.
    #[error("write failed after {sent} bytes")]
    Write {
        /// How many bytes went out, over all blocks.
        sent: u128,
    },
    /// The report of a range can't be joined.
    #[error("report {number}: {fault}")]
    Report {
        /// Its place among the reports, from 1.
        number: u64,
        /// Why.
        fault: ReportFault,
    },
    /// The reports end before the last job.
    #[error("no report has job {next}")]
    Missing {
        /// The first job that no report has.
        next: u64,
    },
    /// The words of the command line are wrong. Nothing was read or written.
    #[error(transparent)]
    Words(OptionFault),
}

// The exit status if the report of a range can't be joined.
fn report_status(fault: &ReportFault) -> u8
    ensures value { result ≡ report_status_of fault.now }
{
    match fault {
        ReportFault::Read => 3,
        ReportFault::Memory => 4,
        ReportFault::Incomplete
        | ReportFault::Population
        | ReportFault::Order { .. }
        | ReportFault::Changed => 2,
    }
}

/// The exit status of a program that ended by the fault: 2 for a rejected line or wrong words, 3 if
/// reading or writing failed, 4 without memory or a thread.
pub fn status(fault: &PopulationFault) -> u8
    ensures value { result ≡ status_of fault.now }
{
    match fault {
        PopulationFault::Words(_) => 2,
        PopulationFault::Read => 3,
        PopulationFault::Line { fault, .. } => zs_run::status(&RunFault::Plan(*fault)),
        PopulationFault::Engine(_) => 4,
        PopulationFault::Write { .. } => 3,
        PopulationFault::Report { fault, .. } => report_status(fault),
        PopulationFault::Missing { .. } => 2,
    }
}

/// The exit code of a program whose run ended so: 0 if the whole report was written, else the
/// status of the fault.
pub fn exit_code(ended: &Result<(), PopulationFault>) -> ExitCode
    ensures value { exit_status result ≡ exit_status_of ended.now }
{
    match ended {
        Ok(()) => ExitCode::SUCCESS,
        Err(fault) => ExitCode::from(status(fault)),
    }
}
