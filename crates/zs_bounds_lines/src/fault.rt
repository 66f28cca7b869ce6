//! Why a run over lines stopped, and the exit status for it.
ghost use Rattle.std.specs.Prelude.{◌≡◌};
ghost use Rattle.std.specs.Process.{exit_status};
ghost use Rattle.zs_bounds_lines.specs.Status.{exit_status_of, status_of};

use std::process::ExitCode;
use thiserror::Error;
use zs_term::TermFault;

/// Why a line is no policy.
#[derive(Clone, Copy, Debug, PartialEq, Eq, Error)]
pub enum PolicyFault {
    /// The bytes aren't UTF-8.
    #[error("not UTF-8")]
    NotUtf8,
    /// The text is no schedule.
    #[error(transparent)]
    Term(TermFault),
}

/// Why the words of a command line are wrong.
#[derive(Clone, Copy, Debug, PartialEq, Eq, Error)]
pub enum OptionFault {
    /// There is no such option.
    #[error("unknown option; see --help")]
    Unknown,
    /// The value of `--steps` is missing, or isn't a number of 64 bits.
    #[error("--steps needs a whole number")]
    Steps,
    /// The value of `--attempt` is missing, or isn't a duration or two of them in order.
    #[error("--attempt needs durations, as 5s or 20ms..5s")]
    Attempt,
    /// The value of `--wait` is missing, or isn't two percentages in order.
    #[error("--wait needs two percentages, as 80..120%")]
    Wait,
    /// The value of `--late` is missing, or is neither a duration nor `any`.
    #[error("--late needs a duration, as 50ms, or any")]
    Late,
    /// The value of `--asked` is missing, or isn't a duration.
    #[error("--asked needs a duration, as 30s")]
    Asked,
    /// The value of `--within` is missing, or isn't a duration.
    #[error("--within needs a duration, as 10s")]
    Within,
}

/// Why a run stopped. Whole lines were written, unless the writer failed.
#[derive(Clone, Copy, Debug, PartialEq, Eq, Error)]
pub enum BoundsFault {
    /// The reader failed.
    #[error("read failed")]
    Read,
    /// A line is no policy.
    #[error("line {line}: {fault}")]
    Line {
        /// The line, from 1. Each line counts, also one without a policy.
        line: u64,
        /// What is wrong with it.
        fault: PolicyFault,
    },
    /// Memory ran out.
    #[error("out of memory")]
    Memory,
    /// The writer failed. All lines of JSON before the last one went out whole.
    #[error("write failed")]
    Write,
    /// The words of the command line are wrong. Nothing was read or written.
    #[error(transparent)]
    Words(OptionFault),
}

/// The exit status of a program that ended by the fault: 2 for a rejected line or wrong words, 3 if
/// reading or writing failed, 4 without memory.
pub fn status(fault: &BoundsFault) -> u8
    ensures value { result ≡ status_of fault.now }
{
    match fault {
        BoundsFault::Line { .. } | BoundsFault::Words(_) => 2,
        BoundsFault::Read | BoundsFault::Write => 3,
        BoundsFault::Memory => 4,
    }
}

/// The exit code of a program that ended so: 0 at success, else the status of the fault.
pub fn exit_code(ended: &Result<(), BoundsFault>) -> ExitCode
    ensures value { exit_status result ≡ exit_status_of ended.now }
{
    match ended {
        Ok(()) => ExitCode::SUCCESS,
        Err(fault) => ExitCode::from(status(fault)),
    }
}
