//! How a call of the timer queue can fail.

ghost use Rattle.std.specs.Prelude.{◌≡◌};
ghost use Rattle.zs_agenda.specs.declared.fault.AgendaFault.TheVariants.{Memory};

use std::alloc::AllocError;
use std::error::Error;
use std::fmt;

/// Why a call of the timer queue failed.
#[derive(Clone, Copy, Debug, PartialEq, Eq)]
pub enum AgendaFault {
    /// A memory allocation failed.
    Memory,
}

impl fmt::Display for AgendaFault {
    fn fmt<W: fmt::Write>(&self, f: &mut fmt::Formatter<W>) -> fmt::Result {
        match self {
            AgendaFault::Memory => write!(f, "out of memory"),
        }
    }
}

impl Error for AgendaFault {}

impl From<AllocError> for AgendaFault {
    ghost from_gives = { λ _ e. e ≡ Memory };

    fn from(_: AllocError) -> AgendaFault {
        AgendaFault::Memory
    }
}
