//! Why a run fails.

ghost use Rattle.std.specs.Prelude.{◌≡◌, ◌≢◌, ◌↔◌};

use std::alloc::{AllocError, AllocFailed};
use thiserror::Error;
use zs_agenda::AgendaFault;
use zs_drive::DriveFault;
use zs_pool::PoolFault;

/// Why a run fails.
#[derive(Clone, Copy, Debug, PartialEq, Eq, Error)]
pub enum EngineFault {
    /// A memory allocation failed.
    #[error("out of memory")]
    Memory,
    /// A thread could not be started.
    #[error("no thread")]
    NoThread,
}

impl From<AllocError> for EngineFault {
    fn from(_refused: AllocError) -> Self {
        EngineFault::Memory
    }
}

impl<T: Drop> From<AllocFailed<T>> for EngineFault {
    fn from(_refused: AllocFailed<T>) -> Self {
        EngineFault::Memory
    }
}

impl From<AgendaFault> for EngineFault {
    fn from(fault: AgendaFault) -> Self {
        match fault {
            AgendaFault::Memory => EngineFault::Memory,
        }
    }
}

impl From<DriveFault> for EngineFault {
    fn from(fault: DriveFault) -> Self {
        match fault {
            DriveFault::Memory => EngineFault::Memory,
        }
    }
}

// Maps the fault of a round to that of a run. No round fails with `Full`.
pub(crate) fn round_fault(fault: PoolFault) -> EngineFault
    requires possible { fault ≢ PoolFault.Full }
    ensures memory { result ≡ EngineFault.Memory ↔ fault ≡ PoolFault.Memory }
    ensures thread { result ≡ EngineFault.NoThread ↔ fault ≡ PoolFault.NoThread }
{
    match fault {
        PoolFault::Memory => EngineFault::Memory,
        PoolFault::NoThread => EngineFault::NoThread,
        PoolFault::Full => unreachable!(),
    }
}
