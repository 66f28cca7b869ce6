//! Why a call of the pool fails.

ghost use Rattle.std.specs.Prelude.{◌≡◌};
ghost use Rattle.zs_pool.specs.declared.fault.PoolFault.TheVariants.{Memory, NoThread};

use std::alloc::{AllocError, AllocFailed};
use std::thread::SpawnError;
use thiserror::Error;

/// Why a call of the pool fails.
#[derive(Clone, Copy, Debug, PartialEq, Eq, Error)]
pub enum PoolFault {
    /// A memory allocation failed.
    #[error("out of memory")]
    Memory,
    /// A thread could not be started.
    #[error("no thread")]
    NoThread,
    /// The shelf had no room.
    #[error("the shelf is full")]
    Full,
}

impl From<AllocError> for PoolFault {
    ghost from_gives = { λ _ e. e ≡ Memory };

    fn from(_refused: AllocError) -> PoolFault {
        PoolFault::Memory
    }
}

impl<T: Drop> From<AllocFailed<T>> for PoolFault {
    ghost from_gives = { λ _ e. e ≡ Memory };

    fn from(_refused: AllocFailed<T>) -> PoolFault {
        PoolFault::Memory
    }
}

impl<F: Drop> From<SpawnError<F>> for PoolFault {
    ghost from_gives = { λ _ e. e ≡ NoThread };

    fn from(_refused: SpawnError<F>) -> PoolFault {
        PoolFault::NoThread
    }
}
