//! Why a task fails.
use std::alloc::{AllocError, AllocFailed};
use thiserror::Error;
use zs_step::StepFault;

/// Why a task could not be made, or why a poll broke it.
#[derive(Clone, Copy, Debug, Drop, Error, PartialEq, Eq)]
pub enum DriveFault {
    /// A memory allocation failed.
    #[error("out of memory")]
    Memory,
}

impl From<AllocError> for DriveFault {
    fn from(_refused: AllocError) -> DriveFault {
        DriveFault::Memory
    }
}

impl<T: Drop> From<AllocFailed<T>> for DriveFault {
    fn from(_refused: AllocFailed<T>) -> DriveFault {
        DriveFault::Memory
    }
}

impl From<StepFault> for DriveFault {
    fn from(_refused: StepFault) -> DriveFault {
        DriveFault::Memory
    }
}
