//! How a step can fail.

ghost use Rattle.std.specs.Prelude.{◌≡◌};
ghost use Rattle.zs_step.specs.declared.fault.StepFault.TheVariants.{Memory};

use std::alloc::AllocError;
use thiserror::Error;

/// Why a step has no result.
#[derive(Clone, Copy, Debug, PartialEq, Eq, Error)]
pub enum StepFault {
    /// A memory allocation failed, at this step or an earlier one.
    #[error("out of memory")]
    Memory,
}

impl From<AllocError> for StepFault {
    ghost from_gives = { λ _ e. e ≡ Memory };

    fn from(_refused: AllocError) -> StepFault {
        StepFault::Memory
    }
}
