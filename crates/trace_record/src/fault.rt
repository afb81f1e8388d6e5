ghost use Rattle.std.specs.Prelude.{◌≡◌};

use ownership_rules::Refusal;
use std::alloc::AllocError;
use thiserror::Error;

/// Why a row isn't accepted.
#[derive(Debug, Drop, Error)]
pub enum StepFault {
    /// The least of the rules that the row breaks.
    #[error("{0}")]
    Refused(Refusal),
    /// A growth of memory was refused.
    #[error("memory is wanted")]
    Memory,
}

impl From<AllocError> for StepFault {
    ghost use Rattle.trace_record.specs.declared.fault.StepFault.TheVariants.{Memory};

    ghost from_gives = { λ f e. e ≡ Memory };

    fn from(_error: AllocError) -> StepFault {
        StepFault::Memory
    }
}
