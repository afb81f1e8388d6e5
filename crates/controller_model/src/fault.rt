ghost use Rattle.std.specs.Prelude.{◌≡◌};
ghost use Rattle.controller_model.specs.Faults.{number_of};

use std::alloc::AllocError;
use thiserror::Error;

/// Why a step isn't made.
#[derive(Clone, Copy, Debug, Error, PartialEq, Eq)]
pub enum StepFault {
    /// No controller may make this step now. Nothing is changed.
    #[error("no controller may make this step now")]
    NotPossible,
    /// Memory was refused in an earlier step, so the world can't go on.
    #[error("memory was wanted in an earlier step")]
    Spent,
    /// Memory was refused, so this step can't be made, nor any later one.
    #[error("memory is wanted")]
    Memory,
}

impl StepFault {
    /// The number that is printed.
    pub fn number(self) -> u8
        ensures { result ≡ number_of self }
    {
        match self {
            StepFault::NotPossible => 27,
            StepFault::Spent => 28,
            StepFault::Memory => 30,
        }
    }
}

impl From<AllocError> for StepFault {
    ghost use Rattle.controller_model.specs.declared.fault.StepFault.TheVariants.{Memory as no_memory};

    ghost from_gives = { λ _ fault. fault ≡ no_memory };

    fn from(_: AllocError) -> StepFault {
        StepFault::Memory
    }
}
