use ownership_rules::Refusal;
use std::alloc::AllocError;
use thiserror::Error;

/// Why a row or a step isn't made.
#[derive(Clone, Copy, Debug, Error, PartialEq, Eq)]
pub enum BenchFault {
    /// No controller may make this step now, or the row reads an event that wasn't posted or a value that the register hasn't; where the rows
    /// so far broke no rule, the one that the row breaks. The controller is as it was, and no row is judged any more.
    #[error("this isn't possible beside the controller")]
    NotPossible { refusal: Option<Refusal> },
    /// More rows than a trace has.
    #[error("there are too many rows")]
    Limit,
    /// Memory was refused, so the bench can't go on.
    #[error("memory is wanted")]
    Memory,
}

impl From<AllocError> for BenchFault {
    ghost use Rattle.std.specs.Prelude.{◌≡◌};
    ghost use Rattle.bench.specs.declared.fault.BenchFault.TheVariants.{Memory as no_memory};

    ghost from_gives = { λ _ fault. fault ≡ no_memory };

    fn from(_: AllocError) -> BenchFault {
        BenchFault::Memory
    }
}
