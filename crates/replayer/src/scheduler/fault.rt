ghost use Rattle.std.specs.Prelude.{◌≡◌};

use ownership_rules::Refusal;
use std::alloc::AllocError;
use thiserror::Error;

/// Why a trace has no lazy schedule.
#[derive(Debug, Drop, Error, PartialEq, Eq)]
pub enum ScheduleFault {
    /// The first row that breaks a rule, by its line number, and the least of the rules that it breaks.
    #[error("row {row}: {refusal}")]
    Refused { row: u32, refusal: Refusal },
    /// A growth of memory was refused.
    #[error("memory is wanted")]
    Memory,
}

impl From<AllocError> for ScheduleFault {
    ghost use Rattle.replayer.specs.declared.scheduler.fault.ScheduleFault.TheVariants.{Memory};

    ghost from_gives = { λ f e. e ≡ Memory };

    fn from(_error: AllocError) -> ScheduleFault {
        ScheduleFault::Memory
    }
}
