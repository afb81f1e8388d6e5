ghost use Rattle.std.specs.Prelude.{◌≡◌};

use controller_model::Seen;
use std::alloc::AllocError;
use thiserror::Error;
use world_state::Harm;

/// Why a replay ends early. Steps count from 1; 0 is before the first.
#[derive(Debug, Drop, Error, PartialEq, Eq)]
pub enum ReplayFault {
    /// The first step that no controller may make, where no harm came before, and what the steps before it showed.
    #[error("step {step}: not possible")]
    NotPossible {
        step: u32,
        seen: Vec<Seen>,
    },
    /// The first step after which there is harm, the least one, and what the steps showed, this one too.
    #[error("step {step}: {harm}")]
    Harmful {
        step: u32,
        harm: Harm,
        seen: Vec<Seen>,
    },
    /// A growth of memory was refused.
    #[error("memory is wanted")]
    Memory,
}

impl From<AllocError> for ReplayFault {
    ghost use Rattle.replayer.specs.declared.fault.ReplayFault.TheVariants.{Memory};

    ghost from_gives = { λ f e. e ≡ Memory };

    fn from(_error: AllocError) -> ReplayFault {
        ReplayFault::Memory
    }
}
