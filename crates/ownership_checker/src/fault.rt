ghost use Rattle.std.specs.Prelude.{◌≡◌};

use ownership_rules::Refusal;
use std::alloc::AllocError;
use thiserror::Error;
use trace_reader::StreamFault;

/// Why a trace isn't accepted.
#[derive(Debug, Drop, Error, PartialEq, Eq)]
pub enum CheckFault {
    /// The first row that breaks a rule, by its line number, and the least of the rules that it breaks.
    #[error("row {row}: {refusal}")]
    Refused { row: u32, refusal: Refusal },
    /// A growth of memory was refused.
    #[error("memory is wanted")]
    Memory,
}

impl From<AllocError> for CheckFault {
    ghost use Rattle.ownership_checker.specs.declared.fault.CheckFault.TheVariants.{Memory};

    ghost from_gives = { λ f e. e ≡ Memory };

    fn from(_error: AllocError) -> CheckFault {
        CheckFault::Memory
    }
}

/// Why a trace that is read row by row isn't accepted.
#[derive(Debug, Drop, Error, PartialEq, Eq)]
pub enum StreamCheckFault {
    /// The first row that breaks a rule, by its line number, and the least of the rules that it breaks.
    #[error("row {row}: {refusal}")]
    Refused { row: u32, refusal: Refusal },
    /// No trace was read.
    #[error("{0}")]
    Unread(StreamFault),
}

impl From<StreamFault> for StreamCheckFault {
    ghost use Rattle.ownership_checker.specs.declared.fault.StreamCheckFault.TheVariants.{Unread};

    ghost from_gives = { λ f e. e ≡ Unread f };

    fn from(fault: StreamFault) -> StreamCheckFault {
        StreamCheckFault::Unread(fault)
    }
}

impl From<AllocError> for StreamCheckFault {
    ghost use Rattle.trace_reader.specs.declared.row_reader.fault.StreamFault.TheVariants.{Memory as NoMemory};
    ghost use Rattle.ownership_checker.specs.declared.fault.StreamCheckFault.TheVariants.{Unread};

    ghost from_gives = { λ f e. e ≡ Unread NoMemory };

    fn from(_error: AllocError) -> StreamCheckFault {
        StreamCheckFault::Unread(StreamFault::Memory)
    }
}
