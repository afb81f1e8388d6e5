ghost use Rattle.std.specs.Prelude.{◌≡◌};
ghost use Rattle.trace_reader.specs.Streaming.Answers.{fault_of};

use crate::{LineError, LineFault};
use std::alloc::AllocError;
use thiserror::Error;

/// Why no further row is read.
#[derive(Debug, Drop, Error, PartialEq, Eq)]
pub enum StreamFault {
    /// The first bad line, from 1, and its fault.
    #[error("line {line}: {fault}")]
    Line { line: u32, fault: LineFault },
    /// The device failed.
    #[error("a device failed")]
    Device,
    /// A growth of memory was refused.
    #[error("memory is wanted")]
    Memory,
}

impl From<AllocError> for StreamFault {
    ghost use Rattle.trace_reader.specs.declared.row_reader.fault.StreamFault.TheVariants.{Memory};

    ghost from_gives = { λ f e. e ≡ Memory };

    fn from(_error: AllocError) -> StreamFault {
        StreamFault::Memory
    }
}

/// The fault of the line with this number.
pub fn fault_of(line: u32, error: LineError) -> StreamFault
    ensures { result ≡ fault_of line error }
{
    match error {
        LineError::Fault(fault) => StreamFault::Line { line, fault },
        LineError::Memory => StreamFault::Memory,
    }
}
