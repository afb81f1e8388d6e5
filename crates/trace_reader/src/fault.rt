ghost use Rattle.std.specs.Prelude.{◌≡◌, Some};
ghost use Rattle.trace_reader.specs.Faults.{fault_name, fault_number};

use segments::ShapeFault;
use std::alloc::{AllocError, AllocFailed};
use std::fmt;
use thiserror::Error;

/// What is wrong with a line; the least number that holds is told.
#[derive(Clone, Copy, Debug, PartialEq, Eq)]
pub enum LineFault {
    /// A line of the header isn't as it must be.
    Header,
    /// No line feed at the end, an unknown first word, a wrong number of fields, an empty field, a line out of its place.
    Row,
    /// A number of another length or with another character, or one that doesn't fit its place.
    Number,
    /// A line past the limit, of too many bytes, or with too many blocks.
    Limit,
    /// Segments that make no ring, or a ring that can't stand beside an earlier one.
    Shape,
}

impl LineFault {
    /// The number that is printed.
    pub fn number(self) -> u8
        ensures { result ≡ fault_number self }
    {
        match self {
            LineFault::Header => 1,
            LineFault::Row => 2,
            LineFault::Number => 3,
            LineFault::Limit => 4,
            LineFault::Shape => 5,
        }
    }

    /// The name that is printed.
    pub fn name(self) -> &'static str
        ensures { result.now ≡ fault_name self }
    {
        match self {
            LineFault::Header => "Header",
            LineFault::Row => "Row",
            LineFault::Number => "Number",
            LineFault::Limit => "Limit",
            LineFault::Shape => "Shape",
        }
    }
}

impl fmt::Display for LineFault {
    ghost output = { λ fault. Some (fault_name fault) };

    fn fmt<W: fmt::Write>(&self, f: &mut fmt::Formatter<W>) -> fmt::Result {
        f.write_str(self.name())
    }
}

impl std::error::Error for LineFault {}

/// Why no text was read.
#[derive(Debug, Drop, Error, PartialEq, Eq)]
pub enum ReadFault {
    /// The first bad line, from 1, and its fault.
    #[error("line {line}: {code}")]
    Line { line: u32, code: LineFault },
    /// A growth of memory was refused.
    #[error("memory is wanted")]
    Memory,
}

/// Why a line wasn't read.
#[derive(Debug, Drop)]
pub enum LineError {
    /// It is a bad line, with this fault.
    Fault(LineFault),
    /// A growth of memory was refused.
    Memory,
}

impl From<LineFault> for LineError {
    ghost use Rattle.trace_reader.specs.declared.fault.LineError.TheVariants.{Fault};

    ghost from_gives = { λ f e. e ≡ Fault f };

    fn from(fault: LineFault) -> LineError {
        LineError::Fault(fault)
    }
}

impl From<AllocError> for LineError {
    ghost use Rattle.trace_reader.specs.declared.fault.LineError.TheVariants.{Memory};

    ghost from_gives = { λ f e. e ≡ Memory };

    fn from(_error: AllocError) -> LineError {
        LineError::Memory
    }
}

impl<T: Drop> From<AllocFailed<T>> for LineError {
    ghost use Rattle.trace_reader.specs.declared.fault.LineError.TheVariants.{Memory};

    ghost from_gives = { λ f e. e ≡ Memory };

    fn from(_error: AllocFailed<T>) -> LineError {
        LineError::Memory
    }
}

impl From<ShapeFault> for LineError {
    ghost use Rattle.trace_reader.specs.Faults.{error_of};

    ghost from_gives = { λ f e. e ≡ error_of f };

    fn from(fault: ShapeFault) -> LineError {
        match fault {
            ShapeFault::Shape => LineError::Fault(LineFault::Shape),
            ShapeFault::Memory => LineError::Memory,
        }
    }
}

impl<T: Drop> From<AllocFailed<T>> for ReadFault {
    ghost use Rattle.trace_reader.specs.declared.fault.ReadFault.TheVariants.{Memory};

    ghost from_gives = { λ f e. e ≡ Memory };

    fn from(_error: AllocFailed<T>) -> ReadFault {
        ReadFault::Memory
    }
}
