ghost use Rattle.std.specs.Prelude.{◌≡◌, Some};
ghost use Rattle.std.specs.Fmt.{padded};
ghost use Rattle.plan_writer.specs.PlanRefusals.{refusal_number, refusal_name};

use cycle_ring::{EnqueueFault, NotGiven};
use std::alloc::AllocError;
use std::fmt;
use thiserror::Error;
use trace_reader::{LineFault, ReadFault};

/// Why a line of a plan can't be followed.
#[derive(Clone, Copy, Debug, PartialEq, Eq)]
pub enum PlanRefusal {
    /// The line names another ring than the plan's.
    NotDeclared,
    /// There is no room for the blocks on the ring.
    RingFull,
    /// The blocks are no descriptor of the ring.
    BadDescriptor,
    /// The blocks are a descriptor that this project leaves out.
    NotInProfile,
    /// The count is below what is retired, or above what is enqueued.
    NotGiven,
}

impl PlanRefusal {
    /// The number that is printed.
    pub fn number(self) -> u8
        ensures { result ≡ refusal_number self }
    {
        match self {
            PlanRefusal::NotDeclared => 12,
            PlanRefusal::RingFull => 15,
            PlanRefusal::BadDescriptor => 16,
            PlanRefusal::NotInProfile => 23,
            PlanRefusal::NotGiven => 26,
        }
    }

    /// The name that is printed.
    pub fn name(self) -> &'static str
        ensures { result.now ≡ refusal_name self }
    {
        match self {
            PlanRefusal::NotDeclared => "NotDeclared",
            PlanRefusal::RingFull => "RingFull",
            PlanRefusal::BadDescriptor => "BadDescriptor",
            PlanRefusal::NotInProfile => "NotInProfile",
            PlanRefusal::NotGiven => "NotGiven",
        }
    }
}

impl fmt::Display for PlanRefusal {
    ghost output = { λ refusal. Some (refusal_name refusal) };

    ghost styled_output = { λ refusal spec. Some (padded spec (refusal_name refusal)) };

    fn fmt<W: fmt::Write>(&self, f: &mut fmt::Formatter<W>) -> fmt::Result {
        f.pad(self.name())
    }
}

impl std::error::Error for PlanRefusal {}

/// Why no trace was written.
#[derive(Debug, Drop, Error, PartialEq, Eq)]
pub enum PlanFault {
    /// The first bad line of the text, from 1, and its fault.
    #[error("line {line}: {fault}")]
    Line { line: u32, fault: LineFault },
    /// The first line that can't be followed, from 1. All lines were read before.
    #[error("line {line}: {refusal}")]
    Refused { line: u32, refusal: PlanRefusal },
    /// A growth of memory was refused.
    #[error("memory is wanted")]
    Memory,
}

impl From<AllocError> for PlanFault {
    ghost use Rattle.plan_writer.specs.declared.fault.PlanFault.TheVariants.{Memory};

    ghost from_gives = { λ f e. e ≡ Memory };

    fn from(_error: AllocError) -> PlanFault {
        PlanFault::Memory
    }
}

impl From<ReadFault> for PlanFault {
    ghost use Rattle.plan_writer.specs.PlanRefusals.{text_fault};

    ghost from_gives = { λ f e. e ≡ text_fault f };

    fn from(fault: ReadFault) -> PlanFault {
        match fault {
            ReadFault::Line { line, code } => PlanFault::Line { line, fault: code },
            ReadFault::Memory => PlanFault::Memory,
        }
    }
}

/// Why one line wasn't followed.
#[derive(Debug, Drop)]
pub enum LineStop {
    Refused(PlanRefusal),
    /// A growth of memory was refused.
    Memory,
}

impl From<EnqueueFault> for LineStop {
    ghost use Rattle.plan_writer.specs.PlanRefusals.{stop_of};

    ghost from_gives = { λ f e. e ≡ stop_of f };

    fn from(fault: EnqueueFault) -> LineStop {
        match fault {
            EnqueueFault::RingFull => LineStop::Refused(PlanRefusal::RingFull),
            EnqueueFault::BadDescriptor => LineStop::Refused(PlanRefusal::BadDescriptor),
            EnqueueFault::NotInProfile => LineStop::Refused(PlanRefusal::NotInProfile),
            EnqueueFault::Memory => LineStop::Memory,
        }
    }
}

impl From<NotGiven> for LineStop {
    ghost use Rattle.plan_writer.specs.declared.fault.PlanRefusal.TheVariants.{NotGiven};
    ghost use Rattle.plan_writer.specs.declared.fault.LineStop.TheVariants.{Refused};

    ghost from_gives = { λ f e. e ≡ Refused NotGiven };

    fn from(_fault: NotGiven) -> LineStop {
        LineStop::Refused(PlanRefusal::NotGiven)
    }
}

impl From<AllocError> for LineStop {
    ghost use Rattle.plan_writer.specs.declared.fault.LineStop.TheVariants.{Memory};

    ghost from_gives = { λ f e. e ≡ Memory };

    fn from(_error: AllocError) -> LineStop {
        LineStop::Memory
    }
}
