//! How a driver's run on the bench ends.
use answers::Status;
use ownership_rules::Refusal;
use std::alloc::{AllocError, Global};
use trace_reader::LineFault;
use world_state::Harm;

/// The first row that breaks a rule, by its line from 1, and the least rule that it breaks.
#[derive(Clone, Copy, Debug, PartialEq, Eq)]
pub struct RefusedRow {
    pub row: u32,
    pub refusal: Refusal,
}

/// How a run ends.
#[derive(Clone, Copy, Debug, PartialEq, Eq)]
pub enum Ended {
    /// No row broke a rule, and there was no harm.
    NoHarm,
    /// This row broke a rule, and there was no harm.
    Refused(RefusedRow),
    /// Behind this step, from 1, there is harm.
    Harm { harm: Harm, step: usize },
    /// The row that would be this step reads an event that the controller hasn't posted, or a value that the register hasn't.
    NotPossible { step: usize },
    /// A line, from 1, says no row.
    BadLine { line: u32, fault: LineFault },
}

impl Ended {
    /// The exit status that goes with it.
    pub fn status(self) -> Status {
        match self {
            Ended::NoHarm => Status::Clean,
            Ended::Refused(_) | Ended::Harm { .. } | Ended::NotPossible { .. } => Status::Unclean,
            Ended::BadLine { .. } => Status::Unreadable,
        }
    }

    /// The line that tells it, with its line feed.
    pub fn line(self, alloc: Global) -> Result<String, AllocError> {
        match self {
            Ended::NoHarm => format!(in alloc; "no harm\n"),
            Ended::Refused(refused) => refused_line(alloc, refused.row, refused.refusal),
            Ended::Harm { harm, step } => {
                format!(in alloc; "harm {} at step {step}\n", harm.number())
            }
            Ended::NotPossible { step } => format!(in alloc; "step {step}: 27 NotPossible\n"),
            Ended::BadLine { line, fault } => {
                format!(in alloc;
                    "xhcitrace: line {line}: {} {}\n",
                    fault.number(),
                    fault.name()
                )
            }
        }
    }
}

/// The line on a row that breaks a rule.
pub(crate) fn refused_line(
    alloc: Global,
    row: u32,
    refusal: Refusal,
) -> Result<String, AllocError> {
    format!(in alloc; "row {row}: {} {}\n", refusal.number(), refusal.name())
}
