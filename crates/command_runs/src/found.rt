//! An answer, and what explains it in its parts.
ghost use Rattle.std.specs.IoError.{error_kind};
ghost use Rattle.std.specs.Prelude.{◌≡◌};
ghost use Rattle.answers.specs.Answers.{answer_of_kind, status_of};

use crate::outcome::Outcome;
use crate::read_note::{Grounds, grounds_of};
use crate::recorded::Recorded;
use crate::told::{RefusedRow, Told, told_on_verdict};
use answers::Answer;
use diagnostics::Class;
use reports::Cause;
use ring_knowledge::Lease;
use std::alloc::{AllocError, Global};
use std::io::{self, ErrorKind, Read, Seek};

/// Which file something is about.
#[derive(Clone, Copy, Debug)]
pub enum About {
    /// The trace.
    Trace,
    /// What is read or written beside it: a certificate or a schedule.
    Other,
}

/// An answer, and what explains it; or that memory was wanted for that.
#[derive(Drop)]
pub struct Found {
    pub answer: Answer,
    /// What the parts are about.
    pub about: About,
    pub told: Result<Told, AllocError>,
}

impl Found {
    /// How that ends, and the class of a refusal.
    pub fn outcome(&self) -> Outcome
        ensures { result.status ≡ status_of self.now.answer }
    {
        let refused = match &self.told {
            Ok(told) => told.refused,
            Err(_) => None,
        };
        let class = match refused {
            Some(
                RefusedRow {
                    class: Cause::Unjudged,
                    ..
                },
            ) => Class::Unjudged,
            _ => Class::Broken,
        };
        Outcome {
            status: self.answer.status(),
            class,
        }
    }
}

/// That a file failed, and why.
pub fn found_failed(alloc: Global, about: About, error: io::Error) -> Found
    ensures { result.answer ≡ answer_of_kind (error_kind error) }
{
    let told = told_on_failure(alloc, &error);
    Found {
        answer: Answer::from(error),
        about,
        told,
    }
}

/// Why a file failed; want of memory is told without.
fn told_on_failure(alloc: Global, error: &io::Error) -> Result<Told, AllocError> {
    match error.kind() {
        ErrorKind::OutOfMemory => Ok(Told::nothing(alloc)),
        _ => Ok(Told::words(alloc, format!(in alloc; "{error}")?)),
    }
}

/// What explains an answer to the trace that an input held; the leases are those of a certificate, where one is verified. A text that
/// was too long to be kept is read once more.
pub fn told_as_read<R: Read + Seek + Drop>(
    alloc: Global,
    leases: &[Lease],
    input: Recorded<R>,
    answer: &Answer,
) -> Result<Told, AllocError> {
    match answer {
        Answer::Device => match input.into_error() {
            Some(error) => told_on_failure(alloc, &error),
            None => Ok(Told::nothing(alloc)),
        },
        Answer::Verified { holds: true } | Answer::Memory => Ok(Told::nothing(alloc)),
        // want of memory changes no `accepted`
        Answer::Accepted { .. } => match told_on_text(alloc, leases, input, answer) {
            Ok(told) => Ok(told),
            Err(_) => Ok(Told::nothing(alloc)),
        },
        _ => told_on_text(alloc, leases, input, answer),
    }
}

/// The same of an answer that is explained from the text.
fn told_on_text<R: Read + Seek + Drop>(
    alloc: Global,
    leases: &[Lease],
    input: Recorded<R>,
    answer: &Answer,
) -> Result<Told, AllocError> {
    match grounds_of(alloc, input, answer)? {
        Grounds::Text(text) => told_on_verdict(alloc, leases, &text, answer),
        Grounds::None(why) => {
            let mut told = Told::nothing(alloc);
            told.parts.notes.push(why)?;
            Ok(told)
        }
        Grounds::Nothing => Ok(Told::nothing(alloc)),
    }
}
