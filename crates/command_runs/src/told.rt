//! What explains an answer to a trace, in its parts.
use crate::version_note::version_note;
use crate::waiting_note::words_on_waiting;
use crate::why_no::{WhyNo, why_no};
use answers::{Answer, FoundHarm, Remarks, harm_note, remarks_on_leases};
use diagnostics::{Diagnostic, diagnostic_of_line};
use explanations::diagnostic_of_refused;
use ownership_rules::Refusal;
use reports::{Cause, Parts};
use ring_knowledge::Lease;
use std::alloc::{AllocError, Global};

/// What explains an answer.
#[derive(Drop)]
pub struct Told {
    /// The row that breaks a rule, where one does.
    pub refused: Option<RefusedRow>,
    pub parts: Parts,
    /// What an accepted trace leaves waiting.
    pub waiting: Vec<String>,
}

/// A row that breaks a rule, by its line from 1, and whether that is a bug.
#[derive(Clone, Copy, Debug)]
pub struct RefusedRow {
    pub row: u32,
    pub refusal: Refusal,
    pub class: Cause,
}

impl Told {
    /// That nothing explains an answer.
    pub fn nothing(alloc: Global) -> Told {
        Told {
            refused: None,
            parts: Parts::none(alloc),
            waiting: Vec::new(alloc),
        }
    }

    /// Words alone.
    pub fn words(alloc: Global, words: String) -> Told {
        Told {
            refused: None,
            parts: Parts::headed(alloc, words),
            waiting: Vec::new(alloc),
        }
    }

    /// What is wrong with a line or a step.
    pub fn diagnosed(alloc: Global, diagnostic: Diagnostic) -> Result<Told, AllocError> {
        Ok(Told {
            refused: None,
            parts: Parts::of(alloc, diagnostic)?,
            waiting: Vec::new(alloc),
        })
    }

    /// What is said where there is no line to quote.
    pub fn remarked(alloc: Global, remarks: Remarks) -> Told {
        let Remarks { head, notes, help } = remarks;
        Told {
            refused: None,
            parts: Parts {
                head: Some(head),
                marks: Vec::new(alloc),
                notes,
                help: Some(help),
            },
            waiting: Vec::new(alloc),
        }
    }
}

/// What explains an answer to the text of a trace, or to leases beside it. Where that is no: the row that breaks a rule, or else the
/// first lease that isn't the trace's; nothing where it would be yes.
pub fn told_on_verdict(
    alloc: Global,
    leases: &[Lease],
    text: &[u8],
    answer: &Answer,
) -> Result<Told, AllocError> {
    match answer {
        Answer::Verified { holds: false } => {}
        _ => return told_on_trace(alloc, text, answer),
    }
    match why_no(alloc, leases, text)? {
        WhyNo::Row { row, refusal } => told_on_row(alloc, text, row, refusal, None),
        WhyNo::Leases(own) => {
            let remarks = remarks_on_leases(alloc, leases, &own)?;
            Ok(Told::remarked(alloc, remarks))
        }
        WhyNo::Nothing => Ok(Told::nothing(alloc)),
    }
}

/// What explains an answer to the text of a trace.
pub fn told_on_trace(alloc: Global, text: &[u8], answer: &Answer) -> Result<Told, AllocError> {
    match answer {
        Answer::BadLine { line, fault } => {
            Told::diagnosed(alloc, diagnostic_of_line(alloc, text, *line, *fault)?)
        }
        Answer::Refused { row, refusal } => told_on_row(alloc, text, *row, *refusal, None),
        Answer::HarmShown { row, refusal, harm } => {
            told_on_row(alloc, text, *row, *refusal, Some(harm))
        }
        Answer::Accepted { leases } => {
            let mut told = Told::nothing(alloc);
            told.waiting = words_on_waiting(alloc, text, *leases)?;
            Ok(told)
        }
        _ => Ok(Told::nothing(alloc)),
    }
}

/// What is wrong with a row; of a run that was looked for, whether one does harm.
fn told_on_row(
    alloc: Global,
    text: &[u8],
    row: u32,
    refusal: Refusal,
    harm: Option<&Option<FoundHarm>>,
) -> Result<Told, AllocError> {
    let diagnostic = diagnostic_of_refused(alloc, text, row, refusal)?;
    let mut class = Cause::from(diagnostic.class());
    let mut told = Told::diagnosed(alloc, diagnostic)?;
    if let Some(harm) = harm {
        told.parts.notes.push(harm_note(alloc, harm)?)?;
    }
    if let Some(note) = version_note(alloc, text, row)? {
        class = Cause::Unjudged;
        told.parts.notes.push(String::from_str(alloc, note)?)?;
    }
    told.refused = Some(RefusedRow {
        row,
        refusal,
        class,
    });
    Ok(told)
}
