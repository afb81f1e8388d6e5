//! The parts of what explains an answer.
ghost use Rattle.std.specs.Prelude.{◌≡◌, [], None, Some, IfOk};
ghost use Rattle.reports.specs.Objects.{kind_word};
ghost use Rattle.reports.specs.Parts.{marks_in, marks_of};

use diagnostics::{Diagnostic, Quote};
use std::alloc::{AllocError, Global};

/// A line that is quoted.
#[derive(Debug, Drop)]
pub struct Mark {
    pub kind: MarkKind,
    pub quote: Quote,
}

/// Why a line is quoted.
#[derive(Clone, Copy, Debug, PartialEq, Eq)]
pub enum MarkKind {
    /// It is what is told of.
    Told,
    /// It stands before that one, and matters.
    Earlier,
}

impl MarkKind {
    /// The word for it.
    pub fn word(self) -> &'static str
        ensures { result.now ≡ kind_word self }
    {
        match self {
            MarkKind::Told => "told",
            MarkKind::Earlier => "earlier",
        }
    }
}

/// What explains an answer.
#[derive(Debug, Drop)]
pub struct Parts {
    /// What is wrong, in the standard's words.
    pub head: Option<String>,
    /// The lines that are quoted, in their order.
    pub marks: Vec<Mark>,
    /// What was found and what was expected.
    pub notes: Vec<String>,
    /// What helps.
    pub help: Option<String>,
}

impl Parts {
    /// That there is nothing to explain.
    pub fn none(alloc: Global) -> Parts
        ensures head { result.head ≡ None }
        ensures marks { result.marks.items ≡ [] }
        ensures notes { result.notes.items ≡ [] }
        ensures help { result.help ≡ None }
    {
        Parts {
            head: None,
            marks: Vec::new(alloc),
            notes: Vec::new(alloc),
            help: None,
        }
    }

    /// A head alone.
    pub fn headed(alloc: Global, head: String) -> Parts
        ensures head { result.head ≡ Some head }
        ensures marks { result.marks.items ≡ [] }
        ensures notes { result.notes.items ≡ [] }
        ensures help { result.help ≡ None }
    {
        let mut parts = Parts::none(alloc);
        parts.head = Some(head);
        parts
    }

    /// The parts of a diagnostic.
    pub fn of(alloc: Global, diagnostic: Diagnostic) -> Result<Parts, AllocError>
        ensures head { IfOk result (λ parts. parts.head ≡ Some diagnostic.head) }
        ensures marks { IfOk result (λ parts. parts.marks.items ≡ marks_in diagnostic) }
        ensures notes { IfOk result (λ parts. parts.notes ≡ diagnostic.notes) }
        ensures help { IfOk result (λ parts. parts.help ≡ diagnostic.help) }
    {
        let Diagnostic {
            head,
            refused,
            earlier,
            notes,
            help,
            ..
        } = diagnostic;
        Ok(Parts {
            head: Some(head),
            marks: marks_of(alloc, earlier, refused)?,
            notes,
            help,
        })
    }

    /// The line that is told of.
    pub fn line(&self) -> Option<u32> {
        let told = self.marks.iter().find(|mark| mark.kind == MarkKind::Told)?;
        Some(told.quote.line)
    }
}

/// The earlier line, and the one that is told of.
fn marks_of(alloc: Global, earlier: Option<Quote>, told: Quote) -> Result<Vec<Mark>, AllocError>
    ensures { IfOk result (λ marks. marks.items ≡ marks_of earlier told) }
{
    let mut marks = Vec::new(alloc);
    if let Some(quote) = earlier {
        marks.push(Mark {
            kind: MarkKind::Earlier,
            quote,
        })?;
    }
    marks.push(Mark {
        kind: MarkKind::Told,
        quote: told,
    })?;
    Ok(marks)
}
