//! The report of what was found.
ghost use Rattle.std.specs.Prelude.{◌≡◌, option_map};
ghost use Rattle.command_runs.specs.Reported.{class_of, row_of, subject_of, verdict_of, verdict_of_end};
ghost use Rattle.rule_pages.specs.Subjects.{name_of, number_of};

use crate::found::{About, Found};
use crate::told::{RefusedRow, Told};
use answers::{Answer, FoundHarm, ReplayEnd};
use certificate::CertFault;
use controller_model::Seen;
use reports::{
    Cause, Numbered, Outcome, Own, Parts, Place, Replay, Report, Run, Take, Verdict, sections_of,
};
use rule_pages::{Subject, page};
use std::alloc::{AllocError, Global};
use std::str::from_utf8;

/// How the certificate is called that is written.
const CERTIFICATE: &str = "the certificate";

/// The report of what `check` found of a trace that is called so.
pub fn check_report<'a>(
    alloc: Global,
    input: &'a str,
    found: Found,
) -> Result<Report<'a>, AllocError> {
    let (answer, mut report) = reported(input, CERTIFICATE, found)?;
    if let Answer::HarmShown { harm, .. } = answer {
        report.own = Own::Harm {
            run: run_of(alloc, harm)?,
        };
    }
    Ok(report)
}

/// The report of what `verify` found of a trace and a certificate that are called so.
pub fn verify_report<'a>(
    input: &'a str,
    certificate: &'a str,
    found: Found,
) -> Result<Report<'a>, AllocError> {
    let (_, mut report) = reported(input, certificate, found)?;
    report.own = Own::Verify { certificate };
    Ok(report)
}

/// The report of what `replay` found of a trace and a schedule that are called so.
pub fn replay_report<'a>(
    alloc: Global,
    input: &'a str,
    schedule: &'a str,
    found: Found,
) -> Result<Report<'a>, AllocError> {
    let (answer, mut report) = reported(input, schedule, found)?;
    let replay = replay_of(alloc, &answer)?;
    report.own = Own::Replay { schedule, replay };
    Ok(report)
}

/// The report of what `show` found of a trace that is called so.
pub fn show_report<'a>(
    alloc: Global,
    input: &'a str,
    found: Found,
) -> Result<Report<'a>, AllocError> {
    let (answer, mut report) = reported(input, input, found)?;
    let sections = sections_of(alloc, page_of(&answer))?;
    report.own = Own::Page { sections };
    if let Answer::NoRow { first, last } = answer {
        report.parts = Parts::headed(alloc, no_row(alloc, first, last)?);
    }
    Ok(report)
}

/// The page of an answer that shows one; of each other answer it is empty.
fn page_of(answer: &Answer) -> &str {
    match answer {
        Answer::Shown { page } => from_utf8(page.as_slice()).unwrap_or(""),
        _ => "",
    }
}

/// The report of the page on a number that is printed.
pub fn page_report<'a>(alloc: Global, subject: Subject) -> Result<Report<'a>, AllocError> {
    let mut sections = sections_of(alloc, page(subject))?;
    let mut parts = Parts::none(alloc);
    if !sections.is_empty() {
        parts.head = Some(sections.remove(0).head);
    }
    let outcome = Outcome {
        verdict: Verdict::Explained,
        row: None,
        cause: Some(numbered(subject)),
        class: None,
    };
    Ok(Report {
        file: None,
        outcome,
        place: None,
        parts,
        own: Own::Page { sections },
    })
}

/// What was found, as an answer and as a report of a trace that is called so, and of what is beside it, with what `check` says.
fn reported<'a>(
    input: &'a str,
    other: &'a str,
    found: Found,
) -> Result<(Answer, Report<'a>), AllocError> {
    let Found {
        answer,
        about,
        told,
    } = found;
    let file = match about {
        About::Trace => input,
        About::Other => other,
    };
    let Told {
        refused,
        parts,
        waiting,
    } = told?;
    let outcome = outcome_of(&answer, refused);
    let report = Report {
        file: Some(input),
        outcome,
        place: place_of(file, outcome, &parts),
        parts,
        own: Own::Check {
            leases: leases_of(&answer),
            waiting,
        },
    };
    Ok((answer, report))
}

/// How many leases an accepted trace has.
fn leases_of(answer: &Answer) -> Option<u64> {
    match answer {
        Answer::Accepted { leases } => Some(*leases),
        _ => None,
    }
}

/// Where that lies in a file what the parts are about.
fn place_of<'a>(file: &'a str, outcome: Outcome, parts: &Parts) -> Option<Place<'a>> {
    let line = parts.line();
    if line.is_some() || outcome.verdict == Verdict::Failed || is_of_bytes(outcome) {
        Some(Place { file, line })
    } else {
        None
    }
}

/// Whether something is wrong with a file that has no lines.
fn is_of_bytes(outcome: Outcome) -> bool {
    outcome.verdict == Verdict::Unreadable && outcome.row.is_none() && outcome.cause.is_some()
}

/// What is answered, in a word, of which row, and why. What is known of the refused row beside an answer tells its class.
fn outcome_of(answer: &Answer, refused: Option<RefusedRow>) -> Outcome
    ensures verdict { result.verdict ≡ verdict_of answer.now }
    ensures row { result.row ≡ row_of answer.now refused }
    ensures class { result.class ≡ class_of answer.now refused }
    ensures number { option_map (λ it. it.number) result.cause ≡ option_map number_of (subject_of answer.now refused) }
    ensures name { option_map (λ it. it.name.now) result.cause ≡ option_map name_of (subject_of answer.now refused) }
{
    Outcome {
        verdict: verdict_of(answer),
        row: row_of(answer, refused),
        cause: cause_of(answer, refused),
        class: class_of(answer, refused),
    }
}

/// The word for an answer.
fn verdict_of(answer: &Answer) -> Verdict
    ensures { result ≡ verdict_of answer.now }
{
    match answer {
        Answer::Accepted { .. } => Verdict::Accepted,
        Answer::Refused { .. } | Answer::HarmShown { .. } | Answer::Unfollowed { .. } => {
            Verdict::Refused
        }
        Answer::Verified { holds: true } => Verdict::Yes,
        Answer::Verified { holds: false } => Verdict::No,
        Answer::Replayed { ending, .. } => verdict_of_end(ending),
        Answer::Shown { .. } => Verdict::Shown,
        Answer::Explained { .. } => Verdict::Explained,
        Answer::Written { .. } | Answer::Decoded { .. } | Answer::Scheduled { .. } => {
            Verdict::Written
        }
        Answer::BadLine { .. }
        | Answer::BadWord
        | Answer::BadCertificate { .. }
        | Answer::NoRow { .. } => Verdict::Unreadable,
        Answer::Memory | Answer::Device => Verdict::Failed,
    }
}

/// The word for how a replay ends.
fn verdict_of_end(ending: &ReplayEnd) -> Verdict
    ensures { result ≡ verdict_of_end ending.now }
{
    match ending {
        ReplayEnd::NoHarm => Verdict::NoHarm,
        ReplayEnd::Harmful { .. } => Verdict::Harm,
        ReplayEnd::NotPossible { .. } => Verdict::NotPossible,
    }
}

/// The row that an answer is about.
fn row_of(answer: &Answer, refused: Option<RefusedRow>) -> Option<u32>
    ensures { result ≡ row_of answer.now refused }
{
    match answer {
        Answer::Refused { row, .. } | Answer::HarmShown { row, .. } => Some(*row),
        Answer::BadLine { line, .. } => Some(*line),
        Answer::Verified { holds: false } => match refused {
            Some(it) => Some(it.row),
            None => None,
        },
        _ => None,
    }
}

/// The rule that is broken, or what is wrong.
fn cause_of(answer: &Answer, refused: Option<RefusedRow>) -> Option<Numbered>
    ensures number { option_map (λ it. it.number) result ≡ option_map number_of (subject_of answer.now refused) }
    ensures name { option_map (λ it. it.name.now) result ≡ option_map name_of (subject_of answer.now refused) }
{
    match subject_of(answer, refused) {
        Some(subject) => Some(numbered(subject)),
        None => None,
    }
}

/// The number and the name that are printed, with the page on it.
fn numbered(subject: Subject) -> Numbered
    ensures number { result.number ≡ number_of subject }
    ensures name { result.name.now ≡ name_of subject }
{
    Numbered {
        number: subject.number(),
        name: subject.name(),
        page: page(subject),
    }
}

/// What has the number that is printed.
fn subject_of(answer: &Answer, refused: Option<RefusedRow>) -> Option<Subject>
    ensures { result ≡ subject_of answer.now refused }
{
    match answer {
        Answer::Refused { refusal, .. } | Answer::HarmShown { refusal, .. } => {
            Some(Subject::Rule(*refusal))
        }
        Answer::BadLine { fault, .. } => Some(Subject::Line(*fault)),
        Answer::BadCertificate { fault } => Some(Subject::Certificate(*fault)),
        Answer::Memory => Some(Subject::Certificate(CertFault::Memory)),
        Answer::Device => Some(Subject::Device),
        Answer::Verified { holds: false } => match refused {
            Some(it) => Some(Subject::Rule(it.refusal)),
            None => None,
        },
        _ => None,
    }
}

/// Why something isn't as it must be.
fn class_of(answer: &Answer, refused: Option<RefusedRow>) -> Option<Cause>
    ensures { result ≡ class_of answer.now refused }
{
    match answer {
        Answer::Refused { .. } | Answer::HarmShown { .. } | Answer::Verified { holds: false } => {
            match refused {
                Some(it) => Some(it.class),
                None => None,
            }
        }
        Answer::BadLine { .. } | Answer::BadCertificate { .. } | Answer::NoRow { .. } => {
            Some(Cause::Text)
        }
        Answer::Memory => Some(Cause::Memory),
        Answer::Device => Some(Cause::Device),
        _ => None,
    }
}

/// Which rows may be asked for.
fn no_row(alloc: Global, first: u32, last: u32) -> Result<String, AllocError> {
    if last < first {
        String::from_str(alloc, "no such row: the trace has none")
    } else {
        format!(in alloc; "no such row: {first} to {last} can be shown")
    }
}

/// A run that does harm, with the lines of its schedule.
fn run_of(alloc: Global, found: Option<FoundHarm>) -> Result<Option<Run>, AllocError> {
    let Some(FoundHarm { schedule, harm }) = found else {
        return Ok(None);
    };
    let text = from_utf8(schedule.as_slice()).unwrap_or("");
    let mut lines = Vec::new(alloc);
    for line in text.lines() {
        lines.push(String::from_str(alloc, line)?)?;
    }
    Ok(Some(Run {
        schedule: lines,
        harm,
    }))
}

/// What the controller took in a replay, and how this ends; of another answer nothing.
fn replay_of(alloc: Global, answer: &Answer) -> Result<Replay, AllocError> {
    let Answer::Replayed { seen, ending } = answer else {
        return Ok(Replay {
            takes: Vec::new(alloc),
            step: None,
            harm: None,
        });
    };
    let (step, harm) = match ending {
        ReplayEnd::NoHarm => (None, None),
        ReplayEnd::Harmful { step, harm } => (Some(*step), Some(*harm)),
        ReplayEnd::NotPossible { step } => (Some(*step), None),
    };
    let takes = takes_in(alloc, seen)?;
    Ok(Replay { takes, step, harm })
}

/// What the controller took.
fn takes_in(alloc: Global, seen: &[Seen]) -> Result<Vec<Take>, AllocError> {
    let mut takes = Vec::new(alloc);
    for shown in seen {
        if let Seen::Took { ring, at, words } = shown {
            takes.push(Take::of(alloc, *ring, *at, &words.w)?)?;
        }
    }
    Ok(takes)
}
