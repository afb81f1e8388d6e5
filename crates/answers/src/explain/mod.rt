//! Second lines on standard error: in plain words what is wrong, for a person.
ghost use Rattle.std.specs.Prelude.{◌≡◌, ◌||◌, ◌&&◌, true, IfOk, string_bytes};
ghost use Rattle.std.specs.IoError.{error_kind};
ghost use Rattle.answers.specs.Answers.{answer_of_kind, is_refused};
ghost use Rattle.answers.specs.Telling.{IsNote, IsNoteOnFailure, IsPlainNote, IsReason};

mod certificates;
mod harms;
mod words;

use crate::answer::Answer;
use crate::replay_lines::ReplayEnd;
use block_text::BlockWords;
use certificate::NoCertificate;
use certificates::{no_certificate, other_lease};
pub use certificates::{Remarks, remarks_on_certificate, remarks_on_leases};
use controller_findings::{notes_on_harm, notes_on_stuck};
use diagnostics::{
    Class, Colors, Diagnostic, Explanation, Matter, View, diagnostic_of_schedule_line,
    diagnostic_of_step, explain_bad_line, explain_plan_line,
};
use explanations::{explain_refused, explain_unfollowed};
pub use harms::harm_note;
use harms::harm_words;
use ownership_rules::Refusal;
use plan_writer::PlanRefusal;
use ring_knowledge::Lease;
use std::alloc::{AllocError, Global};
use std::io;
use traces::Trace;

/// What a command is asked for beside its answer.
#[derive(Clone, Copy)]
pub struct Asked<'a> {
    /// How the input is called in messages.
    pub input: &'a str,
    /// Whether what is wrong is told in plain words too.
    pub explains: bool,
    /// Whether these words are coloured.
    pub colors: Colors,
    /// Whether the class of a refusal is looked for, which what explains it alone tells.
    pub classifies: bool,
}

impl<'a> Asked<'a> {
    /// How a diagnostic of the input is shown.
    pub fn view(&self) -> View<'a>
        ensures path { result.path.now ≡ self.now.input.now }
        ensures colors { result.colors ≡ self.now.colors }
    {
        View {
            path: self.input,
            colors: self.colors,
        }
    }

    /// The same of another input.
    pub fn of<'b>(&self, input: &'b str) -> Asked<'b>
        ensures input { result.input.now ≡ input.now }
        ensures explains { result.explains ≡ self.now.explains }
        ensures colors { result.colors ≡ self.now.colors }
        ensures classifies { result.classifies ≡ self.now.classifies }
    {
        Asked {
            input,
            explains: self.explains,
            colors: self.colors,
            classifies: self.classifies,
        }
    }

    /// The same, where what is wrong is told.
    pub fn explaining(&self) -> Asked<'a>
        ensures input { result.input.now ≡ self.now.input.now }
        ensures explains { result.explains ≡ true }
        ensures colors { result.colors ≡ self.now.colors }
        ensures classifies { result.classifies ≡ self.now.classifies }
    {
        Asked {
            input: self.input,
            explains: true,
            colors: self.colors,
            classifies: self.classifies,
        }
    }

    /// Whether an answer may have to be explained.
    pub fn may_explain(&self) -> bool
        ensures { result ≡ self.now.explains || self.now.classifies }
    {
        self.explains || self.classifies
    }

    /// Whether this answer is explained, to be told or for its class.
    pub fn is_explained(&self, answer: &Answer) -> bool
        ensures { result ≡ self.now.explains || (self.now.classifies && is_refused answer.now) }
    {
        let is_refused = matches!(answer, Answer::Refused { .. } | Answer::HarmShown { .. });
        self.explains || (self.classifies && is_refused)
    }

    /// What explains an answer, as far as it is told: where it was looked for its class, nothing but that.
    pub fn as_told(&self, alloc: Global, explained: Explanation) -> Explanation
        ensures note { (answer : Answer) → IsNote self.now.explains answer (string_bytes result.text) }
        ensures class { result.class ≡ explained.class }
    {
        if self.explains {
            return explained;
        }
        Explanation {
            text: String::new(alloc),
            class: explained.class,
        }
    }
}

/// What a person is told of an answer to a trace, beside its line.
pub fn note_on_trace(
    alloc: Global,
    asked: &Asked,
    text: &[u8],
    answer: &Answer,
) -> Result<String, AllocError>
    ensures { IfOk result (λ note. IsNote asked.now.explains answer.now (string_bytes note)) }
{
    let told = explain_trace(alloc, asked, text, answer)?;
    Ok(told.text)
}

/// The same, with the class of a refusal.
pub fn explain_trace(
    alloc: Global,
    asked: &Asked,
    text: &[u8],
    answer: &Answer,
) -> Result<Explanation, AllocError>
    ensures { IfOk result (λ note. IsNote asked.now.explains answer.now (string_bytes note.text)) }
{
    if !asked.explains {
        return Ok(broken(String::new(alloc)));
    }
    match answer {
        Answer::BadLine { line, fault } => {
            let told = explain_bad_line(alloc, &asked.view(), text, *line, *fault)?;
            Ok(broken(told))
        }
        Answer::Refused { row, refusal } => {
            explain_refused(alloc, &asked.view(), text, *row, *refusal)
        }
        Answer::HarmShown { row, refusal, harm } => {
            let mut note = explain_refused(alloc, &asked.view(), text, *row, *refusal)?;
            let words = harm_words(alloc, asked.colors, *row, harm)?;
            note.text.push_str(&words)?;
            Ok(note)
        }
        _ => Ok(broken(String::new(alloc))),
    }
}

/// What is told of a line that isn't left unjudged.
pub fn broken(text: String) -> Explanation
    ensures text { result.text ≡ text }
    ensures class { result.class ≡ Class.Broken }
{
    Explanation {
        text,
        class: Class::Broken,
    }
}

/// What a person is told of an answer to a plan, beside its line.
pub fn note_on_plan(
    alloc: Global,
    asked: &Asked,
    text: &[u8],
    answer: &Answer,
) -> Result<String, AllocError>
    ensures { IfOk result (λ note. IsNote asked.now.explains answer.now (string_bytes note)) }
{
    if !asked.explains {
        return Ok(String::new(alloc));
    }
    match answer {
        Answer::BadLine { line, fault } => {
            explain_plan_line(alloc, &asked.view(), text, *line, *fault)
        }
        Answer::Unfollowed { line, refusal } => {
            explain_unfollowed(alloc, &asked.view(), text, *line, matter_of(*refusal))
        }
        _ => Ok(String::new(alloc)),
    }
}

/// The matter of a line of a plan that can't be followed.
fn matter_of(refusal: PlanRefusal) -> Matter {
    match refusal {
        PlanRefusal::NotDeclared => Matter::Rule(Refusal::NotDeclared),
        PlanRefusal::RingFull => Matter::Rule(Refusal::RingFull),
        PlanRefusal::BadDescriptor => Matter::Rule(Refusal::BadDescriptor),
        PlanRefusal::NotInProfile => Matter::Rule(Refusal::NotInProfile),
        PlanRefusal::NotGiven => Matter::NotGiven,
    }
}

/// What a person is told of an answer to a schedule beside a trace, beside its line.
pub fn note_on_schedule(
    alloc: Global,
    asked: &Asked,
    trace: &Trace,
    text: &[u8],
    answer: &Answer,
) -> Result<String, AllocError>
    ensures { IfOk result (λ note. IsNote asked.now.explains answer.now (string_bytes note)) }
{
    if !asked.explains {
        return Ok(String::new(alloc));
    }
    match diagnostic_on_schedule(alloc, trace, text, answer)? {
        Some(diagnostic) => diagnostic.told(alloc, &asked.view()),
        None => Ok(String::new(alloc)),
    }
}

/// What is wrong with a line of a schedule beside a trace, or with a step, where an answer says that one is.
pub fn diagnostic_on_schedule(
    alloc: Global,
    trace: &Trace,
    text: &[u8],
    answer: &Answer,
) -> Result<Option<Diagnostic>, AllocError> {
    let diagnostic = match answer {
        Answer::BadLine { line, fault } => {
            diagnostic_of_schedule_line(alloc, text, *line, *fault)?
        }
        Answer::Replayed {
            ending: ReplayEnd::Harmful { step, harm },
            seen,
        } => {
            let found = notes_on_harm(alloc, trace, *harm, seen.as_slice())?;
            diagnostic_of_step(alloc, text, *step, Some(*harm), found)?
        }
        Answer::Replayed {
            ending: ReplayEnd::NotPossible { step },
            seen,
        } => {
            let found = notes_on_stuck(alloc, trace, seen.as_slice())?;
            diagnostic_of_step(alloc, text, *step, None, found)?
        }
        _ => return Ok(None),
    };
    Ok(Some(diagnostic))
}

/// What a person is told of the answer to bytes that are no certificate, beside its line.
pub fn note_on_certificate(
    alloc: Global,
    asked: &Asked,
    why: &NoCertificate,
    answer: &Answer,
) -> Result<String, AllocError>
    ensures { IfOk result (λ note. IsNote asked.now.explains answer.now (string_bytes note)) }
{
    if !asked.explains {
        return Ok(String::new(alloc));
    }
    no_certificate(alloc, asked.colors, why)
}

/// What a person is told of the answer to a certificate that isn't the list of its trace's leases: the first that differs.
pub fn note_on_leases(
    alloc: Global,
    asked: &Asked,
    given: &[Lease],
    own: &[Lease],
    answer: &Answer,
) -> Result<String, AllocError>
    ensures { IfOk result (λ note. IsNote asked.now.explains answer.now (string_bytes note)) }
{
    if !asked.explains {
        return Ok(String::new(alloc));
    }
    other_lease(alloc, asked.colors, given, own)
}

/// What a person is told of an answer to words, where these make no block.
pub fn note_on_words(
    alloc: Global,
    explains: bool,
    words: &BlockWords,
    answer: &Answer,
) -> Result<String, AllocError>
    ensures { IfOk result (λ note. IsNote explains answer.now (string_bytes note)) }
{
    if !explains || *answer != Answer::BadWord {
        return Ok(String::new(alloc));
    }
    for word in [words.first, words.second, words.third, words.fourth] {
        if word.len() != 8 || !word.bytes().all(|b| b.is_ascii_hexdigit()) {
            return format!(in alloc; "xhcitrace: a word has 8 hex digits, and {word:?} hasn't\n");
        }
    }
    Ok(String::new(alloc))
}

/// Which input or stream failed, and why, as the system says it; want of memory is told without.
pub fn note_on_failure(alloc: Global, asked: &Asked, error: io::Error) -> Result<String, AllocError>
    ensures named { IfOk result (λ note. IsNoteOnFailure asked.now.input.now (error_kind error) (string_bytes note)) }
    ensures answered { IfOk result (λ note. IsNote asked.now.explains (answer_of_kind (error_kind error)) (string_bytes note)) }
    ensures device { IfOk result (λ note. IsNote asked.now.explains Answer.Device (string_bytes note)) }
{
    let note = failure_note(alloc, asked.input, error)?;
    Ok(note)
}

/// The same of an input or a stream of this name.
pub(crate) fn failure_note(
    alloc: Global,
    name: &str,
    error: io::Error,
) -> Result<String, AllocError>
    ensures { IfOk result (λ note. IsNoteOnFailure name.now (error_kind error) (string_bytes note)) }
{
    match error.kind() {
        io::ErrorKind::OutOfMemory => Ok(String::new(alloc)),
        _ => reason_line(alloc, name, error),
    }
}

/// What failed, and why.
fn reason_line(alloc: Global, name: &str, error: io::Error) -> Result<String, AllocError>
    ensures { IfOk result (λ note. IsReason name.now (string_bytes note)) }
{
    let reason = format!(in alloc; "{error}")?;
    let note = format!(in alloc; "xhcitrace: {name}: {reason}\n")?;
    Ok(note)
}
