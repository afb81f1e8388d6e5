//! Checks a trace, and looks for a run that does harm beside it. That needs all its rows in memory.
ghost use Rattle.std.specs.Prelude.{Some, ◌≡◌, ◌+◌, ◌≤◌, length, true, IfErr, IfOk, Ok, string_bytes};
ghost use Rattle.answers.specs.Telling.{IsNote};
ghost use Rattle.command_runs.specs.CheckAnswers.{IsCheckAnswer, IsHindered};
ghost use Rattle.trace_reader.specs.Entries.{text_of};
ghost use Rattle.trace_reader.specs.Reading.{trace_of};
ghost use Rattle.trace_reader.specs.TraceOfText.{TraceText};
ghost use Rattle.traces.specs.Limits.{most_lines};
ghost use Rattle.ownership_rules.specs.Rules.{trace_verdict};
ghost use Rattle.command_runs.specs.HarmAnswers.{IsHarmFound, IsRefusalTold};

use crate::check_run::kept_answer;
use crate::judged::{Judged, unkept, unread};
use crate::reading::bytes_of;
use crate::version_note::explain_check;
use answers::{Answer, Asked, FoundHarm, broken};
use diagnostics::Explanation;
use ownership_rules::Refusal;
use replayer::{Search, harmful_run};
use std::alloc::{AllocError, Global};
use std::io::{self, Read, Write};
use trace_reader::{Counted, ReadFault, Trace, print_schedule, read_trace};

/// Judges the trace that an input holds; of a refused one a run that does harm is looked for.
pub fn judged_with_harm<R: Read + Drop, C: Write>(
    alloc: Global,
    asked: &Asked,
    search: Search,
    input: R,
    certificate: &mut Option<C>,
) -> Judged
    ensures right { IsCheckAnswer true true C.contents certificate.old certificate.new (R.remaining input) result.answer }
    ensures noted { IfOk result.note (λ note. IsNote asked.now.explains result.answer (string_bytes note)) }
{
    let text = match bytes_of(alloc, Ok(input)) {
        Ok(text) => text,
        Err(error) => return unread(alloc, asked, error),
    };
    match check_answer(alloc, search, &text, certificate) {
        Ok(answer) => {
            let explained = explained_check(alloc, asked, &text, &answer);
            Judged::of(answer, explained)
        }
        Err(error) => unkept(alloc, asked, error),
    }
}

/// What explains an answer to the text of a trace, as far as that is asked for.
fn explained_check(
    alloc: Global,
    asked: &Asked,
    text: &[u8],
    answer: &Answer,
) -> Result<Explanation, AllocError>
    ensures { IfOk result (λ told. IsNote asked.now.explains answer.now (string_bytes told.text)) }
{
    if !asked.is_explained(answer) {
        return Ok(broken(String::new(alloc)));
    }
    let explained = explain_check(alloc, &asked.explaining(), text, answer)?;
    Ok(asked.as_told(alloc, explained))
}

/// The answer to the text of a trace, with its certificate written; or why this can't be written.
pub(crate) fn check_answer<C: Write>(
    alloc: Global,
    search: Search,
    text: &[u8],
    certificate: &mut Option<C>,
) -> io::Result<Answer>
    ensures answered { IfOk result (λ answer. IsCheckAnswer true true C.contents certificate.old certificate.new (Some text.now) answer) }
    ensures hindered { IfErr result (λ _. IsHindered true C.contents certificate.old certificate.new (Some text.now)) }
{
    let mut source = Counted::new(text);
    match kept_answer(alloc, true, &mut source, certificate)? {
        Answer::Refused { row, refusal } => Ok(shown_answer(alloc, search, text, row, refusal)),
        answer => Ok(answer),
    }
}

/// The answer to the text of a trace with a row that breaks a rule, with a run that does harm, if one is found.
fn shown_answer(alloc: Global, search: Search, text: &[u8], row: u32, refusal: Refusal) -> Answer
    ensures { (trace : TraceText) → trace_of true text.now ≡ Ok trace → trace_verdict trace.header trace.first trace.rows ≡ Some (row, refusal) → IsRefusalTold true trace result }
{
    match found_harm(alloc, search, text, row) {
        Ok(harm) => Answer::HarmShown { row, refusal, harm },
        Err(error) => Answer::from(error),
    }
}

/// The schedule of a run that does harm, as it is printed, if one is found.
fn found_harm(
    alloc: Global,
    search: Search,
    text: &[u8],
    row: u32,
) -> Result<Option<FoundHarm>, AllocError>
    ensures { IfOk result (λ found. (trace : TraceText) → trace_of true text.now ≡ Ok trace → IsHarmFound trace row found) }
{
    match read_trace(alloc, text) {
        Ok(trace) => harm_beside(alloc, search, &trace, row),
        Err(ReadFault::Line { .. }) => Ok(None),
        Err(ReadFault::Memory) => Err(AllocError),
    }
}

/// The same, beside the rows of a trace.
fn harm_beside(
    alloc: Global,
    search: Search,
    trace: &Trace,
    row: u32,
) -> Result<Option<FoundHarm>, AllocError>
    requires { trace.now.first + length trace.now.rows ≤ most_lines + 1 }
    ensures { IfOk result (λ found. IsHarmFound (text_of trace.now) row found) }
{
    match harmful_run(alloc, trace, row, search)? {
        Some(run) => {
            let schedule = print_schedule(alloc, &run.schedule)?;
            Ok(Some(FoundHarm {
                schedule,
                harm: run.harm,
            }))
        }
        None => Ok(None),
    }
}
