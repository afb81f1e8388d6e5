//! Shows who owns what before a row of a trace.
ghost use Rattle.std.specs.Prelude.{Some, ◌≡◌, false, true, IsErr};
ghost use Rattle.answers.specs.Answers.{goes_out};
ghost use Rattle.answers.specs.Inputs.{opened};
ghost use Rattle.answers.specs.Telling.{IsTold};
ghost use Rattle.trace_reader.specs.Entries.{text_of};
ghost use Rattle.command_runs.specs.ShowAnswers.{IsPageAnswer, IsShowAnswer};

use crate::reading::bytes_of;
use answers::{Answer, Asked, Status, note_on_trace, tell, tell_failure};
use knowledge_page::{ShowFault, Shown, left_waiting, page_of, shown_before};
use std::alloc::{AllocError, Global};
use std::io::{self, Read, Write};
use trace_reader::{Trace, read_long_trace};

/// Writes to `out` what is known, and who owns what, before a row, which is named by its line from 1, of the trace that `input` holds:
/// before the first that breaks a rule, or behind all, where none is named. What hinders the page goes to `err`.
pub fn run_show<R: Read + Drop, O: Write, E: Write>(
    alloc: Global,
    asked: &Asked,
    row: Option<u32>,
    input: io::Result<R>,
    out: &mut O,
    err: &mut E,
) -> Status
    ensures told { (answer : Answer) × IsShowAnswer row (opened R.remaining input) answer
        × IsTold asked.now.explains answer result (O.contents out.old) (O.contents out.new) (E.contents err.old) (E.contents err.new) }
    ensures out { result ≡ Status.Unreadable → out.new ≡ out.old }
    ensures err { asked.now.explains ≡ false → goes_out result ≡ true → err.new ≡ err.old }
    ensures unopened { IsErr input → out.new ≡ out.old }
    ensures unanswered { IsErr input → goes_out result ≡ false }
{
    match bytes_of(alloc, input) {
        Ok(text) => {
            let answer = show_answer(alloc, row, &text);
            let note = note_on_trace(alloc, asked, &text, &answer);
            tell(alloc, asked.explains, answer, note, out, err)
        }
        Err(error) => tell_failure(alloc, asked, error, out, err),
    }
}

/// The answer to the text of a trace.
pub(crate) fn show_answer(alloc: Global, row: Option<u32>, text: &[u8]) -> Answer
    ensures { IsShowAnswer row (Some text.now) result }
{
    match read_long_trace(alloc, text) {
        Ok(trace) => page_answer(alloc, row, &trace),
        Err(fault) => Answer::from(fault),
    }
}

/// The answer to a trace.
fn page_answer(alloc: Global, row: Option<u32>, trace: &Trace) -> Answer
    ensures { IsPageAnswer row (text_of trace.now) result }
{
    match shown_before(alloc, trace, row) {
        Ok(shown) => match page(alloc, trace, &shown) {
            Ok(page) => Answer::Shown {
                page: page.into_bytes(),
            },
            Err(error) => Answer::from(error),
        },
        Err(ShowFault::NoRow { first, last }) => Answer::NoRow { first, last },
        Err(ShowFault::Memory) => Answer::Memory,
    }
}

/// The page on what is shown of a trace.
fn page(alloc: Global, trace: &Trace, shown: &Shown) -> Result<String, AllocError> {
    let waiting = left_waiting(alloc, trace, shown)?;
    page_of(alloc, shown, &waiting)
}
