//! Makes the lazy schedule of a trace, and writes the answer.
ghost use Rattle.std.specs.Prelude.{Some, ◌≡◌, ◌+◌, ◌≤◌, false, length, true, IsErr};
ghost use Rattle.trace_reader.specs.Entries.{text_of};
ghost use Rattle.traces.specs.Limits.{most_lines};
ghost use Rattle.answers.specs.Answers.{goes_out};
ghost use Rattle.answers.specs.Inputs.{opened};
ghost use Rattle.answers.specs.Telling.{IsTold};
ghost use Rattle.command_runs.specs.ScheduleAnswers.{IsScheduleAnswer, IsScheduled};

use crate::reading::bytes_of;
use crate::version_note::note_on_check;
use answers::{Answer, Asked, Status, tell, tell_failure};
use replayer::{ScheduleFault, lazy_schedule};
use std::alloc::Global;
use std::io::{self, Read, Write};
use trace_reader::{Trace, print_schedule, read_trace};

/// Writes the lazy schedule of the trace that `input` holds to `out`: all its rows, and directly before each event that is read the
/// controller's steps that it needs. A row that breaks a rule is told there in its place, and what hinders the answer to `err`.
pub fn run_schedule<R: Read + Drop, O: Write, E: Write>(
    alloc: Global,
    asked: &Asked,
    input: io::Result<R>,
    out: &mut O,
    err: &mut E,
) -> Status
    ensures told { (answer : Answer) × IsScheduleAnswer (opened R.remaining input) answer
        × IsTold asked.now.explains answer result (O.contents out.old) (O.contents out.new) (E.contents err.old) (E.contents err.new) }
    ensures out { result ≡ Status.Unreadable → out.new ≡ out.old }
    ensures err { asked.now.explains ≡ false → goes_out result ≡ true → err.new ≡ err.old }
    ensures unopened { IsErr input → out.new ≡ out.old }
    ensures unanswered { IsErr input → goes_out result ≡ false }
{
    match bytes_of(alloc, input) {
        Ok(text) => {
            let answer = schedule_answer(alloc, &text);
            let note = note_on_check(alloc, asked, &text, &answer);
            tell(alloc, asked.explains, answer, note, out, err)
        }
        Err(error) => tell_failure(alloc, asked, error, out, err),
    }
}

/// The answer to the text of a trace.
fn schedule_answer(alloc: Global, text: &[u8]) -> Answer
    ensures { IsScheduleAnswer (Some text.now) result }
{
    match read_trace(alloc, text) {
        Ok(trace) => scheduled_answer(alloc, &trace),
        Err(fault) => Answer::from(fault),
    }
}

/// The answer to a trace.
fn scheduled_answer(alloc: Global, trace: &Trace) -> Answer
    requires { trace.now.first + length trace.now.rows ≤ most_lines + 1 }
    ensures { IsScheduled (text_of trace.now) result }
{
    match lazy_schedule(alloc, trace) {
        Ok(schedule) => match print_schedule(alloc, &schedule) {
            Ok(schedule) => Answer::Scheduled { schedule },
            Err(error) => Answer::from(error),
        },
        Err(ScheduleFault::Refused { row, refusal }) => Answer::Refused { row, refusal },
        Err(ScheduleFault::Memory) => Answer::Memory,
    }
}
