//! Writes the trace of a plan, and what hinders it.
ghost use Rattle.std.specs.Prelude.{Some, ◌≡◌, false, true, IsErr};
ghost use Rattle.answers.specs.Answers.{goes_out};
ghost use Rattle.answers.specs.Inputs.{opened};
ghost use Rattle.command_runs.specs.PlanAnswers.{IsPlanAnswer};
ghost use Rattle.answers.specs.Telling.{IsTold};

use crate::reading::bytes_of;
use answers::{Answer, Asked, Status, note_on_plan, tell, tell_failure};
use plan_writer::write_plan;
use std::alloc::Global;
use std::io::{self, Read, Write};

/// Writes the trace of the plan that `input` holds to `out`; a line that can't be followed is told there too, and what hinders
/// the answer to `err`.
pub fn run_write<R: Read + Drop, O: Write, E: Write>(
    alloc: Global,
    asked: &Asked,
    input: io::Result<R>,
    out: &mut O,
    err: &mut E,
) -> Status
    ensures told { (answer : Answer) × IsPlanAnswer (opened R.remaining input) answer
        × IsTold asked.now.explains answer result (O.contents out.old) (O.contents out.new) (E.contents err.old) (E.contents err.new) }
    ensures out { result ≡ Status.Unreadable → out.new ≡ out.old }
    ensures err { asked.now.explains ≡ false → goes_out result ≡ true → err.new ≡ err.old }
    ensures unopened { IsErr input → out.new ≡ out.old }
    ensures unanswered { IsErr input → goes_out result ≡ false }
{
    match bytes_of(alloc, input) {
        Ok(text) => {
            let answer = plan_answer(alloc, &text);
            let note = note_on_plan(alloc, asked, &text, &answer);
            tell(alloc, asked.explains, answer, note, out, err)
        }
        Err(error) => tell_failure(alloc, asked, error, out, err),
    }
}

/// The answer to the text of a plan.
fn plan_answer(alloc: Global, text: &[u8]) -> Answer
    ensures { IsPlanAnswer (Some text.now) result }
{
    match write_plan(alloc, text) {
        Ok(trace) => Answer::Written { trace },
        Err(fault) => fault.into(),
    }
}
