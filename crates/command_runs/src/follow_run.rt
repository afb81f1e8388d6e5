//! Checks a trace as it comes, and writes the answer.
ghost use Rattle.std.specs.Prelude.{◌≡◌, false, true, IfOk, IsErr, string_bytes};
ghost use Rattle.answers.specs.Answers.{goes_out};
ghost use Rattle.answers.specs.Inputs.{opened};
ghost use Rattle.answers.specs.Telling.{IsNote, IsTold};
ghost use Rattle.answers.specs.declared.answer.Answer.{Answer};
ghost use Rattle.command_runs.specs.FollowAnswers.{IsFollowAnswer};

use crate::judged::Judged;
use crate::outcome::Outcome;
use crate::read_note::note_as_read;
use crate::recorded::Recorded;
use crate::stream_answers::followed_answer;
use answers::{Asked, Status, tell, tell_failure};
use diagnostics::Class;
use std::alloc::Global;
use std::io::{self, Read, Seek, Write};

/// Checks the trace that `input` holds as its lines come: the first row that breaks a rule is told at once, and nothing is read behind it.
/// A verdict goes to `out`, and what hinders one to `err`, and there goes what is explained.
pub fn run_follow<R: Read + Seek + Drop, O: Write, E: Write>(
    alloc: Global,
    asked: &Asked,
    input: io::Result<R>,
    out: &mut O,
    err: &mut E,
) -> Outcome
    ensures told { (answer : Answer) × IsFollowAnswer (opened R.remaining input) answer
        × IsTold asked.now.explains answer result.status (O.contents out.old) (O.contents out.new) (E.contents err.old) (E.contents err.new) }
    ensures out { result.status ≡ Status.Unreadable → out.new ≡ out.old }
    ensures err { asked.now.explains ≡ false → goes_out result.status ≡ true → err.new ≡ err.old }
    ensures unopened { IsErr input → out.new ≡ out.old }
    ensures unanswered { IsErr input → goes_out result.status ≡ false }
{
    match input {
        Ok(input) => {
            let Judged {
                answer,
                note,
                class,
            } = followed(alloc, asked, input);
            let status = tell(alloc, asked.explains, answer, note, out, err);
            Outcome { status, class }
        }
        Err(error) => {
            let status = tell_failure(alloc, asked, error, out, err);
            Outcome {
                status,
                class: Class::Broken,
            }
        }
    }
}

/// Judges the trace that an input holds, as it comes.
fn followed<R: Read + Seek + Drop>(alloc: Global, asked: &Asked, input: R) -> Judged
    ensures right { IsFollowAnswer (R.remaining input) result.answer }
    ensures noted { IfOk result.note (λ note. IsNote asked.now.explains result.answer (string_bytes note)) }
{
    let mut source = Recorded::new(alloc, input, asked.may_explain());
    let answer = followed_answer(alloc, &mut source);
    let explained = note_as_read(alloc, asked, &[], source, &answer);
    Judged::of(answer, explained)
}
