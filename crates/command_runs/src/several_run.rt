//! Checks one of several traces, and writes the answer behind its name.
ghost use Rattle.std.specs.Prelude.{false, IfOk, string_bytes};
ghost use Rattle.answers.specs.Inputs.{opened};
ghost use Rattle.answers.specs.Telling.{IsNote, IsToldOf};
ghost use Rattle.answers.specs.declared.answer.Answer.{Answer};
ghost use Rattle.command_runs.specs.CheckAnswers.{IsVerdictAlone};
ghost use Rattle.command_runs.specs.Outcomes.{told_status};
ghost use Rattle.command_runs.specs.TraceTexts.{IsTraceAnswer};

use crate::judged::{Judged, unread};
use crate::outcome::Outcome;
use crate::read_note::note_as_read;
use crate::recorded::Recorded;
use crate::stream_answers::counted_answer;
use answers::{Asked, tell_named};
use std::alloc::Global;
use std::io::{self, Read, Seek, Write};

/// Checks the trace that `input` holds, which is one of several: its name stands before the verdict, which goes to `out`, or before what
/// hinders it, which goes to `err`. An error is that this couldn't be told.
pub fn run_check_named<R: Read + Seek + Drop, O: Write, E: Write>(
    alloc: Global,
    asked: &Asked,
    input: io::Result<R>,
    out: &mut O,
    err: &mut E,
) -> io::Result<Outcome>
    ensures { (answer : Answer) × IsTraceAnswer false IsVerdictAlone (opened R.remaining input) answer
        × IsToldOf asked.now.input.now asked.now.explains answer (told_status result) (O.contents out.old) (O.contents out.new) (E.contents err.old) (E.contents err.new) }
{
    let Judged {
        answer,
        note,
        class,
    } = judged_alone(alloc, asked, input);
    match tell_named(alloc, asked, answer, note, out, err) {
        Ok(status) => Ok(Outcome { status, class }),
        Err(error) => Err(error),
    }
}

/// Judges the trace that an input holds, as it is read.
fn judged_alone<R: Read + Seek + Drop>(alloc: Global, asked: &Asked, input: io::Result<R>) -> Judged
    ensures right { IsTraceAnswer false IsVerdictAlone (opened R.remaining input) result.answer }
    ensures noted { IfOk result.note (λ note. IsNote asked.now.explains result.answer (string_bytes note)) }
{
    match input {
        Ok(input) => {
            let mut source = Recorded::new(alloc, input, asked.may_explain());
            let answer = counted_answer(alloc, &mut source);
            let explained = note_as_read(alloc, asked, &[], source, &answer);
            Judged::of(answer, explained)
        }
        Err(error) => unread(alloc, asked, error),
    }
}
