//! Replays a schedule beside a trace, and writes the answer.
ghost use Rattle.std.specs.Prelude.{Some, ◌≡◌, ◌⊎◌, false, true, IsErr};
ghost use Rattle.trace_reader.specs.Entries.{text_of};
ghost use Rattle.answers.specs.Answers.{goes_out};
ghost use Rattle.answers.specs.Inputs.{opened};
ghost use Rattle.command_runs.specs.ReplayAnswers.{IsReplayAnswer, IsReplayBeside, IsReplayed};
ghost use Rattle.command_runs.specs.TraceTexts.{IsUnread};
ghost use Rattle.answers.specs.Telling.{IsTold};

use crate::reading::bytes_of;
use answers::{
    Answer, Asked, ReplayEnd, Status, note_on_schedule, note_on_trace, tell, tell_failure,
};
use replayer::{ReplayFault, replay};
use std::alloc::Global;
use std::io::{self, Read, Write};
use trace_reader::{Schedule, Trace, read_schedule, read_trace};

/// Replays the schedule of the input that `open_schedule` opens beside the trace that `trace` holds, with all its rows, once it was read;
/// where it is none, the schedule isn't opened. The takes go to `out`, and how the replay ends; what hinders it to `err`. `beside` is how the
/// schedule is called in messages.
pub fn run_replay<R, S, F, O: Write, E: Write>(
    alloc: Global,
    asked: &Asked,
    beside: &str,
    trace: io::Result<R>,
    open_schedule: F,
    out: &mut O,
    err: &mut E,
) -> Status
where
    R: Read + Drop,
    S: Read + Drop,
    F: FnOnce() -> io::Result<S> + Drop,
    requires { F.pre open_schedule }
    ensures told { (answer : Answer) × (IsUnread true (opened R.remaining trace) answer
        ⊎ ((schedule : _) × F.post open_schedule schedule × IsReplayAnswer (opened R.remaining trace) (opened S.remaining schedule) answer))
        × IsTold asked.now.explains answer result (O.contents out.old) (O.contents out.new) (E.contents err.old) (E.contents err.new) }
    ensures out { result ≡ Status.Unreadable → out.new ≡ out.old }
    ensures err { asked.now.explains ≡ false → goes_out result ≡ true → err.new ≡ err.old }
    ensures untraced { IsErr trace → out.new ≡ out.old }
    ensures unstarted { IsErr trace → goes_out result ≡ false }
    ensures unopened { ((schedule : _) → F.post open_schedule schedule → IsErr schedule) → out.new ≡ out.old }
    ensures unanswered { ((schedule : _) → F.post open_schedule schedule → IsErr schedule) → goes_out result ≡ false }
{
    let text = match bytes_of(alloc, trace) {
        Ok(text) => text,
        Err(error) => return tell_failure(alloc, asked, error, out, err),
    };
    match read_trace(alloc, &text) {
        Ok(trace) => run_beside(alloc, asked, beside, &trace, open_schedule(), out, err),
        Err(fault) => {
            let answer = Answer::from(fault);
            let note = note_on_trace(alloc, asked, &text, &answer);
            tell(alloc, asked.explains, answer, note, out, err)
        }
    }
}

/// Replays the schedule that an input holds beside a trace.
fn run_beside<S: Read + Drop, O: Write, E: Write>(
    alloc: Global,
    asked: &Asked,
    beside: &str,
    trace: &Trace,
    schedule: io::Result<S>,
    out: &mut O,
    err: &mut E,
) -> Status
    ensures told { (answer : Answer) × IsReplayBeside (text_of trace.now) (opened S.remaining schedule) answer
        × IsTold asked.now.explains answer result (O.contents out.old) (O.contents out.new) (E.contents err.old) (E.contents err.new) }
    ensures out { result ≡ Status.Unreadable → out.new ≡ out.old }
    ensures err { asked.now.explains ≡ false → goes_out result ≡ true → err.new ≡ err.old }
    ensures unopened { IsErr schedule → out.new ≡ out.old }
    ensures unanswered { IsErr schedule → goes_out result ≡ false }
{
    let named = asked.of(beside);
    match bytes_of(alloc, schedule) {
        Ok(text) => {
            let answer = replay_answer(alloc, trace, &text);
            let note = note_on_schedule(alloc, &named, trace, &text, &answer);
            tell(alloc, asked.explains, answer, note, out, err)
        }
        Err(error) => tell_failure(alloc, &named, error, out, err),
    }
}

/// The answer beside a trace to the text of a schedule.
pub(crate) fn replay_answer(alloc: Global, trace: &Trace, text: &[u8]) -> Answer
    ensures { IsReplayBeside (text_of trace.now) (Some text.now) result }
{
    match read_schedule(alloc, text) {
        Ok(schedule) => replay_of(alloc, trace, &schedule),
        Err(fault) => Answer::from(fault),
    }
}

/// The replay of a schedule beside a trace, as it is answered.
fn replay_of(alloc: Global, trace: &Trace, schedule: &Schedule) -> Answer
    ensures { IsReplayed (text_of trace.now) schedule.now result }
{
    match replay(alloc, trace, schedule) {
        Ok(seen) => Answer::Replayed {
            seen,
            ending: ReplayEnd::NoHarm,
        },
        Err(ReplayFault::Harmful { step, harm, seen }) => Answer::Replayed {
            seen,
            ending: ReplayEnd::Harmful { step, harm },
        },
        Err(ReplayFault::NotPossible { step, seen }) => Answer::Replayed {
            seen,
            ending: ReplayEnd::NotPossible { step },
        },
        Err(ReplayFault::Memory) => Answer::Memory,
    }
}
