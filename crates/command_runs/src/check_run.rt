//! Checks a trace, and writes the answer.
ghost use Rattle.std.specs.Prelude.{◌≡◌, false, true, is_some, IfErr, IfOk, IsErr, string_bytes};
ghost use Rattle.answers.specs.Answers.{goes_out};
ghost use Rattle.answers.specs.Inputs.{opened};
ghost use Rattle.answers.specs.Telling.{IsNote, IsTold};
ghost use Rattle.command_runs.specs.CheckAnswers.{IsCheckAnswer, IsHindered};

use crate::harm_run::judged_with_harm;
use crate::judged::{Judged, unkept};
use crate::outcome::Outcome;
use crate::read_note::note_as_read;
use crate::recorded::Recorded;
use crate::stream_answers::{counted_answer, unaccepted};
use answers::{Answer, Asked, Status, keep, tell, tell_failure};
use diagnostics::Class;
use guest_memory::SparseMemory;
use ownership_checker::check_stream;
use replayer::Search;
use std::alloc::Global;
use std::io::{self, Read, Seek, Write};
use trace_reader::Source;

/// Checks the trace that `input` holds. A verdict goes to `out`, and what hinders one to `err`, and there goes what is explained.
/// Where the trace is accepted its certificate is written before that is told; where it can't be written, this is told in its place.
/// Of every other trace nothing is written there, nor where the input couldn't be opened. Where `shows` says how far to look for
/// one, a schedule that does harm stands behind a refusal, or that none was found; else the rows are judged as they are read, and
/// aren't kept.
pub fn run_check<R: Read + Seek + Drop, C: Write, O: Write, E: Write>(
    alloc: Global,
    asked: &Asked,
    shows: Option<Search>,
    input: io::Result<R>,
    certificate: &mut Option<C>,
    out: &mut O,
    err: &mut E,
) -> Outcome
    ensures told { (answer : Answer) × IsCheckAnswer (is_some shows) (is_some shows) C.contents certificate.old certificate.new (opened R.remaining input) answer
        × IsTold asked.now.explains answer result.status (O.contents out.old) (O.contents out.new) (E.contents err.old) (E.contents err.new) }
    ensures out { result.status ≡ Status.Unreadable → out.new ≡ out.old }
    ensures err { asked.now.explains ≡ false → goes_out result.status ≡ true → err.new ≡ err.old }
    ensures unopened { IsErr input → out.new ≡ out.old }
    ensures unanswered { IsErr input → goes_out result.status ≡ false }
    ensures uncertified { IsErr input → certificate.new ≡ certificate.old }
{
    match input {
        Ok(input) => {
            let Judged {
                answer,
                note,
                class,
            } = judged(alloc, asked, shows, input, certificate);
            let status = tell(alloc, asked.explains, answer, note, out, err);
            Outcome { status, class }
        }
        Err(error) => {
            let status = tell_failure(alloc, asked, error, out, err);
            Outcome {
                status,
                class: Class::Broken,
            }
        }
    }
}

/// Judges the trace that an input holds.
fn judged<R: Read + Seek + Drop, C: Write>(
    alloc: Global,
    asked: &Asked,
    shows: Option<Search>,
    input: R,
    certificate: &mut Option<C>,
) -> Judged
    ensures right { IsCheckAnswer (is_some shows) (is_some shows) C.contents certificate.old certificate.new (R.remaining input) result.answer }
    ensures noted { IfOk result.note (λ note. IsNote asked.now.explains result.answer (string_bytes note)) }
{
    match shows {
        Some(search) => judged_with_harm(alloc, asked, search, input, certificate),
        None => judged_as_read(alloc, asked, input, certificate),
    }
}

/// Judges the trace that an input holds, as it is read.
fn judged_as_read<R: Read + Seek + Drop, C: Write>(
    alloc: Global,
    asked: &Asked,
    input: R,
    certificate: &mut Option<C>,
) -> Judged
    ensures right { IsCheckAnswer false false C.contents certificate.old certificate.new (R.remaining input) result.answer }
    ensures noted { IfOk result.note (λ note. IsNote asked.now.explains result.answer (string_bytes note)) }
{
    let mut source = Recorded::new(alloc, input, asked.may_explain());
    match answer_as_read(alloc, &mut source, certificate) {
        Ok(answer) => {
            let explained = note_as_read(alloc, asked, &[], source, &answer);
            Judged::of(answer, explained)
        }
        Err(error) => unkept(alloc, asked, error),
    }
}

/// The answer to the trace that a device gives, with its certificate written; or why this can't be written. Where none is asked for
/// the leases are only counted.
pub(crate) fn answer_as_read<S: Source, C: Write>(
    alloc: Global,
    source: &mut S,
    certificate: &mut Option<C>,
) -> io::Result<Answer>
    ensures answered { IfOk result (λ answer. IsCheckAnswer false false C.contents certificate.old certificate.new (S.held source.old) answer) }
    ensures hindered { IfErr result (λ _. IsHindered false C.contents certificate.old certificate.new (S.held source.old)) }
{
    if certificate.is_none() {
        return Ok(counted_answer(alloc, source));
    }
    kept_answer(alloc, false, source, certificate)
}

/// The same, where all leases are kept. The caller `keeps` all rows too, or doesn't.
pub(crate) fn kept_answer<S: Source, C: Write>(
    alloc: Global,
    keeps: bool,
    source: &mut S,
    certificate: &mut Option<C>,
) -> io::Result<Answer>
    ensures answered { IfOk result (λ answer. IsCheckAnswer keeps false C.contents certificate.old certificate.new (S.held source.old) answer) }
    ensures hindered { IfErr result (λ _. IsHindered keeps C.contents certificate.old certificate.new (S.held source.old)) }
{
    match check_stream(alloc, keeps, source, SparseMemory::new(alloc)) {
        Ok(found) => {
            keep(alloc, &found.leases, certificate)?;
            Ok(Answer::Accepted {
                leases: found.leases.len() as u64,
            })
        }
        Err(fault) => Ok(unaccepted(fault)),
    }
}
