//! Replays a schedule beside a trace, and finds what explains the answer.
use crate::found::{About, Found, found_failed};
use crate::reading::bytes_of;
use crate::replay_run::replay_answer;
use crate::told::{Told, told_on_trace};
use answers::{Answer, diagnostic_on_schedule};
use std::alloc::{AllocError, Global};
use std::io::{self, Read};
use trace_reader::{Trace, read_trace};

/// Replays the schedule of the input that `open_schedule` opens beside the trace that `trace` holds; where it is none, the schedule isn't
/// opened.
pub fn replayed<R, S, F>(alloc: Global, trace: io::Result<R>, open_schedule: F) -> Found
where
    R: Read + Drop,
    S: Read + Drop,
    F: FnOnce() -> io::Result<S> + Drop,
    requires { F.pre open_schedule }
{
    let text = match bytes_of(alloc, trace) {
        Ok(text) => text,
        Err(error) => return found_failed(alloc, About::Trace, error),
    };
    match read_trace(alloc, &text) {
        Ok(trace) => replayed_beside(alloc, &trace, open_schedule()),
        Err(fault) => {
            let answer = Answer::from(fault);
            let told = told_on_trace(alloc, &text, &answer);
            let about = About::Trace;
            Found {
                answer,
                about,
                told,
            }
        }
    }
}

/// Replays the schedule that an input holds beside a trace.
fn replayed_beside<S: Read + Drop>(alloc: Global, trace: &Trace, schedule: io::Result<S>) -> Found {
    match bytes_of(alloc, schedule) {
        Ok(text) => {
            let answer = replay_answer(alloc, trace, &text);
            let told = told_on_schedule(alloc, trace, &text, &answer);
            let about = About::Other;
            Found {
                answer,
                about,
                told,
            }
        }
        Err(error) => found_failed(alloc, About::Other, error),
    }
}

/// What explains an answer to the text of a schedule beside a trace.
fn told_on_schedule(
    alloc: Global,
    trace: &Trace,
    text: &[u8],
    answer: &Answer,
) -> Result<Told, AllocError> {
    match diagnostic_on_schedule(alloc, trace, text, answer)? {
        Some(diagnostic) => Told::diagnosed(alloc, diagnostic),
        None => Ok(Told::nothing(alloc)),
    }
}
