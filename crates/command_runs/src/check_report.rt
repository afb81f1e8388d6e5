//! Checks a trace, and finds what explains the answer.

use crate::check_run::answer_as_read;
use crate::found::{About, Found, found_failed, told_as_read};
use crate::harm_run::check_answer;
use crate::reading::bytes_of;
use crate::recorded::Recorded;
use crate::stream_answers::followed_answer;
use crate::told::told_on_trace;
use replayer::Search;
use std::alloc::Global;
use std::io::{self, Read, Seek, Write};

/// Judges the trace that an input holds. Where it is accepted its certificate is written before that is answered.
/// Where `shows` says how far to look for one, the answer to a refused trace has a run that does harm, if one was found.
pub fn checked<R: Read + Seek + Drop, C: Write>(
    alloc: Global,
    shows: Option<Search>,
    input: io::Result<R>,
    certificate: &mut Option<C>,
) -> Found {
    match input {
        Ok(input) => match shows {
            Some(search) => checked_with_harm(alloc, search, input, certificate),
            None => checked_as_read(alloc, input, certificate),
        },
        Err(error) => found_failed(alloc, About::Trace, error),
    }
}

/// Judges the trace that an input holds as its lines come: nothing is read behind the first row that breaks a rule.
pub fn checked_as_it_comes<R: Read + Seek + Drop>(alloc: Global, input: io::Result<R>) -> Found {
    let input = match input {
        Ok(input) => input,
        Err(error) => return found_failed(alloc, About::Trace, error),
    };
    let mut source = Recorded::new(alloc, input, true);
    let answer = followed_answer(alloc, &mut source);
    let told = told_as_read(alloc, &[], source, &answer);
    Found {
        answer,
        about: About::Trace,
        told,
    }
}

/// Judges the trace that an input holds, as it is read.
fn checked_as_read<R: Read + Seek + Drop, C: Write>(
    alloc: Global,
    input: R,
    certificate: &mut Option<C>,
) -> Found {
    let mut source = Recorded::new(alloc, input, true);
    match answer_as_read(alloc, &mut source, certificate) {
        Ok(answer) => {
            let told = told_as_read(alloc, &[], source, &answer);
            let about = About::Trace;
            Found {
                answer,
                about,
                told,
            }
        }
        Err(error) => found_failed(alloc, About::Other, error),
    }
}

/// Judges the trace that an input holds; of a refused one a run that does harm is looked for.
fn checked_with_harm<R: Read + Drop, C: Write>(
    alloc: Global,
    search: Search,
    input: R,
    certificate: &mut Option<C>,
) -> Found {
    let text = match bytes_of(alloc, Ok(input)) {
        Ok(text) => text,
        Err(error) => return found_failed(alloc, About::Trace, error),
    };
    match check_answer(alloc, search, &text, certificate) {
        Ok(answer) => {
            let told = told_on_trace(alloc, &text, &answer);
            let about = About::Trace;
            Found {
                answer,
                about,
                told,
            }
        }
        Err(error) => found_failed(alloc, About::Other, error),
    }
}
