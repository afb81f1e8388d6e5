//! Shows who owns what before a row of a trace, and finds what explains the answer.

use crate::found::{About, Found, found_failed};
use crate::reading::bytes_of;
use crate::show_run::show_answer;
use crate::told::told_on_trace;
use std::alloc::Global;
use std::io::{self, Read};

/// What is known, and who owns what, before a row of the trace that `input` holds: before the first that breaks a rule, or behind all,
/// where none is named.
pub fn shown<R: Read + Drop>(alloc: Global, row: Option<u32>, input: io::Result<R>) -> Found {
    match bytes_of(alloc, input) {
        Ok(text) => {
            let answer = show_answer(alloc, row, &text);
            let told = told_on_trace(alloc, &text, &answer);
            let about = About::Trace;
            Found {
                answer,
                about,
                told,
            }
        }
        Err(error) => found_failed(alloc, About::Trace, error),
    }
}
