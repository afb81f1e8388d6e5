//! What is said of a run that does harm beside a trace.
use crate::answer::FoundHarm;
use diagnostics::{Colors, note_line};
use std::alloc::{AllocError, Global};

/// What a controller does that goes on as the schedule says; or that none was found. It stands behind what is told of the refused row, under
/// its number.
pub fn harm_words(
    alloc: Global,
    colors: Colors,
    row: u32,
    found: &Option<FoundHarm>,
) -> Result<String, AllocError> {
    let width = format!(in alloc; "{row}")?.len();
    let note = harm_note(alloc, found)?;
    note_line(alloc, colors, width, &note)
}

/// The words of that alone.
pub fn harm_note(alloc: Global, found: &Option<FoundHarm>) -> Result<String, AllocError> {
    match found {
        Some(found) => {
            let harm = found.harm;
            format!(in alloc;
                "the schedule on standard output is a run of a controller that keeps to xHCI; with its last step {harm}"
            )
        }
        None => String::from_str(
            alloc,
            "no schedule that was tried does harm, which doesn't say that none does",
        ),
    }
}
