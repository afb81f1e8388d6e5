//! What the trace of an accepted input leaves waiting.
use diagnostics::{Colors, Part, View};
use knowledge_page::{Place, ShowFault, Waiting, left_waiting, shown_before, waiting_lines};
use std::alloc::{AllocError, Global};
use trace_reader::{ReadFault, read_long_trace};

/// What is told of the text of an accepted trace with so many leases, which is called so: what it leaves waiting, if anything.
pub(crate) fn waiting_note(
    alloc: Global,
    view: &View,
    text: &[u8],
    leases: u64,
) -> Result<String, AllocError> {
    let waiting = left_by(alloc, text, leases)?;
    if waiting.is_empty() {
        return Ok(String::new(alloc));
    }
    let head = waiting_head(alloc, view)?;
    let before = waiting_before(alloc, view.colors)?;
    let lines = waiting_lines(alloc, &before, &waiting)?;
    format!(in alloc; "{head}{lines}")
}

/// That this waits, over the lines that tell what.
fn waiting_head(alloc: Global, view: &View) -> Result<String, AllocError> {
    let View { path, colors } = *view;
    let head = format!(in alloc; "note: no row of {path} breaks a rule; this waits at its end")?;
    let head = colors.paint(alloc, Part::Head, &head)?;
    format!(in alloc; "{head}\n")
}

/// What stands before each of these lines.
fn waiting_before(alloc: Global, colors: Colors) -> Result<String, AllocError> {
    let bar = colors.paint(alloc, Part::Frame, "=")?;
    let note = colors.paint(alloc, Part::Head, "note")?;
    format!(in alloc; "  {bar} {note}: ")
}

/// What the text of an accepted trace with so many leases leaves waiting, a line for each.
pub(crate) fn words_on_waiting(
    alloc: Global,
    text: &[u8],
    leases: u64,
) -> Result<Vec<String>, AllocError> {
    let waiting = left_by(alloc, text, leases)?;
    let mut words = Vec::new(alloc);
    for line in waiting_lines(alloc, "", &waiting)?.lines() {
        words.push(String::from_str(alloc, line)?)?;
    }
    Ok(words)
}

/// What the text of an accepted trace with so many leases leaves waiting. Nothing is told of a trace that has another answer, or whose
/// rows are too many to be kept.
fn left_by(alloc: Global, text: &[u8], leases: u64) -> Result<Vec<Waiting>, AllocError> {
    let trace = match read_long_trace(alloc, text) {
        Ok(trace) => trace,
        Err(ReadFault::Line { .. }) => return Ok(Vec::new(alloc)),
        Err(ReadFault::Memory) => return Err(AllocError),
    };
    let shown = match shown_before(alloc, &trace, None) {
        Ok(shown) => shown,
        Err(ShowFault::NoRow { .. }) => return Ok(Vec::new(alloc)),
        Err(ShowFault::Memory) => return Err(AllocError),
    };
    if shown.place != Place::End || shown.standing.leases.len() as u64 != leases {
        return Ok(Vec::new(alloc));
    }
    left_waiting(alloc, &trace, &shown)
}
