//! What is told of a row that a version of the format refuses, and a later one doesn't.
ghost use Rattle.std.specs.Prelude.{◌≡◌, IfOk, string_bytes};
ghost use Rattle.answers.specs.Telling.{IsNote};
ghost use Rattle.trace_reader.specs.Entries.{text_of};
ghost use Rattle.command_runs.specs.VersionNotes.{breaks_no_rule_of, in_version};

use crate::waiting_note::waiting_note;
use answers::{Answer, Asked, explain_trace};
use diagnostics::{Class, Colors, Explanation, note_line};
use guest_memory::SparseMemory;
use ownership_checker::{LeaseCount, Passed, pass_kept};
use std::alloc::{AllocError, Global};
use trace_reader::{Counted, ReadFault, RowReader, Trace, read_long_trace};
use traces::{Header, Version};

/// What a person is told of a verdict, beside its line; of a refused row also which later version doesn't refuse it, and of an accepted
/// trace what waits at its end.
pub(crate) fn note_on_check(
    alloc: Global,
    asked: &Asked,
    text: &[u8],
    answer: &Answer,
) -> Result<String, AllocError>
    ensures { IfOk result (λ note. IsNote asked.now.explains answer.now (string_bytes note)) }
{
    let told = explain_check(alloc, asked, text, answer)?;
    Ok(told.text)
}

/// The same, with the class of a refusal.
pub(crate) fn explain_check(
    alloc: Global,
    asked: &Asked,
    text: &[u8],
    answer: &Answer,
) -> Result<Explanation, AllocError>
    ensures { IfOk result (λ told. IsNote asked.now.explains answer.now (string_bytes told.text)) }
{
    let mut told = explain_trace(alloc, asked, text, answer)?;
    if !asked.explains {
        return Ok(told);
    }
    match answer {
        Answer::Refused { row, .. } | Answer::HarmShown { row, .. } => {
            if let Some(note) = version_note(alloc, text, *row)? {
                told.class = Class::Unjudged;
                let words = version_words(alloc, asked.colors, *row, note)?;
                told.text.push_str(&words)?;
            }
        }
        Answer::Accepted { leases } => {
            let words = waiting_note(alloc, &asked.view(), text, *leases)?;
            told.text.push_str(&words)?;
        }
        _ => {}
    }
    Ok(told)
}

/// Which later version, 3 before 4, doesn't refuse a row of a trace, the first one that its own version refuses; nothing where none is such.
/// Versions 1 and 2 refuse by rules that no later one has.
pub(crate) fn version_note(
    alloc: Global,
    text: &[u8],
    row: u32,
) -> Result<Option<&'static str>, AllocError> {
    if is_of_newest(alloc, text) {
        return Ok(None);
    }
    let trace = match read_long_trace(alloc, text) {
        Ok(trace) => trace,
        Err(ReadFault::Line { .. }) => return Ok(None),
        Err(ReadFault::Memory) => return Err(AllocError),
    };
    let version = trace.header.version;
    if !version.is_lenient() && breaks_no_rule_of(alloc, Version::Three, &trace, row)? {
        return Ok(Some("judged by version 3 this row breaks no rule"));
    }
    if !version.has_isoch() && breaks_no_rule_of(alloc, Version::Four, &trace, row)? {
        return Ok(Some("judged by version 4 this row breaks no rule"));
    }
    Ok(None)
}

/// Whether a trace is of the newest version, by its header alone.
fn is_of_newest(alloc: Global, text: &[u8]) -> bool {
    match RowReader::open(alloc, true, &mut Counted::new(text)) {
        Ok(reader) => reader.header().version.has_isoch(),
        Err(_) => false,
    }
}

/// Whether a version refuses neither this row of a trace nor one before it.
fn breaks_no_rule_of(
    alloc: Global,
    version: Version,
    trace: &Trace,
    row: u32,
) -> Result<bool, AllocError>
    ensures { IfOk result (λ none. none ≡ breaks_no_rule_of version (text_of trace.now) row) }
{
    let header = in_version(alloc, version, &trace.header)?;
    let log = LeaseCount::new(alloc, &header)?;
    match pass_kept(
        alloc,
        header,
        trace.first,
        trace.rows.as_slice(),
        log,
        SparseMemory::new(alloc),
    )? {
        Passed::Whole(_) => Ok(true),
        Passed::Refused { row: refused, .. } => Ok(row < refused),
    }
}

/// The same header, for rows that another version judges.
fn in_version(alloc: Global, version: Version, header: &Header) -> Result<Header, AllocError>
    ensures { IfOk result (λ made. made ≡ in_version version header.now) }
{
    let mut made = header.copy(alloc)?;
    made.version = version;
    Ok(made)
}

/// That a later version doesn't refuse a row. It stands behind what is told of the row, under its number.
fn version_words(
    alloc: Global,
    colors: Colors,
    row: u32,
    note: &str,
) -> Result<String, AllocError> {
    let width = format!(in alloc; "{row}")?.len();
    note_line(alloc, colors, width, note)
}
