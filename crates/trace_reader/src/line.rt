ghost use Rattle.std.specs.Prelude.{◌≡◌, ◌≤◌, ◌+◌, Some, None, true, OnOk, IfOk, IfErr};
ghost use Rattle.trace_reader.specs.Entries.{Answers, AnswersRow, content_fault, said_alone, said_by_line, value_of};
ghost use Rattle.traces.specs.Limits.{most_bytes_of, most_lines_of};
ghost use Rattle.trace_reader.specs.Reading.{State, is_too_much, size_of, version_of};

use crate::entry::{Entry, RowEntry, entry_of};
use crate::fault::{LineError, LineFault};
use crate::later::placed_row;
use crate::quick::quick_row;
use contexts::ContextSize;
use line_text::{Fields, Line, Survey};
use std::alloc::Global;
use traces::{Header, Row, Version};

/// Lines of a plan, and of a trace all rows of which are kept in memory.
pub const MOST_LINES: u32 = 1048576;

/// Lines of a trace of version 3 or a later one whose rows are read one by one.
pub const MOST_STREAMED_LINES: u32 = 4294967294;

/// Lines of a schedule.
pub const MOST_SCHEDULE_LINES: u32 = 4194304;

/// Bytes of a line before its line feed, in a plan or a schedule.
pub const MOST_BYTES: usize = 16384;

/// And in a trace of any version.
pub const MOST_TRACE_BYTES: usize = 163840;

/// Lines of a trace of a version, whose rows are all kept in memory or not.
#[tactic(auto, unfolding(traces::specs::Limits::most_lines_of))]
pub fn most_lines_of(keeps: bool, version: Version) -> u32
    ensures { result ≡ most_lines_of keeps version }
{
    if keeps {
        return MOST_LINES;
    }
    match version {
        Version::One | Version::Two => MOST_LINES,
        Version::Three | Version::Four => MOST_STREAMED_LINES,
    }
}

/// Bytes of a line of a trace of a version, before its line feed.
#[tactic(auto, unfolding(traces::specs::Limits::most_bytes_of))]
pub fn most_bytes_of(version: Version) -> usize
    ensures { result ≡ most_bytes_of version }
{
    match version {
        Version::One | Version::Two | Version::Three => MOST_BYTES,
        Version::Four => MOST_TRACE_BYTES,
    }
}

/// The first line of a trace.
#[tactic(auto, unfolding(crate::specs::Reading::version_of))]
pub fn version_of(line: &Line) -> Option<Version>
    ensures { result ≡ version_of line.now }
{
    if line.is_ended() && line.content() == b"xtrace 1".as_slice() {
        Some(Version::One)
    } else if line.is_ended() && line.content() == b"xtrace 2".as_slice() {
        Some(Version::Two)
    } else if line.is_ended() && line.content() == b"xtrace 3".as_slice() {
        Some(Version::Three)
    } else if line.is_ended() && line.content() == b"xtrace 4".as_slice() {
        Some(Version::Four)
    } else {
        None
    }
}

/// The second line of a trace.
#[tactic(auto, unfolding(crate::specs::Reading::size_of))]
pub fn size_of(line: &Line) -> Option<ContextSize>
    ensures { result ≡ size_of line.now }
{
    if line.is_ended() && line.content() == b"ctx 20".as_slice() {
        Some(ContextSize::Bytes32)
    } else if line.is_ended() && line.content() == b"ctx 40".as_slice() {
        Some(ContextSize::Bytes64)
    } else {
        None
    }
}

/// What a line behind the header says; `lines` were read before it, and rows if they have `begun`.
pub fn entry_in(
    alloc: Global,
    keeps: bool,
    version: Version,
    lines: u32,
    begun: bool,
    line: &Line,
) -> Result<Entry, LineError>
    ensures answer { (st : State) → st.keeps ≡ keeps → st.version ≡ version → st.lines ≡ lines → st.begun ≡ begun → Answers result (said_by_line st line.now) }
    ensures within { OnOk result (lines + 1 ≤ most_lines_of keeps version) }
{
    let entry = entry_alone(alloc, version, begun, line)?;
    let most = most_lines_of(keeps, version);
    if lines >= most {
        return Err(LineFault::Limit.into());
    }
    if is_too_much(version, &entry) {
        return Err(LineFault::Limit.into());
    }
    Ok(entry)
}

/// The row that a line says behind the first row's; `lines` were read before it, and of them the header and the IDs of the rings that
/// came later.
pub fn row_in(
    alloc: Global,
    keeps: bool,
    header: &Header,
    later: &[u8],
    lines: u32,
    line: &Line,
) -> Result<Row, LineError>
    requires { 2 ≤ lines }
    ensures answer { (st : State) → st.keeps ≡ keeps → st.version ≡ header.now.version → st.rings ≡ header.now.rings → st.later ≡ later.now → st.lines ≡ lines → st.begun ≡ true → AnswersRow st result line.now }
    ensures within { OnOk result (lines + 1 ≤ most_lines_of keeps header.now.version) }
{
    match entry_in(alloc, keeps, header.version, lines, true, line)? {
        Entry::Row(row) => placed_row(alloc, header.rings.as_slice(), later, row),
        Entry::Ring(_) => unreachable!(),
    }
}

/// What a line behind the header says by itself.
fn entry_alone(
    alloc: Global,
    version: Version,
    begun: bool,
    line: &Line,
) -> Result<Entry, LineError>
    ensures { Answers result (said_alone version begun line.now) }
{
    if let Some(row) = quick_row(alloc, line) {
        return Ok(Entry::Row(RowEntry::Plain(row)));
    }
    let content = content_of(most_bytes_of(version), line)?;
    entry_of(
        alloc,
        version,
        begun,
        Survey::of(content).count,
        Fields::of(content),
    )
}

/// The bytes of a line that has at most so many, ends with a line feed, and has no empty field.
#[tactic(auto, unfolding(crate::specs::Entries::content_fault))]
pub fn content_of<'a>(most: usize, line: &Line<'a>) -> Result<&'a [u8], LineFault>
    ensures content { IfOk result (λ content. content.now ≡ line.now.content) }
    ensures whole { OnOk result (content_fault most line.now ≡ None) }
    ensures fault { IfErr result (λ fault. content_fault most line.now ≡ Some fault) }
{
    let content = line.content();
    if content.len() > most {
        return Err(LineFault::Limit);
    }
    if !line.is_ended() {
        return Err(LineFault::Row);
    }
    if Survey::of(content).has_empty {
        return Err(LineFault::Row);
    }
    Ok(content)
}

/// It declares more blocks than a row of the version may.
fn is_too_much(version: Version, entry: &Entry) -> bool
    ensures { result ≡ is_too_much version (value_of entry.now) }
{
    match entry {
        Entry::Row(RowEntry::Plain(plain)) => plain.row.declares_too_much(version),
        _ => false,
    }
}
