ghost use Rattle.std.specs.Prelude.{ℕ, List, ◌≡◌, ◌≤◌, ◌+◌, Bool, Ok, Err, length, IsTrue, OnOk, IfOk, IfErr, true, false, None};
ghost use Rattle.std.specs.Str.{str_to_ascii_lowercase};
ghost use Rattle.trace_reader.specs.Entries.{IfBadLine, IfFault, at_line, placed, ring_of, row_of, state_of, text_of, took_in};
ghost use Rattle.trace_reader.specs.Reading.{read_line, start, trace_of, whole};
ghost use Rattle.trace_reader.specs.TraceOfText.{TraceText};
ghost use Rattle.trace_reader.specs.Spelling.{printed_trace, spells};
ghost use Rattle.trace_reader.specs.Valid.{IsTrace};
ghost use Rattle.traces.specs.AllowedHeaders.{AreUnmoved, IsHeader};
ghost use Rattle.traces.specs.Limits.{most_lines, most_lines_of};
ghost use Rattle.trace_reader.specs.Values.{SaysRing, SaysRow};

use crate::clashes::clashes_with_one;
use crate::entry::{Entry, RingEntry, RowEntry};
use crate::fault::{LineError, LineFault, ReadFault};
use crate::later::{note_id, placed_row, shaped};
use crate::line::{entry_in, size_of, version_of};
use crate::segments_so_far::SegmentsSoFar;
use crate::so_far::TraceSoFar;
use contexts::ContextSize;
use line_text::{Line, first_line};
use std::alloc::Global;
use traces::{Header, Rings, Row, Rows, Trace, Version};

/// Reads the text of a trace: `xtrace 1` to `xtrace 4`, `ctx 20` or `ctx 40`, the lines of the rings, then the rows. Every byte
/// sequence is answered, by its trace or by the first bad line and the least of its faults. It has at most 2^20 lines. `Memory` is answered
/// only where a growth was refused.
pub fn read_trace(alloc: Global, text: &[u8]) -> Result<Trace, ReadFault>
    ensures read { IfOk result (λ trace. trace_of true text.now ≡ Ok (text_of trace)) }
    ensures refused { IfErr result (λ e. IfBadLine e (λ line code. trace_of true text.now ≡ Err (line, code))) }

    // In lower case the text is what is printed of the trace.
    ensures lowered { IfOk result (λ trace. str_to_ascii_lowercase text.now ≡ printed_trace (text_of trace)) }

    // The text spells the trace, and no other.
    ensures spelled { IfOk result (λ trace. IsTrue (spells (text_of trace) text.now)) }
    ensures alone { IfOk result (λ trace. (other : TraceText) → IsTrace true other → IsTrue (spells other text.now) → other ≡ text_of trace) }

    // A refused text spells no trace.
    ensures unspelled { IfErr result (λ e. IfBadLine e (λ line code. (trace : TraceText) → IsTrace true trace → spells trace text.now ≡ false)) }

    // It has few lines.
    ensures few { IfOk result (λ trace. trace.first + length trace.rows ≤ most_lines + 1) }
{
    read_kept(alloc, true, text)
}

/// Reads the text of a trace that may have as many lines as one whose rows are read one by one: from version 3 on up to 2^32 - 2.
pub fn read_long_trace(alloc: Global, text: &[u8]) -> Result<Trace, ReadFault>
    ensures read { IfOk result (λ trace. trace_of false text.now ≡ Ok (text_of trace)) }
    ensures refused { IfErr result (λ e. IfBadLine e (λ line code. trace_of false text.now ≡ Err (line, code))) }
    ensures lowered { IfOk result (λ trace. str_to_ascii_lowercase text.now ≡ printed_trace (text_of trace)) }
    ensures spelled { IfOk result (λ trace. IsTrue (spells (text_of trace) text.now)) }
    ensures alone { IfOk result (λ trace. (other : TraceText) → IsTrace false other → IsTrue (spells other text.now) → other ≡ text_of trace) }
    ensures unspelled { IfErr result (λ e. IfBadLine e (λ line code. (trace : TraceText) → IsTrace false trace → spells trace text.now ≡ false)) }
{
    read_kept(alloc, false, text)
}

/// Reads the text of a trace, by whether it may have no more lines than one whose rows are all kept.
fn read_kept(alloc: Global, keeps: bool, text: &[u8]) -> Result<Trace, ReadFault>
    ensures read { IfOk result (λ trace. trace_of keeps text.now ≡ Ok (text_of trace)) }
    ensures refused { IfErr result (λ e. IfBadLine e (λ line code. trace_of keeps text.now ≡ Err (line, code))) }
    ensures lowered { IfOk result (λ trace. str_to_ascii_lowercase text.now ≡ printed_trace (text_of trace)) }
    ensures spelled { IfOk result (λ trace. IsTrue (spells (text_of trace) text.now)) }
    ensures alone { IfOk result (λ trace. (other : TraceText) → IsTrace keeps other → IsTrue (spells other text.now) → other ≡ text_of trace) }
    ensures unspelled { IfErr result (λ e. IfBadLine e (λ line code. (trace : TraceText) → IsTrace keeps trace → spells trace text.now ≡ false)) }
{
    let mut so_far = TraceSoFar::new(alloc, keeps);
    let mut rows = Vec::new(alloc);
    let mut rest = text;
    while !rest.is_empty() {
        let (line, after) = first_line(rest);
        let number = so_far.lines + 1;
        if let Err(error) = add_line(&mut so_far, &mut rows, &line) {
            return Err(at_line(number, error));
        }
        rest = after;
    }
    finish(so_far, rows)
}

/// The fault of the line with this number.
pub fn at_line(line: u32, error: LineError) -> ReadFault
    ensures { result ≡ at_line line error }
{
    match error {
        LineError::Fault(code) => ReadFault::Line { line, code },
        LineError::Memory => ReadFault::Memory,
    }
}

/// Adds the next line of the text, and the row that it says, if it says one.
fn add_line(so_far: &mut TraceSoFar, rows: &mut Vec<Row>, line: &Line) -> Result<(), LineError>
    ensures ok { OnOk result (took_in rows.old.items (read_line (state_of so_far.old) line.now) ≡ Ok (state_of so_far.new, rows.new.items)) }
    ensures err { IfErr result (λ e. IfFault e (λ f. read_line (state_of so_far.old) line.now ≡ Err f)) }
    ensures more { OnOk result (so_far.new.lines ≡ so_far.old.lines + 1) }
{
    let Some(row) = so_far.add(line)? else {
        return Ok(());
    };
    rows.push(row)?;
    Ok(())
}

/// The trace, where its header is whole.
fn finish(so_far: TraceSoFar, rows: Vec<Row>) -> Result<Trace, ReadFault>
    requires { (keeps : Bool) × (text : List ℕ) × (trace_of keeps text ≡ whole (Ok (state_of so_far, rows.items))) }
    ensures read { IfOk result (λ trace. whole (Ok (state_of so_far, rows.items)) ≡ Ok (text_of trace)) }
    ensures refused { IfErr result (λ e. IfBadLine e (λ line code. whole (Ok (state_of so_far, rows.items)) ≡ Err (line, code))) }
{
    if so_far.lines < 2 {
        return Err(ReadFault::Line {
            line: so_far.lines + 1,
            code: LineFault::Header,
        });
    }
    let first = so_far.lines - rows.len() as u32 + 1;
    Ok(Trace {
        header: so_far.into_header(),
        first,
        rows: Rows::new(rows),
    })
}

impl TraceSoFar {
    /// No line was read. All rows will be kept, or not.
    pub fn new(alloc: Global, keeps: bool) -> TraceSoFar
        ensures { state_of result ≡ start keeps }
    {
        TraceSoFar {
            alloc,
            version: Version::One,
            size: ContextSize::Bytes32,
            rings: Vec::new(alloc),
            segments: SegmentsSoFar::new(alloc),
            has_all_segments: true,
            begun: false,
            later: Vec::new(alloc),
            lines: 0,
            keeps,
        }
    }

    /// Adds the next line of the text; the row that it says, if it says one.
    pub fn add(&mut self, line: &Line) -> Result<Option<Row>, LineError>
        ensures ok { IfOk result (λ row. read_line (state_of self.old) line.now ≡ Ok (state_of self.new, row)) }
        ensures err { IfErr result (λ e. IfFault e (λ f. read_line (state_of self.old) line.now ≡ Err f)) }
        ensures more { OnOk result (self.new.lines ≡ self.old.lines + 1) }
    {
        match self.lines {
            0 => {
                self.add_version(line)?;
                Ok(None)
            }
            1 => {
                self.add_size(line)?;
                Ok(None)
            }
            _ => self.add_entry(line),
        }
    }

    /// Adds the first line.
    fn add_version(&mut self, line: &Line) -> Result<(), LineError>
        requires { self.old.lines ≡ 0 }
        ensures ok { OnOk result (read_line (state_of self.old) line.now ≡ Ok (state_of self.new, None)) }
        ensures err { IfErr result (λ e. IfFault e (λ f. read_line (state_of self.old) line.now ≡ Err f)) }
        ensures more { OnOk result (self.new.lines ≡ self.old.lines + 1) }
    {
        let Some(version) = version_of(line) else {
            return Err(LineFault::Header.into());
        };
        self.version = version;
        self.lines += 1;
        Ok(())
    }

    /// Adds the second line.
    fn add_size(&mut self, line: &Line) -> Result<(), LineError>
        requires { self.old.lines ≡ 1 }
        ensures ok { OnOk result (read_line (state_of self.old) line.now ≡ Ok (state_of self.new, None)) }
        ensures err { IfErr result (λ e. IfFault e (λ f. read_line (state_of self.old) line.now ≡ Err f)) }
        ensures more { OnOk result (self.new.lines ≡ self.old.lines + 1) }
    {
        let Some(size) = size_of(line) else {
            return Err(LineFault::Header.into());
        };
        self.size = size;
        self.lines += 1;
        Ok(())
    }

    /// Adds a line behind the header.
    fn add_entry(&mut self, line: &Line) -> Result<Option<Row>, LineError>
        requires { 2 ≤ self.old.lines }
        ensures ok { IfOk result (λ row. read_line (state_of self.old) line.now ≡ Ok (state_of self.new, row)) }
        ensures err { IfErr result (λ e. IfFault e (λ f. read_line (state_of self.old) line.now ≡ Err f)) }
        ensures more { OnOk result (self.new.lines ≡ self.old.lines + 1) }
    {
        match entry_in(
            self.alloc,
            self.keeps,
            self.version,
            self.lines,
            self.begun,
            line,
        )? {
            Entry::Row(row) => self.add_row(row),
            Entry::Ring(ring) => {
                self.add_ring(ring)?;
                Ok(None)
            }
        }
    }

    fn add_row(&mut self, row: RowEntry) -> Result<Option<Row>, LineError>
        requires { self.old.lines + 1 ≤ most_lines_of self.old.keeps self.old.version }
        ensures ok { IfOk result (λ said. placed (state_of self.old) (Ok (SaysRow (row_of row))) ≡ Ok (state_of self.new, said)) }
        ensures err { IfErr result (λ e. IfFault e (λ f. placed (state_of self.old) (Ok (SaysRow (row_of row))) ≡ Err f)) }
        ensures more { OnOk result (self.new.lines ≡ self.old.lines + 1) }
    {
        let row = placed_row(
            self.alloc,
            self.rings.as_slice(),
            self.later.as_slice(),
            row,
        )?;
        note_id(&mut self.later, &row)?;
        self.begun = true;
        self.lines += 1;
        Ok(Some(row))
    }

    fn add_ring(&mut self, ring: RingEntry) -> Result<(), LineError>
        requires { self.old.lines + 1 ≤ most_lines_of self.old.keeps self.old.version }
        ensures ok { OnOk result (placed (state_of self.old) (Ok (SaysRing (ring_of ring))) ≡ Ok (state_of self.new, None)) }
        ensures err { IfErr result (λ e. IfFault e (λ f. placed (state_of self.old) (Ok (SaysRing (ring_of ring))) ≡ Err f)) }
        ensures more { OnOk result (self.new.lines ≡ self.old.lines + 1) }
    {
        if !self.has_all_segments {
            return Err(LineError::Memory);
        }
        let ring = shaped(self.alloc, ring)?;
        if clashes_with_one(&ring, self.rings.as_slice(), &self.segments) {
            return Err(LineFault::Shape.into());
        }
        self.has_all_segments = false;
        self.segments.add_all(ring.shape.segments())?;
        self.rings.push(ring)?;
        self.has_all_segments = true;
        self.lines += 1;
        Ok(())
    }

    /// What the lines before the rows have said.
    pub fn into_header(self) -> Header
        ensures said { result ≡ record { version = self.version; context_size = self.size; rings = self.rings.items } }
        ensures headed { IsHeader result }
        ensures unmoved { AreUnmoved result.rings }
    {
        Header {
            version: self.version,
            context_size: self.size,
            rings: Rings::new(self.rings),
        }
    }
}
