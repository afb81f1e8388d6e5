ghost use Rattle.std.specs.Prelude.{◌≡◌, ◌+◌, ◌≤◌, ℕ, List, Option, None, Some, Ok, false, true, IfNone, IfOk, IfSome};
ghost use Rattle.traces.specs.Limits.{most_lines_of, most_streamed_lines};
ghost use Rattle.traces.specs.AllowedHeaders.{AreUnmoved, IsHeader};
ghost use Rattle.traces.specs.TraceRows.{IsTraceRow};
ghost use Rattle.traces.specs.declared.row.Row.TheVariants.{Sub};
ghost use Rattle.trace_reader.specs.Reading.{State};
ghost use Rattle.trace_reader.specs.RowsAhead.{BeginsWithRow};
ghost use Rattle.trace_reader.specs.Streaming.Ahead.{ahead_of};
ghost use Rattle.trace_reader.specs.Streaming.Answers.{IsCall, behind_answer, has_ended, told_failures};
ghost use Rattle.trace_reader.specs.Streaming.ReaderState.{IsSameTrace, progress_of};

use crate::row_reader::ahead::Ahead;
use crate::row_reader::fault::{StreamFault, fault_of};
use crate::row_reader::reader::RowReader;
use crate::row_reader::source::Source;
use crate::{
    MOST_LINES, bell_ahead, declaration_ahead, declarations_ahead, erdp_ahead, event_ahead,
    most_lines_of, note_id, register_ahead, row_in, write_ahead,
};
use line_text::first_line;
use std::alloc::Global;
use traces::{Header, Register, Row};
use trb::Blocks;

impl RowReader {
    /// What the lines before the rows have said.
    pub fn header(&self) -> &Header
        ensures said { result.now ≡ self.now.header }
        ensures headed { IsHeader result.now }
        ensures unmoved { AreUnmoved result.now.rings }
    {
        &self.header
    }

    /// How many lines were read.
    pub fn lines(&self) -> u32
        ensures { result ≡ self.now.lines }
    {
        self.lines
    }

    /// The next row, with the number of its line: the answer, how far the reading has come and the text that is left are those of the
    /// definition. The numbers of a row fit the fields of their types. Where no row is answered the reading has ended, and from then on each
    /// call answers none and reads nothing. A failure of the device is told, and nothing else is told as one.
    #[inline(always)]
    pub fn next_row<S: Source>(&mut self, source: &mut S) -> Result<Option<(u32, Row)>, StreamFault>
        ensures answer { IsCall (progress_of self.old) (progress_of self.new) (S.held source.old) (S.held source.new) (ahead_of self.old.ahead) (ahead_of self.new.ahead) result }
        ensures over { self.new.ended ≡ has_ended result }
        ensures nothing { self.old.ended ≡ true → (result ≡ Ok None) × (self.new ≡ self.old) × (source.new ≡ source.old) }
        ensures failures { S.failed source.new ≡ told_failures (S.failed source.old) result }
        ensures same { IsSameTrace self.old self.new }
        ensures fits { IfOk result (λ found. IfSome found (λ row. IsTraceRow row.1)) }
    {
        if self.ended || self.is_full() {
            return self.searched_row(source);
        }
        if let Some((at, word)) = write_ahead(self.ahead.as_slice()) {
            self.ahead.skip(28);
            self.lines += 1;
            let row = Row::Write { at, word };
            return Ok(Some((self.lines, row)));
        }
        self.other_row(source)
    }

    /// Whether there may be no further line.
    #[inline(always)]
    fn is_full(&self) -> bool
        ensures within { result ≡ false → self.now.lines + 1 ≤ most_lines_of self.now.keeps self.now.header.version }
        ensures counted { result ≡ false → self.now.lines + 1 ≤ most_streamed_lines }
    {
        self.lines >= MOST_LINES && self.lines >= most_lines_of(self.keeps, self.header.version)
    }

    /// The next row, where it isn't known to be a write: by the places of its fields, where they are those of a frequent form.
    #[inline(always)]
    fn other_row<S: Source>(&mut self, source: &mut S) -> Result<Option<(u32, Row)>, StreamFault>
        requires going { self.now.ended ≡ false }
        requires limit { self.now.lines + 1 ≤ most_lines_of self.now.keeps self.now.header.version }
        requires counted { self.now.lines + 1 ≤ most_streamed_lines }
        ensures answer { IsCall (progress_of self.old) (progress_of self.new) (S.held source.old) (S.held source.new) (ahead_of self.old.ahead) (ahead_of self.new.ahead) result }
        ensures over { self.new.ended ≡ has_ended result }
        ensures failures { S.failed source.new ≡ told_failures (S.failed source.old) result }
        ensures same { IsSameTrace self.old self.new }
    {
        if let Some(event) = event_ahead(self.ahead.as_slice()) {
            self.ahead.skip(39);
            self.lines += 1;
            let row = Row::Read { event };
            return Ok(Some((self.lines, row)));
        }
        if let Some((ring, block)) = declaration_ahead(self.ahead.as_slice()) {
            self.ahead.skip(43);
            self.lines += 1;
            let blocks = Blocks::one(block);
            let row = Row::Sub { ring, blocks };
            return Ok(Some((self.lines, row)));
        }
        if let Some((slot, target)) = bell_ahead(self.ahead.as_slice()) {
            self.ahead.skip(9);
            self.lines += 1;
            let row = Row::Bell { slot, target };
            return Ok(Some((self.lines, row)));
        }
        if let Some(value) = erdp_ahead(self.ahead.as_slice()) {
            self.ahead.skip(26);
            self.lines += 1;
            let row = Row::Reg {
                register: Register::Erdp,
                value,
            };
            return Ok(Some((self.lines, row)));
        }
        self.rarer_row(source)
    }

    /// The next row, where it isn't known to be of a form before: of a rarer one, or of one whose line feed is looked for. What stands here makes
    /// no row before it slower.
    #[inline(never)]
    fn rarer_row<S: Source>(&mut self, source: &mut S) -> Result<Option<(u32, Row)>, StreamFault>
        requires going { self.now.ended ≡ false }
        requires limit { self.now.lines + 1 ≤ most_lines_of self.now.keeps self.now.header.version }
        requires counted { self.now.lines + 1 ≤ most_streamed_lines }
        ensures answer { IsCall (progress_of self.old) (progress_of self.new) (S.held source.old) (S.held source.new) (ahead_of self.old.ahead) (ahead_of self.new.ahead) result }
        ensures over { self.new.ended ≡ has_ended result }
        ensures failures { S.failed source.new ≡ told_failures (S.failed source.old) result }
        ensures same { IsSameTrace self.old self.new }
    {
        if let Some((register, value, count)) = register_ahead(self.ahead.as_slice()) {
            self.ahead.skip(count);
            self.lines += 1;
            let row = Row::Reg { register, value };
            return Ok(Some((self.lines, row)));
        }
        if let Some((ring, blocks, count)) = declarations_ahead(self.alloc, self.ahead.as_slice()) {
            self.ahead.skip(count);
            self.lines += 1;
            let row = Row::Sub { ring, blocks };
            return Ok(Some((self.lines, row)));
        }
        self.searched_row(source)
    }

    /// The next row, where a line feed is looked for.
    #[inline(never)]
    fn searched_row<S: Source>(&mut self, source: &mut S) -> Result<Option<(u32, Row)>, StreamFault>
        ensures answer { IsCall (progress_of self.old) (progress_of self.new) (S.held source.old) (S.held source.new) (ahead_of self.old.ahead) (ahead_of self.new.ahead) result }
        ensures over { self.new.ended ≡ has_ended result }
        ensures nothing { self.old.ended ≡ true → (result ≡ Ok None) × (self.new ≡ self.old) × (source.new ≡ source.old) }
        ensures failures { S.failed source.new ≡ told_failures (S.failed source.old) result }
        ensures same { IsSameTrace self.old self.new }
    {
        if self.ended {
            return Ok(None);
        }
        let found = row_ahead(
            self.alloc,
            self.keeps,
            &self.header,
            self.later.as_slice(),
            self.lines,
            &mut self.ahead,
            source,
        );
        match found {
            Ok(Some((number, row))) => {
                if let Err(error) = note_id(&mut self.later, &row) {
                    self.ended = true;
                    return Err(error.into());
                }
                self.lines = number;
                Ok(Some((number, row)))
            }
            Ok(None) => {
                self.ended = true;
                Ok(None)
            }
            Err(fault) => {
                self.ended = true;
                Err(fault)
            }
        }
    }
}

/// The row of the text's first line and that line's number; so many were read before it. None where no byte is left.
fn row_ahead<S: Source>(
    alloc: Global,
    keeps: bool,
    header: &Header,
    later: &[u8],
    lines: u32,
    ahead: &mut Ahead,
    source: &mut S,
) -> Result<Option<(u32, Row)>, StreamFault>
    requires behind { 2 ≤ lines }
    requires within { lines ≤ most_streamed_lines }
    ensures answer { (st : State) → st.keeps ≡ keeps → st.version ≡ header.now.version → st.rings ≡ header.now.rings → st.later ≡ later.now → st.lines ≡ lines → st.begun ≡ true →
        IsCall (record { read = st; ended = false }) (behind_answer st result) (S.held source.old) (S.held source.new) (ahead_of ahead.old) (ahead_of ahead.new) result }
    ensures numbered { IfOk result (λ found. IfSome found (λ r. (r.0 ≡ lines + 1) × (r.0 ≤ most_streamed_lines))) }
    ensures failures { S.failed source.new ≡ told_failures (S.failed source.old) result }
{
    match row_standing(alloc, keeps, header, later, lines, ahead) {
        Some(found) => Ok(Some(found)),
        None => row_behind_reads(alloc, keeps, header, later, lines, ahead, source),
    }
}

/// The row of the first line and that line's number, where this line stands ahead as a whole and says a row: so it is of most.
fn row_standing(
    alloc: Global,
    keeps: bool,
    header: &Header,
    later: &[u8],
    lines: u32,
    ahead: &mut Ahead,
) -> Option<(u32, Row)>
    requires behind { 2 ≤ lines }
    requires within { lines ≤ most_streamed_lines }
    ensures row { IfSome result (λ found. (st : State) (held : Option (List ℕ)) → st.keeps ≡ keeps → st.version ≡ header.now.version → st.rings ≡ header.now.rings → st.later ≡ later.now → st.lines ≡ lines → st.begun ≡ true →
        IsCall (record { read = st; ended = false }) (behind_answer st (Ok (Some found))) held held (ahead_of ahead.old) (ahead_of ahead.new) (Ok (Some found))) }
    ensures numbered { IfSome result (λ found. (found.0 ≡ lines + 1) × (found.0 ≤ most_streamed_lines)) }
    ensures none { IfNone result (ahead.new ≡ ahead.old) }
{
    let bytes = ahead.as_slice();
    if bytes.is_empty() {
        return None;
    }
    let (line, rest) = first_line(bytes);
    let left = rest.len();
    let Ok(row) = row_in(alloc, keeps, header, later, lines, &line) else {
        return None;
    };
    ahead.keep_last(left);
    let standing = (lines + 1, row);
    Some(standing)
}

/// The same where pieces may have to be read first.
fn row_behind_reads<S: Source>(
    alloc: Global,
    keeps: bool,
    header: &Header,
    later: &[u8],
    lines: u32,
    ahead: &mut Ahead,
    source: &mut S,
) -> Result<Option<(u32, Row)>, StreamFault>
    requires behind { 2 ≤ lines }
    requires within { lines ≤ most_streamed_lines }
    ensures answer { (st : State) → st.keeps ≡ keeps → st.version ≡ header.now.version → st.rings ≡ header.now.rings → st.later ≡ later.now → st.lines ≡ lines → st.begun ≡ true →
        IsCall (record { read = st; ended = false }) (behind_answer st result) (S.held source.old) (S.held source.new) (ahead_of ahead.old) (ahead_of ahead.new) result }
    ensures numbered { IfOk result (λ found. IfSome found (λ r. (r.0 ≡ lines + 1) × (r.0 ≤ most_streamed_lines))) }
    ensures failures { S.failed source.new ≡ told_failures (S.failed source.old) result }
{
    if !ahead.fill_line(source)? {
        return Ok(None);
    }
    let (line, rest) = first_line(ahead.as_slice());
    let left = rest.len();
    match row_in(alloc, keeps, header, later, lines, &line) {
        Ok(row) => {
            ahead.keep_last(left);
            Ok(Some((lines + 1, row)))
        }
        Err(error) => Err(fault_of(lines + 1, error)),
    }
}
