//! The lines before the first row.
ghost use Rattle.std.specs.Prelude.{◌≡◌, ◌<◌, ◌≤◌, [], true, length};
ghost use Rattle.trace_reader.specs.Entries.{state_of};
ghost use Rattle.trace_reader.specs.Streaming.Ahead.{ahead_of};
ghost use Rattle.trace_reader.specs.Streaming.Answers.{told_failures};
ghost use Rattle.traces.specs.Limits.{most_streamed_lines};
ghost use Rattle.trace_reader.specs.Streaming.ReaderState.{IsOpened, IsTold, progress_of};

use crate::row_reader::ahead::Ahead;
use crate::row_reader::fault::{StreamFault, fault_of};
use crate::row_reader::reader::RowReader;
use crate::row_reader::source::Source;
use crate::{LineFault, TraceSoFar};
use line_text::first_line;
use std::alloc::Global;

impl RowReader {
    /// Reads the lines before the first row: what they say, or the first bad line, and the text that is left are those of the definition. A
    /// trace from version 3 on may have more lines than another, unless the caller keeps all its rows. A failure of the device is told, and
    /// nothing else is told as one.
    pub fn open<S: Source>(
        alloc: Global,
        keeps: bool,
        source: &mut S,
    ) -> Result<RowReader, StreamFault>
        ensures opened { IsOpened keeps (S.held source.old) (S.held source.new) result }
        ensures failures { S.failed source.new ≡ told_failures (S.failed source.old) result }
    {
        let mut so_far = TraceSoFar::new(alloc, keeps);
        let mut ahead = Ahead::new(alloc)?;
        while ahead.fill_line(source)? {
            let lines = so_far.lines;
            if says_row(&mut so_far, &mut ahead)? {
                return Ok(RowReader::behind_header(so_far, lines, ahead, false));
            }
        }
        if so_far.lines < 2 {
            return Err(StreamFault::Line {
                line: so_far.lines + 1,
                fault: LineFault::Header,
            });
        }
        let lines = so_far.lines;
        Ok(RowReader::behind_header(so_far, lines, ahead, true))
    }

    /// The reader that stands before the first row, behind so many lines. The line of this row may have been read already.
    fn behind_header(so_far: TraceSoFar, lines: u32, ahead: Ahead, ended: bool) -> RowReader
        requires behind { 2 ≤ lines }
        requires within { lines ≤ most_streamed_lines }
        ensures read { (progress_of result).read ≡ record (state_of so_far) { lines = lines; begun = true; later = [] } }
        ensures ended { result.ended ≡ ended }
        ensures ahead { result.ahead ≡ ahead }
    {
        RowReader {
            alloc: so_far.alloc,
            later: Vec::new(so_far.alloc),
            lines,
            keeps: so_far.keeps,
            ended,
            ahead,
            header: so_far.into_header(),
        }
    }
}

/// Reads the first line; whether it says a row. Then it is left.
fn says_row(so_far: &mut TraceSoFar, ahead: &mut Ahead) -> Result<bool, StreamFault>
    requires { 0 < length (ahead_of ahead.old) }
    ensures { IsTold (state_of so_far.old) (ahead_of ahead.old) (state_of so_far.new) (ahead_of ahead.new) result }
{
    let number = so_far.lines + 1;
    let (line, rest) = first_line(ahead.as_slice());
    let left = rest.len();
    match so_far.add(&line) {
        Ok(Some(_)) => Ok(true),
        Ok(None) => {
            ahead.keep_last(left);
            Ok(false)
        }
        Err(error) => Err(fault_of(number, error)),
    }
}
