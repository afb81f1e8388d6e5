//! The text in pieces: bytes are read ahead until a line stands there.
ghost use Rattle.std.specs.Prelude.{◌≡◌, ◌++◌, ◌≤◌, ◌<◌, List, ℕ, [], drop, take, length, vec_len, false, true, IfErr, IfOk, OnOk};
ghost use Rattle.trace_reader.specs.Streaming.Ahead.{Comes, IsFilled, IsLong, ahead_of, has_come};
ghost use Rattle.trace_reader.specs.Streaming.Answers.{IsNoLine, told_failures};
ghost use Rattle.traces.specs.Limits.{most_trace_bytes};

use crate::MOST_TRACE_BYTES;
use crate::row_reader::ahead::Ahead;
use crate::row_reader::fault::StreamFault;
use crate::row_reader::source::{Failed, Source};
use line_text::first_line;
use std::alloc::{AllocError, Global};

/// Bytes that there is room for.
const ROOM: usize = 262144;

impl Ahead {
    /// No byte was read.
    pub fn new(alloc: Global) -> Result<Ahead, AllocError>
        ensures { IfOk result (λ ahead. ahead_of ahead ≡ []) }
    {
        Ok(Ahead {
            bytes: vec![in alloc; 0; ROOM]?,
            done: 0,
            end: 0,
        })
    }

    /// The bytes of the lines that are still to be read.
    pub fn as_slice(&self) -> &[u8]
        ensures { result.now ≡ ahead_of self.now }
    {
        &self.bytes[self.done..self.end]
    }

    /// Keeps the last of the bytes, so many.
    pub fn keep_last(&mut self, count: usize)
        requires { count ≤ length (ahead_of self.old) }
        ensures { (front back : List ℕ) → ahead_of self.old ≡ front ++ back → length back ≡ count → ahead_of self.new ≡ back }
    {
        self.done = self.end - count;
    }

    /// Leaves the first of the bytes, so many.
    #[inline(always)]
    pub fn skip(&mut self, count: usize)
        requires { count ≤ length (ahead_of self.old) }
        ensures { ahead_of self.new ≡ drop count (ahead_of self.old) }
    {
        self.done += count;
    }

    /// Reads pieces until the first line stands there, or too much of it for a line, or the text has ended. None does where no byte
    /// is left.
    pub fn fill_line<S: Source>(&mut self, source: &mut S) -> Result<bool, StreamFault>
        ensures came { OnOk result (Comes (S.held source.old) (S.held source.new) (ahead_of self.old) (ahead_of self.new)) }
        ensures filled { IfOk result (λ some. IsFilled some (S.held source.new) (ahead_of self.new)) }
        ensures no_line { IfErr result IsNoLine }
        ensures failures { S.failed source.new ≡ told_failures (S.failed source.old) result }
    {
        while !is_long(self.as_slice()) {
            if !self.read_on(source)? {
                return Ok(!self.as_slice().is_empty());
            }
        }
        Ok(true)
    }

    /// Reads one piece more, and says whether it has a byte.
    fn read_on<S: Source>(&mut self, source: &mut S) -> Result<bool, StreamFault>
        requires { length (ahead_of self.old) ≤ most_trace_bytes }
        ensures came { IfOk result (λ some. has_come some (S.held source.old) (S.held source.new) (ahead_of self.old) (ahead_of self.new)) }
        ensures no_line { IfErr result IsNoLine }
        ensures failures { S.failed source.new ≡ told_failures (S.failed source.old) result }
    {
        self.move_to_front();
        match source.read(&mut self.bytes[self.end..]) {
            Ok(0) => Ok(false),
            Ok(count) => {
                self.end += count;
                Ok(true)
            }
            Err(Failed) => Err(StreamFault::Device),
        }
    }

    /// Moves the bytes to the front, so that the room is behind them.
    fn move_to_front(&mut self)
        ensures same { ahead_of self.new ≡ ahead_of self.old }
        ensures front { self.new.done ≡ 0 }
    {
        self.bytes.copy_within(self.done..self.end, 0);
        self.end -= self.done;
        self.done = 0;
    }
}

/// A line feed stands among the bytes, or they are too many for one line.
fn is_long(bytes: &[u8]) -> bool
    ensures long { result ≡ true → IsLong bytes.now }
    ensures short { result ≡ false → length bytes.now ≤ most_trace_bytes }
{
    if bytes.is_empty() {
        return false;
    }
    let (line, _) = first_line(bytes);
    if line.is_ended() {
        return true;
    }
    bytes.len() > MOST_TRACE_BYTES
}
