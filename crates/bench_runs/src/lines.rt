//! Lines as they come: each is there once its line feed was read.
use std::alloc::Global;
use std::io::{self, ErrorKind, Read, Write};

/// Tells the driver lines. That it reads no more is no failure: what it said then is heard still.
pub(crate) fn say<O: Write>(text: &str, out: &mut O) -> io::Result<()> {
    match out.write_all(text.as_bytes()).and_then(|_| out.flush()) {
        Err(error) if error.kind() != ErrorKind::BrokenPipe => Err(error),
        _ => Ok(()),
    }
}

/// How many bytes are read at a time at most.
const PIECE: usize = 4096;

/// The lines of a reader. A line is never waited for longer than until its line feed is there.
#[derive(Drop)]
pub struct Lines<R: Read> {
    alloc: Global,
    reader: R,
    /// What was read and isn't given yet, from a place on.
    bytes: Vec<u8>,
    from: usize,
}

impl<R: Read + Drop> Lines<R> {
    pub fn new(alloc: Global, reader: R) -> Lines<R> {
        Lines {
            alloc,
            reader,
            bytes: Vec::new(alloc),
            from: 0,
        }
    }

    /// The next line with its line feed, or what stands behind the last one; none where no byte is left.
    pub fn next_line(&mut self) -> io::Result<Option<Vec<u8>>> {
        for _ in 0..u64::MAX {
            if let Some(line) = self.standing()? {
                return Ok(Some(line));
            }
            if !self.read_on()? {
                return self.rest();
            }
        }
        Err(ErrorKind::Interrupted.into())
    }

    /// The first line of what was read, where it has its line feed.
    fn standing(&mut self) -> io::Result<Option<Vec<u8>>> {
        let Some(left) = self.bytes.get(self.from..) else {
            return Ok(None);
        };
        let Some(end) = left.iter().position(|byte| *byte == b'\n') else {
            return Ok(None);
        };
        let mut line = Vec::new(self.alloc);
        line.extend_from_slice(&left[..=end])?;
        self.from = self.from.saturating_add(end).saturating_add(1);
        Ok(Some(line))
    }

    /// What stands behind the last line feed, if there is something.
    fn rest(&mut self) -> io::Result<Option<Vec<u8>>> {
        let mut line = Vec::new(self.alloc);
        if let Some(left) = self.bytes.get(self.from..) {
            line.extend_from_slice(left)?;
        }
        self.from = self.bytes.len();
        if line.is_empty() {
            Ok(None)
        } else {
            Ok(Some(line))
        }
    }

    /// Reads one piece more; whether there was one.
    fn read_on(&mut self) -> io::Result<bool> {
        let mut piece = [0u8; PIECE];
        let count = match self.reader.read(&mut piece) {
            Ok(count) => count,
            Err(error) if error.kind() == ErrorKind::Interrupted => return Ok(true),
            Err(error) => return Err(error),
        };
        let mut bytes = Vec::new(self.alloc);
        if let Some(left) = self.bytes.get(self.from..) {
            bytes.extend_from_slice(left)?;
        }
        bytes.extend_from_slice(piece.get(..count).unwrap_or(&[]))?;
        self.bytes = bytes;
        self.from = 0;
        Ok(count > 0)
    }
}
