//! What gives bytes one read after another, and may fail.
ghost use Rattle.std.specs.Prelude.{◌≡◌, ℕ, List, Option, None};
ghost use Rattle.std.specs.Io.{ReadsAtMost};
ghost use Rattle.std.specs.Io.KnownBytes.{ReadConsumes};
ghost use Rattle.trace_reader.specs.Streaming.Sources.{failures_behind};

use std::io::{self, ErrorKind, Read};
use thiserror::Error;

/// A device failed.
#[derive(Clone, Copy, Debug, Error, PartialEq, Eq)]
#[error("a device failed")]
pub struct Failed;

/// A device that gives bytes, and counts how often it failed.
pub trait Source {
    /// The bytes that it still holds, where they are known.
    ghost held: { Self → Option (List ℕ) } = { λ _. None };

    /// How often it failed.
    ghost failed: { Self → ℕ };

    /// Puts the next bytes at the front of the buffer, at least one where there is one and room for it, and says how many; or
    /// fails, and gives none.
    fn read(&mut self, buffer: &mut [u8]) -> Result<usize, Failed>
        ensures bound { ReadsAtMost result buffer.new }
        ensures held { ReadConsumes (held self.old) (held self.new) result buffer.new }
        ensures counted { failed self.new ≡ failures_behind (failed self.old) result };

    /// How often it failed; at the greatest number it may have been oftener.
    fn failures(&self) -> u64
        ensures { result ≡ failed self.now };
}

/// Any reader as a source. An interruption of a read gives nothing and is no failure: that read is made again.
#[derive(Drop)]
pub struct Counted<R> {
    reader: R,
    failures: u64,
    error: Option<io::Error>,
}

impl<R: Read> Counted<R> {
    /// The reader as a source that hasn't failed.
    pub fn new(reader: R) -> Counted<R>
        ensures held { ⟦<Counted<R> as Source>⟧.held result ≡ R.remaining reader }
        ensures failed { ⟦<Counted<R> as Source>⟧.failed result ≡ 0 }
    {
        Counted {
            reader,
            failures: 0,
            error: None,
        }
    }

    /// The reader, and how it failed last.
    pub fn into_parts(self) -> (R, Option<io::Error>)
        ensures { R.remaining result.0 ≡ ⟦<Counted<R> as Source>⟧.held self }
    {
        (self.reader, self.error)
    }
}

impl<R: Read> Source for Counted<R> {
    ghost held = { λ s. R.remaining s.reader };

    ghost failed = { λ s. s.failures };

    fn read(&mut self, buffer: &mut [u8]) -> Result<usize, Failed> {
        match read_some(&mut self.reader, buffer) {
            Ok(count) => Ok(count),
            Err(error) => {
                self.failures = self.failures.saturating_add(1);
                self.error = Some(error);
                Err(Failed)
            }
        }
    }

    fn failures(&self) -> u64 {
        self.failures
    }
}

/// Reads once, again after an interruption.
fn read_some<R: Read>(reader: &mut R, buffer: &mut [u8]) -> io::Result<usize>
    ensures bound { ReadsAtMost result buffer.new }
    ensures held { ReadConsumes (R.remaining reader.old) (R.remaining reader.new) result buffer.new }
{
    for _ in 0..u64::MAX {
        match reader.read(buffer) {
            Ok(count) => return Ok(count),
            Err(error) => {
                if error.kind() != ErrorKind::Interrupted {
                    return Err(error);
                }
            }
        }
    }
    Err(ErrorKind::Interrupted.into())
}
