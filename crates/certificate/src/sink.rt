//! What takes bytes one write after another, and may fail.
ghost use Rattle.std.specs.Prelude.{◌≡◌, ◌≢◌, ◌<◌, ℕ, [], List, Option, None, IfOk, MatchResult};
ghost use Rattle.std.specs.Io.{WritesAtMost};
ghost use Rattle.std.specs.Io.KnownBytes.{WriteAppends};
ghost use Rattle.certificate.specs.Sinks.{failures_behind};

use std::io::{self, ErrorKind, Write};
use thiserror::Error;

/// A device failed.
#[derive(Clone, Copy, Debug, Error, PartialEq, Eq)]
#[error("a device failed")]
pub struct Failed;

/// A device that takes bytes, and counts how often it failed.
pub trait Sink {
    /// The bytes that it has taken so far, where they are known.
    ghost taken: { Self → Option (List ℕ) } = { λ _. None };

    /// How often it failed.
    ghost failed: { Self → ℕ };

    /// Takes the first of the bytes, at least one where there is one, and says how many; or fails, and takes none.
    fn write(&mut self, bytes: &[u8]) -> Result<usize, Failed>
        ensures bound { WritesAtMost result bytes.now }
        ensures some { IfOk result (λ n. bytes.now ≢ [] → 0 < n) }
        ensures taken { WriteAppends (taken self.old) (taken self.new) result bytes.now }
        ensures counted { failed self.new ≡ failures_behind (failed self.old) result };

    /// How often it failed; at the greatest number it may have been oftener.
    fn failures(&self) -> u64
        ensures { result ≡ failed self.now };
}

/// Any writer as a sink. An interruption of a write takes nothing and is no failure: that write is made again.
#[derive(Drop)]
pub struct CountedSink<W> {
    writer: W,
    failures: u64,
    error: Option<io::Error>,
}

impl<W: Write> CountedSink<W> {
    /// The writer as a sink that hasn't failed.
    pub fn new(writer: W) -> CountedSink<W>
        ensures taken { ⟦<CountedSink<W> as Sink>⟧.taken result ≡ W.contents writer }
        ensures failed { ⟦<CountedSink<W> as Sink>⟧.failed result ≡ 0 }
    {
        CountedSink {
            writer,
            failures: 0,
            error: None,
        }
    }

    /// The writer, and how it failed last.
    pub fn into_parts(self) -> (W, Option<io::Error>)
        ensures { W.contents result.0 ≡ ⟦<CountedSink<W> as Sink>⟧.taken self }
    {
        (self.writer, self.error)
    }
}

impl<W: Write> Sink for CountedSink<W> {
    ghost taken = { λ s. W.contents s.writer };

    ghost failed = { λ s. s.failures };

    fn write(&mut self, bytes: &[u8]) -> Result<usize, Failed> {
        match write_some(&mut self.writer, bytes) {
            Ok(taken) => Ok(taken),
            Err(error) => {
                self.failures = self.failures.saturating_add(1);
                self.error = Some(error);
                Err(Failed)
            }
        }
    }

    fn failures(&self) -> u64 {
        self.failures
    }
}

/// Writes once, again after an interruption. That no byte of some is taken is an error.
fn write_some<W: Write>(writer: &mut W, bytes: &[u8]) -> io::Result<usize>
    ensures bound { WritesAtMost result bytes.now }
    ensures some { IfOk result (λ n. bytes.now ≢ [] → 0 < n) }
    ensures taken { WriteAppends (W.contents writer.old) (W.contents writer.new) result bytes.now }
{
    for _ in 0..u64::MAX {
        match writer.write(bytes) {
            Ok(taken) => return some_of(taken, bytes),
            Err(error) => {
                if error.kind() != ErrorKind::Interrupted {
                    return Err(error);
                }
            }
        }
    }
    Err(ErrorKind::Interrupted.into())
}

/// How many of the bytes were taken, where that isn't none of some.
fn some_of(taken: usize, bytes: &[u8]) -> io::Result<usize>
    ensures { MatchResult result (λ n. (n ≡ taken) × (bytes.now ≢ [] → 0 < n)) (λ _. taken ≡ 0) }
{
    if taken == 0 && !bytes.is_empty() {
        Err(ErrorKind::WriteZero.into())
    } else {
        Ok(taken)
    }
}
