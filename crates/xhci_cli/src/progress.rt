//! How far an input is read, told a person at a terminal where that takes longer than a second.
use crate::inputs::Input;
use std::alloc::{AllocError, Global};
use std::fs;
use std::io::{self, IsTerminal, Read, Seek, SeekFrom, Write};
use std::time::{Duration, Instant};

/// For so many milliseconds nothing is told.
const FIRST: u128 = 1000;

/// So many milliseconds what is told stands.
const STANDS: u128 = 200;

/// Goes to the beginning of the terminal's line, and clears it.
const CLEARED: &str = "\r\x1b[K";

/// An input of which is told how far it is read, where standard error is a terminal.
#[derive(Drop)]
pub struct Watched<'a> {
    input: Input,
    progress: Option<Progress<'a>>,
}

/// How far an input is read.
#[derive(Clone, Copy, Debug)]
struct Far {
    rows: u64,
    bytes: u64,
    /// How many bytes a file has.
    size: Option<u64>,
}

/// The line that tells it, which goes with this value.
struct Progress<'a> {
    rt: &'a HostRuntime,
    far: Far,
    begun: Instant,
    told: Option<Instant>,
}

impl<'a> Watched<'a> {
    /// Opens the file of a path; of none it is standard input.
    pub fn open(rt: &'a HostRuntime, path: Option<&str>) -> io::Result<Watched<'a>> {
        Ok(Watched {
            input: Input::open(rt, path)?,
            progress: Progress::of(rt, path),
        })
    }
}

impl<'a> Read for Watched<'a> {
    fn read(&mut self, buf: &mut [u8]) -> io::Result<usize> {
        let count = self.input.read(buf)?;
        if let Some(progress) = &mut self.progress {
            progress.note(&buf[..count]);
        }
        Ok(count)
    }
}

impl<'a> Seek for Watched<'a> {
    fn seek(&mut self, to: SeekFrom) -> io::Result<u64> {
        self.input.seek(to)
    }
}

impl<'a> Progress<'a> {
    /// Of an input of which nothing was read yet; none where nobody sees it, or there is no clock.
    fn of(rt: &'a HostRuntime, path: Option<&str>) -> Option<Progress<'a>> {
        if !rt.stderr().is_terminal() {
            return None;
        }
        let far = Far {
            rows: 0,
            bytes: 0,
            size: size_of(rt, path),
        };
        Some(Progress {
            rt,
            far,
            begun: Instant::now(rt).ok()?,
            told: None,
        })
    }

    /// Notes a piece that was read, and tells of it once it is time. What hinders that hinders nothing else.
    fn note(&mut self, piece: &[u8]) {
        let rows = piece.iter().filter(|byte| **byte == b'\n').count();
        self.far.rows = self.far.rows.saturating_add(rows as u64);
        self.far.bytes = self.far.bytes.saturating_add(piece.len() as u64);
        let Ok(now) = Instant::now(self.rt) else {
            return;
        };
        let taken = now.saturating_duration_since(self.begun);
        let is_due = match self.told {
            Some(told) => now.saturating_duration_since(told).as_millis() >= STANDS,
            None => taken.as_millis() >= FIRST,
        };
        if is_due && tell(self.rt, self.far, taken).is_ok() {
            self.told = Some(now);
        }
    }
}

impl<'a> Drop for Progress<'a> {
    /// The line is gone before the answer comes.
    fn drop(self) {
        let Progress {
            rt,
            far: _,
            begun: _,
            told,
        } = self;
        if told.is_some() {
            let _ = rt.stderr().write_all(CLEARED.as_bytes());
        }
    }
}

/// How many bytes a path's file has, where it is one.
fn size_of(rt: &HostRuntime, path: Option<&str>) -> Option<u64> {
    let found = fs::metadata(rt, path?).ok()?;
    if found.is_file() {
        Some(found.len())
    } else {
        None
    }
}

/// Tells how far an input is read after such a time, in place of what was told before.
fn tell(rt: &HostRuntime, far: Far, taken: Duration) -> io::Result<()> {
    let line = line_of(rt.alloc(), far, taken)?;
    rt.stderr().write_all(line.as_bytes())
}

/// Rows, megabytes, and rows a second.
fn line_of(alloc: Global, far: Far, taken: Duration) -> Result<String, AllocError> {
    let rows = far.rows;
    let read = far.bytes / 1_000_000;
    let rate = rate_of(rows, taken);
    match far.size {
        Some(size) => {
            let size = size / 1_000_000;
            format!(in alloc; "{CLEARED}{rows} rows, {read} of {size} MB, {rate} rows a second")
        }
        None => format!(in alloc; "{CLEARED}{rows} rows, {read} MB, {rate} rows a second"),
    }
}

/// How many rows a second.
fn rate_of(rows: u64, taken: Duration) -> u64 {
    let thousandths = u64::try_from(taken.as_millis()).unwrap_or(u64::MAX).max(1);
    rows.saturating_mul(1000) / thousandths
}
