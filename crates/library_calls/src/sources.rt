use std::io::{self, Read};
use std::test::Fail;
use trace_reader::{Counted, ReadFault, RowReader, Source, StreamFault, read_trace};

/// Gives so many bytes a read, and fails at one of the reads, counted from 0.
#[derive(Drop)]
pub struct Device<'a> {
    rest: &'a [u8],
    most: usize,
    fails_at: u64,
    reads: u64,
    error: io::ErrorKind,
}

impl<'a> Read for Device<'a> {
    fn read(&mut self, buf: &mut [u8]) -> io::Result<usize> {
        let number = self.reads;
        self.reads = number.saturating_add(1);
        if number == self.fails_at {
            return Err(self.error.into());
        }
        let count = self.most.min(self.rest.len()).min(buf.len());
        let (now, later) = self.rest.split_at(count);
        buf[..count].copy_from_slice(now);
        self.rest = later;
        Ok(count)
    }
}

pub fn device_of(
    text: &[u8],
    most: usize,
    fails_at: u64,
    error: io::ErrorKind,
) -> Counted<Device<'_>> {
    Counted::new(Device {
        rest: text,
        most,
        fails_at,
        reads: 0,
        error,
    })
}

const TEXT: &[u8] =
    b"xtrace 1\nctx 20\nring 02 xfer 0000000000030000:0004\nsub 02 00000000 00000000 00000000 00002020\nw 0000000000030000 00000000\ndb 01 1f\n";

/// How many rows there are, or why no further is read.
fn count_rows<S: Source>(rt: &HostRuntime, source: &mut S) -> Result<usize, StreamFault> {
    let mut reader = RowReader::open(rt.alloc(), false, source)?;
    for count in 0..100 {
        if reader.next_row(source)?.is_none() {
            return Ok(count);
        }
    }
    Ok(100)
}

/// The same of a text that is read whole.
fn count_in_whole(rt: &HostRuntime, text: &[u8]) -> Result<usize, StreamFault> {
    match read_trace(rt.alloc(), text) {
        Ok(trace) => Ok(trace.rows.as_slice().len()),
        Err(ReadFault::Line { line, code }) => Err(StreamFault::Line { line, fault: code }),
        Err(ReadFault::Memory) => Err(StreamFault::Memory),
    }
}

#[test]
fn each_cut_reads_as_the_whole(rt: HostRuntime) -> Result<(), Fail> {
    for end in 0..TEXT.len() {
        let text = &TEXT[..end];
        let most = [1, 2, 7, 4096][end % 4];
        let mut source = device_of(text, most, u64::MAX, io::ErrorKind::Other);
        assert_eq!(rt; count_rows(&rt, &mut source), count_in_whole(&rt, text));
    }
    for most in [1, 2, 7, 4096] {
        let mut source = device_of(TEXT, most, u64::MAX, io::ErrorKind::Other);
        assert_eq!(rt; count_rows(&rt, &mut source), Ok(3));
    }
    Ok(())
}

#[test]
fn each_failed_read_is_told(rt: HostRuntime) -> Result<(), Fail> {
    for fails_at in 0..=TEXT.len() as u64 / 5 {
        let mut source = device_of(TEXT, 5, fails_at, io::ErrorKind::Other);
        assert_eq!(rt; count_rows(&rt, &mut source), Err(StreamFault::Device));
        assert_eq!(rt; source.failures(), 1);
        let mut source = device_of(TEXT, 5, fails_at, io::ErrorKind::Interrupted);
        assert_eq!(rt; count_rows(&rt, &mut source), Ok(3));
        assert_eq!(rt; source.failures(), 0);
    }
    Ok(())
}

#[test]
fn behind_the_end_nothing_is_read(rt: HostRuntime) -> Result<(), Fail> {
    let mut source = device_of(TEXT, 4096, u64::MAX, io::ErrorKind::Other);
    let mut reader = RowReader::open(rt.alloc(), false, &mut source)?;
    assert_eq!(rt; reader.lines(), 3);
    assert_eq!(rt; reader.header().rings.as_slice().len(), 1);
    for _ in 0..3 {
        let (line, _) = reader.next_row(&mut source)?.ok_or("a row")?;
        assert_eq!(rt; line, reader.lines());
    }
    assert!(rt; reader.next_row(&mut source)?.is_none());
    assert!(rt; reader.next_row(&mut source)?.is_none());
    let (device, error) = source.into_parts();
    assert_eq!(rt; device.reads, 2);
    assert!(rt; error.is_none());
    Ok(())
}
