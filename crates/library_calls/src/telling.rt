use answers::{Status, keep, run_decode};
use block_text::BlockWords;
use ring_knowledge::Lease;
use std::io::{self, Write};
use std::test::Fail;

/// Takes so many bytes a write, fails at once where that is none, and says how often it was called.
#[derive(Drop)]
struct Taking {
    bytes: Vec<u8>,
    most: usize,
    writes: usize,
    flushes: usize,
    can_flush: bool,
}

impl Write for Taking {
    fn write(&mut self, buf: &[u8]) -> io::Result<usize> {
        self.writes = self.writes.wrapping_add(1);
        if self.most == 0 {
            return Err(io::ErrorKind::StorageFull.into());
        }
        let taken = buf.len().min(self.most);
        self.bytes.extend_from_slice(&buf[..taken])?;
        Ok(taken)
    }

    fn flush(&mut self) -> io::Result<()> {
        self.flushes = self.flushes.wrapping_add(1);
        if self.can_flush {
            Ok(())
        } else {
            Err(io::ErrorKind::StorageFull.into())
        }
    }
}

fn writer_of(rt: &HostRuntime, most: usize, can_flush: bool) -> Taking {
    Taking {
        bytes: Vec::new(rt.alloc()),
        most,
        writes: 0,
        flushes: 0,
        can_flush,
    }
}

/// Takes a byte at every other call, and is interrupted at those before.
#[derive(Drop)]
struct Interrupted {
    bytes: Vec<u8>,
    calls: usize,
}

impl Write for Interrupted {
    fn write(&mut self, buf: &[u8]) -> io::Result<usize> {
        self.calls = self.calls.wrapping_add(1);
        if self.calls % 2 == 1 {
            return Err(io::ErrorKind::Interrupted.into());
        }
        let taken = buf.len().min(1);
        self.bytes.extend_from_slice(&buf[..taken])?;
        Ok(taken)
    }

    fn flush(&mut self) -> io::Result<()> {
        Ok(())
    }
}

const DEVICE: &str = "xhcitrace: 31 Device\nxhcitrace: standard output: no storage space\n";

const WORDS: BlockWords<'static> = BlockWords {
    first: "00030000",
    second: "00000000",
    third: "01000000",
    fourth: "01018001",
};

/// A word of seven digits.
const SHORT: BlockWords<'static> = BlockWords {
    first: "0003000",
    second: "00000000",
    third: "01000000",
    fourth: "01018001",
};

const DECODED: &str =
    "32 TransferEvent cycle 1 chain 0 pointer 0000000000030000 code 01 slot 01 endpoint 01\n";

#[test]
fn writes_an_answer_in_one_write(rt: HostRuntime) {
    let mut out = writer_of(&rt, 1000, true);
    let mut err = writer_of(&rt, 1000, true);
    let status = run_decode(rt.alloc(), false, &WORDS, &mut out, &mut err);
    assert_eq!(rt; status, Status::Clean);
    assert_eq!(rt; out.bytes.as_slice(), DECODED.as_bytes());
    assert_eq!(rt; out.writes, 1);
    assert_eq!(rt; out.flushes, 1);
    assert_eq!(rt; err.writes, 0);
    assert_eq!(rt; err.flushes, 0);
}

#[test]
fn tells_of_a_flush_that_fails(rt: HostRuntime) {
    let mut out = writer_of(&rt, 1000, false);
    let mut err = writer_of(&rt, 1000, true);
    let status = run_decode(rt.alloc(), false, &WORDS, &mut out, &mut err);
    assert_eq!(rt; status, Status::Unanswered);
    assert_eq!(rt; out.bytes.as_slice(), DECODED.as_bytes());
    assert_eq!(rt; err.bytes.as_slice(), DEVICE.as_bytes());
}

#[test]
fn tells_of_a_writer_that_fails(rt: HostRuntime) {
    let mut out = writer_of(&rt, 0, true);
    let mut err = writer_of(&rt, 1000, true);
    let status = run_decode(rt.alloc(), false, &WORDS, &mut out, &mut err);
    assert_eq!(rt; status, Status::Unanswered);
    assert!(rt; out.bytes.is_empty());
    assert_eq!(rt; err.bytes.as_slice(), DEVICE.as_bytes());

    let mut out = writer_of(&rt, 1000, true);
    let mut err = writer_of(&rt, 0, true);
    let status = run_decode(rt.alloc(), false, &SHORT, &mut out, &mut err);
    assert_eq!(rt; status, Status::Unanswered);
    assert_eq!(rt; out.writes, 0);
    assert_eq!(rt; err.writes, 1);
}

/// A pipe that nobody reads any more.
#[derive(Drop)]
struct Unread;

impl Write for Unread {
    fn write(&mut self, _buf: &[u8]) -> io::Result<usize> {
        Err(io::ErrorKind::BrokenPipe.into())
    }

    fn flush(&mut self) -> io::Result<()> {
        Ok(())
    }
}

#[test]
fn is_quiet_where_nobody_reads(rt: HostRuntime) {
    let mut err = writer_of(&rt, 1000, true);
    let status = run_decode(rt.alloc(), true, &WORDS, &mut Unread, &mut err);
    assert_eq!(rt; status, Status::Unanswered);
    assert_eq!(rt; err.writes, 0);
}

/// No lease: eight bytes that name the format.
const NO_LEASES: &[u8] = b"XHCICRT1";

#[test]
fn keeps_a_certificate_in_one_write(rt: HostRuntime) {
    let mut certificate = Some(writer_of(&rt, 100, true));
    let kept = keep(rt.alloc(), &[], &mut certificate);
    assert!(rt; kept.is_ok());
    match certificate {
        Some(writer) => {
            assert_eq!(rt; writer.bytes.as_slice(), NO_LEASES);
            assert_eq!(rt; (writer.writes, writer.flushes), (1, 1));
        }
        None => assert!(rt; false),
    }
}

#[test]
fn goes_on_after_each_interruption(rt: HostRuntime) {
    let mut out = Interrupted {
        bytes: Vec::new(rt.alloc()),
        calls: 0,
    };
    let mut err = writer_of(&rt, 0, true);
    let status = run_decode(rt.alloc(), false, &WORDS, &mut out, &mut err);
    assert_eq!(rt; status, Status::Clean);
    assert_eq!(rt; out.bytes.as_slice(), DECODED.as_bytes());
    assert_eq!(rt; err.writes, 0);
}

#[test]
fn keeps_a_certificate_in_as_many_writes_as_it_has_bytes(rt: HostRuntime) -> Result<(), Fail> {
    let mut leases = Vec::new(rt.alloc());
    for pos in 0..5000u64 {
        leases.push(Lease {
            kind: 0,
            ring: 2,
            pos,
            from: 5,
            to: u32::MAX,
        })?;
    }
    let mut certificate = Some(writer_of(&rt, 1, true));
    keep(rt.alloc(), &leases, &mut certificate)?;
    match certificate {
        Some(writer) => {
            assert_eq!(rt; writer.bytes.len(), 120_008);
            assert_eq!(rt; (writer.writes, writer.flushes), (120_008, 1));
        }
        None => assert!(rt; false),
    }
    Ok(())
}
