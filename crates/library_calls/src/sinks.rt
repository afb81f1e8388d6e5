use certificate::{CountedSink, EncodeFault, Failed, Sink, encode, encode_to};
use ring_knowledge::Lease;
use std::io::{self, Write};
use std::test::Fail;

/// Takes so many bytes a write, and fails at one of the writes, counted from 0.
#[derive(Drop)]
struct Device {
    bytes: Vec<u8>,
    most: usize,
    fails_at: u64,
    writes: u64,
    error: io::ErrorKind,
}

impl Write for Device {
    fn write(&mut self, buf: &[u8]) -> io::Result<usize> {
        let number = self.writes;
        self.writes = number.saturating_add(1);
        if number == self.fails_at {
            return Err(self.error.into());
        }
        let taken = buf.len().min(self.most);
        self.bytes.extend_from_slice(&buf[..taken])?;
        Ok(taken)
    }

    fn flush(&mut self) -> io::Result<()> {
        Ok(())
    }
}

fn device_of(rt: &HostRuntime, most: usize, fails_at: u64, error: io::ErrorKind) -> Device {
    Device {
        bytes: Vec::new(rt.alloc()),
        most,
        fails_at,
        writes: 0,
        error,
    }
}

/// Takes one byte a write, and fails at one of the writes, counted from 0.
#[derive(Drop)]
struct OneByOne {
    bytes: Vec<u8>,
    fails_at: u64,
    writes: u64,
    failures: u64,
}

impl Sink for OneByOne {
    ghost failed = { λ s. s.failures };

    fn write(&mut self, bytes: &[u8]) -> Result<usize, Failed> {
        let number = self.writes;
        self.writes = number.saturating_add(1);
        match bytes.first() {
            Some(byte) => {
                if number == self.fails_at || self.bytes.push(*byte).is_err() {
                    self.failures = self.failures.saturating_add(1);
                    return Err(Failed);
                }
                Ok(1)
            }
            None => Ok(0),
        }
    }

    fn failures(&self) -> u64 {
        self.failures
    }
}

/// So many leases of blocks of the command ring.
fn leases(rt: &HostRuntime, count: u32) -> Result<Vec<Lease>, Fail> {
    let mut leases = Vec::new(rt.alloc());
    for position in 0..count {
        leases.push(Lease {
            kind: 0,
            ring: 0,
            pos: u64::from(position),
            from: position,
            to: u32::MAX,
        })?;
    }
    Ok(leases)
}

#[test]
fn writes_what_is_encoded(rt: HostRuntime) -> Result<(), Fail> {
    for count in [0, 1, 170, 171, 400] {
        let leases = leases(&rt, count)?;
        let whole = encode(rt.alloc(), &leases)?;
        for most in [1, 7, 4096] {
            let never = device_of(&rt, most, u64::MAX, io::ErrorKind::Other);
            let mut sink = CountedSink::new(never);
            assert_eq!(rt; encode_to(&mut sink, &leases), Ok(()));
            assert_eq!(rt; sink.failures(), 0);
            let (device, _) = sink.into_parts();
            assert_eq!(rt; device.bytes.as_slice(), whole.as_slice());
        }
    }
    Ok(())
}

#[test]
fn a_few_records_are_one_write(rt: HostRuntime) -> Result<(), Fail> {
    let leases = leases(&rt, 170)?;
    let mut sink = CountedSink::new(device_of(&rt, 4096, u64::MAX, io::ErrorKind::Other));
    assert_eq!(rt; encode_to(&mut sink, &leases), Ok(()));
    let (device, _) = sink.into_parts();
    assert_eq!(rt; device.writes, 1);
    Ok(())
}

#[test]
fn ends_at_the_first_failure(rt: HostRuntime) -> Result<(), Fail> {
    let leases = leases(&rt, 3)?;
    let whole = encode(rt.alloc(), &leases)?;
    for number in 0..12u64 {
        let mut sink = CountedSink::new(device_of(&rt, 7, number, io::ErrorKind::StorageFull));
        let done = number.saturating_mul(7);
        let told = encode_to(&mut sink, &leases);
        assert_eq!(rt; told, Err(EncodeFault::Device { done }));
        assert_eq!(rt; sink.failures(), 1);
        let (device, error) = sink.into_parts();
        assert_eq!(rt; device.writes, number.saturating_add(1));
        assert_eq!(rt; error.map(|e| e.kind()), Some(io::ErrorKind::StorageFull));
        let wanted = whole.get(..device.bytes.len()).ok_or("too many bytes")?;
        assert_eq!(rt; device.bytes.as_slice(), wanted);
        assert_eq!(rt; device.bytes.len() as u64, done);
    }
    Ok(())
}

#[test]
fn ends_at_the_first_failure_of_any_sink(rt: HostRuntime) -> Result<(), Fail> {
    let leases = leases(&rt, 3)?;
    let whole = encode(rt.alloc(), &leases)?;
    for number in 0..80u64 {
        let mut sink = OneByOne {
            bytes: Vec::new(rt.alloc()),
            fails_at: number,
            writes: 0,
            failures: 0,
        };
        let told = encode_to(&mut sink, &leases);
        assert_eq!(rt; told, Err(EncodeFault::Device { done: number }));
        assert_eq!(rt; sink.failures(), 1);
        assert_eq!(rt; sink.writes, number.saturating_add(1));
        let wanted = whole.get(..sink.bytes.len()).ok_or("too many bytes")?;
        assert_eq!(rt; sink.bytes.as_slice(), wanted);
        assert_eq!(rt; sink.bytes.len() as u64, number);
    }
    Ok(())
}

#[test]
fn an_interruption_is_no_failure(rt: HostRuntime) -> Result<(), Fail> {
    let leases = leases(&rt, 3)?;
    let whole = encode(rt.alloc(), &leases)?;
    let mut sink = CountedSink::new(device_of(&rt, 7, 4, io::ErrorKind::Interrupted));
    assert_eq!(rt; encode_to(&mut sink, &leases), Ok(()));
    assert_eq!(rt; sink.failures(), 0);
    let (device, _) = sink.into_parts();
    assert_eq!(rt; device.writes, 13);
    assert_eq!(rt; device.bytes.as_slice(), whole.as_slice());
    Ok(())
}

#[test]
fn taking_nothing_is_a_failure(rt: HostRuntime) -> Result<(), Fail> {
    let mut sink = CountedSink::new(device_of(&rt, 0, u64::MAX, io::ErrorKind::Other));
    assert_eq!(rt; sink.write(b""), Ok(0));
    assert_eq!(rt; sink.write(b"XHCI"), Err(Failed));
    assert_eq!(rt; sink.failures(), 1);
    Ok(())
}
