//! Traces that are checked and verified as they are read: the same at every cut of the bytes, and a failed read is told.
use crate::sources::device_of;
use guest_memory::SparseMemory;
use ownership_checker::{StreamCheckFault, check_stream, count_stream, follow_stream};
use ownership_rules::Refusal;
use ring_knowledge::Lease;
use std::io::ErrorKind;
use std::test::Fail;
use trace_reader::{LineFault, StreamFault};
use verifier::verify_stream;

/// Two blocks are given.
const ACCEPTED: &[u8] =
    b"xtrace 1\nctx 20\nring 02 xfer 0000000000030000:0004\nsub 02 00000000 00000000 00000000 00002020\nw 000000000003000c 00002021\nsub 02 00000000 00000000 00000000 00002020\nw 000000000003001c 00002021\n";

/// A block is given whose low words weren't written.
const REFUSED: &[u8] =
    b"xtrace 1\nctx 20\nring 02 xfer 0000000000030000:0004\nsub 02 00001000 00000000 00000008 00000420\nw 0000000000030000 00001000\nw 000000000003000c 00000421\n";

/// The same, and behind it a line with a number that is too short.
const BAD_BEHIND: &[u8] =
    b"xtrace 1\nctx 20\nring 02 xfer 0000000000030000:0004\nsub 02 00001000 00000000 00000008 00000420\nw 0000000000030000 00001000\nw 000000000003000c 00000421\nw 0000000000030000 0000001\n";

/// The leases of the accepted trace.
const LEASES: [Lease; 2] = [
    Lease {
        kind: 0,
        ring: 2,
        pos: 0,
        from: 5,
        to: 0xffff_ffff,
    },
    Lease {
        kind: 0,
        ring: 2,
        pos: 1,
        from: 7,
        to: 0xffff_ffff,
    },
];

const NOT_AS_SUBMITTED: StreamCheckFault = StreamCheckFault::Refused {
    row: 6,
    refusal: Refusal::NotAsSubmitted,
};

const FAILED: StreamCheckFault = StreamCheckFault::Unread(StreamFault::Device);

const BAD_LINE: StreamFault = StreamFault::Line {
    line: 7,
    fault: LineFault::Number,
};

/// How many leases the text's trace has, by its certificate and by the count alone.
fn leases_of(
    rt: &HostRuntime,
    text: &[u8],
    most: usize,
    fails_at: u64,
) -> [Result<usize, StreamCheckFault>; 2] {
    let mut source = device_of(text, most, fails_at, ErrorKind::Other);
    let mut again = device_of(text, most, fails_at, ErrorKind::Other);
    [
        check_stream(
            rt.alloc(),
            false,
            &mut source,
            SparseMemory::new(rt.alloc()),
        )
        .map(|certificate| certificate.leases.len()),
        count_stream(rt.alloc(), &mut again, SparseMemory::new(rt.alloc())),
    ]
}

fn verifies(
    rt: &HostRuntime,
    text: &[u8],
    leases: &[Lease],
    most: usize,
    fails_at: u64,
) -> Result<bool, StreamFault> {
    let mut source = device_of(text, most, fails_at, ErrorKind::Other);
    verify_stream(
        rt.alloc(),
        &mut source,
        SparseMemory::new(rt.alloc()),
        leases,
    )
}

#[test]
fn each_cut_is_checked_as_the_whole(rt: HostRuntime) -> Result<(), Fail> {
    for most in [1, 2, 7, 4096] {
        assert_eq!(rt; leases_of(&rt, ACCEPTED, most, u64::MAX), [Ok(2), Ok(2)]);
        assert_eq!(rt;
            leases_of(&rt, REFUSED, most, u64::MAX),
            [Err(NOT_AS_SUBMITTED), Err(NOT_AS_SUBMITTED)]
        );
        assert_eq!(rt;
            leases_of(&rt, BAD_BEHIND, most, u64::MAX),
            [
                Err(StreamCheckFault::Unread(BAD_LINE)),
                Err(StreamCheckFault::Unread(BAD_LINE))
            ]
        );
    }
    Ok(())
}

#[test]
fn each_cut_is_verified_as_the_whole(rt: HostRuntime) -> Result<(), Fail> {
    for most in [1, 2, 7, 4096] {
        assert_eq!(rt; verifies(&rt, ACCEPTED, &LEASES, most, u64::MAX), Ok(true));
        assert_eq!(rt;
            verifies(&rt, ACCEPTED, &LEASES[..1], most, u64::MAX),
            Ok(false)
        );
        assert_eq!(rt; verifies(&rt, REFUSED, &[], most, u64::MAX), Ok(false));
        assert_eq!(rt;
            verifies(&rt, BAD_BEHIND, &[], most, u64::MAX),
            Err(BAD_LINE)
        );
    }
    Ok(())
}

#[test]
fn each_failed_read_ends_the_pass(rt: HostRuntime) -> Result<(), Fail> {
    for fails_at in 0..=BAD_BEHIND.len() as u64 / 11 {
        assert_eq!(rt;
            leases_of(&rt, BAD_BEHIND, 11, fails_at),
            [Err(FAILED), Err(FAILED)]
        );
        assert_eq!(rt;
            verifies(&rt, BAD_BEHIND, &[], 11, fails_at),
            Err(StreamFault::Device)
        );
    }
    Ok(())
}

/// The same count of the text as it comes, a byte a read.
fn followed(rt: &HostRuntime, text: &[u8], fails_at: u64) -> Result<usize, StreamCheckFault> {
    let mut source = device_of(text, 1, fails_at, ErrorKind::Other);
    follow_stream(rt.alloc(), &mut source, SparseMemory::new(rt.alloc()))
}

#[test]
fn behind_a_followed_row_nothing_is_read(rt: HostRuntime) {
    assert_eq!(rt; followed(&rt, ACCEPTED, u64::MAX), Ok(2));
    let read = REFUSED.len() as u64;
    assert_eq!(rt; followed(&rt, BAD_BEHIND, read), Err(NOT_AS_SUBMITTED));
    assert_eq!(rt; followed(&rt, BAD_BEHIND, read - 1), Err(FAILED));
    assert_eq!(rt;
        followed(&rt, &BAD_BEHIND[1..], u64::MAX),
        Err(StreamCheckFault::Unread(StreamFault::Line {
            line: 1,
            fault: LineFault::Header
        }))
    );
}
