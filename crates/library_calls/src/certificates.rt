use certificate::{decode, encode};
use ring_knowledge::Lease;
use std::test::Fail;

/// The leases of a trace with a No Op Command: an event segment, the segment table, the command's block.
const LEASES: [Lease; 3] = [
    Lease {
        kind: 2,
        ring: 0x100,
        pos: 0x20000,
        from: 0,
        to: u32::MAX,
    },
    Lease {
        kind: 2,
        ring: 0x10,
        pos: 0x40000,
        from: 9,
        to: u32::MAX,
    },
    Lease {
        kind: 0,
        ring: 0,
        pos: 0,
        from: 16,
        to: 18,
    },
];

const BYTES: [u8; 80] = [
    0x58, 0x48, 0x43, 0x49, 0x43, 0x52, 0x54, 0x31, // XHCICRT1
    2, 0, 0, 0, 0, 1, 0, 0, 0, 0, 2, 0, 0, 0, 0, 0, 0, 0, 0, 0, 0xff, 0xff, 0xff, 0xff, //
    2, 0, 0, 0, 0x10, 0, 0, 0, 0, 0, 4, 0, 0, 0, 0, 0, 9, 0, 0, 0, 0xff, 0xff, 0xff, 0xff, //
    0, 0, 0, 0, 0, 0, 0, 0, 0, 0, 0, 0, 0, 0, 0, 0, 0x10, 0, 0, 0, 0x12, 0, 0, 0,
];

#[test]
fn the_bytes_of_three_leases(rt: HostRuntime) -> Result<(), Fail> {
    let bytes = encode(rt.alloc(), &LEASES)?;
    assert_eq!(rt; bytes.as_slice(), BYTES.as_slice());
    Ok(())
}

#[test]
fn three_leases_are_read(rt: HostRuntime) -> Result<(), Fail> {
    let leases = decode(rt.alloc(), &BYTES)?;
    assert_eq!(rt; leases.as_slice(), LEASES.as_slice());
    Ok(())
}
