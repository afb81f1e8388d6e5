use contexts::ContextSize;
use leases::{LeaseBook, LeaseLog};
use ring_knowledge::Lease;
use segments::RingShape;
use std::test::Fail;
use traces::{Header, Ring, Rings, Version};
use trb::RingKind;

/// The number of no row.
const OPEN: u32 = 0xffff_ffff;

fn lease(kind: u32, ring: u32, pos: u64, from: u32, to: u32) -> Lease {
    Lease {
        kind,
        ring,
        pos,
        from,
        to,
    }
}

fn ring(rt: &HostRuntime, kind: RingKind, id: u8, base: u64, count: u16) -> Result<Ring, Fail> {
    let shape = RingShape::new(rt.alloc(), kind, &[(base, count)])?;
    Ok(Ring { id, shape })
}

/// A book whose event ring has 16 blocks.
fn book(rt: &HostRuntime) -> Result<LeaseBook, Fail> {
    let alloc = rt.alloc();
    let events = ring(rt, RingKind::Evt, 1, 0x20000, 16)?;
    let header = Header {
        version: Version::One,
        context_size: ContextSize::Bytes32,
        rings: Rings::new(vec![in alloc; events]?),
    };
    Ok(LeaseBook::new(alloc, &header)?)
}

#[test]
fn a_link_is_crossed(rt: HostRuntime) -> Result<(), Fail> {
    let mut book = book(&rt)?;
    let commands = ring(&rt, RingKind::Cmd, 0, 0x10000, 4)?;
    book.begin_range(1, 16, 0x30000)?;
    book.begin_block(2, &commands, 2)?;
    book.begin_link(3, &commands, 3)?;
    book.begin_block(4, &commands, 3)?;
    book.end_passed(5, &commands, 2, 4);
    book.begin_link(6, &commands, 6)?;
    book.end_passed(8, &commands, 6, 7);
    book.end_range(1, 9, 16, 0x30000);
    assert_eq!(rt;
        book.into_leases().as_slice(),
        [
            lease(2, 256, 0x20000, 0, OPEN),
            lease(2, 16, 0x30000, 1, 9),
            lease(0, 0, 2, 2, 5),
            lease(1, 0, 2, 3, 5),
            lease(0, 0, 3, 4, 5),
            lease(1, 0, 5, 6, 8),
        ]
        .as_slice()
    );
    Ok(())
}
