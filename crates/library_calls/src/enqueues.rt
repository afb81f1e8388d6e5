use cycle_ring::Producer;
use guest_memory::Addr;
use segments::RingShape;
use std::test::Fail;
use trb::{Block, RingKind};

/// A Normal block with CH, of 512 bytes.
fn normal(low: u32, control: u32) -> Block {
    Block {
        w: [low, 0, 0x200, control],
    }
}

fn transfer_ring(rt: &HostRuntime, segments: &[(u64, u16)]) -> Result<Producer, Fail> {
    let shape = RingShape::new(rt.alloc(), RingKind::Xfer, segments)?;
    Ok(Producer::new(shape))
}

/// The writes by their addresses as numbers.
fn numbers(rt: &HostRuntime, writes: &[(Addr, u32)]) -> Result<Vec<(u64, u32)>, Fail> {
    let mut numbers = Vec::new(rt.alloc());
    for (at, word) in writes {
        numbers.push((at.get(), *word))?;
    }
    Ok(numbers)
}

#[test]
fn gives_the_first_block_last(rt: HostRuntime) -> Result<(), Fail> {
    let mut producer = transfer_ring(&rt, &[(0x80000, 3), (0x81000, 3)])?;
    let mut writes = Vec::new(rt.alloc());
    let blocks = [
        normal(0x1000, 0x410),
        normal(0x1200, 0x410),
        normal(0x1400, 0x420),
    ];
    producer.enqueue(&blocks, &mut writes)?;
    let wanted = [
        (0x80000, 0x0000_1000),
        (0x80004, 0),
        (0x80008, 0x0000_0200),
        (0x80010, 0x0000_1200),
        (0x80014, 0),
        (0x80018, 0x0000_0200),
        (0x8001c, 0x0000_0411),
        (0x80020, 0x0008_1000),
        (0x80024, 0),
        (0x80028, 0),
        (0x8002c, 0x0000_1811),
        (0x81000, 0x0000_1400),
        (0x81004, 0),
        (0x81008, 0x0000_0200),
        (0x8100c, 0x0000_0421),
        (0x8000c, 0x0000_0411),
    ];
    assert_eq!(rt; numbers(&rt, &writes)?.as_slice(), wanted.as_slice());
    Ok(())
}
