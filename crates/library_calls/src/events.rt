use event_ring::EventPlace;
use guest_memory::{Addr, SparseMemory, WordMemory};
use segments::RingShape;
use std::test::Fail;
use trb::{Block, RingKind};

/// A Port Status Change Event whose Cycle bit is 1.
const EVENT: Block = Block {
    w: [0x0100_0000, 0, 0x0100_0000, 0x8801],
};

#[test]
fn keeps_the_place_before_the_dequeue_pointer_free(rt: HostRuntime) -> Result<(), Fail> {
    let shape = RingShape::new(rt.alloc(), RingKind::Evt, &[(0x50000, 16)])?;
    let mut place = EventPlace::new(shape);
    for number in 0..15u64 {
        assert!(rt; place.may_post());
        assert_eq!(rt; place.post().ok(), Some(0x50000 + 16 * number));
    }
    assert!(rt; !place.may_post());
    assert!(rt; place.post().is_err());

    assert!(rt; place.read(&EVENT).is_ok());
    assert!(rt; !place.may_post());
    assert!(rt; place.set_dequeue(0x50010).is_ok());
    assert!(rt; place.may_post());
    assert_eq!(rt; place.post().ok(), Some(0x500f0));
    assert!(rt; !place.may_post());
    Ok(())
}

#[test]
fn moves_the_dequeue_pointer_no_further_than_was_read(rt: HostRuntime) -> Result<(), Fail> {
    let shape = RingShape::new(rt.alloc(), RingKind::Evt, &[(0x20000, 16)])?;
    let mut place = EventPlace::new(shape);
    assert!(rt; place.set_dequeue(0x20010).is_err());
    assert!(rt; place.read(&EVENT).is_ok());
    assert!(rt; place.set_dequeue(0x20010).is_ok());
    Ok(())
}

/// An event whose Cycle bit is 0.
const OF_THE_SECOND_LAP: Block = Block {
    w: [0x0100_0000, 0, 0x0100_0000, 0x8800],
};

#[test]
fn reads_the_other_cycle_in_the_second_lap(rt: HostRuntime) -> Result<(), Fail> {
    let shape = RingShape::new(rt.alloc(), RingKind::Evt, &[(0x20000, 16)])?;
    let mut place = EventPlace::new(shape);
    for number in 1..17u64 {
        assert!(rt; place.read(&EVENT).is_ok());
        assert!(rt; place.set_dequeue(0x20000 + 16 * (number % 16)).is_ok());
    }
    assert!(rt; place.read(&EVENT).is_err());
    assert!(rt; place.read(&OF_THE_SECOND_LAP).is_ok());
    Ok(())
}

/// Whether a segment table with one entry, of so many TRBs at 0x20000, isn't that of the ring.
fn is_fault(rt: &HostRuntime, trbs: u32) -> Result<bool, Fail> {
    let shape = RingShape::new(rt.alloc(), RingKind::Evt, &[(0x20000, 16)])?;
    let mut memory = SparseMemory::new(rt.alloc());
    for (at, word) in [(0x40000, 0x20000), (0x40008, trbs)] {
        memory.set(Addr::new(at).ok_or("no address of a word")?, word)?;
    }
    Ok(EventPlace::table_fault(&memory, 0x40000, 1, &shape))
}

#[test]
fn knows_the_table_of_its_segments(rt: HostRuntime) -> Result<(), Fail> {
    assert!(rt; !is_fault(&rt, 16)?);
    assert!(rt; is_fault(&rt, 15)?);
    Ok(())
}
