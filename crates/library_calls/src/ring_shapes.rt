use segments::{Place, RingShape, Segment};
use std::test::Fail;
use trb::RingKind;

#[test]
fn a_ring_of_four_blocks(rt: HostRuntime) -> Result<(), Fail> {
    let ring = RingShape::new(rt.alloc(), RingKind::Cmd, &[(0x30000, 4)])?;
    assert_eq!(rt; ring.kind(), RingKind::Cmd);
    assert_eq!(rt; ring.places(), 3);
    assert_eq!(rt;
        ring.segments(),
        [Segment {
            base: 0x30000,
            count: 4
        }]
        .as_slice()
    );
    assert_eq!(rt; ring.address(2), 0x30020);
    assert_eq!(rt; ring.address(3), 0x30000);
    assert!(rt; ring.cycle(2));
    assert!(rt; !ring.cycle(3));
    assert!(rt; ring.cycle(6));
    assert_eq!(rt; ring.crossing(0), None);
    assert_eq!(rt; ring.crossing(2), None);
    assert_eq!(rt; ring.crossing(3), Some(0));
    assert_eq!(rt;
        ring.place_at(0x3002c),
        Some(Place::Data { place: 2, word: 3 })
    );
    assert_eq!(rt;
        ring.place_at(0x30034),
        Some(Place::Link {
            segment: 0,
            word: 1
        })
    );
    assert_eq!(rt; ring.place_at(0x30040), None);
    assert_eq!(rt; ring.place_at(0x30002), None);
    Ok(())
}

#[test]
fn a_ring_at_the_end_of_memory(rt: HostRuntime) -> Result<(), Fail> {
    let ring = RingShape::new(rt.alloc(), RingKind::Xfer, &[(0xffff_ffff_ffff_ffc0, 4)])?;
    assert_eq!(rt; ring.address(2), 0xffff_ffff_ffff_ffe0);
    assert_eq!(rt;
        ring.place_at(0xffff_ffff_ffff_ffec),
        Some(Place::Data { place: 2, word: 3 })
    );
    assert_eq!(rt;
        ring.place_at(0xffff_ffff_ffff_fffc),
        Some(Place::Link {
            segment: 0,
            word: 3
        })
    );
    assert_eq!(rt; ring.place_at(0), None);
    Ok(())
}
