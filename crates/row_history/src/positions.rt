//! Positions of a ring: which row submitted a TRB, what is declared there now, whether the controller has it, and how a TRB is named.
use crate::finding::{Case, Shown};
use crate::ring_past::{RingPast, Submitted};
use guest_memory::Addr;
use ring_knowledge::{RingGiving, RingRecord};
use traces::Ring;
use trb::Block;

/// A No Op TRB with Cycle bit 0, as which a withdrawn TRB is declared (xHCI 6.4.1.4.1).
pub const NO_OP: Block = Block {
    w: [0, 0, 0, 0x2000],
};

/// What the rows before say of the ring with this ID.
pub fn past_of<'a>(case: &Case<'a>, id: u8) -> Option<&'a RingPast> {
    let rings = case.header.rings.as_slice();
    let number = rings.iter().position(|ring| ring.id == id)?;
    case.known.pasts.get(number)
}

/// The TD that has a position of a ring now, and the row that submitted it: each TRB that was withdrawn is one of its own.
pub fn submission(case: &Case, id: u8, position: u64) -> Option<Submitted> {
    let past = past_of(case, id)?;
    let td = past.td_with(position)?;
    if td.withdrawn.is_some() {
        return Some(Submitted {
            first: position,
            count: 1,
            ..td
        });
    }
    Some(td)
}

/// The TRB that is declared at a position of a ring now: a No Op where it was withdrawn.
pub fn declared_now(case: &Case, id: u8, known: &RingRecord, position: u64) -> Option<Block> {
    let block = known.declared(position)?;
    match submission(case, id, position) {
        Some(
            Submitted {
                withdrawn: Some(_),
                ..
            },
        ) => Some(NO_OP),
        _ => Some(block),
    }
}

/// The position that a write gives.
pub fn position_given(ring: &Ring, known: &RingRecord, at: Addr, word: u32) -> Option<u64> {
    match known.look(&ring.shape, at, word).giving {
        Some(RingGiving::Position(position)) => Some(position),
        _ => None,
    }
}

/// Whether the controller has the TRB of a position that it may not have passed.
pub fn is_handed_over(ring: &Ring, known: &RingRecord, position: u64) -> bool {
    let address = ring.shape.address(position) | 12;
    match Addr::new(address) {
        Some(at) => known.look(&ring.shape, at, 0).is_lent,
        None => false,
    }
}

/// The reset behind which no event gives back what the write of a control word handed over: the last one, where it came behind that.
pub fn reset_behind(case: &Case, control: u64) -> Option<usize> {
    let gave = case.known.last_writer(control)?;
    case.known.controller.reset.filter(|reset| gave < *reset)
}

/// The least position from the floor on at a place.
pub fn position_at(ring: &Ring, known: &RingRecord, place: u32) -> u64 {
    let (place, places) = (u64::from(place), u64::from(ring.shape.places()));
    let floor = known.floor_number();
    let reached = floor % places;
    let ahead = if place < reached {
        (places - reached).saturating_add(place)
    } else {
        place - reached
    };
    floor.saturating_add(ahead)
}

/// The TRB of a position, and where it lies: a TRB has its position's number, a place its address.
pub fn trb_named<'a>(ring: &Ring, position: u64) -> Shown<'a> {
    Shown::Trb {
        position,
        ring: ring.id,
        address: ring.shape.address(position),
    }
}

/// What a controller does that begins a ring with Cycle bit 0.
pub fn begun_with_0(case: &Case, ring: &Ring) -> &'static str {
    if case.known.word(ring.shape.address(0) | 12) % 2 == 0 {
        "the ring's first TRB has Cycle bit 0 in memory, as has all that was never written: a controller that begins so takes it at the first doorbell, submitted or not"
    } else {
        "the ring's first TRB has Cycle bit 1 in memory: a controller that begins so waits there"
    }
}
