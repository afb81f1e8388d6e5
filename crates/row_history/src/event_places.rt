//! Events, and how far ERDP has gone on the Event Ring. They count from the last reset on.
use crate::finding::Case;
use crate::rows::reads;
use segments::Place;
use traces::{Register, Ring, Row};

/// How many events were read.
pub fn events_read(case: &Case) -> u64 {
    reads(case.rows_since_reset()) as u64
}

/// How many events the writes of ERDP gave back to the controller.
pub fn given_back(case: &Case, ring: &Ring) -> u64 {
    let places = u64::from(ring.shape.places());
    let mut back = 0u64;
    for row in case.rows_since_reset() {
        if let Row::Reg {
            register: Register::Erdp,
            value,
        } = row
        {
            if let Some(Place::Data { place, .. }) = ring.shape.place_at(*value / 16 * 16) {
                let reached = back % places;
                let ahead = (u64::from(place) + places).saturating_sub(reached) % places;
                back = back.saturating_add(ahead);
            }
        }
    }
    back
}
