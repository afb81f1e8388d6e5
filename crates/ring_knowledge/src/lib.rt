//! What is known of rings, slots, endpoints and ownership after the rows of a trace so far.
#![tactic(auto)]

mod lease;
mod register_record;
mod ring_record;

pub use lease::Lease;
pub use register_record::RegisterRecord;
pub use ring_record::{RingGiving, RingRecord, WordStanding, is_data_below};
