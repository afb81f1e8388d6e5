//! Doorbells: which of them break a rule, and what they add to the record of a trace's rows.

mod bells;
mod rings;
mod touches;

pub use bells::{is_bad_doorbell, ring_doorbell};
pub use rings::endpoint_ring;
pub use touches::is_touched;
