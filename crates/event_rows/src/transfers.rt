//! Transfer Events: which of them break a rule, and what they add to the record of a trace's rows.

mod events;
mod profile;
mod reporting;
mod spots;

pub use events::{count_read, is_no_event};
pub use profile::is_left_out;
pub use reporting::read_transfer_event;
pub use spots::{NamedSpot, named_spot};
