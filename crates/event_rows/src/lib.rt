//! The events that a driver read: which of them no controller can have posted, and what the others add to the record. Transfer Events and
//! Command Completion Events (xHCI 4.5.3, 4.6, 4.8.3, 4.11.3).
#![tactic(auto)]

mod completions;
mod transfers;

pub use completions::read_completion;
pub use transfers::{
    NamedSpot, count_read, is_left_out, is_no_event, named_spot, read_transfer_event,
};
