//! The checker: reads the rows of a trace in order, and tells the first that breaks a rule of ownership, and which.
#![tactic(auto)]

mod certificate;
mod fault;
mod lease_count;
mod pass;
mod rows;
mod stream_check;
mod trace_check;

pub use certificate::Certificate;
pub use fault::{CheckFault, StreamCheckFault};
pub use lease_count::LeaseCount;
pub use pass::{Behind, Passed, RingPass, pass_followed, pass_kept, pass_rows};
pub use stream_check::{check_stream, count_stream, follow_stream};
pub use trace_check::{check, check_in};
