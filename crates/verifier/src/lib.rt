//! The verifier of certificates: whether leases are those of a trace.
#![tactic(auto)]

mod stream;
mod verifying;

pub use stream::verify_stream;
pub use verifying::verify;
