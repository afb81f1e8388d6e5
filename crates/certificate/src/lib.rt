//! Certificates: the leases of a trace as bytes.
#![tactic(auto)]

mod fault;
mod no_certificate;
mod reading;
mod records_so_far;
mod sink;
mod writing;

pub use fault::{CertFault, EncodeFault};
pub use no_certificate::{BadLease, NoCertificate, Unread};
pub use reading::{decode, read_certificate};
pub use sink::{CountedSink, Failed, Sink};
pub use writing::{encode, encode_to};
