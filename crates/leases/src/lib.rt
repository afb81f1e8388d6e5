//! The leases of a trace: which words the controller owns, and between which rows. What each row begins and ends, told to a log: one that
//! keeps the leases, or one that follows a certificate.
#![tactic(auto)]

mod book;
mod log;
mod rings;
mod rows;

pub use book::{Indexes, LeaseBook, LeaseLog, RangeIndexes, opening_leases};
pub use log::CertificateLog;
pub use rings::{note_coming, note_going, note_moving, note_restoring, note_withdrawing};
pub use rows::note_row;
