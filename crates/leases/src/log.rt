//! The log of a certificate: whether its leases are those of the rows, followed row by row.

mod certificate_log;
mod followed;

pub use certificate_log::CertificateLog;
