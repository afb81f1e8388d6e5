//! The leases of a trace: which words the controller owns, and between which rows.

mod indexes;
mod lease_book;
mod lease_log;
mod opening;
mod ranges;

pub use indexes::{IndexTables, Indexes};
pub use lease_book::{LeaseBook, block_lease, link_lease, range_lease};
pub use lease_log::LeaseLog;
pub use opening::opening_leases;
pub use ranges::RangeIndexes;
