//! What is wrong with a row that submits TRBs, hands one over or writes one that the controller owns, or by which a ring comes or goes
//! or a TD is withdrawn, each cause in its own words.
#![tactic(auto)]

mod declarations;
mod givings;
mod restorings;
mod rings;
mod submissions;
mod withdrawals;

pub use declarations::{bad_descriptor, no_td, ring_full};
pub use givings::{link_fault, not_declared, write_to_owned};
pub use restorings::{GoingOn, not_restored};
pub use rings::{bad_free, bad_ring};
pub use submissions::{never_submitted, not_as_submitted, not_whole};
pub use withdrawals::bad_withdraw;
