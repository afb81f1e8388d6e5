//! The rules of ownership: which of them a row breaks, what a clean trace is, and its leases.
#![tactic(auto)]

mod refusal;

pub use refusal::Refusal;
