//! The world of a run: what the driver and a controller have done so far, and what would be harm.
#![tactic(auto)]

mod harm;
mod take;

pub use harm::Harm;
pub use take::Take;
