//! A bench: a driver's rows and a controller's steps beside them, as they come, each row judged and each step the model's; and an adversary
//! that chooses the steps (xHCI 4.6, 4.9).
#![tactic(auto)]

mod adversary;
mod bench;
mod candidates;
mod drawn;
mod events;
mod fault;
mod going;
mod live;
mod stepped;
mod written;

pub use adversary::{Adversary, Moment, Policy, Profile};
pub use bench::Bench;
pub use fault::BenchFault;
pub use going::go_on;
pub use live::{Live, LiveFault};
pub use written::Written;
