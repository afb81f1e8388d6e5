//! Writes the trace of a plan: what a driver writes that declares these descriptors on one ring (xHCI 4.9.2).
#![tactic(auto)]

mod fault;
mod print;
mod write;

pub use fault::{PlanFault, PlanRefusal};
pub use write::write_plan;
