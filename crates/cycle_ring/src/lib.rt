//! A reference producer for command and transfer rings: xHCI 4.9.2.
#![tactic(auto)]

mod fault;
mod producer;
mod writes;

pub use fault::{EnqueueFault, NotGiven};
pub use producer::Producer;
