//! The Event Ring of interrupter 0: xHCI 4.9.4, 5.5.2.3, 6.5.
#![tactic(auto)]

mod event_place;
mod fault;
mod table;

pub use event_place::EventPlace;
pub use fault::{BadErdp, ImpossibleEvent, NoRoom};
