//! Finds the rings of a header by ID and by address, and what is kept of all of them.

mod coming;
mod finder;
mod kinds;
mod touching;

pub use finder::Finder;
pub use kinds::{is_command_ring, is_event_ring};
