//! What a write of memory that breaks no rule starts: the command that it gives, and what comes under lease by it.

mod devices;
mod rings;
mod starts;

pub use starts::{note_plain_write, note_write};
