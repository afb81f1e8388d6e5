//! The notes of a trace's rows for its lazy schedule, from the record of the rows so far.

mod completions;
mod notes;
mod placing;
mod reports;
mod rings;
mod rows;

pub use rows::{note_placed, note_row};
