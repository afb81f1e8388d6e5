//! What a clean row does to a log of leases: which leases begin with it, and which end.

mod completions;
mod events;
mod left_behind;
mod other_rows;
mod resets;
mod rows;
mod taking;
mod unfinished;
mod writes;

pub use rows::note_row;
pub(crate) use unfinished::end_contexts;
