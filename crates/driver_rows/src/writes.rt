//! The rules of a write of memory, and what it gives: xHCI 4.9.2, 4.11, 4.6.

mod blocks;
mod checks;
mod crossings;
mod given_commands;
mod plain;
mod positions;
mod side_by_side;
mod word_write;

pub use checks::check_write;
pub use plain::plain_refusal;
pub use word_write::WordWrite;
