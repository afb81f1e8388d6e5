//! Command Completion Events: which of them are impossible, and what the others end (xHCI 4.5.3, 4.6, 4.8.3).

mod ending;
mod impossible;
mod placing;
mod possible;
mod rings;
mod success;
mod types;

pub use ending::read_completion;
