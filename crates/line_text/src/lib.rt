//! The lines of a text, the fields of a line, and numbers in hex digits.
#![tactic(auto)]

mod fields;
mod lanes;
mod lines;
mod numbers;

pub use fields::{Fields, Survey};
pub use lines::{Line, first_line};
pub use numbers::{
    push_u8, push_u16, push_u32, push_u64, two_words_of, u8_of, u16_of, u32_of, u64_of,
};
