//! What is wrong with a row that gives a command, rings a doorbell or writes a register, or that is not in the profile, each cause in
//! its own words.
#![tactic(auto)]

mod commands_given;
mod devices;
mod profile;
mod registers;
mod runs;

pub use commands_given::bad_command;
pub use devices::{bad_doorbell, busy};
pub use profile::{not_in_profile, note_left_out};
pub use registers::{after_stop, bad_erdp, bad_register};
pub use runs::impossible_read;
