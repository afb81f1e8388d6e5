//! The run of a driver on the bench, over any reader and writers: what it says line by line, and what it is answered.
#![tactic(auto)]

mod course;
mod end;
mod header;
mod lines;
mod question;
mod run;

pub use end::{Ended, RefusedRow};
pub use run::{Asked, Left, keep, run_bench, tell_end};
