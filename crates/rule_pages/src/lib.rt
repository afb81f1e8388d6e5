//! A page for the author of a driver on each number that the program prints. On a rule: what it is for, what a controller does to a driver
//! that breaks it, what to write instead, and a trace that breaks it. On what is wrong with a file, and on the harms: what is meant, and
//! what to do.
#![tactic(auto)]

mod choice;
mod faults;
mod harms;
mod naming;
mod rules;
mod subject;

pub use choice::page;
pub use naming::subject_called;
pub use subject::Subject;
