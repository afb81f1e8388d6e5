//! What is told of a line, as a compiler tells of an error: the rule or the fault, the line, the other line that matters, what was
//! found and what was expected, and what helps. Bad lines and steps of a replay are explained here, from their texts alone.
#![tactic(auto)]

mod class;
mod colors;
mod diagnostic;
mod faults;
mod fields;
mod layout;
mod replays;
mod ring_lines;
mod source;

pub use class::Class;
pub use colors::{Colors, Part};
pub use diagnostic::{Diagnostic, Explanation, Matter, Quote, View};
pub use faults::{
    diagnostic_of_line, diagnostic_of_schedule_line, explain_bad_line, explain_plan_line,
};
pub use layout::{error_line, help_line, note_line};
pub use replays::diagnostic_of_step;
pub use source::{lines_to, quote};
