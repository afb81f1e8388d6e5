//! What the program answers, for other programs: a report has the answer and what explains it in its parts, as plain data. It is
//! written as a JSON object on a line of its own, or with others as a SARIF log.
#![tactic(auto)]

mod outcome;
mod own;
mod parts;
mod report;
mod sarif;
mod sections;
mod values;

pub use outcome::{Cause, Numbered, Outcome, Verdict};
pub use own::{Own, Replay, Run, Take};
pub use parts::{Mark, MarkKind, Parts};
pub use report::{MEMORY_REPORT, Place, Report};
pub use sarif::{MEMORY_LOG, Sarif};
pub use sections::{Section, sections_of};
