//! What the program answers: the text of each answer and the exit status that goes with it, what is told a person in plain words,
//! and how all that is written to the two streams, and the certificate of an accepted trace.
#![tactic(auto)]

mod answer;
mod decode;
mod explain;
mod keeping;
mod page;
mod replay_lines;
mod telling;

pub use answer::{Answer, FoundHarm, Status};
pub use decode::run_decode;
pub use explain::{
    Asked, Remarks, broken, diagnostic_on_schedule, explain_trace, harm_note, note_on_certificate,
    note_on_failure, note_on_leases, note_on_plan, note_on_schedule, note_on_trace,
    remarks_on_certificate, remarks_on_leases,
};
pub use keeping::keep;
pub use page::run_explain;
pub use replay_lines::ReplayEnd;
pub use telling::{tell, tell_failure, tell_named, write_whole};
