//! The runs of the program: what each command does from its open input to what is told and the exit status. They read any reader and
//! write to any writer, and know no process, file or argument. An input is an `io::Result`: a reader that wasn't read yet, or why it
//! couldn't be opened, which the run tells. A verdict, as text or as a JSON object on a line, goes to `out`. Of text what hinders an
//! answer goes to `err`, with what explains it. A [`answers::Status`] says which of the exit statuses 0 to 3 that is.
#![tactic(auto)]

mod check_report;
mod check_run;
mod follow_run;
mod found;
mod harm_run;
mod json_runs;
mod judged;
mod no_note;
mod outcome;
mod plan_run;
mod read_note;
mod reading;
mod recorded;
mod replay_report;
mod replay_run;
mod reported;
mod sarif_run;
mod schedule_run;
mod several_run;
mod show_report;
mod show_run;
mod stream_answers;
mod summary;
mod told;
mod verify_report;
mod verify_run;
mod version_note;
mod waiting_note;
mod why_no;

pub use check_report::{checked, checked_as_it_comes};
pub use check_run::run_check;
pub use follow_run::run_follow;
pub use found::{About, Found};
pub use json_runs::{
    report_check, report_follow, report_page, report_replay, report_show, report_verify,
};
pub use outcome::{Outcome, Tally};
pub use plan_run::run_write;
pub use replay_run::run_replay;
pub use sarif_run::{logged, write_log};
pub use schedule_run::run_schedule;
pub use several_run::run_check_named;
pub use show_run::run_show;
pub use summary::tell_summary;
pub use told::{RefusedRow, Told};
pub use verify_run::run_verify;
