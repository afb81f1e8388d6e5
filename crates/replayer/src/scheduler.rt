//! Schedules that are made beside a trace: where no row breaks a rule the lazy one, a run of the controller's model that reads all its
//! rows; and where one does, a schedule that does harm.

mod attempt;
mod fault;
mod harmful;
mod lazy;
mod no_log;
mod notes;
mod rings;

pub use fault::ScheduleFault;
pub use harmful::{HarmfulRun, Search, harmful_run, harmful_schedule};
pub use lazy::lazy_schedule;
